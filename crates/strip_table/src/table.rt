ghost use Rattle.std.specs.Prelude.{◌≡◌, [], length, IfOk};
ghost use Rattle.std.specs.Option.{option_copied};
ghost use Rattle.strip_table.specs.Puts.{Puts, PutsRow, Removes, reached as passed};
ghost use Rattle.strip_value.specs.Kinds.{FitsColumns};
ghost use Rattle.strip_value.specs.Table.{IsTable, Rises, row_at, without, put_back};

use crate::places::{place_of_key, place_of_row};
use crate::rows::Rows;
use std::alloc::{AllocError, Global};
use std::marker::Model;
use std::mem;
use strip_value::{Duplicate, Row, TableDef, Value};

/// A keyed table. Contracts see its definition and the list of its rows.
#[derive(Debug, Drop)]
pub struct Table {
    def: TableDef,
    rows: Vec<Row>,
}

impl Model for Table {
    ghost use Rattle.strip_value.specs.Table.{Keyed, IsTable};
    ghost use Rattle.strip_value.specs.Codes.{keyed_code};

    ghost Value = { Keyed };

    ghost coded = { keyed_code };

    ghost view = { λ t. record { def = t.def; rows = t.rows.items } };

    ghost invariant = { λ t. IsTable t.def t.rows.items };
}

/// Why a row wasn't put.
#[derive(Debug, Drop)]
pub enum PutError {
    /// The table has as many rows as its limit, and none of this key.
    Full { limit: u32 },
    Memory,
}

impl Table {
    /// An empty table.
    pub fn new(alloc: Global, def: &TableDef) -> Result<Table, AllocError>
        ensures { IfOk result (λ table. (table.def ≡ def.now) × (table.rows ≡ [])) }
    {
        let def = def.copy(alloc)?;
        Ok(Table {
            def,
            rows: Vec::new(alloc),
        })
    }

    /// A table with the same definition and rows; later changes of either don't show in the other. It takes as much memory as
    /// the table has.
    pub fn share(&self, alloc: Global) -> Result<Table, AllocError>
        ensures { IfOk result (λ table. table ≡ self.now) }
    {
        let def = self.def.copy(alloc)?;
        let rows = copied(alloc, self.rows.as_slice())?;
        Ok(Table { def, rows })
    }

    pub fn def(&self) -> &TableDef
        ensures { result.now ≡ self.now.def }
    {
        &self.def
    }

    /// The row of a key, the key's values in the order of the table's key.
    pub fn get(&self, key: &[Value]) -> Option<&Row>
        ensures { option_copied result ≡ row_at self.now.def.key self.now.rows key.now }
    {
        row_of(self.def.key.as_slice(), self.rows.as_slice(), key)
    }

    /// The rows by rising key.
    pub fn rows(&self) -> Rows<'_>
        ensures all { result ≡ self.now.rows }
        ensures table { IsTable self.now.def self.now.rows }
    {
        Rows {
            left: self.rows.as_slice(),
        }
    }

    pub fn len(&self) -> u64
        ensures { result ≡ length self.now.rows }
    {
        self.rows.len() as u64
    }

    /// Puts the row in the place of the row of its key, which is answered, or as a new row.
    pub fn put(&mut self, row: Row) -> Result<Option<Row>, PutError>
        requires { FitsColumns self.old.def.columns row }
        ensures puts { Puts self.old row self.new result }
        ensures table { IsTable self.old.def self.old.rows }
    {
        put_row(self.def.key.as_slice(), self.def.limit, &mut self.rows, row)
    }

    /// Puts the row in the place of the row of its key; where no row has the key, nothing changes.
    pub fn put_back(&mut self, row: Row)
        requires { FitsColumns self.old.def.columns row }
        ensures { self.new ≡ record self.old { rows = put_back self.old.def.key self.old.rows row } }
    {
        replace_row(self.def.key.as_slice(), &mut self.rows, row);
    }

    /// Takes the row of a key out.
    pub fn remove(&mut self, key: &[Value]) -> Result<Option<Row>, AllocError>
        ensures { IfOk result (Removes self.old key.now self.new) }
    {
        Ok(self.take_out(key))
    }

    /// `remove`, which needs no memory in this representation.
    pub fn take_out(&mut self, key: &[Value]) -> Option<Row>
        ensures { Removes self.old key.now self.new result }
    {
        take_row(self.def.key.as_slice(), &mut self.rows, key)
    }
}

fn copied(alloc: Global, rows: &[Row]) -> Result<Vec<Row>, AllocError>
    ensures { IfOk result (λ made. made.items ≡ rows.now) }
{
    let mut made = Vec::with_capacity(alloc, rows.len())?;
    for row in rows {
        made.push(row.copy(alloc)?)?;
    }
    Ok(made)
}

fn row_of<'a>(columns: &[u32], rows: &'a [Row], key: &[Value]) -> Option<&'a Row>
    requires { Rises columns.now rows.now }
    ensures { option_copied result ≡ row_at columns.now rows.now key.now }
{
    match place_of_key(columns, rows, key) {
        Ok(at) => Some(&rows[at]),
        Err(_gap) => None,
    }
}

fn reached(limit: Option<u32>, count: usize) -> Option<u32>
    ensures { result ≡ passed limit count }
{
    match limit {
        Some(limit) if count >= limit as usize => Some(limit),
        _ => None,
    }
}

fn put_row(
    columns: &[u32],
    limit: Option<u32>,
    rows: &mut Vec<Row>,
    row: Row,
) -> Result<Option<Row>, PutError>
    requires { Rises columns.now rows.old.items }
    ensures { PutsRow columns.now limit rows.old.items row rows.new.items result }
{
    match place_of_row(columns, rows.as_slice(), row.values()) {
        Ok(at) => {
            let old = mem::replace(&mut rows[at], row);
            Ok(Some(old))
        }
        Err(at) => {
            if let Some(limit) = reached(limit, rows.len()) {
                return Err(PutError::Full { limit });
            }
            let Ok(()) = rows.insert(at, row) else {
                return Err(PutError::Memory);
            };
            Ok(None)
        }
    }
}

fn replace_row(columns: &[u32], rows: &mut Vec<Row>, row: Row)
    requires { Rises columns.now rows.old.items }
    ensures { rows.new.items ≡ put_back columns.now rows.old.items row }
{
    match place_of_row(columns, rows.as_slice(), row.values()) {
        Ok(at) => rows[at] = row,
        Err(_gap) => {}
    }
}

fn take_row(columns: &[u32], rows: &mut Vec<Row>, key: &[Value]) -> Option<Row>
    requires { Rises columns.now rows.old.items }
    ensures row { result ≡ row_at columns.now rows.old.items key.now }
    ensures others { rows.new.items ≡ without columns.now rows.old.items key.now }
{
    match place_of_key(columns, rows.as_slice(), key) {
        Ok(at) => Some(rows.remove(at)),
        Err(_gap) => None,
    }
}
