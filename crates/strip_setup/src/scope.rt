//! What a query is asked over: its entries, and the columns that they have.
ghost use Rattle.std.specs.Prelude.{◌≡◌, IfOk, is_some, option_map};
ghost use Rattle.strip_setup.specs.Queries.{entries_of, entry_of, execute_order, moved_columns, origin_columns, own_entry};
ghost use Rattle.strip_setup.specs.Resolve.{in_rule, outside_rules};

use crate::lists::copied;
use crate::names::{columns_of, table_named};
use crate::origins::alias_of;
use std::alloc::{AllocError, Global};
use std::marker::Model;
use strip_ast::{EntryTree, Origin, QueryTree};
use strip_value::{ColumnDef, ColumnDefList, Duplicate, Items, Kind, Name, TableDef};

/// What the entries of a query may name: the tables, and in a rule's query the columns of the rule's table.
#[derive(Drop)]
pub struct Scope<'a> {
    tables: &'a [TableDef],
    changed: Option<&'a [ColumnDef]>,
}

impl<'a> Model for Scope<'a> {
    ghost use Rattle.std.specs.Prelude.{option_map};
    ghost use Rattle.strip_setup.specs.Queries.{Scope as TheScope};
    ghost use Rattle.strip_setup.specs.Codes.{scope_code};

    ghost Value = { TheScope };

    ghost coded = { scope_code };

    ghost view = { λ s. record { tables = s.tables.now; changed = option_map (λ c. c.now) s.changed } };
}

/// An entry of a query: the name that may stand before its columns, and its columns.
#[derive(Debug, Drop)]
pub struct Entry {
    pub alias: Option<Name>,
    pub columns: ColumnDefList,
}

pub type EntryList = Items<Entry>;

impl<'a> Scope<'a> {
    /// Where a query outside rules stands: it may name tables alone.
    pub fn outside_rules(tables: &'a [TableDef]) -> Scope<'a>
        ensures { result ≡ outside_rules tables.now }
    {
        Scope {
            tables,
            changed: None,
        }
    }

    /// Where the queries of a rule on this table stand.
    pub fn in_rule(tables: &'a [TableDef], table: &Name) -> Scope<'a>
        ensures { result ≡ in_rule tables.now table.now }
    {
        let changed = columns_of(table_named(tables, table));
        Scope {
            tables,
            changed: Some(changed),
        }
    }

    /// The tables that may be named.
    pub fn tables(&self) -> &'a [TableDef]
        ensures { result.now ≡ self.now.tables }
    {
        self.tables
    }

    /// Whether transition tables may be named.
    pub fn is_in_rule(&self) -> bool
        ensures { result ≡ is_some self.now.changed }
    {
        self.changed.is_some()
    }

    /// The entries of a query.
    pub fn entries_of(&self, alloc: Global, query: &QueryTree) -> Result<EntryList, AllocError>
        ensures { IfOk result (λ made. made ≡ entries_of self.now query.now) }
    {
        let mut entries = EntryList::new(alloc);
        for entry in query.entries.as_slice() {
            entries.push(self.entry_of(alloc, entry)?)?;
        }
        Ok(entries)
    }

    fn entry_of(&self, alloc: Global, entry: &EntryTree) -> Result<Entry, AllocError>
        ensures { IfOk result (λ made. made ≡ entry_of self.now entry.now) }
    {
        let alias = match alias_of(entry) {
            Some(alias) => Some(alias.copy(alloc)?),
            None => None,
        };
        let columns = self.origin_columns(alloc, &entry.origin)?;
        Ok(Entry { alias, columns })
    }

    /// The columns of what an entry takes its rows from.
    fn origin_columns(&self, alloc: Global, origin: &Origin) -> Result<ColumnDefList, AllocError>
        ensures { IfOk result (λ made. made ≡ origin_columns self.now origin.now) }
    {
        match origin {
            Origin::Table(name) | Origin::Before(name) => {
                copied(alloc, columns_of(table_named(self.tables, name)))
            }
            _ => moved_columns(alloc, self.changed),
        }
    }
}

/// The column of the number of the row change.
fn execute_order(alloc: Global) -> Result<ColumnDef, AllocError>
    ensures { IfOk result (λ made. made ≡ execute_order) }
{
    let Ok(name) = Name::of(alloc, b"execute_order") else {
        return Err(AllocError);
    };
    Ok(ColumnDef {
        name,
        kind: Kind::Big,
    })
}

/// The columns of a transition table of a table with these columns; there are none outside a rule.
fn moved_columns(alloc: Global, changed: Option<&[ColumnDef]>) -> Result<ColumnDefList, AllocError>
    ensures { IfOk result (λ made. made ≡ moved_columns (option_map (λ c. c.now) changed.entry)) }
{
    let Some(columns) = changed else {
        return Ok(ColumnDefList::new(alloc));
    };
    let mut made = copied(alloc, columns)?;
    made.push(execute_order(alloc)?)?;
    Ok(made)
}

/// The one entry of an `update` or a `delete`: the table under its own name.
pub fn own_entry(alloc: Global, tables: &[TableDef], name: &Name) -> Result<EntryList, AllocError>
    ensures { IfOk result (λ made. made ≡ own_entry tables.now name.now) }
{
    let alias = name.copy(alloc)?;
    let columns = copied(alloc, columns_of(table_named(tables, name)))?;
    let mut entries = EntryList::new(alloc);
    entries.push(Entry {
        alias: Some(alias),
        columns,
    })?;
    Ok(entries)
}
