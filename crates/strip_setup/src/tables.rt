//! What statements of tables and of streams declare.
ghost use Rattle.std.specs.Prelude.{◌≡◌, ◌≤◌, IfOk, length, map, option_copied, unwrap_or};
ghost use Rattle.strip_setup.specs.Catalog.{table_id};
ghost use Rattle.strip_setup.specs.Resolve.{key_numbers, most_rows, number_in, stream_of, table_of};

use crate::lists::copied;
use crate::names::{column_number, columns_of, table_named, table_number};
use std::alloc::{AllocError, Global};
use strip_value::{ColumnDef, Duplicate, Id, Name, Stream, TableDef, U32List};

/// The most rows of a table whose limit isn't given.
const MOST_ROWS: u128 = 1_048_576;

/// The number of a column; one that isn't there is the first.
#[tactic(auto, using(crate::proofs::Numbers::below))]
pub fn number_in(columns: &[ColumnDef], name: &Name) -> u32
    requires narrow { length columns.now ≤ 16 }
    ensures { result ≡ number_in columns.now name.now }
{
    match column_number(columns, name) {
        Some(number) => number as u32,
        None => 0,
    }
}

/// The numbers of columns, in the order of the names.
pub fn numbers_in(
    alloc: Global,
    columns: &[ColumnDef],
    names: &[Name],
) -> Result<U32List, AllocError>
    requires narrow { length columns.now ≤ 16 }
    ensures { IfOk result (λ made. made ≡ map (number_in columns.now) names.now) }
{
    let mut numbers = U32List::new(alloc);
    for name in names {
        numbers.push(number_in(columns, name))?;
    }
    Ok(numbers)
}

/// The number of a table; one that isn't there is the first.
#[tactic(auto, using(crate::proofs::Numbers::below))]
pub fn table_id(tables: &[TableDef], name: &Name) -> Id
    requires few { length tables.now ≤ 64 }
    ensures { result ≡ table_id tables.now name.now }
{
    match table_number(tables, name) {
        Some(number) => Id(number as u32),
        None => Id(0),
    }
}

/// The base table that a `table` statement declares. Meant for a statement that isn't refused, as all of these calls.
pub fn table_of(
    alloc: Global,
    name: &Name,
    columns: &[ColumnDef],
    key: &[Name],
    limit: Option<u128>,
) -> Result<TableDef, AllocError>
    requires narrow { length columns.now ≤ 16 }
    requires limited { unwrap_or limit most_rows ≤ most_rows }
    ensures { IfOk result (λ made. made ≡ table_of name.now columns.now key.now limit) }
{
    let name = name.copy(alloc)?;
    let key = numbers_in(alloc, columns, key)?;
    let columns = copied(alloc, columns)?;
    Ok(TableDef {
        name,
        columns,
        key,
        limit: Some(limit.unwrap_or(MOST_ROWS) as u32),
        query: None,
        kept: None,
        declared: false,
    })
}

/// The numbers of the key columns of a table, if it is there.
fn key_numbers(table: Option<&TableDef>) -> &[u32]
    ensures { result.now ≡ key_numbers (option_copied table.entry) }
{
    match table {
        None => &[],
        Some(table) => table.key.as_slice(),
    }
}

/// The stream that a `stream` statement declares.
pub fn stream_of(
    alloc: Global,
    tables: &[TableDef],
    name: &Name,
    table: &Name,
    marked: bool,
) -> Result<Stream, AllocError>
    requires few { length tables.now ≤ 64 }
    ensures { IfOk result (λ made. made ≡ stream_of tables.now name.now table.now marked) }
{
    let name = name.copy(alloc)?;
    let def = table_named(tables, table);
    let columns = copied(alloc, columns_of(def))?;
    let key = copied(alloc, key_numbers(def))?;
    Ok(Stream {
        name,
        table: table_id(tables, table),
        marked,
        columns,
        key,
    })
}
