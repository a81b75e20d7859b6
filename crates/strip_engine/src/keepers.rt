//! How derived tables are kept.
ghost use Rattle.std.specs.Prelude.{◌≡◌, IfOk};
ghost use Rattle.strip_engine.specs.Built.{kept_in, kept_tables};
ghost use Rattle.strip_engine.specs.Keepers.{column_in, keeper_by, keepers_of, named_column};
ghost use Rattle.strip_meaning.specs.Contents.{def_at};
ghost use Rattle.strip_meaning.specs.Maintained.{source_of};
ghost use Rattle.strip_setup.specs.Maintain.{query_in};

use std::alloc::{AllocError, Global};
use strip_value::{Calc, Function, Id, Input, Query, Step, TableDef, What};

/// How a derived table is kept at each commit: its number, that of the table that it is made of, and the columns of that
/// table that it groups by and sums.
#[derive(Clone, Copy, Debug)]
pub struct Keeper {
    pub table: Id,
    pub source: Id,
    pub group: u32,
    pub value: u32,
}

/// The table that a query of one entry reads.
fn source(query: &Query) -> Id
    ensures { result ≡ source_of query.now }
{
    match query.entries.as_slice().first() {
        Some(Input::Table(id)) => *id,
        _ => Id(0),
    }
}

/// The column of an expression that is one.
fn column(calc: &Calc) -> u32
    ensures { result ≡ column_in calc.now }
{
    match calc {
        Calc::Column { column, .. } => *column,
        _ => 0,
    }
}

/// The column that an item shows or sums.
fn named(query: &Query, item: usize) -> u32
    ensures { result ≡ named_column query.now item }
{
    match query.items.as_slice().get(item) {
        Some(item) => match &item.what {
            What::Plain(calc) | What::Sum(calc) => column(calc),
            What::Count => 0,
        },
        None => 0,
    }
}

/// How the table of a number with this query is kept.
fn keeper_by(table: Id, query: &Query) -> Keeper
    ensures { result ≡ keeper_by table query.now }
{
    Keeper {
        table,
        source: source(query),
        group: named(query, 0),
        value: named(query, 1),
    }
}

/// How the table of a number is kept.
fn keeper_for(defs: &[TableDef], table: Id) -> Keeper
    ensures { result ≡ keeper_by table (query_in (def_at defs.now table)) }
{
    match defs.get(table.0 as usize) {
        Some(
            TableDef {
                query: Some(query),
                ..
            },
        ) => keeper_by(table, query),
        _ => Keeper {
            table,
            source: Id(0),
            group: 0,
            value: 0,
        },
    }
}

/// The table that a function keeps: that of its first step.
fn table_kept(function: &Function) -> Id
    ensures { result ≡ kept_in function.now.steps }
{
    match function.steps.as_slice().first() {
        Some(Step::Add { into, .. }) => *into,
        Some(Step::Redo { table, .. }) => *table,
        None => Id(0),
    }
}

/// One for each table that is declared to be kept, in the order of the functions.
pub(crate) fn keepers_of(
    alloc: Global,
    defs: &[TableDef],
    functions: &[Function],
) -> Result<Vec<Keeper>, AllocError>
    ensures { IfOk result (λ keepers. keepers.items ≡ keepers_of defs.now (kept_tables functions.now)) }
{
    let mut keepers = Vec::with_capacity(alloc, functions.len())?;
    for function in functions {
        keepers.push(keeper_for(defs, table_kept(function)))?;
    }
    Ok(keepers)
}
