//! What acts stand for.
ghost use Rattle.std.specs.Prelude.{◌≡◌, ◌≤◌, IfOk, length, map};
ghost use Rattle.strip_ast.specs.declared.deeds.Deed.TheVariants as deed;
ghost use Rattle.strip_setup.specs.Places.{AsksFew};
ghost use Rattle.strip_setup.specs.Queries.{calc_of, filter_of, own_entry};
ghost use Rattle.strip_setup.specs.Resolve.{act_of, outside_rules, sets_of};
ghost use Rattle.strip_setup.specs.Small.{AreFew, IsSmallScope};

use crate::calculations::{calc_of, filter_of};
use crate::names::{columns_of, table_named};
use crate::scope::{Entry, Scope, own_entry};
use crate::tables::{number_in, table_id};
use std::alloc::{AllocError, Global};
use strip_ast::{Deed, Expr, SetTree};
use strip_value::{Act, ColumnDef, Duplicate, Id, Name, Set, SetList, TableDef};

/// What an update sets, over the one entry of its table.
fn sets_of(
    alloc: Global,
    entries: &[Entry],
    columns: &[ColumnDef],
    sets: &[SetTree],
) -> Result<SetList, AllocError>
    requires few { AreFew entries.now }
    requires narrow { length columns.now ≤ 16 }
    ensures { IfOk result (λ made. made ≡ sets_of entries.now columns.now sets.now) }
{
    let mut made = SetList::new(alloc);
    for set in sets {
        let value = calc_of(alloc, entries, &set.value)?;
        made.push(Set {
            column: number_in(columns, &set.column),
            value,
        })?;
    }
    Ok(made)
}

/// An update of a table.
fn update_of(
    alloc: Global,
    tables: &[TableDef],
    table: &Name,
    sets: &[SetTree],
    filter: &Option<Expr>,
) -> Result<Act, AllocError>
    requires small { IsSmallScope (outside_rules tables.now) }
    ensures { IfOk result (λ made. made ≡ act_of tables.now (deed.Update table.now sets.now filter.now)) }
{
    let entries = own_entry(alloc, tables, table)?;
    let columns = columns_of(table_named(tables, table));
    let sets = sets_of(alloc, entries.as_slice(), columns, sets)?;
    let filter = filter_of(alloc, entries.as_slice(), filter)?;
    Ok(Act::Update {
        table: table_id(tables, table),
        sets,
        filter,
    })
}

/// What an act stands for; what is no act shows the first table.
pub fn act_of(alloc: Global, tables: &[TableDef], deed: &Deed) -> Result<Act, AllocError>
    requires small { IsSmallScope (outside_rules tables.now) }
    requires few { AsksFew deed.now }
    ensures { IfOk result (λ made. made ≡ act_of tables.now deed.now) }
{
    match deed {
        Deed::Insert { table, rows } => {
            let rows = rows.copy(alloc)?;
            Ok(Act::Insert {
                table: table_id(tables, table),
                rows,
            })
        }
        Deed::Put { table, row } => {
            let row = row.copy(alloc)?;
            Ok(Act::Put {
                table: table_id(tables, table),
                row,
            })
        }
        Deed::Update {
            table,
            sets,
            filter,
        } => update_of(alloc, tables, table, sets.as_slice(), filter),
        Deed::Delete { table, filter } => {
            let entries = own_entry(alloc, tables, table)?;
            let filter = filter_of(alloc, entries.as_slice(), filter)?;
            Ok(Act::Delete {
                table: table_id(tables, table),
                filter,
            })
        }
        Deed::Select { query } => Ok(Act::Select {
            query: Scope::outside_rules(tables).query_of(alloc, query)?,
        }),
        Deed::Show { table } => Ok(Act::Show {
            table: table_id(tables, table),
        }),
        _ => Ok(Act::Show { table: Id(0) }),
    }
}
