//! What the rules of derived tables bind at a commit.
ghost use Rattle.std.specs.Prelude.{◌≡◌, ◌≤◌, ◌++◌, ◌==◌, None, if◌then◌else◌, length, IfOk, OnOk};
ghost use Rattle.std.specs.List.{AllByRecursion};
ghost use Rattle.std.specs.Option.{option_copied};
ghost use Rattle.strip_engine.specs.Changes.{bound_by, bound_rows, delta_row, deltas, fired_by, moved_row};
ghost use Rattle.strip_engine.specs.Deltas.{IsSmallAt, FitsKeeper, KeepsSmall};
ghost use Rattle.strip_engine.specs.Undo.{changes_of};
ghost use Rattle.strip_model.specs.Says.{row_count};
ghost use Rattle.strip_value.specs.Query.{in_order, number_of};
ghost use Rattle.strip_value.specs.Table.{column_of};

use crate::keepers::Keeper;
use crate::undo::Logged;
use std::alloc::{AllocError, Global};
use strip_value::{Bound, BoundList, Change, Duplicate, FiredList, FiredRule, Row, Shift, Value};

/// How a row came into a table or left it at a change.
#[derive(Clone, Copy, Debug)]
pub enum Side {
    Inserted,
    Deleted,
    /// A replaced row as it was.
    Old,
    /// A replaced row as it is.
    New,
}

/// The row that came or went, if it did so in this way.
fn row_of(shift: &Shift, side: Side) -> Option<&Row>
    ensures { option_copied result ≡ moved_row side shift.now }
{
    match (side, shift) {
        (Side::Inserted, Shift::Inserted(row)) => Some(row),
        (Side::Deleted, Shift::Deleted(row)) => Some(row),
        (Side::Old, Shift::Changed { old, .. }) => Some(old),
        (Side::New, Shift::Changed { new, .. }) => Some(new),
        _ => None,
    }
}

/// The same, if the change is of this keeper's table.
fn row_for<'a>(change: &'a Change, keeper: &Keeper, side: Side) -> Option<&'a Row>
    ensures { option_copied result ≡ (if change.now.table == keeper.now.source then moved_row side change.now.shift else None) }
{
    if change.table == keeper.source {
        row_of(&change.shift, side)
    } else {
        None
    }
}

/// The number of a column; 0 where it has none.
fn number(row: &[Value], column: u32) -> i128
    ensures { result ≡ number_of (column_of row.now column) }
{
    match row.get(column as usize) {
        Some(Value::Int(n)) => *n,
        _ => 0,
    }
}

/// A copy of a column; 0 where the row hasn't got it.
fn column(alloc: Global, row: &[Value], column: u32) -> Result<Value, AllocError>
    ensures { IfOk result (λ value. value ≡ column_of row.now column) }
{
    match row.get(column as usize) {
        Some(value) => value.copy(alloc),
        None => Ok(Value::Int(0)),
    }
}

/// A row of the derived table for a row that came or went.
fn delta(alloc: Global, keeper: &Keeper, side: Side, row: &[Value]) -> Result<Row, AllocError>
    requires { IsSmallAt keeper.now row.now }
    ensures { IfOk result (λ made. made ≡ delta_row side keeper.now row.now) }
{
    let group = column(alloc, row, keeper.group)?;
    let value = number(row, keeper.value);
    let (sum, count) = match side {
        Side::Inserted | Side::New => (value, 1),
        Side::Deleted | Side::Old => (0 - value, -1),
    };
    let mut values = Vec::with_capacity(alloc, 3)?;
    values.push(group)?;
    values.push(Value::Int(sum))?;
    values.push(Value::Int(count))?;
    Ok(Row::of(values))
}

/// The rows for all that came or went in one way, in row order.
fn delta_rows(
    alloc: Global,
    log: &[Logged],
    keeper: &Keeper,
    side: Side,
) -> Result<Vec<Row>, AllocError>
    requires { AllByRecursion (FitsKeeper keeper.now) (changes_of log.now) }
    ensures { IfOk result (λ rows. rows.items ≡ in_order (deltas side keeper.now (changes_of log.now))) }
{
    let mut rows = Vec::new(alloc);
    for logged in log {
        if let Some(row) = row_for(&logged.change, keeper, side) {
            rows.push(delta(alloc, keeper, side, row.values())?)?;
        }
    }
    rows.sort()?;
    Ok(rows)
}

/// Binds rows to the one bound table.
fn bind(alloc: Global, rows: Vec<Row>, into: &mut BoundList) -> Result<(), AllocError>
    ensures { OnOk result (into.new ≡ into.old ++ bound_rows rows.items) }
{
    for row in rows {
        let key = Row::of(Vec::new(alloc));
        into.push(Bound { bound: 0, key, row })?;
    }
    Ok(())
}

/// What the rule of one derived table binds.
fn bound(alloc: Global, log: &[Logged], keeper: &Keeper) -> Result<BoundList, AllocError>
    requires { AllByRecursion (FitsKeeper keeper.now) (changes_of log.now) }
    ensures { IfOk result (λ rows. rows ≡ bound_by keeper.now (changes_of log.now)) }
{
    let mut rows = BoundList::new(alloc);
    let inserted = delta_rows(alloc, log, keeper, Side::Inserted)?;
    bind(alloc, inserted, &mut rows)?;
    let deleted = delta_rows(alloc, log, keeper, Side::Deleted)?;
    bind(alloc, deleted, &mut rows)?;
    let old = delta_rows(alloc, log, keeper, Side::Old)?;
    bind(alloc, old, &mut rows)?;
    let new = delta_rows(alloc, log, keeper, Side::New)?;
    bind(alloc, new, &mut rows)?;
    Ok(rows)
}

/// What the rules bind that bind a row, by rising number.
pub(crate) fn fired(
    alloc: Global,
    log: &[Logged],
    keepers: &[Keeper],
) -> Result<FiredList, AllocError>
    requires small { AllByRecursion (KeepsSmall (changes_of log.now)) keepers.now }
    requires few { length keepers.now ≤ 64 }
    ensures { IfOk result (λ fired. fired ≡ fired_by 0 keepers.now (changes_of log.now)) }
{
    let mut fired = FiredList::new(alloc);
    let mut number = 0;
    for keeper in keepers {
        let rows = bound(alloc, log, keeper)?;
        if !rows.is_empty() {
            fired.push(FiredRule { number, rows })?;
        }
        number += 1;
    }
    Ok(fired)
}

/// How many rows are bound. More than can be counted are no rows of any memory.
pub(crate) fn rows_bound(fired: &FiredList) -> Result<u64, AllocError>
    ensures { IfOk result (λ count. count ≡ row_count fired.now) }
{
    let mut count: u64 = 0;
    for rule in fired.as_slice() {
        let Some(more) = count.checked_add(rule.rows.len() as u64) else {
            return Err(AllocError);
        };
        count = more;
    }
    Ok(count)
}
