ghost use Rattle.std.specs.Prelude.{◌≡◌, ◌≤◌, ◌∷◌, Some, length, map, not, OnOk, OnErr, IfOk};
ghost use Rattle.std.specs.List.{AllByRecursion};
ghost use Rattle.std.specs.Option.{ForSome, option_copied};
ghost use Rattle.strip_add.specs.Parts.{Changed, IsUnderAfter, PutsSlot, TakesBack, is_zero_at, numbers, sum_at, swept, swept_at};
ghost use Rattle.strip_meaning.specs.Sums.{IsDerived, any_total, applied, summed};
ghost use Rattle.strip_value.specs.Kinds.{FitsColumns};
ghost use Rattle.strip_value.specs.Table.{IsTable, Rises, key_of};

use crate::folding::Totals;
use crate::sums::{behind_key, number, summed_row};
use std::alloc::{AllocError, Global};
use strip_table::Table;
use strip_value::{Row, Value};

/// Adds totals to a derived table. Where memory is wanting, nothing changes: what needs memory comes
/// first, and where a row can't be put, those before it are taken back.
///
/// Takes a few searches of the table for each key of the totals.
pub fn apply(alloc: Global, table: &mut Table, totals: &Totals) -> Result<(), AllocError>
    requires derived { IsDerived table.old.def }
    requires rise { Rises table.old.def.key totals.now }
    requires kinds { AllByRecursion (FitsColumns table.old.def.columns) totals.now }
    requires within { AllByRecursion (IsUnderAfter table.old.def table.old.rows) totals.now }
    ensures ok { OnOk result (table.new ≡ record table.old { rows = applied table.old.def table.old.rows totals.now }) }
    ensures err { OnErr result (table.new ≡ table.old) }
{
    let totals = totals.as_slice();
    let mut slots = sums_of(alloc, table, totals)?;
    put_all(table, totals, slots.as_mut_slice())?;
    remove_zeros(table, totals);
    Ok(())
}

/// For each of the totals the row of the sums.
fn sums_of(alloc: Global, table: &Table, totals: &[Row]) -> Result<Vec<Option<Row>>, AllocError>
    requires derived { IsDerived table.now.def }
    requires kinds { AllByRecursion (FitsColumns table.now.def.columns) totals.now }
    requires within { AllByRecursion (IsUnderAfter table.now.def table.now.rows) totals.now }
    ensures table { IsTable table.now.def table.now.rows }
    ensures made { IfOk result (λ slots. slots.items ≡ map (sum_at table.now.def table.now.rows) totals.now) }
{
    // That the rows rise and are of the table's kinds is what the iterator's clause says.
    let _rows = table.rows();
    let mut slots = Vec::with_capacity(alloc, totals.len())?;
    for row in totals {
        let sum = summed_row(alloc, table, row.values())?;
        slots.push(Some(sum))?;
    }
    Ok(slots)
}

/// Puts the row of each slot, and leaves in the slot the row that it replaced. Where one can't be put,
/// those before it are taken back, the last one first.
fn put_all(table: &mut Table, totals: &[Row], slots: &mut [Option<Row>]) -> Result<(), AllocError>
    requires table { IsTable table.old.def table.old.rows }
    requires derived { IsDerived table.old.def }
    requires rise { Rises table.old.def.key totals.now }
    requires kinds { AllByRecursion (FitsColumns table.old.def.columns) totals.now }
    requires within { AllByRecursion (IsUnderAfter table.old.def table.old.rows) totals.now }
    requires slots { slots.old ≡ map (sum_at table.old.def table.old.rows) totals.now }
    ensures def { OnOk result (table.new.def ≡ table.old.def) }
    ensures ok { OnOk result (Changed table.old.def.key (sum_at table.old.def table.old.rows) table.old.rows table.new.rows totals.now) }
    ensures err { OnErr result (table.new ≡ table.old) }
{
    for at in 0..totals.len() {
        match put_slot(table, &mut slots[at]) {
            Ok(()) => {}
            Err(_) => {
                for done in 0..at {
                    let back = at - 1 - done;
                    take_back(table, &totals[back], &mut slots[back]);
                }
                return Err(AllocError);
            }
        }
    }
    Ok(())
}

/// Puts the row of a slot, and leaves the row that it replaced.
fn put_slot(table: &mut Table, slot: &mut Option<Row>) -> Result<(), AllocError>
    requires { ForSome slot.old (FitsColumns table.old.def.columns) }
    ensures ok { OnOk result (PutsSlot table.old slot.old table.new slot.new) }
    ensures err { OnErr result (table.new ≡ table.old) }
{
    let Some(row) = slot.take() else {
        return Ok(());
    };
    match table.put(row) {
        Ok(replaced) => {
            *slot = replaced;
            Ok(())
        }
        Err(_) => Err(AllocError),
    }
}

/// Brings back the row that was replaced, or takes out the one of the key of `row` that was new.
fn take_back(table: &mut Table, row: &Row, slot: &mut Option<Row>)
    requires replaced { ForSome slot.old (FitsColumns table.old.def.columns) }
    requires row { length table.old.def.key ≤ length row.now }
    ensures { TakesBack table.old row.now slot.old table.new }
{
    match slot.take() {
        Some(old) => table.put_back(old),
        None => {
            let width = table.def().key.len();
            let (key, _) = row.values().split_at(width);
            table.take_out(key);
        }
    }
}

/// Takes out the rows of these keys whose totals are all zero.
fn remove_zeros(table: &mut Table, totals: &[Row])
    requires derived { IsDerived table.old.def }
    requires rows { Rises table.old.def.key table.old.rows }
    requires rise { Rises table.old.def.key totals.now }
    requires kinds { AllByRecursion (FitsColumns table.old.def.columns) totals.now }
    ensures def { table.new.def ≡ table.old.def }
    ensures changed { Changed table.old.def.key (swept_at table.old.def table.old.rows) table.old.rows table.new.rows totals.now }
{
    for row in totals {
        remove_zero(table, row);
    }
}

/// Takes out the row of the key of `row`, if its totals are all zero.
fn remove_zero(table: &mut Table, row: &Row)
    requires derived { IsDerived table.old.def }
    requires fits { FitsColumns table.old.def.columns row.now }
    ensures { table.new ≡ record table.old { rows = swept table.old.def table.old.rows (key_of table.old.def.key row.now) } }
{
    let width = table.def().key.len();
    let (key, _) = row.values().split_at(width);
    let gone = is_zero_row(table.get(key), width);
    if gone {
        table.take_out(key);
    }
}

/// Whether there is a row and all its totals are zero.
fn is_zero_row(row: Option<&Row>, width: usize) -> bool
    ensures { result ≡ is_zero_at width (option_copied row.entry) }
{
    match row {
        Some(row) => is_zero(behind_key(Some(row), width)),
        None => false,
    }
}

fn is_zero(totals: &[Value]) -> bool
    ensures { result ≡ not (any_total (numbers totals.now)) }
{
    for total in totals {
        if number(total) != 0 {
            return false;
        }
    }
    true
}
