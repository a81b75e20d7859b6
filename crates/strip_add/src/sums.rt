ghost use Rattle.std.specs.Prelude.{◌≡◌, ◌≤◌, ◌^◌, ◌++◌, drop, map, length, IfOk, OnOk};
ghost use Rattle.std.specs.List.{AllByRecursion};
ghost use Rattle.std.specs.Option.{option_copied};
ghost use Rattle.strip_add.specs.Parts.{behind, first_number, numbers};
ghost use Rattle.strip_meaning.specs.Sums.{IsDerived, IsUnder, as_derived, number_of, plus, summed, totals_at, totals_of};
ghost use Rattle.strip_value.specs.Kinds.{FitsColumns};
ghost use Rattle.strip_value.specs.Table.{column_of, key_of};

use std::alloc::{AllocError, Global};
use strip_table::Table;
use strip_value::{Duplicate, Row, Value};

/// The number of a total; a text counts as 0.
pub(crate) fn number(value: &Value) -> i128
    ensures { result ≡ number_of value.now }
{
    match value {
        Value::Int(n) => *n,
        Value::Text(_) => 0,
    }
}

fn push_copies(alloc: Global, into: &mut Vec<Value>, values: &[Value]) -> Result<(), AllocError>
    ensures { OnOk result (into.new.items ≡ into.old.items ++ values.now) }
{
    for value in values {
        into.push(value.copy(alloc)?)?;
    }
    Ok(())
}

/// A copy of a column; 0 where the row hasn't got it.
fn column_copy(alloc: Global, row: &[Value], column: u32) -> Result<Value, AllocError>
    ensures { IfOk result (λ value. value ≡ column_of row.now column) }
{
    let zero = Value::Int(0);
    let value = row.get(column as usize).unwrap_or(&zero);
    value.copy(alloc)
}

/// The named columns of a row, in the order of the names.
pub(crate) fn derived_row(
    alloc: Global,
    row: &[Value],
    from: &[u32],
) -> Result<Vec<Value>, AllocError>
    ensures { IfOk result (λ made. made.items ≡ as_derived from.now row.now) }
{
    let mut values = Vec::with_capacity(alloc, from.len())?;
    for column in from {
        let value = column_copy(alloc, row, *column)?;
        values.push(value)?;
    }
    Ok(values)
}

/// The first number, 0 where there is none, and what comes behind it.
fn first_and_others(values: &[Value]) -> (i128, &[Value])
    ensures first { result.0 ≡ first_number values.now }
    ensures others { result.1.now ≡ drop 1 values.now }
{
    match values.split_first() {
        Some((first, others)) => (number(first), others),
        None => (0, values),
    }
}

/// Appends the sums of old and further numbers, place by place; where the old ones have ended, the
/// further ones.
fn push_sums(into: &mut Vec<Value>, old: &[Value], more: &[Value]) -> Result<(), AllocError>
    requires lengths { length old.now ≤ length more.now }
    requires fit { AllByRecursion (IsUnder (2 ^ 126)) (plus (numbers old.now) (numbers more.now)) }
    ensures { OnOk result (into.new.items ≡ into.old.items ++ map Value.Int (plus (numbers old.now) (numbers more.now))) }
{
    let mut left = old;
    for value in more {
        let (first, others) = first_and_others(left);
        into.push(Value::Int(first + number(value)))?;
        left = others;
    }
    Ok(())
}

/// What stands behind the key of a row that may be there.
pub(crate) fn behind_key<'a>(row: Option<&'a Row>, width: usize) -> &'a [Value]
    ensures { result.now ≡ behind width (option_copied row.entry) }
{
    match row {
        Some(row) => {
            let values = row.values();
            if width < values.len() {
                &values[width..]
            } else {
                &[]
            }
        }
        None => &[],
    }
}

/// The key and totals of `row`, with the totals added that the table has for the key.
pub(crate) fn summed_row(alloc: Global, table: &Table, row: &[Value]) -> Result<Row, AllocError>
    requires derived { IsDerived table.now.def }
    requires rows { AllByRecursion (FitsColumns table.now.def.columns) table.now.rows }
    requires fits { FitsColumns table.now.def.columns row.now }
    requires sums { AllByRecursion (IsUnder (2 ^ 126)) (plus (totals_at table.now.def table.now.rows (key_of table.now.def.key row.now)) (totals_of table.now.def row.now)) }
    ensures { IfOk result (λ made. made ≡ summed table.now.def table.now.rows row.now) }
{
    let width = table.def().key.len();
    let (key, totals) = row.split_at(width);
    let old = behind_key(table.get(key), width);
    let mut values = Vec::with_capacity(alloc, row.len())?;
    push_copies(alloc, &mut values, key)?;
    push_sums(&mut values, old, totals)?;
    Ok(Row::of(values))
}
