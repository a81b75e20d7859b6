ghost use Rattle.std.specs.Prelude.{◌≡◌};
ghost use Rattle.strip_table.specs.Keys.{compared_key, compared_keys};
ghost use Rattle.strip_value.specs.Order.{value_cmp};
ghost use Rattle.strip_value.specs.Table.{column_of};

use std::cmp::Ordering;
use strip_value::{Row, Value};

/// What one column says of the order of two rows.
fn compare_column(column: u32, left: &[Value], right: &[Value]) -> Ordering
    ensures { result ≡ value_cmp (column_of left.now column) (column_of right.now column) }
{
    let zero = Value::Int(0);
    let left = left.get(column as usize).unwrap_or(&zero);
    let right = right.get(column as usize).unwrap_or(&zero);
    left.cmp(right)
}

/// What one column of a row and one value say of their order.
fn compare_value(column: u32, row: &[Value], value: &Value) -> Ordering
    ensures { result ≡ value_cmp (column_of row.now column) value.now }
{
    let zero = Value::Int(0);
    let own = row.get(column as usize).unwrap_or(&zero);
    own.cmp(value)
}

/// The order of two rows by key.
fn compare_rows(columns: &[u32], left: &[Value], right: &[Value]) -> Ordering
    ensures { result ≡ compared_keys columns.now left.now right.now }
{
    for column in columns {
        match compare_column(*column, left, right) {
            Ordering::Equal => {}
            differ => return differ,
        }
    }
    Ordering::Equal
}

/// The order of a row's key and a key.
fn compare_key(columns: &[u32], row: &[Value], key: &[Value]) -> Ordering
    ensures { result ≡ compared_key columns.now row.now key.now }
{
    let mut left = key;
    for column in columns {
        let Some((value, others)) = left.split_first() else {
            return Ordering::Greater;
        };
        match compare_value(*column, row, value) {
            Ordering::Equal => {}
            differ => return differ,
        }
        left = others;
    }
    if left.is_empty() {
        Ordering::Equal
    } else {
        Ordering::Less
    }
}

pub(crate) fn row_against_row(columns: &[u32], row: &Row, sought: &[Value]) -> Ordering
    ensures { result ≡ compared_keys columns.now row.now sought.now }
{
    compare_rows(columns, row.values(), sought)
}

pub(crate) fn row_against_key(columns: &[u32], row: &Row, key: &[Value]) -> Ordering
    ensures { result ≡ compared_key columns.now row.now key.now }
{
    compare_key(columns, row.values(), key)
}
