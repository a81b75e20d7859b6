ghost use Rattle.std.specs.Prelude.{◌≡◌, ◌≤◌, length, None};
ghost use Rattle.strip_meaning.specs.Effect.{has_id, not_held, read_only, derived, is_alike, is_outside, outside_at, kind_mismatch, out_of_range, misfit, or_cause};

use strip_value::{ActError, ColumnDef, Holds, Id, Kind, TableDef, Value};

/// Whether the list has the number.
pub(crate) fn has(ids: &[Id], id: Id) -> bool
    ensures { result ≡ has_id ids.now id }
{
    ids.iter().any(|one| *one == id)
}

pub(crate) fn cause_not_held(holds: &Holds, id: Id) -> Option<ActError>
    ensures { result ≡ not_held holds.now id }
{
    if has(holds.write.as_slice(), id) || has(holds.read.as_slice(), id) {
        None
    } else {
        Some(ActError::NotHeld { table: id })
    }
}

fn cause_read_only(holds: &Holds, id: Id) -> Option<ActError>
    ensures { result ≡ read_only holds.now id }
{
    if has(holds.write.as_slice(), id) {
        None
    } else {
        Some(ActError::ReadOnly { table: id })
    }
}

fn cause_derived(def: &TableDef, id: Id) -> Option<ActError>
    ensures { result ≡ derived def.now id }
{
    if def.query.is_some() {
        Some(ActError::Derived { table: id })
    } else {
        None
    }
}

fn alike(kind: Kind, value: &Value) -> bool
    ensures { result ≡ is_alike kind value.now }
{
    match (kind, value) {
        (Kind::Text, Value::Int(_)) => false,
        (Kind::Text, Value::Text(_)) => true,
        (_, Value::Int(_)) => true,
        (_, Value::Text(_)) => false,
    }
}

fn cause_of_kinds(columns: &[ColumnDef], row: &[Value]) -> Option<ActError>
    requires { length columns.now ≤ 16 }
    ensures { result ≡ kind_mismatch 1 columns.now row.now }
{
    let mut left = row;
    let mut column = 1;
    for def in columns {
        let Some((value, others)) = left.split_first() else {
            return Some(ActError::KindMismatch { column });
        };
        if !alike(def.kind, value) {
            return Some(ActError::KindMismatch { column });
        }
        left = others;
        column += 1;
    }
    if left.is_empty() {
        None
    } else {
        Some(ActError::KindMismatch { column })
    }
}

fn cause_of_value(column: u32, kind: Kind, value: &Value) -> Option<ActError>
    ensures { result ≡ outside_at column kind value.now }
{
    match (kind, value) {
        (Kind::Int, Value::Int(n)) => {
            if *n >= -2_147_483_648 && *n <= 2_147_483_647 {
                None
            } else {
                Some(ActError::OutOfRange { column, value: *n })
            }
        }
        _ => None,
    }
}

fn cause_of_range(columns: &[ColumnDef], row: &[Value]) -> Option<ActError>
    requires { length columns.now ≤ 16 }
    ensures { result ≡ out_of_range 1 columns.now row.now }
{
    let mut left = row;
    let mut column = 1;
    for def in columns {
        let Some((value, others)) = left.split_first() else {
            return None;
        };
        if let Some(cause) = cause_of_value(column, def.kind, value) {
            return Some(cause);
        }
        left = others;
        column += 1;
    }
    None
}

/// Why the values of a row aren't those of a table: one is missing, of the wrong kind or out of range, or there are too
/// many. Columns count from 1.
pub fn row_misfit(columns: &[ColumnDef], row: &[Value]) -> Option<ActError>
    requires { length columns.now ≤ 16 }
    ensures { result ≡ misfit columns.now row.now }
{
    match cause_of_kinds(columns, row) {
        None => cause_of_range(columns, row),
        cause => cause,
    }
}

/// Why a row can't be put into a table, apart from the table's limit.
pub(crate) fn cause_before_put(
    holds: &Holds,
    def: &TableDef,
    id: Id,
    row: &[Value],
) -> Option<ActError>
    requires { def.now.query ≡ None → length def.now.columns ≤ 16 }
    ensures { result ≡ or_cause (not_held holds.now id) (or_cause (read_only holds.now id) (or_cause (derived def.now id) (misfit def.now.columns row.now))) }
{
    if let Some(cause) = cause_not_held(holds, id) {
        return Some(cause);
    }
    if let Some(cause) = cause_read_only(holds, id) {
        return Some(cause);
    }
    if let Some(cause) = cause_derived(def, id) {
        return Some(cause);
    }
    row_misfit(def.columns.as_slice(), row)
}
