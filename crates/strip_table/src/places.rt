ghost use Rattle.std.specs.Prelude.{IfOk, IfErr};
ghost use Rattle.strip_value.specs.Places.{IsFoundAt, IsGapAt};
ghost use Rattle.strip_value.specs.Table.{Rises, key_of};

use crate::keys::{row_against_key, row_against_row};
use strip_value::{Row, Value};

/// Where the row of a key stands, or where it would be put.
pub(crate) fn place_of_key(columns: &[u32], rows: &[Row], key: &[Value]) -> Result<usize, usize>
    requires { Rises columns.now rows.now }
    ensures found { IfOk result (IsFoundAt columns.now rows.now key.now) }
    ensures gap { IfErr result (IsGapAt columns.now rows.now key.now) }
{
    rows.binary_search_by(|row| row_against_key(columns, row, key))
}

/// Where the row of this row's key stands, or where it would be put.
pub(crate) fn place_of_row(columns: &[u32], rows: &[Row], sought: &[Value]) -> Result<usize, usize>
    requires { Rises columns.now rows.now }
    ensures found { IfOk result (IsFoundAt columns.now rows.now (key_of columns.now sought.now)) }
    ensures gap { IfErr result (IsGapAt columns.now rows.now (key_of columns.now sought.now)) }
{
    rows.binary_search_by(|row| row_against_row(columns, row, sought))
}
