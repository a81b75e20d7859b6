ghost use Rattle.std.specs.Prelude.{◌↔◌, IsTrue};
ghost use Rattle.strip_value.specs.Kinds.{Fits};

use crate::copies::Duplicate;
use crate::items::Items;
use crate::values::Value;
use std::alloc::{AllocError, Global};

/// The kind of a column.
#[derive(Clone, Copy, Debug, PartialEq, Eq)]
pub enum Kind {
    /// Whole numbers from -2^31 to 2^31 - 1.
    Int,
    /// Whole numbers strictly between -2^126 and 2^126: sums, counts and computed numbers.
    Big,
    /// UTF-8 of at most 255 bytes.
    Text,
}

/// The kinds of a table's columns, in their order.
pub type KindList = Items<Kind>;

/// For each entry of a query the kinds of its columns.
pub type Kinds = Items<KindList>;

impl Duplicate for Kind {
    fn copy(&self, _alloc: Global) -> Result<Kind, AllocError> {
        Ok(*self)
    }
}

/// One more than the greatest magnitude of a `Big`.
const BIG: i128 = 1 << 126;

/// Whether the value is one of the kind.
pub fn fits(kind: Kind, value: &Value) -> bool
    ensures { IsTrue result ↔ Fits kind value.now }
{
    match (kind, value) {
        (Kind::Int, Value::Int(n)) => *n >= -2_147_483_648 && *n <= 2_147_483_647,
        (Kind::Big, Value::Int(n)) => -BIG < *n && *n < BIG,
        (Kind::Text, Value::Text(_)) => true,
        _ => false,
    }
}
