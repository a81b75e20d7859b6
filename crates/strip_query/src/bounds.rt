ghost use Rattle.std.specs.Prelude.{◌≡◌, ◌+◌, ◌*◌};
ghost use Rattle.strip_value.specs.Bounds.{capped, column_kind, kind_magnitude, magnitude_of};

use strip_value::{Calc, Kind, Kinds};

/// Where bounds are capped.
const CAP: u128 = 1 << 127;

/// How far from 0 the number can be that an expression computes from rows of these kinds: the static bound by which a
/// catalog accepts it. A bound above 2^127 counts as 2^127. A text has the bound 0, and a column that isn't there counts as
/// one. Takes no memory.
pub fn magnitude(calc: &Calc, kinds: &Kinds) -> u128
    ensures { result ≡ magnitude_of kinds.now calc.now }
{
    match calc {
        Calc::Number(n) => n.unsigned_abs(),
        Calc::Text(_) => 0,
        Calc::Column { entry, column } => kind_magnitude(column_kind(kinds, *entry, *column)),
        Calc::Add(left, right) => {
            capped_sum(magnitude(left.get(), kinds), magnitude(right.get(), kinds))
        }
        Calc::Sub(left, right) => {
            capped_sum(magnitude(left.get(), kinds), magnitude(right.get(), kinds))
        }
        Calc::Mul(left, right) => {
            capped_product(magnitude(left.get(), kinds), magnitude(right.get(), kinds))
        }
    }
}

/// The kind of an entry's column; one that isn't there counts as a text.
pub fn column_kind(kinds: &Kinds, entry: u32, column: u32) -> Kind
    ensures { result ≡ column_kind kinds.now entry column }
{
    let Some(columns) = kinds.as_slice().get(entry as usize) else {
        return Kind::Text;
    };
    match columns.as_slice().get(column as usize) {
        Some(kind) => *kind,
        None => Kind::Text,
    }
}

/// How far from 0 a value of the kind can be.
pub fn kind_magnitude(kind: Kind) -> u128
    ensures { result ≡ kind_magnitude kind }
{
    match kind {
        Kind::Int => 1 << 31,
        Kind::Big => 1 << 126,
        Kind::Text => 0,
    }
}

/// The sum of two bounds.
pub fn capped_sum(left: u128, right: u128) -> u128
    ensures { result ≡ capped (left + right) }
{
    left.saturating_add(right).min(CAP)
}

/// The product of two bounds.
pub fn capped_product(left: u128, right: u128) -> u128
    ensures { result ≡ capped (left * right) }
{
    left.saturating_mul(right).min(CAP)
}
