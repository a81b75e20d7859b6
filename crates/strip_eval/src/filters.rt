//! What combinations satisfy.
ghost use Rattle.std.specs.Prelude.{◌≡◌};
ghost use Rattle.strip_value.specs.Query.{compares, satisfies};
ghost use Rattle.strip_eval.specs.Near.{IsNearTest};

use crate::combinations::Combination;
use crate::values::{order, value_at};
use std::cmp::Ordering;
use strip_value::{Cmp, Test};

/// Whether the order of two values is one that a comparison asks for.
fn compares(how: Cmp, order: Ordering) -> bool
    ensures { result ≡ compares how order }
{
    match how {
        Cmp::Eq => order.is_eq(),
        Cmp::Ne => order.is_ne(),
        Cmp::Lt => order.is_lt(),
        Cmp::Le => order.is_le(),
        Cmp::Gt => order.is_gt(),
        Cmp::Ge => order.is_ge(),
    }
}

/// Whether the combination satisfies the filter.
pub(crate) fn satisfies<'a>(test: &'a Test, rows: &Combination<'a>) -> bool
    requires near { IsNearTest rows.now test.now }
    ensures { result ≡ satisfies test.now rows.now }
{
    match test {
        Test::True => true,
        Test::Compare(how, left, right) => {
            compares(*how, order(value_at(left, rows), value_at(right, rows)))
        }
        Test::Not(inner) => !satisfies(inner.get(), rows),
        Test::And(left, right) => satisfies(left.get(), rows) && satisfies(right.get(), rows),
        Test::Or(left, right) => satisfies(left.get(), rows) || satisfies(right.get(), rows),
    }
}
