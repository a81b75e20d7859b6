//! The values of expressions at a combination.
ghost use Rattle.std.specs.Prelude.{◌≡◌, IfOk};
ghost use Rattle.strip_query.specs.Laws.{IsNear};
ghost use Rattle.strip_value.specs.Order.{value_cmp};
ghost use Rattle.strip_value.specs.Query.{number_of, value_at};
ghost use Rattle.strip_eval.specs.Lent.{shown};

use crate::combinations::Combination;
use std::alloc::{AllocError, Global};
use std::cmp::Ordering;
use strip_value::{Calc, Duplicate, Text, Value};

/// A value, its text where it stands.
#[derive(Clone, Copy)]
pub(crate) enum Seen<'a> {
    Number(i128),
    Text(&'a Text),
}

pub(crate) fn see(value: &Value) -> Seen<'_>
    ensures { shown result ≡ value.now }
{
    match value {
        Value::Int(n) => Seen::Number(*n),
        Value::Text(text) => Seen::Text(text),
    }
}

/// The number; a text has none and counts as 0.
pub(crate) fn number(value: Seen<'_>) -> i128
    ensures { result ≡ number_of (shown value.entry) }
{
    match value {
        Seen::Number(n) => n,
        Seen::Text(_) => 0,
    }
}

/// A value of its own.
pub(crate) fn copied(alloc: Global, value: Seen<'_>) -> Result<Value, AllocError>
    ensures { IfOk result (λ copied. copied ≡ shown value.entry) }
{
    match value {
        Seen::Number(n) => Ok(Value::Int(n)),
        Seen::Text(text) => Ok(Value::Text(text.copy(alloc)?)),
    }
}

/// The order of two values.
pub(crate) fn order(left: Seen<'_>, right: Seen<'_>) -> Ordering
    ensures { result ≡ value_cmp (shown left.entry) (shown right.entry) }
{
    match (left, right) {
        (Seen::Number(a), Seen::Number(b)) => a.cmp(&b),
        (Seen::Number(_), Seen::Text(_)) => Ordering::Less,
        (Seen::Text(_), Seen::Number(_)) => Ordering::Greater,
        (Seen::Text(a), Seen::Text(b)) => a.cmp(b),
    }
}

/// The value of an expression.
pub(crate) fn value_at<'a>(calc: &'a Calc, rows: &Combination<'a>) -> Seen<'a>
    requires near { IsNear rows.now calc.now }
    ensures { shown result ≡ value_at rows.now calc.now }
{
    match calc {
        Calc::Number(n) => Seen::Number(*n),
        Calc::Text(text) => Seen::Text(text),
        Calc::Column { entry, column } => rows.column(*entry, *column),
        Calc::Add(left, right) => {
            let left = number(value_at(left.get(), rows));
            let right = number(value_at(right.get(), rows));
            Seen::Number(left + right)
        }
        Calc::Sub(left, right) => {
            let left = number(value_at(left.get(), rows));
            let right = number(value_at(right.get(), rows));
            Seen::Number(left - right)
        }
        Calc::Mul(left, right) => {
            let left = number(value_at(left.get(), rows));
            let right = number(value_at(right.get(), rows));
            Seen::Number(left * right)
        }
    }
}
