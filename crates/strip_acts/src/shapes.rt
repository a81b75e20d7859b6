//! How long the shortest texts of expressions are: their operators and parentheses, and whether their texts stand on one line.
ghost use Rattle.std.specs.Prelude.{◌≡◌, ◌≤◌, ◌+◌, ◌==◌, ◌&&◌, length, min, nat_le, nat_lt, not};
ghost use Rattle.std.specs.List.{list_all, list_any};
ghost use Rattle.std.specs.Str.{is_utf8};
ghost use Rattle.strip_acts.specs.Shapes.{calc_level, calc_lines, calc_operators, calc_parentheses, is_short_calc, is_short_test, test_level, test_lines, test_operators, test_parentheses};
ghost use Rattle.strip_acts.specs.Writable.{has_digits, is_line, is_row, is_value, minus_of, opened};

use std::str;
use strip_value::{Calc, Row, Test, Text, Value};

/// The most bytes of a text.
const LONGEST: usize = 255;

/// The most operators of an expression.
const OPERATORS: u32 = 256;

/// The most parentheses that are open at one place.
const PARENTHESES: u32 = 64;

/// More operators, and more parentheses, than any limit: counts stop there.
const MANY: u32 = 257;

/// A number of at most 38 digits.
fn has_digits(n: i128) -> bool
    ensures { result ≡ has_digits n }
{
    n.unsigned_abs() < 100_000_000_000_000_000_000_000_000_000_000_000_000
}

fn is_utf8(bytes: &[u8]) -> bool
    ensures { result ≡ is_utf8 bytes.now }
{
    match str::from_utf8(bytes) {
        Ok(_) => true,
        Err(_) => false,
    }
}

fn has_line_feed(bytes: &[u8]) -> bool
    ensures { result ≡ list_any (λ byte. byte == 10) bytes.now }
{
    bytes.iter().any(|byte| *byte == b'\n')
}

/// Whether the text stands on one line. That a text is UTF-8 and not longer than it may be is tested too, since the contracts
/// of `Text` do not tell it.
fn is_line(text: &Text) -> bool
    ensures { result ≡ is_line text.now }
{
    let bytes = text.bytes();
    is_utf8(bytes) && has_room(bytes)
}

fn has_room(bytes: &[u8]) -> bool
    ensures { result ≡ (nat_le (length bytes.now) 255 && not (list_any (λ byte. byte == 10) bytes.now)) }
{
    bytes.len() <= LONGEST && !has_line_feed(bytes)
}

fn is_value(value: &Value) -> bool
    ensures { result ≡ is_value value.now }
{
    match value {
        Value::Int(n) => has_digits(*n),
        Value::Text(text) => is_line(text),
    }
}

fn are_values(values: &[Value]) -> bool
    ensures { result ≡ list_all is_value values.now }
{
    values.iter().all(is_value)
}

/// A row that isn't empty, and whose values can be written.
pub(crate) fn is_row(row: &Row) -> bool
    ensures { result ≡ is_row row.now }
{
    let values = row.values();
    !values.is_empty() && are_values(values)
}

/// The operators of a number: a minus is one.
fn minus_of(n: i128) -> u32
    ensures { result ≡ minus_of n }
{
    if n < 0 { 1 } else { 0 }
}

/// The operators between two operands.
fn joined(left: u32, right: u32) -> u32
    requires left { left ≤ 257 }
    requires right { right ≤ 257 }
    ensures { result ≡ min (left + (1 + right)) 257 }
{
    (left + 1 + right).min(MANY)
}

fn calc_operators(calc: &Calc) -> u32
    ensures { result ≡ min (calc_operators calc.now) 257 }
{
    match calc {
        Calc::Number(n) => minus_of(*n),
        Calc::Text(_) | Calc::Column { .. } => 0,
        Calc::Add(left, right) => {
            joined(calc_operators(left.get()), calc_operators(right.get()))
        }
        Calc::Sub(left, right) => {
            joined(calc_operators(left.get()), calc_operators(right.get()))
        }
        Calc::Mul(left, right) => {
            joined(calc_operators(left.get()), calc_operators(right.get()))
        }
    }
}

#[tactic(auto, using(crate::proofs::Variants::value_levels))]
fn calc_level(calc: &Calc) -> u32
    ensures { result ≡ calc_level calc.now }
{
    match calc {
        Calc::Add(_, _) | Calc::Sub(_, _) => 4,
        Calc::Mul(_, _) => 5,
        _ => 6,
    }
}

/// One parenthesis more where the level is too low.
fn opened(level: u32, lowest: u32, count: u32) -> u32
    requires { count ≤ 257 }
    ensures { result ≡ min (opened (nat_lt level lowest) count) 257 }
{
    if level < lowest {
        (count + 1).min(MANY)
    } else {
        count
    }
}

#[cycle(calc)]
fn calc_parentheses(calc: &Calc) -> u32
    ensures { result ≡ min (calc_parentheses calc.now) 257 }
{
    match calc {
        Calc::Add(left, right) => { calc_operand(left.get(), 4).max(calc_operand(right.get(), 5)) }
        Calc::Sub(left, right) => { calc_operand(left.get(), 4).max(calc_operand(right.get(), 5)) }
        Calc::Mul(left, right) => calc_operand(left.get(), 5).max(calc_operand(right.get(), 6)),
        _ => 0,
    }
}

/// The parentheses of an operand whose level must not be below the lowest.
#[cycle(calc)]
fn calc_operand(calc: &Calc, lowest: u32) -> u32
    ensures { result ≡ min (opened (nat_lt (calc_level calc.now) lowest) (calc_parentheses calc.now)) 257 }
{
    opened(calc_level(calc), lowest, calc_parentheses(calc))
}

fn calc_lines(calc: &Calc) -> bool
    ensures { result ≡ calc_lines calc.now }
{
    match calc {
        Calc::Text(text) => is_line(text),
        Calc::Add(left, right) => calc_lines(left.get()) && calc_lines(right.get()),
        Calc::Sub(left, right) => calc_lines(left.get()) && calc_lines(right.get()),
        Calc::Mul(left, right) => calc_lines(left.get()) && calc_lines(right.get()),
        _ => true,
    }
}

fn is_within(operators: u32, parentheses: u32) -> bool
    ensures { result ≡ (nat_le operators 256 && nat_le parentheses 64) }
{
    operators <= OPERATORS && parentheses <= PARENTHESES
}

/// Whether it has no more operators and parentheses than it may.
fn is_small_calc(calc: &Calc) -> bool
    ensures { result ≡ (nat_le (calc_operators calc.now) 256 && nat_le (calc_parentheses calc.now) 64) }
{
    is_within(calc_operators(calc), calc_parentheses(calc))
}

pub(crate) fn is_short_calc(calc: &Calc) -> bool
    ensures { result ≡ is_short_calc calc.now }
{
    calc_lines(calc) && is_small_calc(calc)
}

fn test_operators(test: &Test) -> u32
    ensures { result ≡ min (test_operators test.now) 257 }
{
    match test {
        Test::True => 0,
        Test::Compare(_, left, right) => joined(calc_operators(left), calc_operators(right)),
        Test::Not(inner) => joined(0, test_operators(inner.get())),
        Test::And(left, right) => {
            joined(test_operators(left.get()), test_operators(right.get()))
        }
        Test::Or(left, right) => { joined(test_operators(left.get()), test_operators(right.get())) }
    }
}

#[tactic(auto, using(crate::proofs::Variants::truth_levels))]
fn test_level(test: &Test) -> u32
    ensures { result ≡ test_level test.now }
{
    match test {
        Test::True => 6,
        Test::Compare(_, _, _) => 3,
        Test::Not(_) => 2,
        Test::And(_, _) => 1,
        Test::Or(_, _) => 0,
    }
}

#[cycle(truth)]
#[tactic(auto, using(crate::proofs::Variants::truth_parentheses))]
fn test_parentheses(test: &Test) -> u32
    ensures { result ≡ min (test_parentheses test.now) 257 }
{
    match test {
        Test::True => 0,
        Test::Compare(_, left, right) => calc_parentheses(left).max(calc_parentheses(right)),
        Test::Not(inner) => test_operand(inner.get(), 3),
        Test::And(left, right) => test_operand(left.get(), 1).max(test_operand(right.get(), 2)),
        Test::Or(left, right) => test_parentheses(left.get()).max(test_operand(right.get(), 1)),
    }
}

/// The parentheses of an operand whose level must not be below the lowest.
#[cycle(truth)]
fn test_operand(test: &Test, lowest: u32) -> u32
    ensures { result ≡ min (opened (nat_lt (test_level test.now) lowest) (test_parentheses test.now)) 257 }
{
    opened(test_level(test), lowest, test_parentheses(test))
}

fn test_lines(test: &Test) -> bool
    ensures { result ≡ test_lines test.now }
{
    match test {
        Test::True => true,
        Test::Compare(_, left, right) => calc_lines(left) && calc_lines(right),
        Test::Not(inner) => test_lines(inner.get()),
        Test::And(left, right) => test_lines(left.get()) && test_lines(right.get()),
        Test::Or(left, right) => test_lines(left.get()) && test_lines(right.get()),
    }
}

/// Whether it has no more operators and parentheses than it may.
fn is_small_test(test: &Test) -> bool
    ensures { result ≡ (nat_le (test_operators test.now) 256 && nat_le (test_parentheses test.now) 64) }
{
    is_within(test_operators(test), test_parentheses(test))
}

pub(crate) fn is_short_test(test: &Test) -> bool
    ensures { result ≡ is_short_test test.now }
{
    test_lines(test) && is_small_test(test)
}
