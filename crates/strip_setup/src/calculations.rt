//! What expressions stand for: values and truth values over the columns of entries.
ghost use Rattle.std.specs.Prelude.{◌≡◌, IfOk};
ghost use Rattle.strip_setup.specs.Small.{AreFew};
ghost use Rattle.strip_setup.specs.Places.{Compares};
ghost use Rattle.strip_setup.specs.Queries.{calc_of, compared, filter_of, test_of};

use crate::places::place_of;
use crate::scope::Entry;
use sqlite_items::Boxed;
use std::alloc::{AllocError, Global};
use strip_ast::{Expr, Op};
use strip_value::{Calc, Cmp, Duplicate, Test};

/// The value of an expression; a truth value is none.
#[cycle(calc)]
#[tactic(auto, using(crate::proofs::Trees::both_trees))]
pub fn calc_of(alloc: Global, entries: &[Entry], expr: &Expr) -> Result<Calc, AllocError>
    requires few { AreFew entries.now }
    ensures { IfOk result (λ made. made ≡ calc_of entries.now expr.now) }
{
    match expr {
        Expr::Number(number) => Ok(Calc::Number(*number)),
        Expr::Text(text) => Ok(Calc::Text(text.copy(alloc)?)),
        Expr::Column { of, name } => {
            let place = place_of(entries, of, name);
            Ok(Calc::Column {
                entry: place.entry,
                column: place.column,
            })
        }
        Expr::Two { op, left, right } => match op {
            Op::Add => {
                let left = boxed_calc(alloc, entries, left.get())?;
                let right = boxed_calc(alloc, entries, right.get())?;
                Ok(Calc::Add(left, right))
            }
            Op::Sub => {
                let left = boxed_calc(alloc, entries, left.get())?;
                let right = boxed_calc(alloc, entries, right.get())?;
                Ok(Calc::Sub(left, right))
            }
            Op::Mul => {
                let left = boxed_calc(alloc, entries, left.get())?;
                let right = boxed_calc(alloc, entries, right.get())?;
                Ok(Calc::Mul(left, right))
            }
            _ => Ok(Calc::Number(0)),
        },
        Expr::Not(_) => Ok(Calc::Number(0)),
    }
}

#[cycle(calc)]
fn boxed_calc(alloc: Global, entries: &[Entry], expr: &Expr) -> Result<Boxed<Calc>, AllocError>
    requires few { AreFew entries.now }
    ensures { IfOk result (λ made. made ≡ calc_of entries.now expr.now) }
{
    Boxed::new(alloc, calc_of(alloc, entries, expr)?)
}

/// The truth value of an expression; a value is none.
#[cycle(truth)]
#[tactic(auto, using(crate::proofs::Trees::both_trees))]
pub fn test_of(alloc: Global, entries: &[Entry], expr: &Expr) -> Result<Test, AllocError>
    requires few { AreFew entries.now }
    ensures { IfOk result (λ made. made ≡ test_of entries.now expr.now) }
{
    match expr {
        Expr::Not(inner) => Ok(Test::Not(boxed_test(alloc, entries, inner.get())?)),
        Expr::Two { op, left, right } => match op {
            Op::And => {
                let left = boxed_test(alloc, entries, left.get())?;
                let right = boxed_test(alloc, entries, right.get())?;
                Ok(Test::And(left, right))
            }
            Op::Or => {
                let left = boxed_test(alloc, entries, left.get())?;
                let right = boxed_test(alloc, entries, right.get())?;
                Ok(Test::Or(left, right))
            }
            _ => compared(alloc, entries, *op, left.get(), right.get()),
        },
        _ => Ok(Test::True),
    }
}

#[cycle(truth)]
fn boxed_test(alloc: Global, entries: &[Entry], expr: &Expr) -> Result<Boxed<Test>, AllocError>
    requires few { AreFew entries.now }
    ensures { IfOk result (λ made. made ≡ test_of entries.now expr.now) }
{
    Boxed::new(alloc, test_of(alloc, entries, expr)?)
}

/// What the values of two expressions are joined to by a comparison; no other operator makes a truth value of values.
fn compared(
    alloc: Global,
    entries: &[Entry],
    op: Op,
    left: &Expr,
    right: &Expr,
) -> Result<Test, AllocError>
    requires few { AreFew entries.now }
    ensures { IfOk result (λ made. made ≡ compared op (calc_of entries.now left.now) (calc_of entries.now right.now)) }
{
    let Some(how) = comparison_of(op) else {
        return Ok(Test::True);
    };
    let left = calc_of(alloc, entries, left)?;
    let right = calc_of(alloc, entries, right)?;
    Ok(Test::Compare(how, left, right))
}

/// How the operator compares, if it does.
fn comparison_of(op: Op) -> Option<Cmp>
    ensures { Compares op result }
{
    match op {
        Op::Eq => Some(Cmp::Eq),
        Op::Ne => Some(Cmp::Ne),
        Op::Lt => Some(Cmp::Lt),
        Op::Le => Some(Cmp::Le),
        Op::Gt => Some(Cmp::Gt),
        Op::Ge => Some(Cmp::Ge),
        _ => None,
    }
}

/// What a filter stands for; none takes all.
pub fn filter_of(
    alloc: Global,
    entries: &[Entry],
    filter: &Option<Expr>,
) -> Result<Test, AllocError>
    requires few { AreFew entries.now }
    ensures { IfOk result (λ made. made ≡ filter_of entries.now filter.now) }
{
    match filter {
        None => Ok(Test::True),
        Some(expr) => test_of(alloc, entries, expr),
    }
}
