ghost use Rattle.std.specs.Prelude.{◌≡◌, OnOk, nat_lt};
ghost use Rattle.strip_ast.specs.Pieces.{after_all};
ghost use Rattle.strip_ast.specs.Written.{op_mark as mark_of_op, op_level as level_of_op, left_level as left_of, right_level as right_of, level as level_of, expr_pieces, enclosed_below, col_pieces};

use crate::expressions::{Expr, Op};
use crate::marks::Mark;
use crate::printer::Printer;
use std::alloc::{AllocError, Global};
use strip_value::Name;

/// How the operator is written.
pub(crate) fn op_mark(op: Op) -> Mark
    ensures { result ≡ mark_of_op op }
{
    match op {
        Op::Add => Mark::Plus,
        Op::Sub => Mark::Minus,
        Op::Mul => Mark::Star,
        Op::Eq => Mark::Equal,
        Op::Ne => Mark::Unequal,
        Op::Lt => Mark::Below,
        Op::Le => Mark::AtMost,
        Op::Gt => Mark::Above,
        Op::Ge => Mark::AtLeast,
        Op::And => Mark::And,
        Op::Or => Mark::Or,
    }
}

fn op_level(op: Op) -> u8
    ensures { result ≡ level_of_op op }
{
    match op {
        Op::Add | Op::Sub => 4,
        Op::Mul => 5,
        Op::And => 1,
        Op::Or => 0,
        _ => 3,
    }
}

fn left_level(op: Op) -> u8
    ensures { result ≡ left_of op }
{
    match op {
        Op::Add | Op::Sub => 4,
        Op::Mul => 5,
        Op::And => 1,
        Op::Or => 0,
        _ => 4,
    }
}

fn right_level(op: Op) -> u8
    ensures { result ≡ right_of op }
{
    match op {
        Op::Add | Op::Sub => 5,
        Op::Mul => 6,
        Op::And => 2,
        Op::Or => 1,
        _ => 4,
    }
}

#[tactic(auto, using(crate::proofs::PrintLemmas::levels))]
fn level(expr: &Expr) -> u8
    ensures { result ≡ level_of expr.now }
{
    match expr {
        Expr::Two { op, .. } => op_level(*op),
        Expr::Not(_) => 2,
        Expr::Number(_) | Expr::Text(_) | Expr::Column { .. } => 6,
    }
}

pub(crate) fn print_col(
    of: &Option<Name>,
    name: &Name,
    into: &mut Printer,
) -> Result<(), AllocError>
    ensures { OnOk result (into.new ≡ after_all into.old (col_pieces of.now name.now)) }
{
    if let Some(of) = of {
        into.name(of)?;
        into.mark(Mark::Dot)?;
    }
    into.name(name)
}

#[cycle(expr)]
#[tactic(auto, using(crate::proofs::PrintLemmas::printing))]
pub(crate) fn print_expr(alloc: Global, expr: &Expr, into: &mut Printer) -> Result<(), AllocError>
    ensures { OnOk result (into.new ≡ after_all into.old (expr_pieces expr.now)) }
{
    match expr {
        Expr::Number(number) => into.number(*number),
        Expr::Text(text) => into.text(alloc, text),
        Expr::Column { of, name } => print_col(of, name, into),
        Expr::Two { op, left, right } => {
            print_operand(alloc, left_level(*op), left.get(), into)?;
            into.mark(op_mark(*op))?;
            print_operand(alloc, right_level(*op), right.get(), into)?;
            Ok(())
        }
        Expr::Not(inner) => {
            into.mark(Mark::Not)?;
            print_operand(alloc, 3, inner.get(), into)
        }
    }
}

/// An expression, in parentheses where its level is below the lowest that needs none.
#[cycle(expr)]
#[tactic(auto, using(crate::proofs::PrintLemmas::printing))]
pub(crate) fn print_operand(
    alloc: Global,
    lowest: u8,
    expr: &Expr,
    into: &mut Printer,
) -> Result<(), AllocError>
    ensures { OnOk result (into.new ≡ after_all into.old (enclosed_below lowest expr.now)) }
{
    if level(expr) < lowest {
        into.mark(Mark::Open)?;
        print_expr(alloc, expr, into)?;
        into.mark(Mark::Close)
    } else {
        print_expr(alloc, expr, into)
    }
}
