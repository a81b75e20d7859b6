#![tactic(auto, unfolding(strip_ast::specs::Syntax::test))]

ghost use Rattle.std.specs.Prelude.{◌≡◌, ◌∷◌, [], IsTrue};
ghost use Rattle.strip_ast.specs.declared.expressions.Expr.TheVariants as expr;
ghost use Rattle.strip_ast.specs.declared.expressions.Op.TheVariants as op;
ghost use Rattle.strip_ast.specs.declared.marks.Mark.TheVariants as m;
ghost use Rattle.strip_ast.specs.Grammar.{made, either};
ghost use Rattle.strip_ast.specs.Syntax.{atom, dotted, factor, product, sum, comparing, compare, test, conj, expression, joins, optional};
ghost use Rattle.strip_parse.specs.Deciding.{begins_in, marks};
ghost use Rattle.strip_parse.specs.Reading.{part, take, take_inside};
ghost use Rattle.strip_parse.specs.Taking.{IsTaken, IsMade, comparison_at, parenthesized, right_of, compared_from};
ghost use Rattle.strip_ast.specs.Syntax.{col_of};

use crate::cursor::Cursor;
use crate::stops::Stop;
use crate::words::take_optional_name;
use sqlite_items::Boxed;
use std::alloc::Global;
use strip_ast::{Expr, Mark, Op};
use strip_value::Name;

fn two(alloc: Global, op: Op, left: Expr, right: Expr) -> Result<Expr, Stop>
    ensures { IsMade (expr.Two op left right) result }
{
    let left = Boxed::new(alloc, left)?;
    let right = Boxed::new(alloc, right)?;
    Ok(Expr::Two { op, left, right })
}

fn not(alloc: Global, inner: Expr) -> Result<Expr, Stop>
    ensures { IsMade (expr.Not inner) result }
{
    let inner = Boxed::new(alloc, inner)?;
    Ok(Expr::Not(inner))
}

#[tactic(auto, unfolding(strip_ast::specs::Syntax::dotted))]
pub(crate) fn take_dotted(alloc: Global, cursor: &mut Cursor) -> Result<(Name, Option<Name>), Stop>
    ensures { IsTaken (part dotted cursor.old) result cursor.new }
{
    let first = cursor.name(alloc)?;
    let second = take_optional_name(alloc, cursor, Mark::Dot)?;
    Ok((first, second))
}

// col = name ["." name]
fn take_column(alloc: Global, cursor: &mut Cursor) -> Result<Expr, Stop>
    ensures { IsTaken (part (made dotted (col_of expr.Column)) cursor.old) result cursor.new }
{
    let (first, second) = take_dotted(alloc, cursor)?;
    match second {
        None => Ok(Expr::Column {
            of: None,
            name: first,
        }),
        Some(name) => Ok(Expr::Column {
            of: Some(first),
            name,
        }),
    }
}

// ["-"] number | literal | col
#[tactic(auto, unfolding(strip_ast::specs::Syntax::atom))]
fn take_atom(alloc: Global, cursor: &mut Cursor) -> Result<Expr, Stop>
    ensures { IsTaken (part atom cursor.old) result cursor.new }
{
    if cursor.at(Mark::Minus) {
        cursor.operator(Mark::Minus)?;
        let number = cursor.negated()?;
        return Ok(Expr::Number(number));
    }
    if cursor.at_number() {
        let number = cursor.signed()?;
        return Ok(Expr::Number(number));
    }
    if cursor.at_text() {
        let text = cursor.text(alloc)?;
        return Ok(Expr::Text(text));
    }
    take_column(alloc, cursor)
}

#[tactic(auto, using(crate::proofs::Begins::begins_cons))]
fn take_product_op(cursor: &mut Cursor) -> Result<Option<Op>, Stop>
    ensures { IsTaken (part (optional (joins m.Star op.Mul)) cursor.old) result cursor.new }
{
    if cursor.at(Mark::Star) {
        cursor.operator(Mark::Star)?;
        return Ok(Some(Op::Mul));
    }
    Ok(None)
}

#[tactic(auto, using(crate::proofs::Begins::begins_cons))]
fn take_sum_op(cursor: &mut Cursor) -> Result<Option<Op>, Stop>
    ensures { IsTaken (part (optional (either (joins m.Plus op.Add) (joins m.Minus op.Sub))) cursor.old) result cursor.new }
{
    if cursor.at(Mark::Plus) {
        cursor.operator(Mark::Plus)?;
        return Ok(Some(Op::Add));
    }
    if cursor.at(Mark::Minus) {
        cursor.operator(Mark::Minus)?;
        return Ok(Some(Op::Sub));
    }
    Ok(None)
}

#[tactic(auto, using(crate::proofs::Begins::begins_cons))]
fn take_conj_op(cursor: &mut Cursor) -> Result<Option<Op>, Stop>
    ensures { IsTaken (part (optional (joins m.And op.And)) cursor.old) result cursor.new }
{
    if cursor.at(Mark::And) {
        cursor.operator(Mark::And)?;
        return Ok(Some(Op::And));
    }
    Ok(None)
}

#[tactic(auto, using(crate::proofs::Begins::begins_cons))]
fn take_expression_op(cursor: &mut Cursor) -> Result<Option<Op>, Stop>
    ensures { IsTaken (part (optional (joins m.Or op.Or)) cursor.old) result cursor.new }
{
    if cursor.at(Mark::Or) {
        cursor.operator(Mark::Or)?;
        return Ok(Some(Op::Or));
    }
    Ok(None)
}

/// The comparison that the next token is, and how it is written.
fn comparison(cursor: &Cursor) -> Option<(Mark, Op)>
    ensures { result ≡ comparison_at cursor.now.left }
{
    if cursor.at(Mark::Equal) {
        Some((Mark::Equal, Op::Eq))
    } else if cursor.at(Mark::Unequal) {
        Some((Mark::Unequal, Op::Ne))
    } else if cursor.at(Mark::Below) {
        Some((Mark::Below, Op::Lt))
    } else if cursor.at(Mark::AtMost) {
        Some((Mark::AtMost, Op::Le))
    } else if cursor.at(Mark::Above) {
        Some((Mark::Above, Op::Gt))
    } else if cursor.at(Mark::AtLeast) {
        Some((Mark::AtLeast, Op::Ge))
    } else {
        None
    }
}

#[tactic(auto, using(crate::proofs::Begins::begins_cons), unfolding(strip_ast::specs::Syntax::comparing))]
fn take_compare_op(cursor: &mut Cursor) -> Result<Option<Op>, Stop>
    ensures { IsTaken (part (optional comparing) cursor.old) result cursor.new }
{
    let Some((mark, op)) = comparison(cursor) else {
        return Ok(None);
    };
    cursor.operator(mark)?;
    Ok(Some(op))
}

// "(" expr ")"
#[cycle(expr)]
fn take_parenthesized(alloc: Global, cursor: &mut Cursor, room: u32) -> Result<Expr, Stop>
    ensures { IsTaken (parenthesized (take (take_inside room) expression) cursor.old) result cursor.new }
{
    cursor.expect(Mark::Open)?;
    let inner = take_expression(alloc, cursor, room)?;
    cursor.expect(Mark::Close)?;
    Ok(inner)
}

// "(" expr ")", where so many more may be open
#[cycle(expr)]
#[tactic(auto, unfolding(strip_ast::specs::Syntax::factor))]
fn take_enclosed(alloc: Global, cursor: &mut Cursor, room: u32) -> Result<Expr, Stop>
    requires { IsTrue (begins_in (marks m.Open ∷ []) cursor.old.left) }
    ensures { IsTaken (take (take_inside room) factor cursor.old) result cursor.new }
{
    if room == 0 {
        return Err(Stop::TooDeep);
    }
    take_parenthesized(alloc, cursor, room - 1)
}

// factor = ["-"] number | literal | col | "(" expr ")"
#[cycle(expr)]
#[tactic(auto, unfolding(strip_ast::specs::Syntax::factor), using(crate::proofs::Loops::atom_anywhere))]
fn take_factor(alloc: Global, cursor: &mut Cursor, room: u32) -> Result<Expr, Stop>
    ensures { IsTaken (take (take_inside room) factor cursor.old) result cursor.new }
{
    if cursor.at(Mark::Open) {
        return take_enclosed(alloc, cursor, room);
    }
    take_atom(alloc, cursor)
}

// product = factor {"*" factor}
#[cycle(expr)]
#[tactic(auto, unfolding(strip_ast::specs::Syntax::product))]
fn take_product(alloc: Global, cursor: &mut Cursor, room: u32) -> Result<Expr, Stop>
    ensures { IsTaken (take (take_inside room) product cursor.old) result cursor.new }
{
    let mut left = take_factor(alloc, cursor, room)?;
    for _turn in 0..cursor.most() {
        let Some(op) = take_product_op(cursor)? else {
            return Ok(left);
        };
        let right = take_factor(alloc, cursor, room)?;
        left = two(alloc, op, left, right)?;
    }
    Ok(left)
}

// sum = product {("+" | "-") product}
#[cycle(expr)]
#[tactic(auto, unfolding(strip_ast::specs::Syntax::sum))]
pub(crate) fn take_sum(alloc: Global, cursor: &mut Cursor, room: u32) -> Result<Expr, Stop>
    ensures { IsTaken (take (take_inside room) sum cursor.old) result cursor.new }
{
    let mut left = take_product(alloc, cursor, room)?;
    for _turn in 0..cursor.most() {
        let Some(op) = take_sum_op(cursor)? else {
            return Ok(left);
        };
        let right = take_product(alloc, cursor, room)?;
        left = two(alloc, op, left, right)?;
    }
    Ok(left)
}

// the right side of a comparison
#[cycle(expr)]
fn take_right(
    alloc: Global,
    cursor: &mut Cursor,
    room: u32,
    op: Op,
    left: Expr,
) -> Result<Expr, Stop>
    ensures { IsTaken (right_of (take (take_inside room) sum) op left cursor.old) result cursor.new }
{
    let right = take_sum(alloc, cursor, room)?;
    two(alloc, op, left, right)
}

// [("=" | "<>" | "<" | "<=" | ">" | ">=") sum]
#[cycle(expr)]
fn take_compared(alloc: Global, cursor: &mut Cursor, room: u32, left: Expr) -> Result<Expr, Stop>
    ensures { IsTaken (compared_from (take_inside room) left cursor.old) result cursor.new }
{
    match take_compare_op(cursor) {
        Err(stop) => Err(stop),
        Ok(None) => Ok(left),
        Ok(Some(op)) => take_right(alloc, cursor, room, op, left),
    }
}

// compare = sum [("=" | "<>" | "<" | "<=" | ">" | ">=") sum]
#[cycle(expr)]
#[tactic(auto, unfolding(strip_ast::specs::Syntax::compare))]
fn take_compare(alloc: Global, cursor: &mut Cursor, room: u32) -> Result<Expr, Stop>
    ensures { IsTaken (take (take_inside room) compare cursor.old) result cursor.new }
{
    let left = take_sum(alloc, cursor, room)?;
    take_compared(alloc, cursor, room, left)
}

// test = ["not"] compare
#[cycle(expr)]
fn take_test(alloc: Global, cursor: &mut Cursor, room: u32) -> Result<Expr, Stop>
    ensures { IsTaken (take (take_inside room) test cursor.old) result cursor.new }
{
    if !cursor.at(Mark::Not) {
        return take_compare(alloc, cursor, room);
    }
    cursor.operator(Mark::Not)?;
    let inner = take_compare(alloc, cursor, room)?;
    not(alloc, inner)
}

// conj = test {"and" test}
#[cycle(expr)]
#[tactic(auto, unfolding(strip_ast::specs::Syntax::conj))]
fn take_conj(alloc: Global, cursor: &mut Cursor, room: u32) -> Result<Expr, Stop>
    ensures { IsTaken (take (take_inside room) conj cursor.old) result cursor.new }
{
    let mut left = take_test(alloc, cursor, room)?;
    for _turn in 0..cursor.most() {
        let Some(op) = take_conj_op(cursor)? else {
            return Ok(left);
        };
        let right = take_test(alloc, cursor, room)?;
        left = two(alloc, op, left, right)?;
    }
    Ok(left)
}

// expr = conj {"or" conj}
#[cycle(expr)]
#[tactic(auto, unfolding(strip_ast::specs::Syntax::expression))]
pub(crate) fn take_expression(alloc: Global, cursor: &mut Cursor, room: u32) -> Result<Expr, Stop>
    ensures { IsTaken (take (take_inside room) expression cursor.old) result cursor.new }
{
    let mut left = take_conj(alloc, cursor, room)?;
    for _turn in 0..cursor.most() {
        let Some(op) = take_expression_op(cursor)? else {
            return Ok(left);
        };
        let right = take_conj(alloc, cursor, room)?;
        left = two(alloc, op, left, right)?;
    }
    Ok(left)
}
