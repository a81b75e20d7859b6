ghost use Rattle.std.specs.Prelude.{◌≡◌, IfOk};
ghost use Rattle.strip_value.specs.Trees.{Add, Mul, Sub};
ghost use Rattle.strip_query.specs.Examples.{kinds};

use crate::{Calc, Kind, Kinds, magnitude};
use sqlite_items::Boxed;
use std::alloc::{AllocError, Global};
use std::process::Abort;
use std::test::Fail;
use strip_value::Items;

// The kinds of `specs/Examples.antt`.
fn two_entries(alloc: Global) -> Result<Kinds, AllocError>
    ensures { IfOk result (λ made. made ≡ kinds) }
{
    let first = Items::from_vec(vec![in alloc; Kind::Int, Kind::Big, Kind::Text]?);
    let second = Items::from_vec(vec![in alloc; Kind::Int, Kind::Int]?);
    Ok(Items::from_vec(vec![in alloc; first, second]?))
}

fn column(entry: u32, column: u32) -> Calc
    ensures { result ≡ Calc.Column entry column }
{
    Calc::Column { entry, column }
}

#[tactic(auto, using(strip_value::specs::Trees::trees))]
fn add(alloc: Global, left: Calc, right: Calc) -> Result<Calc, AllocError>
    ensures { IfOk result (λ e. e ≡ Add left right) }
{
    Ok(Calc::Add(Boxed::new(alloc, left)?, Boxed::new(alloc, right)?))
}

#[tactic(auto, using(strip_value::specs::Trees::trees))]
fn sub(alloc: Global, left: Calc, right: Calc) -> Result<Calc, AllocError>
    ensures { IfOk result (λ e. e ≡ Sub left right) }
{
    Ok(Calc::Sub(Boxed::new(alloc, left)?, Boxed::new(alloc, right)?))
}

#[tactic(auto, using(strip_value::specs::Trees::trees))]
fn mul(alloc: Global, left: Calc, right: Calc) -> Result<Calc, AllocError>
    ensures { IfOk result (λ e. e ≡ Mul left right) }
{
    Ok(Calc::Mul(Boxed::new(alloc, left)?, Boxed::new(alloc, right)?))
}

fn check(rt: &impl Abort, calc: Calc, kinds: &Kinds, bound: u128) {
    assert_eq!(rt; magnitude(&calc, kinds), bound);
}

#[test]
fn bounds_are_those_worked_out_by_hand(rt: HostRuntime) -> Result<(), Fail> {
    let alloc = rt.alloc();
    let kinds = two_entries(alloc)?;
    check(&rt, Calc::Number(-7), &kinds, 7);
    check(&rt, column(1, 0), &kinds, 1 << 31);
    check(&rt, column(0, 1), &kinds, 1 << 126);
    let product = mul(alloc, mul(alloc, column(0, 0), column(1, 0))?, column(1, 1))?;
    check(&rt, product, &kinds, 1 << 93);
    let sum = add(alloc, column(0, 0), Calc::Number(5))?;
    check(&rt, sum, &kinds, 2_147_483_653);
    let difference = sub(alloc, column(1, 0), column(1, 0))?;
    check(&rt, difference, &kinds, 1 << 32);
    let nothing = mul(alloc, Calc::Number(0), column(0, 1))?;
    check(&rt, nothing, &kinds, 0);
    let square = mul(alloc, column(0, 1), column(0, 1))?;
    check(&rt, square, &kinds, 1 << 127);
    let large = add(alloc, add(alloc, column(0, 1), column(0, 1))?, column(0, 1))?;
    check(&rt, large, &kinds, 1 << 127);
    Ok(())
}
