//! What statements of functions declare.
ghost use Rattle.std.specs.Prelude.{◌≡◌, ◌≤◌, [], IfOk, length, map, position};
ghost use Rattle.std.specs.Str.{bytes_eq};
ghost use Rattle.strip_setup.specs.Resolve.{bound_name, bound_number, function_of, kept_name, kind_of_step, step_of};

use crate::names::{each_once, is_same};
use crate::tables::table_id;
use std::alloc::{AllocError, Global};
use strip_ast::StepTree;
use strip_value::{
    BoundDef, BoundDefList, By, ColumnDefList, Duplicate, Function, Name, NameList, Step, StepList,
    TableDef,
};

/// The derived table that a step keeps.
pub fn kept_name(step: &StepTree) -> &Name
    ensures { result.now ≡ kept_name step.now }
{
    match step {
        StepTree::Add { into, .. } => into,
        StepTree::Redo { table, .. } => table,
    }
}

/// How a step keeps its table: to add is by sums, to redo is by keys.
pub fn kind_of_step(step: &StepTree) -> By
    ensures { result ≡ kind_of_step step.now }
{
    match step {
        StepTree::Add { .. } => By::Sum,
        StepTree::Redo { .. } => By::Key,
    }
}

/// The bound table that a step uses.
fn bound_name(step: &StepTree) -> &Name
    ensures { result.now ≡ bound_name step.now }
{
    match step {
        StepTree::Add { bound, .. } => bound,
        StepTree::Redo { by, .. } => by,
    }
}

fn bound_names(alloc: Global, steps: &[StepTree]) -> Result<NameList, AllocError>
    ensures { IfOk result (λ made. made ≡ map bound_name steps.now) }
{
    let mut names = NameList::new(alloc);
    for step in steps {
        names.push(bound_name(step).copy(alloc)?)?;
    }
    Ok(names)
}

fn name_number(names: &[Name], name: &Name) -> Option<usize>
    ensures { result ≡ position (λ other. bytes_eq other name.now) names.now }
{
    names.iter().position(|other| is_same(other, name))
}

/// The number of a bound table; one that isn't there is the first.
#[tactic(auto, using(crate::proofs::Numbers::bound_below))]
pub fn bound_number(names: &[Name], name: &Name) -> u32
    requires few { length names.now ≤ 4096 }
    ensures { result ≡ bound_number names.now name.now }
{
    match name_number(names, name) {
        Some(number) => number as u32,
        None => 0,
    }
}

/// A step of a function whose bound tables have these names.
fn step_of(tables: &[TableDef], names: &[Name], step: &StepTree) -> Step
    requires few { length tables.now ≤ 64 }
    requires few_bound { length names.now ≤ 4096 }
    ensures { result ≡ step_of tables.now names.now step.now }
{
    match step {
        StepTree::Add { bound, into } => Step::Add {
            bound: bound_number(names, bound),
            into: table_id(tables, into),
        },
        StepTree::Redo { table, by } => Step::Redo {
            table: table_id(tables, table),
            by: bound_number(names, by),
        },
    }
}

fn steps_of(
    alloc: Global,
    tables: &[TableDef],
    names: &[Name],
    steps: &[StepTree],
) -> Result<StepList, AllocError>
    requires few { length tables.now ≤ 64 }
    requires few_bound { length names.now ≤ 4096 }
    ensures { IfOk result (λ made. made ≡ map (step_of tables.now names.now) steps.now) }
{
    let mut made = StepList::new(alloc);
    for step in steps {
        made.push(step_of(tables, names, step))?;
    }
    Ok(made)
}

/// Bound tables that have no columns yet.
fn unbound(alloc: Global, names: &[Name]) -> Result<BoundDefList, AllocError>
    ensures { IfOk result (λ made. made ≡ map (λ bound. record { name = bound; columns = [] }) names.now) }
{
    let mut made = BoundDefList::new(alloc);
    for name in names {
        made.push(BoundDef {
            name: name.copy(alloc)?,
            columns: ColumnDefList::new(alloc),
        })?;
    }
    Ok(made)
}

/// A function: what its steps use is bound by no rule yet.
pub fn function_of(
    alloc: Global,
    tables: &[TableDef],
    name: &Name,
    steps: &[StepTree],
) -> Result<Function, AllocError>
    requires few { length tables.now ≤ 64 }
    requires few_steps { length steps.now ≤ 4 }
    ensures { IfOk result (λ made. made ≡ function_of tables.now name.now steps.now) }
{
    let name = name.copy(alloc)?;
    let mentioned = bound_names(alloc, steps)?;
    let names = each_once(alloc, mentioned.as_slice())?;
    let steps = steps_of(alloc, tables, names.as_slice(), steps)?;
    let bound = unbound(alloc, names.as_slice())?;
    Ok(Function { name, steps, bound })
}
