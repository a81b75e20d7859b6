//! What queries and rules bind differently.
ghost use Rattle.std.specs.Prelude.{◌≡◌, ◌++◌, ◌&&◌, IfOk, OnOk, Some, map, [], option_copied, find};
ghost use Rattle.std.specs.List.{list_any};
ghost use Rattle.std.specs.Str.{bytes_eq};
ghost use Rattle.strip_value.specs.declared.rules.BoundDef.{BoundDef};
ghost use Rattle.strip_kinds.specs.Bound.{bind_differently, bound_by, bound_by_rule, bound_name_of, differs, is_number, is_other, names_bound_by, same_bound, same_columns, same_names, same_unique};
ghost use Rattle.strip_kinds.specs.Mismatch.{same_kind};
ghost use Rattle.strip_setup.specs.Queries.{as_columns};
ghost use Rattle.strip_setup.specs.Resolve.{columns_bound, columns_so_far};

use crate::fits::is_same_kind;
use std::alloc::{AllocError, Global};
use strip_setup::answers::{Answer, Binding};
use strip_setup::declares::{binding_named, columns_so_far};
use strip_setup::lists::copied;
use strip_setup::names::{each_once, function_number, is_same};
use strip_setup::queries::as_columns;
use strip_setup::setup::Setup;
use strip_value::{
    BoundDef, BoundDefList, BoundQuery, ColumnDef, Duplicate, Function, Name, NameList, Rule,
};

fn same_names(names: &[Name], others: &[Name]) -> bool
    ensures { result ≡ same_names names.now others.now }
{
    let mut left = others;
    for name in names {
        let [other, rest @ ..] = left else {
            return false;
        };
        if !is_same(name, other) {
            return false;
        }
        left = rest;
    }
    left.is_empty()
}

fn is_same_column(column: &ColumnDef, other: &ColumnDef) -> bool
    ensures { result ≡ (bytes_eq column.now.name other.now.name && same_kind column.now.kind other.now.kind) }
{
    is_same(&column.name, &other.name) && is_same_kind(column.kind, other.kind)
}

fn same_columns(columns: &[ColumnDef], others: &[ColumnDef]) -> bool
    ensures { result ≡ same_columns columns.now others.now }
{
    let mut left = others;
    for column in columns {
        let [other, rest @ ..] = left else {
            return false;
        };
        if !is_same_column(column, other) {
            return false;
        }
        left = rest;
    }
    left.is_empty()
}

fn same_answers(answers: &[Answer], others: &[Answer]) -> bool
    ensures { result ≡ same_columns (as_columns answers.now) (as_columns others.now) }
{
    let mut left = others;
    for answer in answers {
        let [other, rest @ ..] = left else {
            return false;
        };
        if !(is_same(&answer.name, &other.name) && is_same_kind(answer.kind, other.kind)) {
            return false;
        }
        left = rest;
    }
    left.is_empty()
}

fn same_bound(bound: &[BoundDef], others: &[BoundDef]) -> bool
    ensures { result ≡ same_bound bound.now others.now }
{
    let mut left = others;
    for def in bound {
        let [other, rest @ ..] = left else {
            return false;
        };
        if !(is_same(&def.name, &other.name)
            && same_columns(def.columns.as_slice(), other.columns.as_slice()))
        {
            return false;
        }
        left = rest;
    }
    left.is_empty()
}

fn same_unique(unique: &Option<NameList>, other: &Option<NameList>) -> bool
    ensures { result ≡ same_unique unique.now other.now }
{
    match (unique, other) {
        (None, None) => true,
        (Some(names), Some(others)) => same_names(names.as_slice(), others.as_slice()),
        _ => false,
    }
}

/// What the first of the queries binds under this name; nothing, if none does.
fn answers_bound<'a>(bindings: &'a [Binding], name: &Name) -> &'a [Answer]
    ensures { as_columns result.now ≡ columns_bound bindings.now name.now [] }
{
    match binding_named(bindings, name) {
        Some(binding) => binding.columns.as_slice(),
        None => &[],
    }
}

/// Whether it binds what the first binding of its name does.
fn is_like_first(bindings: &[Binding], binding: &Binding) -> bool
    ensures { result ≡ same_columns (columns_bound bindings.now binding.now.name []) (as_columns binding.now.columns) }
{
    same_answers(
        answers_bound(bindings, &binding.name),
        binding.columns.as_slice(),
    )
}

/// Whether two queries bind one name with different columns.
fn bind_differently(bindings: &[Binding]) -> bool
    ensures { result ≡ bind_differently bindings.now }
{
    bindings
        .iter()
        .any(|binding| !is_like_first(bindings, binding))
}

// ---- what is bound, in the order of first binding

fn binding_names(alloc: Global, bindings: &[Binding]) -> Result<NameList, AllocError>
    ensures { IfOk result (λ made. made ≡ map (λ binding. binding.name) bindings.now) }
{
    let mut names = NameList::new(alloc);
    for binding in bindings {
        names.push(binding.name.copy(alloc)?)?;
    }
    Ok(names)
}

fn defs_bound(
    alloc: Global,
    bindings: &[Binding],
    names: &[Name],
) -> Result<BoundDefList, AllocError>
    ensures { IfOk result (λ made. made ≡ map (λ name. record { name = name; columns = columns_bound bindings.now name [] }) names.now) }
{
    let mut defs = BoundDefList::new(alloc);
    for name in names {
        let columns = as_columns(alloc, answers_bound(bindings, name))?;
        let name = name.copy(alloc)?;
        defs.push(BoundDef { name, columns })?;
    }
    Ok(defs)
}

/// What queries bind.
fn bound_by(alloc: Global, bindings: &[Binding]) -> Result<BoundDefList, AllocError>
    ensures { IfOk result (λ made. made ≡ bound_by bindings.now) }
{
    let names = binding_names(alloc, bindings)?;
    let names = each_once(alloc, names.as_slice())?;
    defs_bound(alloc, bindings, names.as_slice())
}

/// The name that a query of a rule binds, if it does.
fn bound_name_of<'a>(bound: &'a [BoundDef], query: &BoundQuery) -> Option<&'a Name>
    ensures { option_copied result ≡ bound_name_of bound.now query.now }
{
    match query.bound {
        Some(number) => match bound.get(number as usize) {
            Some(def) => Some(&def.name),
            None => None,
        },
        None => None,
    }
}

fn push_bound_names(
    alloc: Global,
    names: &mut NameList,
    bound: &[BoundDef],
    queries: &[BoundQuery],
) -> Result<(), AllocError>
    ensures { OnOk result (names.new ≡ names.old ++ names_bound_by bound.now queries.now) }
{
    for query in queries {
        if let Some(name) = bound_name_of(bound, query) {
            names.push(name.copy(alloc)?)?;
        }
    }
    Ok(())
}

#[tactic(auto, using(crate::proofs::Apart::names_apart))]
fn names_bound_by(
    alloc: Global,
    bound: &[BoundDef],
    conditions: &[BoundQuery],
    evaluate: &[BoundQuery],
) -> Result<NameList, AllocError>
    ensures { IfOk result (λ made. made ≡ names_bound_by bound.now (conditions.now ++ evaluate.now)) }
{
    let mut names = NameList::new(alloc);
    push_bound_names(alloc, &mut names, bound, conditions)?;
    push_bound_names(alloc, &mut names, bound, evaluate)?;
    Ok(names)
}

fn defs_so_far(
    alloc: Global,
    bound: &[BoundDef],
    names: &[Name],
) -> Result<BoundDefList, AllocError>
    ensures { IfOk result (λ made. made ≡ map (λ name. record { name = name; columns = columns_so_far bound.now name }) names.now) }
{
    let mut defs = BoundDefList::new(alloc);
    for name in names {
        let columns = copied(alloc, columns_so_far(bound, name))?;
        let name = name.copy(alloc)?;
        defs.push(BoundDef { name, columns })?;
    }
    Ok(defs)
}

/// What a rule of the function binds.
fn bound_by_rule(
    alloc: Global,
    function: &Function,
    rule: &Rule,
) -> Result<BoundDefList, AllocError>
    ensures { IfOk result (λ made. made ≡ bound_by_rule function.now rule.now) }
{
    let bound = function.bound.as_slice();
    let names = names_bound_by(
        alloc,
        bound,
        rule.conditions.as_slice(),
        rule.evaluate.as_slice(),
    )?;
    let names = each_once(alloc, names.as_slice())?;
    defs_so_far(alloc, bound, names.as_slice())
}

/// Whether the rule binds other names or columns, or in another order, or has another `unique` part.
fn is_other(
    alloc: Global,
    function: &Function,
    bound: &[BoundDef],
    unique: &Option<NameList>,
    rule: &Rule,
) -> Result<bool, AllocError>
    ensures { IfOk result (λ made. made ≡ is_other function.now bound.now unique.now rule.now) }
{
    let bound_there = bound_by_rule(alloc, function, rule)?;
    Ok(!same_bound(bound_there.as_slice(), bound) || !same_unique(&rule.unique, unique))
}

/// Whether the rule is one of the function of this number and binds otherwise.
fn is_other_of(
    alloc: Global,
    function: &Function,
    number: usize,
    bound: &[BoundDef],
    unique: &Option<NameList>,
    rule: &Rule,
) -> Result<bool, AllocError>
    ensures { IfOk result (λ made. made ≡ (is_number (Some number) rule.now.function && is_other function.now bound.now unique.now rule.now)) }
{
    if rule.function as usize != number {
        return Ok(false);
    }
    is_other(alloc, function, bound, unique, rule)
}

/// Whether a rule of the function of this number binds otherwise.
fn any_is_other(
    alloc: Global,
    function: &Function,
    number: usize,
    bound: &[BoundDef],
    unique: &Option<NameList>,
    rules: &[Rule],
) -> Result<bool, AllocError>
    ensures { IfOk result (λ made. made ≡ list_any (λ rule. is_number (Some number) rule.function && is_other function.now bound.now unique.now rule) rules.now) }
{
    let mut left = rules;
    while let [rule, rest @ ..] = left {
        if is_other_of(alloc, function, number, bound, unique, rule)? {
            return Ok(true);
        }
        left = rest;
    }
    Ok(false)
}

/// Whether a rule of the function with these bindings and this `unique` part binds one name in two ways, or otherwise than
/// an earlier rule of the function.
pub fn differs(
    alloc: Global,
    setup: &Setup<'_>,
    function: &Name,
    bindings: &[Binding],
    unique: &Option<NameList>,
) -> Result<bool, AllocError>
    ensures { IfOk result (λ made. made ≡ differs setup.now function.now bindings.now unique.now) }
{
    if bind_differently(bindings) {
        return Ok(true);
    }
    let functions = setup.functions();
    let Some(number) = function_number(functions, function) else {
        return Ok(false);
    };
    let bound = bound_by(alloc, bindings)?;
    any_is_other(
        alloc,
        &functions[number],
        number,
        bound.as_slice(),
        unique,
        setup.rules(),
    )
}
