//! What queries bind of what steps and `unique on` need: its kinds, its magnitudes, and what isn't bound.
ghost use Rattle.std.specs.Prelude.{◌≡◌, ◌∷◌, [], option_copied, Some, IfOk, filter, flat_map, is_none, nat_le, option_map};
ghost use Rattle.std.specs.List.{list_all, list_any};
ghost use Rattle.std.specs.Str.{bytes_eq};
ghost use Rattle.strip_setup.specs.declared.errors.SetupError.TheVariants.{KindMismatch, NotBound, TooWide};
ghost use Rattle.strip_kinds.specs.Bound.{unbound_at, unbound_columns, unbound_in_step, unbound_in_unique, unbound_table};
ghost use Rattle.strip_setup.specs.Catalog.{first};
ghost use Rattle.strip_setup.specs.Checks.{Checks};
ghost use Rattle.strip_kinds.specs.Mismatch.{are_mixed, has_other_kind, kinds_bound, mismatched_in_steps, mismatched_in_unique, same_kind};
ghost use Rattle.strip_kinds.specs.Needs.{answer_named, bound_of_step};
ghost use Rattle.strip_kinds.specs.Width.{least_wide, magnitudes_in_steps};

use crate::needs::{Fit, Need, answer_named, bound_of_step, step_fits};
use std::alloc::{AllocError, Global};
use strip_setup::SetupError;
use strip_setup::answers::{Answer, Binding};
use strip_setup::names::is_same;
use strip_value::{BoundDef, Duplicate, Kind, KindList, Name, Step, TableDef};

/// The least magnitude that is too wide.
const LEAST_WIDE: u128 = 1 << 63;

// ---- kinds

/// Whether the two kinds are one.
pub fn is_same_kind(kind: Kind, other: Kind) -> bool
    ensures { result ≡ same_kind kind other }
{
    kind == other
}

/// Whether a bound column has another kind than the key column, or is a text for a total.
fn has_other_kind(need: &Need, given: &Option<Answer>) -> bool
    ensures { result ≡ has_other_kind need.now given.now }
{
    match given {
        None => false,
        Some(answer) if need.is_added => is_same_kind(answer.kind, Kind::Text),
        Some(answer) => !is_same_kind(answer.kind, need.column.kind),
    }
}

fn refuse_kind(alloc: Global, name: &Name) -> Result<(), SetupError>
    ensures { Checks (Some (KindMismatch (Some name.now))) result }
{
    let Ok(name) = name.copy(alloc) else {
        return Err(SetupError::Memory);
    };
    Err(SetupError::KindMismatch { column: Some(name) })
}

/// The bound columns that steps can't use.
pub fn mismatched_in_steps(alloc: Global, fits: &[Fit]) -> Result<(), SetupError>
    ensures { Checks (option_map KindMismatch (first (mismatched_in_steps fits.now))) result }
{
    for fit in fits {
        if has_other_kind(&fit.need, &fit.given) {
            return refuse_kind(alloc, &fit.need.column.name);
        }
    }
    Ok(())
}

fn are_all(kinds: &[Kind], kind: Kind) -> bool
    ensures { result ≡ list_all (same_kind kind) kinds.now }
{
    kinds.iter().all(|other| is_same_kind(kind, *other))
}

fn are_mixed(kinds: &[Kind]) -> bool
    ensures { result ≡ are_mixed kinds.now }
{
    match kinds {
        [] => false,
        [first, rest @ ..] => !are_all(rest, *first),
    }
}

/// The kinds of the bound columns of a name.
fn kinds_bound(alloc: Global, bindings: &[Binding], name: &Name) -> Result<KindList, AllocError>
    ensures { IfOk result (λ made. made ≡ kinds_bound bindings.now name.now) }
{
    let mut kinds = KindList::new(alloc);
    for binding in bindings {
        if let Some(answer) = answer_named(binding, name) {
            kinds.push(answer.kind)?;
        }
    }
    Ok(kinds)
}

/// The names of `unique on` that are bound with two kinds.
pub fn mismatched_in_unique(
    alloc: Global,
    bindings: &[Binding],
    names: &[Name],
) -> Result<(), SetupError>
    ensures { Checks (option_map KindMismatch (first (mismatched_in_unique bindings.now names.now))) result }
{
    for name in names {
        let Ok(kinds) = kinds_bound(alloc, bindings, name) else {
            return Err(SetupError::Memory);
        };
        if are_mixed(kinds.as_slice()) {
            return refuse_kind(alloc, name);
        }
    }
    Ok(())
}

// ---- magnitudes

/// How far from 0 an added number may be, if that is too wide.
fn wide_magnitude(fit: &Fit) -> Option<u128>
    ensures { result ≡ first (filter (nat_le least_wide) (magnitudes_in_steps (fit.now ∷ []))) }
{
    match &fit.given {
        Some(answer) if fit.need.is_added && answer.magnitude >= LEAST_WIDE => {
            Some(answer.magnitude)
        }
        _ => None,
    }
}

/// The magnitudes of the bound columns that are added as totals.
pub fn magnitudes_in_steps(fits: &[Fit]) -> Result<(), SetupError>
    ensures { Checks (option_map TooWide (first (filter (nat_le least_wide) (magnitudes_in_steps fits.now)))) result }
{
    for fit in fits {
        if let Some(magnitude) = wide_magnitude(fit) {
            return Err(SetupError::TooWide { magnitude });
        }
    }
    Ok(())
}

// ---- what isn't bound

fn refuse_unbound(alloc: Global, name: &Name) -> Result<(), SetupError>
    ensures { Checks (Some (NotBound name.now)) result }
{
    let Ok(column) = name.copy(alloc) else {
        return Err(SetupError::Memory);
    };
    Err(SetupError::NotBound { column })
}

fn unbound_columns(alloc: Global, fits: &[Fit]) -> Result<(), SetupError>
    ensures { Checks (option_map NotBound (first (unbound_columns fits.now))) result }
{
    for fit in fits {
        if fit.given.is_none() {
            return refuse_unbound(alloc, &fit.need.column.name);
        }
    }
    Ok(())
}

fn binds(bindings: &[Binding], name: &Name) -> bool
    ensures { result ≡ list_any (λ binding. bytes_eq binding.name name.now) bindings.now }
{
    bindings.iter().any(|binding| is_same(&binding.name, name))
}

fn lacks(bindings: &[Binding], name: &Name) -> bool
    ensures { result ≡ list_any (λ binding. is_none (answer_named binding name.now)) bindings.now }
{
    bindings
        .iter()
        .any(|binding| answer_named(binding, name).is_none())
}

/// The columns of `unique on` that a query doesn't bind.
pub fn unbound_in_unique(
    alloc: Global,
    bindings: &[Binding],
    names: &[Name],
) -> Result<(), SetupError>
    ensures { Checks (option_map NotBound (first (unbound_in_unique bindings.now names.now))) result }
{
    for name in names {
        if lacks(bindings, name) {
            return refuse_unbound(alloc, name);
        }
    }
    Ok(())
}

/// The bound table of a step, if no query binds it.
fn unbound_table(alloc: Global, bindings: &[Binding], name: &Name) -> Result<(), SetupError>
    ensures { Checks (option_map NotBound (first (unbound_table bindings.now name.now))) result }
{
    if binds(bindings, name) {
        return Ok(());
    }
    refuse_unbound(alloc, name)
}

/// The same of a bound table that is there.
fn unbound_at(alloc: Global, bindings: &[Binding], def: Option<&BoundDef>) -> Result<(), SetupError>
    ensures { Checks (option_map NotBound (first (unbound_at bindings.now (option_copied def.entry)))) result }
{
    match def {
        Some(def) => unbound_table(alloc, bindings, &def.name),
        None => Ok(()),
    }
}

/// What a step needs and isn't bound: its table, else columns.
fn unbound_in_step(
    alloc: Global,
    tables: &[TableDef],
    bound: &[BoundDef],
    bindings: &[Binding],
    step: &Step,
) -> Result<(), SetupError>
    ensures { Checks (option_map NotBound (first (unbound_in_step tables.now bound.now bindings.now step.now))) result }
{
    unbound_at(alloc, bindings, bound.get(bound_of_step(step) as usize))?;
    let Ok(fits) = step_fits(alloc, tables, bound, bindings, step) else {
        return Err(SetupError::Memory);
    };
    unbound_columns(alloc, fits.as_slice())
}

/// The same of all steps of a function.
pub fn unbound_in_steps(
    alloc: Global,
    tables: &[TableDef],
    bound: &[BoundDef],
    bindings: &[Binding],
    steps: &[Step],
) -> Result<(), SetupError>
    ensures { Checks (option_map NotBound (first (flat_map (unbound_in_step tables.now bound.now bindings.now) steps.now))) result }
{
    for step in steps {
        unbound_in_step(alloc, tables, bound, bindings, step)?;
    }
    Ok(())
}
