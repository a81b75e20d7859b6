//! The causes that the queries of a rule have, and what they bind.
ghost use Rattle.std.specs.Prelude.{◌≡◌, [], ◌++◌, ◌≤◌, IfOk, filter, flat_map, length, nat_le, option_map, unwrap_or};
ghost use Rattle.strip_setup.specs.declared.errors.SetupError.TheVariants.{KindMismatch, NotBound, TooWide};
ghost use Rattle.strip_kinds.specs.Bound.{differs, unbound_in_step, unbound_in_unique};
ghost use Rattle.strip_setup.specs.Catalog.{first};
ghost use Rattle.strip_setup.specs.Checks.{Checks};
ghost use Rattle.strip_kinds.specs.Mismatch.{mismatched_in_query, mismatched_in_steps, mismatched_in_unique};
ghost use Rattle.strip_kinds.specs.Needs.{fits_of};
ghost use Rattle.strip_setup.specs.Resolve.{bindings_of, function_at, in_rule};
ghost use Rattle.strip_setup.specs.Small.{HaveFewEntries, IsSmallScope};
ghost use Rattle.strip_kinds.specs.Width.{least_wide, magnitudes_in_query, magnitudes_in_steps};

use crate::bound::differs;
use crate::fits::{
    magnitudes_in_steps, mismatched_in_steps, mismatched_in_unique, unbound_in_steps,
    unbound_in_unique,
};
use crate::mismatch::mismatched_in_query;
use crate::needs::{FitList, fits_of};
use crate::width::magnitudes_in_query;
use std::alloc::{AllocError, Global};
use strip_ast::{BoundTree, QueryTree};
use strip_setup::SetupError;
use strip_setup::answers::Binding;
use strip_setup::declares::bindings_of;
use strip_setup::names::function_named;
use strip_setup::scope::Scope;
use strip_setup::setup::Setup;
use strip_value::{Name, NameList};

// ---- kinds

fn check_query_kinds(alloc: Global, scope: &Scope, query: &QueryTree) -> Result<(), SetupError>
    requires small { IsSmallScope scope.now }
    requires few { length query.now.entries ≤ 3 }
    ensures { Checks (option_map KindMismatch (first (mismatched_in_query scope.now query.now))) result }
{
    mismatched_in_query(alloc, scope, query)
}

fn check_kinds(alloc: Global, scope: &Scope, queries: &[BoundTree]) -> Result<(), SetupError>
    requires small { IsSmallScope scope.now }
    requires few { HaveFewEntries queries.now }
    ensures { Checks (option_map KindMismatch (first (flat_map (λ bound. mismatched_in_query scope.now bound.query) queries.now))) result }
{
    for bound in queries {
        check_query_kinds(alloc, scope, &bound.query)?;
    }
    Ok(())
}

fn check_unique_kinds(
    alloc: Global,
    bindings: &[Binding],
    unique: &Option<NameList>,
) -> Result<(), SetupError>
    ensures { Checks (option_map KindMismatch (first (mismatched_in_unique bindings.now (unwrap_or unique.now [])))) result }
{
    match unique {
        Some(names) => mismatched_in_unique(alloc, bindings, names.as_slice()),
        None => Ok(()),
    }
}

/// What the steps of the function of a name need; nothing, where it isn't there.
fn fits_at(
    alloc: Global,
    setup: &Setup<'_>,
    function: &Name,
    bindings: &[Binding],
) -> Result<FitList, AllocError>
    ensures { IfOk result (λ made. made ≡ fits_of setup.now.tables (function_at setup.now function.now) bindings.now) }
{
    match function_named(setup.functions(), function) {
        Some(function) => fits_of(alloc, setup.defs(), function, bindings),
        None => Ok(FitList::new(alloc)),
    }
}

fn check_step_kinds(
    alloc: Global,
    setup: &Setup<'_>,
    function: &Name,
    bindings: &[Binding],
) -> Result<(), SetupError>
    ensures { Checks (option_map KindMismatch (first (mismatched_in_steps (fits_of setup.now.tables (function_at setup.now function.now) bindings.now)))) result }
{
    let Ok(fits) = fits_at(alloc, setup, function, bindings) else {
        return Err(SetupError::Memory);
    };
    mismatched_in_steps(alloc, fits.as_slice())
}

/// What doesn't go together in conditions, and then in what is evaluated.
fn check_body_kinds(
    alloc: Global,
    scope: &Scope,
    conditions: &[BoundTree],
    evaluate: &[BoundTree],
) -> Result<(), SetupError>
    requires small { IsSmallScope scope.now }
    requires few_conditions { HaveFewEntries conditions.now }
    requires few { HaveFewEntries evaluate.now }
    ensures { Checks (option_map KindMismatch (first (flat_map (λ bound. mismatched_in_query scope.now bound.query) (conditions.now ++ evaluate.now)))) result }
{
    check_kinds(alloc, scope, conditions)?;
    check_kinds(alloc, scope, evaluate)
}

/// What is bound and doesn't go with the steps of the function, and then with `unique on`.
fn check_use_kinds(
    alloc: Global,
    setup: &Setup<'_>,
    function: &Name,
    bindings: &[Binding],
    unique: &Option<NameList>,
) -> Result<(), SetupError>
    ensures { Checks (option_map KindMismatch (first (mismatched_in_steps (fits_of setup.now.tables (function_at setup.now function.now) bindings.now)
        ++ mismatched_in_unique bindings.now (unwrap_or unique.now [])))) result }
{
    check_step_kinds(alloc, setup, function, bindings)?;
    check_unique_kinds(alloc, bindings, unique)
}

/// What doesn't go together in the queries of a rule on the table, in the steps of its function, and in `unique on`.
pub fn mismatched_in_rule(
    alloc: Global,
    setup: &Setup<'_>,
    table: &Name,
    conditions: &[BoundTree],
    evaluate: &[BoundTree],
    function: &Name,
    unique: &Option<NameList>,
) -> Result<(), SetupError>
    requires small { IsSmallScope (in_rule setup.now.tables table.now) }
    requires few_conditions { HaveFewEntries conditions.now }
    requires few { HaveFewEntries evaluate.now }
    ensures { Checks (option_map KindMismatch (first (flat_map (λ bound. mismatched_in_query (in_rule setup.now.tables table.now) bound.query) (conditions.now ++ evaluate.now)
        ++ (mismatched_in_steps (fits_of setup.now.tables (function_at setup.now function.now) (bindings_of (in_rule setup.now.tables table.now) (conditions.now ++ evaluate.now)))
        ++ mismatched_in_unique (bindings_of (in_rule setup.now.tables table.now) (conditions.now ++ evaluate.now)) (unwrap_or unique.now []))))) result }
{
    let scope = Scope::in_rule(setup.defs(), table);
    check_body_kinds(alloc, &scope, conditions, evaluate)?;
    let Ok(bindings) = bindings_of(alloc, &scope, conditions, evaluate) else {
        return Err(SetupError::Memory);
    };
    check_use_kinds(alloc, setup, function, bindings.as_slice(), unique)
}

// ---- magnitudes

fn check_query_widths(alloc: Global, scope: &Scope, query: &QueryTree) -> Result<(), SetupError>
    requires small { IsSmallScope scope.now }
    requires few { length query.now.entries ≤ 3 }
    ensures { Checks (option_map TooWide (first (filter (nat_le least_wide) (magnitudes_in_query scope.now query.now)))) result }
{
    magnitudes_in_query(alloc, scope, query)
}

fn check_widths(alloc: Global, scope: &Scope, queries: &[BoundTree]) -> Result<(), SetupError>
    requires small { IsSmallScope scope.now }
    requires few { HaveFewEntries queries.now }
    ensures { Checks (option_map TooWide (first (flat_map (λ bound. filter (nat_le least_wide) (magnitudes_in_query scope.now bound.query)) queries.now))) result }
{
    for bound in queries {
        check_query_widths(alloc, scope, &bound.query)?;
    }
    Ok(())
}

fn check_step_widths(
    alloc: Global,
    setup: &Setup<'_>,
    function: &Name,
    bindings: &[Binding],
) -> Result<(), SetupError>
    ensures { Checks (option_map TooWide (first (filter (nat_le least_wide) (magnitudes_in_steps (fits_of setup.now.tables (function_at setup.now function.now) bindings.now))))) result }
{
    let Ok(fits) = fits_at(alloc, setup, function, bindings) else {
        return Err(SetupError::Memory);
    };
    magnitudes_in_steps(fits.as_slice())
}

/// What is too wide in conditions, and then in what is evaluated.
fn check_body_widths(
    alloc: Global,
    scope: &Scope,
    conditions: &[BoundTree],
    evaluate: &[BoundTree],
) -> Result<(), SetupError>
    requires small { IsSmallScope scope.now }
    requires few_conditions { HaveFewEntries conditions.now }
    requires few { HaveFewEntries evaluate.now }
    ensures { Checks (option_map TooWide (first (flat_map (λ bound. filter (nat_le least_wide) (magnitudes_in_query scope.now bound.query)) (conditions.now ++ evaluate.now)))) result }
{
    check_widths(alloc, scope, conditions)?;
    check_widths(alloc, scope, evaluate)
}

/// What is too wide in the queries of a rule on the table, and in the columns that its function adds.
pub fn magnitudes_in_rule(
    alloc: Global,
    setup: &Setup<'_>,
    table: &Name,
    conditions: &[BoundTree],
    evaluate: &[BoundTree],
    function: &Name,
) -> Result<(), SetupError>
    requires small { IsSmallScope (in_rule setup.now.tables table.now) }
    requires few_conditions { HaveFewEntries conditions.now }
    requires few { HaveFewEntries evaluate.now }
    ensures { Checks (option_map TooWide (first (filter (nat_le least_wide) (flat_map (λ bound. magnitudes_in_query (in_rule setup.now.tables table.now) bound.query) (conditions.now ++ evaluate.now)
        ++ magnitudes_in_steps (fits_of setup.now.tables (function_at setup.now function.now) (bindings_of (in_rule setup.now.tables table.now) (conditions.now ++ evaluate.now))))))) result }
{
    let scope = Scope::in_rule(setup.defs(), table);
    check_body_widths(alloc, &scope, conditions, evaluate)?;
    let Ok(bindings) = bindings_of(alloc, &scope, conditions, evaluate) else {
        return Err(SetupError::Memory);
    };
    check_step_widths(alloc, setup, function, bindings.as_slice())
}

// ---- what isn't bound

fn check_unique_bound(
    alloc: Global,
    bindings: &[Binding],
    unique: &Option<NameList>,
) -> Result<(), SetupError>
    ensures { Checks (option_map NotBound (first (unbound_in_unique bindings.now (unwrap_or unique.now [])))) result }
{
    match unique {
        Some(names) => unbound_in_unique(alloc, bindings, names.as_slice()),
        None => Ok(()),
    }
}

fn check_steps_bound(
    alloc: Global,
    setup: &Setup<'_>,
    function: &Name,
    bindings: &[Binding],
) -> Result<(), SetupError>
    ensures { Checks (option_map NotBound (first (flat_map (unbound_in_step setup.now.tables (function_at setup.now function.now).bound bindings.now) (function_at setup.now function.now).steps))) result }
{
    match function_named(setup.functions(), function) {
        Some(function) => unbound_in_steps(
            alloc,
            setup.defs(),
            function.bound.as_slice(),
            bindings,
            function.steps.as_slice(),
        ),
        None => Ok(()),
    }
}

/// What the steps of the function need, and then `unique on`, and isn't bound.
fn check_uses_bound(
    alloc: Global,
    setup: &Setup<'_>,
    function: &Name,
    bindings: &[Binding],
    unique: &Option<NameList>,
) -> Result<(), SetupError>
    ensures { Checks (option_map NotBound (first (flat_map (unbound_in_step setup.now.tables (function_at setup.now function.now).bound bindings.now) (function_at setup.now function.now).steps
        ++ unbound_in_unique bindings.now (unwrap_or unique.now [])))) result }
{
    check_steps_bound(alloc, setup, function, bindings)?;
    check_unique_bound(alloc, bindings, unique)
}

/// What the queries of a rule on the table must bind and don't.
pub fn unbound_in_rule(
    alloc: Global,
    setup: &Setup<'_>,
    table: &Name,
    conditions: &[BoundTree],
    evaluate: &[BoundTree],
    function: &Name,
    unique: &Option<NameList>,
) -> Result<(), SetupError>
    requires small { IsSmallScope (in_rule setup.now.tables table.now) }
    requires few_conditions { HaveFewEntries conditions.now }
    requires few { HaveFewEntries evaluate.now }
    ensures { Checks (option_map NotBound (first (flat_map (unbound_in_step setup.now.tables (function_at setup.now function.now).bound (bindings_of (in_rule setup.now.tables table.now) (conditions.now ++ evaluate.now))) (function_at setup.now function.now).steps
        ++ unbound_in_unique (bindings_of (in_rule setup.now.tables table.now) (conditions.now ++ evaluate.now)) (unwrap_or unique.now [])))) result }
{
    let scope = Scope::in_rule(setup.defs(), table);
    let Ok(bindings) = bindings_of(alloc, &scope, conditions, evaluate) else {
        return Err(SetupError::Memory);
    };
    check_uses_bound(alloc, setup, function, bindings.as_slice(), unique)
}

// ---- what is bound differently

/// Whether the queries of a rule on the table bind a name in two ways, or the rule binds otherwise than an earlier rule of
/// its function.
pub fn differs_in_rule(
    alloc: Global,
    setup: &Setup<'_>,
    table: &Name,
    conditions: &[BoundTree],
    evaluate: &[BoundTree],
    function: &Name,
    unique: &Option<NameList>,
) -> Result<bool, AllocError>
    requires small { IsSmallScope (in_rule setup.now.tables table.now) }
    requires few_conditions { HaveFewEntries conditions.now }
    requires few { HaveFewEntries evaluate.now }
    ensures { IfOk result (λ made. made ≡ differs setup.now function.now (bindings_of (in_rule setup.now.tables table.now) (conditions.now ++ evaluate.now)) unique.now) }
{
    let scope = Scope::in_rule(setup.defs(), table);
    let bindings = bindings_of(alloc, &scope, conditions, evaluate)?;
    differs(alloc, setup, function, bindings.as_slice(), unique)
}
