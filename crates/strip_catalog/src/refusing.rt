//! Why a statement is refused: the causes in their order.
ghost use Rattle.std.specs.Prelude.{◌≡◌, ◌∷◌, IfOk, None, Some, []};
ghost use Rattle.strip_setup.specs.declared.errors.SetupError.TheVariants.{BoundDiffers};
ghost use Rattle.strip_ast.specs.declared.statements.Statement.TheVariants as st;
ghost use Rattle.strip_setup.specs.Checks.{Checks};
ghost use Rattle.strip_setup.specs.Places.{AsksFew};
ghost use Rattle.strip_names.specs.Basics.{closed, no_key, reads_derived};
ghost use Rattle.strip_names.specs.Exists.{exists};
ghost use Rattle.strip_names.specs.Grouped.{is_ungrouped, not_grouped};
ghost use Rattle.strip_names.specs.Limits.{limit};
ghost use Rattle.strip_names.specs.Unknown.{unknown};
ghost use Rattle.strip_kinds.specs.Bound.{bound_differs, not_bound};
ghost use Rattle.strip_kinds.specs.Mismatch.{kind_mismatch};
ghost use Rattle.strip_kinds.specs.Width.{too_wide};
ghost use Rattle.strip_catalog.specs.Calls.{IsDeclaration};
ghost use Rattle.strip_catalog.specs.Laws.{IsSmall};
ghost use Rattle.strip_catalog.specs.Refusals.{first_cause, refusal};

use std::alloc::{AllocError, Global};
use strip_ast::{Deed, Statement};
use strip_kinds::mismatch::{mismatched_in_deed, mismatched_in_query};
use strip_kinds::rules::{
    differs_in_rule, magnitudes_in_rule, mismatched_in_rule, unbound_in_rule,
};
use strip_kinds::width::{magnitudes_in_deed, magnitudes_in_query};
use strip_names::exists::{exists, taken_in_deed};
use strip_names::grouped::{is_misplaced_in, is_misplaced_in_rule, is_underivable};
use strip_names::limits::{limit, limits_in_deed};
use strip_names::refusals::{closed, no_key, reads_derived};
use strip_names::unknown::{unknown, unknown_in_deed};
use strip_setup::SetupError;
use strip_setup::scope::Scope;
use strip_setup::setup::Setup;
use strip_value::{Duplicate, Name};

/// The first expression or column whose kinds don't go together.
fn kind_mismatch(alloc: Global, setup: &Setup<'_>, statement: &Statement) -> Result<(), SetupError>
    requires small { IsSmall setup.now }
    requires within { limit setup.now statement.now ≡ None }
    ensures { Checks (kind_mismatch setup.now statement.now) result }
{
    let tables = setup.defs();
    match statement {
        Statement::Derive { query, .. } => {
            mismatched_in_query(alloc, &Scope::outside_rules(tables), query)
        }
        Statement::Rule {
            table,
            conditions,
            evaluate,
            function,
            manner,
            ..
        } => mismatched_in_rule(
            alloc,
            setup,
            table,
            conditions.as_slice(),
            evaluate.as_slice(),
            function,
            &manner.unique,
        ),
        Statement::Deed { deed, .. } => mismatched_in_deed(alloc, tables, deed),
        _ => Ok(()),
    }
}

/// The first magnitude that is too wide.
fn too_wide(alloc: Global, setup: &Setup<'_>, statement: &Statement) -> Result<(), SetupError>
    requires small { IsSmall setup.now }
    requires within { limit setup.now statement.now ≡ None }
    ensures { Checks (too_wide setup.now statement.now) result }
{
    let tables = setup.defs();
    match statement {
        Statement::Derive { query, .. } => {
            magnitudes_in_query(alloc, &Scope::outside_rules(tables), query)
        }
        Statement::Rule {
            table,
            conditions,
            evaluate,
            function,
            ..
        } => magnitudes_in_rule(
            alloc,
            setup,
            table,
            conditions.as_slice(),
            evaluate.as_slice(),
            function,
        ),
        Statement::Deed { deed, .. } => magnitudes_in_deed(alloc, tables, deed),
        _ => Ok(()),
    }
}

/// The first name that a rule must bind and doesn't.
fn not_bound(alloc: Global, setup: &Setup<'_>, statement: &Statement) -> Result<(), SetupError>
    requires small { IsSmall setup.now }
    requires within { limit setup.now statement.now ≡ None }
    ensures { Checks (not_bound setup.now statement.now) result }
{
    match statement {
        Statement::Rule {
            table,
            conditions,
            evaluate,
            function,
            manner,
            ..
        } => unbound_in_rule(
            alloc,
            setup,
            table,
            conditions.as_slice(),
            evaluate.as_slice(),
            function,
            &manner.unique,
        ),
        _ => Ok(()),
    }
}

/// A rule that binds one name in two ways, or otherwise than an earlier rule of its function.
fn bound_differs(alloc: Global, setup: &Setup<'_>, statement: &Statement) -> Result<(), SetupError>
    requires small { IsSmall setup.now }
    requires within { limit setup.now statement.now ≡ None }
    ensures { Checks (bound_differs setup.now statement.now) result }
{
    let Statement::Rule {
        table,
        conditions,
        evaluate,
        function,
        manner,
        ..
    } = statement
    else {
        return Ok(());
    };
    let differs = differs_in_rule(
        alloc,
        setup,
        table,
        conditions.as_slice(),
        evaluate.as_slice(),
        function,
        &manner.unique,
    );
    match differs {
        Ok(false) => Ok(()),
        Ok(true) => refuse_function(alloc, function),
        Err(_) => Err(SetupError::Memory),
    }
}

/// The refusal of what a rule binds to this function.
fn refuse_function(alloc: Global, function: &Name) -> Result<(), SetupError>
    ensures { Checks (Some (BoundDiffers function.now)) result }
{
    let Ok(function) = function.copy(alloc) else {
        return Err(SetupError::Memory);
    };
    Err(SetupError::BoundDiffers { function })
}

/// Whether items and groups of the statement's queries don't go together.
fn is_ungrouped(alloc: Global, setup: &Setup<'_>, statement: &Statement) -> Result<bool, AllocError>
    requires small { IsSmall setup.now }
    requires within { limit setup.now statement.now ≡ None }
    ensures { IfOk result (λ made. made ≡ is_ungrouped setup.now statement.now) }
{
    let tables = setup.defs();
    match statement {
        Statement::Derive { query, .. } => is_underivable(alloc, tables, query),
        Statement::Rule {
            table,
            conditions,
            evaluate,
            ..
        } => is_misplaced_in_rule(
            alloc,
            tables,
            table,
            conditions.as_slice(),
            evaluate.as_slice(),
        ),
        Statement::Deed { deed, .. } => match deed {
            Deed::Select { query } => is_misplaced_in(alloc, &Scope::outside_rules(tables), query),
            _ => Ok(false),
        },
        _ => Ok(false),
    }
}

/// Items and groups that don't go together.
fn not_grouped(alloc: Global, setup: &Setup<'_>, statement: &Statement) -> Result<(), SetupError>
    requires small { IsSmall setup.now }
    requires within { limit setup.now statement.now ≡ None }
    ensures { Checks (not_grouped setup.now statement.now) result }
{
    match is_ungrouped(alloc, setup, statement) {
        Ok(false) => Ok(()),
        Ok(true) => Err(SetupError::NotGrouped),
        Err(_) => Err(SetupError::Memory),
    }
}

/// Refuses the statement for coming too late, and for what is taken, isn't there, or is too much.
fn check_names(alloc: Global, setup: &Setup<'_>, statement: &Statement) -> Result<(), SetupError>
    ensures { Checks (first_cause (closed setup.now statement.now ∷ exists setup.now statement.now ∷ unknown setup.now statement.now ∷ limit setup.now statement.now ∷ [])) result }
{
    closed(setup, statement)?;
    exists(alloc, setup, statement)?;
    unknown(alloc, setup, statement)?;
    limit(setup, statement)
}

/// Refuses it for what doesn't go together, and for what a table lacks or may not read.
fn check_kinds(alloc: Global, setup: &Setup<'_>, statement: &Statement) -> Result<(), SetupError>
    requires small { IsSmall setup.now }
    requires within { limit setup.now statement.now ≡ None }
    ensures { Checks (first_cause (kind_mismatch setup.now statement.now ∷ too_wide setup.now statement.now ∷ no_key statement.now ∷ reads_derived setup.now statement.now ∷ [])) result }
{
    kind_mismatch(alloc, setup, statement)?;
    too_wide(alloc, setup, statement)?;
    no_key(statement)?;
    reads_derived(alloc, setup, statement)
}

/// Refuses it for what rules bind, and for what groups ask for.
fn check_rules(alloc: Global, setup: &Setup<'_>, statement: &Statement) -> Result<(), SetupError>
    requires small { IsSmall setup.now }
    requires within { limit setup.now statement.now ≡ None }
    ensures { Checks (first_cause (not_bound setup.now statement.now ∷ bound_differs setup.now statement.now ∷ not_grouped setup.now statement.now ∷ [])) result }
{
    not_bound(alloc, setup, statement)?;
    bound_differs(alloc, setup, statement)?;
    not_grouped(alloc, setup, statement)
}

/// Refuses the statement for the first cause that it has.
pub(crate) fn refuse(
    alloc: Global,
    setup: &Setup<'_>,
    statement: &Statement,
) -> Result<(), SetupError>
    requires small { IsSmall setup.now }
    requires declaration { IsDeclaration statement.now }
    ensures { Checks (refusal setup.now statement.now) result }
{
    check_names(alloc, setup, statement)?;
    check_kinds(alloc, setup, statement)?;
    check_rules(alloc, setup, statement)
}

// ---- acts

/// An item that may not stand in the query of an act.
fn act_not_grouped(alloc: Global, setup: &Setup<'_>, deed: &Deed) -> Result<(), SetupError>
    requires small { IsSmall setup.now }
    requires few { AsksFew deed.now }
    ensures { Checks (not_grouped setup.now (st.Deed None deed.now)) result }
{
    let Deed::Select { query } = deed else {
        return Ok(());
    };
    match is_misplaced_in(alloc, &Scope::outside_rules(setup.defs()), query) {
        Ok(false) => Ok(()),
        Ok(true) => Err(SetupError::NotGrouped),
        Err(_) => Err(SetupError::Memory),
    }
}

/// Refuses an act for the first cause that it has.
pub(crate) fn refuse_act(alloc: Global, setup: &Setup<'_>, deed: &Deed) -> Result<(), SetupError>
    requires small { IsSmall setup.now }
    ensures { Checks (refusal setup.now (st.Deed None deed.now)) result }
{
    let tables = setup.defs();
    taken_in_deed(alloc, deed)?;
    unknown_in_deed(alloc, tables, deed)?;
    limits_in_deed(deed)?;
    mismatched_in_deed(alloc, tables, deed)?;
    magnitudes_in_deed(alloc, tables, deed)?;
    act_not_grouped(alloc, setup, deed)
}
