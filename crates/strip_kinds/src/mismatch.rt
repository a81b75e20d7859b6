//! Kinds that don't go together in expressions.
ghost use Rattle.std.specs.Prelude.{◌≡◌, ◌≤◌, ◌++◌, ◌∷◌, [], Some, filter, flat_map, map, option_copied, option_map};
ghost use Rattle.strip_setup.specs.declared.errors.SetupError.TheVariants.{KindMismatch};
ghost use Rattle.strip_setup.specs.Small.{AreFew, AreNarrow};
ghost use Rattle.strip_setup.specs.Catalog.{first};
ghost use Rattle.strip_setup.specs.Checks.{Checks};
ghost use Rattle.strip_kinds.specs.Mismatch.{differ, first_column, is_joined_badly, is_mismatched, is_text, is_text_kind, joins_badly, mismatched_in_all, mismatched_in_deed, mismatched_in_query};
ghost use Rattle.strip_setup.specs.Parts.{class_of, filter_wholes, gives_truth, is_truth, joins_truth, parts, query_wholes, total_wholes, update_wholes, value};
ghost use Rattle.strip_setup.specs.Places.{AsksFew};
ghost use Rattle.strip_kinds.specs.Walks.{mismatched_parts};
ghost use Rattle.strip_setup.specs.Queries.{entries_of, own_entry};

use std::alloc::Global;
use strip_ast::{Deed, Expr, ItemTree, Op, QueryTree, SetTree, Total};
use strip_setup::SetupError;
use strip_setup::places::{kind_at, place_of};
use strip_setup::scope::{Entry, Scope, own_entry};
use strip_value::{Duplicate, Kind, Name, TableDef};

// ---- operators

/// Whether the operator joins truth values; others join values.
fn joins_truth(op: Op) -> bool
    ensures { result ≡ joins_truth (class_of op) }
{
    match op {
        Op::And | Op::Or => true,
        _ => false,
    }
}

/// Whether the operator gives a truth value; arithmetic gives a value.
fn gives_truth(op: Op) -> bool
    ensures { result ≡ gives_truth (class_of op) }
{
    match op {
        Op::Add | Op::Sub | Op::Mul => false,
        _ => true,
    }
}

/// Whether the operator doesn't go with values of which some are texts.
fn joins_badly(op: Op, left_is_text: bool, right_is_text: bool) -> bool
    ensures { result ≡ joins_badly (class_of op) left_is_text right_is_text }
{
    match op {
        Op::Add | Op::Sub | Op::Mul => left_is_text || right_is_text,
        Op::And | Op::Or => false,
        _ => differ(left_is_text, right_is_text),
    }
}

/// Whether one of the two alone is true.
fn differ(one: bool, other: bool) -> bool
    ensures { result ≡ differ one other }
{
    if one { !other } else { other }
}

// ---- expressions

/// Whether values of the kind are texts.
pub fn is_text_kind(kind: Kind) -> bool
    ensures { result ≡ is_text_kind kind }
{
    match kind {
        Kind::Text => true,
        Kind::Int | Kind::Big => false,
    }
}

/// Whether the expression's value is a text.
fn is_text(entries: &[Entry], expr: &Expr) -> bool
    requires few { AreFew entries.now }
    ensures { result ≡ is_text entries.now expr.now }
{
    match expr {
        Expr::Text(_) => true,
        Expr::Column { of, name } => is_text_kind(kind_at(entries, place_of(entries, of, name))),
        Expr::Number(_) => false,
        Expr::Two { .. } => false,
        Expr::Not(_) => false,
    }
}

/// Whether the expression is a truth value.
pub fn is_truth(expr: &Expr) -> bool
    ensures { result ≡ is_truth expr.now }
{
    match expr {
        Expr::Two { op, .. } => gives_truth(*op),
        Expr::Not(_) => true,
        _ => false,
    }
}

/// Whether what the expression joins doesn't go together.
fn is_joined_badly(entries: &[Entry], expr: &Expr) -> bool
    requires few { AreFew entries.now }
    ensures { result ≡ is_joined_badly entries.now expr.now }
{
    match expr {
        Expr::Two { op, left, right } => {
            joins_badly(
                *op,
                is_text(entries, left.get()),
                is_text(entries, right.get()),
            )
        }
        _ => false,
    }
}

fn is_mismatched(entries: &[Entry], wants_truth: bool, expr: &Expr) -> bool
    requires few { AreFew entries.now }
    ensures { result ≡ is_mismatched entries.now (record { expr = expr.now; wants_truth = wants_truth }) }
{
    differ(is_truth(expr), wants_truth) || is_joined_badly(entries, expr)
}

/// The name of the first column in an expression.
#[tactic(auto, using(crate::proofs::Mixed::first_of_not))]
fn first_column(expr: &Expr) -> Option<&Name>
    ensures { option_copied result ≡ first_column expr.now }
{
    match expr {
        Expr::Column { name, .. } => Some(name),
        Expr::Two { left, right, .. } => match first_column(left.get()) {
            Some(name) => Some(name),
            None => first_column(right.get()),
        },
        Expr::Not(inner) => first_column(inner.get()),
        _ => None,
    }
}

/// The refusal of an expression with this first column.
fn refuse(alloc: Global, column: Option<&Name>) -> Result<(), SetupError>
    ensures { Checks (Some (KindMismatch (option_copied column.entry))) result }
{
    let Some(name) = column else {
        return Err(SetupError::KindMismatch { column: None });
    };
    let Ok(name) = name.copy(alloc) else {
        return Err(SetupError::Memory);
    };
    Err(SetupError::KindMismatch { column: Some(name) })
}

fn check_part(
    alloc: Global,
    entries: &[Entry],
    wants_truth: bool,
    expr: &Expr,
) -> Result<(), SetupError>
    requires few { AreFew entries.now }
    ensures { Checks (option_map KindMismatch (first (mismatched_parts entries.now (record { expr = expr.now; wants_truth = wants_truth } ∷ [])))) result }
{
    if is_mismatched(entries, wants_truth, expr) {
        refuse(alloc, first_column(expr))
    } else {
        Ok(())
    }
}

/// The parts of an expression, a part before the whole and a left one before a right one.
fn check_expr(
    alloc: Global,
    entries: &[Entry],
    wants_truth: bool,
    expr: &Expr,
) -> Result<(), SetupError>
    requires few { AreFew entries.now }
    ensures { Checks (option_map KindMismatch (first (mismatched_parts entries.now (parts wants_truth expr.now)))) result }
{
    match expr {
        Expr::Two { op, left, right } => {
            let joins = joins_truth(*op);
            check_expr(alloc, entries, joins, left.get())?;
            check_expr(alloc, entries, joins, right.get())?;
            check_part(alloc, entries, wants_truth, expr)
        }
        Expr::Not(inner) => {
            check_expr(alloc, entries, true, inner.get())?;
            check_part(alloc, entries, wants_truth, expr)
        }
        _ => check_part(alloc, entries, wants_truth, expr),
    }
}

/// What is summed up is no text.
fn check_summed(alloc: Global, entries: &[Entry], expr: &Expr) -> Result<(), SetupError>
    requires few { AreFew entries.now }
    ensures { Checks (option_map KindMismatch (first (map first_column (filter (is_text entries.now) (expr.now ∷ []))))) result }
{
    if is_text(entries, expr) {
        refuse(alloc, first_column(expr))
    } else {
        Ok(())
    }
}

// ---- queries and acts

#[tactic(auto, using(crate::proofs::Mixed::alone))]
fn check_total(alloc: Global, entries: &[Entry], total: &Total) -> Result<(), SetupError>
    requires few { AreFew entries.now }
    ensures { Checks (option_map KindMismatch (first (mismatched_in_all entries.now (total_wholes total.now)))) result }
{
    match total {
        Total::Plain(expr) => check_expr(alloc, entries, false, expr),
        Total::Sum(expr) => {
            check_expr(alloc, entries, false, expr)?;
            check_summed(alloc, entries, expr)
        }
        Total::Count => Ok(()),
    }
}

fn check_items(alloc: Global, entries: &[Entry], items: &[ItemTree]) -> Result<(), SetupError>
    requires few { AreFew entries.now }
    ensures { Checks (option_map KindMismatch (first (flat_map (λ item. mismatched_in_all entries.now (total_wholes item.what)) items.now))) result }
{
    for item in items {
        check_total(alloc, entries, &item.what)?;
    }
    Ok(())
}

#[tactic(auto, using(crate::proofs::Mixed::alone))]
fn check_filter(alloc: Global, entries: &[Entry], filter: &Option<Expr>) -> Result<(), SetupError>
    requires few { AreFew entries.now }
    ensures { Checks (option_map KindMismatch (first (mismatched_in_all entries.now (filter_wholes filter.now)))) result }
{
    match filter {
        Some(expr) => check_expr(alloc, entries, true, expr),
        None => Ok(()),
    }
}

#[tactic(auto, using(crate::proofs::Mixed::mismatched_wholes))]
fn check_wholes(alloc: Global, entries: &[Entry], query: &QueryTree) -> Result<(), SetupError>
    requires few { AreFew entries.now }
    ensures { Checks (option_map KindMismatch (first (mismatched_in_all entries.now (query_wholes query.now)))) result }
{
    check_items(alloc, entries, query.items.as_slice())?;
    check_filter(alloc, entries, &query.filter)
}

/// The first mismatch in a query.
pub fn mismatched_in_query(
    alloc: Global,
    scope: &Scope,
    query: &QueryTree,
) -> Result<(), SetupError>
    requires few { AreFew (entries_of scope.now query.now) }
    ensures { Checks (option_map KindMismatch (first (mismatched_in_query scope.now query.now))) result }
{
    let Ok(entries) = scope.entries_of(alloc, query) else {
        return Err(SetupError::Memory);
    };
    check_wholes(alloc, entries.as_slice(), query)
}

#[tactic(auto, using(crate::proofs::Mixed::alone))]
fn check_set(alloc: Global, entries: &[Entry], set: &SetTree) -> Result<(), SetupError>
    requires few { AreFew entries.now }
    ensures { Checks (option_map KindMismatch (first (mismatched_in_all entries.now (record { expr = set.now.value; purpose = value } ∷ [])))) result }
{
    check_expr(alloc, entries, false, &set.value)
}

fn check_sets(alloc: Global, entries: &[Entry], sets: &[SetTree]) -> Result<(), SetupError>
    requires few { AreFew entries.now }
    ensures { Checks (option_map KindMismatch (first (flat_map (λ s. mismatched_in_all entries.now (record { expr = s.value; purpose = value } ∷ [])) sets.now))) result }
{
    for set in sets {
        check_set(alloc, entries, set)?;
    }
    Ok(())
}

#[tactic(auto, using(crate::proofs::Mixed::mismatched_update))]
fn check_change(
    alloc: Global,
    entries: &[Entry],
    sets: &[SetTree],
    filter: &Option<Expr>,
) -> Result<(), SetupError>
    requires few { AreFew entries.now }
    ensures { Checks (option_map KindMismatch (first (mismatched_in_all entries.now (update_wholes sets.now filter.now)))) result }
{
    check_sets(alloc, entries, sets)?;
    check_filter(alloc, entries, filter)
}

#[tactic(auto, using(strip_setup::proofs::Meant::own_few))]
fn check_update(
    alloc: Global,
    tables: &[TableDef],
    table: &Name,
    sets: &[SetTree],
    filter: &Option<Expr>,
) -> Result<(), SetupError>
    requires narrow { AreNarrow tables.now }
    ensures { Checks (option_map KindMismatch (first (mismatched_in_all (own_entry tables.now table.now) (update_wholes sets.now filter.now)))) result }
{
    let Ok(entries) = own_entry(alloc, tables, table) else {
        return Err(SetupError::Memory);
    };
    check_change(alloc, entries.as_slice(), sets, filter)
}

#[tactic(auto, using(strip_setup::proofs::Meant::own_few))]
fn check_delete(
    alloc: Global,
    tables: &[TableDef],
    table: &Name,
    filter: &Option<Expr>,
) -> Result<(), SetupError>
    requires narrow { AreNarrow tables.now }
    ensures { Checks (option_map KindMismatch (first (mismatched_in_all (own_entry tables.now table.now) (filter_wholes filter.now)))) result }
{
    let Ok(entries) = own_entry(alloc, tables, table) else {
        return Err(SetupError::Memory);
    };
    check_filter(alloc, entries.as_slice(), filter)
}

/// The first mismatch in an act.
pub fn mismatched_in_deed(alloc: Global, tables: &[TableDef], deed: &Deed) -> Result<(), SetupError>
    requires narrow { AreNarrow tables.now }
    requires few { AsksFew deed.now }
    ensures { Checks (option_map KindMismatch (first (mismatched_in_deed tables.now deed.now))) result }
{
    match deed {
        Deed::Update {
            table,
            sets,
            filter,
        } => check_update(alloc, tables, table, sets.as_slice(), filter),
        Deed::Delete { table, filter } => check_delete(alloc, tables, table, filter),
        Deed::Select { query } => {
            mismatched_in_query(alloc, &Scope::outside_rules(tables), query)
        }
        _ => Ok(()),
    }
}
