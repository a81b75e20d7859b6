//! Numbers in expressions that may grow too wide.
ghost use Rattle.std.specs.Prelude.{◌≡◌, ◌++◌, ◌∷◌, [], filter, flat_map, nat_le, option_map};
ghost use Rattle.strip_setup.specs.declared.errors.SetupError.TheVariants.{TooWide};
ghost use Rattle.strip_setup.specs.Small.{AreFew, AreNarrow};
ghost use Rattle.strip_setup.specs.Catalog.{first};
ghost use Rattle.strip_setup.specs.Checks.{Checks};
ghost use Rattle.strip_setup.specs.Parts.{filter_wholes, query_wholes, sum, total_wholes, update_wholes, value};
ghost use Rattle.strip_setup.specs.Places.{AsksFew};
ghost use Rattle.strip_kinds.specs.Walks.{part_exprs, wide_computed, wide_exprs, wide_wholes};
ghost use Rattle.strip_setup.specs.Queries.{entries_of, kinds_of, own_entry};
ghost use Rattle.strip_kinds.specs.Width.{is_computed, least_wide, magnitudes_in_all, magnitudes_in_deed, magnitudes_in_query, summed_column};

use crate::mismatch::is_truth;
use std::alloc::Global;
use strip_ast::{Deed, Expr, ItemTree, QueryTree, SetTree, Total};
use strip_query::magnitude;
use strip_setup::SetupError;
use strip_setup::calculations::calc_of;
use strip_setup::places::kinds_of;
use strip_setup::scope::{Entry, Scope, own_entry};
use strip_value::{Kinds, Name, TableDef};

/// The least magnitude that is too wide.
const LEAST_WIDE: u128 = 1 << 63;

// ---- expressions

/// Whether it is a value that isn't a bare column.
fn is_computed(expr: &Expr) -> bool
    ensures { result ≡ is_computed expr.now }
{
    match expr {
        Expr::Number(_) | Expr::Text(_) => true,
        Expr::Column { .. } => false,
        Expr::Two { .. } => !is_truth(expr),
        Expr::Not(_) => false,
    }
}

fn check_magnitude(
    alloc: Global,
    kinds: &Kinds,
    entries: &[Entry],
    expr: &Expr,
) -> Result<(), SetupError>
    requires few { AreFew entries.now }
    ensures { Checks (option_map TooWide (first (wide_exprs kinds.now entries.now (expr.now ∷ [])))) result }
{
    let Ok(calc) = calc_of(alloc, entries, expr) else {
        return Err(SetupError::Memory);
    };
    let magnitude = magnitude(&calc, kinds);
    if LEAST_WIDE <= magnitude {
        Err(SetupError::TooWide { magnitude })
    } else {
        Ok(())
    }
}

fn check_part(
    alloc: Global,
    kinds: &Kinds,
    entries: &[Entry],
    expr: &Expr,
) -> Result<(), SetupError>
    requires few { AreFew entries.now }
    ensures { Checks (option_map TooWide (first (wide_computed kinds.now entries.now (expr.now ∷ [])))) result }
{
    if is_computed(expr) {
        check_magnitude(alloc, kinds, entries, expr)
    } else {
        Ok(())
    }
}

/// The computed parts of an expression, a part before the whole and a left one before a right one.
fn check_expr(
    alloc: Global,
    kinds: &Kinds,
    entries: &[Entry],
    expr: &Expr,
) -> Result<(), SetupError>
    requires few { AreFew entries.now }
    ensures { Checks (option_map TooWide (first (wide_computed kinds.now entries.now (part_exprs expr.now)))) result }
{
    match expr {
        Expr::Two { left, right, .. } => {
            check_expr(alloc, kinds, entries, left.get())?;
            check_expr(alloc, kinds, entries, right.get())?;
            check_part(alloc, kinds, entries, expr)
        }
        Expr::Not(inner) => {
            check_expr(alloc, kinds, entries, inner.get())?;
            check_part(alloc, kinds, entries, expr)
        }
        _ => check_part(alloc, kinds, entries, expr),
    }
}

/// A bare column that is summed up.
fn check_summed(
    alloc: Global,
    kinds: &Kinds,
    entries: &[Entry],
    expr: &Expr,
) -> Result<(), SetupError>
    requires few { AreFew entries.now }
    ensures { Checks (option_map TooWide (first (wide_exprs kinds.now entries.now (summed_column sum expr.now)))) result }
{
    match expr {
        Expr::Column { .. } => check_magnitude(alloc, kinds, entries, expr),
        Expr::Number(_) | Expr::Text(_) => Ok(()),
        Expr::Two { .. } => Ok(()),
        Expr::Not(_) => Ok(()),
    }
}

// ---- queries and acts

#[tactic(auto, using(crate::proofs::Wide::alone))]
fn check_total(
    alloc: Global,
    kinds: &Kinds,
    entries: &[Entry],
    total: &Total,
) -> Result<(), SetupError>
    requires few { AreFew entries.now }
    ensures { Checks (option_map TooWide (first (wide_wholes kinds.now entries.now (total_wholes total.now)))) result }
{
    match total {
        Total::Plain(expr) => check_expr(alloc, kinds, entries, expr),
        Total::Sum(expr) => {
            check_expr(alloc, kinds, entries, expr)?;
            check_summed(alloc, kinds, entries, expr)
        }
        Total::Count => Ok(()),
    }
}

fn check_items(
    alloc: Global,
    kinds: &Kinds,
    entries: &[Entry],
    items: &[ItemTree],
) -> Result<(), SetupError>
    requires few { AreFew entries.now }
    ensures { Checks (option_map TooWide (first (flat_map (λ item. wide_wholes kinds.now entries.now (total_wholes item.what)) items.now))) result }
{
    for item in items {
        check_total(alloc, kinds, entries, &item.what)?;
    }
    Ok(())
}

#[tactic(auto, using(crate::proofs::Wide::alone))]
fn check_filter(
    alloc: Global,
    kinds: &Kinds,
    entries: &[Entry],
    filter: &Option<Expr>,
) -> Result<(), SetupError>
    requires few { AreFew entries.now }
    ensures { Checks (option_map TooWide (first (wide_wholes kinds.now entries.now (filter_wholes filter.now)))) result }
{
    match filter {
        Some(expr) => check_expr(alloc, kinds, entries, expr),
        None => Ok(()),
    }
}

#[tactic(auto, using(crate::proofs::Wide::wide_query))]
fn check_wholes(
    alloc: Global,
    kinds: &Kinds,
    entries: &[Entry],
    query: &QueryTree,
) -> Result<(), SetupError>
    requires few { AreFew entries.now }
    ensures { Checks (option_map TooWide (first (wide_wholes kinds.now entries.now (query_wholes query.now)))) result }
{
    check_items(alloc, kinds, entries, query.items.as_slice())?;
    check_filter(alloc, kinds, entries, &query.filter)
}

fn check_query(alloc: Global, entries: &[Entry], query: &QueryTree) -> Result<(), SetupError>
    requires few { AreFew entries.now }
    ensures { Checks (option_map TooWide (first (filter (nat_le least_wide) (magnitudes_in_all entries.now (query_wholes query.now))))) result }
{
    let Ok(kinds) = kinds_of(alloc, entries) else {
        return Err(SetupError::Memory);
    };
    check_wholes(alloc, &kinds, entries, query)
}

/// The first magnitude in a query that is too wide.
pub fn magnitudes_in_query(
    alloc: Global,
    scope: &Scope,
    query: &QueryTree,
) -> Result<(), SetupError>
    requires few { AreFew (entries_of scope.now query.now) }
    ensures { Checks (option_map TooWide (first (filter (nat_le least_wide) (magnitudes_in_query scope.now query.now)))) result }
{
    let Ok(entries) = scope.entries_of(alloc, query) else {
        return Err(SetupError::Memory);
    };
    check_query(alloc, entries.as_slice(), query)
}

#[tactic(auto, using(crate::proofs::Wide::alone))]
fn check_set(
    alloc: Global,
    kinds: &Kinds,
    entries: &[Entry],
    set: &SetTree,
) -> Result<(), SetupError>
    requires few { AreFew entries.now }
    ensures { Checks (option_map TooWide (first (wide_wholes kinds.now entries.now (record { expr = set.now.value; purpose = value } ∷ [])))) result }
{
    check_expr(alloc, kinds, entries, &set.value)
}

fn check_sets(
    alloc: Global,
    kinds: &Kinds,
    entries: &[Entry],
    sets: &[SetTree],
) -> Result<(), SetupError>
    requires few { AreFew entries.now }
    ensures { Checks (option_map TooWide (first (flat_map (λ s. wide_wholes kinds.now entries.now (record { expr = s.value; purpose = value } ∷ [])) sets.now))) result }
{
    for set in sets {
        check_set(alloc, kinds, entries, set)?;
    }
    Ok(())
}

#[tactic(auto, using(crate::proofs::Wide::wide_update))]
fn check_change(
    alloc: Global,
    kinds: &Kinds,
    entries: &[Entry],
    sets: &[SetTree],
    filter: &Option<Expr>,
) -> Result<(), SetupError>
    requires few { AreFew entries.now }
    ensures { Checks (option_map TooWide (first (wide_wholes kinds.now entries.now (update_wholes sets.now filter.now)))) result }
{
    check_sets(alloc, kinds, entries, sets)?;
    check_filter(alloc, kinds, entries, filter)
}

fn check_update(
    alloc: Global,
    entries: &[Entry],
    sets: &[SetTree],
    filter: &Option<Expr>,
) -> Result<(), SetupError>
    requires few { AreFew entries.now }
    ensures { Checks (option_map TooWide (first (wide_wholes (kinds_of entries.now) entries.now (update_wholes sets.now filter.now)))) result }
{
    let Ok(kinds) = kinds_of(alloc, entries) else {
        return Err(SetupError::Memory);
    };
    check_change(alloc, &kinds, entries, sets, filter)
}

fn check_delete(alloc: Global, entries: &[Entry], filter: &Option<Expr>) -> Result<(), SetupError>
    requires few { AreFew entries.now }
    ensures { Checks (option_map TooWide (first (wide_wholes (kinds_of entries.now) entries.now (filter_wholes filter.now)))) result }
{
    let Ok(kinds) = kinds_of(alloc, entries) else {
        return Err(SetupError::Memory);
    };
    check_filter(alloc, &kinds, entries, filter)
}

/// The same of an update of this table.
#[tactic(auto, using(strip_setup::proofs::Meant::own_few))]
fn check_update_of(
    alloc: Global,
    tables: &[TableDef],
    table: &Name,
    sets: &[SetTree],
    filter: &Option<Expr>,
) -> Result<(), SetupError>
    requires narrow { AreNarrow tables.now }
    ensures { Checks (option_map TooWide (first (wide_wholes (kinds_of (own_entry tables.now table.now)) (own_entry tables.now table.now) (update_wholes sets.now filter.now)))) result }
{
    let Ok(entries) = own_entry(alloc, tables, table) else {
        return Err(SetupError::Memory);
    };
    check_update(alloc, entries.as_slice(), sets, filter)
}

/// The same of a deletion from this table.
#[tactic(auto, using(strip_setup::proofs::Meant::own_few))]
fn check_delete_of(
    alloc: Global,
    tables: &[TableDef],
    table: &Name,
    filter: &Option<Expr>,
) -> Result<(), SetupError>
    requires narrow { AreNarrow tables.now }
    ensures { Checks (option_map TooWide (first (wide_wholes (kinds_of (own_entry tables.now table.now)) (own_entry tables.now table.now) (filter_wholes filter.now)))) result }
{
    let Ok(entries) = own_entry(alloc, tables, table) else {
        return Err(SetupError::Memory);
    };
    check_delete(alloc, entries.as_slice(), filter)
}

/// The first magnitude in an act that is too wide.
pub fn magnitudes_in_deed(alloc: Global, tables: &[TableDef], deed: &Deed) -> Result<(), SetupError>
    requires narrow { AreNarrow tables.now }
    requires few { AsksFew deed.now }
    ensures { Checks (option_map TooWide (first (filter (nat_le least_wide) (magnitudes_in_deed tables.now deed.now)))) result }
{
    match deed {
        Deed::Update {
            table,
            sets,
            filter,
        } => check_update_of(alloc, tables, table, sets.as_slice(), filter),
        Deed::Delete { table, filter } => check_delete_of(alloc, tables, table, filter),
        Deed::Select { query } => {
            magnitudes_in_query(alloc, &Scope::outside_rules(tables), query)
        }
        _ => Ok(()),
    }
}
