//! Items and groups that don't go together.
ghost use Rattle.std.specs.Prelude.{◌≡◌, ◌≤◌, ◌++◌, [], IfOk, length, map, not};
ghost use Rattle.std.specs.List.{list_all, list_any};
ghost use Rattle.strip_names.specs.Grouped.{are_keys_and_totals, has_keys_and_totals, has_misplaced, is_derivable, is_group_column, is_misplaced, is_total};
ghost use Rattle.strip_setup.specs.Queries.{query_of};
ghost use Rattle.strip_setup.specs.Resolve.{in_rule, outside_rules};
ghost use Rattle.strip_setup.specs.Small.{HaveFewEntries, IsSmallScope};

use std::alloc::{AllocError, Global};
use strip_ast::{BoundTree, QueryTree};
use strip_setup::scope::Scope;
use strip_value::{Calc, Item, Name, Place, PlaceList, Query, TableDef, What};

/// A sum or a count.
fn is_total(what: &What) -> bool
    ensures { result ≡ is_total what.now }
{
    match what {
        What::Plain(_) => false,
        What::Sum(_) | What::Count => true,
    }
}

/// Whether the item is this group column.
pub fn is_group_column(what: &What, place: &Place) -> bool
    ensures { result ≡ is_group_column what.now place.now }
{
    match what {
        What::Plain(Calc::Column { entry, column }) => {
            place.entry == *entry && place.column == *column
        }
        _ => false,
    }
}

/// Whether the item is one of these group columns.
fn is_grouped(places: &[Place], what: &What) -> bool
    ensures { result ≡ list_any (is_group_column what.now) places.now }
{
    places.iter().any(|place| is_group_column(what, place))
}

/// Whether the item may not stand in the query: a total without groups, or a plain item that is no group column.
fn is_misplaced(group: &Option<PlaceList>, what: &What) -> bool
    ensures { result ≡ is_misplaced group.now what.now }
{
    match group {
        None => is_total(what),
        Some(places) => { !is_total(what) && !is_grouped(places.as_slice(), what) }
    }
}

/// Whether the query has an item that may not stand there: a total without groups, or a plain item that is no group column.
pub fn has_misplaced(query: &Query) -> bool
    ensures { result ≡ has_misplaced query.now }
{
    query
        .items
        .as_slice()
        .iter()
        .any(|item| is_misplaced(&query.group, &item.what))
}

/// Whether all items are totals, and there is one.
fn are_totals(items: &[Item]) -> bool
    ensures { result ≡ are_keys_and_totals [] (map (λ item. item.what) items.now) }
{
    match items {
        [] => false,
        _ => all_totals(items),
    }
}

fn all_totals(items: &[Item]) -> bool
    ensures { result ≡ list_all (λ item. is_total item.what) items.now }
{
    items.iter().all(|item| is_total(&item.what))
}

/// Whether the items are the group columns in their order, and then totals, one at least.
fn are_keys_and_totals(places: &[Place], items: &[Item]) -> bool
    ensures { result ≡ are_keys_and_totals places.now (map (λ item. item.what) items.now) }
{
    let mut left = items;
    for place in places {
        let [item, others @ ..] = left else {
            return false;
        };
        if !is_group_column(&item.what, place) {
            return false;
        }
        left = others;
    }
    are_totals(left)
}

/// Whether the query can be a derived table's.
pub fn is_derivable(query: &Query) -> bool
    ensures { result ≡ is_derivable query.now }
{
    match &query.group {
        None => false,
        Some(places) => are_keys_and_totals(places.as_slice(), query.items.as_slice()),
    }
}

/// Whether the query can't be a derived table's.
pub fn is_underivable(
    alloc: Global,
    tables: &[TableDef],
    query: &QueryTree,
) -> Result<bool, AllocError>
    requires small { IsSmallScope (outside_rules tables.now) }
    requires few { length query.now.entries ≤ 3 }
    ensures { IfOk result (λ made. made ≡ not (is_derivable (query_of (outside_rules tables.now) query.now))) }
{
    let query = Scope::outside_rules(tables).query_of(alloc, query)?;
    Ok(!is_derivable(&query))
}

/// Whether the query has an item that may not stand there.
pub fn is_misplaced_in(
    alloc: Global,
    scope: &Scope<'_>,
    query: &QueryTree,
) -> Result<bool, AllocError>
    requires small { IsSmallScope scope.now }
    requires few { length query.now.entries ≤ 3 }
    ensures { IfOk result (λ made. made ≡ has_misplaced (query_of scope.now query.now)) }
{
    let query = scope.query_of(alloc, query)?;
    Ok(has_misplaced(&query))
}

fn is_misplaced_in_any(
    alloc: Global,
    scope: &Scope<'_>,
    queries: &[BoundTree],
) -> Result<bool, AllocError>
    requires small { IsSmallScope scope.now }
    requires few { HaveFewEntries queries.now }
    ensures { IfOk result (λ made. made ≡ list_any (λ bound. has_misplaced (query_of scope.now bound.query)) queries.now) }
{
    for bound in queries {
        if is_misplaced_in(alloc, scope, &bound.query)? {
            return Ok(true);
        }
    }
    Ok(false)
}

/// Whether a query of a rule on the table has an item that may not stand there.
pub fn is_misplaced_in_rule(
    alloc: Global,
    tables: &[TableDef],
    table: &Name,
    conditions: &[BoundTree],
    evaluate: &[BoundTree],
) -> Result<bool, AllocError>
    requires small { IsSmallScope (in_rule tables.now table.now) }
    requires few_conditions { HaveFewEntries conditions.now }
    requires few { HaveFewEntries evaluate.now }
    ensures { IfOk result (λ made. made ≡ list_any (λ bound. has_misplaced (query_of (in_rule tables.now table.now) bound.query)) (conditions.now ++ evaluate.now)) }
{
    let scope = Scope::in_rule(tables, table);
    let in_conditions = is_misplaced_in_any(alloc, &scope, conditions)?;
    let in_evaluate = is_misplaced_in_any(alloc, &scope, evaluate)?;
    Ok(in_conditions || in_evaluate)
}
