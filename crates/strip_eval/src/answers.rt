//! The rows of queries.
ghost use Rattle.std.specs.Prelude.{◌≡◌, ◌∷◌, ◌<◌, ◌^◌, [], Some, length, IfOk, OnOk};
ghost use Rattle.std.specs.List.{AllByRecursion};
ghost use Rattle.strip_value.specs.Bounds.{Suits};
ghost use Rattle.strip_value.specs.Query.{in_order, mean};
ghost use Rattle.strip_eval.specs.Groups.{Adds, AreGroups, GroupsRise, StaysBig, picked, picked_one};
ghost use Rattle.strip_eval.specs.Near.{SuitsRows};
ghost use Rattle.strip_eval.specs.Reads.{HaveFew, HaveOne, ReadsFew, rows_among};

use crate::combinations::Combination;
use crate::entries::{Entry, entries_of};
use crate::env::Env;
use crate::filters::satisfies;
use crate::groups::{Group, add_to_groups, rows_of_groups};
use crate::walks::plain_rows;
use std::alloc::{AllocError, Global};
use strip_value::{Place, Query, RowList};

/// Adds a combination to its group, if it satisfies the filter.
fn add_picked<'a>(
    alloc: Global,
    query: &'a Query,
    places: &[Place],
    rows: &Combination<'a>,
    groups: &mut Vec<Group>,
) -> Result<(), AllocError>
    requires grouped { query.now.group ≡ Some places.now }
    requires suits { SuitsRows query.now rows.now [] }
    requires rise { GroupsRise groups.old.items }
    requires big { AllByRecursion (StaysBig query.now.items places.now rows.now) groups.old.items }
    ensures { OnOk result (Adds query.now.items places.now (picked_one query.now.filter rows.now) groups.old.items groups.new.items) }
{
    if satisfies(&query.filter, rows) {
        add_to_groups(alloc, query.items.as_slice(), places, rows, groups)?;
    }
    Ok(())
}

/// The groups of the entry's rows that satisfy the filter.
fn groups_of<'a>(
    alloc: Global,
    query: &'a Query,
    places: &[Place],
    entry: &Entry<'a>,
) -> Result<Vec<Group>, AllocError>
    requires grouped { query.now.group ≡ Some places.now }
    requires suits { SuitsRows query.now [] (entry.now ∷ []) }
    requires few { length entry.now < 2 ^ 62 }
    ensures { IfOk result (λ groups. AreGroups query.now.items places.now (picked query.now.filter entry.now) groups.items) }
{
    let mut groups = Vec::new(alloc);
    let mut one = Combination::new(alloc);
    for row in entry.rows() {
        one.push(row)?;
        add_picked(alloc, query, places, &one, &mut groups)?;
        one.pop();
    }
    Ok(groups)
}

/// The rows of a query with groups, in no order.
fn grouped_rows<'a>(
    alloc: Global,
    query: &'a Query,
    places: &[Place],
    entries: &[Entry<'a>],
) -> Result<RowList, AllocError>
    requires grouped { query.now.group ≡ Some places.now }
    requires suits { SuitsRows query.now [] entries.now }
    requires one { length entries.now ≡ 1 }
    requires few { AllByRecursion (λ rows. length rows < 2 ^ 62) entries.now }
    ensures { IfOk result (λ rows. in_order rows ≡ in_order (rows_among query.now entries.now)) }
{
    let groups = groups_of(alloc, query, places, &entries[0])?;
    rows_of_groups(alloc, query.items.as_slice(), places, groups.as_slice())
}

/// The rows, in row order.
fn in_order(rows: RowList) -> Result<RowList, AllocError>
    ensures { IfOk result (λ sorted. sorted ≡ in_order rows) }
{
    let mut rows = rows.into_vec();
    rows.sort()?;
    Ok(RowList::from_vec(rows))
}

/// The rows of a query, in no order.
fn rows_among<'a>(
    alloc: Global,
    query: &'a Query,
    entries: &[Entry<'a>],
) -> Result<RowList, AllocError>
    requires suits { SuitsRows query.now [] entries.now }
    requires one { HaveOne query.now.group entries.now }
    requires few { HaveFew query.now.group entries.now }
    ensures { IfOk result (λ rows. in_order rows ≡ in_order (rows_among query.now entries.now)) }
{
    match &query.group {
        None => plain_rows(alloc, query, entries),
        Some(places) => grouped_rows(alloc, query, places.as_slice(), entries),
    }
}

/// The rows of a query, in row order, each as often as it occurs.
///
/// Goes once through the combinations of the entries' rows, copies none of them, and keeps the rows of the answer alone. A group is
/// found by binary search.
pub fn rows(alloc: Global, query: &Query, env: &Env<'_>) -> Result<RowList, AllocError>
    requires suits { Suits query.now env.now }
    requires few { ReadsFew query.now env.now }
    ensures { IfOk result (λ rows. rows ≡ mean query.now env.entry.now) }
{
    let entries = entries_of(alloc, env, query.entries.as_slice())?;
    in_order(rows_among(alloc, query, entries.as_slice())?)
}
