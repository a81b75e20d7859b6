//! Groups by rising key, found by binary search.
ghost use Rattle.std.specs.Prelude.{◌≡◌, ◌∷◌, [], length, map, IfOk, IfErr, OnOk};
ghost use Rattle.std.specs.List.{AllByRecursion};
ghost use Rattle.strip_value.specs.Order.{row_cmp};
ghost use Rattle.strip_value.specs.Query.{group_key, is_column, key_value};
ghost use Rattle.strip_eval.specs.Groups.{Adds, GroupsRise, IsBig, IsGroupAt, IsGroupGap, StaysBig, part_of, row_in, value_in, with_parts};
ghost use Rattle.strip_eval.specs.Near.{IsNearPart};

use crate::combinations::Combination;
use crate::values::{copied, number, order, see, value_at};
use std::alloc::{AllocError, Global};
use std::cmp::Ordering;
use strip_value::{Calc, Duplicate, Item, Place, Row, RowList, Value, What};

/// The combinations of one key, and what the items have come to over them: a sum for a `Sum`, their number for a `Count`, and
/// 0 for the others.
#[derive(Drop)]
pub(crate) struct Group {
    key: Row,
    totals: Vec<i128>,
}

/// The order of a key and the values of the group columns.
fn key_order(key: &[Value], places: &[Place], rows: &Combination<'_>) -> Ordering
    ensures { result ≡ row_cmp key.now (group_key places.now rows.now) }
{
    let mut left = key;
    for place in places {
        let Some((value, others)) = left.split_first() else {
            return Ordering::Less;
        };
        match order(see(value), rows.column(place.entry, place.column)) {
            Ordering::Equal => {}
            differ => return differ,
        }
        left = others;
    }
    if left.is_empty() {
        Ordering::Equal
    } else {
        Ordering::Greater
    }
}

fn group_order(group: &Group, places: &[Place], rows: &Combination<'_>) -> Ordering
    ensures { result ≡ row_cmp group.now.key (group_key places.now rows.now) }
{
    key_order(group.key.values(), places, rows)
}

/// Where the group of the combination's key stands, or where it would be put.
fn place_of(groups: &[Group], places: &[Place], rows: &Combination<'_>) -> Result<usize, usize>
    requires rise { GroupsRise groups.now }
    ensures found { IfOk result (IsGroupAt groups.now (group_key places.now rows.now)) }
    ensures gap { IfErr result (IsGroupGap groups.now (group_key places.now rows.now)) }
{
    groups.binary_search_by(|group| group_order(group, places, rows))
}

/// What a combination adds to an item.
fn part<'a>(what: &'a What, rows: &Combination<'a>) -> i128
    requires near { IsNearPart rows.now what.now }
    ensures { result ≡ part_of what.now rows.now }
{
    match what {
        What::Plain(_) => 0,
        What::Sum(calc) => number(value_at(calc, rows)),
        What::Count => 1,
    }
}

/// Adds a combination to what the items have come to.
fn add_parts<'a>(items: &'a [Item], rows: &Combination<'a>, totals: &mut [i128])
    requires near { AllByRecursion (λ item. IsNearPart rows.now item.what) items.now }
    requires lengths { length totals.old ≡ length items.now }
    requires big { AllByRecursion IsBig (with_parts items.now rows.now totals.old) }
    ensures { totals.new ≡ with_parts items.now rows.now totals.old }
{
    for at in 0..items.len() {
        totals[at] += part(&items[at].what, rows);
    }
}

/// What the items come to over one combination.
fn first_parts<'a>(
    alloc: Global,
    items: &'a [Item],
    rows: &Combination<'a>,
) -> Result<Vec<i128>, AllocError>
    requires near { AllByRecursion (λ item. IsNearPart rows.now item.what) items.now }
    ensures { IfOk result (λ totals. totals.items ≡ map (λ item. part_of item.what rows.now) items.now) }
{
    let mut totals = Vec::with_capacity(alloc, items.len())?;
    for item in items {
        totals.push(part(&item.what, rows))?;
    }
    Ok(totals)
}

/// The values of the group columns.
fn key_of(alloc: Global, places: &[Place], rows: &Combination<'_>) -> Result<Row, AllocError>
    ensures { IfOk result (λ key. key ≡ group_key places.now rows.now) }
{
    let mut values = Vec::with_capacity(alloc, places.len())?;
    for place in places {
        let value = copied(alloc, rows.column(place.entry, place.column))?;
        values.push(value)?;
    }
    Ok(Row::of(values))
}

/// Adds a combination to its group, or makes it the first one of a new group.
pub(crate) fn add_to_groups<'a>(
    alloc: Global,
    items: &'a [Item],
    places: &[Place],
    rows: &Combination<'a>,
    groups: &mut Vec<Group>,
) -> Result<(), AllocError>
    requires near { AllByRecursion (λ item. IsNearPart rows.now item.what) items.now }
    requires rise { GroupsRise groups.old.items }
    requires big { AllByRecursion (StaysBig items.now places.now rows.now) groups.old.items }
    ensures { OnOk result (Adds items.now places.now (rows.now ∷ []) groups.old.items groups.new.items) }
{
    match place_of(groups.as_slice(), places, rows) {
        Ok(at) => {
            add_parts(items, rows, groups[at].totals.as_mut_slice());
            Ok(())
        }
        Err(at) => {
            let key = key_of(alloc, places, rows)?;
            let totals = first_parts(alloc, items, rows)?;
            groups.insert(at, Group { key, totals })?;
            Ok(())
        }
    }
}

/// Whether the expression is the group column.
fn is_column(place: &Place, calc: &Calc) -> bool
    ensures { result ≡ is_column place.now calc.now }
{
    match calc {
        Calc::Column { entry, column } => place.entry == *entry && place.column == *column,
        _ => false,
    }
}

/// The key's value for the group column that the expression is.
fn key_value(
    alloc: Global,
    places: &[Place],
    key: &[Value],
    calc: &Calc,
) -> Result<Value, AllocError>
    ensures { IfOk result (λ value. value ≡ key_value places.now key.now calc.now) }
{
    let mut left = key;
    for place in places {
        let Some((value, others)) = left.split_first() else {
            return Ok(Value::Int(0));
        };
        if is_column(place, calc) {
            return value.copy(alloc);
        }
        left = others;
    }
    Ok(Value::Int(0))
}

/// The value of an item for a group.
fn value_in(
    alloc: Global,
    places: &[Place],
    key: &[Value],
    what: &What,
    total: i128,
) -> Result<Value, AllocError>
    ensures { IfOk result (λ value. value ≡ value_in places.now key.now what.now total) }
{
    match what {
        What::Plain(calc) => key_value(alloc, places, key, calc),
        What::Sum(_) | What::Count => Ok(Value::Int(total)),
    }
}

/// The row of the items for a group.
fn row_of_group(
    alloc: Global,
    items: &[Item],
    places: &[Place],
    group: &Group,
) -> Result<Row, AllocError>
    ensures { IfOk result (λ row. row ≡ row_in items.now places.now group.now) }
{
    let key = group.key.values();
    let mut left = group.totals.as_slice();
    let mut values = Vec::with_capacity(alloc, items.len())?;
    for item in items {
        let Some((total, others)) = left.split_first() else {
            break;
        };
        let value = value_in(alloc, places, key, &item.what, *total)?;
        values.push(value)?;
        left = others;
    }
    Ok(Row::of(values))
}

/// The rows of the items for all groups.
pub(crate) fn rows_of_groups(
    alloc: Global,
    items: &[Item],
    places: &[Place],
    groups: &[Group],
) -> Result<RowList, AllocError>
    ensures { IfOk result (λ rows. rows ≡ map (row_in items.now places.now) groups.now) }
{
    let mut rows = RowList::new(alloc);
    for group in groups {
        rows.push(row_of_group(alloc, items, places, group)?)?;
    }
    Ok(rows)
}
