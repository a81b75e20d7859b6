//! Queries without groups: a walk over the combinations of their entries' rows.
ghost use Rattle.std.specs.Prelude.{◌≡◌, ◌++◌, [], None, IfOk, OnOk};
ghost use Rattle.std.specs.List.{AllByRecursion};
ghost use Rattle.strip_value.specs.Query.{plain_row, plain_value};
ghost use Rattle.strip_eval.specs.Near.{IsNearPlain, SuitsRows};
ghost use Rattle.strip_eval.specs.Walks.{chosen_row, rows_behind};

use crate::combinations::Combination;
use crate::entries::Entry;
use crate::filters::satisfies;
use crate::values::{copied, value_at};
use std::alloc::{AllocError, Global};
use strip_value::{Item, Query, Row, RowList, Value, What};

/// The value of an item; sums and counts are only of groups.
fn plain_value<'a>(
    alloc: Global,
    what: &'a What,
    rows: &Combination<'a>,
) -> Result<Value, AllocError>
    requires near { IsNearPlain rows.now what.now }
    ensures { IfOk result (λ value. value ≡ plain_value rows.now what.now) }
{
    match what {
        What::Plain(calc) => copied(alloc, value_at(calc, rows)),
        What::Sum(_) | What::Count => Ok(Value::Int(0)),
    }
}

/// The row of the items.
fn plain_row<'a>(
    alloc: Global,
    items: &'a [Item],
    rows: &Combination<'a>,
) -> Result<Row, AllocError>
    requires near { AllByRecursion (λ item. IsNearPlain rows.now item.what) items.now }
    ensures { IfOk result (λ row. row ≡ plain_row items.now rows.now) }
{
    let mut values = Vec::with_capacity(alloc, items.len())?;
    for item in items {
        let value = plain_value(alloc, &item.what, rows)?;
        values.push(value)?;
    }
    Ok(Row::of(values))
}

/// Appends the row of the items, if the combination satisfies the filter.
fn push_chosen<'a>(
    alloc: Global,
    query: &'a Query,
    rows: &Combination<'a>,
    into: &mut RowList,
) -> Result<(), AllocError>
    requires plain { query.now.group ≡ None }
    requires suits { SuitsRows query.now rows.now [] }
    ensures { OnOk result (into.new ≡ into.old ++ chosen_row query.now rows.now) }
{
    if satisfies(&query.filter, rows) {
        let row = plain_row(alloc, query.items.as_slice(), rows)?;
        into.push(row)?;
    }
    Ok(())
}

/// Appends the rows of all combinations that begin with the chosen rows, the entries being those behind them.
fn walk<'a>(
    alloc: Global,
    query: &'a Query,
    entries: &[Entry<'a>],
    chosen: &mut Combination<'a>,
    into: &mut RowList,
) -> Result<(), AllocError>
    requires plain { query.now.group ≡ None }
    requires suits { SuitsRows query.now chosen.old entries.now }
    ensures rows { OnOk result (into.new ≡ into.old ++ rows_behind query.now chosen.old entries.now) }
    ensures chosen { OnOk result (chosen.new ≡ chosen.old) }
{
    let Some((entry, others)) = entries.split_first() else {
        return push_chosen(alloc, query, chosen, into);
    };
    for row in entry.rows() {
        chosen.push(row)?;
        walk(alloc, query, others, chosen, into)?;
        chosen.pop();
    }
    Ok(())
}

/// The rows of a query without groups, in no order.
pub(crate) fn plain_rows<'a>(
    alloc: Global,
    query: &'a Query,
    entries: &[Entry<'a>],
) -> Result<RowList, AllocError>
    requires plain { query.now.group ≡ None }
    requires suits { SuitsRows query.now [] entries.now }
    ensures { IfOk result (λ rows. rows ≡ rows_behind query.now [] entries.now) }
{
    let mut chosen = Combination::new(alloc);
    let mut rows = RowList::new(alloc);
    walk(alloc, query, entries, &mut chosen, &mut rows)?;
    Ok(rows)
}
