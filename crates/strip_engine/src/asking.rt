//! What a query is answered within a transaction.
ghost use Rattle.std.specs.Prelude.{◌≡◌, ◌∷◌, [], length, true, IfOk};
ghost use Rattle.strip_acts.specs.Suiting.{suits_query};
ghost use Rattle.strip_engine.specs.Asked.{CanCount, is_unheld, least_unheld};
ghost use Rattle.strip_engine.specs.Steps.{defs_of};
ghost use Rattle.strip_meaning.specs.Effect.{effect, one_not_held, smaller, tables_asked};
ghost use Rattle.strip_value.specs.declared.acts.Act.TheVariants.{Select};
ghost use Rattle.strip_value.specs.Query.{mean_now, nothing_moved, rows_at};

use crate::causes::has;
use std::alloc::{AllocError, Global};
use strip_eval::{Env, rows};
use strip_table::Table;
use strip_value::{ActError, Holds, Id, Input, Moved, Query, Reply, RowList};

/// The rows of a table that groups may be counted of are fewer.
const MOST_COUNTED: u64 = 1 << 62;

fn is_unheld(holds: &Holds, id: Id) -> bool
    ensures { result ≡ is_unheld holds.now id }
{
    !(has(holds.write.as_slice(), id) || has(holds.read.as_slice(), id))
}

/// The table that an entry reads, if it isn't held.
fn unheld_by(holds: &Holds, entry: &Input) -> Option<Id>
    ensures { result ≡ least_unheld holds.now (entry.now ∷ []) }
{
    let Input::Table(id) = entry else {
        return None;
    };
    if is_unheld(holds, *id) {
        Some(*id)
    } else {
        None
    }
}

fn smaller(one: Option<Id>, other: Option<Id>) -> Option<Id>
    ensures { result ≡ smaller one other }
{
    match (one, other) {
        (Some(one), Some(other)) => Some(Id(one.0.min(other.0))),
        (Some(one), None) => Some(one),
        (None, other) => other,
    }
}

/// The smallest table that the entries read and that isn't held, as a cause.
fn cause_unheld(holds: &Holds, entries: &[Input]) -> Option<ActError>
    ensures { result ≡ one_not_held holds.now (tables_asked entries.now) }
{
    let mut least = None;
    for entry in entries {
        least = smaller(least, unheld_by(holds, entry));
    }
    match least {
        Some(table) => Some(ActError::NotHeld { table }),
        None => None,
    }
}

fn row_count(tables: &[Table], id: Id) -> u64
    ensures { result ≡ length (rows_at tables.now id) }
{
    match tables.get(id.0 as usize) {
        Some(table) => table.len(),
        None => 0,
    }
}

/// Whether the groups of a query can be counted: those of one table that has fewer rows than could be counted at all.
fn can_count(tables: &[Table], query: &Query) -> bool
    ensures { result ≡ true → CanCount query.now.group query.now.entries tables.now }
{
    if query.group.is_none() {
        return true;
    }
    match query.entries.as_slice() {
        [Input::Table(id)] => row_count(tables, *id) < MOST_COUNTED,
        _ => false,
    }
}

fn nothing_moved(alloc: Global) -> Moved
    ensures { result ≡ nothing_moved }
{
    Moved {
        inserted: RowList::new(alloc),
        deleted: RowList::new(alloc),
        old: RowList::new(alloc),
        new: RowList::new(alloc),
    }
}

/// The rows of a query over the tables as they stand.
#[tactic(auto, unfolding(strip_value::specs::Query::mean_now))]
fn rows_now(alloc: Global, tables: &[Table], query: &Query) -> Result<RowList, AllocError>
    requires { suits_query (defs_of tables.now) query.now ≡ true }
    ensures { IfOk result (λ rows. rows ≡ mean_now query.now tables.now) }
{
    if !can_count(tables, query) {
        return Err(AllocError);
    }
    let moved = nothing_moved(alloc);
    rows(alloc, query, &Env::new(tables, &[], &moved))
}

/// The reply to a query.
#[tactic(auto, unfolding(strip_meaning::specs::Effect::effect))]
pub(crate) fn select(
    alloc: Global,
    tables: &[Table],
    holds: &Holds,
    query: &Query,
) -> Result<Reply, AllocError>
    requires { suits_query (defs_of tables.now) query.now ≡ true }
    ensures { IfOk result (λ reply. reply ≡ (effect holds.now tables.now (Select query.now)).reply) }
{
    if let Some(cause) = cause_unheld(holds, query.entries.as_slice()) {
        return Ok(Reply::Refused(cause));
    }
    let rows = rows_now(alloc, tables, query)?;
    Ok(Reply::Rows(rows))
}
