//! What a commit does besides its entry: the rules make actions of its changes.
ghost use Rattle.std.specs.Prelude.{◌≡◌, ◌+◌, ◌≤◌, ◌^◌, ◌<◌, length, IfSome};
ghost use Rattle.std.specs.List.{AllByRecursion};
ghost use Rattle.std.specs.VecDeque.{deque_len, deque_capacity};
ghost use Rattle.strip_engine.specs.Acting.{Merges, Prepares, PreparesFor, SameQueue};
ghost use Rattle.strip_engine.specs.Changes.{fired_by};
ghost use Rattle.strip_engine.specs.Deltas.{KeepsSmall};
ghost use Rattle.strip_engine.specs.Undo.{changes_of};

use crate::answers::CommitError;
use crate::deltas::{fired, rows_bound};
use crate::keepers::Keeper;
use crate::queue::{Queue, push_fired};
use crate::undo::{Logged, Session};
use std::alloc::Global;
use strip_value::FiredList;

/// What rules bind at a commit, and how many rows that is.
#[derive(Debug, Drop)]
pub struct Binding {
    pub fired: FiredList,
    pub rows: u64,
}

/// What rules bind where the session of a number commits, with room for the actions. Where it is refused nothing has changed.
pub(crate) fn prepare_for(
    alloc: Global,
    session: &Option<Session>,
    number: u64,
    keepers: &[Keeper],
    queue: &mut Queue,
    most: u64,
) -> Result<Binding, CommitError>
    requires small { IfSome session.now (λ live. AllByRecursion (KeepsSmall (changes_of live.log.items)) keepers.now) }
    requires few { length keepers.now ≤ 64 }
    ensures same { SameQueue queue.old queue.new }
    ensures prepared { PreparesFor session.now number keepers.now queue.old.bound most queue.new result }
{
    match session {
        Some(live) if live.number == number => {
            prepare(alloc, live.log.as_slice(), keepers, queue, most)
        }
        _ => Err(CommitError::NoSession { session: number }),
    }
}

/// The same of changes.
fn prepare(
    alloc: Global,
    log: &[Logged],
    keepers: &[Keeper],
    queue: &mut Queue,
    most: u64,
) -> Result<Binding, CommitError>
    requires small { AllByRecursion (KeepsSmall (changes_of log.now)) keepers.now }
    requires few { length keepers.now ≤ 64 }
    ensures same { SameQueue queue.old queue.new }
    ensures prepared { Prepares (fired_by 0 keepers.now (changes_of log.now)) queue.old.bound most queue.new result }
{
    let Ok(fired) = fired(alloc, log, keepers) else {
        return Err(CommitError::Memory);
    };
    let Ok(rows) = rows_bound(&fired) else {
        return Err(CommitError::Memory);
    };
    let Some(total) = queue.bound.checked_add(rows) else {
        return Err(CommitError::Memory);
    };
    if total > most {
        return Err(CommitError::Spent { total });
    }
    let Ok(()) = queue.waiting.reserve(fired.len()) else {
        return Err(CommitError::Memory);
    };
    Ok(Binding { fired, rows })
}

/// The actions of what was bound wait behind the others.
pub(crate) fn merge(queue: &mut Queue, place: u64, moment: u64, binding: Binding)
    requires room { deque_len queue.old.waiting + length binding.fired ≤ deque_capacity queue.old.waiting }
    requires bound { queue.old.bound + binding.rows < 2 ^ 64 }
    requires rows { queue.old.rows + binding.rows < 2 ^ 64 }
    ensures { Merges queue.old place moment binding queue.new }
{
    queue.bound += binding.rows;
    queue.rows += binding.rows;
    push_fired(&mut queue.waiting, place, moment, binding.fired);
}
