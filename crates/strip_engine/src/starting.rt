//! A start: the first action that waits becomes a job.
ghost use Rattle.std.specs.Prelude.{◌≡◌, ◌++◌, ◌∷◌, ◌+◌, ◌⊎◌, [], ◌<◌, ◌≤◌, List, length, vec_len, vec_capacity};
ghost use Rattle.strip_engine.specs.Acting.{CanStart, KnowsFirst, PreparesStart, SameQueue, StartsFirst};
ghost use Rattle.strip_engine.specs.Queue.{plain_id};
ghost use Rattle.strip_engine.specs.declared.queue.Waiting.{Waiting as OneWaiting};

use crate::jobs::Job;
use crate::keepers::Keeper;
use crate::queue::{Queue, Started, Waiting};
use std::alloc::{AllocError, Global};
use strip_model::{Entry, History};
use strip_value::{ActionId, Duplicate, FiredRule, KeyOf, TableDef};

/// What a start needs of memory, where an action waits: room for its entry and for that of its finish, and the definition of
/// the table that it is for.
pub(crate) fn prepare_start(
    alloc: Global,
    defs: &[TableDef],
    keepers: &[Keeper],
    queue: &mut Queue,
    history: &mut History,
) -> Result<Option<TableDef>, AllocError>
    requires { KnowsFirst defs.now keepers.now queue.old }
    ensures same { SameQueue queue.old queue.new }
    ensures entries { history.new.entries ≡ history.old.entries }
    ensures room { history.old.room ≤ history.new.room ⊎ vec_len queue.old.running + 3 ≤ history.new.room }
    ensures prepared { PreparesStart defs.now keepers.now queue.new history.new result }
{
    let Some(first) = queue.waiting.front() else {
        return Ok(None);
    };
    let keeper = keepers[first.fired.number as usize];
    let def = defs[keeper.table.0 as usize].copy(alloc)?;
    queue.running.reserve(1)?;
    history.reserve(queue.running.len() + 3)?;
    Ok(Some(def))
}

/// The number after so many, each of which has an entry. It fits, since a history has fewer than 2^63 entries.
pub(crate) fn next_number(history: &History, count: u64) -> u64
    requires { count ≤ length history.now.entries }
    ensures { result ≡ count + 1 }
{
    prove!(count <= history.len());
    count + 1
}

/// The action that a rule makes of all that it binds at a commit.
fn plain_action(place: u64, rule: u32) -> ActionId
    ensures { result ≡ plain_id place rule }
{
    ActionId {
        function: rule,
        key: KeyOf::Plain { place, rule },
    }
}

fn push_started(running: &mut Vec<Started>, started: Started)
    requires { vec_len running.old < vec_capacity running.old }
    ensures { running.new.items ≡ running.old.items ++ started ∷ [] }
{
    let Ok(()) = running.push(started) else {
        unreachable!()
    };
}

/// Starts the first action that waits, in the room that was made.
pub(crate) fn start_first(
    alloc: Global,
    caller: u32,
    moment: u64,
    def: TableDef,
    queue: &mut Queue,
    history: &mut History,
) -> Job
    requires { CanStart def queue.old history.old }
    ensures { (first : OneWaiting) (others : List OneWaiting) → queue.old.waiting.items ≡ first ∷ others → StartsFirst caller moment def queue.old history.old first others queue.new history.new result }
{
    let Some(
        Waiting {
            place,
            moment: due,
            fired: FiredRule { number: rule, rows },
        },
    ) = queue.waiting.pop_front()
    else {
        unreachable!()
    };
    let number = next_number(history, queue.jobs);
    let count = rows.len() as u64;
    queue.jobs = number;
    push_started(
        &mut queue.running,
        Started {
            number,
            caller,
            place,
            rule,
            rows: count,
        },
    );
    history.push(Entry::Start {
        caller,
        number,
        moment,
        action: plain_action(place, rule),
        due,
        rows: count,
    });
    Job::of(
        alloc,
        number,
        caller,
        plain_action(place, rule),
        due,
        rows,
        def,
    )
}
