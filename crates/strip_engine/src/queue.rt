//! The actions that wait to be started, and those that run.
ghost use Rattle.std.specs.Prelude.{◌≡◌, ◌++◌, ◌+◌, ◌≤◌, ◌<◌, [], get_or, length, vec_len};
ghost use Rattle.std.specs.VecDeque.{deque_len, deque_capacity};
ghost use Rattle.strip_engine.specs.Queue.{NumbersRise, Stops, no_started, place_from, waiting_at};

use std::alloc::Global;
use std::collections::VecDeque;
use strip_value::{FiredList, FiredRule};

/// An action that waits: the rows that a rule bound at a commit, at a place of the history and a moment.
#[derive(Debug, Drop)]
pub struct Waiting {
    pub place: u64,
    pub moment: u64,
    pub fired: FiredRule,
}

/// An action that was started and isn't finished: its number, who started it, the commit and the rule that made it, and
/// how many rows it has.
#[derive(Clone, Copy, Debug)]
pub struct Started {
    pub number: u64,
    pub caller: u32,
    pub place: u64,
    pub rule: u32,
    pub rows: u64,
}

/// The actions that wait, the next one first; those that run, by rising number; the rows bound so far, those of both, and
/// how many actions were started.
#[derive(Debug, Drop)]
pub struct Queue {
    pub waiting: VecDeque<Waiting>,
    pub running: Vec<Started>,
    pub bound: u64,
    pub rows: u64,
    pub jobs: u64,
}

impl Queue {
    pub(crate) fn new(alloc: Global) -> Queue
        ensures waiting { result.waiting.items ≡ [] }
        ensures running { result.running.items ≡ [] }
        ensures counts { (result.bound ≡ 0) × (result.rows ≡ 0) × (result.jobs ≡ 0) }
    {
        Queue {
            waiting: VecDeque::new(alloc),
            running: Vec::new(alloc),
            bound: 0,
            rows: 0,
            jobs: 0,
        }
    }
}

/// Puts what rules bound at a commit behind what waits, in the room that was made.
pub(crate) fn push_fired(waiting: &mut VecDeque<Waiting>, place: u64, moment: u64, fired: FiredList)
    requires { deque_len waiting.old + length fired ≤ deque_capacity waiting.old }
    ensures { waiting.new.items ≡ waiting.old.items ++ waiting_at place moment fired }
{
    for fired in fired.into_vec() {
        waiting.push_back_reserved(Waiting {
            place,
            moment,
            fired,
        });
    }
}

/// Where the action of a number stands among those that run.
pub(crate) fn place_of(running: &[Started], number: u64) -> Option<usize>
    requires { NumbersRise running.now }
    ensures { result ≡ place_from 0 running.now number }
{
    match running.binary_search_by_key(&number, |started| started.number) {
        Ok(at) => Some(at),
        Err(_gap) => None,
    }
}

/// Takes the action at a place out of those that run.
pub(crate) fn stop(queue: &mut Queue, at: usize) -> Started
    requires there { at < vec_len queue.old.running }
    requires rows { (get_or queue.old.running.items at no_started).rows ≤ queue.old.rows }
    ensures { Stops queue.old at queue.new result }
{
    let started = queue.running.remove(at);
    queue.rows -= started.rows;
    started
}
