use crate::jobs::{Done, Job};
use strip_value::Id;

/// What an engine may do in its life.
#[derive(Clone, Copy, Debug, PartialEq, Eq)]
pub struct Limits {
    /// The most rows that rules may bind.
    pub bound_rows: u64,
}

/// Why a transaction wasn't begun.
#[derive(Debug, Drop)]
pub enum BeginError {
    /// The caller has this live transaction.
    Twice { session: u64 },
    /// This live transaction holds this table in conflict.
    Blocked { session: u64, table: Id },
    Memory,
}

/// Why an act has no reply.
#[derive(Debug, Drop)]
pub enum ActFault {
    /// The session isn't live.
    NoSession { session: u64 },
    Memory,
}

/// Why a transaction wasn't committed; it is then in progress as before.
#[derive(Debug, Drop)]
pub enum CommitError {
    /// The session isn't live.
    NoSession { session: u64 },
    /// The rows bound would be this many, more than the limit.
    Spent { total: u64 },
    Memory,
}

/// The session isn't live.
#[derive(Clone, Copy, Debug, PartialEq, Eq)]
pub struct NoSession {
    pub session: u64,
}

/// How many rules bound rows at a commit, and how many rows.
#[derive(Clone, Copy, Debug, PartialEq, Eq)]
pub struct Fired {
    pub firings: u32,
    pub rows: u64,
}

/// The answer to a start.
#[derive(Debug, Drop)]
pub enum Taken {
    Job(Job),
    /// All pending actions are due later, the first at `next`.
    NotDue { next: u64 },
    /// Each due action has a running twin, the first one's being this number.
    InHand { number: u64 },
    /// No action is pending.
    Empty,
}

/// Why a job wasn't finished.
#[derive(Debug, Drop)]
pub enum FinishError {
    /// No job of this number is running.
    NotRunning { number: u64 },
    /// This live transaction holds this table, which the job writes.
    Blocked { session: u64, table: Id },
    Memory,
}

/// A job that wasn't finished, and why.
#[derive(Debug, Drop)]
pub struct FinishFault {
    pub why: FinishError,
    pub done: Done,
}
