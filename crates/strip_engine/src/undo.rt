use strip_value::{Change, Holds, Row};

/// A change of a row, and the key of the row, by which a new one is taken out again.
#[derive(Debug, Drop)]
pub struct Logged {
    pub key: Row,
    pub change: Change,
}

/// A transaction in progress. Its changes are made in place; the log has them, the newest at its end.
#[derive(Debug, Drop)]
pub struct Session {
    pub caller: u32,
    pub number: u64,
    pub holds: Holds,
    pub log: Vec<Logged>,
}

mod restoring;

pub(crate) use restoring::restore_all;
