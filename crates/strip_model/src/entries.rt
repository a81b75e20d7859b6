use std::alloc::{AllocError, Global};
use strip_value::{Act, ActionId, Duplicate, Ids, Reply};

/// One event of the database. A caller is whoever made the call; sessions are numbered from 1 in the order of their
/// begins.
#[derive(Debug, Drop)]
pub enum Entry {
    /// A transaction began and holds these tables.
    Begin {
        caller: u32,
        session: u64,
        write: Ids,
        read: Ids,
    },
    /// It did an act and was given this reply.
    Did {
        caller: u32,
        session: u64,
        act: Act,
        reply: Reply,
    },
    /// Its changes stand from here on, at this moment.
    Commit {
        caller: u32,
        session: u64,
        moment: u64,
    },
    /// Its changes are dropped.
    Undo {
        caller: u32,
        session: u64,
    },
    /// An action was started, at this moment. Starts are numbered from 1. The action was due at `due`, and has
    /// so many bound rows.
    Start {
        caller: u32,
        number: u64,
        moment: u64,
        action: ActionId,
        due: u64,
        rows: u64,
    },
    /// The action of this start was finished: what it was to do stands from here on.
    Finish {
        caller: u32,
        number: u64,
    },
}

impl Duplicate for Entry {
    fn copy(&self, alloc: Global) -> Result<Entry, AllocError> {
        match self {
            Entry::Begin {
                caller,
                session,
                write,
                read,
            } => {
                let write = write.copy(alloc)?;
                let read = read.copy(alloc)?;
                Ok(Entry::Begin {
                    caller: *caller,
                    session: *session,
                    write,
                    read,
                })
            }
            Entry::Did {
                caller,
                session,
                act,
                reply,
            } => {
                let act = act.copy(alloc)?;
                let reply = reply.copy(alloc)?;
                Ok(Entry::Did {
                    caller: *caller,
                    session: *session,
                    act,
                    reply,
                })
            }
            Entry::Commit {
                caller,
                session,
                moment,
            } => Ok(Entry::Commit {
                caller: *caller,
                session: *session,
                moment: *moment,
            }),
            Entry::Undo { caller, session } => Ok(Entry::Undo {
                caller: *caller,
                session: *session,
            }),
            Entry::Start {
                caller,
                number,
                moment,
                action,
                due,
                rows,
            } => {
                let action = action.copy(alloc)?;
                Ok(Entry::Start {
                    caller: *caller,
                    number: *number,
                    moment: *moment,
                    action,
                    due: *due,
                    rows: *rows,
                })
            }
            Entry::Finish { caller, number } => Ok(Entry::Finish {
                caller: *caller,
                number: *number,
            }),
        }
    }
}
