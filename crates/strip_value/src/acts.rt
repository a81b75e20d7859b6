use crate::copies::Duplicate;
use crate::expressions::Test;
use crate::ids::{Id, Ids};
use crate::items::Items;
use crate::queries::{Query, SetList};
use crate::rows::{Row, RowList};
use std::alloc::{AllocError, Global};

/// What a transaction does to its tables, one act at a time. Each is all or nothing.
#[derive(Debug, Drop)]
pub enum Act {
    /// Adds the rows.
    Insert {
        table: Id,
        rows: RowList,
    },
    /// Adds the row, or replaces the row of its key.
    Put {
        table: Id,
        row: Row,
    },
    /// Sets columns of the rows that satisfy the filter, each new row computed from its old row.
    Update {
        table: Id,
        sets: SetList,
        filter: Test,
    },
    /// Removes the rows that satisfy the filter.
    Delete {
        table: Id,
        filter: Test,
    },
    /// Answers the rows of the query.
    Select {
        query: Query,
    },
    /// Answers all rows of the table.
    Show {
        table: Id,
    },
}

/// Acts, in their order.
pub type ActList = Items<Act>;

/// The answer to an act.
#[derive(Debug, Drop)]
pub enum Reply {
    Rows(RowList),
    /// How many rows were added, replaced or removed.
    Count(u64),
    Refused(ActError),
}

/// Replies, in the order of their acts.
pub type ReplyList = Items<Reply>;

/// Why an act was refused; it then changed nothing.
#[derive(Debug, Drop)]
pub enum ActError {
    /// The transaction holds the table neither to write nor to read.
    NotHeld { table: Id },
    /// The transaction holds the table to read alone.
    ReadOnly { table: Id },
    /// The table is kept by rules, and no act writes it.
    Derived { table: Id },
    /// A value is of another kind than its column, counted from 1.
    KindMismatch { column: u32 },
    /// A number isn't in the range of its column, counted from 1.
    OutOfRange { column: u32, value: i128 },
    /// The key would stand twice.
    Duplicate { key: Row },
    /// The table would have more rows than its limit.
    Full { table: Id, limit: u32 },
}

/// The tables that a transaction may write, and those that it may read besides.
#[derive(Debug, Drop)]
pub struct Holds {
    pub write: Ids,
    pub read: Ids,
}

impl Duplicate for Act {
    fn copy(&self, alloc: Global) -> Result<Act, AllocError> {
        match self {
            Act::Insert { table, rows } => {
                let rows = rows.copy(alloc)?;
                Ok(Act::Insert {
                    table: *table,
                    rows,
                })
            }
            Act::Put { table, row } => {
                let row = row.copy(alloc)?;
                Ok(Act::Put { table: *table, row })
            }
            Act::Update {
                table,
                sets,
                filter,
            } => {
                let sets = sets.copy(alloc)?;
                let filter = filter.copy(alloc)?;
                Ok(Act::Update {
                    table: *table,
                    sets,
                    filter,
                })
            }
            Act::Delete { table, filter } => {
                let filter = filter.copy(alloc)?;
                Ok(Act::Delete {
                    table: *table,
                    filter,
                })
            }
            Act::Select { query } => Ok(Act::Select {
                query: query.copy(alloc)?,
            }),
            Act::Show { table } => Ok(Act::Show { table: *table }),
        }
    }
}

impl Duplicate for Reply {
    fn copy(&self, alloc: Global) -> Result<Reply, AllocError> {
        match self {
            Reply::Rows(rows) => Ok(Reply::Rows(rows.copy(alloc)?)),
            Reply::Count(n) => Ok(Reply::Count(*n)),
            Reply::Refused(cause) => Ok(Reply::Refused(cause.copy(alloc)?)),
        }
    }
}

impl Duplicate for ActError {
    fn copy(&self, alloc: Global) -> Result<ActError, AllocError> {
        match self {
            ActError::NotHeld { table } => Ok(ActError::NotHeld { table: *table }),
            ActError::ReadOnly { table } => Ok(ActError::ReadOnly { table: *table }),
            ActError::Derived { table } => Ok(ActError::Derived { table: *table }),
            ActError::KindMismatch { column } => Ok(ActError::KindMismatch { column: *column }),
            ActError::OutOfRange { column, value } => Ok(ActError::OutOfRange {
                column: *column,
                value: *value,
            }),
            ActError::Duplicate { key } => {
                let key = key.copy(alloc)?;
                Ok(ActError::Duplicate { key })
            }
            ActError::Full { table, limit } => Ok(ActError::Full {
                table: *table,
                limit: *limit,
            }),
        }
    }
}

impl Duplicate for Holds {
    fn copy(&self, alloc: Global) -> Result<Holds, AllocError> {
        let write = self.write.copy(alloc)?;
        let read = self.read.copy(alloc)?;
        Ok(Holds { write, read })
    }
}
