use crate::copies::Duplicate;
use crate::ids::Id;
use crate::items::Items;
use crate::rows::{Row, RowList};
use std::alloc::{AllocError, Global};

/// What became of one row.
#[derive(Debug, Drop)]
pub enum Shift {
    Inserted(Row),
    Deleted(Row),
    /// A replacement, also where both rows are equal.
    Changed { old: Row, new: Row },
}

/// A change of one row of one table.
#[derive(Debug, Drop)]
pub struct Change {
    pub table: Id,
    pub shift: Shift,
}

/// The row changes of a transaction, in the order of its acts.
pub type Changes = Items<Change>;

/// The rows that a transaction added to one table, removed from it and replaced in it, each with
/// the number of its change, from 1, as its last value.
#[derive(Debug, Drop)]
pub struct Moved {
    pub inserted: RowList,
    pub deleted: RowList,
    pub old: RowList,
    pub new: RowList,
}

impl Duplicate for Shift {
    fn copy(&self, alloc: Global) -> Result<Shift, AllocError> {
        match self {
            Shift::Inserted(row) => Ok(Shift::Inserted(row.copy(alloc)?)),
            Shift::Deleted(row) => Ok(Shift::Deleted(row.copy(alloc)?)),
            Shift::Changed { old, new } => {
                let old = old.copy(alloc)?;
                let new = new.copy(alloc)?;
                Ok(Shift::Changed { old, new })
            }
        }
    }
}

impl Duplicate for Change {
    fn copy(&self, alloc: Global) -> Result<Change, AllocError> {
        let shift = self.shift.copy(alloc)?;
        Ok(Change {
            table: self.table,
            shift,
        })
    }
}

impl Duplicate for Moved {
    fn copy(&self, alloc: Global) -> Result<Moved, AllocError> {
        let inserted = self.inserted.copy(alloc)?;
        let deleted = self.deleted.copy(alloc)?;
        let old = self.old.copy(alloc)?;
        let new = self.new.copy(alloc)?;
        Ok(Moved {
            inserted,
            deleted,
            old,
            new,
        })
    }
}
