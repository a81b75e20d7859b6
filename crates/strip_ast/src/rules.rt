use crate::queries::QueryTree;
use std::alloc::{AllocError, Global};
use strip_value::{Duplicate, Items, Name, NameList};

/// A step of a function.
#[derive(Debug, Drop)]
pub enum StepTree {
    /// Adds what was bound into a derived table.
    Add { bound: Name, into: Name },
    /// Computes a derived table anew for the keys that were bound.
    Redo { table: Name, by: Name },
}

pub type StepTreeList = Items<StepTree>;

/// What a rule waits for. No columns after `updated` means any column.
#[derive(Debug, Drop)]
pub enum EventTree {
    Inserted,
    Deleted,
    Updated(NameList),
}

pub type EventTreeList = Items<EventTree>;

/// A query of a rule, with the name that it binds.
#[derive(Debug, Drop)]
pub struct BoundTree {
    pub query: QueryTree,
    pub name: Option<Name>,
}

pub type BoundTreeList = Items<BoundTree>;

/// How a rule's actions are merged and put off. No columns in `unique` means `unique` alone.
#[derive(Debug, Drop)]
pub struct Manner {
    pub unique: Option<NameList>,
    pub after: u128,
}

impl Duplicate for StepTree {
    fn copy(&self, alloc: Global) -> Result<StepTree, AllocError> {
        match self {
            StepTree::Add { bound, into } => {
                let bound = bound.copy(alloc)?;
                let into = into.copy(alloc)?;
                Ok(StepTree::Add { bound, into })
            }
            StepTree::Redo { table, by } => {
                let table = table.copy(alloc)?;
                let by = by.copy(alloc)?;
                Ok(StepTree::Redo { table, by })
            }
        }
    }
}

impl Duplicate for EventTree {
    fn copy(&self, alloc: Global) -> Result<EventTree, AllocError> {
        match self {
            EventTree::Inserted => Ok(EventTree::Inserted),
            EventTree::Deleted => Ok(EventTree::Deleted),
            EventTree::Updated(columns) => Ok(EventTree::Updated(columns.copy(alloc)?)),
        }
    }
}

impl Duplicate for BoundTree {
    fn copy(&self, alloc: Global) -> Result<BoundTree, AllocError> {
        let query = self.query.copy(alloc)?;
        let name = self.name.copy(alloc)?;
        Ok(BoundTree { query, name })
    }
}

impl Duplicate for Manner {
    fn copy(&self, alloc: Global) -> Result<Manner, AllocError> {
        let unique = self.unique.copy(alloc)?;
        Ok(Manner {
            unique,
            after: self.after,
        })
    }
}
