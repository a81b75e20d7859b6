use crate::copies::Duplicate;
use crate::items::Items;
use crate::rows::{Row, RowList};
use std::alloc::{AllocError, Global};

/// A row that a rule binds: its bound table, the key values that tell actions apart, and the row.
#[derive(Debug, Drop)]
pub struct Bound {
    pub bound: u32,
    pub key: Row,
    pub row: Row,
}

/// Bound rows, in the order of binding.
pub type BoundList = Items<Bound>;

/// A rule's number, and the rows that it binds at one commit.
#[derive(Debug, Drop)]
pub struct FiredRule {
    pub number: u32,
    pub rows: BoundList,
}

/// What the rules bind at one commit, by rising number.
pub type FiredList = Items<FiredRule>;

/// The numbers of pending and of running actions, and of the bound rows in both together.
#[derive(Clone, Copy, Debug, PartialEq, Eq)]
pub struct Counts {
    pub pending: u64,
    pub running: u64,
    pub rows: u64,
}

/// What tells an action from the others of its function.
#[derive(Debug, Drop)]
pub enum KeyOf {
    /// The place in the history of the commit that made it, and the rule.
    Plain { place: u64, rule: u32 },
    /// The key values, and how many actions of the function with them were started before, those
    /// given back not counted.
    Unique { values: Row, starts: u64 },
}

/// The identity of an action.
#[derive(Debug, Drop)]
pub struct ActionId {
    pub function: u32,
    pub key: KeyOf,
}

/// What one step of an action is to do.
#[derive(Debug, Drop)]
pub enum Content {
    /// Key values and then sums, by rising key.
    Totals(RowList),
    /// Keys, rising.
    Keys(RowList),
}

/// The contents of an action, one for each step.
pub type ContentList = Items<Content>;

/// An action that was started.
#[derive(Debug, Drop)]
pub struct Action {
    pub number: u64,
    pub action: ActionId,
    pub due: u64,
    /// The number of its bound rows.
    pub rows: u64,
    pub content: ContentList,
}

/// What is shown of an action.
#[derive(Debug, Drop)]
pub struct ActionView {
    /// The number of its start, where it is running.
    pub number: Option<u64>,
    pub action: ActionId,
    pub due: u64,
    /// The number of its bound rows.
    pub rows: u64,
}

/// Running actions by number, then pending ones in due order.
pub type ActionList = Items<ActionView>;

/// The answer to the start of an action.
#[derive(Debug, Drop)]
pub enum Pulled {
    Action(Action),
    /// All pending actions are due later, the first at `next`.
    NotDue { next: u64 },
    /// Each due action has a running twin, the first one's being this number.
    InHand { number: u64 },
    /// No action is pending.
    Empty,
}

impl Duplicate for Bound {
    fn copy(&self, alloc: Global) -> Result<Bound, AllocError> {
        let key = self.key.copy(alloc)?;
        let row = self.row.copy(alloc)?;
        Ok(Bound {
            bound: self.bound,
            key,
            row,
        })
    }
}

impl Duplicate for FiredRule {
    fn copy(&self, alloc: Global) -> Result<FiredRule, AllocError> {
        let rows = self.rows.copy(alloc)?;
        Ok(FiredRule {
            number: self.number,
            rows,
        })
    }
}

impl Duplicate for Counts {
    fn copy(&self, _alloc: Global) -> Result<Counts, AllocError> {
        Ok(*self)
    }
}

impl Duplicate for KeyOf {
    fn copy(&self, alloc: Global) -> Result<KeyOf, AllocError> {
        match self {
            KeyOf::Plain { place, rule } => Ok(KeyOf::Plain {
                place: *place,
                rule: *rule,
            }),
            KeyOf::Unique { values, starts } => {
                let values = values.copy(alloc)?;
                Ok(KeyOf::Unique {
                    values,
                    starts: *starts,
                })
            }
        }
    }
}

impl Duplicate for ActionId {
    fn copy(&self, alloc: Global) -> Result<ActionId, AllocError> {
        let key = self.key.copy(alloc)?;
        Ok(ActionId {
            function: self.function,
            key,
        })
    }
}

impl Duplicate for Content {
    fn copy(&self, alloc: Global) -> Result<Content, AllocError> {
        match self {
            Content::Totals(rows) => Ok(Content::Totals(rows.copy(alloc)?)),
            Content::Keys(keys) => Ok(Content::Keys(keys.copy(alloc)?)),
        }
    }
}

impl Duplicate for Action {
    fn copy(&self, alloc: Global) -> Result<Action, AllocError> {
        let action = self.action.copy(alloc)?;
        let content = self.content.copy(alloc)?;
        Ok(Action {
            number: self.number,
            action,
            due: self.due,
            rows: self.rows,
            content,
        })
    }
}

impl Duplicate for ActionView {
    fn copy(&self, alloc: Global) -> Result<ActionView, AllocError> {
        let action = self.action.copy(alloc)?;
        Ok(ActionView {
            number: self.number,
            action,
            due: self.due,
            rows: self.rows,
        })
    }
}

impl Duplicate for Pulled {
    fn copy(&self, alloc: Global) -> Result<Pulled, AllocError> {
        match self {
            Pulled::Action(action) => Ok(Pulled::Action(action.copy(alloc)?)),
            Pulled::NotDue { next } => Ok(Pulled::NotDue { next: *next }),
            Pulled::InHand { number } => Ok(Pulled::InHand { number: *number }),
            Pulled::Empty => Ok(Pulled::Empty),
        }
    }
}
