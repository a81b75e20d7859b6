use crate::copies::Duplicate;
use crate::ids::Id;
use crate::items::{Items, U32List};
use crate::names::{Name, NameList};
use crate::queries::Query;
use crate::tables::ColumnDefList;
use std::alloc::{AllocError, Global};

/// A row change that triggers a rule.
#[derive(Debug, Drop)]
pub enum Event {
    Inserted,
    Deleted,
    /// A replacement that changes one of these columns; with no columns, any replacement.
    Updated(U32List),
}

/// The events of a rule.
pub type EventList = Items<Event>;

/// A query of a rule, and the bound table of the rule's function that takes its rows, if one does.
#[derive(Debug, Drop)]
pub struct BoundQuery {
    pub query: Query,
    pub bound: Option<u32>,
}

/// The queries of a rule, in their order.
pub type BoundQueryList = Items<BoundQuery>;

/// A rule on a table, which is considered at each commit.
#[derive(Debug, Drop)]
pub struct Rule {
    pub name: Name,
    pub table: Id,
    pub events: EventList,
    /// Queries that must each have a row.
    pub conditions: BoundQueryList,
    pub evaluate: BoundQueryList,
    pub function: u32,
    /// The columns whose values tell the actions of the function apart; `None` is one action for
    /// each firing.
    pub unique: Option<NameList>,
    /// How long after the commit the action is due.
    pub after: u32,
}

/// Rules, in the order of creation.
pub type RuleList = Items<Rule>;

/// What a function does with its bound rows.
#[derive(Debug, Drop)]
pub enum Step {
    /// Adds the totals of the rows of a bound table to the rows of their keys.
    Add { bound: u32, into: Id },
    /// Computes anew the rows whose keys a bound table names.
    Redo { table: Id, by: u32 },
}

/// The steps of a function, in their order.
pub type StepList = Items<Step>;

/// A bound table of a function.
#[derive(Debug, Drop)]
pub struct BoundDef {
    pub name: Name,
    pub columns: ColumnDefList,
}

/// The bound tables of a function.
pub type BoundDefList = Items<BoundDef>;

/// A function, which is run as an action.
#[derive(Debug, Drop)]
pub struct Function {
    pub name: Name,
    pub steps: StepList,
    pub bound: BoundDefList,
}

/// Functions, in the order of creation.
pub type FunctionList = Items<Function>;

impl Duplicate for Event {
    fn copy(&self, alloc: Global) -> Result<Event, AllocError> {
        match self {
            Event::Inserted => Ok(Event::Inserted),
            Event::Deleted => Ok(Event::Deleted),
            Event::Updated(columns) => Ok(Event::Updated(columns.copy(alloc)?)),
        }
    }
}

impl Duplicate for BoundQuery {
    fn copy(&self, alloc: Global) -> Result<BoundQuery, AllocError> {
        let query = self.query.copy(alloc)?;
        Ok(BoundQuery {
            query,
            bound: self.bound,
        })
    }
}

impl Duplicate for Rule {
    fn copy(&self, alloc: Global) -> Result<Rule, AllocError> {
        let name = self.name.copy(alloc)?;
        let events = self.events.copy(alloc)?;
        let conditions = self.conditions.copy(alloc)?;
        let evaluate = self.evaluate.copy(alloc)?;
        let unique = self.unique.copy(alloc)?;
        Ok(Rule {
            name,
            table: self.table,
            events,
            conditions,
            evaluate,
            function: self.function,
            unique,
            after: self.after,
        })
    }
}

impl Duplicate for Step {
    fn copy(&self, _alloc: Global) -> Result<Step, AllocError> {
        match self {
            Step::Add { bound, into } => Ok(Step::Add {
                bound: *bound,
                into: *into,
            }),
            Step::Redo { table, by } => Ok(Step::Redo {
                table: *table,
                by: *by,
            }),
        }
    }
}

impl Duplicate for BoundDef {
    fn copy(&self, alloc: Global) -> Result<BoundDef, AllocError> {
        let name = self.name.copy(alloc)?;
        let columns = self.columns.copy(alloc)?;
        Ok(BoundDef { name, columns })
    }
}

impl Duplicate for Function {
    fn copy(&self, alloc: Global) -> Result<Function, AllocError> {
        let name = self.name.copy(alloc)?;
        let steps = self.steps.copy(alloc)?;
        let bound = self.bound.copy(alloc)?;
        Ok(Function { name, steps, bound })
    }
}
