use crate::deeds::Deed;
use crate::queries::QueryTree;
use crate::rules::{BoundTreeList, EventTreeList, Manner, StepTreeList};
use std::alloc::{AllocError, Global};
use strip_value::{By, ColumnDefList, Duplicate, Name, NameList};

/// A statement as it is written, but for its blanks, its parentheses and the zeros before its numbers.
#[derive(Debug, Drop)]
pub enum Statement {
    Table {
        name: Name,
        columns: ColumnDefList,
        /// Empty where the table has no `key`.
        key: NameList,
        limit: Option<u128>,
    },
    Stream {
        name: Name,
        table: Name,
        marked: bool,
    },
    Derive {
        name: Name,
        query: QueryTree,
    },
    Function {
        name: Name,
        steps: StepTreeList,
    },
    Rule {
        name: Name,
        table: Name,
        events: EventTreeList,
        conditions: BoundTreeList,
        evaluate: BoundTreeList,
        function: Name,
        manner: Manner,
    },
    Maintain {
        name: Name,
        by: By,
        manner: Manner,
    },
    Ready,
    At {
        moment: u128,
    },
    /// What a caller asks for, who may be named by a number.
    Deed {
        caller: Option<u32>,
        deed: Deed,
    },
}

impl Duplicate for Statement {
    fn copy(&self, alloc: Global) -> Result<Statement, AllocError> {
        match self {
            Statement::Table {
                name,
                columns,
                key,
                limit,
            } => {
                let name = name.copy(alloc)?;
                let columns = columns.copy(alloc)?;
                let key = key.copy(alloc)?;
                Ok(Statement::Table {
                    name,
                    columns,
                    key,
                    limit: *limit,
                })
            }
            Statement::Stream {
                name,
                table,
                marked,
            } => {
                let name = name.copy(alloc)?;
                let table = table.copy(alloc)?;
                Ok(Statement::Stream {
                    name,
                    table,
                    marked: *marked,
                })
            }
            Statement::Derive { name, query } => {
                let name = name.copy(alloc)?;
                let query = query.copy(alloc)?;
                Ok(Statement::Derive { name, query })
            }
            Statement::Function { name, steps } => {
                let name = name.copy(alloc)?;
                let steps = steps.copy(alloc)?;
                Ok(Statement::Function { name, steps })
            }
            Statement::Rule {
                name,
                table,
                events,
                conditions,
                evaluate,
                function,
                manner,
            } => {
                let name = name.copy(alloc)?;
                let table = table.copy(alloc)?;
                let events = events.copy(alloc)?;
                let conditions = conditions.copy(alloc)?;
                let evaluate = evaluate.copy(alloc)?;
                let function = function.copy(alloc)?;
                let manner = manner.copy(alloc)?;
                Ok(Statement::Rule {
                    name,
                    table,
                    events,
                    conditions,
                    evaluate,
                    function,
                    manner,
                })
            }
            Statement::Maintain { name, by, manner } => {
                let name = name.copy(alloc)?;
                let manner = manner.copy(alloc)?;
                Ok(Statement::Maintain {
                    name,
                    by: *by,
                    manner,
                })
            }
            Statement::Ready => Ok(Statement::Ready),
            Statement::At { moment } => Ok(Statement::At { moment: *moment }),
            Statement::Deed { caller, deed } => Ok(Statement::Deed {
                caller: *caller,
                deed: deed.copy(alloc)?,
            }),
        }
    }
}
