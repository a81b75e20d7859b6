use crate::expressions::Expr;
use crate::queries::QueryTree;
use std::alloc::{AllocError, Global};
use strip_value::{Duplicate, Items, Name, NameList, Row, RowList};

/// A column that an update sets, and to what.
#[derive(Debug, Drop)]
pub struct SetTree {
    pub column: Name,
    pub value: Expr,
}

pub type SetTreeList = Items<SetTree>;

/// What a caller asks for.
#[derive(Debug, Drop)]
pub enum Deed {
    Begin {
        write: NameList,
        read: NameList,
    },
    Commit,
    Undo,
    Start,
    Finish {
        number: u128,
    },
    Return {
        number: u128,
    },
    Run,
    ShowPending,
    Insert {
        table: Name,
        rows: RowList,
    },
    Put {
        table: Name,
        row: Row,
    },
    Update {
        table: Name,
        sets: SetTreeList,
        filter: Option<Expr>,
    },
    Delete {
        table: Name,
        filter: Option<Expr>,
    },
    Select {
        query: QueryTree,
    },
    Show {
        table: Name,
    },
}

impl Duplicate for SetTree {
    fn copy(&self, alloc: Global) -> Result<SetTree, AllocError> {
        let column = self.column.copy(alloc)?;
        let value = self.value.copy(alloc)?;
        Ok(SetTree { column, value })
    }
}

impl Duplicate for Deed {
    fn copy(&self, alloc: Global) -> Result<Deed, AllocError> {
        match self {
            Deed::Begin { write, read } => {
                let write = write.copy(alloc)?;
                let read = read.copy(alloc)?;
                Ok(Deed::Begin { write, read })
            }
            Deed::Commit => Ok(Deed::Commit),
            Deed::Undo => Ok(Deed::Undo),
            Deed::Start => Ok(Deed::Start),
            Deed::Finish { number } => Ok(Deed::Finish { number: *number }),
            Deed::Return { number } => Ok(Deed::Return { number: *number }),
            Deed::Run => Ok(Deed::Run),
            Deed::ShowPending => Ok(Deed::ShowPending),
            Deed::Insert { table, rows } => {
                let table = table.copy(alloc)?;
                let rows = rows.copy(alloc)?;
                Ok(Deed::Insert { table, rows })
            }
            Deed::Put { table, row } => {
                let table = table.copy(alloc)?;
                let row = row.copy(alloc)?;
                Ok(Deed::Put { table, row })
            }
            Deed::Update {
                table,
                sets,
                filter,
            } => {
                let table = table.copy(alloc)?;
                let sets = sets.copy(alloc)?;
                let filter = filter.copy(alloc)?;
                Ok(Deed::Update {
                    table,
                    sets,
                    filter,
                })
            }
            Deed::Delete { table, filter } => {
                let table = table.copy(alloc)?;
                let filter = filter.copy(alloc)?;
                Ok(Deed::Delete { table, filter })
            }
            Deed::Select { query } => {
                let query = query.copy(alloc)?;
                Ok(Deed::Select { query })
            }
            Deed::Show { table } => Ok(Deed::Show {
                table: table.copy(alloc)?,
            }),
        }
    }
}
