use crate::copies::Duplicate;
use crate::items::{Items, U32List};
use crate::kinds::Kind;
use crate::names::Name;
use crate::queries::Query;
use std::alloc::{AllocError, Global};

/// A column: its name and its kind.
#[derive(Debug, Drop)]
pub struct ColumnDef {
    pub name: Name,
    pub kind: Kind,
}

/// A list of columns, in the order of a table's rows.
pub type ColumnDefList = Items<ColumnDef>;

impl Duplicate for ColumnDef {
    fn copy(&self, alloc: Global) -> Result<ColumnDef, AllocError> {
        let name = self.name.copy(alloc)?;
        Ok(ColumnDef {
            name,
            kind: self.kind,
        })
    }
}

/// How rules keep a derived table: by adding sums, or by computing anew the rows of named keys.
#[derive(Clone, Copy, Debug, PartialEq, Eq)]
pub enum By {
    Sum,
    Key,
}

impl Duplicate for By {
    fn copy(&self, _alloc: Global) -> Result<By, AllocError> {
        Ok(*self)
    }
}

/// What a table is declared to be.
#[derive(Debug, Drop)]
pub struct TableDef {
    pub name: Name,
    pub columns: ColumnDefList,
    /// The numbers of the key columns, from 0, in the key's order.
    pub key: U32List,
    /// The most rows that the table may have; `None` is no limit.
    pub limit: Option<u32>,
    /// The query of a derived table; `None` is a base table.
    pub query: Option<Query>,
    /// The kind of step that keeps the table, if one does.
    pub kept: Option<By>,
    /// Whether the rule and the function that keep the table were made from its query.
    pub declared: bool,
}

/// Definitions of tables, by the tables' numbers.
pub type TableDefList = Items<TableDef>;

impl Duplicate for TableDef {
    fn copy(&self, alloc: Global) -> Result<TableDef, AllocError> {
        let name = self.name.copy(alloc)?;
        let columns = self.columns.copy(alloc)?;
        let key = self.key.copy(alloc)?;
        let query = self.query.copy(alloc)?;
        Ok(TableDef {
            name,
            columns,
            key,
            limit: self.limit,
            query,
            kept: self.kept,
            declared: self.declared,
        })
    }
}
