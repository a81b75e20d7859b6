use crate::copies::Duplicate;
use crate::ids::Id;
use crate::items::{Items, U32List};
use crate::names::Name;
use crate::tables::ColumnDefList;
use std::alloc::{AllocError, Global};

/// A stream of lines into a table, with what a reader of its lines must know of the table.
#[derive(Debug, Drop)]
pub struct Stream {
    pub name: Name,
    pub table: Id,
    /// Whether a line begins with a mark that says whether it puts or deletes a row.
    pub marked: bool,
    pub columns: ColumnDefList,
    /// The numbers of the key columns, from 0, in the key's order.
    pub key: U32List,
}

/// Streams, in the order of declaration.
pub type StreamList = Items<Stream>;

impl Duplicate for Stream {
    fn copy(&self, alloc: Global) -> Result<Stream, AllocError> {
        let name = self.name.copy(alloc)?;
        let columns = self.columns.copy(alloc)?;
        let key = self.key.copy(alloc)?;
        Ok(Stream {
            name,
            table: self.table,
            marked: self.marked,
            columns,
            key,
        })
    }
}
