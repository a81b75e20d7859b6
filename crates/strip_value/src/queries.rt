use crate::copies::Duplicate;
use crate::expressions::{Calc, Test};
use crate::ids::Id;
use crate::items::Items;
use crate::names::Name;
use std::alloc::{AllocError, Global};

/// Where an entry of a query takes its rows from.
#[derive(Clone, Copy, Debug)]
pub enum Input {
    /// A table as it stands.
    Table(Id),
    /// A table as it stood when the transaction began.
    Before(Id),
    /// The rows that the transaction added.
    Inserted,
    /// The rows that it removed.
    Deleted,
    /// The rows that it replaced, as they were.
    Old,
    /// The rows that it replaced, as they became.
    New,
}

/// The entries of a query, in their order.
pub type InputList = Items<Input>;

/// What an item of a query is.
#[derive(Debug, Drop)]
pub enum What {
    Plain(Calc),
    /// The sum over the rows of a group.
    Sum(Calc),
    /// The number of rows of a group.
    Count,
}

/// A column of a query's answer.
#[derive(Debug, Drop)]
pub struct Item {
    pub name: Name,
    pub what: What,
}

/// The items of a query, in their order.
pub type ItemList = Items<Item>;

/// A column of an entry, both counted from 0.
#[derive(Clone, Copy, Debug)]
pub struct Place {
    pub entry: u32,
    pub column: u32,
}

/// Columns to group by, in their order.
pub type PlaceList = Items<Place>;

/// A query whose names are resolved.
#[derive(Debug, Drop)]
pub struct Query {
    pub items: ItemList,
    pub entries: InputList,
    pub filter: Test,
    pub group: Option<PlaceList>,
}

/// A column that an update sets, counted from 0, and its new value.
#[derive(Debug, Drop)]
pub struct Set {
    pub column: u32,
    pub value: Calc,
}

/// The columns that an update sets.
pub type SetList = Items<Set>;

impl Duplicate for Input {
    fn copy(&self, _alloc: Global) -> Result<Input, AllocError> {
        Ok(*self)
    }
}

impl Duplicate for What {
    fn copy(&self, alloc: Global) -> Result<What, AllocError> {
        match self {
            What::Plain(calc) => Ok(What::Plain(calc.copy(alloc)?)),
            What::Sum(calc) => Ok(What::Sum(calc.copy(alloc)?)),
            What::Count => Ok(What::Count),
        }
    }
}

impl Duplicate for Item {
    fn copy(&self, alloc: Global) -> Result<Item, AllocError> {
        let name = self.name.copy(alloc)?;
        let what = self.what.copy(alloc)?;
        Ok(Item { name, what })
    }
}

impl Duplicate for Place {
    fn copy(&self, _alloc: Global) -> Result<Place, AllocError> {
        Ok(*self)
    }
}

impl Duplicate for Query {
    fn copy(&self, alloc: Global) -> Result<Query, AllocError> {
        let items = self.items.copy(alloc)?;
        let entries = self.entries.copy(alloc)?;
        let filter = self.filter.copy(alloc)?;
        let group = self.group.copy(alloc)?;
        Ok(Query {
            items,
            entries,
            filter,
            group,
        })
    }
}

impl Duplicate for Set {
    fn copy(&self, alloc: Global) -> Result<Set, AllocError> {
        let value = self.value.copy(alloc)?;
        Ok(Set {
            column: self.column,
            value,
        })
    }
}
