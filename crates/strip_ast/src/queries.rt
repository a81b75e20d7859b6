use crate::expressions::Expr;
use std::alloc::{AllocError, Global};
use strip_value::{Duplicate, Items, Name};

/// What an item of a query asks for.
#[derive(Debug, Drop)]
pub enum Total {
    Plain(Expr),
    /// The sum over the rows of a group.
    Sum(Expr),
    /// The number of rows of a group.
    Count,
}

/// An item of a query, with the name that follows `as`.
#[derive(Debug, Drop)]
pub struct ItemTree {
    pub what: Total,
    pub name: Option<Name>,
}

pub type ItemTreeList = Items<ItemTree>;

/// Where an entry of a query takes its rows from.
#[derive(Debug, Drop)]
pub enum Origin {
    Table(Name),
    /// The table as it stood when the transaction began.
    Before(Name),
    Inserted,
    Deleted,
    Old,
    New,
}

/// An entry of `from`, with the name that follows it.
#[derive(Debug, Drop)]
pub struct EntryTree {
    pub origin: Origin,
    pub alias: Option<Name>,
}

pub type EntryTreeList = Items<EntryTree>;

/// A column to group by.
#[derive(Debug, Drop)]
pub struct ColTree {
    pub of: Option<Name>,
    pub name: Name,
}

pub type ColTreeList = Items<ColTree>;

/// A query as it is written. No group means that there is no `group by`.
#[derive(Debug, Drop)]
pub struct QueryTree {
    pub items: ItemTreeList,
    pub entries: EntryTreeList,
    pub filter: Option<Expr>,
    pub group: Option<ColTreeList>,
}

impl Duplicate for Total {
    fn copy(&self, alloc: Global) -> Result<Total, AllocError> {
        match self {
            Total::Plain(expr) => Ok(Total::Plain(expr.copy(alloc)?)),
            Total::Sum(expr) => Ok(Total::Sum(expr.copy(alloc)?)),
            Total::Count => Ok(Total::Count),
        }
    }
}

impl Duplicate for ItemTree {
    fn copy(&self, alloc: Global) -> Result<ItemTree, AllocError> {
        let what = self.what.copy(alloc)?;
        let name = self.name.copy(alloc)?;
        Ok(ItemTree { what, name })
    }
}

impl Duplicate for Origin {
    fn copy(&self, alloc: Global) -> Result<Origin, AllocError> {
        match self {
            Origin::Table(name) => Ok(Origin::Table(name.copy(alloc)?)),
            Origin::Before(name) => Ok(Origin::Before(name.copy(alloc)?)),
            Origin::Inserted => Ok(Origin::Inserted),
            Origin::Deleted => Ok(Origin::Deleted),
            Origin::Old => Ok(Origin::Old),
            Origin::New => Ok(Origin::New),
        }
    }
}

impl Duplicate for EntryTree {
    fn copy(&self, alloc: Global) -> Result<EntryTree, AllocError> {
        let origin = self.origin.copy(alloc)?;
        let alias = self.alias.copy(alloc)?;
        Ok(EntryTree { origin, alias })
    }
}

impl Duplicate for ColTree {
    fn copy(&self, alloc: Global) -> Result<ColTree, AllocError> {
        let of = self.of.copy(alloc)?;
        let name = self.name.copy(alloc)?;
        Ok(ColTree { of, name })
    }
}

impl Duplicate for QueryTree {
    fn copy(&self, alloc: Global) -> Result<QueryTree, AllocError> {
        let items = self.items.copy(alloc)?;
        let entries = self.entries.copy(alloc)?;
        let filter = self.filter.copy(alloc)?;
        let group = self.group.copy(alloc)?;
        Ok(QueryTree {
            items,
            entries,
            filter,
            group,
        })
    }
}
