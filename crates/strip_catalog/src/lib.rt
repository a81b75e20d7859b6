//! The catalog: tables, streams, functions and rules as statements of setup declare them.
#![tactic(auto)]

mod additions;
mod catalog;
mod keeping;
pub mod laws;
mod made;
mod refusing;
mod sums;

pub use catalog::Catalog;
pub use made::Made;
pub use strip_ast::{Deed, Statement};
pub use strip_setup::{LimitKind, SetupError};
pub use strip_value::{
    Act, BoundDef, BoundQuery, By, ColumnDef, Event, Function, Id, Name, Query, Rule, Step, Stream,
    TableDef,
};
