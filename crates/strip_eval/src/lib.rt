//! Answers of queries: the rows that a query means, from tables as they stand.
#![tactic(auto)]

mod answers;
mod combinations;
mod entries;
mod env;
mod filters;
mod groups;
mod values;
mod walks;

pub use answers::rows;
pub use env::Env;
pub use strip_table::Table;
pub use strip_value::{Moved, Query, Row, RowList};

#[cfg(test)]
mod tests;
