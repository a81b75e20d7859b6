//! Keyed tables: rows in strictly rising key order, each row of the table's columns, at most as many as the
//! table's limit.
#![tactic(auto)]

mod keys;
mod places;
mod rows;
mod table;

pub use rows::Rows;
pub use strip_value::{Row, TableDef, Value};
pub use table::{PutError, Table};

#[cfg(test)]
mod tests;
