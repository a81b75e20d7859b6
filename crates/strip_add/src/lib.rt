//! Sums per key: the totals of a list of rows, and totals added to a derived table.
#![tactic(auto)]

mod applying;
mod folding;
pub mod laws;
mod sums;

pub use applying::apply;
pub use folding::{Totals, fold};
pub use strip_table::Table;
pub use strip_value::{Row, RowList, TableDef, Value};

#[cfg(test)]
mod tests;
