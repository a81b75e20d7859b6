//! Signed bags of rows: how often each row counts, and the laws of sums and differences of bags.
#![tactic(auto)]

mod bag;
pub mod laws;

pub use bag::Bag;
pub use strip_value::{Row, RowList, Value};

#[cfg(test)]
mod tests;
