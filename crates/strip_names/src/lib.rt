//! Statements that are refused for their names, for limits, and for how items are grouped.
#![tactic(auto)]

pub mod exists;
pub mod grouped;
pub mod limits;
pub mod refusals;
pub mod unknown;
