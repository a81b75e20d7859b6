//! Statements that are refused for their kinds, for magnitudes that are too wide, and for what rules bind.
#![tactic(auto)]

pub mod bound;
pub mod fits;
pub mod mismatch;
pub mod needs;
pub mod rules;
pub mod width;
