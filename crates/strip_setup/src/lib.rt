//! What is set up, and what its names stand for: tables, columns, expressions, queries, and what the statements of setup
//! declare. And why such a statement is refused.
#![tactic(auto)]

pub mod acts;
pub mod answers;
pub mod calculations;
pub mod declares;
mod errors;
pub mod functions;
pub mod items;
pub mod lists;
pub mod names;
pub mod origins;
pub mod places;
pub mod queries;
pub mod scope;
pub mod setup;
pub mod tables;
mod texts;

pub use errors::{LimitKind, SetupError};
