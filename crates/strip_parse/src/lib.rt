//! The parser of strip: text to trees.
#![tactic(auto)]

mod cursor;
mod deeds;
mod exactness;
mod expressions;
mod lists;
mod parsing;
mod queries;
mod rules;
mod setup;
mod statements;
mod stops;
mod words;

pub use exactness::{prints_itself, reads_exactly};
pub use parsing::parse;
