//! The statements of a text, one at a time, from a source that gives its bytes in any portions.
//!
//! Pieces are a function of the bytes alone: where the reads cut them makes no difference.
#![tactic(auto)]

mod begun;
mod cuts;
mod errors;
mod readers;
mod rooms;
mod texts;

pub use errors::ReadError;
pub use readers::Pieces;
pub use strip_value::Piece;
pub use texts::{PieceList, all_statements};

#[cfg(test)]
mod tests;
