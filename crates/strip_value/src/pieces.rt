use crate::copies::Duplicate;
use crate::items::Bytes;
use std::alloc::{AllocError, Global};

/// A piece of a text: a statement between two `;`, or a line.
#[derive(Debug, Drop)]
pub enum Piece {
    /// A whole piece, without what ended it.
    Statement(Bytes),
    /// A piece that is longer than its limit and was skipped: the bytes before it, and its own number of bytes.
    TooLong { from: u64, length: u64 },
    /// What follows the last whole piece.
    Rest(Bytes),
    /// There is no more.
    End,
}

impl Duplicate for Piece {
    fn copy(&self, alloc: Global) -> Result<Piece, AllocError> {
        match self {
            Piece::Statement(bytes) => Ok(Piece::Statement(bytes.copy(alloc)?)),
            Piece::TooLong { from, length } => Ok(Piece::TooLong {
                from: *from,
                length: *length,
            }),
            Piece::Rest(bytes) => Ok(Piece::Rest(bytes.copy(alloc)?)),
            Piece::End => Ok(Piece::End),
        }
    }
}
