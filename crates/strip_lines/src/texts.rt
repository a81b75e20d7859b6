ghost use Rattle.std.specs.Prelude.{ℕ};
ghost use Rattle.strip_lines.specs.Texts.{ReadsAll};

use crate::{Pieces, ReadError};
use std::alloc::Global;
use strip_outside::Source;
use strip_value::{Items, Piece};

/// The pieces of a text, in order.
pub type PieceList = Items<Piece>;

/// Reads a source to its end. After an error what was read is let go.
pub fn all_statements<S: Source>(
    alloc: Global,
    source: &mut S,
    limit: u64,
) -> Result<PieceList, ReadError>
    ensures { ReadsAll limit (S.left source.old) (S.left source.new) (S.faults source.old) (S.faults source.new) result }
{
    let mut reader = Pieces::new(alloc, limit);
    let mut list = Items::new(alloc);
    'reading: loop {
        let piece = match reader.next_statement(source) {
            Ok(piece) => piece,
            Err(error) => return Err(error),
        };
        match piece {
            Piece::End => return Ok(list),
            piece => {
                let Ok(()) = list.push(piece) else {
                    return Err(ReadError::Memory);
                };
            }
        }
    }
}
