//! A script from a source to a sink.
ghost use Rattle.std.specs.Prelude.{◌≡◌, ◌≤◌, ◌^◌};
ghost use Rattle.strip_script.specs.Runs.{Counts, Runs, run_error};

use crate::script::{Script, opening};
use std::alloc::Global;
use strip_engine::Limits;
use strip_lines::{Piece, Pieces, ReadError};
use strip_outside::{Sink, Source, write_all};

/// A script that was read to its end and answered.
#[derive(Clone, Copy, Debug, PartialEq, Eq)]
pub struct Ended {
    /// Whether some reply is a refusal.
    pub refused: bool,
}

/// Why a script wasn't answered to its end.
#[derive(Debug, Drop)]
pub enum RunError {
    /// A write failed.
    Write,
    /// A read failed.
    Read,
    /// The source has more bytes than the limit.
    TooMuch { limit: u64 },
    Memory,
}

/// Answers the statements of the source one after another: each reply is written whole before the next statement is asked
/// for.
pub fn run_script<S: Source, K: Sink>(
    alloc: Global,
    source: &mut S,
    out: &mut K,
    limit: u64,
    limits: Limits,
) -> Result<Ended, RunError>
    requires { limits.bound_rows ≤ 2 ^ 60 }
    ensures run { Runs limits.bound_rows limit (S.left source.old) (S.left source.new) (K.written out.old) (K.written out.new) result }
    ensures counts { Counts (S.faults source.old) (S.faults source.new) (K.faults out.old) (K.faults out.new) result }
{
    let mut reader = Pieces::new(alloc, limit);
    let mut script = Script::at(opening(alloc, limits));
    let mut refused = false;
    'run: loop {
        let piece = match reader.next_statement(source) {
            Ok(piece) => piece,
            Err(error) => return Err(error_of(error)),
        };
        match piece {
            Piece::End => return Ok(Ended { refused }),
            piece => {
                let Ok(said) = script.answer(alloc, piece) else {
                    return Err(RunError::Memory);
                };
                let Ok(()) = write_all(out, said.text.as_slice()) else {
                    return Err(RunError::Write);
                };
                refused |= said.refused;
            }
        }
    }
}

fn error_of(error: ReadError) -> RunError
    ensures { result ≡ run_error error }
{
    match error {
        ReadError::Fault => RunError::Read,
        ReadError::TooMuch { limit } => RunError::TooMuch { limit },
        ReadError::Memory => RunError::Memory,
    }
}
