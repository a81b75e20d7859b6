use crate::ReadError;
use crate::begun::Begun;
use crate::cuts::cut;
use crate::rooms::Room;
use std::alloc::{AllocError, Global};
use std::marker::Model;
use strip_outside::{Fault, Source};
use strip_value::Piece;

/// Reads the statements of a source, one at a time. It holds no more than one statement and a few
/// kilobytes that were read ahead.
#[derive(Drop)]
pub struct Pieces {
    alloc: Global,
    room: Room,
    begun: Begun,
    limit: u64,
    taken: u64,
    over: bool,
    done: bool,
}

impl Model for Pieces {
    ghost use Rattle.std.specs.Prelude.{◌+◌, ◌≤◌, length, if◌then◌else◌};
    ghost use Rattle.strip_lines.specs.Reading.{Reading};

    ghost Value = { Reading };

    ghost view = { λ p. record {
      limit = p.limit;
      taken = (if p.over then p.limit + 1 else p.taken);
      begun = p.begun;
      waiting = p.room;
      done = p.done;
    } };

    ghost invariant = { λ p.
        (p.begun.from + length p.begun.bytes + length p.room ≤ p.taken) × (p.taken ≤ p.limit) };
}

impl Pieces {
    ghost use Rattle.std.specs.Prelude.{◌≡◌, ℕ, ◌<◌, ◌≤◌, List, [], true, false, Ok, Err};
    ghost use Rattle.strip_value.specs.declared.pieces.Piece.TheVariants.{End};
    ghost use Rattle.strip_value.specs.Pieces.{pieces, last_pieces};
    ghost use Rattle.strip_lines.specs.declared.errors.ReadError.TheVariants.{TooMuch};
    ghost use Rattle.strip_lines.specs.Reading.{fresh, coming};
    ghost use Rattle.strip_lines.specs.Steps.{Cuts, Takes, IsLast, told};
    ghost use Rattle.strip_lines.specs.Answers.{Outcome, AnswersAgain};

    /// A reader that takes at most `limit` bytes from its source, and one more to see that there
    /// are more.
    pub fn new(alloc: Global, limit: u64) -> Pieces
        ensures fresh { result ≡ fresh limit }
        ensures all_to_come { (bytes : List ℕ) → coming result bytes ≡ pieces bytes }
    {
        Pieces {
            alloc,
            room: Room::new(),
            begun: Begun::new(alloc),
            limit,
            taken: 0,
            over: false,
            done: false,
        }
    }

    /// The next statement without its `;`, which ends it outside a pair of `'`; behind the last `;`
    /// what is left, unless it is all blanks.
    ///
    /// The source is asked for no more bytes than the limit leaves, and for the one past the limit
    /// only where every whole piece among the bytes taken was answered.
    pub fn next_statement<S: Source>(&mut self, source: &mut S) -> Result<Piece, ReadError>
        ensures outcome { Outcome self.old self.new (S.left source.old) (S.left source.new)
            (S.faults source.old) (S.faults source.new) result }

        // After the end, and after a byte past the limit, every call answers the same.
        ensures stays_ended { self.old.taken ≤ self.old.limit → self.old.done ≡ true
            → AnswersAgain self.old self.new source.old source.new result (Ok End) }
        ensures stays_too_much { self.old.limit < self.old.taken
            → AnswersAgain self.old self.new source.old source.new result (Err (TooMuch self.old.limit)) }
    {
        if self.over {
            return Err(ReadError::TooMuch { limit: self.limit });
        }
        if self.done {
            return Ok(Piece::End);
        }
        self.read_on(source)
    }

    // Takes bytes until a piece is whole or the source is at its end.
    fn read_on<S: Source>(&mut self, source: &mut S) -> Result<Piece, ReadError>
        requires going { self.old.done ≡ false }
        requires within { self.old.taken ≤ self.old.limit }
        ensures { Outcome self.old self.new (S.left source.old) (S.left source.new)
            (S.faults source.old) (S.faults source.new) result }
    {
        'reading: loop {
            match self.look() {
                Ok(Some(piece)) => return Ok(piece),
                Ok(None) => {}
                Err(AllocError) => return Err(ReadError::Memory),
            }
            match self.take_more(source) {
                Ok(true) => {}
                Ok(false) => return Ok(self.finish()),
                Err(error) => return Err(error),
            }
        }
    }

    // Looks for the next `;` among the bytes taken.
    fn look(&mut self) -> Result<Option<Piece>, AllocError>
        ensures same { self.new ≡ record self.old { begun = self.new.begun; waiting = self.new.waiting } }
        ensures cuts { Cuts self.old.begun self.new.begun self.old.waiting self.new.waiting result }
        ensures among { self.new.begun.from ≤ self.new.limit }
    {
        cut(self.alloc, &mut self.room, &mut self.begun)
    }

    // Takes the next bytes; where the limit is reached, the source may only be at its end.
    fn take_more<S: Source>(&mut self, source: &mut S) -> Result<bool, ReadError>
        requires looked { self.old.waiting ≡ [] }
        requires within { self.old.taken ≤ self.old.limit }
        ensures { Takes self.old self.new (S.left source.old) (S.left source.new)
            (S.faults source.old) (S.faults source.new) result }
    {
        if self.taken < self.limit {
            return match self.room.fill(source, self.limit - self.taken) {
                Ok(given) => {
                    self.taken += given as u64;
                    Ok(given > 0)
                }
                Err(Fault) => Err(ReadError::Fault),
            };
        }
        match is_at_end(source) {
            Ok(true) => Ok(false),
            Ok(false) => {
                self.over = true;
                Err(ReadError::TooMuch { limit: self.limit })
            }
            Err(Fault) => Err(ReadError::Fault),
        }
    }

    // The source is at its end.
    fn finish(&mut self) -> Piece
        ensures piece { told result ≡ last_pieces self.old.begun.from self.old.begun.bytes }
        ensures last { IsLast result }
        ensures done { self.new ≡ record self.old { begun = self.new.begun; done = true } }
    {
        self.done = true;
        self.begun.last(self.alloc)
    }
}

ghost use Rattle.strip_lines.specs.Steps.{TellsEnd};

// Asks for one byte, and tells whether the source is at its end.
fn is_at_end<S: Source>(source: &mut S) -> Result<bool, Fault>
    ensures { TellsEnd (S.left source.old) (S.left source.new) (S.faults source.old) (S.faults source.new) result }
{
    let mut byte = [0u8; 1];
    let given = source.read(&mut byte)?;
    Ok(given == 0)
}
