use std::alloc::{AllocError, Global};
use std::marker::Model;
use std::mem;
use strip_value::{Items, Piece};

const LONGEST: usize = 65_536;

/// A segment that has begun. Its bytes are kept as far as a statement can be long.
#[derive(Drop)]
pub(crate) struct Begun {
    from: u64,
    kept: Vec<u8>,
    skipped: u64,
    quoted: bool,
}

impl Model for Begun {
    ghost use Rattle.std.specs.Prelude.{◌≡◌, ◌<◌, ◌≤◌, ◌++◌, length, replicate};
    ghost use Rattle.strip_lines.specs.Reading.{Segment};

    ghost Value = { Segment };

    ghost view = { λ b. record { from = b.from; bytes = b.kept.items ++ replicate b.skipped 0; quoted = b.quoted } };

    ghost invariant = { λ b. (length b.kept.items ≤ 65536) × (0 < b.skipped → length b.kept.items ≡ 65536) };
}

impl Begun {
    ghost use Rattle.std.specs.Prelude.{◌≡◌, ℕ, ◌+◌, ◌^◌, ◌<◌, [], ◌∷◌, ◌++◌, false, length, OnOk, OnErr};
    ghost use Rattle.strip_lines.specs.Steps.{IsLike, IsLast, IsWhole, told};
    ghost use Rattle.strip_value.specs.Pieces.{whole_piece, last_pieces};

    // The first segment of a source.
    pub(crate) fn new(alloc: Global) -> Begun
        ensures { result ≡ record { from = 0; bytes = []; quoted = false } }
    {
        Begun {
            from: 0,
            kept: Vec::new(alloc),
            skipped: 0,
            quoted: false,
        }
    }

    pub(crate) fn is_quoted(&self) -> bool
        ensures { result ≡ self.now.quoted }
    {
        self.quoted
    }

    // Adds bytes to the segment; behind them quotes are open or not.
    pub(crate) fn go_on(&mut self, bytes: &[u8], quoted: bool) -> Result<(), AllocError>
        requires { length self.old.bytes + length bytes.now < 2 ^ 64 }
        ensures from { self.new.from ≡ self.old.from }
        ensures grown { OnOk result (IsLike (self.old.bytes ++ bytes.now) self.new.bytes) }
        ensures quoted { OnOk result (self.new.quoted ≡ quoted) }
        ensures err { OnErr result (self.new ≡ self.old) }
    {
        let kept = bytes.len().min(LONGEST - self.kept.len());
        self.kept.extend_from_slice(&bytes[..kept])?;
        self.skipped += (bytes.len() - kept) as u64;
        self.quoted = quoted;
        Ok(())
    }

    // A `;` ends the segment, and the next one begins behind it.
    pub(crate) fn end(&mut self, alloc: Global) -> Piece
        requires { self.old.from + length self.old.bytes + 1 < 2 ^ 64 }
        ensures piece { result ≡ whole_piece self.old.from self.old.bytes }
        ensures whole { IsWhole result }
        ensures next { self.new ≡ record { from = self.old.from + length self.old.bytes + 1; bytes = []; quoted = false } }
    {
        let from = self.from;
        let length = self.kept.len() as u64 + self.skipped;
        let skipped = self.skipped;
        let kept = mem::replace(&mut self.kept, Vec::new(alloc));
        self.from = from + length + 1;
        self.skipped = 0;
        self.quoted = false;
        if skipped > 0 {
            return Piece::TooLong { from, length };
        }
        Piece::Statement(Items::from_vec(kept))
    }

    // The source has ended, and with it the segment.
    pub(crate) fn last(&mut self, alloc: Global) -> Piece
        requires { self.old.from + length self.old.bytes < 2 ^ 64 }
        ensures piece { told result ≡ last_pieces self.old.from self.old.bytes }
        ensures last { IsLast result }
        ensures next { self.new ≡ record self.old { bytes = [] } }
    {
        let length = self.kept.len() as u64 + self.skipped;
        let skipped = self.skipped;
        let kept = mem::replace(&mut self.kept, Vec::new(alloc));
        self.skipped = 0;
        if skipped > 0 {
            return Piece::TooLong {
                from: self.from,
                length,
            };
        }
        if is_all_blank(kept.as_slice()) {
            return Piece::End;
        }
        Piece::Rest(Items::from_vec(kept))
    }
}

ghost use Rattle.std.specs.Prelude.{◌≡◌};
ghost use Rattle.std.specs.List.{list_all};
ghost use Rattle.strip_value.specs.Pieces.{is_blank};

fn is_all_blank(bytes: &[u8]) -> bool
    ensures { result ≡ list_all is_blank bytes.now }
{
    bytes
        .iter()
        .all(|byte| matches!(*byte, b' ' | b'\t' | b'\r' | b'\n'))
}
