use std::marker::Model;
use strip_outside::{Fault, Source};

const SIZE: usize = 4096;

/// Bytes that were taken and not looked at yet.
#[derive(Drop)]
pub(crate) struct Room {
    bytes: [u8; SIZE],
    at: usize,
    end: usize,
}

impl Model for Room {
    ghost use Rattle.std.specs.Prelude.{ℕ, ◌-◌, ◌≤◌, List, take, drop};

    ghost Value = { List ℕ };

    ghost view = { λ r. take (r.end - r.at) (drop r.at r.bytes) };

    ghost invariant = { λ r. (r.at ≤ r.end) × (r.end ≤ 4096) };
}

impl Room {
    ghost use Rattle.std.specs.Prelude.{◌≡◌, ◌≤◌, [], length, drop};
    ghost use Rattle.strip_lines.specs.Steps.{Fills};

    pub(crate) fn new() -> Room
        ensures { result ≡ [] }
    {
        Room {
            bytes: [0; SIZE],
            at: 0,
            end: 0,
        }
    }

    pub(crate) fn as_slice(&self) -> &[u8]
        ensures { result.now ≡ self.now }
    {
        &self.bytes[self.at..self.end]
    }

    pub(crate) fn skip(&mut self, count: usize)
        requires { count ≤ length self.old }
        ensures { self.new ≡ drop count self.old }
    {
        self.at += count;
    }

    pub(crate) fn clear(&mut self)
        ensures { self.new ≡ [] }
    {
        self.at = 0;
        self.end = 0;
    }

    // Reads into the empty room, at most so many bytes.
    pub(crate) fn fill<S: Source>(&mut self, source: &mut S, most: u64) -> Result<usize, Fault>
        ensures { Fills self.new most (S.left source.old) (S.left source.new) (S.faults source.old) (S.faults source.new) result }
    {
        self.at = 0;
        self.end = 0;
        let size = most.min(SIZE as u64) as usize;
        let given = source.read(&mut self.bytes[..size])?;
        self.end = given;
        Ok(given)
    }
}
