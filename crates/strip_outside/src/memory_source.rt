use crate::faults::count_up;
use crate::{Fault, Source};
use std::marker::Model;

/// A source of given bytes, for tests and for input that is in memory already.
#[derive(Drop)]
pub struct MemorySource {
    bytes: Vec<u8>,
    at: usize,
    cut: u64,
    failing: Vec<u64>,
    calls: u64,
    faults: u64,
}

impl Model for MemorySource {
    ghost use Rattle.std.specs.Prelude.{drop, length, ◌≤◌};
    ghost use Rattle.strip_outside.specs.Memory.{SourceState};

    ghost Value = { SourceState };

    ghost view = { λ s. record {
      left = drop s.at s.bytes.items;
      faults = s.faults;
      calls = s.calls;
      cut = s.cut;
      failing = s.failing.items;
    } };

    ghost invariant = { λ s. s.at ≤ length s.bytes.items };
}

impl MemorySource {
    ghost use Rattle.std.specs.Prelude.{◌≡◌};

    /// A source that gives at most `cut` bytes at each read, and fails the reads that `failing`
    /// lists. Reads are numbered from 1, and a cut of 0 counts as 1.
    pub fn new(bytes: Vec<u8>, cut: u64, failing: Vec<u64>) -> MemorySource
        ensures { result
            ≡ record { left = bytes.items; faults = 0; calls = 0; cut = cut; failing = failing.items } }
    {
        MemorySource {
            bytes,
            at: 0,
            cut,
            failing,
            calls: 0,
            faults: 0,
        }
    }

    /// The bytes still to come.
    pub fn left(&self) -> &[u8]
        ensures { result.now ≡ self.now.left }
    {
        &self.bytes[self.at..]
    }

    /// How many reads have failed.
    pub fn faults(&self) -> u64
        ensures { result ≡ self.now.faults }
    {
        self.faults
    }

    /// How many reads were made, the failed ones among them.
    pub fn calls(&self) -> u64
        ensures { result ≡ self.now.calls }
    {
        self.calls
    }
}

impl Source for MemorySource {
    ghost use Rattle.std.specs.Prelude.{Some, ◌≤◌, length, IfOk};
    ghost use Rattle.strip_outside.specs.Bytes.{Reads};
    ghost use Rattle.strip_outside.specs.Faults.{CountsFault};
    ghost use Rattle.strip_outside.specs.Memory.{MemoryRead};

    ghost left = { λ s. Some s.left };

    ghost faults = { λ s. s.faults };

    fn read(&mut self, into: &mut [u8]) -> Result<usize, Fault>
        ensures within_room { IfOk result (λ n. n ≤ length into.old) }
        ensures never_falls { self.old.faults ≤ self.new.faults }
        ensures counted { CountsFault self.old.faults self.new.faults result }
        ensures bytes { Reads (Some self.old.left) (Some self.new.left) into.new result }
        ensures exactly { MemoryRead self.old self.new (length into.old) result }
    {
        count_up(&mut self.calls);
        if self.failing.contains(&self.calls) {
            count_up(&mut self.faults);
            return Err(Fault);
        }
        let given = copy_front(&self.bytes[self.at..], into, self.cut.max(1) as usize);
        self.at += given;
        Ok(given)
    }
}

ghost use Rattle.std.specs.Prelude.{◌≡◌, ◌++◌, min, length, take, drop};

// Copies as many first bytes as the limit, the bytes and the room allow.
fn copy_front(from: &[u8], into: &mut [u8], limit: usize) -> usize
    ensures count { result ≡ min limit (min (length into.old) (length from.now)) }
    ensures copied { take result into.new ≡ take result from.now }
    ensures rest { drop result into.new ≡ drop result into.old }
{
    let count = limit.min(into.len()).min(from.len());
    into[..count].copy_from_slice(&from[..count]);
    count
}
