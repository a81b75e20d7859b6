use crate::faults::count_up;
use crate::{Fault, Sink};
use std::alloc::Global;
use std::marker::Model;

/// A sink that keeps what is written to it in memory.
#[derive(Drop)]
pub struct MemorySink {
    written: Vec<u8>,
    cut: u64,
    failing: Vec<u64>,
    still: Vec<u64>,
    calls: u64,
    faults: u64,
}

impl Model for MemorySink {
    ghost use Rattle.strip_outside.specs.Memory.{SinkState};

    ghost Value = { SinkState };

    ghost view = { λ s. record {
      written = s.written.items;
      faults = s.faults;
      calls = s.calls;
      cut = s.cut;
      failing = s.failing.items;
      still = s.still.items;
    } };
}

impl MemorySink {
    ghost use Rattle.std.specs.Prelude.{◌≡◌, []};

    /// An empty sink that takes at most `cut` bytes at each write, fails the writes that `failing`
    /// lists, and takes nothing at those that `still` lists. Writes are numbered from 1, a cut of
    /// 0 counts as 1, and a write that both lists name fails.
    pub fn new(alloc: Global, cut: u64, failing: Vec<u64>, still: Vec<u64>) -> MemorySink
        ensures { result
            ≡ record {
              written = [];
              faults = 0;
              calls = 0;
              cut = cut;
              failing = failing.items;
              still = still.items;
            } }
    {
        MemorySink {
            written: Vec::new(alloc),
            cut,
            failing,
            still,
            calls: 0,
            faults: 0,
        }
    }

    /// The bytes written so far.
    pub fn written(&self) -> &[u8]
        ensures { result.now ≡ self.now.written }
    {
        self.written.as_slice()
    }

    /// How many writes have failed.
    pub fn faults(&self) -> u64
        ensures { result ≡ self.now.faults }
    {
        self.faults
    }

    /// How many writes were made, the failed ones among them.
    pub fn calls(&self) -> u64
        ensures { result ≡ self.now.calls }
    {
        self.calls
    }
}

impl Sink for MemorySink {
    ghost use Rattle.std.specs.Prelude.{Some, ◌≤◌, length, IfOk};
    ghost use Rattle.strip_outside.specs.Bytes.{Writes};
    ghost use Rattle.strip_outside.specs.Faults.{CountsWrite};
    ghost use Rattle.strip_outside.specs.Memory.{MemoryWrite};

    ghost written = { λ s. Some s.written };

    ghost faults = { λ s. s.faults };

    fn write(&mut self, piece: &[u8]) -> Result<usize, Fault>
        ensures within_piece { IfOk result (λ n. n ≤ length piece.now) }
        ensures never_falls { self.old.faults ≤ self.new.faults }
        ensures counted { CountsWrite self.old.faults self.new.faults piece.now result }
        ensures bytes { Writes (Some self.old.written) (Some self.new.written) piece.now result }
        ensures exactly { MemoryWrite self.old self.new piece.now result }
    {
        count_up(&mut self.calls);
        if self.failing.contains(&self.calls) {
            count_up(&mut self.faults);
            return Err(Fault);
        }
        let limit = if self.still.contains(&self.calls) {
            0
        } else {
            self.cut.max(1) as usize
        };
        let taken = limit.min(piece.len());
        if taken == 0 && !piece.is_empty() {
            count_up(&mut self.faults);
            return Ok(0);
        }
        if self.written.extend_from_slice(&piece[..taken]).is_err() {
            count_up(&mut self.faults);
            return Err(Fault);
        }
        Ok(taken)
    }
}
