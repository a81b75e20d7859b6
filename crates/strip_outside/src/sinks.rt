ghost use Rattle.std.specs.Prelude.{ℕ, ◌≤◌, List, Option, length, IfOk, OnErr};
ghost use Rattle.strip_outside.specs.Bytes.{Writes, WritesAll};
ghost use Rattle.strip_outside.specs.Faults.{CountsWrite, Rose};

use crate::Fault;

/// Where bytes go to.
pub trait Sink {
    // The bytes written so far, where the sink tells them.
    ghost written: { Self → Option (List ℕ) };

    // How many writes have failed. At the greatest u64 the count stands still.
    ghost faults: { Self → ℕ };

    /// Writes some first bytes of the piece, and answers how many they are. `Ok(0)` of a piece
    /// that isn't empty is a fault too, and is counted as one.
    fn write(&mut self, piece: &[u8]) -> Result<usize, Fault>
        ensures within_piece { IfOk result (λ n. n ≤ length piece.now) }
        ensures never_falls { faults self.old ≤ faults self.new }
        ensures counted { CountsWrite (faults self.old) (faults self.new) piece.now result }
        ensures bytes { Writes (written self.old) (written self.new) piece.now result };
}

/// Writes the whole piece, in as many writes as the sink needs. At a fault some first bytes of it
/// may have been written.
pub fn write_all<K: Sink>(out: &mut K, piece: &[u8]) -> Result<(), Fault>
    ensures never_falls { K.faults out.old ≤ K.faults out.new }
    ensures counted { OnErr result (Rose (K.faults out.old) (K.faults out.new)) }
    ensures bytes { WritesAll (K.written out.old) (K.written out.new) piece.now result }
{
    let mut at = 0;
    while at < piece.len() {
        match out.write(&piece[at..]) {
            Ok(0) => return Err(Fault),
            Ok(taken) => at += taken,
            Err(fault) => return Err(fault),
        }
    }
    Ok(())
}
