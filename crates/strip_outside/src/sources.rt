ghost use Rattle.std.specs.Prelude.{ℕ, ◌≤◌, List, Option, length, IfOk};
ghost use Rattle.strip_outside.specs.Bytes.{Reads};
ghost use Rattle.strip_outside.specs.Faults.{CountsFault};

use crate::Fault;

/// Where bytes come from.
pub trait Source {
    // The bytes still to come, where the source tells them.
    ghost left: { Self → Option (List ℕ) };

    // How many reads have failed. At the greatest u64 the count stands still.
    ghost faults: { Self → ℕ };

    /// Reads the next bytes into the beginning of the room, and answers how many they are. `Ok(0)`
    /// for a room that isn't empty is the end. What stands in the room behind the bytes given is
    /// left open.
    fn read(&mut self, into: &mut [u8]) -> Result<usize, Fault>
        ensures within_room { IfOk result (λ n. n ≤ length into.old) }
        ensures never_falls { faults self.old ≤ faults self.new }
        ensures counted { CountsFault (faults self.old) (faults self.new) result }
        ensures bytes { Reads (left self.old) (left self.new) into.new result };
}
