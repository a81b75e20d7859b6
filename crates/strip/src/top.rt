//! The program, but for what it stands on: the words, the input, the files, the output and the clock are given.
ghost use Rattle.std.specs.Prelude.{◌≡◌, ◌==◌, true, false, not, IfOk};
ghost use Rattle.strip_outside.specs.Faults.{Rose};
ghost use Rattle.strip_script.specs.Runs.{Counts, Runs};
ghost use Rattle.strip_script.specs.Shown.{QuietShowsAreQueries};
ghost use Rattle.strip.specs.Statuses.{RanScript, asks_script, most_bytes, status_of};

use std::alloc::Global;
use std::sync::Wait;
use std::thread::Threads;
use strip_outside::{Clock, Files, Sink, Source, WorkGate};
use strip_script::{Ended, Limits, RunError, run_script};

/// The most bytes of a source.
const MOST_BYTES: u64 = 134_217_728;

/// The most rows that may be bound in the life of an engine.
const MOST_BOUND_ROWS: u64 = 1 << 60;

fn is_script(words: &[String]) -> bool
    ensures { result ≡ asks_script words.now }
{
    match words {
        [word] => word.as_str() == "script",
        _ => false,
    }
}

fn status(ran: &Result<Ended, RunError>) -> u8
    ensures { result ≡ status_of ran.now }
{
    match ran {
        Ok(ended) if ended.refused => 1,
        Ok(_ended) => 0,
        Err(RunError::Read) => 3,
        Err(RunError::Write) => 4,
        Err(RunError::Memory) => 5,
        Err(RunError::TooMuch { limit: _ }) => 7,
    }
}

/// Does what the words ask for and answers the status to end with:
///
/// - 0: the input was read to its end and answered, and nothing was refused.
/// - 1: the same, and something was refused.
/// - 2: the words ask for nothing that there is. Nothing was read or written.
/// - 3: a read failed.
/// - 4: a write failed. What was written is a beginning of the answer.
/// - 5: memory was wanting.
/// - 7: the input has more bytes than a source may have.
pub fn top<
    R: Threads + Wait + Sync,
    S: Source,
    F: Files,
    K: Sink,
    C: Clock + Sync,
    G: WorkGate + Sync,
>(
    _rt: &R,
    alloc: Global,
    words: &[String],
    input: &mut S,
    _files: &mut F,
    out: &mut K,
    _clock: &C,
    _gate: &G,
) -> u8
    ensures form { (result == 2) ≡ not (asks_script words.now) }
    ensures nothing { result ≡ 2 → (input.new ≡ input.old) × (out.new ≡ out.old) }
    ensures script { asks_script words.now ≡ true → RanScript (S.left input.old) (S.left input.new) (S.faults input.old) (S.faults input.new)
        (K.written out.old) (K.written out.new) (K.faults out.old) (K.faults out.new) result }
    ensures read { result ≡ 3 → Rose (S.faults input.old) (S.faults input.new) }
    ensures write { result ≡ 4 → Rose (K.faults out.old) (K.faults out.new) }
    ensures files { _files.new ≡ _files.old }
    ensures quiet { QuietShowsAreQueries }
{
    if !is_script(words) {
        return 2;
    }
    let limits = Limits {
        bound_rows: MOST_BOUND_ROWS,
    };
    status(&run_script(alloc, input, out, MOST_BYTES, limits))
}
