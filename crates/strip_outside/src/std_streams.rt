use crate::faults::count_up;
use crate::{Fault, Sink, Source};
use std::io::{self, Read, Write};
use std::marker::Model;

/// A source over a reader of the standard library, as a file or the standard input. It tells
/// nothing of the bytes.
#[derive(Drop)]
pub struct StdSource<R: Read> {
    reader: R,
    faults: u64,
}

// A clause sees the source as its count of faults.
impl<R: Read> Model for StdSource<R> {
    ghost use Rattle.std.specs.Prelude.{ℕ};

    ghost Value = { ℕ };

    ghost view = { λ s. s.faults };
}

impl<R: Read> StdSource<R> {
    ghost use Rattle.std.specs.Prelude.{◌≡◌};

    /// A source that gives what the reader gives. Each error of the reader is a fault.
    pub fn new(reader: R) -> StdSource<R>
        ensures { result ≡ 0 }
    {
        StdSource { reader, faults: 0 }
    }

    /// How many reads have failed.
    pub fn faults(&self) -> u64
        ensures { result ≡ self.now }
    {
        self.faults
    }
}

impl<R: Read> Source for StdSource<R> {
    ghost use Rattle.std.specs.Prelude.{None};

    ghost left = { λ _. None };

    ghost faults = { λ s. s };

    fn read(&mut self, into: &mut [u8]) -> Result<usize, Fault> {
        match self.reader.read(into) {
            Ok(given) => Ok(given),
            Err(_) => {
                count_up(&mut self.faults);
                Err(Fault)
            }
        }
    }
}

/// A sink over a writer of the standard library, as a file or the standard output. It flushes
/// after each write, and tells nothing of the bytes.
#[derive(Drop)]
pub struct StdSink<W: Write> {
    writer: W,
    faults: u64,
}

// A clause sees the sink as its count of faults.
impl<W: Write> Model for StdSink<W> {
    ghost use Rattle.std.specs.Prelude.{ℕ};

    ghost Value = { ℕ };

    ghost view = { λ s. s.faults };
}

impl<W: Write> StdSink<W> {
    ghost use Rattle.std.specs.Prelude.{◌≡◌};

    /// A sink that writes to the writer. Each error of the writer is a fault, one of a flush too,
    /// though the bytes before it may have been taken.
    pub fn new(writer: W) -> StdSink<W>
        ensures { result ≡ 0 }
    {
        StdSink { writer, faults: 0 }
    }

    /// How many writes have failed, those that took nothing of a piece among them.
    pub fn faults(&self) -> u64
        ensures { result ≡ self.now }
    {
        self.faults
    }
}

impl<W: Write> Sink for StdSink<W> {
    ghost use Rattle.std.specs.Prelude.{None};

    ghost written = { λ _. None };

    ghost faults = { λ s. s };

    fn write(&mut self, piece: &[u8]) -> Result<usize, Fault> {
        match write_and_flush(&mut self.writer, piece) {
            Ok(taken) => {
                if taken == 0 && !piece.is_empty() {
                    count_up(&mut self.faults);
                }
                Ok(taken)
            }
            Err(_) => {
                count_up(&mut self.faults);
                Err(Fault)
            }
        }
    }
}

ghost use Rattle.std.specs.Prelude.{IfOk, ◌≤◌, length};

// One write, and the flush after it.
fn write_and_flush<W: Write>(writer: &mut W, piece: &[u8]) -> io::Result<usize>
    ensures { IfOk result (λ taken. taken ≤ length piece.now) }
{
    let taken = writer.write(piece)?;
    writer.flush()?;
    Ok(taken)
}
