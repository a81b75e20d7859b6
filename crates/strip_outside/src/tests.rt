use crate::{
    Clock, Fault, Files, FreeGate, HostClock, HostFiles, MemorySink, MemorySource, OpenError, Sink,
    Source, StdSink, StdSource, WorkGate, write_all,
};
use std::alloc::{AllocError, Global};
use std::io::{self, ErrorKind};
use std::test::Fail;

// What ten reads of at most three bytes each give together.
#[derive(Drop)]
struct Seen {
    bytes: Vec<u8>,
    failed: u64,
    ended: bool,
}

fn read_on<S: Source>(alloc: Global, source: &mut S) -> Result<Seen, AllocError> {
    let mut bytes = Vec::new(alloc);
    let mut failed = 0u64;
    let mut ended = false;
    for _ in 0..10 {
        let mut room = [0u8; 3];
        match source.read(&mut room) {
            Ok(given) => {
                bytes.extend_from_slice(&room[..given])?;
                ended = given == 0;
            }
            Err(Fault) => {
                failed = failed.saturating_add(1);
                ended = false;
            }
        }
    }
    Ok(Seen {
        bytes,
        failed,
        ended,
    })
}

// One source of seven bytes: its cut, the reads that fail, what ten reads give, how many of them
// fail, and whether the last one found the end.
#[test]
fn a_memory_source_gives_its_bytes_in_pieces(rt: HostRuntime) -> Result<(), Fail> {
    let cases: [(u64, &[u64], &[u8], u64, bool); 7] = [
        (0, &[], b"abcdefg", 0, true),
        (1, &[], b"abcdefg", 0, true),
        (2, &[], b"abcdefg", 0, true),
        (3, &[2, 3], b"abcdefg", 2, true),
        (1000, &[1, 10], b"abcdefg", 2, false),
        (1, &[1, 2, 3, 4, 5], b"abcde", 5, false),
        (2, &[0, 11], b"abcdefg", 0, true),
    ];
    for (cut, failing, bytes, failed, ended) in cases {
        let content = b"abcdefg".to_vec(rt.alloc())?;
        let mut source = MemorySource::new(content, cut, failing.to_vec(rt.alloc())?);
        let seen = read_on(rt.alloc(), &mut source)?;
        assert_eq!(rt; seen.bytes.as_slice(), bytes, "cut {cut}");
        assert_eq!(rt; seen.failed, failed, "cut {cut}");
        assert_eq!(rt; seen.ended, ended, "cut {cut}");
        assert_eq!(rt; source.faults(), failed, "cut {cut}");
        assert_eq!(rt; source.calls(), 10, "cut {cut}");
        assert_eq!(rt; source.left().len(), 7 - bytes.len(), "cut {cut}");
    }
    Ok(())
}

// One sink: its cut, the writes that fail, those that take nothing, whether the whole of seven
// bytes is written, what is written, and how many writes were made and failed.
#[test]
fn a_memory_sink_takes_a_piece_in_parts(rt: HostRuntime) -> Result<(), Fail> {
    let cases: [(u64, &[u64], &[u64], bool, &[u8], u64, u64); 8] = [
        (0, &[], &[], true, b"abcdefg", 7, 0),
        (1, &[], &[], true, b"abcdefg", 7, 0),
        (2, &[5], &[5], true, b"abcdefg", 4, 0),
        (3, &[3], &[], false, b"abcdef", 3, 1),
        (3, &[], &[2], false, b"abc", 2, 1),
        (2, &[2], &[2], false, b"ab", 2, 1),
        (1000, &[], &[], true, b"abcdefg", 1, 0),
        (1000, &[1], &[], false, b"", 1, 1),
    ];
    for (cut, failing, still, whole, bytes, calls, failed) in cases {
        let failing = failing.to_vec(rt.alloc())?;
        let still = still.to_vec(rt.alloc())?;
        let mut sink = MemorySink::new(rt.alloc(), cut, failing, still);
        assert_eq!(rt;
            write_all(&mut sink, b"abcdefg").is_ok(),
            whole,
            "cut {cut}"
        );
        assert_eq!(rt; sink.written(), bytes, "cut {cut}");
        assert_eq!(rt; sink.calls(), calls, "cut {cut}");
        assert_eq!(rt; sink.faults(), failed, "cut {cut}");
    }
    Ok(())
}

#[test]
fn an_empty_piece_is_no_fault(rt: HostRuntime) -> Result<(), Fail> {
    let still = [1u64].to_vec(rt.alloc())?;
    let mut sink = MemorySink::new(rt.alloc(), 1, Vec::new(rt.alloc()), still);
    assert_eq!(rt; sink.write(b""), Ok(0));
    assert_eq!(rt; write_all(&mut sink, b""), Ok(()));
    assert_eq!(rt; sink.faults(), 0);
    assert_eq!(rt; sink.calls(), 1);
    Ok(())
}

// A pipe of the machine: what a sink over one end takes, a source over the other end gives.
#[test]
fn the_adapters_work_over_a_pipe(rt: HostRuntime) -> Result<(), Fail> {
    let (reader, writer) = io::pipe(&rt)?;
    let mut source = StdSource::new(reader);
    let mut sink = StdSink::new(writer);
    assert_eq!(rt; write_all(&mut sink, b"one two"), Ok(()));
    assert_eq!(rt; sink.faults(), 0);
    drop(sink);
    let seen = read_on(rt.alloc(), &mut source)?;
    assert_eq!(rt; seen.bytes.as_slice(), b"one two".as_slice());
    assert_eq!(rt; seen.failed, 0);
    assert!(rt; seen.ended);
    assert_eq!(rt; source.faults(), 0);
    Ok(())
}

// A reader and writer whose calls fail as it is told, and else move one byte.
#[derive(Drop)]
struct Uneasy {
    read_fails: bool,
    write_takes: usize,
    flush_fails: bool,
}

impl io::Read for Uneasy {
    fn read(&mut self, _buf: &mut [u8]) -> io::Result<usize> {
        if self.read_fails {
            return Err(io::Error::from(ErrorKind::TimedOut));
        }
        Ok(0)
    }
}

impl io::Write for Uneasy {
    fn write(&mut self, buf: &[u8]) -> io::Result<usize> {
        Ok(self.write_takes.min(buf.len()))
    }

    fn flush(&mut self) -> io::Result<()> {
        if self.flush_fails {
            return Err(io::Error::from(ErrorKind::TimedOut));
        }
        Ok(())
    }
}

fn make_uneasy(read_fails: bool, write_takes: usize, flush_fails: bool) -> Uneasy {
    Uneasy {
        read_fails,
        write_takes,
        flush_fails,
    }
}

#[test]
fn the_adapters_count_each_failure_once(rt: HostRuntime) {
    let mut source = StdSource::new(make_uneasy(true, 0, false));
    let mut room = [0u8; 2];
    assert_eq!(rt; source.read(&mut room), Err(Fault));
    assert_eq!(rt; source.read(&mut room), Err(Fault));
    assert_eq!(rt; source.faults(), 2);

    let cases = [
        (1, false, Ok(1), 0),
        (1, true, Err(Fault), 1),
        (0, false, Ok(0), 1),
        (0, true, Err(Fault), 1),
    ];
    for (takes, flush_fails, answer, faults) in cases {
        let mut sink = StdSink::new(make_uneasy(false, takes, flush_fails));
        assert_eq!(rt;
            sink.write(b"ab"),
            answer,
            "takes {takes}, flush fails: {flush_fails}"
        );
        assert_eq!(rt;
            sink.faults(),
            faults,
            "takes {takes}, flush fails: {flush_fails}"
        );
    }
}

#[test]
fn no_file_of_the_machine_opens_yet(rt: HostRuntime) {
    let mut files = HostFiles::new();
    for count in 1..4u64 {
        match files.open_feed("notes.txt") {
            Ok(feed) => {
                files.take_back(feed);
                assert!(rt; false, "a file was opened");
            }
            Err(error) => assert_eq!(rt; error, OpenError::Fault),
        }
        assert_eq!(rt; files.faults(), count);
    }
}

#[test]
fn the_clock_begins_near_zero_and_the_gate_is_free(rt: HostRuntime) -> Result<(), Fail> {
    let clock = HostClock::new(rt.clone()?);
    let first = clock.now();
    FreeGate.pass(7);
    FreeGate.done(7);
    assert!(rt; first < 60_000);
    assert!(rt; first <= clock.now());
    Ok(())
}
