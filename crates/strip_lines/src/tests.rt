use crate::{Piece, PieceList, Pieces, ReadError, all_statements};
use std::alloc::{AllocError, Global};
use std::process::Abort;
use std::test::Fail;
use strip_outside::MemorySource;

// A piece that a test wants.
#[derive(Clone, Copy, Debug)]
enum Want {
    Statement(&'static [u8]),
    TooLong(u64, u64),
    Rest(&'static [u8]),
    End,
}

fn is_wanted(piece: &Piece, want: &Want) -> bool {
    match (piece, want) {
        (Piece::Statement(bytes), Want::Statement(text)) => bytes.as_slice() == *text,
        (Piece::TooLong { from, length }, Want::TooLong(at, count)) => {
            *from == *at && *length == *count
        }
        (Piece::Rest(bytes), Want::Rest(text)) => bytes.as_slice() == *text,
        (Piece::End, Want::End) => true,
        _ => false,
    }
}

fn are_wanted(list: &PieceList, wants: &[Want]) -> bool {
    list.len() == wants.len()
        && list
            .as_slice()
            .iter()
            .zip(wants)
            .all(|(piece, want)| is_wanted(piece, want))
}

fn source_of(
    alloc: Global,
    bytes: &[u8],
    cut: u64,
    failing: &[u64],
) -> Result<MemorySource, AllocError> {
    let bytes = bytes.to_vec(alloc)?;
    let failing = failing.to_vec(alloc)?;
    Ok(MemorySource::new(bytes, cut, failing))
}

// One text, and its pieces: whatever the cuts of the reads, they are the same.
#[test]
fn cuts_make_no_difference(rt: HostRuntime) -> Result<(), Fail> {
    let cases: [(&[u8], &[Want]); 7] = [
        (b"", &[]),
        (b" \t\r\n", &[]),
        (b"a", &[Want::Rest(b"a")]),
        (b"a;\n", &[Want::Statement(b"a")]),
        (b";;", &[Want::Statement(b""), Want::Statement(b"")]),
        (
            b"put t ('a;''b;'); show t;\n 'x;",
            &[
                Want::Statement(b"put t ('a;''b;')"),
                Want::Statement(b" show t"),
                Want::Rest(b"\n 'x;"),
            ],
        ),
        (
            b"'';'a';b c",
            &[
                Want::Statement(b"''"),
                Want::Statement(b"'a'"),
                Want::Rest(b"b c"),
            ],
        ),
    ];
    for (text, wants) in cases {
        for cut in [1u64, 2, 3, 7, 1000] {
            let mut source = source_of(rt.alloc(), text, cut, &[])?;
            let Ok(list) = all_statements(rt.alloc(), &mut source, 1000) else {
                assert!(rt; false, "cut {cut} of {text:?}");
                return Ok(());
            };
            assert!(rt; are_wanted(&list, wants), "cut {cut} of {text:?}: {list:?}");
        }
    }
    Ok(())
}

// A text of one short statement, then `length` bytes, of them one in quotes, then an end.
fn long_text(alloc: Global, fill: u8, length: usize, end: &[u8]) -> Result<Vec<u8>, AllocError> {
    let mut text = Vec::new(alloc);
    text.extend_from_slice(b"ab;")?;
    for _ in 0..length {
        text.push(fill)?;
    }
    text.extend_from_slice(end)?;
    Ok(text)
}

// How the second piece begins after three bytes: its fill, its length, its end, whether it is too
// long, how long it is, and whether it is whole.
#[test]
fn a_statement_has_at_most_65536_bytes(rt: HostRuntime) -> Result<(), Fail> {
    let cases: [(u8, usize, &[u8], bool, u64, bool); 9] = [
        (b'c', 65_535, b";", false, 65_535, true),
        (b'c', 65_536, b";", false, 65_536, true),
        (b'c', 65_537, b";", true, 65_537, true),
        (b'c', 65_536, b"", false, 65_536, false),
        (b'c', 65_537, b"", true, 65_537, false),
        (b' ', 65_536, b";", false, 65_536, true),
        (b' ', 65_537, b"", true, 65_537, false),
        (b'c', 65_536, b"'d;';", true, 65_540, true),
        (b'c', 65_534, b"'d;';", true, 65_538, true),
    ];
    for (fill, length, end, is_too_long, count, is_whole) in cases {
        for cut in [7u64, 4096, 100_000] {
            let text = long_text(rt.alloc(), fill, length, end)?;
            let mut source = MemorySource::new(text, cut, Vec::new(rt.alloc()));
            let mut reader = Pieces::new(rt.alloc(), 134_217_728);
            let first = reader
                .next_statement(&mut source)
                .ok()
                .ok_or("no first piece")?;
            assert!(rt; is_wanted(&first, &Want::Statement(b"ab")), "{first:?}");
            match reader
                .next_statement(&mut source)
                .ok()
                .ok_or("no second piece")?
            {
                Piece::Statement(bytes) => {
                    assert!(rt; !is_too_long && is_whole, "{count} bytes");
                    assert_eq!(rt; bytes.len() as u64, count);
                }
                Piece::Rest(bytes) => {
                    assert!(rt; !is_too_long && !is_whole, "{count} bytes");
                    assert_eq!(rt; bytes.len() as u64, count);
                }
                Piece::TooLong { from, length } => {
                    assert!(rt; is_too_long, "{count} bytes");
                    assert_eq!(rt; from, 3);
                    assert_eq!(rt; length, count);
                }
                Piece::End => assert!(rt; false, "{count} bytes"),
            }
            let last = reader.next_statement(&mut source).ok().ok_or("no end")?;
            assert!(rt; is_wanted(&last, &Want::End), "{last:?}");
        }
    }
    Ok(())
}

// The answer that a test wants of one call.
#[derive(Clone, Copy, Debug)]
enum Answer {
    Is(Want),
    Fails(ReadError),
}

fn is_answer(given: &Result<Piece, ReadError>, answer: &Answer) -> bool {
    match (given, answer) {
        (Ok(piece), Answer::Is(want)) => is_wanted(piece, want),
        (Err(error), Answer::Fails(wanted)) => *error == *wanted,
        _ => false,
    }
}

// A text, its cut, the reads that fail, the limit, and the answer of each call with the reads made
// by then: a fault comes after the whole pieces, and calls go on behind it; what is past the limit
// and what is behind the end asks for nothing.
#[test]
fn each_call_answers_in_its_place(rt: HostRuntime) -> Result<(), Fail> {
    let cases: [(&[u8], u64, &[u64], u64, &[(Answer, u64)]); 8] = [
        (
            b"aa;bb;cc",
            2,
            &[3, 4],
            100,
            &[
                (Answer::Is(Want::Statement(b"aa")), 2),
                (Answer::Fails(ReadError::Fault), 3),
                (Answer::Fails(ReadError::Fault), 4),
                (Answer::Is(Want::Statement(b"bb")), 5),
                (Answer::Is(Want::Rest(b"cc")), 7),
                (Answer::Is(Want::End), 7),
                (Answer::Is(Want::End), 7),
            ],
        ),
        (
            b"a;b;c",
            1000,
            &[2],
            100,
            &[
                (Answer::Is(Want::Statement(b"a")), 1),
                (Answer::Is(Want::Statement(b"b")), 1),
                (Answer::Fails(ReadError::Fault), 2),
                (Answer::Is(Want::Rest(b"c")), 3),
                (Answer::Is(Want::End), 3),
            ],
        ),
        (
            b"a;b;",
            1000,
            &[],
            3,
            &[
                (Answer::Is(Want::Statement(b"a")), 1),
                (Answer::Fails(ReadError::TooMuch { limit: 3 }), 2),
                (Answer::Fails(ReadError::TooMuch { limit: 3 }), 2),
            ],
        ),
        (
            b"a;b;",
            1,
            &[5],
            4,
            &[
                (Answer::Is(Want::Statement(b"a")), 2),
                (Answer::Is(Want::Statement(b"b")), 4),
                (Answer::Fails(ReadError::Fault), 5),
                (Answer::Is(Want::End), 6),
                (Answer::Is(Want::End), 6),
            ],
        ),
        (
            b"a",
            1,
            &[],
            0,
            &[(Answer::Fails(ReadError::TooMuch { limit: 0 }), 1)],
        ),
        (
            b"",
            1,
            &[],
            0,
            &[(Answer::Is(Want::End), 1), (Answer::Is(Want::End), 1)],
        ),
        (
            b"a;b ",
            3,
            &[],
            u64::MAX,
            &[
                (Answer::Is(Want::Statement(b"a")), 1),
                (Answer::Is(Want::Rest(b"b ")), 3),
                (Answer::Is(Want::End), 3),
            ],
        ),
        (
            b"a;b",
            1000,
            &[],
            3,
            &[
                (Answer::Is(Want::Statement(b"a")), 1),
                (Answer::Is(Want::Rest(b"b")), 2),
                (Answer::Is(Want::End), 2),
            ],
        ),
    ];
    for (text, cut, failing, limit, answers) in cases {
        let source = source_of(rt.alloc(), text, cut, failing)?;
        check_calls(&rt, Pieces::new(rt.alloc(), limit), source, answers);
    }
    Ok(())
}

fn check_calls(
    rt: &impl Abort,
    mut reader: Pieces,
    mut source: MemorySource,
    answers: &[(Answer, u64)],
) {
    for (answer, calls) in answers {
        let given = reader.next_statement(&mut source);
        assert!(rt; is_answer(&given, answer), "{given:?}, not {answer:?}");
        assert_eq!(rt; source.calls(), *calls, "{answer:?}");
    }
}

// What reading all of `a;b;` answers at a limit, where the reads that are listed fail.
#[test]
fn a_whole_text_is_read_or_refused(rt: HostRuntime) -> Result<(), Fail> {
    let cases: [(u64, &[u64], Result<usize, ReadError>); 5] = [
        (5, &[], Ok(2)),
        (4, &[], Ok(2)),
        (3, &[], Err(ReadError::TooMuch { limit: 3 })),
        (0, &[], Err(ReadError::TooMuch { limit: 0 })),
        (4, &[2], Err(ReadError::Fault)),
    ];
    for (limit, failing, want) in cases {
        let mut source = source_of(rt.alloc(), b"a;b;", 1000, failing)?;
        let result = all_statements(rt.alloc(), &mut source, limit);
        let count = match result {
            Ok(list) => Ok(list.len()),
            Err(error) => Err(error),
        };
        assert_eq!(rt; count, want, "limit {limit}");
    }
    Ok(())
}
