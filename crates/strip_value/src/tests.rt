use crate::*;
use std::alloc::Global;
use std::test::Fail;

/// The number in the refusal, or 0.
fn refused_at(outcome: &Result<Text, TextError>) -> u64 {
    match outcome {
        Err(TextError::NotUtf8 { at }) => *at,
        Err(TextError::TooLong { len }) => *len,
        _ => 0,
    }
}

#[test]
fn texts_end_at_255_bytes(rt: HostRuntime) -> Result<(), Fail> {
    for (len, taken) in [(0usize, true), (1, true), (255, true), (256, false)] {
        let bytes = vec![in rt.alloc(); 97u8; len]?;
        let outcome = Text::of(rt.alloc(), bytes.as_slice());
        assert_eq!(rt; outcome.is_ok(), taken, "at {len}");
        if let Ok(text) = &outcome {
            assert_eq!(rt; text.bytes(), bytes.as_slice());
        } else {
            assert_eq!(rt; refused_at(&outcome), len as u64);
        }
    }
    Ok(())
}

#[test]
fn bad_utf8_is_placed(rt: HostRuntime) -> Result<(), Fail> {
    let cases: [(&[u8], u64); 4] = [
        (b"ab\xff", 2),
        (b"ab\xc3\xa9\xe2\x82", 4),
        (b"a\xc0\x80", 1),
        (b"abc\xed\xa0\x80", 3),
    ];
    for (bytes, at) in cases {
        let outcome = Text::of(rt.alloc(), bytes);
        assert_eq!(rt; refused_at(&outcome), at);
    }
    let mut long = vec![in rt.alloc(); 97u8; 300]?;
    long.push(0xff)?;
    let outcome = Text::of(rt.alloc(), long.as_slice());
    assert_eq!(rt; refused_at(&outcome), 300, "no UTF-8 comes before too long");
    Ok(())
}

#[test]
fn names_are_1_to_40_bytes_of_words(rt: HostRuntime) -> Result<(), Fail> {
    let cases: [(&[u8], bool); 10] = [
        (b"", false),
        (b"a", true),
        (b"_", true),
        (b"z9_a", true),
        (b"9a", false),
        (b"A", false),
        (b"a-b", false),
        (b"a b", false),
        (&[b'x'; 40], true),
        (&[b'x'; 41], false),
    ];
    for (bytes, taken) in cases {
        match Name::of(rt.alloc(), bytes) {
            Ok(name) => assert_eq!(rt; (name.bytes(), taken), (bytes, true)),
            Err(_) => assert!(rt; !taken),
        }
    }
    Ok(())
}

#[test]
fn kinds_end_where_they_should(rt: HostRuntime) -> Result<(), Fail> {
    let big = 1i128 << 126;
    let cases = [
        (-2_147_483_649, false, true),
        (-2_147_483_648, true, true),
        (0, true, true),
        (2_147_483_647, true, true),
        (2_147_483_648, false, true),
        (-big, false, false),
        (1 - big, false, true),
        (big - 1, false, true),
        (big, false, false),
    ];
    for (n, int, wide) in cases {
        let value = Value::Int(n);
        assert_eq!(rt; fits(Kind::Int, &value), int, "int at {n}");
        assert_eq!(rt; fits(Kind::Big, &value), wide, "big at {n}");
        assert!(rt; !fits(Kind::Text, &value));
    }
    let text = Value::Text(Text::of(rt.alloc(), b"7")?);
    assert!(rt; fits(Kind::Text, &text));
    assert!(rt; !fits(Kind::Int, &text));
    assert!(rt; !fits(Kind::Big, &text));
    Ok(())
}

/// The row of a number and a text, or of the number alone.
fn row(alloc: Global, n: i128, text: Option<&[u8]>) -> Result<Row, Fail> {
    let mut values = vec![in alloc; Value::Int(n)]?;
    if let Some(bytes) = text {
        values.push(Value::Text(Text::of(alloc, bytes)?))?;
    }
    Ok(Row::of(values))
}

#[test]
fn rows_are_printed_as_tuples(rt: HostRuntime) -> Result<(), Fail> {
    let cases: [(i128, Option<&[u8]>, &[u8]); 5] = [
        (0, None, b"(0)"),
        (-12, None, b"(-12)"),
        (101, Some(b"IBM"), b"(101, 'IBM')"),
        (7, Some(b""), b"(7, '')"),
        (
            1 << 100,
            Some(b"o'clock''"),
            b"(1267650600228229401496703205376, 'o''clock''''')",
        ),
    ];
    for (n, text, wanted) in cases {
        let mut printed = vec![in rt.alloc(); b'>']?;
        row(rt.alloc(), n, text)?.text(rt.alloc(), &mut printed)?;
        let mut whole = vec![in rt.alloc(); b'>']?;
        whole.extend_from_slice(wanted)?;
        assert_eq!(rt; printed.as_slice(), whole.as_slice());
    }
    let mut printed = Vec::new(rt.alloc());
    Row::of(Vec::new(rt.alloc())).text(rt.alloc(), &mut printed)?;
    assert_eq!(rt; printed.as_slice(), b"()".as_slice());
    Ok(())
}

#[test]
fn rows_rise_by_value(rt: HostRuntime) -> Result<(), Fail> {
    let alloc = rt.alloc();
    let rising = vec![in alloc;
        row(alloc, -5, Some(b"z"))?,
        row(alloc, 3, None)?,
        row(alloc, 3, Some(b""))?,
        row(alloc, 3, Some(b"a"))?,
        row(alloc, 3, Some(b"ab"))?,
        row(alloc, 3, Some(b"b"))?,
        row(alloc, 20, None)?,
        Row::of(vec![in alloc; Value::Text(Text::of(alloc, b"1")?), Value::Int(0)]?),
    ]?;
    for (i, low) in rising.iter().enumerate() {
        for (j, high) in rising.iter().enumerate() {
            assert_eq!(rt; low.cmp(high), i.cmp(&j), "{i} against {j}");
            assert_eq!(rt; low.partial_cmp(high), Some(i.cmp(&j)));
            assert_eq!(rt; low == high, i == j);
        }
    }
    Ok(())
}

#[test]
fn lists_keep_their_order(rt: HostRuntime) -> Result<(), Fail> {
    let mut list = U32List::new(rt.alloc());
    assert!(rt; list.is_empty());
    for n in [5u32, 4, 9] {
        list.push(n)?;
    }
    assert!(rt; !list.is_empty());
    assert_eq!(rt; list.len(), 3);
    assert_eq!(rt; list.as_slice(), [5u32, 4, 9].as_slice());
    let items = list.copy(rt.alloc())?.into_vec();
    assert_eq!(rt; items.as_slice(), [5u32, 4, 9].as_slice());
    assert_eq!(rt; Items::from_vec(items).as_slice(), list.as_slice());
    Ok(())
}
