use crate::{
    ActError, Entry, History, Id, Reply, Row, TableDef, empty_text, finished_text, in_hand_text,
    job_text, not_due_text, not_running_text, refusal_text, reply_text, spent_text,
};
use std::alloc::Global;
use std::process::Abort;
use std::str;
use std::test::Fail;
use strip_value::{Items, KeyOf, Name, Text, Value};

fn def(alloc: Global, name: &[u8]) -> Result<TableDef, Fail> {
    Ok(TableDef {
        name: Name::of(alloc, name)?,
        columns: Items::new(alloc),
        key: Items::new(alloc),
        limit: None,
        query: None,
        kept: None,
        declared: false,
    })
}

fn row(alloc: Global, number: i128, text: &[u8]) -> Result<Row, Fail> {
    let text = Text::of(alloc, text)?;
    let values = vec![in alloc; Value::Int(number), Value::Text(text)]?;
    Ok(Row::of(values))
}

fn defs(alloc: Global) -> Result<Vec<TableDef>, Fail> {
    let quotes = def(alloc, b"quotes")?;
    let t = def(alloc, b"t")?;
    Ok(vec![in alloc; quotes, t]?)
}

/// The reply's text is this one.
fn is_printed(rt: &impl Abort, alloc: Global, reply: &Reply, wanted: &str) -> Result<(), Fail> {
    let defs = defs(alloc)?;
    let text = reply_text(alloc, defs.as_slice(), reply)?;
    assert_eq!(rt; str::from_utf8(text.as_slice())?, wanted);
    Ok(())
}

/// The cause's text is this one, also within a reply.
fn is_cause(rt: &impl Abort, alloc: Global, cause: ActError, wanted: &str) -> Result<(), Fail> {
    let defs = defs(alloc)?;
    let text = refusal_text(alloc, defs.as_slice(), &cause)?;
    assert_eq!(rt; str::from_utf8(text.as_slice())?, wanted);
    let line = format!(in alloc; "refused {wanted}\n")?;
    is_printed(rt, alloc, &Reply::Refused(cause), line.as_str())
}

#[test]
fn replies_are_printed(rt: HostRuntime) -> Result<(), Fail> {
    let alloc = rt.alloc();
    is_printed(&rt, alloc, &Reply::Count(0), "count 0\n")?;
    is_printed(
        &rt,
        alloc,
        &Reply::Count(u64::MAX),
        "count 18446744073709551615\n",
    )?;
    is_printed(&rt, alloc, &Reply::Rows(Items::new(alloc)), "rows 0\n")?;
    let low = row(alloc, -7, b"it's")?;
    let high = row(alloc, 12, b"")?;
    let rows = Items::from_vec(vec![in alloc; low, high]?);
    is_printed(
        &rt,
        alloc,
        &Reply::Rows(rows),
        "rows 2\n(-7, 'it''s')\n(12, '')\n",
    )?;
    Ok(())
}

#[test]
fn causes_are_printed(rt: HostRuntime) -> Result<(), Fail> {
    let alloc = rt.alloc();
    let table = Id(1);
    let column = 16;
    let value = -2_147_483_649;
    let key = row(alloc, 3, b"IBM")?;
    is_cause(
        &rt,
        alloc,
        ActError::NotHeld { table: Id(0) },
        "NotHeld quotes",
    )?;
    is_cause(&rt, alloc, ActError::ReadOnly { table }, "ReadOnly t")?;
    is_cause(&rt, alloc, ActError::Derived { table }, "Derived t")?;
    is_cause(
        &rt,
        alloc,
        ActError::KindMismatch { column },
        "KindMismatch 16",
    )?;
    is_cause(
        &rt,
        alloc,
        ActError::OutOfRange { column, value },
        "OutOfRange 16 -2147483649",
    )?;
    is_cause(
        &rt,
        alloc,
        ActError::Duplicate { key },
        "Duplicate (3, 'IBM')",
    )?;
    is_cause(
        &rt,
        alloc,
        ActError::Full {
            table,
            limit: 1_048_576,
        },
        "Full t 1048576",
    )?;
    is_cause(
        &rt,
        alloc,
        ActError::Full {
            table: Id(2),
            limit: 1,
        },
        "Full  1",
    )?;
    Ok(())
}

#[test]
fn jobs_are_printed(rt: HostRuntime) -> Result<(), Fail> {
    let alloc = rt.alloc();
    let plain = KeyOf::Plain { place: 3, rule: 1 };
    let text = Text::of(alloc, b"C1")?;
    let named = KeyOf::Unique {
        values: Row::of(vec![in alloc; Value::Text(text)]?),
        starts: 5,
    };
    let of_all = KeyOf::Unique {
        values: Row::of(Vec::new(alloc)),
        starts: 0,
    };
    let cases: [(u64, &[u8], &KeyOf, u64, u64, &str); 4] = [
        (
            2,
            b"keep_d",
            &plain,
            0,
            2,
            "job 2 keep_d plain due 0 rows 2\n",
        ),
        (7, b"f", &named, 200, 4, "job 7 f ('C1') due 200 rows 4\n"),
        (7, b"f", &of_all, 0, 1, "job 7 f () due 0 rows 1\n"),
        (
            u64::MAX,
            b"f",
            &plain,
            9_223_372_036_854_775_808,
            u64::MAX - 1,
            "job 18446744073709551615 f plain due 9223372036854775808 rows 18446744073709551614\n",
        ),
    ];
    for (number, function, key, due, rows, wanted) in cases {
        let text = job_text(alloc, function, number, key, due, rows)?;
        assert_eq!(rt; str::from_utf8(text.as_slice())?, wanted);
    }
    Ok(())
}

#[test]
fn answers_are_printed(rt: HostRuntime) -> Result<(), Fail> {
    let alloc = rt.alloc();
    let not_due = not_due_text(alloc, 200)?;
    let in_hand = in_hand_text(alloc, 2)?;
    let empty = empty_text(alloc)?;
    let spent = spent_text(alloc, 11)?;
    let not_running = not_running_text(alloc, u128::MAX)?;
    let finished = finished_text(alloc, 1)?;
    let cases: [(&[u8], &str); 6] = [
        (not_due.as_slice(), "not due 200\n"),
        (in_hand.as_slice(), "in hand 2\n"),
        (empty.as_slice(), "empty\n"),
        (spent.as_slice(), "refused Spent 11\n"),
        (
            not_running.as_slice(),
            "refused NotRunning 340282366920938463463374607431768211455\n",
        ),
        (finished.as_slice(), "finished 1\n"),
    ];
    for (text, wanted) in cases {
        assert_eq!(rt; str::from_utf8(text)?, wanted);
    }
    Ok(())
}

/// The place's session, by the number that an undo has; 0 where there is none.
fn session_at(history: &History, place: u64) -> u64 {
    match history.get(place) {
        Some(Entry::Undo { session, .. }) => *session,
        _ => 0,
    }
}

#[test]
fn a_history_grows_at_its_end(rt: HostRuntime) -> Result<(), Fail> {
    let mut history = History::new(rt.alloc());
    assert_eq!(rt; history.len(), 0);
    assert!(rt; history.get(0).is_none());
    history.reserve(2)?;
    history.push(Entry::Undo {
        caller: 7,
        session: 1,
    });
    history.push(Entry::Undo {
        caller: 8,
        session: 2,
    });
    assert_eq!(rt; history.len(), 2);
    for (place, session) in [(0, 1), (1, 2), (2, 0), (u64::MAX, 0)] {
        assert_eq!(rt; session_at(&history, place), session, "at {place}");
    }
    Ok(())
}
