use crate::top::top;
use std::alloc::{AllocError, Global};
use std::sync::Wait;
use std::test::Fail;
use std::thread::Threads;
use strip_outside::{Clock, FreeGate, HostFiles, MemorySink, MemorySource};
use strip_script::{Limits, RunError, run_script};

const STOCKS: &[u8] =
    b"table stocks (symbol text, price int, key symbol); ready; put stocks ('IBM', 100); put stocks ('IBM', 101); show stocks;\n";

// A table, and one of its groups with their sums and counts that rules keep.
const GROUPED: &[u8] =
    b"table t (id int, g int, v int, key id); derive d as select g, sum(v) as s, count(*) as n from t group by g; maintain d by sum; ready; ";

const STOCKS_REPLIES: [&[u8]; 5] = [
    b"ok\n",
    b"ok\n",
    b"count 1\n",
    b"count 1\n",
    b"rows 1\n('IBM', 101)\n",
];

// The most bytes of a read and of a write, and the numbers of the calls that fail or take nothing.
#[derive(Clone, Copy)]
struct Outside {
    read_cut: u64,
    failing_reads: &'static [u64],
    write_cut: u64,
    failing_writes: &'static [u64],
    still_writes: &'static [u64],
}

const WELL: Outside = Outside {
    read_cut: 1000,
    failing_reads: &[],
    write_cut: 1000,
    failing_writes: &[],
    still_writes: &[],
};

// A clock that stands still.
struct FixedClock;

impl Clock for FixedClock {
    fn now(&self) -> u64 {
        0
    }
}

#[derive(Drop)]
struct Seen {
    status: u8,
    reads: u64,
    out: Vec<u8>,
}

fn words_of(alloc: Global, texts: &[&str]) -> Result<Vec<String>, AllocError> {
    let mut words = Vec::new(alloc);
    for text in texts {
        words.push(String::from_str(alloc, text)?)?;
    }
    Ok(words)
}

fn run_top<R: Threads + Wait + Sync>(
    rt: &R,
    alloc: Global,
    words: &[&str],
    text: &[u8],
    outside: Outside,
) -> Result<Seen, AllocError> {
    let words = words_of(alloc, words)?;
    let failing_reads = outside.failing_reads.to_vec(alloc)?;
    let mut input = MemorySource::new(text.to_vec(alloc)?, outside.read_cut, failing_reads);
    let mut out = MemorySink::new(
        alloc,
        outside.write_cut,
        outside.failing_writes.to_vec(alloc)?,
        outside.still_writes.to_vec(alloc)?,
    );
    let mut files = HostFiles::new();
    let status = top(
        rt,
        alloc,
        words.as_slice(),
        &mut input,
        &mut files,
        &mut out,
        &FixedClock,
        &FreeGate,
    );
    Ok(Seen {
        status,
        reads: input.calls(),
        out: out.written().to_vec(alloc)?,
    })
}

// The first replies of the row of stocks.
fn first_replies(alloc: Global, count: usize) -> Result<Vec<u8>, AllocError> {
    let mut text = Vec::new(alloc);
    for reply in STOCKS_REPLIES.iter().take(count) {
        text.extend_from_slice(reply)?;
    }
    Ok(text)
}

// One statement of each kind, before `ready` and behind it.
const EACH_KIND: &[u8] =
    b"table t (id int, g int, v int, key id); stream s into t; derive d as select g, sum(v) as s, count(*) as n from t group by g; \
derive e as select g, sum(v * v) as q from t where v < 9 group by g; function f redo d by b; \
rule r on t when inserted then evaluate (select i.g from inserted i) bind as b execute f; maintain d by key; maintain d by sum after 1; \
maintain d by sum; at 5; begin; ready; ready; table u (a int, key a); stream s into t; maintain e by sum; at 5; begin write t read d; commit; undo; \
insert t (1, 7, 5); put t (1, 7, 5); update t set v = 6 where id = 1; delete t where id = 1; select g from t; show t; show e; show x; \
start; start; finish 1; finish 1; return 1; run; show pending; as 1 show t; show d;";

const EACH_KIND_REPLIES: &[u8] =
    b"ok\nok\nok\nok\nrefused NotBuilt\nrefused NotBuilt\nrefused NotBuilt\nrefused NotBuilt\nok\nrefused NotReady\nrefused NotReady\nok\n\
refused Closed\nrefused Closed\nrefused Closed\nrefused NotBuilt\nrefused NotBuilt\nrefused NotBuilt\nrefused NotBuilt\nrefused NotBuilt\n\
refused NotBuilt\ncount 1\nrefused NotBuilt\nrefused NotBuilt\nrows 1\n(7)\nrows 1\n(1, 7, 5)\nrows 0\nrefused Unknown x\n\
job 1 keep_d plain due 0 rows 1\nempty\nfinished 1\nrefused NotRunning 1\nrefused NotBuilt\nrefused NotBuilt\nrefused NotBuilt\n\
refused NotBuilt\nrows 1\n(7, 5, 1)\n";

const QUERIES: &[u8] =
    b"table t (id int, g int, v int, key id); ready; put t (1, 7, 5); put t (2, 7, 6); put t (3, 8, 1); \
select g from t; select g, sum(v) as s, count(*) as n from t group by g; \
select a.id, b.id as o from t a, t b where a.g = b.g and a.id < b.id; select g, sum(v) as s from t where v > 100 group by g;";

const QUERIES_REPLIES: &[u8] =
    b"ok\nok\ncount 1\ncount 1\ncount 1\nrows 3\n(7)\n(7)\n(8)\nrows 2\n(7, 11, 2)\n(8, 1, 1)\nrows 1\n(1, 2)\nrows 0\n";

const REFUSED_QUERIES: &[u8] =
    b"table t (id int, s text, key id); derive d as select s, count(*) as n from t group by s; select id from t; ready; put t (1, 'b'); put t (2, 'a'); \
select x from t; select id from u; select id from t where s = 1; select id from t where 'b' = 1; select id, count(*) as n from t; \
select s from t where s < 'b'; select t.s from t, d where t.id < 9;";

const REFUSED_QUERIES_REPLIES: &[u8] =
    b"ok\nok\nrefused NotReady\nok\ncount 1\ncount 1\nrefused Unknown x\nrefused Unknown id\nrefused KindMismatch s\nrefused KindMismatch -\nrefused NotGrouped\n\
rows 1\n('a')\nrows 0\n";

// Scripts, what they are answered, and the status.
const SCRIPTS: [(&[u8], &[u8], u8); 14] = [
    (
        STOCKS,
        b"ok\nok\ncount 1\ncount 1\nrows 1\n('IBM', 101)\n",
        0,
    ),
    (
        b"table t (a int, key a); ready; put t (1); put t (1); drop t; show t;",
        b"ok\nok\ncount 1\ncount 1\nrefused Parse 1 Unexpected\nrows 1\n(1)\n",
        1,
    ),
    (b"", b"", 0),
    (b" ;\n;\t", b"", 0),
    (
        b"table t (a int, key a); ready; show t",
        b"ok\nok\nrefused Unended\n",
        1,
    ),
    (b"show t", b"refused Unended\n", 1),
    (b"show pending;", b"refused NotReady\n", 1),
    (
        b"table t (n int, s text, key s); ready; put t (-1, 'b;''c'); put t (2, 'a'); show t;",
        b"ok\nok\ncount 1\ncount 1\nrows 2\n(2, 'a')\n(-1, 'b;''c')\n",
        0,
    ),
    (
        b"selec x; ready; put t (1); select a from t;",
        b"refused Parse 0 Unexpected\nok\nrefused NotBuilt\nrefused Unknown a\n",
        1,
    ),
    (
        b"table t (id int, a int, b int, c int, key id); derive d as select id, sum(a * b * c) as s from t group by id;",
        b"ok\nrefused TooWide 9903520314283042199192993792\n",
        1,
    ),
    (
        b"table t (id int, g int, v int, key id); derive d as select g, sum(v) as s, count(*) as n from t group by g; maintain d by sum; ready; put t (1, 7, 5); put t (1, 7, 6); show d; start; start; finish 2; show d; finish 1; show d; finish 1;",
        b"ok\nok\nok\nok\ncount 1\ncount 1\nrows 0\njob 1 keep_d plain due 0 rows 1\njob 2 keep_d plain due 0 rows 2\nfinished 2\nrows 1\n(7, 1, 0)\nfinished 1\nrows 1\n(7, 6, 1)\nrefused NotRunning 1\n",
        1,
    ),
    (QUERIES, QUERIES_REPLIES, 0),
    (REFUSED_QUERIES, REFUSED_QUERIES_REPLIES, 1),
    (EACH_KIND, EACH_KIND_REPLIES, 1),
];

// However the reads and the writes are cut.
#[test]
fn scripts_are_answered(rt: HostRuntime) -> Result<(), Fail> {
    for (text, wanted, status) in SCRIPTS {
        for cut in [1u64, 2, 3, 1000] {
            let outside = Outside {
                read_cut: cut,
                write_cut: cut,
                ..WELL
            };
            let seen = run_top(&rt, rt.alloc(), &["script"], text, outside)?;
            assert_eq!(rt; seen.out.as_slice(), wanted, "cut {cut}");
            assert_eq!(rt; seen.status, status, "cut {cut}");
        }
    }
    Ok(())
}

// A piece may have 65,536 bytes; a longer one is refused unread.
#[test]
fn a_piece_that_is_too_long_is_refused(rt: HostRuntime) -> Result<(), Fail> {
    let cases: [(usize, &[u8]); 2] = [
        (65_536, b"refused Parse 0 TooLong\nok\n"),
        (65_537, b"refused Oversize 65537\nok\n"),
    ];
    for (length, wanted) in cases {
        let mut script = Vec::new(rt.alloc());
        for _byte in 0..length {
            script.push(b'a')?;
        }
        script.extend_from_slice(b";ready;")?;
        let seen = run_top(&rt, rt.alloc(), &["script"], script.as_slice(), WELL)?;
        assert_eq!(rt; seen.out.as_slice(), wanted);
        assert_eq!(rt; seen.status, 1);
    }
    Ok(())
}

// Words that ask for nothing that there is: nothing is read or written.
#[test]
fn other_words_have_status_2(rt: HostRuntime) -> Result<(), Fail> {
    let cases: [&[&str]; 6] = [
        &[],
        &[""],
        &["Script"],
        &["scrip"],
        &["script", "script"],
        &["help"],
    ];
    for words in cases {
        let seen = run_top(&rt, rt.alloc(), words, STOCKS, WELL)?;
        assert_eq!(rt; seen.status, 2, "{words:?}");
        assert_eq!(rt; seen.reads, 0, "{words:?}");
        assert!(rt; seen.out.is_empty(), "{words:?}");
    }
    Ok(())
}

// The most bytes of a read, the read that fails, and how many replies were written.
#[test]
fn a_read_that_fails_has_status_3(rt: HostRuntime) -> Result<(), Fail> {
    let cases: [(u64, &'static [u64], usize); 7] = [
        (1000, &[1], 0),
        (1000, &[2], 5),
        (49, &[2], 0),
        (50, &[2], 1),
        (56, &[2], 1),
        (57, &[2], 2),
        (1, &[83], 3),
    ];
    for (read_cut, failing_reads, replies) in cases {
        let outside = Outside {
            read_cut,
            failing_reads,
            ..WELL
        };
        let seen = run_top(&rt, rt.alloc(), &["script"], STOCKS, outside)?;
        let wanted = first_replies(rt.alloc(), replies)?;
        assert_eq!(rt; seen.status, 3, "{read_cut} {failing_reads:?}");
        assert_eq!(rt; seen.out, wanted, "{read_cut} {failing_reads:?}");
    }
    Ok(())
}

// The most bytes of a write, the write that fails or takes nothing, and how many bytes were written.
#[test]
fn a_write_that_fails_has_status_4(rt: HostRuntime) -> Result<(), Fail> {
    let cases: [(u64, &'static [u64], &'static [u64], usize); 8] = [
        (1000, &[1], &[], 0),
        (1000, &[2], &[], 3),
        (1000, &[3], &[], 6),
        (1000, &[4], &[], 14),
        (1000, &[5], &[], 22),
        (1000, &[], &[5], 22),
        (1, &[8], &[], 7),
        (2, &[], &[1], 0),
    ];
    let whole = first_replies(rt.alloc(), 5)?;
    for (write_cut, failing_writes, still_writes, count) in cases {
        let outside = Outside {
            write_cut,
            failing_writes,
            still_writes,
            ..WELL
        };
        let seen = run_top(&rt, rt.alloc(), &["script"], STOCKS, outside)?;
        assert_eq!(rt; seen.status, 4, "{count}");
        assert_eq!(rt; seen.out.len(), count);
        assert!(rt; whole.starts_with(seen.out.as_slice()), "{count}");
    }
    Ok(())
}

// A limit, and how many replies are written where it is passed.
#[test]
fn a_source_past_the_limit_is_refused(rt: HostRuntime) -> Result<(), Fail> {
    let whole = STOCKS.len() as u64;
    let cases: [(u64, Option<usize>); 6] = [
        (whole, None),
        (whole - 1, Some(5)),
        (whole - 2, Some(4)),
        (50, Some(1)),
        (49, Some(0)),
        (0, Some(0)),
    ];
    for (limit, passed) in cases {
        let mut input = MemorySource::new(STOCKS.to_vec(rt.alloc())?, 3, Vec::new(rt.alloc()));
        let mut out = MemorySink::new(rt.alloc(), 1000, Vec::new(rt.alloc()), Vec::new(rt.alloc()));
        let limits = Limits { bound_rows: 1000 };
        let wanted = first_replies(rt.alloc(), passed.unwrap_or(5))?;
        match run_script(rt.alloc(), &mut input, &mut out, limit, limits) {
            Ok(ended) => assert!(rt; passed.is_none() && !ended.refused, "limit {limit}"),
            Err(RunError::TooMuch { limit: most }) => {
                assert!(rt; passed.is_some() && most == limit, "limit {limit}");
            }
            Err(error) => assert!(rt; false, "limit {limit}: {error:?}"),
        }
        assert_eq!(rt; out.written(), wanted.as_slice(), "limit {limit}");
    }
    Ok(())
}

// Ten puts of new ids bind ten rows, and where ten are the most, an eleventh is refused.
#[test]
fn more_bound_rows_than_the_limit_are_refused(rt: HostRuntime) -> Result<(), Fail> {
    let mut script = GROUPED.to_vec(rt.alloc())?;
    let mut wanted = b"ok\nok\nok\nok\n".to_vec(rt.alloc())?;
    for id in 0..10u64 {
        let put = format!(in rt.alloc(); "put t ({id}, 7, 5); ")?;
        script.extend_from_slice(put.as_bytes())?;
        wanted.extend_from_slice(b"count 1\n")?;
    }
    script.extend_from_slice(b"put t (10, 7, 5); put t (3, 7, 5); start;")?;
    wanted.extend_from_slice(
        b"refused Spent 11\nrefused Spent 12\njob 1 keep_d plain due 0 rows 1\n",
    )?;
    let mut input = MemorySource::new(script, 1000, Vec::new(rt.alloc()));
    let mut out = MemorySink::new(rt.alloc(), 1000, Vec::new(rt.alloc()), Vec::new(rt.alloc()));
    let limits = Limits { bound_rows: 10 };
    match run_script(rt.alloc(), &mut input, &mut out, 10_000, limits) {
        Ok(ended) => assert!(rt; ended.refused),
        Err(error) => assert!(rt; false, "{error:?}"),
    }
    assert_eq!(rt; out.written(), wanted.as_slice());
    Ok(())
}

// A script of puts, starts, finishes and shows, what it is to be answered, and the rows that stand by their ids.
#[derive(Drop)]
struct Load {
    script: Vec<u8>,
    wanted: Vec<u8>,
    rows: Vec<Option<(u64, i64)>>,
}

const IDS: u64 = 40;

const GROUPS: u64 = 5;

const PUTS: u64 = 25;

impl Load {
    fn new(alloc: Global) -> Result<Load, AllocError> {
        let mut rows = Vec::new(alloc);
        for _id in 0..IDS {
            rows.push(None)?;
        }
        Ok(Load {
            script: GROUPED.to_vec(alloc)?,
            wanted: b"ok\nok\nok\nok\n".to_vec(alloc)?,
            rows,
        })
    }

    fn line(&mut self, statement: &[u8], reply: &[u8]) -> Result<(), AllocError> {
        self.script.extend_from_slice(statement)?;
        self.wanted.extend_from_slice(reply)?;
        Ok(())
    }

    // A put of a row that follows from the number; how many rows it binds.
    fn put(&mut self, alloc: Global, k: u32) -> Result<u64, AllocError> {
        let k = k as u64;
        let id = k * 7 % IDS;
        let group = k / 3 % GROUPS;
        let value = (k * 37 % 201) as i64 - 100;
        let mut bound = 1;
        if let Some(row) = self.rows.get_mut(id as usize) {
            if row.is_some() {
                bound = 2;
            }
            *row = Some((group, value));
        }
        let put = format!(in alloc; "put t ({id}, {group}, {value}); ")?;
        self.line(put.as_bytes(), b"count 1\n")?;
        Ok(bound)
    }

    // The derived table, worked out from the rows that stand.
    fn show(&mut self, alloc: Global) -> Result<(), AllocError> {
        let mut lines = Vec::new(alloc);
        let mut shown: u64 = 0;
        for group in 0..GROUPS {
            let mut sum: i64 = 0;
            let mut count: u64 = 0;
            for (own, value) in self.rows.iter().flatten() {
                if *own == group {
                    sum = sum.wrapping_add(*value);
                    count = count.wrapping_add(1);
                }
            }
            if count > 0 {
                shown = shown.wrapping_add(1);
                let line = format!(in alloc; "({group}, {sum}, {count})\n")?;
                lines.extend_from_slice(line.as_bytes())?;
            }
        }
        let head = format!(in alloc; "rows {shown}\n")?;
        self.line(b"show d; ", head.as_bytes())?;
        self.wanted.extend_from_slice(lines.as_slice())?;
        Ok(())
    }
}

// Some hundred puts over a few ids, with starts in order and finishes out of order: whenever nothing waits and nothing runs, what is
// shown is the grouped sum of the rows that were put last.
#[test]
fn shows_follow_the_puts(rt: HostRuntime) -> Result<(), Fail> {
    let alloc = rt.alloc();
    let mut load = Load::new(alloc)?;
    for batch in 0..12u32 {
        let first = batch as u64 * PUTS + 1;
        for turn in 0..25u32 {
            let bound = load.put(alloc, batch * 25 + turn)?;
            let number = first + turn as u64;
            let job = format!(in alloc; "job {number} keep_d plain due 0 rows {bound}\n")?;
            load.line(b"start; ", job.as_bytes())?;
        }
        for turn in 0..PUTS {
            let number = first + turn * 7 % PUTS;
            let finish = format!(in alloc; "finish {number}; ")?;
            let finished = format!(in alloc; "finished {number}\n")?;
            load.line(finish.as_bytes(), finished.as_bytes())?;
        }
        load.show(alloc)?;
    }
    let seen = run_top(&rt, alloc, &["script"], load.script.as_slice(), WELL)?;
    assert_eq!(rt; seen.out, load.wanted);
    assert_eq!(rt; seen.status, 0);
    Ok(())
}

// Tried with allocations that fail: the run ends with 5 after some first replies, or is as it should be.
#[test]
fn want_of_memory_comes_between_replies(rt: HostRuntime) -> Result<(), Fail> {
    let seen = run_top(&rt, rt.alloc(), &["script"], STOCKS, WELL)?;
    let mut count = 5;
    if seen.status == 5 {
        count = seen.out.iter().filter(|byte| **byte == b'\n').count();
    } else {
        assert_eq!(rt; seen.status, 0);
    }
    assert_eq!(rt; seen.out, first_replies(rt.alloc(), count)?);
    Ok(())
}
