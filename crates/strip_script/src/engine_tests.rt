//! The calls of the engine, each with ample memory. The setup of a script makes the engines.
ghost use Rattle.std.specs.Prelude.{◌≡◌, ◌∷◌, ◌<◌, ◌≤◌, ◌^◌, [], length, IfOk, OnOk};
ghost use Rattle.strip_script.specs.EngineTests.{Gives, IsInOrder};
ghost use Rattle.strip_script.specs.Stages.{IsSteady};
ghost use Rattle.strip_engine.specs.Asked.{IsAsked};
ghost use Rattle.strip_engine.specs.State.{past};
ghost use Rattle.strip_model.specs.History.{live};

use crate::script::{Script, Stage, opening};
use std::alloc::{AllocError, Global};
use std::process::Abort;
use std::str;
use std::test::Fail;
use strip_engine::{
    Act, BeginError, Done, Engine, FinishFault, Fired, Id, Job, Limits, Row, Taken, Value,
    row_misfit,
};
use strip_model::reply_text;
use strip_value::{Items, Piece, Text};

/// A value of a row.
#[derive(Clone, Copy)]
enum Cell {
    Number(i128),
    Word(&'static str),
}

/// What a transaction does with a table, by the table's number.
#[derive(Clone, Copy)]
enum Step {
    Put(u32, &'static [Cell]),
    Show(u32),
}

use Cell::{Number, Word};
use Step::{Put, Show};

// ---- engines

/// Takes a statement of the setup.
fn declare(alloc: Global, script: &mut Script, statement: &str) -> Result<(), Fail>
    requires { IsSteady script.old }
    ensures { OnOk result (IsSteady script.new) }
{
    let bytes = Vec::from_slice(alloc, statement.as_bytes())?;
    let said = script.answer(alloc, Piece::Statement(Items::from_vec(bytes)))?;
    if said.refused {
        return Err(Fail::new("a statement of the setup is refused"));
    }
    Ok(())
}

/// The engine of a script that is behind its setup.
fn engine_of(script: Script) -> Result<Engine, Fail>
    requires { IsSteady script }
    ensures { IfOk result (λ engine. live (past engine) ≡ []) }
{
    match script.stage() {
        Stage::Running(database) => Ok(database.engine),
        Stage::Setup { .. } => Err(Fail::new("the setup is open")),
    }
}

fn engine(alloc: Global, bound_rows: u64, setup: &[&str]) -> Result<Engine, Fail>
    requires { bound_rows ≤ 2 ^ 60 }
    ensures { IfOk result (λ engine. live (past engine) ≡ []) }
{
    let mut script = Script::at(opening(alloc, Limits { bound_rows }));
    for statement in setup {
        declare(alloc, &mut script, *statement)?;
    }
    engine_of(script)
}

/// Three tables, of which the first takes so many rows.
const TWO_ROWS: [&str; 4] = [
    "table t (k int, v text, key k) limit 2",
    "table u (k int, v text, key k)",
    "table w (k int, v text, key k)",
    "ready",
];

const ONE_ROW: [&str; 4] = [
    "table t (k int, v text, key k) limit 1",
    "table u (k int, v text, key k)",
    "table w (k int, v text, key k)",
    "ready",
];

const THREE_ROWS: [&str; 4] = [
    "table t (k int, v text, key k) limit 3",
    "table u (k int, v text, key k)",
    "table w (k int, v text, key k)",
    "ready",
];

/// A base table, and a derived one that is kept.
const GROUPED: [&str; 4] = [
    "table t (id int, g int, v int, key id)",
    "derive d as select g, sum(v) as s, count(*) as n from t group by g",
    "maintain d by sum",
    "ready",
];

// ---- acts

fn value(alloc: Global, cell: Cell) -> Result<Value, Fail> {
    match cell {
        Number(n) => Ok(Value::Int(n)),
        Word(text) => Ok(Value::Text(Text::of(alloc, text.as_bytes())?)),
    }
}

fn row(alloc: Global, cells: &[Cell]) -> Result<Row, Fail> {
    let mut values = Vec::new(alloc);
    for cell in cells {
        values.push(value(alloc, *cell)?)?;
    }
    Ok(Row::of(values))
}

/// The table of a number, of so many.
fn table(count: u32, number: u32) -> Result<Id, Fail>
    ensures { IfOk result (λ id. id < count) }
{
    if number >= count {
        return Err(Fail::new("no such table"));
    }
    Ok(Id(number))
}

/// The act of a step, on a table of the engine.
fn act(alloc: Global, engine: &Engine, step: Step) -> Result<Act, Fail>
    ensures { IfOk result (IsAsked engine.now.catalog.tables) }
{
    let count = engine.catalog().tables();
    match step {
        Put(number, cells) => {
            let table = table(count, number)?;
            let row = row(alloc, cells)?;
            Ok(Act::Put { table, row })
        }
        Show(number) => {
            let table = table(count, number)?;
            Ok(Act::Show { table })
        }
    }
}

/// Does an act.
fn does(
    alloc: Global,
    engine: &mut Engine,
    session: u64,
    act: &Act,
    said: &mut Vec<u8>,
) -> Result<(), Fail>
    requires { IsAsked engine.old.catalog.tables act.now }
    ensures { OnOk result (live (past engine.new) ≡ live (past engine.old)) }
{
    let reply = engine.act(session, act)?;
    let text = reply_text(alloc, engine.catalog().defs(), &reply)?;
    said.extend_from_slice(text.as_slice())?;
    Ok(())
}

/// Does a step, and appends the text of its reply.
fn takes(
    alloc: Global,
    engine: &mut Engine,
    session: u64,
    step: Step,
    said: &mut Vec<u8>,
) -> Result<(), Fail>
    ensures { OnOk result (live (past engine.new) ≡ live (past engine.old)) }
{
    let act = act(alloc, engine, step)?;
    does(alloc, engine, session, &act, said)
}

// ---- transactions

/// Begins a transaction that is then alone.
fn open(engine: &mut Engine, caller: u32, write: &[Id], read: &[Id]) -> Result<u64, BeginError>
    requires { live (past engine.old) ≡ [] }
    ensures { IfOk result (λ session. live (past engine.new) ≡ record { session = session; caller = caller } ∷ []) }
{
    engine.begin(caller, write, read)
}

/// Ends a transaction that is alone: at a moment by a commit, else by an undo.
fn close(
    engine: &mut Engine,
    caller: u32,
    session: u64,
    moment: Option<u64>,
) -> Result<Option<Fired>, Fail>
    requires { live (past engine.old) ≡ record { session = session; caller = caller } ∷ [] }
    ensures { OnOk result (live (past engine.new) ≡ []) }
{
    match moment {
        Some(moment) => {
            let fired = engine.commit(session, moment)?;
            Ok(Some(fired))
        }
        None => {
            engine.undo(session)?;
            Ok(None)
        }
    }
}

/// A whole transaction that writes the first table and reads the second: the texts of its replies are appended.
fn transact(
    alloc: Global,
    engine: &mut Engine,
    caller: u32,
    steps: &[Step],
    moment: Option<u64>,
    said: &mut Vec<u8>,
) -> Result<Option<Fired>, Fail>
    requires { live (past engine.old) ≡ [] }
    ensures { OnOk result (live (past engine.new) ≡ []) }
{
    let session = open(engine, caller, &[Id(0)], &[Id(1), Id(0), Id(1)])?;
    for step in steps {
        takes(alloc, engine, session, *step, said)?;
    }
    close(engine, caller, session, moment)
}

/// A transaction that is replied to with this text.
fn is_answered(
    rt: &impl Abort,
    alloc: Global,
    engine: &mut Engine,
    caller: u32,
    steps: &[Step],
    moment: Option<u64>,
    wanted: &str,
) -> Result<(), Fail>
    requires { live (past engine.old) ≡ [] }
    ensures { OnOk result (live (past engine.new) ≡ []) }
{
    let mut said = Vec::new(alloc);
    let _fired = transact(alloc, engine, caller, steps, moment, &mut said)?;
    assert_eq!(rt; str::from_utf8(said.as_slice())?, wanted);
    Ok(())
}

const TWO: Step = Put(0, &[Number(2), Word("b")]);

const ONE: Step = Put(0, &[Number(1), Word("it's")]);

const THREE: Step = Put(0, &[Number(3), Word("c")]);

const TWO_AGAIN: Step = Put(0, &[Number(2), Word("d")]);

const THREE_AGAIN: Step = Put(0, &[Number(3), Word("e")]);

// A third key is too many; then a key that stands.
#[test]
fn a_full_table_takes_the_keys_that_stand(rt: HostRuntime) -> Result<(), Fail> {
    let mut engine = engine(rt.alloc(), 9, &TWO_ROWS)?;
    let steps = [TWO, ONE, THREE, TWO_AGAIN, Show(0)];
    let wanted = "count 1\ncount 1\nrefused Full t 2\ncount 1\nrows 2\n(1, 'it''s')\n(2, 'd')\n";
    is_answered(&rt, rt.alloc(), &mut engine, 7, &steps, Some(5), wanted)?;
    Ok(())
}

// Steps in their order, and the replies. `t` is held to write, `u` to read, `w` not at all; `t` takes one row.
const REFUSALS: [(Step, &str); 15] = [
    (Show(2), "refused NotHeld w\n"),
    (Put(2, &[]), "refused NotHeld w\n"),
    (Put(1, &[]), "refused ReadOnly u\n"),
    (Show(1), "rows 0\n"),
    (Put(0, &[]), "refused KindMismatch 1\n"),
    (Put(0, &[Number(1)]), "refused KindMismatch 2\n"),
    (Put(0, &[Number(1), Number(1)]), "refused KindMismatch 2\n"),
    (Put(0, &[Word("a"), Number(1)]), "refused KindMismatch 1\n"),
    (
        Put(0, &[Number(2_147_483_648), Word("a"), Word("b")]),
        "refused KindMismatch 3\n",
    ),
    (
        Put(0, &[Number(2_147_483_648), Word("a")]),
        "refused OutOfRange 1 2147483648\n",
    ),
    (
        Put(0, &[Number(-2_147_483_649), Word("a")]),
        "refused OutOfRange 1 -2147483649\n",
    ),
    (Put(0, &[Number(-2_147_483_648), Word("a")]), "count 1\n"),
    (
        Put(0, &[Number(2_147_483_647), Word("a")]),
        "refused Full t 1\n",
    ),
    (
        Put(0, &[Number(2_147_483_648), Word("a")]),
        "refused OutOfRange 1 2147483648\n",
    ),
    (Show(0), "rows 1\n(-2147483648, 'a')\n"),
];

#[test]
fn refusals_come_in_their_order(rt: HostRuntime) -> Result<(), Fail> {
    let alloc = rt.alloc();
    let mut steps = Vec::new(alloc);
    let mut wanted = String::new(alloc);
    for (step, text) in REFUSALS {
        steps.push(step)?;
        wanted.push_str(text)?;
    }
    let mut engine = engine(alloc, 9, &ONE_ROW)?;
    let steps = steps.as_slice();
    is_answered(&rt, alloc, &mut engine, 7, steps, None, wanted.as_str())?;
    Ok(())
}

// A new row, the same key again, and another key.
#[test]
fn an_undo_leaves_what_stood_before(rt: HostRuntime) -> Result<(), Fail> {
    let alloc = rt.alloc();
    let mut engine = engine(alloc, 9, &THREE_ROWS)?;
    let wanted = "count 1\ncount 1\n";
    is_answered(&rt, alloc, &mut engine, 7, &[ONE, TWO], Some(0), wanted)?;
    let dropped = [THREE, THREE_AGAIN, TWO_AGAIN, Show(0)];
    let wanted = "count 1\ncount 1\ncount 1\nrows 3\n(1, 'it''s')\n(2, 'd')\n(3, 'e')\n";
    is_answered(&rt, alloc, &mut engine, 8, &dropped, None, wanted)?;
    let wanted = "rows 2\n(1, 'it''s')\n(2, 'b')\n";
    is_answered(&rt, alloc, &mut engine, 7, &[Show(0)], Some(0), wanted)?;
    Ok(())
}

// How the entries of four transactions begin: two puts, a put that the full table refuses, a show.
const ENTRIES: [&str; 12] = [
    "Some(Begin { caller: 7, session: 1,",
    "Some(Did { caller: 7, session: 1,",
    "Some(Commit { caller: 7, session: 1, moment: 5 })",
    "Some(Begin { caller: 7, session: 2,",
    "Some(Did { caller: 7, session: 2,",
    "Some(Commit { caller: 7, session: 2, moment: 5 })",
    "Some(Begin { caller: 9, session: 3,",
    "Some(Did { caller: 9, session: 3,",
    "Some(Undo { caller: 9, session: 3 })",
    "Some(Begin { caller: 8, session: 4,",
    "Some(Did { caller: 8, session: 4,",
    "Some(Commit { caller: 8, session: 4, moment: 9223372036854775808 })",
];

/// Those four transactions, committed at 5, at 3, not at all, and later than can be.
fn run(alloc: Global, engine: &mut Engine) -> Result<(), Fail>
    requires { live (past engine.old) ≡ [] }
{
    let mut said = Vec::new(alloc);
    let _fired = transact(alloc, engine, 7, &[TWO], Some(5), &mut said)?;
    let _fired = transact(alloc, engine, 7, &[ONE], Some(3), &mut said)?;
    let _fired = transact(alloc, engine, 9, &[THREE], None, &mut said)?;
    let _fired = transact(alloc, engine, 8, &[Show(0)], Some(u64::MAX), &mut said)?;
    Ok(())
}

#[test]
fn the_history_has_every_entry(rt: HostRuntime) -> Result<(), Fail> {
    let alloc = rt.alloc();
    let mut engine = engine(alloc, 9, &TWO_ROWS)?;
    run(alloc, &mut engine)?;
    assert_eq!(rt; engine.history().len(), 12);
    for (place, wanted) in ENTRIES.iter().enumerate() {
        let shown = format!(in alloc; "{:?}", engine.history().get(place as u64))?;
        assert!(rt; shown.as_str().starts_with(*wanted), "at {place}");
    }
    assert!(rt; engine.history().get(12).is_none());
    Ok(())
}

/// What an act of a session answers.
fn act_answer(alloc: Global, engine: &mut Engine, session: u64, act: &Act) -> Result<String, Fail>
    requires { IsAsked engine.old.catalog.tables act.now }
{
    let done = engine.act(session, act);
    let text = format!(in alloc; "{done:?}")?;
    Ok(text)
}

/// What a show of a session answers.
fn show_answer(alloc: Global, engine: &mut Engine, session: u64) -> Result<String, Fail> {
    let act = act(alloc, engine, Show(0))?;
    act_answer(alloc, engine, session, &act)
}

/// What an act, a commit and an undo of a session answer where session 1 is live, and how many entries there then are.
fn answers(alloc: Global, session: u64) -> Result<String, Fail> {
    let mut engine = engine(alloc, 9, &TWO_ROWS)?;
    let _first = open(&mut engine, 7, &[], &[])?;
    let done = show_answer(alloc, &mut engine, session)?;
    let committed = engine.commit(session, 1);
    let undone = engine.undo(session);
    let entries = engine.history().len();
    let text = format!(in alloc; "{done} {committed:?} {undone:?} {entries}")?;
    Ok(text)
}

#[test]
fn a_session_that_is_not_live_gets_no_answer(rt: HostRuntime) -> Result<(), Fail> {
    let none = answers(rt.alloc(), 2)?;
    assert_eq!(rt;
        none.as_str(),
        "Err(NoSession { session: 2 }) Err(NoSession { session: 2 }) Err(NoSession { session: 2 }) 1"
    );
    let ended = answers(rt.alloc(), 1)?;
    assert_eq!(rt;
        ended.as_str(),
        "Ok(Refused(NotHeld { table: Id(0) })) Ok(Fired { firings: 0, rows: 0 }) Err(NoSession { session: 1 }) 3"
    );
    Ok(())
}

#[test]
fn an_engine_shows_what_it_was_made_with(rt: HostRuntime) -> Result<(), Fail> {
    let engine = engine(rt.alloc(), 9, &TWO_ROWS)?;
    assert_eq!(rt; engine.limits(), Limits { bound_rows: 9 });
    assert_eq!(rt; engine.history().len(), 0);
    let mut names = Vec::new(rt.alloc());
    for def in engine.catalog().defs() {
        names.extend_from_slice(def.name.bytes())?;
    }
    assert_eq!(rt; names.as_slice(), b"tuw".as_slice());
    Ok(())
}

const MISFITS: [(&[Cell], &str); 3] = [
    (&[Number(7), Word("a")], "None"),
    (
        &[Number(2_147_483_648), Number(7)],
        "Some(KindMismatch { column: 2 })",
    ),
    (
        &[Number(2_147_483_648), Word("a")],
        "Some(OutOfRange { column: 1, value: 2147483648 })",
    ),
];

#[test]
fn misfits_name_a_column(rt: HostRuntime) -> Result<(), Fail> {
    let engine = engine(rt.alloc(), 9, &TWO_ROWS)?;
    let defs = engine.catalog().defs();
    assert!(rt; defs.len() == 3);
    let t = &defs[0];
    for (cells, wanted) in MISFITS {
        let row = row(rt.alloc(), cells)?;
        let misfit = row_misfit(t.columns.as_slice(), row.values());
        let shown = format!(in rt.alloc(); "{misfit:?}")?;
        assert_eq!(rt; shown.as_str(), wanted);
    }
    Ok(())
}

// ---- actions

/// Puts rows into the base table in a transaction, and appends the replies and what the commit made.
fn puts(
    alloc: Global,
    engine: &mut Engine,
    steps: &[Step],
    moment: u64,
    said: &mut Vec<u8>,
) -> Result<(), Fail>
    requires { live (past engine.old) ≡ [] }
    ensures { OnOk result (live (past engine.new) ≡ []) }
{
    let fired = transact(alloc, engine, 7, steps, Some(moment), said)?;
    let text = format!(in alloc; "{fired:?}\n")?;
    said.extend_from_slice(text.as_bytes())?;
    Ok(())
}

/// Appends the counts.
fn counts(alloc: Global, engine: &Engine, said: &mut Vec<u8>) -> Result<(), Fail> {
    let counts = engine.counts();
    let text = format!(in alloc; "{counts:?}\n")?;
    said.extend_from_slice(text.as_bytes())?;
    Ok(())
}

fn take(engine: &mut Engine, caller: u32, moment: u64) -> Result<Taken, AllocError>
    requires { live (past engine.old) ≡ [] }
    ensures none { OnOk result (live (past engine.new) ≡ []) }
    ensures given { IfOk result (Gives engine.new) }
{
    engine.start(caller, moment)
}

/// Appends all that a job shows.
fn describe(alloc: Global, job: &Job, said: &mut Vec<u8>) -> Result<(), Fail> {
    let number = job.number();
    let caller = job.caller();
    let function = job.function();
    let due = job.due();
    let rows = job.rows();
    let text = format!(in alloc;
        "job {number} of {caller}: {function} {:?} due {due} rows {rows}\n",
        job.key()
    )?;
    said.extend_from_slice(text.as_bytes())?;
    Ok(())
}

/// Starts the action that is next, appends what its job shows, and works it.
fn starts(
    alloc: Global,
    engine: &mut Engine,
    caller: u32,
    moment: u64,
    said: &mut Vec<u8>,
) -> Result<Done, Fail>
    requires { live (past engine.old) ≡ [] }
    ensures none { OnOk result (live (past engine.new) ≡ []) }
    ensures next { IfOk result (IsInOrder engine.new) }
{
    let taken = take(engine, caller, moment)?;
    let Taken::Job(job) = taken else {
        return Err(Fail::new("no job"));
    };
    describe(alloc, &job, said)?;
    let done = job.work()?;
    Ok(done)
}

fn end(engine: &mut Engine, done: Done) -> Result<(), FinishFault>
    requires none { live (past engine.old) ≡ [] }
    requires content { IsInOrder engine.old done }
    ensures { live (past engine.new) ≡ [] }
{
    engine.finish(done)
}

/// Ends a job, and appends the rows of the derived table then and the counts.
fn ends(alloc: Global, engine: &mut Engine, done: Done, said: &mut Vec<u8>) -> Result<(), Fail>
    requires none { live (past engine.old) ≡ [] }
    requires content { IsInOrder engine.old done }
    ensures { OnOk result (live (past engine.new) ≡ []) }
{
    end(engine, done)?;
    let _none = transact(alloc, engine, 7, &[Show(1)], None, said)?;
    counts(alloc, engine, said)
}

/// Takes the job back from what was worked, works it again, and ends it.
fn ends_again(
    alloc: Global,
    engine: &mut Engine,
    done: Done,
    said: &mut Vec<u8>,
) -> Result<(), Fail>
    requires none { live (past engine.old) ≡ [] }
    requires content { IsInOrder engine.old done }
{
    let job = done.job();
    describe(alloc, &job, said)?;
    let done = job.work()?;
    ends(alloc, engine, done, said)
}

// A row is bound; its action is started, worked, worked again, and finished.
const ONE_ACTION: &str = "count 1
Some(Fired { firings: 1, rows: 1 })
Counts { pending: 1, running: 0, rows: 1 }
job 1 of 8: 0 Plain { place: 2, rule: 0 } due 3 rows 1
Counts { pending: 0, running: 1, rows: 1 }
job 1 of 8: 0 Plain { place: 2, rule: 0 } due 3 rows 1
rows 1
(7, 5, 1)
Counts { pending: 0, running: 0, rows: 0 }
";

fn one_action(alloc: Global, said: &mut Vec<u8>) -> Result<(), Fail> {
    let mut engine = engine(alloc, 9, &GROUPED)?;
    let row = [Put(0, &[Number(1), Number(7), Number(5)])];
    puts(alloc, &mut engine, &row, 3, said)?;
    counts(alloc, &engine, said)?;
    let done = starts(alloc, &mut engine, 8, 0, said)?;
    counts(alloc, &engine, said)?;
    ends_again(alloc, &mut engine, done, said)
}

#[test]
fn an_action_is_started_worked_and_finished(rt: HostRuntime) -> Result<(), Fail> {
    let mut said = Vec::new(rt.alloc());
    one_action(rt.alloc(), &mut said)?;
    assert_eq!(rt; str::from_utf8(said.as_slice())?, ONE_ACTION);
    Ok(())
}

const TEN: [Step; 10] = [
    Put(0, &[Number(1), Number(7), Number(1)]),
    Put(0, &[Number(2), Number(7), Number(1)]),
    Put(0, &[Number(3), Number(7), Number(1)]),
    Put(0, &[Number(4), Number(7), Number(1)]),
    Put(0, &[Number(5), Number(7), Number(1)]),
    Put(0, &[Number(6), Number(7), Number(1)]),
    Put(0, &[Number(7), Number(7), Number(1)]),
    Put(0, &[Number(8), Number(7), Number(1)]),
    Put(0, &[Number(9), Number(7), Number(1)]),
    Put(0, &[Number(10), Number(7), Number(1)]),
];

const ELEVENTH: Step = Put(0, &[Number(11), Number(7), Number(1)]);

// Ten rows are bound, and an eleventh isn't; its transaction is in progress as before, and can be undone.
const SPENT: &str = "count 1
Err(Spent { total: 11 })
rows 11
(1, 7, 1)
(2, 7, 1)
(3, 7, 1)
(4, 7, 1)
(5, 7, 1)
(6, 7, 1)
(7, 7, 1)
(8, 7, 1)
(9, 7, 1)
(10, 7, 1)
(11, 7, 1)
Ok(())
Counts { pending: 10, running: 0, rows: 10 }
";

/// Puts ten rows, each in a transaction of its own.
fn ten_puts(alloc: Global, engine: &mut Engine) -> Result<(), Fail>
    requires { live (past engine.old) ≡ [] }
    ensures { OnOk result (live (past engine.new) ≡ []) }
{
    let mut said = Vec::new(alloc);
    for step in TEN {
        puts(alloc, engine, &[step], 0, &mut said)?;
    }
    Ok(())
}

/// Offers an eleventh row to a transaction, which can then go on and be undone.
fn eleventh(
    alloc: Global,
    engine: &mut Engine,
    session: u64,
    said: &mut Vec<u8>,
) -> Result<(), Fail> {
    takes(alloc, engine, session, ELEVENTH, said)?;
    let refused = engine.commit(session, 0);
    let text = format!(in alloc; "{refused:?}\n")?;
    said.extend_from_slice(text.as_bytes())?;
    takes(alloc, engine, session, Show(0), said)?;
    let undone = engine.undo(session);
    let text = format!(in alloc; "{undone:?}\n")?;
    said.extend_from_slice(text.as_bytes())?;
    Ok(())
}

fn spent(alloc: Global, said: &mut Vec<u8>) -> Result<(), Fail> {
    let mut engine = engine(alloc, 10, &GROUPED)?;
    ten_puts(alloc, &mut engine)?;
    let session = open(&mut engine, 7, &[Id(0)], &[])?;
    eleventh(alloc, &mut engine, session, said)?;
    counts(alloc, &engine, said)
}

#[test]
fn rules_bind_no_more_than_the_limit(rt: HostRuntime) -> Result<(), Fail> {
    let mut said = Vec::new(rt.alloc());
    spent(rt.alloc(), &mut said)?;
    assert_eq!(rt; str::from_utf8(said.as_slice())?, SPENT);
    Ok(())
}
