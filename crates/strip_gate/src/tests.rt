//! A journal behind a gate: what the gate's contract alone shows of a state with one call, and what many turns leave.
ghost use Rattle.std.specs.Prelude.{◌≡◌, ℕ, ◌+◌, ◌-◌, ◌<◌, [], ◌∷◌, ◌++◌, length, IfOk, OnErr, false};
ghost use Rattle.strip_gate.specs.History.{StartsWith, StandsAt};
ghost use Rattle.std.specs.Thread.{IsSync};

use crate::{Gate, Kept, Pass, WHOLE};
use std::alloc::{AllocError, Global};
use std::sync::Wait;
use std::test::Fail;
use std::thread::{Threads, join};

// Who wrote a line, and what.
#[derive(Clone, Copy)]
pub struct Line {
    pub by: u32,
    pub value: u64,
}

pub struct Journal {
    pub lines: Vec<Line>,
    pub number: u32,
}

impl Kept for Journal {
    type Entry = Line;

    type Fixed = u32;

    ghost kept = { λ s. s.lines.items };

    ghost fixed = { λ s. s.number };

    ghost caller = { λ e. e.by };

    fn entries(&self) -> u64 {
        self.lines.len() as u64
    }
}

impl Journal {
    // Adds a line, and answers its place.
    fn add(&mut self, by: u32, value: u64) -> Result<u64, AllocError>
        ensures ok { IfOk result (λ n. (n ≡ length self.old.lines.items) × (self.new.lines.items ≡ self.old.lines.items ++ record { by = by; value = value } ∷ [])) }
        ensures err { OnErr result (self.new.lines.items ≡ self.old.lines.items) }
        ensures number { self.new.number ≡ self.old.number }
    {
        let place = self.lines.len() as u64;
        self.lines.push(Line { by, value })?;
        Ok(place)
    }
}

// The call over the gate: one turn, in which a line is added.
fn add<R: Wait>(
    rt: &R,
    gate: &Gate<Journal>,
    pass: &mut Pass<Journal>,
    value: u64,
) -> Result<u64, AllocError>
    requires gate { pass.old.gate ≡ gate.now }
    requires idle { pass.old.has_turn ≡ false }
    ensures place { IfOk result (λ n. StandsAt pass.new.seen n record { by = pass.old.caller; value = value }) }
    ensures mine { IfOk result (λ n. pass.new.mine ≡ pass.old.mine ++ (n, record { by = pass.old.caller; value = value }) ∷ []) }
    ensures err { OnErr result (pass.new.mine ≡ pass.old.mine) }
    ensures seen { StartsWith pass.new.seen pass.old.seen }
    ensures pass { pass.new ≡ record pass.old { seen = pass.new.seen; mine = pass.new.mine; turns = pass.old.turns + 1 } }
{
    let by = pass.caller();
    let mut turn = gate.enter(rt, pass);
    let reply = turn.state().add(by, value);
    gate.leave(pass, turn);
    reply
}

// Two threads add a line each. Each reply stands at its place in the one history.
fn add_both<R: Threads + Wait + Sync>(
    rt: &R,
    gate: &Gate<Journal>,
    pass: Pass<Journal>,
    x: u64,
    y: u64,
) -> (
    Pass<Journal>,
    Result<u64, AllocError>,
    Result<u64, AllocError>,
)
    requires gate { pass.gate ≡ gate.now }
    requires idle { pass.has_turn ≡ false }
    requires spare { 0 < pass.spare }
    ensures first { IfOk result.1 (λ n. StandsAt result.0.seen n record { by = pass.caller; value = x }) }
    ensures second { IfOk result.2 (λ n. StandsAt result.0.seen n record { by = pass.spare_from; value = y }) }
    ensures pass { (result.0.gate ≡ pass.gate) × (result.0.weight ≡ pass.weight) × (result.0.has_turn ≡ false) }
{
    let (one, two) = gate.split(pass, 1);
    let ((one, a), (two, b)) = join(
        rt,
        move || add_as(rt, gate, one, x),
        move || add_as(rt, gate, two, y),
    );
    (gate.join(one, two), a, b)
}

fn add_as<R: Wait>(
    rt: &R,
    gate: &Gate<Journal>,
    mut pass: Pass<Journal>,
    value: u64,
) -> (Pass<Journal>, Result<u64, AllocError>)
    requires gate { pass.gate ≡ gate.now }
    requires idle { pass.has_turn ≡ false }
    ensures place { IfOk result.1 (λ n. StandsAt result.0.seen n record { by = pass.caller; value = value }) }
    ensures pass { result.0 ≡ record pass { seen = result.0.seen; mine = result.0.mine; turns = pass.turns + 1 } }
{
    let reply = add(rt, gate, &mut pass, value);
    (pass, reply)
}

// Adds the numbers below `count`, a turn for each.
fn add_all<R: Wait>(
    rt: &R,
    gate: &Gate<Journal>,
    mut pass: Pass<Journal>,
    count: u64,
) -> Pass<Journal>
    requires gate { pass.gate ≡ gate.now }
    requires idle { pass.has_turn ≡ false }
    ensures { (result.gate ≡ pass.gate) × (result.weight ≡ pass.weight) × (result.has_turn ≡ false) × (result.turns ≡ pass.turns + count) }
{
    for value in 0..count {
        let _ = add(rt, gate, &mut pass, value);
    }
    pass
}

// Four threads add so many numbers each.
fn add_by_four<R: Threads + Wait + Sync>(
    rt: &R,
    gate: &Gate<Journal>,
    pass: Pass<Journal>,
    count: u64,
) -> Pass<Journal>
    requires gate { pass.gate ≡ gate.now }
    requires idle { pass.has_turn ≡ false }
    requires spare { 2 < pass.spare }
    ensures { (result.gate ≡ pass.gate) × (result.weight ≡ pass.weight) × (result.has_turn ≡ false) }
{
    let (a, b) = gate.split(pass, 1);
    let (a, c) = gate.split(a, 1);
    let (a, d) = gate.split(a, 1);
    let (first, second) = join(
        rt,
        move || -> Pass<Journal>
            requires { IsSync R.row × (a.gate ≡ gate.now) × (b.gate ≡ gate.now) × (a.has_turn ≡ false) × (b.has_turn ≡ false) }
            ensures { (result.gate ≡ a.gate) × (result.weight ≡ a.weight + b.weight) × (result.has_turn ≡ false) }
        { add_by_two(rt, gate, a, b, count) },
        move || -> Pass<Journal>
            requires { IsSync R.row × (c.gate ≡ gate.now) × (d.gate ≡ gate.now) × (c.has_turn ≡ false) × (d.has_turn ≡ false) }
            ensures { (result.gate ≡ c.gate) × (result.weight ≡ c.weight + d.weight) × (result.has_turn ≡ false) }
        { add_by_two(rt, gate, c, d, count) },
    );
    gate.join(first, second)
}

fn add_by_two<R: Threads + Wait + Sync>(
    rt: &R,
    gate: &Gate<Journal>,
    a: Pass<Journal>,
    b: Pass<Journal>,
    count: u64,
) -> Pass<Journal>
    requires gate { (a.gate ≡ gate.now) × (b.gate ≡ gate.now) }
    requires idle { (a.has_turn ≡ false) × (b.has_turn ≡ false) }
    ensures { (result.gate ≡ a.gate) × (result.weight ≡ a.weight + b.weight) × (result.has_turn ≡ false) }
{
    let (a, b) = join(
        rt,
        move || add_all(rt, gate, a, count),
        move || add_all(rt, gate, b, count),
    );
    gate.join(a, b)
}

fn opened(alloc: Global) -> Result<(Gate<Journal>, Pass<Journal>), AllocError>
    ensures { IfOk result (λ r. (r.1.gate ≡ r.0) × (r.1.weight ≡ WHOLE) × (r.1.spare ≡ WHOLE - 1) × (r.1.has_turn ≡ false)) }
{
    let journal = Journal {
        lines: Vec::new(alloc),
        number: 7,
    };
    match Gate::new(alloc, journal) {
        Ok(made) => Ok(made),
        Err((journal, failed)) => {
            let Journal {
                lines: _,
                number: _,
            } = journal;
            Err(failed)
        }
    }
}

#[test]
fn four_threads_take_a_thousand_turns_each(rt: HostRuntime) -> Result<(), Fail> {
    let (gate, pass) = opened(rt.alloc())?;
    let pass = add_by_four(&rt, &gate, pass, 1000);
    let Journal { lines, number } = gate.close(pass);
    assert_eq!(rt; lines.len(), 4000);
    assert_eq!(rt; number, 7);
    for by in 0..4 {
        let mut next = 0;
        for line in lines.iter().filter(|line| line.by == by) {
            assert_eq!(rt; line.value, next);
            next = line.value.wrapping_add(1);
        }
        assert_eq!(rt; next, 1000);
    }
    Ok(())
}

#[test]
fn two_threads_are_told_their_places(rt: HostRuntime) -> Result<(), Fail> {
    let (gate, pass) = opened(rt.alloc())?;
    let (pass, x, y) = add_both(&rt, &gate, pass, 5, 6);
    let Journal { lines, number: _ } = gate.close(pass);
    assert!(rt; x.is_ok() && y.is_ok());
    let (x, y) = (x? as usize, y? as usize);
    assert_eq!(rt; lines.len(), 2);
    assert!(rt; x < 2 && y < 2);
    assert_eq!(rt; (lines[x].by, lines[x].value), (0, 5));
    assert_eq!(rt; (lines[y].by, lines[y].value), (1, 6));
    Ok(())
}

#[test]
fn a_pass_shows_its_numbers(rt: HostRuntime) -> Result<(), Fail> {
    let (gate, pass) = opened(rt.alloc())?;
    assert_eq!(rt;
        (pass.caller(), pass.weight(), pass.spare()),
        (0, 1_048_576, 1_048_575)
    );
    let (first, second) = gate.split(pass, 3);
    assert_eq!(rt;
        (first.caller(), first.weight(), first.spare()),
        (0, 1_048_573, 1_048_572)
    );
    assert_eq!(rt;
        (second.caller(), second.weight(), second.spare()),
        (1, 3, 2)
    );
    let pass = gate.join(first, second);
    assert_eq!(rt;
        (pass.caller(), pass.weight(), pass.spare()),
        (0, 1_048_576, 1_048_572)
    );
    let Journal { lines, number: _ } = gate.close(pass);
    assert!(rt; lines.is_empty());
    Ok(())
}
