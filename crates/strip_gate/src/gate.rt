//! The gate.
ghost use Rattle.std.specs.Prelude.{◌≡◌, ℕ, ◌+◌, ◌-◌, ◌<◌, ◌≤◌, ◌⊎◌, [], ◌∷◌, ◌++◌, length, Some, None, All, IfOk, IfErr, true, false};
ghost use Rattle.strip_gate.specs.History.{StartsWith, longer, entries_of};
ghost use Rattle.strip_gate.specs.Pass.{HasEntries, IsNamed};

use crate::kept::Kept;
use crate::pass::{Pass, WHOLE};
use crate::steps::{begin_turn, end_turn, give, take_in};
use crate::turn::Turn;
use crate::view::Room;
use atomic_table::{Refused, Table};
use std::alloc::{AllocError, Global};
use std::marker::Model;
use std::snapshot::Snapshot;
use std::sync::Wait;

/// A state that passes take turns with. Threads share it by reference.
///
/// Contracts see it as a `GateId`: which gate it is, and what no turn changes. Every call takes a pass of this gate.
pub struct Gate<S: Kept> {
    room: Room<S>,
}

impl<S: Kept> Model for Gate<S> {
    ghost use Rattle.std.specs.Prelude.{◌≡◌, Some};
    ghost use Rattle.strip_gate.specs.Pass.{GateId};

    ghost Value = { GateId S.Fixed };

    ghost view = { λ g. record { table = g.room.shared.table_id; fixed = Some (S.fixed g.room.shared.key.value) } };

    ghost invariant = { λ g. (g.room.shared.table_id.words ≡ 3) × (g.room.shared.table_id.slots ≡ 1) };
}

impl<S: Kept> Gate<S> {
    /// Makes a gate, with the one pass that has the whole weight. Where there is no memory, the state comes back.
    pub fn new(alloc: Global, state: S) -> Result<(Gate<S>, Pass<S>), (S, AllocError)>
        requires { All (λ e. S.caller e ≡ 0) (S.kept state) }
        ensures gate { IfOk result (λ r. r.0.fixed ≡ Some (S.fixed state)) }
        ensures pass { IfOk result (λ r. r.1 ≡ record {
          gate = r.0;
          caller = 0;
          weight = WHOLE;
          spare_from = 1;
          spare = WHOLE - 1;
          seen = S.kept state;
          mine = entries_of S.caller 0 (S.kept state);
          ended = [];
          turns = 0;
          has_turn = false;
        }) }
        ensures entries { IfOk result (λ r. HasEntries S.caller r.1) }
        ensures err { IfErr result (λ r. r.0 ≡ state) }
    {
        let Ok(mut slots) = Vec::with_capacity(alloc, 1) else {
            return Err((state, AllocError));
        };
        let about = Snapshot::of(&state);
        let words = [state.entries(), 0, 0];
        slots.push_reserved(Some(state));
        match Table::new(alloc, &words, slots, &about) {
            Ok((room, place)) => {
                let pass = Pass {
                    place,
                    caller: 0,
                    weight: WHOLE,
                    next: 1,
                    spare: WHOLE - 1,
                    count: None,
                };
                Ok((Gate { room }, pass))
            }
            Err(Refused { slots }) => Err((only(slots), AllocError)),
        }
    }

    /// Draws a ticket, and sleeps until it is served. Tickets are served in the order in which they were drawn.
    ///
    /// It may never return, as where another pass keeps its turn.
    pub fn enter<R: Wait>(&self, rt: &R, pass: &mut Pass<S>) -> Turn<S>
        requires gate { pass.old.gate ≡ self.now }
        requires idle { pass.old.has_turn ≡ false }
        // It has then seen all that the state has kept, and has had one turn more.
        ensures pass { pass.new ≡ record pass.old {
          seen = S.kept result;
          turns = pass.old.turns + 1;
          has_turn = true;
        } }
        ensures longer { StartsWith (S.kept result) pass.old.seen }
        ensures fixed { self.now.fixed ≡ Some (S.fixed result) }
        ensures entries { HasEntries S.caller pass.new }
    {
        let state = begin_turn(rt, &self.room.shared, &mut pass.place);
        pass.count = Some(state.entries());
        Turn { state }
    }

    /// Ends the turn, and gives the state back. The state has kept what it had at the enter, or that with one entry of the
    /// pass's caller at its end. Any other change of what it has kept, or of what no turn may change, is refused.
    pub fn leave(&self, pass: &mut Pass<S>, turn: Turn<S>)
        requires gate { pass.old.gate ≡ self.now }
        requires turn { pass.old.has_turn ≡ true }
        requires fixed { self.now.fixed ≡ Some (S.fixed turn) }
        requires kept { (S.kept turn ≡ pass.old.seen)
            ⊎ ((e : S.Entry) × (S.kept turn ≡ pass.old.seen ++ e ∷ []) × (S.caller e ≡ pass.old.caller)) }
        ensures seen { pass.new.seen ≡ S.kept turn }
        ensures same { S.kept turn ≡ pass.old.seen → pass.new ≡ record pass.old { has_turn = false } }
        ensures more { (e : S.Entry) → S.kept turn ≡ pass.old.seen ++ e ∷ [] → pass.new ≡ record pass.old {
          seen = S.kept turn;
          mine = pass.old.mine ++ (length pass.old.seen, e) ∷ [];
          has_turn = false;
        } }
        ensures entries { HasEntries S.caller pass.new }
    {
        let Turn { state } = turn;
        let Some(count) = pass.count else {
            unreachable!()
        };
        let grew = state.entries() != count;
        end_turn(&self.room.shared, &mut pass.place, state, grew);
        pass.count = None;
    }

    /// Makes a second pass, of weight `part`. Its caller number is the least spare one of the first, and the `part - 1`
    /// numbers after it are its spare ones.
    pub fn split(&self, pass: Pass<S>, part: u64) -> (Pass<S>, Pass<S>)
        requires gate { pass.gate ≡ self.now }
        requires idle { pass.has_turn ≡ false }
        requires part { (0 < part) × (part ≤ pass.spare) }
        ensures first { result.0 ≡ record pass {
          weight = pass.weight - part;
          spare_from = pass.spare_from + part;
          spare = pass.spare - part;
        } }
        ensures second { result.1 ≡ record pass {
          caller = pass.spare_from;
          weight = part;
          spare_from = pass.spare_from + 1;
          spare = part - 1;
          mine = [];
          ended = [];
          turns = 0;
        } }
        ensures entries { HasEntries S.caller result.0 × HasEntries S.caller result.1 }
    {
        let Pass {
            mut place,
            caller,
            weight,
            next,
            spare,
            count,
        } = pass;
        let other = give(&self.room.shared, &mut place, part);
        let second = Pass {
            place: other,
            caller: next,
            weight: part,
            next: next + 1,
            spare: part - 1,
            count: None,
        };
        let first = Pass {
            place,
            caller,
            weight: weight - part,
            next: next + part as u32,
            spare: spare - part,
            count,
        };
        (first, second)
    }

    /// Makes one pass of two. It has the weight of both, and keeps its own caller and spare numbers. The caller of `other`, and those that ended in
    /// `other`, have ended in it.
    pub fn join(&self, pass: Pass<S>, other: Pass<S>) -> Pass<S>
        requires gate { (pass.gate ≡ self.now) × (other.gate ≡ self.now) }
        requires idle { (pass.has_turn ≡ false) × (other.has_turn ≡ false) }
        ensures pass { result ≡ record pass {
          weight = pass.weight + other.weight;
          seen = longer pass.seen other.seen;
          ended = pass.ended ++ (other.caller, other.mine) ∷ other.ended;
        } }
        ensures seen { StartsWith result.seen pass.seen × StartsWith result.seen other.seen }
        ensures entries { HasEntries S.caller result }
    {
        let Pass {
            mut place,
            caller,
            weight,
            next,
            spare,
            count: _,
        } = pass;
        let Pass {
            place: other_place,
            caller: _,
            weight: other_weight,
            next: _,
            spare: _,
            count: _,
        } = other;
        take_in(&self.room.shared, &mut place, other_place);
        Pass {
            place,
            caller,
            weight: weight + other_weight,
            next,
            spare,
            count: None,
        }
    }

    /// Ends the gate, and gives its state back. It takes the pass that has all the weight, so no other pass is left.
    pub fn close(self, pass: Pass<S>) -> S
        requires gate { pass.gate ≡ self }
        requires idle { pass.has_turn ≡ false }
        requires whole { pass.weight ≡ WHOLE }
        ensures kept { S.kept result ≡ pass.seen }
        ensures fixed { self.fixed ≡ Some (S.fixed result) }
        // Each entry is of the pass's caller, or of one that ended in it.
        ensures named { All (λ e. IsNamed pass (S.caller e)) (S.kept result) }
    {
        let Gate { room } = self;
        let Pass {
            place,
            caller: _,
            weight: _,
            next: _,
            spare: _,
            count: _,
        } = pass;
        let mut closed = room.close_with(place);
        let slot = closed.take(0);
        closed.free();
        let Some(state) = slot else { unreachable!() };
        state
    }
}

// The one value of a row of one.
fn only<S>(mut slots: Vec<Option<S>>) -> S
    requires { (x : S) × (slots.items ≡ Some x ∷ []) }
    ensures { slots.items ≡ Some result ∷ [] }
{
    let slot = slots.pop();
    slots.destroy_empty();
    let Some(Some(state)) = slot else {
        unreachable!()
    };
    state
}
