//! The steps of a turn, each over the table and the pass's seat at it.
ghost use Rattle.std.specs.Prelude.{◌≡◌, ◌≢◌, ℕ, ◌+◌, ◌%◌, ◌^◌, ◌<◌, ◌≤◌, ◌⊎◌, [], ◌∷◌, ◌++◌, Some, None, true, false};
ghost use Rattle.strip_gate.specs.History.{entries_of};
ghost use Rattle.strip_gate.specs.Pass.{HasEntries};
ghost use Rattle.strip_gate.specs.Steps.{Fits, IsIdle, HasTurn, Knows, Takes, Enters, Leaves, IsGrown, caller_in, mine_in, ended_in, log_of, IsOwn, pass_view, with_other, waiting, appended, rested, marked, lessened, given, joined};

use crate::kept::Kept;
use crate::plays::{Append, Cut, Draw, Look, Mark, Merge, PassOn, Settle};
use crate::view::{Board, LENGTH, Place, SERVING, STATE, TICKET};
use std::sync::Wait;

// Draws the next ticket.
fn draw<S: Kept>(board: &Board<S>, place: &mut Place<S>) -> u64
    requires fits { Fits board.now.table_id place.old.table_id }
    requires idle { IsIdle place.old.me.0 }
    ensures place { place.new.table_id ≡ place.old.table_id }
    ensures ticket { (n : ℕ) × (result ≡ n % 2 ^ 64) × (place.new.me ≡ (waiting n place.old.me.0, place.old.me.1)) }
{
    board.fetch_add::<Draw>(place, TICKET, 1)
}

// Sleeps until the ticket is served, and takes the state in the step that finds it so.
fn await_turn<S: Kept, R: Wait>(rt: &R, board: &Board<S>, place: &mut Place<S>, ticket: u64)
    requires fits { Fits board.now.table_id place.old.table_id }
    requires waits { (place.old.me.0.waits ≡ 1) × (place.old.me.0.holds ≡ 0) × (ticket ≡ place.old.me.0.number % 2 ^ 64) }
    ensures place { place.new.table_id ≡ place.old.table_id }
    ensures takes { Takes S.kept S.fixed S.caller place.old.me place.new.me }
{
    for _turn in rt.forever() {
        let served = board.load::<Look>(place, SERVING);
        if served == ticket {
            return;
        }
        board.park(rt, SERVING, (served % 0x1_0000_0000) as u32);
    }
    unreachable!()
}

// Moves the state out of the slot.
fn take_out<S: Kept>(board: &Board<S>, place: &mut Place<S>) -> S
    requires fits { Fits board.now.table_id place.old.table_id }
    requires taken { (x : S) × (place.old.me.1 ≡ (0, Some x) ∷ []) }
    ensures place { place.new.table_id ≡ place.old.table_id }
    ensures state { place.old.me.1 ≡ (0, Some result) ∷ [] }
    ensures after { place.new.me ≡ (place.old.me.0, (0, None) ∷ []) }
{
    let old = board.exchange(place, STATE, None);
    let Some(state) = old else { unreachable!() };
    state
}

// Moves the state back into the slot.
fn put_back<S: Kept>(board: &Board<S>, place: &mut Place<S>, state: S)
    requires fits { Fits board.now.table_id place.old.table_id }
    requires taken { place.old.me.1 ≡ (0, None) ∷ [] }
    ensures place { place.new.table_id ≡ place.old.table_id }
    ensures after { place.new.me ≡ (place.old.me.0, (0, Some state) ∷ []) }
{
    let old = board.exchange(place, STATE, Some(state));
    let None = old else { unreachable!() };
}

// Waits for a turn, and takes the state.
pub fn begin_turn<S: Kept, R: Wait>(rt: &R, board: &Board<S>, place: &mut Place<S>) -> S
    requires fits { Fits board.now.table_id place.old.table_id }
    requires idle { IsIdle place.old.me.0 × (place.old.me.1 ≡ []) }
    ensures place { place.new.table_id ≡ place.old.table_id }
    ensures enters { Enters S.kept S.fixed S.caller place.old.me place.new.me result }
{
    let ticket = draw(board, place);
    await_turn(rt, board, place, ticket);
    take_out(board, place)
}

// Counts the entry that the state has more than the pass has seen, if there is one.
fn count_entry<S: Kept>(board: &Board<S>, place: &mut Place<S>, grew: bool)
    requires fits { Fits board.now.table_id place.old.table_id }
    requires turn { HasTurn place.old.me.0 }
    requires state { (x : S) × (place.old.me.1 ≡ (0, Some x) ∷ []) }
    requires own { IsOwn (caller_in place.old.me.0.held) place.old.me.0.held }
    requires grew { grew ≡ true → IsGrown S.caller place.old.me.0 (log_of S.kept place.old.me.1) }
    requires same { grew ≡ false → log_of S.kept place.old.me.1 ≡ place.old.me.0.seen }
    ensures place { place.new.table_id ≡ place.old.table_id }
    ensures after { place.new.me ≡ (appended (log_of S.kept place.old.me.1) place.old.me.0, place.old.me.1) }
{
    if grew {
        board.fetch_add::<Append>(place, LENGTH, 1);
    }
}

// Passes the turn on, and wakes those that wait for it.
fn pass_on<S: Kept>(board: &Board<S>, place: &mut Place<S>)
    requires fits { Fits board.now.table_id place.old.table_id }
    requires turn { HasTurn place.old.me.0 }
    requires state { (x : S) × (place.old.me.1 ≡ (0, Some x) ∷ []) × (S.kept x ≡ place.old.me.0.seen) × (place.old.me.0.fixed ≡ Some (S.fixed x)) }
    ensures place { place.new.table_id ≡ place.old.table_id }
    ensures after { place.new.me ≡ (rested place.old.me.0, []) }
    ensures knows { Knows S.caller place.new.me.0 }
{
    board.fetch_add::<PassOn>(place, SERVING, 1);
    board.wake_all(SERVING);
}

// Gives the state back, and ends the turn. `grew` says whether the state has an entry more.
pub fn end_turn<S: Kept>(board: &Board<S>, place: &mut Place<S>, state: S, grew: bool)
    requires fits { Fits board.now.table_id place.old.table_id }
    requires turn { HasTurn place.old.me.0 × (place.old.me.1 ≡ (0, None) ∷ []) }
    requires own { IsOwn (caller_in place.old.me.0.held) place.old.me.0.held }
    requires fixed { place.old.me.0.fixed ≡ Some (S.fixed state) }
    requires grew { grew ≡ true → IsGrown S.caller place.old.me.0 (S.kept state) }
    requires same { grew ≡ false → S.kept state ≡ place.old.me.0.seen }
    ensures place { place.new.table_id ≡ place.old.table_id }
    ensures leaves { Leaves S.kept S.caller place.old.me place.new.me state }
{
    put_back(board, place, state);
    count_entry(board, place, grew);
    pass_on(board, place);
}

// Notes how much weight is to be given away.
fn mark<S: Kept>(board: &Board<S>, place: &mut Place<S>, part: u64)
    requires fits { Fits board.now.table_id place.old.table_id }
    ensures place { place.new.table_id ≡ place.old.table_id }
    ensures after { place.new.me ≡ (marked part place.old.me.0, place.old.me.1) }
    ensures knows { Knows S.caller place.new.me.0 × (0 < place.old.me.0.spare → entries_of S.caller place.old.me.0.spare_from place.old.me.0.seen ≡ []) }
{
    board.compare_exchange::<Mark>(place, LENGTH, part, part);
}

// Gives away so much weight, with as many spare numbers.
pub fn give<S: Kept>(board: &Board<S>, place: &mut Place<S>, part: u64) -> Place<S>
    requires fits { Fits board.now.table_id place.old.table_id }
    requires idle { IsIdle place.old.me.0 × (place.old.me.1 ≡ []) }
    requires part { (0 < part) × (part ≤ place.old.me.0.spare) × (place.old.me.0.spare < place.old.me.0.weight) }
    ensures places { (place.new.table_id ≡ place.old.table_id) × (result.table_id ≡ place.old.table_id) }
    ensures left { (place.new.me ≡ (lessened (marked part place.old.me.0), [])) × Knows S.caller place.new.me.0 }
    ensures right { (result.me ≡ (given (marked part place.old.me.0), [])) × Knows S.caller result.me.0 }
{
    mark(board, place, part);
    board.split_seat::<Cut>(place)
}

// Takes in what another pass has.
pub fn take_in<S: Kept>(board: &Board<S>, place: &mut Place<S>, other: Place<S>)
    requires fits { Fits board.now.table_id place.old.table_id × Fits board.now.table_id other.table_id }
    requires idle { IsIdle place.old.me.0 × IsIdle other.me.0 × (other.me.1 ≡ []) }
    requires own { IsOwn (caller_in place.old.me.0.held) place.old.me.0.held × IsOwn (caller_in other.me.0.held) other.me.0.held }
    ensures place { place.new.table_id ≡ place.old.table_id }
    ensures after { (place.new.me ≡ (joined place.old.me.0 other.me.0, place.old.me.1)) × Knows S.caller place.new.me.0 }
    ensures view { pass_view place.new.table_id place.new.me.0 false ≡ with_other (pass_view place.old.table_id place.old.me.0 false) (pass_view other.table_id other.me.0 false) }
    ensures entries { HasEntries S.caller (pass_view place.new.table_id place.new.me.0 false) }
{
    board.join_seat::<Merge>(place, other);
    board.load::<Settle>(place, LENGTH);
}
