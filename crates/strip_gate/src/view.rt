//! What each pass knows, and the rule that is kept over what all passes know.
use crate::kept::Kept;
use atomic_table::{Seat, Shared, Table, TableRule};
use std::alloc::Global;
use std::collections::LinkedList;
use std::snapshot::Snapshot;

// What a pass knows. No value of it is made, and its numbers have no bound.
pub struct View<E, F> {
    // What it has seen of the history, and, where it was made of two passes, what that one had seen which had seen less.
    pub seen: LinkedList<E>,
    pub heard: LinkedList<E>,
    pub fixed: Option<F>,
    pub weight: u64,
    // 1 while it has a ticket, and the ticket's number.
    pub waits: u64,
    pub number: u64,
    // 1 while it has the turn.
    pub holds: u64,
    // The weight that it is about to give away.
    pub part: u64,
    // Its caller and then each caller that ended in it, with the caller's entries and their places.
    pub held: LinkedList<(u64, LinkedList<(u64, E)>)>,
    // Its spare caller numbers are as many as `spare`, from `spare_from` on.
    pub spare_from: u64,
    pub spare: u64,
    pub turns: u64,
}

pub struct Law;

impl<S: Kept> TableRule<Option<S>, View<S::Entry, S::Fixed>, Snapshot<S>> for Law {
    ghost use Rattle.strip_gate.specs.Rule.{IsKept};
    ghost use Rattle.strip_gate.specs.Steps.{opening_view};

    ghost holds = { λ _ s. IsKept S.kept S.fixed S.caller s };

    ghost first = { λ key. opening_view S.caller (S.kept key.value) (S.fixed key.value) };
}

// Word 0 is the number of entries, word 1 the next ticket, and word 2 the ticket that is being served, each modulo 2^64.
// The slot has the state.
pub type Room<S> = Table<
    Option<S>,
    View<<S as Kept>::Entry, <S as Kept>::Fixed>,
    Snapshot<S>,
    Law,
    Global,
>;

pub type Board<S> = Shared<
    Option<S>,
    View<<S as Kept>::Entry, <S as Kept>::Fixed>,
    Snapshot<S>,
    Law,
>;

pub type Place<S> = Seat<Option<S>, View<<S as Kept>::Entry, <S as Kept>::Fixed>>;

pub const LENGTH: usize = 0;

pub const TICKET: usize = 1;

pub const SERVING: usize = 2;

pub const STATE: usize = 0;
