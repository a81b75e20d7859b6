//! A pass, with which a thread takes turns.
ghost use Rattle.std.specs.Prelude.{◌≡◌, ◌<◌, ◌≤◌};
ghost use Rattle.strip_gate.specs.Pass.{HasEntries};

use crate::kept::Kept;
use crate::view::Place;
use std::marker::Model;

/// The weight of the pass that a gate is made with. `Gate::close` needs all of it.
pub const WHOLE: u64 = 1_048_576;

/// What a thread needs to take turns. Contracts see it as a `PassView`: its caller number, its weight, what it has seen, and more.
///
/// A pass that is let go keeps its weight, so that its gate cannot be closed any more. One that is let go with the turn
/// leaves the others waiting for ever.
#[derive(Drop)]
pub struct Pass<S: Kept> {
    pub(crate) place: Place<S>,
    pub(crate) caller: u32,
    pub(crate) weight: u64,
    pub(crate) next: u32,
    pub(crate) spare: u64,
    // The number of entries at the enter, while it has the turn.
    pub(crate) count: Option<u64>,
}

impl<S: Kept> Model for Pass<S> {
    ghost use Rattle.strip_gate.specs.Pass.{PassView};
    ghost use Rattle.strip_gate.specs.Steps.{IsPass, pass_view};
    ghost use Rattle.std.specs.Prelude.{is_some};

    ghost Value = { PassView S.Entry S.Fixed };

    ghost view = { λ p. pass_view p.place.table_id p.place.me.0 (is_some p.count) };

    ghost invariant = { λ p. IsPass S.caller p.place.table_id p.place.me p.caller p.weight p.next p.spare p.count };
}

impl<S: Kept> Pass<S> {
    /// The number under which this pass's entries stand in the history, below `WHOLE`.
    pub fn caller(&self) -> u32
        ensures caller { result ≡ self.now.caller }
        ensures below { result < WHOLE }
        ensures entries { HasEntries S.caller self.now }
    {
        self.caller
    }

    /// How much of `WHOLE` it has.
    pub fn weight(&self) -> u64
        ensures weight { result ≡ self.now.weight }
        ensures bounds { (0 < result) × (result ≤ WHOLE) }
    {
        self.weight
    }

    /// How many caller numbers it can still hand out by `Gate::split`.
    pub fn spare(&self) -> u64
        ensures spare { result ≡ self.now.spare }
        ensures below { result < self.now.weight }
    {
        self.spare
    }
}
