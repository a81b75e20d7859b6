//! The turn of a pass.
ghost use Rattle.std.specs.Prelude.{◌≡◌};

use crate::kept::Kept;
use std::marker::Model;

/// The state, for as long as a pass has the turn. Contracts see it as the state. It has to be given back by `Gate::leave`.
pub struct Turn<S: Kept> {
    pub(crate) state: S,
}

impl<S: Kept> Model for Turn<S> {
    ghost Value = { S };

    ghost view = { λ t. t.state };
}

impl<S: Kept> Turn<S> {
    ghost use Rattle.std.specs.Prelude.{◌≡◌};
    ghost use Rattle.std.specs.Borrow.{Lends, sem};
    ghost use Rattle.strip_gate.specs.contracts.turn.Turn.{the_row};

    /// The state, to be read and written.
    pub fn state(&mut self) -> &mut S
        ensures* writes_back { sem 𝓛 (Lends (the_row S.row S.Entry.row S.Fixed.row S.Kept) S.row self.entry result (λ w. w)) }
        ensures value { result.now ≡ self.old }
    {
        &mut self.state
    }
}
