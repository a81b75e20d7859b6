//! What each kind of step tells.
use crate::kept::Kept;
use crate::view::View;
use atomic_table::{Join, Play, Split};

pub struct Draw;

impl<S: Kept> Play<Option<S>, View<S::Entry, S::Fixed>> for Draw {
    ghost use Rattle.strip_gate.specs.Steps.{draws};

    ghost then = { draws };
}

pub struct Look;

impl<S: Kept> Play<Option<S>, View<S::Entry, S::Fixed>> for Look {
    ghost use Rattle.strip_gate.specs.Steps.{looks};

    ghost then = { looks S.kept S.fixed S.caller };
}

pub struct Append;

impl<S: Kept> Play<Option<S>, View<S::Entry, S::Fixed>> for Append {
    ghost use Rattle.strip_gate.specs.Steps.{appends};

    ghost then = { appends S.kept };
}

pub struct PassOn;

impl<S: Kept> Play<Option<S>, View<S::Entry, S::Fixed>> for PassOn {
    ghost use Rattle.strip_gate.specs.Steps.{passes};

    ghost then = { passes S.caller };
}

pub struct Mark;

impl<S: Kept> Play<Option<S>, View<S::Entry, S::Fixed>> for Mark {
    ghost use Rattle.strip_gate.specs.Steps.{marks};

    ghost then = { marks S.caller };
}

pub struct Settle;

impl<S: Kept> Play<Option<S>, View<S::Entry, S::Fixed>> for Settle {
    ghost use Rattle.strip_gate.specs.Steps.{settles};

    ghost then = { settles S.caller };
}

pub struct Cut;

impl<E, F> Split<View<E, F>> for Cut {
    ghost use Rattle.strip_gate.specs.Steps.{lessened, given};

    ghost left = { lessened };

    ghost right = { given };
}

pub struct Merge;

impl<E, F> Join<View<E, F>> for Merge {
    ghost use Rattle.strip_gate.specs.Steps.{joined, spent};

    ghost both = { joined };

    ghost spent = { spent };
}
