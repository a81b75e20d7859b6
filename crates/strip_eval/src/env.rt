//! What queries read.
ghost use Rattle.std.specs.Prelude.{◌≡◌};
ghost use Rattle.strip_value.specs.Query.{Environment};

use std::marker::Model;
use strip_table::Table;
use strip_value::Moved;

/// Where the entries of a query take their rows from: the tables as they stand, as they stood when a transaction began, and
/// what was moved in one table since.
#[derive(Drop)]
pub struct Env<'a> {
    now: &'a [Table],
    before: &'a [Table],
    moved: &'a Moved,
}

impl<'a> Model for Env<'a> {
    ghost use Rattle.strip_value.specs.Query.{Environment};
    ghost use Rattle.strip_eval.specs.Codes.{environment_code};

    ghost Value = { Environment };

    ghost coded = { environment_code };

    ghost view = { λ e. record { now = e.now.now; before = e.before.now; moved = e.moved.now } };
}

impl<'a> Env<'a> {
    pub fn new(now: &'a [Table], before: &'a [Table], moved: &'a Moved) -> Env<'a>
        ensures { result ≡ record { now = now.now; before = before.now; moved = moved.now } }
    {
        Env { now, before, moved }
    }

    /// The tables as they stand.
    pub(crate) fn now(&self) -> &'a [Table]
        ensures { result.now ≡ self.entry.now.now }
    {
        self.now
    }

    /// The tables as they stood when the transaction began.
    pub(crate) fn before(&self) -> &'a [Table]
        ensures { result.now ≡ self.entry.now.before }
    {
        self.before
    }

    /// What was moved since.
    pub(crate) fn moved(&self) -> &'a Moved
        ensures { result.now ≡ self.entry.now.moved }
    {
        self.moved
    }
}
