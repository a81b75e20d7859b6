//! What is declared, as the checks see it.
ghost use Rattle.std.specs.Prelude.{◌≡◌, Bool};
ghost use Rattle.strip_setup.specs.Catalog.{Catalog};

use std::marker::Model;
use strip_value::{Function, Rule, Stream, TableDef};

/// What a statement of setup is checked against: what is declared before it, each kind by its numbers, and whether setup is
/// over. A catalog lends it.
#[derive(Drop)]
pub struct Setup<'a> {
    tables: &'a [TableDef],
    streams: &'a [Stream],
    functions: &'a [Function],
    rules: &'a [Rule],
    closed: bool,
}

impl<'a> Model for Setup<'a> {
    ghost use Rattle.strip_setup.specs.Catalog.{Catalog};
    ghost use Rattle.strip_setup.specs.Codes.{catalog_code};

    ghost Value = { Catalog };

    ghost coded = { catalog_code };

    ghost view = { λ s. record {
      tables = s.tables.now;
      streams = s.streams.now;
      functions = s.functions.now;
      rules = s.rules.now;
      closed = s.closed;
    } };
}

impl<'a> Setup<'a> {
    /// The parts of a catalog, lent.
    pub fn new(
        tables: &'a [TableDef],
        streams: &'a [Stream],
        functions: &'a [Function],
        rules: &'a [Rule],
        closed: bool,
    ) -> Setup<'a>
        ensures { result ≡ record { tables = tables.now; streams = streams.now; functions = functions.now; rules = rules.now; closed = closed } }
    {
        Setup {
            tables,
            streams,
            functions,
            rules,
            closed,
        }
    }

    /// The definitions of all tables.
    pub fn defs(&self) -> &'a [TableDef]
        ensures { result.now ≡ self.now.tables }
    {
        self.tables
    }

    /// The streams, by their numbers.
    pub fn streams(&self) -> &'a [Stream]
        ensures { result.now ≡ self.now.streams }
    {
        self.streams
    }

    /// The functions, by their numbers.
    pub fn functions(&self) -> &'a [Function]
        ensures { result.now ≡ self.now.functions }
    {
        self.functions
    }

    /// The rules, by their numbers.
    pub fn rules(&self) -> &'a [Rule]
        ensures { result.now ≡ self.now.rules }
    {
        self.rules
    }

    /// Whether setup is over.
    pub fn is_ready(&self) -> bool
        ensures { result ≡ self.now.closed }
    {
        self.closed
    }
}
