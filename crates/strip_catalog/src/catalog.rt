//! What is declared.
ghost use Rattle.std.specs.Prelude.{◌≡◌, ◌<◌, ◌≤◌, true, length, option_copied, IfOk};
ghost use Rattle.std.specs.Option.{IfSome};
ghost use Rattle.strip_setup.specs.Small.{AreNarrow};
ghost use Rattle.strip_meaning.specs.Contents.{def_at};
ghost use Rattle.strip_catalog.specs.Accepted.{HasText, IsDeclared};
ghost use Rattle.strip_catalog.specs.declared.additions.Addition.TheVariants as addition;
ghost use Rattle.strip_catalog.specs.Calls.{Adds, BecomesReady, IsDeclaration, Installs, Resolves, with_addition};
ghost use Rattle.strip_catalog.specs.First.{first_made};
ghost use Rattle.strip_catalog.specs.Made.{IsMade, statement_of};
ghost use Rattle.strip_catalog.specs.Suiting.{IsMeant, StandsFor, SuitsWhere};
ghost use Rattle.strip_acts.specs.Trees.{tree_of as tree_by_names};
ghost use Rattle.strip_acts.specs.Writable.{IsAct, is_written};
ghost use Rattle.strip_setup.specs.Catalog.{nothing, stream_named, table_number};

use crate::additions::{Addition, addition_of};
use crate::keeping::{first_made, kept_addition, refuse_made};
use crate::made::Made;
use crate::refusing::{refuse, refuse_act};
use std::alloc::{AllocError, Global};
use std::marker::Model;
use strip_acts::{suits, tree_of};
use strip_ast::{Deed, Statement};
use strip_setup::SetupError;
use strip_setup::acts::act_of;
use strip_setup::names::{stream_named, table_number};
use strip_setup::setup::Setup;
use strip_value::{
    Act, Duplicate, Function, FunctionList, Id, Name, Rule, RuleList, Stream, StreamList, TableDef,
    TableDefList,
};

/// The tables, streams, functions and rules of a database, each numbered from 0 in the order of declaration, and whether
/// setup is over.
#[derive(Drop)]
pub struct Catalog {
    tables: TableDefList,
    streams: StreamList,
    functions: FunctionList,
    rules: RuleList,
    closed: bool,
    alloc: Global,
}

impl Model for Catalog {
    ghost use Rattle.strip_setup.specs.Catalog.{Catalog as TheCatalog};
    ghost use Rattle.strip_setup.specs.Codes.{catalog_code};
    ghost use Rattle.strip_catalog.specs.Accepted.{IsDeclared};

    ghost Value = { TheCatalog };

    ghost coded = { catalog_code };

    ghost view = { λ c. record {
      tables = c.tables;
      streams = c.streams;
      functions = c.functions;
      rules = c.rules;
      closed = c.closed;
    } };

    ghost invariant = { λ c. IsDeclared (record {
      tables = c.tables;
      streams = c.streams;
      functions = c.functions;
      rules = c.rules;
      closed = c.closed;
    }) };
}

impl Catalog {
    /// A catalog in which nothing is declared.
    pub fn new(alloc: Global) -> Catalog
        ensures { result ≡ nothing }
    {
        Catalog {
            tables: TableDefList::new(alloc),
            streams: StreamList::new(alloc),
            functions: FunctionList::new(alloc),
            rules: RuleList::new(alloc),
            closed: false,
            alloc,
        }
    }

    /// The definitions of all tables, by their numbers.
    pub fn defs(&self) -> &[TableDef]
        ensures all { result.now ≡ self.now.tables }
        ensures declared { IsDeclared self.now }
        ensures few { length self.now.tables ≤ 64 }
        ensures narrow { AreNarrow self.now.tables }
    {
        self.tables.as_slice()
    }

    /// The functions, by their numbers.
    pub fn functions(&self) -> &[Function]
        ensures { result.now ≡ self.now.functions }
    {
        self.functions.as_slice()
    }

    /// The rules, by their numbers.
    pub fn rules(&self) -> &[Rule]
        ensures { result.now ≡ self.now.rules }
    {
        self.rules.as_slice()
    }

    /// The stream of this name; none exactly where no stream has it.
    pub fn stream(&self, name: &Name) -> Option<&Stream>
        ensures { option_copied result ≡ stream_named self.now.streams name.now }
    {
        stream_named(self.streams.as_slice(), name)
    }

    /// Whether setup is over.
    pub fn is_ready(&self) -> bool
        ensures { result ≡ self.now.closed }
    {
        self.closed
    }

    /// The number of the table of this name; none exactly where no table has it.
    pub fn find(&self, name: &Name) -> Option<Id>
        ensures is { result ≡ table_number self.now.tables name.now }
        ensures there { IfSome result (λ id. id < length self.now.tables) }
    {
        let number = table_number(self.tables.as_slice(), name)?;
        Some(Id(number as u32))
    }

    /// The definition of the table of a number, as `find` gives it.
    pub fn table(&self, id: Id) -> &TableDef
        requires { id < length self.now.tables }
        ensures { result.now ≡ def_at self.now.tables id }
    {
        &self.tables.as_slice()[id.0 as usize]
    }

    /// The number of tables: their ids are the numbers below it.
    pub fn tables(&self) -> u32
        ensures { result ≡ length self.now.tables }
    {
        self.tables.len() as u32
    }

    /// An equal catalog of its own.
    pub fn copy(&self) -> Result<Catalog, AllocError>
        ensures { IfOk result (λ copied. copied ≡ self.now) }
    {
        let tables = self.tables.copy(self.alloc)?;
        let streams = self.streams.copy(self.alloc)?;
        let functions = self.functions.copy(self.alloc)?;
        let rules = self.rules.copy(self.alloc)?;
        Ok(Catalog {
            tables,
            streams,
            functions,
            rules,
            closed: self.closed,
            alloc: self.alloc,
        })
    }

    /// Declares what the statement says, or refuses it; a refusal changes nothing.
    pub fn add(&mut self, statement: &Statement) -> Result<(), SetupError>
        requires declaration { IsDeclaration statement.now }
        requires written { HasText statement.now }
        ensures { Adds self.old statement.now self.new result }
    {
        let setup = self.setup();
        refuse(self.alloc, &setup, statement)?;
        let Ok(addition) = addition_of(self.alloc, &setup, statement) else {
            return Err(SetupError::Memory);
        };
        self.install(addition)
    }

    /// What keeps the table of this name by sums, at once; none where it isn't there or can't be kept so yet. It is for `keep`.
    pub fn kept_by_sums(&self, table: &Name) -> Result<Option<Made>, AllocError>
        ensures exact { IfOk result (λ made. made ≡ first_made self.now table.now) }
        ensures made { IfOk result (λ made. IfSome made (IsMade self.now)) }
    {
        first_made(self.alloc, &self.setup(), table)
    }

    /// Declares that a derived table is kept by what was made of it, as its `maintain` statement would; a refusal changes
    /// nothing.
    pub fn keep(&mut self, made: Made) -> Result<(), SetupError>
        requires made { IsMade self.old made }
        ensures { Adds self.old (statement_of self.old made) self.new result }
    {
        refuse_made(self.alloc, &self.setup(), &made)?;
        let Ok(addition) = kept_addition(self.alloc, &self.tables, &self.functions, made) else {
            return Err(SetupError::Memory);
        };
        self.install(addition)
    }

    /// What an act stands for: its names replaced by numbers. It is refused as a statement would be.
    pub fn act(&self, deed: &Deed) -> Result<Act, SetupError>
        requires act { IsAct deed.now }
        ensures resolves { Resolves self.now deed.now result }
        ensures suits { is_written deed.now ≡ true → IfOk result (IsMeant self.now) }
    {
        refuse_act(self.alloc, &self.setup(), deed)?;
        match act_of(self.alloc, self.tables.as_slice(), deed) {
            Ok(act) => Ok(act),
            Err(_) => Err(SetupError::Memory),
        }
    }

    /// Whether the act could be asked of these tables in words: some deed that has a text stands for it. An act that suits has
    /// its tables and columns there, and no number that it computes is too wide.
    pub fn suits(&self, act: &Act) -> bool
        ensures { SuitsWhere self.now act.now result }
    {
        suits(self.tables.as_slice(), act)
    }

    /// A deed that stands for an act: its numbers replaced by names, the entries of a query called `e1`, `e2` and `e3`. It is
    /// for writing an act down, and gives the same act again.
    pub fn tree_of(&self, act: &Act) -> Result<Deed, AllocError>
        requires { IsMeant self.now act.now }
        ensures stands { IfOk result (λ deed. StandsFor self.now deed act.now) }
        ensures tree { IfOk result (λ deed. deed ≡ tree_by_names self.now.tables act.now) }
    {
        tree_of(self.alloc, self.tables.as_slice(), act)
    }

    /// Ends setup, or answers `Closed` where it was over.
    pub fn ready(&mut self) -> Result<(), SetupError>
        ensures { BecomesReady self.old self.new result }
    {
        if self.closed {
            return Err(SetupError::Closed);
        }
        self.closed = true;
        Ok(())
    }

    /// Adds what a statement declares.
    fn install(&mut self, addition: Addition) -> Result<(), SetupError>
        requires { IsDeclared (with_addition self.old addition) }
        ensures { Installs self.old addition self.new result }
    {
        let added = match addition {
            Addition::Table(table) => self.tables.push(table),
            Addition::Stream(stream) => self.streams.push(stream),
            Addition::Function { tables, function } => {
                let added = self.functions.push(function);
                if added.is_ok() {
                    self.tables = tables;
                }
                added
            }
            Addition::Rule { functions, rule } => {
                let added = self.rules.push(rule);
                if added.is_ok() {
                    self.functions = functions;
                }
                added
            }
            Addition::Kept {
                tables,
                functions,
                rule,
            } => return self.install_kept(tables, functions, rule),
        };
        added.map_err(|_| SetupError::Memory)
    }

    /// Adds what is declared for a derived table that is kept.
    fn install_kept(
        &mut self,
        tables: TableDefList,
        functions: FunctionList,
        rule: Rule,
    ) -> Result<(), SetupError>
        requires { IsDeclared (with_addition self.old (addition.Kept tables functions rule)) }
        ensures { Installs self.old (addition.Kept tables functions rule) self.new result }
    {
        if self.rules.push(rule).is_err() {
            return Err(SetupError::Memory);
        }
        self.tables = tables;
        self.functions = functions;
        Ok(())
    }

    /// What statements are checked against.
    fn setup(&self) -> Setup<'_>
        ensures { result ≡ self.now }
    {
        Setup::new(
            self.tables.as_slice(),
            self.streams.as_slice(),
            self.functions.as_slice(),
            self.rules.as_slice(),
            self.closed,
        )
    }
}
