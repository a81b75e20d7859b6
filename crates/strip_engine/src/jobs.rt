//! Actions that were started: what is to be done, and what was made of it.
ghost use Rattle.std.specs.Prelude.{◌≡◌, [], ◌∷◌, length, IfOk};
ghost use Rattle.strip_engine.specs.Jobs.{CanFold, Works, content_of, rows_in};
ghost use Rattle.strip_meaning.specs.Sums.{folded};
ghost use Rattle.strip_value.specs.declared.actions.Content.TheVariants.{Totals as Sums};

use std::alloc::{AllocError, Global};
use std::marker::Model;
use strip_add::{Totals, fold};
use strip_value::{ActionId, BoundList, Duplicate, KeyOf, RowList, TableDef};

/// An action that was started, to be worked and then finished. Contracts see it as the task that it is.
#[derive(Debug, Drop)]
pub struct Job {
    number: u64,
    caller: u32,
    action: ActionId,
    due: u64,
    rows: BoundList,
    def: TableDef,
    alloc: Global,
}

/// A job that was worked.
#[derive(Debug, Drop)]
pub struct Done {
    job: Job,
    totals: Totals,
}

impl Model for Job {
    ghost use Rattle.std.specs.Prelude.{length};
    ghost use Rattle.strip_model.specs.Says.{Task};
    ghost use Rattle.strip_engine.specs.Jobs.{CanFold, content_of, task_code};

    ghost Value = { Task };

    ghost coded = { task_code };

    ghost view = { λ j. record {
      number = j.number;
      caller = j.caller;
      action = j.action;
      due = j.due;
      rows = length j.rows;
      content = content_of j.def j.rows;
    } };

    ghost invariant = { λ j. CanFold j.def j.rows };
}

impl Model for Done {
    ghost use Rattle.std.specs.Prelude.{◌≡◌, [], ◌∷◌};
    ghost use Rattle.strip_value.specs.declared.actions.Content.TheVariants.{Totals as Sums};
    ghost use Rattle.strip_model.specs.Says.{Task};
    ghost use Rattle.strip_engine.specs.Jobs.{task_code};

    ghost Value = { Task };

    ghost coded = { task_code };

    ghost view = { λ d. d.job };

    ghost invariant = { λ d. d.job.content ≡ Sums d.totals ∷ [] };
}

impl Job {
    /// A job of the rows that a rule bound, which are to be added to a table of this definition.
    pub(crate) fn of(
        alloc: Global,
        number: u64,
        caller: u32,
        action: ActionId,
        due: u64,
        rows: BoundList,
        def: TableDef,
    ) -> Job
        requires { CanFold def rows }
        ensures { result ≡ record { number = number; caller = caller; action = action; due = due; rows = length rows; content = content_of def rows } }
    {
        Job {
            number,
            caller,
            action,
            due,
            rows,
            def,
            alloc,
        }
    }

    /// The number of its start, from 1.
    pub fn number(&self) -> u64
        ensures { result ≡ self.now.number }
    {
        self.number
    }

    /// Who started it.
    pub fn caller(&self) -> u32
        ensures { result ≡ self.now.caller }
    {
        self.caller
    }

    /// The number of its function.
    pub fn function(&self) -> u32
        ensures { result ≡ self.now.action.function }
    {
        self.action.function
    }

    /// What tells it from the other actions of its function.
    pub fn key(&self) -> &KeyOf
        ensures { result.now ≡ self.now.action.key }
    {
        &self.action.key
    }

    /// The moment at which it was due.
    pub fn due(&self) -> u64
        ensures { result ≡ self.now.due }
    {
        self.due
    }

    /// The number of its bound rows.
    pub fn rows(&self) -> u64
        ensures { result ≡ self.now.rows }
    {
        self.rows.len() as u64
    }

    /// Makes the sums that are to be added. It reaches no engine, so it can be done anywhere; where memory is wanting, the
    /// job comes back.
    pub fn work(self) -> Result<Done, (Job, AllocError)>
        ensures { Works self result }
    {
        match totals(self.alloc, &self.rows, &self.def) {
            Ok(totals) => Ok(Done { job: self, totals }),
            Err(wanting) => Err((self, wanting)),
        }
    }
}

impl Done {
    /// The job that was worked.
    pub fn job(self) -> Job
        ensures { result ≡ self }
    {
        self.job
    }

    /// The number of its job.
    pub(crate) fn number(&self) -> u64
        ensures { result ≡ self.now.number }
    {
        self.job.number
    }

    /// The sums to be added, by rising key.
    pub(crate) fn totals(&self) -> &Totals
        ensures { self.now.content ≡ Sums result.now ∷ [] }
    {
        &self.totals
    }
}

/// The rows, without what they are bound to.
fn plain_rows(alloc: Global, bound: &BoundList) -> Result<RowList, AllocError>
    ensures { IfOk result (λ rows. rows ≡ rows_in bound.now) }
{
    let mut rows = RowList::new(alloc);
    for bound in bound.as_slice() {
        rows.push(bound.row.copy(alloc)?)?;
    }
    Ok(rows)
}

/// The sums of the rows per key.
fn totals(alloc: Global, bound: &BoundList, def: &TableDef) -> Result<Totals, AllocError>
    requires { CanFold def.now bound.now }
    ensures { IfOk result (λ totals. totals ≡ folded def.now (rows_in bound.now)) }
{
    let rows = plain_rows(alloc, bound)?;
    fold(alloc, &rows, def, &[0, 1, 2])
}
