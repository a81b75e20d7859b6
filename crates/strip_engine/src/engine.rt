ghost use Rattle.std.specs.Prelude.{◌≡◌, ◌≤◌, ◌^◌, ◌+◌, ◌<◌, true, [], length, IfOk};
ghost use Rattle.strip_engine.specs.Asked.{IsAsked};
ghost use Rattle.strip_engine.specs.Built.{IsBuilt};
ghost use Rattle.strip_engine.specs.Calls.{IsNew, BeginsSession, Acts, Commits, Undoes, Starts, Finishes, HasContent};
ghost use Rattle.strip_engine.specs.Made.{IsMade, AddsBegin};
ghost use Rattle.strip_engine.specs.Quiet.{QuietWhere};
ghost use Rattle.strip_engine.specs.State.{fixed, fixed_of, past};
ghost use Rattle.strip_model.specs.Counted.{counts};
ghost use Rattle.strip_model.specs.History.{empty_tables, live};
ghost use Rattle.strip_model.specs.Legal.{Legal};

use crate::answers::{
    ActFault, BeginError, CommitError, FinishError, FinishFault, Fired, Limits, NoSession, Taken,
};
use crate::committing::{merge, prepare_for};
use crate::finishing::add_sums;
use crate::holds::holds_of;
use crate::jobs::{Done, Job};
use crate::keepers::{Keeper, keepers_of};
use crate::queue::{Queue, place_of, stop};
use crate::starting::{next_number, prepare_start, start_first};
use crate::steps::perform;
use crate::undo::{Session, restore_all};
use std::alloc::{AllocError, Global};
use std::marker::Model;
use strip_catalog::Catalog;
use strip_model::{Entry, History};
use strip_table::Table;
use strip_value::{Act, Counts, Duplicate, Id, Reply, TableDef};

/// The latest moment: a later one counts as this.
const LAST_MOMENT: u64 = 1 << 63;

/// The database: tables, the transaction in progress, the actions that wait or run, and every entry so far.
#[derive(Drop)]
pub struct Engine {
    catalog: Catalog,
    limits: Limits,
    keepers: Vec<Keeper>,
    tables: Vec<Table>,
    history: History,
    session: Option<Session>,
    queue: Queue,
    begins: u64,
    latest: u64,
    alloc: Global,
}

impl Model for Engine {
    ghost use Rattle.strip_engine.specs.State.{State, fixed_of, state_code};

    ghost Value = { State };

    ghost coded = { state_code };

    ghost use Rattle.strip_engine.specs.Keeps.{Keeps};

    ghost view = { λ e. record {
      catalog = e.catalog;
      bound_rows = e.limits.bound_rows;
      history = e.history.entries;
    } };

    ghost invariant = { λ e. Keeps (fixed_of e.catalog e.limits.bound_rows) e.tables.items e.history.entries e.history.room e.session e.begins e.latest e.keepers.items e.queue };
}

impl Engine {
    /// An engine with empty tables and an empty history.
    pub fn new(
        alloc: Global,
        catalog: Catalog,
        limits: Limits,
    ) -> Result<Engine, (Catalog, AllocError)>
        requires closed { catalog.closed ≡ true }
        requires built { IsBuilt (fixed_of catalog limits.bound_rows) }
        requires bounded { limits.bound_rows ≤ 2 ^ 60 }
        ensures { IsNew catalog limits.bound_rows result }
    {
        let Ok(tables) = empty(alloc, catalog.defs()) else {
            return Err((catalog, AllocError));
        };
        let Ok(keepers) = keepers_of(alloc, catalog.defs(), catalog.functions()) else {
            return Err((catalog, AllocError));
        };
        Ok(Engine {
            catalog,
            limits,
            keepers,
            tables,
            history: History::new(alloc),
            session: None,
            queue: Queue::new(alloc),
            begins: 0,
            latest: 0,
            alloc,
        })
    }

    /// Begins a transaction of the caller that writes and reads these tables.
    pub fn begin(&mut self, caller: u32, write: &[Id], read: &[Id]) -> Result<u64, BeginError>
        requires { live (past self.old) ≡ [] }
        ensures { BeginsSession self.old caller write.now read.now self.new result }
    {
        let count = self.catalog.tables();
        let Ok(session) = new_session(
            self.alloc,
            caller,
            next_number(&self.history, self.begins),
            count,
            write,
            read,
        ) else {
            return Err(BeginError::Memory);
        };
        let Ok(()) = add_begin(
            self.alloc,
            &mut self.history,
            &session,
            self.queue.running.len(),
        ) else {
            return Err(BeginError::Memory);
        };
        let number = session.number;
        self.session = Some(session);
        self.begins = number;
        Ok(number)
    }

    /// Does an act in a transaction in progress. A refusal is a reply, and stands in the history. So are the rows of a query.
    pub fn act(&mut self, session: u64, act: &Act) -> Result<Reply, ActFault>
        requires { IsAsked self.old.catalog.tables act.now }
        ensures { Acts self.old session act.now self.new result }
    {
        match self.session.take() {
            Some(mut live) if live.number == session => {
                let done = perform(
                    self.alloc,
                    &mut self.tables,
                    &mut live,
                    &mut self.history,
                    act,
                    self.queue.running.len() + 1,
                );
                self.session = Some(live);
                match done {
                    Ok(reply) => Ok(reply),
                    Err(_) => Err(ActFault::Memory),
                }
            }
            other => {
                self.session = other;
                Err(ActFault::NoSession { session })
            }
        }
    }

    /// Ends a transaction: its changes stand, at the moment or at the greatest so far, if that is later, and the rules make
    /// actions of them. Where it is refused the transaction is in progress as before.
    pub fn commit(&mut self, session: u64, moment: u64) -> Result<Fired, CommitError>
        ensures { Commits self.old session moment self.new result }
    {
        let binding = match prepare_for(
            self.alloc,
            &self.session,
            session,
            self.keepers.as_slice(),
            &mut self.queue,
            self.limits.bound_rows,
        ) {
            Ok(binding) => binding,
            Err(error) => return Err(error),
        };
        let Some(live) = self.session.take() else {
            unreachable!()
        };
        let late = moment.min(LAST_MOMENT).max(self.latest);
        let fired = Fired {
            firings: binding.fired.len() as u32,
            rows: binding.rows,
        };
        merge(&mut self.queue, self.history.len(), late, binding);
        self.history.push(Entry::Commit {
            caller: live.caller,
            session,
            moment: late,
        });
        self.latest = late;
        Ok(fired)
    }

    /// Ends a transaction: its changes are dropped. It takes no memory.
    pub fn undo(&mut self, session: u64) -> Result<(), NoSession>
        ensures { Undoes self.old session self.new result }
    {
        match self.session.take() {
            Some(live) if live.number == session => {
                self.history.push(Entry::Undo {
                    caller: live.caller,
                    session,
                });
                restore_all(&mut self.tables, live.log);
                Ok(())
            }
            other => {
                self.session = other;
                Err(NoSession { session })
            }
        }
    }

    /// Takes the action that is next at the moment, or at the greatest so far, if that is later. The job is worked, by
    /// anyone, and then finished here. Only a job that is given stands in the history.
    pub fn start(&mut self, caller: u32, moment: u64) -> Result<Taken, AllocError>
        ensures { Starts self.old caller moment self.new result }
    {
        let late = moment.min(LAST_MOMENT).max(self.latest);
        let prepared = prepare_start(
            self.alloc,
            self.catalog.defs(),
            self.keepers.as_slice(),
            &mut self.queue,
            &mut self.history,
        )?;
        let Some(def) = prepared else {
            return Ok(Taken::Empty);
        };
        let job = start_first(
            self.alloc,
            caller,
            late,
            def,
            &mut self.queue,
            &mut self.history,
        );
        self.latest = late;
        Ok(Taken::Job(job))
    }

    /// Ends a job: its sums are added to the derived table. Where that is refused, the job comes back, it is still running,
    /// and the tables are as before.
    pub fn finish(&mut self, done: Done) -> Result<(), FinishFault>
        requires alone { live (past self.old) ≡ [] }
        requires content { HasContent (fixed self.old) (past self.old) done }
        ensures { Finishes self.old done self.new result }
    {
        let number = done.number();
        let Some(at) = place_of(self.queue.running.as_slice(), number) else {
            let why = FinishError::NotRunning { number };
            return Err(FinishFault { why, done });
        };
        let table = self.keepers[self.queue.running[at].rule as usize].table;
        let Ok(()) = add_sums(self.alloc, &mut self.tables, table, done.totals()) else {
            let why = FinishError::Memory;
            return Err(FinishFault { why, done });
        };
        let started = stop(&mut self.queue, at);
        self.history.push(Entry::Finish {
            caller: started.caller,
            number: started.number,
        });
        Ok(())
    }

    /// The numbers of pending and of running actions, and of the bound rows in both together. Where none is pending and
    /// none is running, each derived table that is declared to be kept has the rows of its query over the base tables.
    pub fn counts(&self) -> Counts
        ensures counts { result ≡ counts (fixed self.now) (past self.now) }
        ensures quiet { QuietWhere self.now result }
    {
        Counts {
            pending: self.queue.waiting.len() as u64,
            running: self.queue.running.len() as u64,
            rows: self.queue.rows,
        }
    }

    /// Every entry so far, oldest first.
    pub fn history(&self) -> &History
        ensures entries { result.now.entries ≡ self.now.history }
        ensures legal { Legal (fixed self.now) (past self.now) }
    {
        &self.history
    }

    /// The catalog that the engine was made with.
    pub fn catalog(&self) -> &Catalog
        ensures { result.now ≡ self.now.catalog }
    {
        &self.catalog
    }

    /// The limits that the engine was made with.
    pub fn limits(&self) -> Limits
        ensures { result.bound_rows ≡ self.now.bound_rows }
    {
        self.limits
    }
}

fn empty(alloc: Global, defs: &[TableDef]) -> Result<Vec<Table>, AllocError>
    ensures { IfOk result (λ tables. tables.items ≡ empty_tables defs.now) }
{
    let mut tables = Vec::with_capacity(alloc, defs.len())?;
    for def in defs {
        tables.push(Table::new(alloc, def)?)?;
    }
    Ok(tables)
}

/// The next session, which holds what it asks for.
fn new_session(
    alloc: Global,
    caller: u32,
    number: u64,
    count: u32,
    write: &[Id],
    read: &[Id],
) -> Result<Session, AllocError>
    ensures { IfOk result (IsMade caller number count write.now read.now) }
{
    let holds = holds_of(alloc, count, write, read)?;
    Ok(Session {
        caller,
        number,
        holds,
        log: Vec::new(alloc),
    })
}

/// The entry of a begin, and room for the one that ends the transaction and for the finishes of the jobs that run.
fn add_begin(
    alloc: Global,
    history: &mut History,
    session: &Session,
    running: usize,
) -> Result<(), AllocError>
    requires { running < 2 ^ 63 }
    ensures { AddsBegin history.old session.now running history.new result }
{
    let held = session.holds.copy(alloc)?;
    history.reserve(running + 2)?;
    history.push(Entry::Begin {
        caller: session.caller,
        session: session.number,
        write: held.write,
        read: held.read,
    });
    Ok(())
}
