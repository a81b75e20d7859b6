//! An act in a transaction of its own.
ghost use Rattle.std.specs.Prelude.{◌≡◌, [], IfOk, IsSome, OnOk};
ghost use Rattle.strip_script.specs.Script.{is_refusal};
ghost use Rattle.strip_script.specs.Session.{ActsAlone, BeginsFor, UndoesLive};
ghost use Rattle.strip_engine.specs.Asked.{IsAsked};
ghost use Rattle.strip_engine.specs.State.{past};
ghost use Rattle.strip_meaning.specs.Effect.{tables_asked};
ghost use Rattle.strip_model.specs.History.{live};
ghost use Rattle.strip_model.specs.Says.{live_session};

use std::alloc::{AllocError, Global};
use strip_engine::{ActFault, BeginError, CommitError, Engine};
use strip_value::{Act, Id, Input, Reply};

/// How a transaction of one act ended.
#[derive(Debug, Drop)]
pub(crate) enum Outcome {
    /// It was committed, or the act was refused and it was undone.
    Replied(Reply),
    /// It was undone, since the rows that rules have bound would be this many.
    Overspent { total: u64 },
}

/// Begins a transaction of caller 0, does the act, and commits it at moment 0, or undoes it where the act or the commit was
/// refused.
#[tactic(auto, using(crate::proofs::JobLaws::catalog_with))]
pub(crate) fn act_alone(
    alloc: Global,
    engine: &mut Engine,
    act: &Act,
) -> Result<Outcome, AllocError>
    requires idle { live (past engine.old) ≡ [] }
    requires asked { IsAsked engine.old.catalog.tables act.now }
    ensures alone { ActsAlone engine.old act.now engine.new result }
    ensures catalog { OnOk result (engine.new.catalog ≡ engine.old.catalog) }
{
    let session = begin_for(alloc, engine, act)?;
    let reply = match engine.act(session, act) {
        Ok(reply) => reply,
        Err(ActFault::Memory) => return Err(AllocError),
        Err(ActFault::NoSession { session: _ }) => unreachable!(),
    };
    if refuses(&reply) {
        undo(engine, session);
        return Ok(Outcome::Replied(reply));
    }
    match engine.commit(session, 0) {
        Ok(_fired) => Ok(Outcome::Replied(reply)),
        Err(CommitError::Spent { total }) => {
            undo(engine, session);
            Ok(Outcome::Overspent { total })
        }
        Err(CommitError::Memory) => Err(AllocError),
        Err(CommitError::NoSession { session: _ }) => unreachable!(),
    }
}

/// Whether the reply is a refusal.
pub(crate) fn refuses(reply: &Reply) -> bool
    ensures { result ≡ is_refusal reply.now }
{
    match reply {
        Reply::Refused(_cause) => true,
        _ => false,
    }
}

/// Undoes a transaction in progress.
fn undo(engine: &mut Engine, session: u64)
    requires { IsSome (live_session (past engine.old) session) }
    ensures { UndoesLive engine.old session engine.new }
{
    match engine.undo(session) {
        Ok(()) => {}
        Err(_none) => unreachable!(),
    }
}

/// The tables that the entries of a query read, one for each entry.
fn asked_tables(alloc: Global, entries: &[Input]) -> Result<Vec<Id>, AllocError>
    ensures { IfOk result (λ ids. ids.items ≡ tables_asked entries.now) }
{
    let mut ids = Vec::new(alloc);
    for entry in entries {
        if let Input::Table(id) = entry {
            ids.push(*id)?;
        }
    }
    Ok(ids)
}

/// Begins a transaction of caller 0 that does the act.
fn begin_for(alloc: Global, engine: &mut Engine, act: &Act) -> Result<u64, AllocError>
    requires idle { live (past engine.old) ≡ [] }
    requires asked { IsAsked engine.old.catalog.tables act.now }
    ensures { BeginsFor engine.old act.now engine.new result }
{
    let begun = match act {
        Act::Put { table, .. } => engine.begin(0, &[*table], &[]),
        Act::Select { query } => {
            let ids = asked_tables(alloc, query.entries.as_slice())?;
            engine.begin(0, &[], ids.as_slice())
        }
        Act::Show { table } => engine.begin(0, &[], &[*table]),
        _ => unreachable!(),
    };
    match begun {
        Ok(session) => Ok(session),
        Err(BeginError::Memory) => Err(AllocError),
        Err(_other) => unreachable!(),
    }
}
