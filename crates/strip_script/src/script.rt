//! What the pieces of a script are answered.
ghost use Rattle.std.specs.Prelude.{◌≡◌, ◌≤◌, ◌^◌, ◌&&◌, true, not, Some, None, option_map, IfOk, IfErr};
ghost use Rattle.std.specs.List.{list_all};
ghost use Rattle.strip_script.specs.Built.{is_built as statement_is_built, is_built_deed, is_late as statement_is_late};
ghost use Rattle.strip_script.specs.Refusals.{line_of_error};
ghost use Rattle.strip_script.specs.Script.{step, act_step, acted, done_alone, built_step, deed_step, is_refused_outcome, opening as opening_at, outcome_text as text_of_outcome, refusing, silent as silent_at, statement_step, timely_step};
ghost use Rattle.strip_script.specs.Stages.{stage_of, IsActing, IsIdle, IsSteady, IsStep};
ghost use Rattle.strip_script.specs.declared.script.Stage.TheVariants as code;
ghost use Rattle.strip_ast.specs.declared.statements.Statement.TheVariants as st;
ghost use Rattle.strip_catalog.specs.Accepted.{HasText};
ghost use Rattle.strip_catalog.specs.Refusals.{refusal};
ghost use Rattle.strip_engine.specs.Asked.{IsAsked};
ghost use Rattle.strip_engine.specs.State.{fixed, past};
ghost use Rattle.strip_setup.specs.Resolve.{act_of};
ghost use Rattle.strip_value.specs.Pieces.{is_blank as blank_byte};

use crate::alone::{Outcome, act_alone, refuses};
use crate::built::{is_built, is_late};
use crate::database::Database;
use crate::jobs::{finish, start};
use crate::refusals::{
    error_text, fault_text, not_built_text, not_ready_text, oversize_text, refusal_text,
    unended_text,
};
use crate::setup::set_up;
use std::alloc::{AllocError, Global};
use std::marker::Model;
use std::mem;
use strip_ast::{Deed, ParseFail, Statement};
use strip_catalog::{Catalog, SetupError};
use strip_engine::Limits;
use strip_model::{reply_text, spent_text};
use strip_parse::parse;
use strip_value::{Act, Piece, TableDef};

/// How far a script has come.
#[derive(Drop)]
pub enum Stage {
    /// The setup is open.
    Setup { limits: Limits, catalog: Catalog },
    /// The setup is closed.
    Running(Database),
}

impl Stage {
    /// What is declared.
    fn catalog(&self) -> &Catalog
        ensures { result.now ≡ (stage_of self.now).catalog }
    {
        match self {
            Stage::Setup { catalog, .. } => catalog,
            Stage::Running(database) => database.engine.catalog(),
        }
    }
}

/// The stage of a script of which nothing was read.
pub(crate) fn opening(alloc: Global, limits: Limits) -> Stage
    ensures stage { stage_of result ≡ opening_at limits.bound_rows }
    ensures steady { limits.bound_rows ≤ 2 ^ 60 → IsSteady result }
{
    Stage::Setup {
        limits,
        catalog: Catalog::new(alloc),
    }
}

/// A script between two of its pieces.
#[derive(Drop)]
pub struct Script {
    stage: Stage,
}

impl Model for Script {
    ghost use Rattle.strip_script.specs.contracts.script.Stage.{the_row};
    ghost use Rattle.strip_script.specs.declared.script.Stage.{Stage as TheStage};

    ghost Value = { TheStage };

    ghost coded = { the_row.coded };

    ghost view = { λ s. s.stage };
}

impl Script {
    /// A script that has come so far.
    pub(crate) fn at(stage: Stage) -> Script
        ensures { result ≡ stage }
    {
        Script { stage }
    }

    /// How far it has come.
    pub(crate) fn stage(self) -> Stage
        ensures { result ≡ self }
    {
        self.stage
    }

    /// Takes the next piece, and gives what it is answered. Nothing is left of a script that memory was wanting for.
    pub(crate) fn answer(&mut self, alloc: Global, piece: Piece) -> Result<Said, AllocError>
        requires { IsSteady self.old }
        ensures { IfOk result (λ said. IsStep (step (stage_of self.old) piece) (record { text = said.text; refused = said.refused; script = self.new })) }
    {
        let script = mem::replace(self, Script::at(opening(alloc, Limits { bound_rows: 0 })));
        let answer = take_piece(alloc, script, piece)?;
        *self = answer.script;
        Ok(Said {
            text: answer.text,
            refused: answer.refused,
        })
    }
}

/// What a piece is answered.
#[derive(Drop)]
pub struct Said {
    pub text: Vec<u8>,
    pub refused: bool,
}

/// What a piece is answered, and the script after it.
#[derive(Drop)]
pub struct Answer {
    pub text: Vec<u8>,
    pub refused: bool,
    pub script: Script,
}

/// A refusal with this text, which changes nothing.
pub(crate) fn refuse_with(stage: Stage, text: Vec<u8>) -> Answer
    requires { IsSteady stage }
    ensures { IsStep (refusing (stage_of stage) text.items) result }
{
    Answer {
        text,
        refused: true,
        script: Script::at(stage),
    }
}

/// The text of an outcome, and whether it is a refusal.
fn outcome_text(
    alloc: Global,
    defs: &[TableDef],
    outcome: &Outcome,
) -> Result<(Vec<u8>, bool), AllocError>
    ensures { IfOk result (λ r. (r.0.items ≡ text_of_outcome defs.now outcome.now) × (r.1 ≡ is_refused_outcome outcome.now)) }
{
    match outcome {
        Outcome::Replied(reply) => {
            let text = reply_text(alloc, defs, reply)?;
            Ok((text, refuses(reply)))
        }
        Outcome::Overspent { total } => {
            let text = spent_text(alloc, *total)?;
            Ok((text, true))
        }
    }
}

/// What an act stands for, or the text of its refusal.
fn resolved(
    alloc: Global,
    catalog: &Catalog,
    deed: &Deed,
) -> Result<Result<Act, Vec<u8>>, AllocError>
    requires { IsActing deed.now }
    ensures stands { IfOk result (λ found. IfOk found (λ act. (refusal catalog.now (st.Deed None deed.now) ≡ None) × (act ≡ act_of catalog.now.tables deed.now))) }
    ensures refused { IfOk result (λ found. IfErr found (λ text. option_map line_of_error (refusal catalog.now (st.Deed None deed.now)) ≡ Some text.items)) }
{
    match catalog.act(deed) {
        Ok(act) => Ok(Ok(act)),
        Err(error) => {
            let text = refusal_text(alloc, &error)?;
            Ok(Err(text))
        }
    }
}

/// An act in a transaction of its own.
fn do_act(alloc: Global, database: Database, act: &Act) -> Result<Answer, AllocError>
    requires idle { IsIdle database }
    requires asked { IsAsked database.engine.catalog.tables act.now }
    ensures { IfOk result (IsStep (acted (stage_of (code.Running database)) (done_alone (fixed database.engine) (past database.engine) act.now))) }
{
    let mut database = database;
    let outcome = act_alone(alloc, &mut database.engine, act)?;
    let (text, refused) = outcome_text(alloc, database.engine.catalog().defs(), &outcome)?;
    Ok(Answer {
        text,
        refused,
        script: Script::at(Stage::Running(database)),
    })
}

/// An act in a transaction of its own, unless the catalog refuses it.
fn act_on(alloc: Global, database: Database, deed: &Deed) -> Result<Answer, AllocError>
    requires idle { IsIdle database }
    requires acts { IsActing deed.now }
    ensures { IfOk result (IsStep (act_step (stage_of (code.Running database)) deed.now (refusal database.engine.catalog (st.Deed None deed.now)))) }
{
    match resolved(alloc, database.engine.catalog(), deed)? {
        Ok(act) => do_act(alloc, database, &act),
        Err(text) => Ok(refuse_with(Stage::Running(database), text)),
    }
}

/// What a deed that is built is answered.
fn do_deed(alloc: Global, database: Database, deed: &Deed) -> Result<Answer, AllocError>
    requires idle { IsIdle database }
    requires built { is_built_deed database.engine.catalog deed.now ≡ true }
    ensures { IfOk result (IsStep (deed_step (stage_of (code.Running database)) deed.now)) }
{
    match deed {
        Deed::Start => start(alloc, database),
        Deed::Finish { number } => finish(alloc, database, *number),
        deed => act_on(alloc, database, deed),
    }
}

/// What a statement that is built is answered once the setup is closed.
fn run_on(alloc: Global, database: Database, statement: &Statement) -> Result<Answer, AllocError>
    requires idle { IsIdle database }
    requires built { statement_is_built database.engine.catalog statement.now ≡ true }
    ensures { IfOk result (IsStep (built_step (stage_of (code.Running database)) statement.now)) }
{
    match statement {
        Statement::Deed { deed, .. } => do_deed(alloc, database, deed),
        _ => {
            let text = error_text(alloc, &SetupError::Closed)?;
            Ok(refuse_with(Stage::Running(database), text))
        }
    }
}

/// Whether the statement belongs behind the setup, which is still open.
fn comes_early(stage: &Stage, statement: &Statement) -> bool
    ensures { result ≡ (statement_is_late statement.now && not (stage_of stage.now).catalog.closed) }
{
    is_late(statement) && !stage.catalog().is_ready()
}

/// What a statement is answered.
fn take_statement(alloc: Global, stage: Stage, statement: &Statement) -> Result<Answer, AllocError>
    requires steady { IsSteady stage }
    requires text { HasText statement.now }
    ensures { IfOk result (IsStep (timely_step (stage_of stage) statement.now)) }
{
    if comes_early(&stage, statement) {
        let text = not_ready_text(alloc)?;
        return Ok(refuse_with(stage, text));
    }
    if !is_built(stage.catalog(), statement)? {
        let text = not_built_text(alloc)?;
        return Ok(refuse_with(stage, text));
    }
    match stage {
        Stage::Setup { limits, catalog } => set_up(alloc, limits, catalog, statement),
        Stage::Running(database) => run_on(alloc, database, statement),
    }
}

/// No reply, which changes nothing.
fn silent(alloc: Global, script: Script) -> Answer
    requires { IsSteady script }
    ensures { IsStep (silent_at (stage_of script)) result }
{
    Answer {
        text: Vec::new(alloc),
        refused: false,
        script,
    }
}

fn is_blank(bytes: &[u8]) -> bool
    ensures { result ≡ list_all blank_byte bytes.now }
{
    bytes
        .iter()
        .all(|byte| matches!(*byte, b' ' | b'\t' | b'\r' | b'\n'))
}

/// What the bytes of a statement are answered.
fn take_bytes(alloc: Global, script: Script, bytes: &[u8]) -> Result<Answer, AllocError>
    requires { IsSteady script }
    ensures { IfOk result (IsStep (statement_step (stage_of script) bytes.now)) }
{
    if is_blank(bytes) {
        return Ok(silent(alloc, script));
    }
    match parse(alloc, bytes) {
        Ok(statement) => take_statement(alloc, script.stage(), &statement),
        Err(ParseFail::Fault(fault)) => {
            let text = fault_text(alloc, fault)?;
            Ok(refuse_with(script.stage(), text))
        }
        Err(ParseFail::Memory) => Err(AllocError),
    }
}

/// What a piece is answered.
#[tactic(auto, unfolding(crate::specs::Script::step))]
fn take_piece(alloc: Global, script: Script, piece: Piece) -> Result<Answer, AllocError>
    requires { IsSteady script }
    ensures { IfOk result (IsStep (step (stage_of script) piece)) }
{
    match piece {
        Piece::Statement(bytes) => take_bytes(alloc, script, bytes.as_slice()),
        Piece::TooLong { length, .. } => {
            let text = oversize_text(alloc, length)?;
            Ok(refuse_with(script.stage(), text))
        }
        Piece::Rest(_) => {
            let text = unended_text(alloc)?;
            Ok(refuse_with(script.stage(), text))
        }
        Piece::End => Ok(silent(alloc, script)),
    }
}
