//! The jobs of a script: it starts them, and works them when it is asked to finish them.
ghost use Rattle.std.specs.Prelude.{◌≡◌, ◌<◌, [], get_or, vec_len, IfOk};
ghost use Rattle.strip_script.specs.Keeping.{job_place, no_task};
ghost use Rattle.strip_script.specs.Script.{start_step, finish_said, job_line};
ghost use Rattle.strip_script.specs.Session.{FinishesJob, StartsJob};
ghost use Rattle.strip_script.specs.Stages.{IsIdle, IsRefused, IsStep, stage_of};
ghost use Rattle.strip_engine.specs.Calls.{HasContent};
ghost use Rattle.strip_script.specs.declared.script.Stage.TheVariants as code;
ghost use Rattle.strip_meaning.specs.Contents.{no_function};
ghost use Rattle.strip_engine.specs.State.{fixed, past};
ghost use Rattle.strip_model.specs.History.{live};
ghost use Rattle.strip_model.specs.Says.{says, to_start, to_finish};

use crate::database::Database;
use crate::script::{Answer, Script, Stage};
use std::alloc::{AllocError, Global};
use strip_engine::{Engine, FinishError, Job, Taken};
use strip_model::{
    empty_text, finished_text, in_hand_text, job_text, not_due_text, not_running_text,
};
use strip_value::Function;

/// Where the job of a number stands.
fn place_of(jobs: &[Job], number: u128) -> Option<usize>
    ensures { result ≡ job_place 0 jobs.now number }
{
    let mut at = 0;
    for job in jobs {
        if job.number() as u128 == number {
            return Some(at);
        }
        at += 1;
    }
    None
}

/// The name of a function; none of a number that no function has.
fn name_of(functions: &[Function], number: u32) -> &[u8]
    ensures { result.now ≡ (get_or functions.now number no_function).name }
{
    match functions.get(number as usize) {
        Some(function) => function.name.bytes(),
        None => &[],
    }
}

fn text_of_job(alloc: Global, functions: &[Function], job: &Job) -> Result<Vec<u8>, AllocError>
    ensures { IfOk result (λ text. text.items ≡ job_line functions.now job.now) }
{
    job_text(
        alloc,
        name_of(functions, job.function()),
        job.number(),
        job.key(),
        job.due(),
        job.rows(),
    )
}

/// Starts the first action that is due, keeps its job, and gives the text of the answer.
fn start_job(alloc: Global, engine: &mut Engine, jobs: &mut Vec<Job>) -> Result<Vec<u8>, AllocError>
    ensures { IfOk result (StartsJob engine.old jobs.old.items engine.new jobs.new.items) }
{
    match engine.start(0, 0)? {
        Taken::Job(job) => {
            let text = text_of_job(alloc, engine.catalog().functions(), &job)?;
            jobs.push(job)?;
            Ok(text)
        }
        Taken::NotDue { next } => not_due_text(alloc, next),
        Taken::InHand { number } => in_hand_text(alloc, number),
        Taken::Empty => empty_text(alloc),
    }
}

/// What a start is answered.
pub(crate) fn start(alloc: Global, database: Database) -> Result<Answer, AllocError>
    requires { IsIdle database }
    ensures { IfOk result (IsStep (start_step (stage_of (code.Running database)) (says (fixed database.engine) (past database.engine) (to_start 0 0)))) }
{
    let mut database = database;
    let text = start_job(alloc, &mut database.engine, &mut database.jobs)?;
    Ok(Answer {
        text,
        refused: false,
        script: Script::at(Stage::Running(database)),
    })
}

/// Works the job at a place and finishes it. Where it isn't running, it is kept.
fn finish_job(engine: &mut Engine, jobs: &mut Vec<Job>, at: usize) -> Result<bool, AllocError>
    requires there { at < vec_len jobs.old }
    requires alone { live (past engine.old) ≡ [] }
    requires content { HasContent (fixed engine.old) (past engine.old) (get_or jobs.old.items at no_task) }
    ensures { IfOk result (FinishesJob engine.old jobs.old.items at engine.new jobs.new.items) }
{
    let Ok(done) = jobs.remove(at).work() else {
        return Err(AllocError);
    };
    let Err(fault) = engine.finish(done) else {
        return Ok(true);
    };
    match fault.why {
        FinishError::NotRunning { .. } => {
            jobs.push(fault.done.job())?;
            Ok(false)
        }
        FinishError::Memory => Err(AllocError),
        FinishError::Blocked { .. } => unreachable!(),
    }
}

fn not_running(alloc: Global, database: Database, number: u128) -> Result<Answer, AllocError>
    ensures { IfOk result (IsRefused database number) }
{
    let text = not_running_text(alloc, number)?;
    Ok(Answer {
        text,
        refused: true,
        script: Script::at(Stage::Running(database)),
    })
}

/// What the finish of a number is answered: its job is worked, and its sums are added.
pub(crate) fn finish(alloc: Global, database: Database, number: u128) -> Result<Answer, AllocError>
    requires { IsIdle database }
    ensures { IfOk result (IsStep (finish_said (stage_of (code.Running database)) number (says (fixed database.engine) (past database.engine) (to_finish number)))) }
{
    let mut database = database;
    let Some(at) = place_of(database.jobs.as_slice(), number) else {
        return not_running(alloc, database, number);
    };
    let text = finished_text(alloc, database.jobs[at].number())?;
    if !finish_job(&mut database.engine, &mut database.jobs, at)? {
        return not_running(alloc, database, number);
    }
    Ok(Answer {
        text,
        refused: false,
        script: Script::at(Stage::Running(database)),
    })
}
