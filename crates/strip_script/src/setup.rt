//! What the statements of the setup are answered.
ghost use Rattle.std.specs.Prelude.{◌≡◌, true, false, IfOk, is_some};
ghost use Rattle.strip_script.specs.Built.{is_built, is_late};
ghost use Rattle.strip_script.specs.Script.{built_step};
ghost use Rattle.strip_script.specs.Stages.{IsReached, IsSetUp, IsSteady, IsStep, maintain_by_sums, stage_of};
ghost use Rattle.strip_script.specs.declared.script.Stage.TheVariants as code;
ghost use Rattle.strip_catalog.specs.Accepted.{HasText};
ghost use Rattle.strip_catalog.specs.Calls.{Adds};
ghost use Rattle.strip_catalog.specs.First.{first_made};

use crate::database::open;
use crate::refusals::refusal_text;
use crate::script::{Answer, Script, Stage, refuse_with};
use std::alloc::{AllocError, Global};
use strip_ast::Statement;
use strip_catalog::{Catalog, SetupError};
use strip_engine::Limits;
use strip_value::Name;

/// The table of the name is kept by sums from now on.
fn keep(catalog: &mut Catalog, name: &Name) -> Result<(), SetupError>
    requires { is_some (first_made catalog.old name.now) ≡ true }
    ensures { Adds catalog.old (maintain_by_sums name.now) catalog.new result }
{
    match catalog.kept_by_sums(name) {
        Ok(Some(made)) => catalog.keep(made),
        Ok(None) => unreachable!(),
        Err(AllocError) => Err(SetupError::Memory),
    }
}

fn declare(catalog: &mut Catalog, statement: &Statement) -> Result<(), SetupError>
    requires early { is_late statement.now ≡ false }
    requires built { is_built catalog.old statement.now ≡ true }
    requires text { HasText statement.now }
    ensures { Adds catalog.old statement.now catalog.new result }
{
    match statement {
        Statement::Ready => catalog.ready(),
        Statement::Maintain { name, .. } => keep(catalog, name),
        _ => catalog.add(statement),
    }
}

/// The stage after a statement: the setup goes on, or is closed.
fn stage_after(alloc: Global, limits: Limits, catalog: Catalog) -> Result<Stage, AllocError>
    requires { IsSetUp limits.bound_rows catalog }
    ensures { IfOk result (λ stage. IsReached limits.bound_rows catalog stage) }
{
    if !catalog.is_ready() {
        return Ok(Stage::Setup { limits, catalog });
    }
    let database = open(alloc, limits, catalog)?;
    Ok(Stage::Running(database))
}

/// What a statement is answered while the setup is open.
pub(crate) fn set_up(
    alloc: Global,
    limits: Limits,
    catalog: Catalog,
    statement: &Statement,
) -> Result<Answer, AllocError>
    requires early { is_late statement.now ≡ false }
    requires open { IsSteady (code.Setup limits catalog) }
    requires built { is_built catalog statement.now ≡ true }
    requires text { HasText statement.now }
    ensures { IfOk result (IsStep (built_step (stage_of (code.Setup limits catalog)) statement.now)) }
{
    let mut catalog = catalog;
    match declare(&mut catalog, statement) {
        Ok(()) => Ok(Answer {
            text: Vec::from_slice(alloc, b"ok\n")?,
            refused: false,
            script: Script::at(stage_after(alloc, limits, catalog)?),
        }),
        Err(error) => {
            let text = refusal_text(alloc, &error)?;
            Ok(refuse_with(Stage::Setup { limits, catalog }, text))
        }
    }
}
