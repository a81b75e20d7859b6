ghost use Rattle.std.specs.Prelude.{◌≡◌};
ghost use Rattle.strip_ast.specs.declared.marks.Mark.TheVariants as m;
ghost use Rattle.strip_ast.specs.Grammar.{terminal, caller as called_number};
ghost use Rattle.strip_ast.specs.Syntax.{called, statement, optional, ◌▸◌};
ghost use Rattle.strip_parse.specs.Reading.{part};
ghost use Rattle.strip_parse.specs.Taking.{IsTaken};

use crate::cursor::Cursor;
use crate::deeds::take_deed;
use crate::rules::{take_derive, take_maintain, take_rule};
use crate::setup::{take_function, take_stream, take_table};
use crate::stops::Stop;
use std::alloc::Global;
use strip_ast::{Mark, Statement};

// ["as" number]
fn take_caller(cursor: &mut Cursor) -> Result<Option<u32>, Stop>
    ensures { IsTaken (part (optional (m.As ▸ terminal called_number)) cursor.old) result cursor.new }
{
    if !cursor.skip(Mark::As) {
        return Ok(None);
    }
    let caller = cursor.caller()?;
    Ok(Some(caller))
}

// ["as" number] deed
#[tactic(auto, unfolding(strip_ast::specs::Syntax::called))]
fn take_called(alloc: Global, cursor: &mut Cursor) -> Result<Statement, Stop>
    ensures { IsTaken (part called cursor.old) result cursor.new }
{
    let caller = take_caller(cursor)?;
    let deed = take_deed(alloc, cursor)?;
    Ok(Statement::Deed { caller, deed })
}

// setup = table | stream | derive | function | rule | maintain
// statement = setup | "ready" | "at" number | ["as" number] deed
#[tactic(auto, unfolding(strip_ast::specs::Syntax::statement, strip_ast::specs::Syntax::table, strip_ast::specs::Syntax::stream, strip_ast::specs::Syntax::derive, strip_ast::specs::Syntax::function, strip_ast::specs::Syntax::rule, strip_ast::specs::Syntax::maintain))]
pub(crate) fn take_statement(alloc: Global, cursor: &mut Cursor) -> Result<Statement, Stop>
    ensures { IsTaken (part statement cursor.old) result cursor.new }
{
    if cursor.at(Mark::Table) {
        return take_table(alloc, cursor);
    }
    if cursor.at(Mark::Stream) {
        return take_stream(alloc, cursor);
    }
    if cursor.at(Mark::Derive) {
        return take_derive(alloc, cursor);
    }
    if cursor.at(Mark::Function) {
        return take_function(alloc, cursor);
    }
    if cursor.at(Mark::Rule) {
        return take_rule(alloc, cursor);
    }
    if cursor.at(Mark::Maintain) {
        return take_maintain(alloc, cursor);
    }
    if cursor.skip(Mark::Ready) {
        return Ok(Statement::Ready);
    }
    if cursor.skip(Mark::At) {
        let moment = cursor.number()?;
        return Ok(Statement::At { moment });
    }
    take_called(alloc, cursor)
}
