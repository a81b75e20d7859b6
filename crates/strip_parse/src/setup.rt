ghost use Rattle.std.specs.Prelude.{◌≡◌};
ghost use Rattle.strip_ast.specs.declared.marks.Mark.TheVariants as m;
ghost use Rattle.strip_value.specs.declared.kinds.Kind.TheVariants as kind;
ghost use Rattle.strip_ast.specs.Grammar.{either};
ghost use Rattle.strip_ast.specs.Syntax.{stands, ◌▸◌, ◌◂◌, column, columns, table, stream, step, function};
ghost use Rattle.strip_parse.specs.Reading.{part};
ghost use Rattle.strip_parse.specs.Taking.{IsTaken};

use crate::cursor::Cursor;
use crate::lists::{Part, listed};
use crate::stops::Stop;
use crate::words::{take_named, take_names, take_optional_number};
use std::alloc::Global;
use strip_ast::{Mark, Statement, StepTree};
use strip_value::{ColumnDef, ColumnDefList, Kind, NameList};

// "int" | "text"
fn take_kind(cursor: &mut Cursor) -> Result<Kind, Stop>
    ensures { IsTaken (part (either (stands m.Int kind.Int) (stands m.Text kind.Text)) cursor.old) result cursor.new }
{
    if cursor.skip(Mark::Int) {
        return Ok(Kind::Int);
    }
    cursor.expect(Mark::Text)?;
    Ok(Kind::Text)
}

// column = name ("int" | "text")
#[tactic(auto, unfolding(strip_ast::specs::Syntax::column))]
fn take_column(alloc: Global, cursor: &mut Cursor) -> Result<ColumnDef, Stop>
    ensures { IsTaken (part column cursor.old) result cursor.new }
{
    let name = cursor.name(alloc)?;
    let kind = take_kind(cursor)?;
    Ok(ColumnDef { name, kind })
}

// column {"," column} ["," "key" names]
#[tactic(auto, unfolding(strip_ast::specs::Syntax::columns))]
fn take_columns(alloc: Global, cursor: &mut Cursor) -> Result<(ColumnDefList, NameList), Stop>
    ensures { IsTaken (part columns cursor.old) result cursor.new }
{
    let mut found = ColumnDefList::new(alloc);
    let first = take_column(alloc, cursor)?;
    found.push(first)?;
    for _turn in 0..cursor.most() {
        if !cursor.skip(Mark::Comma) {
            return Ok((found, NameList::new(alloc)));
        }
        if cursor.skip(Mark::Key) {
            let key = take_names(alloc, cursor)?;
            return Ok((found, key));
        }
        let item = take_column(alloc, cursor)?;
        found.push(item)?;
    }
    Ok((found, NameList::new(alloc)))
}

// "(" column {"," column} ["," "key" names] ")"
fn take_enclosed_columns(
    alloc: Global,
    cursor: &mut Cursor,
) -> Result<(ColumnDefList, NameList), Stop>
    ensures { IsTaken (part (m.Open ▸ (columns ◂ m.Close)) cursor.old) result cursor.new }
{
    cursor.expect(Mark::Open)?;
    let (found, key) = take_columns(alloc, cursor)?;
    cursor.expect(Mark::Close)?;
    Ok((found, key))
}

// table = "table" name "(" column {"," column} ["," "key" names] ")" ["limit" number]
#[tactic(auto, unfolding(strip_ast::specs::Syntax::table))]
pub(crate) fn take_table(alloc: Global, cursor: &mut Cursor) -> Result<Statement, Stop>
    ensures { IsTaken (part table cursor.old) result cursor.new }
{
    let name = take_named(alloc, cursor, Mark::Table)?;
    let (columns, key) = take_enclosed_columns(alloc, cursor)?;
    let limit = take_optional_number(cursor, Mark::Limit)?;
    Ok(Statement::Table {
        name,
        columns,
        key,
        limit,
    })
}

// stream = "stream" name "into" name ["marked"]
#[tactic(auto, unfolding(strip_ast::specs::Syntax::stream))]
pub(crate) fn take_stream(alloc: Global, cursor: &mut Cursor) -> Result<Statement, Stop>
    ensures { IsTaken (part stream cursor.old) result cursor.new }
{
    let name = take_named(alloc, cursor, Mark::Stream)?;
    let table = take_named(alloc, cursor, Mark::Into)?;
    let marked = cursor.skip(Mark::Marked);
    Ok(Statement::Stream {
        name,
        table,
        marked,
    })
}

// step = "add" name "into" name | "redo" name "by" name
#[tactic(auto, unfolding(strip_ast::specs::Syntax::step))]
fn take_step(alloc: Global, cursor: &mut Cursor) -> Result<StepTree, Stop>
    ensures { IsTaken (part step cursor.old) result cursor.new }
{
    if cursor.at(Mark::Add) {
        let bound = take_named(alloc, cursor, Mark::Add)?;
        let into = take_named(alloc, cursor, Mark::Into)?;
        return Ok(StepTree::Add { bound, into });
    }
    let table = take_named(alloc, cursor, Mark::Redo)?;
    let by = take_named(alloc, cursor, Mark::By)?;
    Ok(StepTree::Redo { table, by })
}

#[derive(Drop)]
struct Steps;

impl Part<StepTree> for Steps {
    ghost taking = { part step };

    fn take(alloc: Global, cursor: &mut Cursor) -> Result<StepTree, Stop> {
        take_step(alloc, cursor)
    }
}

// function = "function" name step {"," step}
#[tactic(auto, unfolding(strip_ast::specs::Syntax::function))]
pub(crate) fn take_function(alloc: Global, cursor: &mut Cursor) -> Result<Statement, Stop>
    ensures { IsTaken (part function cursor.old) result cursor.new }
{
    let name = take_named(alloc, cursor, Mark::Function)?;
    let steps = listed::<StepTree, Steps>(alloc, cursor)?;
    Ok(Statement::Function { name, steps })
}
