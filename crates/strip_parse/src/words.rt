ghost use Rattle.std.specs.Prelude.{◌≡◌};
ghost use Rattle.strip_ast.specs.declared.marks.Mark.TheVariants as m;
ghost use Rattle.strip_ast.specs.Grammar.{terminal, name as named};
ghost use Rattle.strip_ast.specs.Syntax.{names, enclosed_names, optional, ◌▸◌, a_name, a_number, given, or_none};
ghost use Rattle.strip_ast.specs.Grammar.{made};
ghost use Rattle.strip_parse.specs.Reading.{part};
ghost use Rattle.strip_parse.specs.Taking.{IsTaken};

use crate::cursor::Cursor;
use crate::lists::{Part, listed};
use crate::stops::Stop;
use std::alloc::Global;
use strip_ast::Mark;
use strip_value::{Name, NameList};

#[derive(Drop)]
pub(crate) struct Names;

impl Part<Name> for Names {
    ghost taking = { part (terminal named) };

    fn take(alloc: Global, cursor: &mut Cursor) -> Result<Name, Stop> {
        cursor.name(alloc)
    }
}

// names = name {"," name}
#[tactic(auto, unfolding(strip_ast::specs::Syntax::names))]
pub(crate) fn take_names(alloc: Global, cursor: &mut Cursor) -> Result<NameList, Stop>
    ensures { IsTaken (part names cursor.old) result cursor.new }
{
    listed::<Name, Names>(alloc, cursor)
}

// "(" names ")"
#[tactic(auto, unfolding(strip_ast::specs::Syntax::enclosed_names))]
pub(crate) fn take_enclosed_names(alloc: Global, cursor: &mut Cursor) -> Result<NameList, Stop>
    ensures { IsTaken (part enclosed_names cursor.old) result cursor.new }
{
    cursor.expect(Mark::Open)?;
    let names = take_names(alloc, cursor)?;
    cursor.expect(Mark::Close)?;
    Ok(names)
}

// a word and then a name
pub(crate) fn take_named(alloc: Global, cursor: &mut Cursor, word: Mark) -> Result<Name, Stop>
    ensures { IsTaken (part (word ▸ a_name) cursor.old) result cursor.new }
{
    cursor.expect(word)?;
    cursor.name(alloc)
}

// [word name]
pub(crate) fn take_optional_name(
    alloc: Global,
    cursor: &mut Cursor,
    word: Mark,
) -> Result<Option<Name>, Stop>
    ensures { IsTaken (part (optional (word ▸ a_name)) cursor.old) result cursor.new }
{
    if !cursor.skip(word) {
        return Ok(None);
    }
    let name = cursor.name(alloc)?;
    Ok(Some(name))
}

// [word number]
pub(crate) fn take_optional_number(cursor: &mut Cursor, word: Mark) -> Result<Option<u128>, Stop>
    ensures { IsTaken (part (optional (word ▸ a_number)) cursor.old) result cursor.new }
{
    if !cursor.skip(word) {
        return Ok(None);
    }
    let number = cursor.number()?;
    Ok(Some(number))
}

// [word names]
pub(crate) fn take_optional_names(
    alloc: Global,
    cursor: &mut Cursor,
    word: Mark,
) -> Result<NameList, Stop>
    ensures { IsTaken (part (made (optional (word ▸ names)) or_none) cursor.old) result cursor.new }
{
    if !cursor.skip(word) {
        return Ok(NameList::new(alloc));
    }
    take_names(alloc, cursor)
}
