ghost use Rattle.std.specs.Prelude.{◌≡◌};
ghost use Rattle.strip_ast.specs.declared.marks.Mark.TheVariants as m;
ghost use Rattle.strip_value.specs.declared.tables.By.TheVariants as by;
ghost use Rattle.strip_ast.specs.Grammar.{made, either};
ghost use Rattle.strip_ast.specs.Syntax.{derive, event, bound, unique, manner, trigger, effect, rule, maintain, enclosed_names, optional, listed as list_grammar, or_none, a_name, stands, ◌▸◌};
ghost use Rattle.strip_parse.specs.Reading.{part};
ghost use Rattle.strip_parse.specs.Taking.{IsTaken};

use crate::cursor::Cursor;
use crate::lists::{Part, listed};
use crate::queries::{take_plain, take_query};
use crate::stops::Stop;
use crate::words::{take_enclosed_names, take_named, take_optional_number};
use std::alloc::Global;
use strip_ast::{BoundTree, BoundTreeList, EventTree, EventTreeList, Manner, Mark, Statement};
use strip_value::{By, Name, NameList};

// derive = "derive" name "as" query
#[tactic(auto, unfolding(strip_ast::specs::Syntax::derive))]
pub(crate) fn take_derive(alloc: Global, cursor: &mut Cursor) -> Result<Statement, Stop>
    ensures { IsTaken (part derive cursor.old) result cursor.new }
{
    let name = take_named(alloc, cursor, Mark::Derive)?;
    cursor.expect(Mark::As)?;
    let query = take_query(alloc, cursor)?;
    Ok(Statement::Derive { name, query })
}

// ["(" names ")"]
#[tactic(auto, unfolding(strip_ast::specs::Syntax::enclosed_names))]
fn take_updated_columns(alloc: Global, cursor: &mut Cursor) -> Result<NameList, Stop>
    ensures { IsTaken (part (made (optional enclosed_names) or_none) cursor.old) result cursor.new }
{
    if !cursor.at(Mark::Open) {
        return Ok(NameList::new(alloc));
    }
    take_enclosed_names(alloc, cursor)
}

// event = "inserted" | "deleted" | "updated" ["(" names ")"]
#[tactic(auto, unfolding(strip_ast::specs::Syntax::event))]
fn take_event(alloc: Global, cursor: &mut Cursor) -> Result<EventTree, Stop>
    ensures { IsTaken (part event cursor.old) result cursor.new }
{
    if cursor.skip(Mark::Inserted) {
        return Ok(EventTree::Inserted);
    }
    if cursor.skip(Mark::Deleted) {
        return Ok(EventTree::Deleted);
    }
    cursor.expect(Mark::Updated)?;
    let columns = take_updated_columns(alloc, cursor)?;
    Ok(EventTree::Updated(columns))
}

#[derive(Drop)]
struct Events;

impl Part<EventTree> for Events {
    ghost taking = { part event };

    fn take(alloc: Global, cursor: &mut Cursor) -> Result<EventTree, Stop> {
        take_event(alloc, cursor)
    }
}

// ["bind" "as" name]
fn take_bind(alloc: Global, cursor: &mut Cursor) -> Result<Option<Name>, Stop>
    ensures { IsTaken (part (optional (m.Bind ▸ (m.As ▸ a_name))) cursor.old) result cursor.new }
{
    if !cursor.skip(Mark::Bind) {
        return Ok(None);
    }
    cursor.expect(Mark::As)?;
    let name = cursor.name(alloc)?;
    Ok(Some(name))
}

// bound = "(" plain ")" ["bind" "as" name]
#[tactic(auto, unfolding(strip_ast::specs::Syntax::bound))]
fn take_bound(alloc: Global, cursor: &mut Cursor) -> Result<BoundTree, Stop>
    ensures { IsTaken (part bound cursor.old) result cursor.new }
{
    cursor.expect(Mark::Open)?;
    let query = take_plain(alloc, cursor)?;
    cursor.expect(Mark::Close)?;
    let name = take_bind(alloc, cursor)?;
    Ok(BoundTree { query, name })
}

#[derive(Drop)]
struct Bounds;

impl Part<BoundTree> for Bounds {
    ghost taking = { part bound };

    fn take(alloc: Global, cursor: &mut Cursor) -> Result<BoundTree, Stop> {
        take_bound(alloc, cursor)
    }
}

// [word bound {"," bound}]
fn take_optional_bounds(
    alloc: Global,
    cursor: &mut Cursor,
    word: Mark,
) -> Result<BoundTreeList, Stop>
    ensures { IsTaken (part (made (optional (word ▸ list_grammar bound)) or_none) cursor.old) result cursor.new }
{
    if !cursor.skip(word) {
        return Ok(BoundTreeList::new(alloc));
    }
    listed::<BoundTree, Bounds>(alloc, cursor)
}

// ["on" "(" names ")"]
#[tactic(auto, unfolding(strip_ast::specs::Syntax::enclosed_names))]
fn take_on(alloc: Global, cursor: &mut Cursor) -> Result<NameList, Stop>
    ensures { IsTaken (part (made (optional (m.On ▸ enclosed_names)) or_none) cursor.old) result cursor.new }
{
    if !cursor.skip(Mark::On) {
        return Ok(NameList::new(alloc));
    }
    take_enclosed_names(alloc, cursor)
}

// ["unique" ["on" "(" names ")"]]
#[tactic(auto, unfolding(strip_ast::specs::Syntax::unique))]
fn take_unique(alloc: Global, cursor: &mut Cursor) -> Result<Option<NameList>, Stop>
    ensures { IsTaken (part (optional unique) cursor.old) result cursor.new }
{
    if !cursor.skip(Mark::Unique) {
        return Ok(None);
    }
    let columns = take_on(alloc, cursor)?;
    Ok(Some(columns))
}

// manner = ["unique" ["on" "(" names ")"]] ["after" number]
#[tactic(auto, unfolding(strip_ast::specs::Syntax::manner))]
fn take_manner(alloc: Global, cursor: &mut Cursor) -> Result<Manner, Stop>
    ensures { IsTaken (part manner cursor.old) result cursor.new }
{
    let unique = take_unique(alloc, cursor)?;
    let after = take_optional_number(cursor, Mark::After)?;
    Ok(Manner {
        unique,
        after: after.unwrap_or(0),
    })
}

// "on" name "when" event {"," event} ["if" bound {"," bound}]
#[tactic(auto, unfolding(strip_ast::specs::Syntax::trigger))]
fn take_trigger(
    alloc: Global,
    cursor: &mut Cursor,
) -> Result<(Name, (EventTreeList, BoundTreeList)), Stop>
    ensures { IsTaken (part trigger cursor.old) result cursor.new }
{
    let table = take_named(alloc, cursor, Mark::On)?;
    cursor.expect(Mark::When)?;
    let events = listed::<EventTree, Events>(alloc, cursor)?;
    let conditions = take_optional_bounds(alloc, cursor, Mark::If)?;
    Ok((table, (events, conditions)))
}

// "then" ["evaluate" bound {"," bound}] "execute" name manner
#[tactic(auto, unfolding(strip_ast::specs::Syntax::effect))]
fn take_effect(alloc: Global, cursor: &mut Cursor) -> Result<(BoundTreeList, (Name, Manner)), Stop>
    ensures { IsTaken (part effect cursor.old) result cursor.new }
{
    cursor.expect(Mark::Then)?;
    let evaluate = take_optional_bounds(alloc, cursor, Mark::Evaluate)?;
    let function = take_named(alloc, cursor, Mark::Execute)?;
    let manner = take_manner(alloc, cursor)?;
    Ok((evaluate, (function, manner)))
}

// rule = "rule" name "on" name "when" event {"," event} ["if" bound {"," bound}]
//        "then" ["evaluate" bound {"," bound}] "execute" name manner
#[tactic(auto, unfolding(strip_ast::specs::Syntax::rule))]
pub(crate) fn take_rule(alloc: Global, cursor: &mut Cursor) -> Result<Statement, Stop>
    ensures { IsTaken (part rule cursor.old) result cursor.new }
{
    let name = take_named(alloc, cursor, Mark::Rule)?;
    let (table, (events, conditions)) = take_trigger(alloc, cursor)?;
    let (evaluate, (function, manner)) = take_effect(alloc, cursor)?;
    Ok(Statement::Rule {
        name,
        table,
        events,
        conditions,
        evaluate,
        function,
        manner,
    })
}

// "sum" | "key"
fn take_by(cursor: &mut Cursor) -> Result<By, Stop>
    ensures { IsTaken (part (either (stands m.Sum by.Sum) (stands m.Key by.Key)) cursor.old) result cursor.new }
{
    if cursor.skip(Mark::Sum) {
        return Ok(By::Sum);
    }
    cursor.expect(Mark::Key)?;
    Ok(By::Key)
}

// maintain = "maintain" name "by" ("sum" | "key") manner
#[tactic(auto, unfolding(strip_ast::specs::Syntax::maintain))]
pub(crate) fn take_maintain(alloc: Global, cursor: &mut Cursor) -> Result<Statement, Stop>
    ensures { IsTaken (part maintain cursor.old) result cursor.new }
{
    let name = take_named(alloc, cursor, Mark::Maintain)?;
    cursor.expect(Mark::By)?;
    let by = take_by(cursor)?;
    let manner = take_manner(alloc, cursor)?;
    Ok(Statement::Maintain { name, by, manner })
}
