ghost use Rattle.std.specs.Prelude.{◌≡◌};
ghost use Rattle.strip_ast.specs.Syntax.{a_value, row, set, insert, put, update, delete, begin, show, deed, act};
ghost use Rattle.strip_parse.specs.Reading.{part};
ghost use Rattle.strip_parse.specs.Taking.{IsTaken};

use crate::cursor::Cursor;
use crate::lists::{Part, listed};
use crate::queries::{take_filter, take_query, take_whole_sum};
use crate::stops::Stop;
use crate::words::{take_named, take_optional_names};
use std::alloc::Global;
use strip_ast::{Deed, Mark, SetTree};
use strip_value::{Row, Value};

// value = ["-"] number | text
#[tactic(auto, unfolding(strip_ast::specs::Syntax::a_value))]
fn take_value(alloc: Global, cursor: &mut Cursor) -> Result<Value, Stop>
    ensures { IsTaken (part a_value cursor.old) result cursor.new }
{
    if cursor.skip(Mark::Minus) {
        let number = cursor.negated()?;
        return Ok(Value::Int(number));
    }
    if cursor.at_number() {
        let number = cursor.signed()?;
        return Ok(Value::Int(number));
    }
    let text = cursor.text(alloc)?;
    Ok(Value::Text(text))
}

#[derive(Drop)]
struct Values;

impl Part<Value> for Values {
    ghost taking = { part a_value };

    fn take(alloc: Global, cursor: &mut Cursor) -> Result<Value, Stop> {
        take_value(alloc, cursor)
    }
}

// row = "(" value {"," value} ")"
#[tactic(auto, unfolding(strip_ast::specs::Syntax::row))]
fn take_row(alloc: Global, cursor: &mut Cursor) -> Result<Row, Stop>
    ensures { IsTaken (part row cursor.old) result cursor.new }
{
    cursor.expect(Mark::Open)?;
    let values = listed::<Value, Values>(alloc, cursor)?;
    cursor.expect(Mark::Close)?;
    Ok(Row::of(values.into_vec()))
}

#[derive(Drop)]
struct Rows;

impl Part<Row> for Rows {
    ghost taking = { part row };

    fn take(alloc: Global, cursor: &mut Cursor) -> Result<Row, Stop> {
        take_row(alloc, cursor)
    }
}

// name "=" sum
#[tactic(auto, unfolding(strip_ast::specs::Syntax::set))]
fn take_set(alloc: Global, cursor: &mut Cursor) -> Result<SetTree, Stop>
    ensures { IsTaken (part set cursor.old) result cursor.new }
{
    let column = cursor.name(alloc)?;
    cursor.expect(Mark::Equal)?;
    let value = take_whole_sum(alloc, cursor)?;
    Ok(SetTree { column, value })
}

#[derive(Drop)]
struct Sets;

impl Part<SetTree> for Sets {
    ghost taking = { part set };

    fn take(alloc: Global, cursor: &mut Cursor) -> Result<SetTree, Stop> {
        take_set(alloc, cursor)
    }
}

// "insert" name row {"," row}
#[tactic(auto, unfolding(strip_ast::specs::Syntax::insert))]
fn take_insert(alloc: Global, cursor: &mut Cursor) -> Result<Deed, Stop>
    ensures { IsTaken (part insert cursor.old) result cursor.new }
{
    let table = take_named(alloc, cursor, Mark::Insert)?;
    let rows = listed::<Row, Rows>(alloc, cursor)?;
    Ok(Deed::Insert { table, rows })
}

// "put" name row
#[tactic(auto, unfolding(strip_ast::specs::Syntax::put))]
fn take_put(alloc: Global, cursor: &mut Cursor) -> Result<Deed, Stop>
    ensures { IsTaken (part put cursor.old) result cursor.new }
{
    let table = take_named(alloc, cursor, Mark::Put)?;
    let row = take_row(alloc, cursor)?;
    Ok(Deed::Put { table, row })
}

// "update" name "set" name "=" sum {"," name "=" sum} ["where" expr]
#[tactic(auto, unfolding(strip_ast::specs::Syntax::update))]
fn take_update(alloc: Global, cursor: &mut Cursor) -> Result<Deed, Stop>
    ensures { IsTaken (part update cursor.old) result cursor.new }
{
    let table = take_named(alloc, cursor, Mark::Update)?;
    cursor.expect(Mark::Set)?;
    let sets = listed::<SetTree, Sets>(alloc, cursor)?;
    let filter = take_filter(alloc, cursor)?;
    Ok(Deed::Update {
        table,
        sets,
        filter,
    })
}

// "delete" name ["where" expr]
#[tactic(auto, unfolding(strip_ast::specs::Syntax::delete))]
fn take_delete(alloc: Global, cursor: &mut Cursor) -> Result<Deed, Stop>
    ensures { IsTaken (part delete cursor.old) result cursor.new }
{
    let table = take_named(alloc, cursor, Mark::Delete)?;
    let filter = take_filter(alloc, cursor)?;
    Ok(Deed::Delete { table, filter })
}

// "begin" ["write" names] ["read" names]
#[tactic(auto, unfolding(strip_ast::specs::Syntax::begin))]
fn take_begin(alloc: Global, cursor: &mut Cursor) -> Result<Deed, Stop>
    ensures { IsTaken (part begin cursor.old) result cursor.new }
{
    cursor.expect(Mark::Begin)?;
    let write = take_optional_names(alloc, cursor, Mark::Write)?;
    let read = take_optional_names(alloc, cursor, Mark::Read)?;
    Ok(Deed::Begin { write, read })
}

// "show" "pending" | "show" name
#[tactic(auto, unfolding(strip_ast::specs::Syntax::show))]
fn take_show(alloc: Global, cursor: &mut Cursor) -> Result<Deed, Stop>
    ensures { IsTaken (part show cursor.old) result cursor.new }
{
    cursor.expect(Mark::Show)?;
    if cursor.skip(Mark::Pending) {
        return Ok(Deed::ShowPending);
    }
    let table = cursor.name(alloc)?;
    Ok(Deed::Show { table })
}

// act = "insert" .. | "put" .. | "update" .. | "delete" .. | query
#[tactic(auto, unfolding(strip_ast::specs::Syntax::act, strip_ast::specs::Syntax::insert, strip_ast::specs::Syntax::put, strip_ast::specs::Syntax::update, strip_ast::specs::Syntax::delete))]
fn take_act(alloc: Global, cursor: &mut Cursor) -> Result<Deed, Stop>
    ensures { IsTaken (part act cursor.old) result cursor.new }
{
    if cursor.at(Mark::Insert) {
        return take_insert(alloc, cursor);
    }
    if cursor.at(Mark::Put) {
        return take_put(alloc, cursor);
    }
    if cursor.at(Mark::Update) {
        return take_update(alloc, cursor);
    }
    if cursor.at(Mark::Delete) {
        return take_delete(alloc, cursor);
    }
    let query = take_query(alloc, cursor)?;
    Ok(Deed::Select { query })
}

// deed = "begin" .. | "commit" | "undo" | act | "start" | "finish" number | "return" number | "run"
//      | "show" "pending"
#[tactic(auto, unfolding(strip_ast::specs::Syntax::deed, strip_ast::specs::Syntax::begin, strip_ast::specs::Syntax::show))]
pub(crate) fn take_deed(alloc: Global, cursor: &mut Cursor) -> Result<Deed, Stop>
    ensures { IsTaken (part deed cursor.old) result cursor.new }
{
    if cursor.at(Mark::Begin) {
        return take_begin(alloc, cursor);
    }
    if cursor.skip(Mark::Commit) {
        return Ok(Deed::Commit);
    }
    if cursor.skip(Mark::Undo) {
        return Ok(Deed::Undo);
    }
    if cursor.skip(Mark::Start) {
        return Ok(Deed::Start);
    }
    if cursor.skip(Mark::Finish) {
        let number = cursor.number()?;
        return Ok(Deed::Finish { number });
    }
    if cursor.skip(Mark::Return) {
        let number = cursor.number()?;
        return Ok(Deed::Return { number });
    }
    if cursor.skip(Mark::Run) {
        return Ok(Deed::Run);
    }
    if cursor.at(Mark::Show) {
        return take_show(alloc, cursor);
    }
    take_act(alloc, cursor)
}
