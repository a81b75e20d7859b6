ghost use Rattle.std.specs.Prelude.{◌≡◌};
ghost use Rattle.strip_ast.specs.declared.marks.Mark.TheVariants as m;
ghost use Rattle.strip_ast.specs.Syntax.{whole, item, totalled, total, source, entry, filter, rest, query, plain, col, listed as list_grammar, optional, a_name, ◌▸◌};
ghost use Rattle.strip_ast.specs.Grammar.{outermost};
ghost use Rattle.strip_ast.specs.Syntax.{sum};
ghost use Rattle.strip_parse.specs.Reading.{part};
ghost use Rattle.strip_parse.specs.Taking.{IsTaken};

use crate::cursor::Cursor;
use crate::expressions::{take_dotted, take_expression, take_sum};
use crate::lists::{Part, listed};
use crate::stops::Stop;
use crate::words::take_optional_name;
use std::alloc::Global;
use strip_ast::{
    ColTree, ColTreeList, EntryTree, EntryTreeList, Expr, ItemTree, Mark, Origin, QueryTree, Total,
};
use strip_value::Name;

/// How many parentheses may be open at one place.
const ROOM: u32 = 64;

#[tactic(auto, unfolding(strip_ast::specs::Syntax::whole))]
fn take_whole(alloc: Global, cursor: &mut Cursor) -> Result<Expr, Stop>
    ensures { IsTaken (part whole cursor.old) result cursor.new }
{
    cursor.count_anew();
    take_expression(alloc, cursor, ROOM)
}

pub(crate) fn take_whole_sum(alloc: Global, cursor: &mut Cursor) -> Result<Expr, Stop>
    ensures { IsTaken (part (outermost sum) cursor.old) result cursor.new }
{
    cursor.count_anew();
    take_sum(alloc, cursor, ROOM)
}

// item = expr ["as" name]
#[tactic(auto, unfolding(strip_ast::specs::Syntax::item))]
fn take_item(alloc: Global, cursor: &mut Cursor) -> Result<ItemTree, Stop>
    ensures { IsTaken (part item cursor.old) result cursor.new }
{
    let what = take_whole(alloc, cursor)?;
    let name = take_optional_name(alloc, cursor, Mark::As)?;
    Ok(ItemTree {
        what: Total::Plain(what),
        name,
    })
}

#[derive(Drop)]
struct PlainItems;

impl Part<ItemTree> for PlainItems {
    ghost taking = { part item };

    fn take(alloc: Global, cursor: &mut Cursor) -> Result<ItemTree, Stop> {
        take_item(alloc, cursor)
    }
}

// "sum" "(" expr ")" | "count" "(" "*" ")"
#[tactic(auto, unfolding(strip_ast::specs::Syntax::totalled))]
fn take_totalled(alloc: Global, cursor: &mut Cursor) -> Result<Total, Stop>
    ensures { IsTaken (part totalled cursor.old) result cursor.new }
{
    if cursor.skip(Mark::Sum) {
        cursor.expect(Mark::Open)?;
        let expr = take_whole(alloc, cursor)?;
        cursor.expect(Mark::Close)?;
        return Ok(Total::Sum(expr));
    }
    cursor.expect(Mark::Count)?;
    cursor.expect(Mark::Open)?;
    cursor.expect(Mark::Star)?;
    cursor.expect(Mark::Close)?;
    Ok(Total::Count)
}

// total = item | ("sum" "(" expr ")" | "count" "(" "*" ")") ["as" name]
#[tactic(auto, unfolding(strip_ast::specs::Syntax::total, strip_ast::specs::Syntax::totalled), using(crate::proofs::Begins::begins_cons))]
fn take_total(alloc: Global, cursor: &mut Cursor) -> Result<ItemTree, Stop>
    ensures { IsTaken (part total cursor.old) result cursor.new }
{
    if !cursor.at(Mark::Sum) && !cursor.at(Mark::Count) {
        return take_item(alloc, cursor);
    }
    let what = take_totalled(alloc, cursor)?;
    let name = take_optional_name(alloc, cursor, Mark::As)?;
    Ok(ItemTree { what, name })
}

#[derive(Drop)]
struct Totals;

impl Part<ItemTree> for Totals {
    ghost taking = { part total };

    fn take(alloc: Global, cursor: &mut Cursor) -> Result<ItemTree, Stop> {
        take_total(alloc, cursor)
    }
}

// ["before"] name | "inserted" | "deleted" | "old" | "new"
#[tactic(auto, unfolding(strip_ast::specs::Syntax::source))]
fn take_source(alloc: Global, cursor: &mut Cursor) -> Result<Origin, Stop>
    ensures { IsTaken (part source cursor.old) result cursor.new }
{
    if cursor.skip(Mark::Before) {
        let table = cursor.name(alloc)?;
        return Ok(Origin::Before(table));
    }
    if cursor.skip(Mark::Inserted) {
        return Ok(Origin::Inserted);
    }
    if cursor.skip(Mark::Deleted) {
        return Ok(Origin::Deleted);
    }
    if cursor.skip(Mark::Old) {
        return Ok(Origin::Old);
    }
    if cursor.skip(Mark::New) {
        return Ok(Origin::New);
    }
    let table = cursor.name(alloc)?;
    Ok(Origin::Table(table))
}

fn take_alias(alloc: Global, cursor: &mut Cursor) -> Result<Option<Name>, Stop>
    ensures { IsTaken (part (optional a_name) cursor.old) result cursor.new }
{
    if !cursor.at_name() {
        return Ok(None);
    }
    let alias = cursor.name(alloc)?;
    Ok(Some(alias))
}

// entry = (["before"] name | "inserted" | "deleted" | "old" | "new") [name]
#[tactic(auto, unfolding(strip_ast::specs::Syntax::entry))]
fn take_entry(alloc: Global, cursor: &mut Cursor) -> Result<EntryTree, Stop>
    ensures { IsTaken (part entry cursor.old) result cursor.new }
{
    let origin = take_source(alloc, cursor)?;
    let alias = take_alias(alloc, cursor)?;
    Ok(EntryTree { origin, alias })
}

#[derive(Drop)]
struct Entries;

impl Part<EntryTree> for Entries {
    ghost taking = { part entry };

    fn take(alloc: Global, cursor: &mut Cursor) -> Result<EntryTree, Stop> {
        take_entry(alloc, cursor)
    }
}

// ["where" expr]
#[tactic(auto, unfolding(strip_ast::specs::Syntax::filter))]
pub(crate) fn take_filter(alloc: Global, cursor: &mut Cursor) -> Result<Option<Expr>, Stop>
    ensures { IsTaken (part filter cursor.old) result cursor.new }
{
    if !cursor.skip(Mark::Where) {
        return Ok(None);
    }
    let filter = take_whole(alloc, cursor)?;
    Ok(Some(filter))
}

// rest = "from" entry {"," entry} ["where" expr]
#[tactic(auto, unfolding(strip_ast::specs::Syntax::rest))]
fn take_rest(alloc: Global, cursor: &mut Cursor) -> Result<(EntryTreeList, Option<Expr>), Stop>
    ensures { IsTaken (part rest cursor.old) result cursor.new }
{
    cursor.expect(Mark::From)?;
    let entries = listed::<EntryTree, Entries>(alloc, cursor)?;
    let filter = take_filter(alloc, cursor)?;
    Ok((entries, filter))
}

// col = name ["." name]
#[tactic(auto, unfolding(strip_ast::specs::Syntax::col))]
fn take_col(alloc: Global, cursor: &mut Cursor) -> Result<ColTree, Stop>
    ensures { IsTaken (part col cursor.old) result cursor.new }
{
    let (first, second) = take_dotted(alloc, cursor)?;
    match second {
        None => Ok(ColTree {
            of: None,
            name: first,
        }),
        Some(name) => Ok(ColTree {
            of: Some(first),
            name,
        }),
    }
}

#[derive(Drop)]
struct Cols;

impl Part<ColTree> for Cols {
    ghost taking = { part col };

    fn take(alloc: Global, cursor: &mut Cursor) -> Result<ColTree, Stop> {
        take_col(alloc, cursor)
    }
}

// ["group" "by" col {"," col}]
fn take_group(alloc: Global, cursor: &mut Cursor) -> Result<Option<ColTreeList>, Stop>
    ensures { IsTaken (part (optional (m.Group ▸ (m.By ▸ list_grammar col))) cursor.old) result cursor.new }
{
    if !cursor.skip(Mark::Group) {
        return Ok(None);
    }
    cursor.expect(Mark::By)?;
    let columns = listed::<ColTree, Cols>(alloc, cursor)?;
    Ok(Some(columns))
}

// query = "select" total {"," total} rest ["group" "by" col {"," col}]
#[tactic(auto, unfolding(strip_ast::specs::Syntax::query))]
pub(crate) fn take_query(alloc: Global, cursor: &mut Cursor) -> Result<QueryTree, Stop>
    ensures { IsTaken (part query cursor.old) result cursor.new }
{
    cursor.expect(Mark::Select)?;
    let items = listed::<ItemTree, Totals>(alloc, cursor)?;
    let (entries, filter) = take_rest(alloc, cursor)?;
    let group = take_group(alloc, cursor)?;
    Ok(QueryTree {
        items,
        entries,
        filter,
        group,
    })
}

// plain = "select" item {"," item} rest
#[tactic(auto, unfolding(strip_ast::specs::Syntax::plain))]
pub(crate) fn take_plain(alloc: Global, cursor: &mut Cursor) -> Result<QueryTree, Stop>
    ensures { IsTaken (part plain cursor.old) result cursor.new }
{
    cursor.expect(Mark::Select)?;
    let items = listed::<ItemTree, PlainItems>(alloc, cursor)?;
    let (entries, filter) = take_rest(alloc, cursor)?;
    Ok(QueryTree {
        items,
        entries,
        filter,
        group: None,
    })
}
