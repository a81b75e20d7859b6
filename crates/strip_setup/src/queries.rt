//! What queries stand for, and the columns of their answers.
ghost use Rattle.std.specs.Prelude.{◌≡◌, ◌≤◌, IfOk, length, map, option_map};
ghost use Rattle.std.specs.List.{enumerate_from};
ghost use Rattle.strip_value.specs.Bounds.{item_kind, kind_of};
ghost use Rattle.strip_setup.specs.Small.{AreFew};
ghost use Rattle.strip_setup.specs.Queries.{answer_of, answers_of, as_columns, input_of, item_magnitude, item_name, kinds_of, place_of, query_of, what_of};
ghost use Rattle.strip_setup.specs.Small.{IsSmallScope};

use crate::answers::{Answer, AnswerList};
use crate::calculations::{calc_of, filter_of};
use crate::items::item_name;
use crate::places::{kinds_of, place_of};
use crate::scope::{Entry, Scope};
use crate::tables::table_id;
use std::alloc::{AllocError, Global};
use strip_ast::{ColTree, ColTreeList, EntryTree, ItemTree, Origin, QueryTree, Total};
use strip_query::{column_kind, magnitude};
use strip_value::{
    Calc, ColumnDef, ColumnDefList, Duplicate, Input, InputList, Item, ItemList, Kind, Kinds,
    PlaceList, Query, TableDef, What,
};

/// How far from 0 a sum or a count may be.
const BIG: u128 = 1 << 126;

// ---- items

/// What an item gives: a value, a sum or a count.
fn what_of(alloc: Global, entries: &[Entry], what: &Total) -> Result<What, AllocError>
    requires few { AreFew entries.now }
    ensures { IfOk result (λ made. made ≡ what_of entries.now what.now) }
{
    match what {
        Total::Plain(expr) => Ok(What::Plain(calc_of(alloc, entries, expr)?)),
        Total::Sum(expr) => Ok(What::Sum(calc_of(alloc, entries, expr)?)),
        Total::Count => Ok(What::Count),
    }
}

fn item_of(
    alloc: Global,
    entries: &[Entry],
    number: u64,
    item: &ItemTree,
) -> Result<Item, AllocError>
    requires few { AreFew entries.now }
    ensures { IfOk result (λ made. made ≡ record { name = item_name (number, item.now); what = what_of entries.now item.now.what }) }
{
    let name = item_name(alloc, number, item)?;
    let what = what_of(alloc, entries, &item.what)?;
    Ok(Item { name, what })
}

fn items_of(alloc: Global, entries: &[Entry], items: &[ItemTree]) -> Result<ItemList, AllocError>
    requires few { AreFew entries.now }
    ensures { IfOk result (λ made. made ≡ map (λ item. record { name = item_name item; what = what_of entries.now (item.1).what }) (enumerate_from 1 items.now)) }
{
    let mut made = ItemList::new(alloc);
    for (i, item) in items.iter().enumerate() {
        made.push(item_of(alloc, entries, i as u64 + 1, item)?)?;
    }
    Ok(made)
}

// ---- queries

/// Where an entry takes its rows from.
fn input_of(tables: &[TableDef], origin: &Origin) -> Input
    requires few { length tables.now ≤ 64 }
    ensures { result ≡ input_of tables.now origin.now }
{
    match origin {
        Origin::Table(name) => Input::Table(table_id(tables, name)),
        Origin::Before(name) => Input::Before(table_id(tables, name)),
        Origin::Inserted => Input::Inserted,
        Origin::Deleted => Input::Deleted,
        Origin::Old => Input::Old,
        Origin::New => Input::New,
    }
}

fn inputs_of(
    alloc: Global,
    tables: &[TableDef],
    entries: &[EntryTree],
) -> Result<InputList, AllocError>
    requires few { length tables.now ≤ 64 }
    ensures { IfOk result (λ made. made ≡ map (λ entry. input_of tables.now entry.origin) entries.now) }
{
    let mut inputs = InputList::new(alloc);
    for entry in entries {
        inputs.push(input_of(tables, &entry.origin))?;
    }
    Ok(inputs)
}

fn places_of(alloc: Global, entries: &[Entry], columns: &[ColTree]) -> Result<PlaceList, AllocError>
    requires few { AreFew entries.now }
    ensures { IfOk result (λ made. made ≡ map (λ column. place_of entries.now column.of column.name) columns.now) }
{
    let mut places = PlaceList::new(alloc);
    for column in columns {
        places.push(place_of(entries, &column.of, &column.name))?;
    }
    Ok(places)
}

/// The columns that a query groups by, if it does.
fn group_of(
    alloc: Global,
    entries: &[Entry],
    group: &Option<ColTreeList>,
) -> Result<Option<PlaceList>, AllocError>
    requires few { AreFew entries.now }
    ensures { IfOk result (λ made. made ≡ option_map (map (λ column. place_of entries.now column.of column.name)) group.now) }
{
    match group {
        None => Ok(None),
        Some(columns) => Ok(Some(places_of(alloc, entries, columns.as_slice())?)),
    }
}

// ---- answers

/// The kind of an expression: a bare column keeps its own, any other number is `Big`.
#[tactic(auto, using(crate::proofs::Trees::both_trees))]
fn kind_of(kinds: &Kinds, calc: &Calc) -> Kind
    ensures { result ≡ kind_of kinds.now calc.now }
{
    match calc {
        Calc::Text(_) => Kind::Text,
        Calc::Column { entry, column } => column_kind(kinds, *entry, *column),
        _ => Kind::Big,
    }
}

fn item_kind(kinds: &Kinds, what: &What) -> Kind
    ensures { result ≡ item_kind kinds.now what.now }
{
    match what {
        What::Plain(calc) => kind_of(kinds, calc),
        What::Sum(_) | What::Count => Kind::Big,
    }
}

/// How far from 0 an item's numbers may be.
fn item_magnitude(kinds: &Kinds, what: &What) -> u128
    ensures { result ≡ item_magnitude kinds.now what.now }
{
    match what {
        What::Plain(calc) => magnitude(calc, kinds),
        What::Sum(_) | What::Count => BIG,
    }
}

/// The column of an item, of which `kinds` are the kinds of the entries' columns.
fn answer_of(
    alloc: Global,
    entries: &[Entry],
    kinds: &Kinds,
    number: u64,
    item: &ItemTree,
) -> Result<Answer, AllocError>
    requires few { AreFew entries.now }
    requires known { kinds.now ≡ kinds_of entries.now }
    ensures { IfOk result (λ made. made ≡ answer_of entries.now (number, item.now)) }
{
    let name = item_name(alloc, number, item)?;
    let what = what_of(alloc, entries, &item.what)?;
    Ok(Answer {
        name,
        kind: item_kind(kinds, &what),
        magnitude: item_magnitude(kinds, &what),
    })
}

fn answers_over(
    alloc: Global,
    entries: &[Entry],
    items: &[ItemTree],
) -> Result<AnswerList, AllocError>
    requires few { AreFew entries.now }
    ensures { IfOk result (λ made. made ≡ map (answer_of entries.now) (enumerate_from 1 items.now)) }
{
    let kinds = kinds_of(alloc, entries)?;
    let mut answers = AnswerList::new(alloc);
    for (i, item) in items.iter().enumerate() {
        answers.push(answer_of(alloc, entries, &kinds, i as u64 + 1, item)?)?;
    }
    Ok(answers)
}

/// The columns of a query's answer, as columns of a table.
pub fn as_columns(alloc: Global, answers: &[Answer]) -> Result<ColumnDefList, AllocError>
    ensures { IfOk result (λ made. made ≡ as_columns answers.now) }
{
    let mut columns = ColumnDefList::new(alloc);
    for answer in answers {
        columns.push(ColumnDef {
            name: answer.name.copy(alloc)?,
            kind: answer.kind,
        })?;
    }
    Ok(columns)
}

impl<'a> Scope<'a> {
    /// What a query stands for.
    #[tactic(auto, using(crate::proofs::Small::entries_few))]
    pub fn query_of(&self, alloc: Global, query: &QueryTree) -> Result<Query, AllocError>
        requires small { IsSmallScope self.now }
        requires few { length query.now.entries ≤ 3 }
        ensures { IfOk result (λ made. made ≡ query_of self.now query.now) }
    {
        let entries = self.entries_of(alloc, query)?;
        let items = items_of(alloc, entries.as_slice(), query.items.as_slice())?;
        let filter = filter_of(alloc, entries.as_slice(), &query.filter)?;
        let group = group_of(alloc, entries.as_slice(), &query.group)?;
        let inputs = inputs_of(alloc, self.tables(), query.entries.as_slice())?;
        Ok(Query {
            items,
            entries: inputs,
            filter,
            group,
        })
    }

    /// The columns of a query's answer.
    #[tactic(auto, using(crate::proofs::Small::entries_few))]
    pub fn answers_of(&self, alloc: Global, query: &QueryTree) -> Result<AnswerList, AllocError>
        requires small { IsSmallScope self.now }
        requires few { length query.now.entries ≤ 3 }
        ensures { IfOk result (λ made. made ≡ answers_of self.now query.now) }
    {
        let entries = self.entries_of(alloc, query)?;
        answers_over(alloc, entries.as_slice(), query.items.as_slice())
    }
}
