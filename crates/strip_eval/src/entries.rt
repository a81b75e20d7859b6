//! The rows that the entries of a query stand for.
ghost use Rattle.std.specs.Prelude.{◌≡◌, [], map, IfOk};
ghost use Rattle.std.specs.Iterator.{YieldsFirstRef, item_count};
ghost use Rattle.strip_value.specs.Query.{Environment, entry_rows, rows_at};
ghost use Rattle.strip_eval.specs.Lent.{left_in, rows_in};
ghost use Rattle.strip_eval.specs.Near.{EntriesFit, EntryFits, TableFits};

use crate::env::Env;
use std::alloc::{AllocError, Global};
use std::marker::Model;
use strip_table::{Rows, Table};
use strip_value::{Id, Input, Row};

/// Where an entry's rows stand.
#[derive(Clone, Copy)]
enum Source<'a> {
    Table(&'a Table),
    List(&'a [Row]),
}

/// An entry of a query. Contracts see its rows.
#[derive(Drop)]
pub(crate) struct Entry<'a> {
    source: Source<'a>,
}

impl<'a> Model for Entry<'a> {
    ghost use Rattle.std.specs.Prelude.{List};
    ghost use Rattle.std.specs.Coded.{coded_list};
    ghost use Rattle.strip_value.specs.contracts.rows.Row.{the_row};
    ghost use Rattle.strip_value.specs.declared.values.Value.{Value as OneValue};

    ghost Value = { List (List OneValue) };

    ghost coded = { coded_list the_row.coded };

    ghost use Rattle.strip_eval.specs.Lent.{rows_in};

    ghost view = { λ e. rows_in e.source };
}

/// What is left of an entry's rows.
#[derive(Drop)]
enum Left<'a> {
    Table(Rows<'a>),
    List(&'a [Row]),
}

/// The rows of an entry, one after the other. Contracts see those that are left.
#[derive(Drop)]
pub(crate) struct EntryRows<'a> {
    left: Left<'a>,
}

impl<'a> Model for EntryRows<'a> {
    ghost use Rattle.std.specs.Prelude.{List};
    ghost use Rattle.std.specs.Coded.{coded_list};
    ghost use Rattle.strip_value.specs.contracts.rows.Row.{the_row};
    ghost use Rattle.strip_value.specs.declared.values.Value.{Value as OneValue};

    ghost Value = { List (List OneValue) };

    ghost coded = { coded_list the_row.coded };

    ghost use Rattle.strip_eval.specs.Lent.{left_in};

    ghost view = { λ r. left_in r.left };
}

fn next_left<'a>(left: &mut Left<'a>) -> Option<&'a Row>
    ensures { YieldsFirstRef left_in left.old result left.new }
{
    match left {
        Left::Table(rows) => rows.next(),
        Left::List(rows) => {
            let (first, others) = rows.split_first()?;
            *rows = others;
            Some(first)
        }
    }
}

impl<'a> Iterator for EntryRows<'a> {
    type Item = &'a Row;

    ghost next_gives = { YieldsFirstRef (λ rows. rows) };

    ghost remaining = { item_count (λ rows. rows) };

    fn next(&mut self) -> Option<&'a Row> {
        next_left(&mut self.left)
    }
}

impl<'a> Entry<'a> {
    /// The rows, in their order.
    pub fn rows(&self) -> EntryRows<'a>
        ensures { result ≡ self.now }
    {
        let left = match self.source {
            Source::Table(table) => Left::Table(table.rows()),
            Source::List(rows) => Left::List(rows),
        };
        EntryRows { left }
    }
}

/// The rows of a list.
fn list_entry(rows: &[Row]) -> Entry<'_>
    ensures { result ≡ rows.now }
{
    Entry {
        source: Source::List(rows),
    }
}

/// The rows of the table of a number; a table that isn't there has none.
fn table_entry<'a>(tables: &'a [Table], id: Id) -> Entry<'a>
    ensures rows { result ≡ rows_at tables.now id }
    ensures fit { TableFits tables.now id result }
{
    match tables.get(id.0 as usize) {
        Some(table) => {
            // That the rows are of the table's kinds is what the iterator's clause says.
            let _rows = table.rows();
            Entry {
                source: Source::Table(table),
            }
        }
        None => list_entry(&[]),
    }
}

/// The rows that an entry stands for.
fn entry_of<'a>(env: &Env<'a>, input: Input) -> Entry<'a>
    ensures rows { result ≡ entry_rows env.entry.now input }
    ensures fit { EntryFits env.entry.now input result }
{
    match input {
        Input::Table(id) => table_entry(env.now(), id),
        Input::Before(id) => table_entry(env.before(), id),
        Input::Inserted => list_entry(env.moved().inserted.as_slice()),
        Input::Deleted => list_entry(env.moved().deleted.as_slice()),
        Input::Old => list_entry(env.moved().old.as_slice()),
        Input::New => list_entry(env.moved().new.as_slice()),
    }
}

/// The entries of a query, in their order.
pub(crate) fn entries_of<'a>(
    alloc: Global,
    env: &Env<'a>,
    inputs: &[Input],
) -> Result<Vec<Entry<'a>>, AllocError>
    ensures rows { IfOk result (λ entries. entries.items ≡ map (entry_rows env.entry.now) inputs.now) }
    ensures fit { IfOk result (λ entries. EntriesFit env.entry.now inputs.now entries.items) }
{
    let mut entries = Vec::with_capacity(alloc, inputs.len())?;
    for input in inputs {
        entries.push(entry_of(env, *input))?;
    }
    Ok(entries)
}
