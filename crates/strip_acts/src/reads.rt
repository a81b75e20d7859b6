//! What an act reads: the columns of its entries.
ghost use Rattle.std.specs.Prelude.{◌≡◌, ◌&&◌, [], get_or, length, map};
ghost use Rattle.strip_value.specs.Bounds.{column_kind, magnitude_of};
ghost use Rattle.strip_kinds.specs.Mismatch.{is_text_kind};
ghost use Rattle.strip_acts.specs.Suiting.{gives_text, has_column, is_bounded, is_kinded, is_narrow, is_numeric, kinds_in, suits_sum, suits_value};
ghost use Rattle.strip_acts.specs.Trees.{input_columns};

use std::marker::Model;
use strip_query::{capped_product, capped_sum, kind_magnitude};
use strip_value::{Calc, ColumnDef, Id, Input, Kind, TableDef};

/// The least magnitude that is too wide.
const WIDE: u128 = 1 << 63;

/// The entries of an act, as the columns that each has.
#[derive(Drop)]
pub struct Reads<'a> {
    tables: &'a [TableDef],
    inputs: &'a [Input],
}

impl<'a> Model for Reads<'a> {
    ghost use Rattle.std.specs.Prelude.{List, map};
    ghost use Rattle.std.specs.Coded.{coded_list};
    ghost use Rattle.strip_value.specs.contracts.tables.ColumnDef.{the_row};
    ghost use Rattle.strip_value.specs.declared.tables.ColumnDef.{ColumnDef as OneColumn};
    ghost use Rattle.strip_acts.specs.Trees.{input_columns};

    ghost Value = { List (List OneColumn) };

    ghost coded = { coded_list (coded_list the_row.coded) };

    ghost view = { λ r. map (input_columns r.tables.now) r.inputs.now };
}

impl<'a> Reads<'a> {
    pub(crate) fn new(tables: &'a [TableDef], inputs: &'a [Input]) -> Reads<'a>
        ensures { result ≡ map (input_columns tables.now) inputs.now }
    {
        Reads { tables, inputs }
    }
}

/// The columns of what an entry takes its rows from; only tables have any here.
fn input_columns<'a>(tables: &'a [TableDef], input: &Input) -> &'a [ColumnDef]
    ensures { result.now ≡ input_columns tables.now input.now }
{
    let Input::Table(Id(id)) = input else {
        return &[];
    };
    match tables.get(*id as usize) {
        Some(table) => table.columns.as_slice(),
        None => &[],
    }
}

impl<'a> Reads<'a> {
    /// The columns of an entry; one that isn't there has none.
    pub(crate) fn columns(&self, entry: u32) -> &'a [ColumnDef]
        ensures { result.now ≡ get_or self.now entry [] }
    {
        match self.inputs.get(entry as usize) {
            Some(input) => input_columns(self.tables, input),
            None => &[],
        }
    }

    /// The number of entries.
    pub(crate) fn count(&self) -> usize
        ensures { result ≡ length self.now }
    {
        self.inputs.len()
    }

    /// Whether the entry has the column.
    pub(crate) fn has_column(&self, entry: u32, column: u32) -> bool
        ensures { result ≡ has_column (kinds_in self.now) entry column }
    {
        (column as usize) < self.columns(entry).len()
    }

    fn column_kind(&self, entry: u32, column: u32) -> Kind
        ensures { result ≡ column_kind (kinds_in self.now) entry column }
    {
        match self.columns(entry).get(column as usize) {
            Some(column) => column.kind,
            None => Kind::Text,
        }
    }

    fn is_text_column(&self, entry: u32, column: u32) -> bool
        ensures { result ≡ is_text_kind (column_kind (kinds_in self.now) entry column) }
    {
        self.column_kind(entry, column) == Kind::Text
    }
}

/// How far from 0 an expression may be.
fn magnitude(reads: &Reads<'_>, calc: &Calc) -> u128
    ensures { result ≡ magnitude_of (kinds_in reads.now) calc.now }
{
    match calc {
        Calc::Number(n) => n.unsigned_abs(),
        Calc::Text(_) => 0,
        Calc::Column { entry, column } => kind_magnitude(reads.column_kind(*entry, *column)),
        Calc::Add(left, right) => {
            capped_sum(magnitude(reads, left.get()), magnitude(reads, right.get()))
        }
        Calc::Sub(left, right) => {
            capped_sum(magnitude(reads, left.get()), magnitude(reads, right.get()))
        }
        Calc::Mul(left, right) => {
            capped_product(magnitude(reads, left.get()), magnitude(reads, right.get()))
        }
    }
}

fn is_narrow(reads: &Reads<'_>, calc: &Calc) -> bool
    ensures { result ≡ is_narrow (kinds_in reads.now) calc.now }
{
    magnitude(reads, calc) < WIDE
}

/// Whether it is a number, whose columns are there.
fn is_numeric(reads: &Reads<'_>, calc: &Calc) -> bool
    ensures { result ≡ is_numeric (kinds_in reads.now) calc.now }
{
    match calc {
        Calc::Number(_) => true,
        Calc::Text(_) => false,
        Calc::Column { entry, column } => {
            reads.has_column(*entry, *column) && !reads.is_text_column(*entry, *column)
        }
        Calc::Add(left, right) => {
            is_numeric(reads, left.get()) && is_numeric(reads, right.get())
        }
        Calc::Sub(left, right) => {
            is_numeric(reads, left.get()) && is_numeric(reads, right.get())
        }
        Calc::Mul(left, right) => {
            is_numeric(reads, left.get()) && is_numeric(reads, right.get())
        }
    }
}

fn is_kinded(reads: &Reads<'_>, calc: &Calc) -> bool
    ensures { result ≡ is_kinded (kinds_in reads.now) calc.now }
{
    match calc {
        Calc::Text(_) => true,
        Calc::Column { entry, column } => reads.has_column(*entry, *column),
        _ => is_numeric(reads, calc),
    }
}

fn all_three(first: bool, second: bool, third: bool) -> bool
    ensures { result ≡ (first && (second && third)) }
{
    first && second && third
}

/// Whether no part but bare columns is too wide.
fn is_bounded(reads: &Reads<'_>, calc: &Calc) -> bool
    ensures { result ≡ is_bounded (kinds_in reads.now) calc.now }
{
    match calc {
        Calc::Number(_) => is_narrow(reads, calc),
        Calc::Text(_) | Calc::Column { .. } => true,
        Calc::Add(left, right) => all_three(
            is_bounded(reads, left.get()),
            is_bounded(reads, right.get()),
            is_narrow(reads, calc),
        ),
        Calc::Sub(left, right) => all_three(
            is_bounded(reads, left.get()),
            is_bounded(reads, right.get()),
            is_narrow(reads, calc),
        ),
        Calc::Mul(left, right) => all_three(
            is_bounded(reads, left.get()),
            is_bounded(reads, right.get()),
            is_narrow(reads, calc),
        ),
    }
}

pub(crate) fn suits_value(reads: &Reads<'_>, calc: &Calc) -> bool
    ensures { result ≡ suits_value (kinds_in reads.now) calc.now }
{
    is_kinded(reads, calc) && is_bounded(reads, calc)
}

pub(crate) fn suits_sum(reads: &Reads<'_>, calc: &Calc) -> bool
    ensures { result ≡ suits_sum (kinds_in reads.now) calc.now }
{
    is_numeric(reads, calc) && is_bounded(reads, calc) && is_narrow(reads, calc)
}

pub(crate) fn gives_text(reads: &Reads<'_>, calc: &Calc) -> bool
    ensures { result ≡ gives_text (kinds_in reads.now) calc.now }
{
    match calc {
        Calc::Text(_) => true,
        Calc::Column { entry, column } => reads.is_text_column(*entry, *column),
        _ => false,
    }
}
