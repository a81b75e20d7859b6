ghost use Rattle.std.specs.Prelude.{◌≡◌, OnOk, IfOk};
ghost use Rattle.strip_ast.specs.Pieces.{after_all};
ghost use Rattle.strip_ast.specs.Written.{named_pieces, total_pieces, item_pieces, origin_pieces, alias_pieces, entry_pieces, column_pieces, filter_pieces, group_pieces, query_pieces, def_pieces, key_pieces, limit_pieces, step_pieces, enclosed_names, event_pieces, bind_pieces, bound_pieces, unique_pieces, on_pieces, after_pieces, manner_pieces, value_pieces, row_pieces, set_pieces, deed_pieces, caller_pieces, marked_pieces, statement_pieces, statement_text, update_pieces, begin_pieces, table_pieces, stream_pieces, trigger_pieces, effect_pieces, maintain_pieces, kind_mark as mark_of_kind, by_mark as mark_of_by};

use crate::deeds::{Deed, SetTree};
use crate::expression_text::{print_col, print_expr, print_operand};
use crate::expressions::Expr;
use crate::marks::Mark;
use crate::printed::{Printed, print_enclosed, print_led, print_list};
use crate::printer::Printer;
use crate::queries::{ColTree, ColTreeList, EntryTree, ItemTree, Origin, QueryTree, Total};
use crate::rules::{BoundTree, EventTree, Manner, StepTree};
use crate::statements::Statement;
use std::alloc::{AllocError, Global};
use strip_value::{By, Bytes, ColumnDef, ColumnDefList, Kind, Name, NameList, Row, Value};

#[tactic(auto, using(crate::proofs::PrintLemmas::after_all_append))]
impl Printed for Total {
    ghost pieces = { total_pieces };

    fn print_to(&self, alloc: Global, into: &mut Printer) -> Result<(), AllocError> {
        match self {
            Total::Plain(expr) => print_expr(alloc, expr, into),
            Total::Sum(expr) => {
                into.mark(Mark::Sum)?;
                into.mark(Mark::Open)?;
                print_expr(alloc, expr, into)?;
                into.mark(Mark::Close)
            }
            Total::Count => {
                into.mark(Mark::Count)?;
                into.mark(Mark::Open)?;
                into.mark(Mark::Star)?;
                into.mark(Mark::Close)
            }
        }
    }
}

fn print_named(name: &Option<Name>, into: &mut Printer) -> Result<(), AllocError>
    ensures { OnOk result (into.new ≡ after_all into.old (named_pieces name.now)) }
{
    if let Some(name) = name {
        into.mark(Mark::As)?;
        into.name(name)?;
    }
    Ok(())
}

#[tactic(auto, using(crate::proofs::PrintLemmas::after_all_append))]
impl Printed for ItemTree {
    ghost pieces = { item_pieces };

    fn print_to(&self, alloc: Global, into: &mut Printer) -> Result<(), AllocError> {
        self.what.print_to(alloc, into)?;
        print_named(&self.name, into)?;
        Ok(())
    }
}

#[tactic(auto, using(crate::proofs::PrintLemmas::after_all_append))]
impl Printed for Origin {
    ghost pieces = { origin_pieces };

    fn print_to(&self, _alloc: Global, into: &mut Printer) -> Result<(), AllocError> {
        match self {
            Origin::Table(name) => into.name(name),
            Origin::Before(name) => {
                into.mark(Mark::Before)?;
                into.name(name)
            }
            Origin::Inserted => into.mark(Mark::Inserted),
            Origin::Deleted => into.mark(Mark::Deleted),
            Origin::Old => into.mark(Mark::Old),
            Origin::New => into.mark(Mark::New),
        }
    }
}

fn print_alias(alias: &Option<Name>, into: &mut Printer) -> Result<(), AllocError>
    ensures { OnOk result (into.new ≡ after_all into.old (alias_pieces alias.now)) }
{
    if let Some(alias) = alias {
        into.name(alias)?;
    }
    Ok(())
}

#[tactic(auto, using(crate::proofs::PrintLemmas::after_all_append))]
impl Printed for EntryTree {
    ghost pieces = { entry_pieces };

    fn print_to(&self, alloc: Global, into: &mut Printer) -> Result<(), AllocError> {
        self.origin.print_to(alloc, into)?;
        print_alias(&self.alias, into)?;
        Ok(())
    }
}

#[tactic(auto, using(crate::proofs::PrintLemmas::after_all_append))]
impl Printed for ColTree {
    ghost pieces = { column_pieces };

    fn print_to(&self, _alloc: Global, into: &mut Printer) -> Result<(), AllocError> {
        print_col(&self.of, &self.name, into)
    }
}

fn print_filter(alloc: Global, filter: &Option<Expr>, into: &mut Printer) -> Result<(), AllocError>
    ensures { OnOk result (into.new ≡ after_all into.old (filter_pieces filter.now)) }
{
    if let Some(filter) = filter {
        into.mark(Mark::Where)?;
        print_expr(alloc, filter, into)?;
    }
    Ok(())
}

fn print_group(
    alloc: Global,
    group: &Option<ColTreeList>,
    into: &mut Printer,
) -> Result<(), AllocError>
    ensures { OnOk result (into.new ≡ after_all into.old (group_pieces group.now)) }
{
    if let Some(columns) = group {
        into.mark(Mark::Group)?;
        into.mark(Mark::By)?;
        print_list(alloc, columns.as_slice(), into)?;
    }
    Ok(())
}

#[tactic(auto, using(crate::proofs::PrintLemmas::after_all_append))]
fn print_query(alloc: Global, query: &QueryTree, into: &mut Printer) -> Result<(), AllocError>
    ensures { OnOk result (into.new ≡ after_all into.old (query_pieces query.now)) }
{
    into.mark(Mark::Select)?;
    print_list(alloc, query.items.as_slice(), into)?;
    into.mark(Mark::From)?;
    print_list(alloc, query.entries.as_slice(), into)?;
    print_filter(alloc, &query.filter, into)?;
    print_group(alloc, &query.group, into)?;
    Ok(())
}

fn kind_mark(kind: Kind) -> Mark
    ensures { result ≡ mark_of_kind kind }
{
    match kind {
        Kind::Int | Kind::Big => Mark::Int,
        Kind::Text => Mark::Text,
    }
}

#[tactic(auto, using(crate::proofs::PrintLemmas::after_all_append))]
impl Printed for ColumnDef {
    ghost pieces = { def_pieces };

    fn print_to(&self, _alloc: Global, into: &mut Printer) -> Result<(), AllocError> {
        into.name(&self.name)?;
        into.mark(kind_mark(self.kind))?;
        Ok(())
    }
}

fn print_key(alloc: Global, key: &NameList, into: &mut Printer) -> Result<(), AllocError>
    ensures { OnOk result (into.new ≡ after_all into.old (key_pieces key.now)) }
{
    if key.is_empty() {
        return Ok(());
    }
    into.mark(Mark::Comma)?;
    print_led(alloc, Mark::Key, key.as_slice(), into)?;
    Ok(())
}

fn print_limit(limit: Option<u128>, into: &mut Printer) -> Result<(), AllocError>
    ensures { OnOk result (into.new ≡ after_all into.old (limit_pieces limit)) }
{
    if let Some(limit) = limit {
        into.mark(Mark::Limit)?;
        into.whole(limit)?;
    }
    Ok(())
}

#[tactic(auto, using(crate::proofs::PrintLemmas::after_all_append))]
impl Printed for StepTree {
    ghost pieces = { step_pieces };

    fn print_to(&self, _alloc: Global, into: &mut Printer) -> Result<(), AllocError> {
        match self {
            StepTree::Add {
                bound,
                into: target,
            } => {
                into.mark(Mark::Add)?;
                into.name(bound)?;
                into.mark(Mark::Into)?;
                into.name(target)
            }
            StepTree::Redo { table, by } => {
                into.mark(Mark::Redo)?;
                into.name(table)?;
                into.mark(Mark::By)?;
                into.name(by)
            }
        }
    }
}

fn print_enclosed_names(
    alloc: Global,
    names: &NameList,
    into: &mut Printer,
) -> Result<(), AllocError>
    ensures { OnOk result (into.new ≡ after_all into.old (enclosed_names names.now)) }
{
    if names.is_empty() {
        return Ok(());
    }
    print_enclosed(alloc, names.as_slice(), into)?;
    Ok(())
}

#[tactic(auto, using(crate::proofs::PrintLemmas::after_all_append))]
impl Printed for EventTree {
    ghost pieces = { event_pieces };

    fn print_to(&self, alloc: Global, into: &mut Printer) -> Result<(), AllocError> {
        match self {
            EventTree::Inserted => into.mark(Mark::Inserted),
            EventTree::Deleted => into.mark(Mark::Deleted),
            EventTree::Updated(columns) => {
                into.mark(Mark::Updated)?;
                print_enclosed_names(alloc, columns, into)
            }
        }
    }
}

fn print_bind(name: &Option<Name>, into: &mut Printer) -> Result<(), AllocError>
    ensures { OnOk result (into.new ≡ after_all into.old (bind_pieces name.now)) }
{
    if let Some(name) = name {
        into.mark(Mark::Bind)?;
        into.mark(Mark::As)?;
        into.name(name)?;
    }
    Ok(())
}

#[tactic(auto, using(crate::proofs::PrintLemmas::after_all_append))]
impl Printed for BoundTree {
    ghost pieces = { bound_pieces };

    fn print_to(&self, alloc: Global, into: &mut Printer) -> Result<(), AllocError> {
        into.mark(Mark::Open)?;
        print_query(alloc, &self.query, into)?;
        into.mark(Mark::Close)?;
        print_bind(&self.name, into)?;
        Ok(())
    }
}

fn print_on(alloc: Global, columns: &NameList, into: &mut Printer) -> Result<(), AllocError>
    ensures { OnOk result (into.new ≡ after_all into.old (on_pieces columns.now)) }
{
    if columns.is_empty() {
        return Ok(());
    }
    into.mark(Mark::On)?;
    print_enclosed_names(alloc, columns, into)?;
    Ok(())
}

fn print_unique(
    alloc: Global,
    unique: &Option<NameList>,
    into: &mut Printer,
) -> Result<(), AllocError>
    ensures { OnOk result (into.new ≡ after_all into.old (unique_pieces unique.now)) }
{
    if let Some(columns) = unique {
        into.mark(Mark::Unique)?;
        print_on(alloc, columns, into)?;
    }
    Ok(())
}

fn print_after(after: u128, into: &mut Printer) -> Result<(), AllocError>
    ensures { OnOk result (into.new ≡ after_all into.old (after_pieces after)) }
{
    if after == 0 {
        return Ok(());
    }
    into.mark(Mark::After)?;
    into.whole(after)?;
    Ok(())
}

#[tactic(auto, using(crate::proofs::PrintLemmas::after_all_append))]
fn print_manner(alloc: Global, manner: &Manner, into: &mut Printer) -> Result<(), AllocError>
    ensures { OnOk result (into.new ≡ after_all into.old (manner_pieces manner.now)) }
{
    print_unique(alloc, &manner.unique, into)?;
    print_after(manner.after, into)?;
    Ok(())
}

#[tactic(auto, using(crate::proofs::PrintLemmas::after_all_append))]
impl Printed for Value {
    ghost pieces = { value_pieces };

    fn print_to(&self, alloc: Global, into: &mut Printer) -> Result<(), AllocError> {
        match self {
            Value::Int(number) => into.number(*number),
            Value::Text(text) => into.text(alloc, text),
        }
    }
}

#[tactic(auto, using(crate::proofs::PrintLemmas::after_all_append))]
impl Printed for Row {
    ghost pieces = { row_pieces };

    fn print_to(&self, alloc: Global, into: &mut Printer) -> Result<(), AllocError> {
        print_enclosed(alloc, self.values(), into)
    }
}

#[tactic(auto, using(crate::proofs::PrintLemmas::after_all_append))]
impl Printed for SetTree {
    ghost pieces = { set_pieces };

    fn print_to(&self, alloc: Global, into: &mut Printer) -> Result<(), AllocError> {
        into.name(&self.column)?;
        into.mark(Mark::Equal)?;
        print_operand(alloc, 4, &self.value, into)
    }
}

#[tactic(auto, using(crate::proofs::PrintLemmas::after_all_append))]
fn print_update(
    alloc: Global,
    table: &Name,
    sets: &[SetTree],
    filter: &Option<Expr>,
    into: &mut Printer,
) -> Result<(), AllocError>
    ensures { OnOk result (into.new ≡ after_all into.old (update_pieces table.now sets.now filter.now)) }
{
    into.mark(Mark::Update)?;
    into.name(table)?;
    into.mark(Mark::Set)?;
    print_list(alloc, sets, into)?;
    print_filter(alloc, filter, into)?;
    Ok(())
}

#[tactic(auto, using(crate::proofs::PrintLemmas::after_all_append))]
fn print_begin(
    alloc: Global,
    write: &NameList,
    read: &NameList,
    into: &mut Printer,
) -> Result<(), AllocError>
    ensures { OnOk result (into.new ≡ after_all into.old (begin_pieces write.now read.now)) }
{
    into.mark(Mark::Begin)?;
    print_led(alloc, Mark::Write, write.as_slice(), into)?;
    print_led(alloc, Mark::Read, read.as_slice(), into)?;
    Ok(())
}

#[tactic(auto, using(crate::proofs::PrintLemmas::after_all_append))]
impl Printed for Deed {
    ghost pieces = { deed_pieces };

    fn print_to(&self, alloc: Global, into: &mut Printer) -> Result<(), AllocError> {
        match self {
            Deed::Begin { write, read } => print_begin(alloc, write, read, into),
            Deed::Commit => into.mark(Mark::Commit),
            Deed::Undo => into.mark(Mark::Undo),
            Deed::Start => into.mark(Mark::Start),
            Deed::Finish { number } => {
                into.mark(Mark::Finish)?;
                into.whole(*number)
            }
            Deed::Return { number } => {
                into.mark(Mark::Return)?;
                into.whole(*number)
            }
            Deed::Run => into.mark(Mark::Run),
            Deed::ShowPending => {
                into.mark(Mark::Show)?;
                into.mark(Mark::Pending)
            }
            Deed::Insert { table, rows } => {
                into.mark(Mark::Insert)?;
                into.name(table)?;
                print_list(alloc, rows.as_slice(), into)
            }
            Deed::Put { table, row } => {
                into.mark(Mark::Put)?;
                into.name(table)?;
                row.print_to(alloc, into)
            }
            Deed::Update {
                table,
                sets,
                filter,
            } => print_update(alloc, table, sets.as_slice(), filter, into),
            Deed::Delete { table, filter } => {
                into.mark(Mark::Delete)?;
                into.name(table)?;
                print_filter(alloc, filter, into)
            }
            Deed::Select { query } => print_query(alloc, query, into),
            Deed::Show { table } => {
                into.mark(Mark::Show)?;
                into.name(table)
            }
        }
    }
}

fn print_caller(caller: Option<u32>, into: &mut Printer) -> Result<(), AllocError>
    ensures { OnOk result (into.new ≡ after_all into.old (caller_pieces caller)) }
{
    if let Some(caller) = caller {
        into.mark(Mark::As)?;
        into.whole(u128::from(caller))?;
    }
    Ok(())
}

fn print_marked(marked: bool, into: &mut Printer) -> Result<(), AllocError>
    ensures { OnOk result (into.new ≡ after_all into.old (marked_pieces marked)) }
{
    if marked {
        into.mark(Mark::Marked)?;
    }
    Ok(())
}

fn by_mark(by: By) -> Mark
    ensures { result ≡ mark_of_by by }
{
    match by {
        By::Sum => Mark::Sum,
        By::Key => Mark::Key,
    }
}

#[tactic(auto, using(crate::proofs::PrintLemmas::after_all_append))]
fn print_table(
    alloc: Global,
    name: &Name,
    columns: &ColumnDefList,
    key: &NameList,
    limit: Option<u128>,
    into: &mut Printer,
) -> Result<(), AllocError>
    ensures { OnOk result (into.new ≡ after_all into.old (table_pieces name.now columns.now key.now limit)) }
{
    into.mark(Mark::Table)?;
    into.name(name)?;
    into.mark(Mark::Open)?;
    print_list(alloc, columns.as_slice(), into)?;
    print_key(alloc, key, into)?;
    into.mark(Mark::Close)?;
    print_limit(limit, into)?;
    Ok(())
}

#[tactic(auto, using(crate::proofs::PrintLemmas::after_all_append))]
fn print_stream(
    name: &Name,
    table: &Name,
    marked: bool,
    into: &mut Printer,
) -> Result<(), AllocError>
    ensures { OnOk result (into.new ≡ after_all into.old (stream_pieces name.now table.now marked)) }
{
    into.mark(Mark::Stream)?;
    into.name(name)?;
    into.mark(Mark::Into)?;
    into.name(table)?;
    print_marked(marked, into)?;
    Ok(())
}

/// What a rule waits for, and its conditions.
#[tactic(auto, using(crate::proofs::PrintLemmas::after_all_append))]
fn print_trigger(
    alloc: Global,
    table: &Name,
    events: &[EventTree],
    conditions: &[BoundTree],
    into: &mut Printer,
) -> Result<(), AllocError>
    ensures { OnOk result (into.new ≡ after_all into.old (trigger_pieces table.now events.now conditions.now)) }
{
    into.mark(Mark::On)?;
    into.name(table)?;
    into.mark(Mark::When)?;
    print_list(alloc, events, into)?;
    print_led(alloc, Mark::If, conditions, into)?;
    Ok(())
}

/// What a rule then does.
#[tactic(auto, using(crate::proofs::PrintLemmas::after_all_append))]
fn print_effect(
    alloc: Global,
    evaluate: &[BoundTree],
    function: &Name,
    manner: &Manner,
    into: &mut Printer,
) -> Result<(), AllocError>
    ensures { OnOk result (into.new ≡ after_all into.old (effect_pieces evaluate.now function.now manner.now)) }
{
    into.mark(Mark::Then)?;
    print_led(alloc, Mark::Evaluate, evaluate, into)?;
    into.mark(Mark::Execute)?;
    into.name(function)?;
    print_manner(alloc, manner, into)?;
    Ok(())
}

#[tactic(auto, using(crate::proofs::PrintLemmas::after_all_append))]
fn print_maintain(
    alloc: Global,
    name: &Name,
    by: By,
    manner: &Manner,
    into: &mut Printer,
) -> Result<(), AllocError>
    ensures { OnOk result (into.new ≡ after_all into.old (maintain_pieces name.now by manner.now)) }
{
    into.mark(Mark::Maintain)?;
    into.name(name)?;
    into.mark(Mark::By)?;
    into.mark(by_mark(by))?;
    print_manner(alloc, manner, into)?;
    Ok(())
}

#[tactic(auto, using(crate::proofs::PrintLemmas::after_all_append))]
impl Printed for Statement {
    ghost pieces = { statement_pieces };

    fn print_to(&self, alloc: Global, into: &mut Printer) -> Result<(), AllocError> {
        match self {
            Statement::Table {
                name,
                columns,
                key,
                limit,
            } => print_table(alloc, name, columns, key, *limit, into),
            Statement::Stream {
                name,
                table,
                marked,
            } => print_stream(name, table, *marked, into),
            Statement::Derive { name, query } => {
                into.mark(Mark::Derive)?;
                into.name(name)?;
                into.mark(Mark::As)?;
                print_query(alloc, query, into)
            }
            Statement::Function { name, steps } => {
                into.mark(Mark::Function)?;
                into.name(name)?;
                print_list(alloc, steps.as_slice(), into)
            }
            Statement::Rule {
                name,
                table,
                events,
                conditions,
                evaluate,
                function,
                manner,
            } => {
                into.mark(Mark::Rule)?;
                into.name(name)?;
                print_trigger(alloc, table, events.as_slice(), conditions.as_slice(), into)?;
                print_effect(alloc, evaluate.as_slice(), function, manner, into)?;
                Ok(())
            }
            Statement::Maintain { name, by, manner } => {
                print_maintain(alloc, name, *by, manner, into)
            }
            Statement::Ready => into.mark(Mark::Ready),
            Statement::At { moment } => {
                into.mark(Mark::At)?;
                into.whole(*moment)
            }
            Statement::Deed { caller, deed } => {
                print_caller(*caller, into)?;
                deed.print_to(alloc, into)?;
                Ok(())
            }
        }
    }
}

impl Statement {
    /// The canonical text: one blank between two tokens, none where none is needed, and parentheses only
    /// where the tree needs them.
    #[tactic(auto, unfolding(crate::specs::Written::statement_text))]
    pub fn print(&self, alloc: Global) -> Result<Bytes, AllocError>
        ensures { IfOk result (λ text. text ≡ statement_text self.now) }
    {
        let mut into = Printer::new(alloc);
        self.print_to(alloc, &mut into)?;
        Ok(Bytes::from_vec(into.into_bytes()))
    }
}
