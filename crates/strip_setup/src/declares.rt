//! What statements of derived tables and of rules declare.
ghost use Rattle.std.specs.Prelude.{
  ◌≡◌,
  ◌≤◌,
  ◌<◌,
  ◌++◌,
  IfOk,
  OnOk,
  length,
  map,
  option_copied,
  unwrap_or,
  find,
};
ghost use Rattle.std.specs.List.{range_with_len};
ghost use Rattle.std.specs.Str.{bytes_eq};
ghost use Rattle.strip_setup.specs.Resolve.{kept_name};
ghost use Rattle.strip_value.specs.declared.rules.BoundDef.{BoundDef};
ghost use Rattle.strip_setup.specs.declared.answers.Binding.{Binding};
ghost use Rattle.strip_setup.specs.Adds.{functions_with_rule, kept_by, kept_by_steps};
ghost use Rattle.strip_setup.specs.Catalog.{function_named, function_number};
ghost use Rattle.strip_setup.specs.Resolve.{bindings_of, bound_query_of, bound_with, columns_bound, columns_so_far, derived_of, event_of, function_at, group_numbers, in_rule, names_with, no_function, outside_rules, rule_of};
ghost use Rattle.strip_setup.specs.Small.{HaveFewEntries, IsSmallScope, of_both, rebound};

use crate::answers::{Binding, BindingList};
use crate::functions::{bound_number, kept_name, kind_of_step};
use crate::lists::copied;
use crate::names::{columns_of, each_once, function_named, function_number, is_same, table_named};
use crate::queries::as_columns;
use crate::scope::Scope;
use crate::tables::{numbers_in, table_id};
use std::alloc::{AllocError, Global};
use strip_ast::{BoundTree, ColTreeList, EventTree, Manner, QueryTree, StepTree};
use strip_value::{
    BoundDef, BoundDefList, BoundQuery, BoundQueryList, By, ColumnDef, ColumnDefList, Duplicate,
    Event, EventList, Function, FunctionList, Name, NameList, Rule, TableDef, TableDefList,
    U32List,
};

// ---- derived tables

/// The first columns, as many as a query groups by.
fn group_numbers(alloc: Global, group: &Option<ColTreeList>) -> Result<U32List, AllocError>
    requires few { length (group_numbers group.now) ≤ 16 }
    ensures { IfOk result (λ made. made ≡ group_numbers group.now) }
{
    match group {
        None => Ok(U32List::new(alloc)),
        Some(columns) => first_numbers(alloc, columns.len() as u32),
    }
}

#[tactic(auto, using(crate::proofs::Declared::number_more))]
fn first_numbers(alloc: Global, count: u32) -> Result<U32List, AllocError>
    ensures { IfOk result (λ made. made ≡ range_with_len 0 count) }
{
    let mut numbers = U32List::new(alloc);
    for number in 0..count {
        numbers.push(number)?;
    }
    Ok(numbers)
}

/// A derived table: its columns are its query's items, its key the columns that the query groups by, which come first.
pub fn derived_of(
    alloc: Global,
    tables: &[TableDef],
    name: &Name,
    query: &QueryTree,
) -> Result<TableDef, AllocError>
    requires small { IsSmallScope (outside_rules tables.now) }
    requires few { length query.now.entries ≤ 3 }
    requires grouped { length (group_numbers query.now.group) ≤ 16 }
    ensures { IfOk result (λ made. made ≡ derived_of tables.now name.now query.now) }
{
    let name = name.copy(alloc)?;
    let scope = Scope::outside_rules(tables);
    let answers = scope.answers_of(alloc, query)?;
    let columns = as_columns(alloc, answers.as_slice())?;
    let key = group_numbers(alloc, &query.group)?;
    let query = scope.query_of(alloc, query)?;
    Ok(TableDef {
        name,
        columns,
        key,
        limit: None,
        query: Some(query),
        kept: None,
        declared: false,
    })
}

// ---- how tables are kept

fn step_named<'a>(steps: &'a [StepTree], name: &Name) -> Option<&'a StepTree>
    ensures { option_copied result ≡ find (λ s. bytes_eq (kept_name s) name.now) steps.now }
{
    steps.iter().find(|step| is_same(kept_name(step), name))
}

/// The kind of a step of these that names the table, else how it was kept before.
fn kept_by(steps: &[StepTree], table: &TableDef) -> Option<By>
    ensures { result ≡ kept_by steps.now table.now }
{
    match step_named(steps, &table.name) {
        Some(step) => Some(kind_of_step(step)),
        None => table.kept,
    }
}

/// The tables once a function with these steps is there: each table that a step keeps is marked as kept by that kind of step.
pub fn kept_by_steps(
    alloc: Global,
    tables: &[TableDef],
    steps: &[StepTree],
) -> Result<TableDefList, AllocError>
    ensures { IfOk result (λ made. made ≡ kept_by_steps tables.now steps.now) }
{
    let mut made = TableDefList::new(alloc);
    for table in tables {
        let mut copy = table.copy(alloc)?;
        copy.kept = kept_by(steps, table);
        made.push(copy)?;
    }
    Ok(made)
}

// ---- what rules bind

fn push_bindings(
    alloc: Global,
    scope: &Scope<'_>,
    queries: &[BoundTree],
    made: &mut BindingList,
) -> Result<(), AllocError>
    requires small { IsSmallScope scope.now }
    requires few { HaveFewEntries queries.now }
    ensures { OnOk result (made.new ≡ made.old ++ bindings_of scope.now queries.now) }
{
    for bound in queries {
        if let Some(name) = &bound.name {
            let name = name.copy(alloc)?;
            let columns = scope.answers_of(alloc, &bound.query)?;
            made.push(Binding { name, columns })?;
        }
    }
    Ok(())
}

/// What the queries of a rule bind, one after the other.
pub fn bindings_of(
    alloc: Global,
    scope: &Scope<'_>,
    conditions: &[BoundTree],
    evaluate: &[BoundTree],
) -> Result<BindingList, AllocError>
    requires small { IsSmallScope scope.now }
    requires few_conditions { HaveFewEntries conditions.now }
    requires few { HaveFewEntries evaluate.now }
    ensures { IfOk result (λ made. made ≡ bindings_of scope.now (conditions.now ++ evaluate.now)) }
{
    let mut made = BindingList::new(alloc);
    push_bindings(alloc, scope, conditions, &mut made)?;
    push_bindings(alloc, scope, evaluate, &mut made)?;
    Ok(made)
}

/// The first of these that binds under the name.
pub fn binding_named<'a>(bindings: &'a [Binding], name: &Name) -> Option<&'a Binding>
    ensures { option_copied result ≡ find (λ (binding : Binding). bytes_eq binding.name name.now) bindings.now }
{
    bindings.iter().find(|binding| is_same(&binding.name, name))
}

/// The columns that the first of these binds under a name, else other ones.
pub fn columns_bound(
    alloc: Global,
    bindings: &[Binding],
    name: &Name,
    others: &[ColumnDef],
) -> Result<ColumnDefList, AllocError>
    ensures { IfOk result (λ made. made ≡ columns_bound bindings.now name.now others.now) }
{
    match binding_named(bindings, name) {
        Some(binding) => as_columns(alloc, binding.columns.as_slice()),
        None => copied(alloc, others),
    }
}

fn bound_named<'a>(bound: &'a [BoundDef], name: &Name) -> Option<&'a BoundDef>
    ensures { option_copied result ≡ find (λ (def : BoundDef). bytes_eq def.name name.now) bound.now }
{
    bound.iter().find(|def| is_same(&def.name, name))
}

/// The columns of a bound table so far.
pub fn columns_so_far<'a>(bound: &'a [BoundDef], name: &Name) -> &'a [ColumnDef]
    ensures { result.now ≡ columns_so_far bound.now name.now }
{
    match bound_named(bound, name) {
        Some(def) => def.columns.as_slice(),
        None => &[],
    }
}

/// The names of the bound tables of a function once a rule is there that binds these.
pub fn names_with(
    alloc: Global,
    bound: &[BoundDef],
    bindings: &[Binding],
) -> Result<NameList, AllocError>
    ensures { IfOk result (λ made. made ≡ names_with bound.now bindings.now) }
{
    let mut names = NameList::new(alloc);
    for def in bound {
        names.push(def.name.copy(alloc)?)?;
    }
    for binding in bindings {
        names.push(binding.name.copy(alloc)?)?;
    }
    each_once(alloc, names.as_slice())
}

/// These bound tables, with the columns that a rule binds.
pub fn bound_with(
    alloc: Global,
    bound: &[BoundDef],
    bindings: &[Binding],
) -> Result<BoundDefList, AllocError>
    ensures { IfOk result (λ made. made ≡ bound_with bound.now bindings.now) }
{
    let names = names_with(alloc, bound, bindings)?;
    let mut made = BoundDefList::new(alloc);
    for name in names.as_slice() {
        let columns = columns_bound(alloc, bindings, name, columns_so_far(bound, name))?;
        made.push(BoundDef {
            name: name.copy(alloc)?,
            columns,
        })?;
    }
    Ok(made)
}

// ---- rules

/// An event of a rule on a table of these columns.
fn event_of(alloc: Global, columns: &[ColumnDef], event: &EventTree) -> Result<Event, AllocError>
    requires narrow { length columns.now ≤ 16 }
    ensures { IfOk result (λ made. made ≡ event_of columns.now event.now) }
{
    match event {
        EventTree::Inserted => Ok(Event::Inserted),
        EventTree::Deleted => Ok(Event::Deleted),
        EventTree::Updated(names) => {
            Ok(Event::Updated(numbers_in(alloc, columns, names.as_slice())?))
        }
    }
}

fn events_of(
    alloc: Global,
    columns: &[ColumnDef],
    events: &[EventTree],
) -> Result<EventList, AllocError>
    requires narrow { length columns.now ≤ 16 }
    ensures { IfOk result (λ made. made ≡ map (event_of columns.now) events.now) }
{
    let mut made = EventList::new(alloc);
    for event in events {
        made.push(event_of(alloc, columns, event)?)?;
    }
    Ok(made)
}

/// A query of a rule whose function has bound tables of these names.
fn bound_query_of(
    alloc: Global,
    scope: &Scope<'_>,
    names: &[Name],
    bound: &BoundTree,
) -> Result<BoundQuery, AllocError>
    requires small { IsSmallScope scope.now }
    requires few_names { length names.now ≤ 4096 }
    requires few { length bound.now.query.entries ≤ 3 }
    ensures { IfOk result (λ made. made ≡ bound_query_of scope.now names.now bound.now) }
{
    let query = scope.query_of(alloc, &bound.query)?;
    match &bound.name {
        None => Ok(BoundQuery { query, bound: None }),
        Some(name) => Ok(BoundQuery {
            query,
            bound: Some(bound_number(names, name)),
        }),
    }
}

fn bound_queries_of(
    alloc: Global,
    scope: &Scope<'_>,
    names: &[Name],
    queries: &[BoundTree],
) -> Result<BoundQueryList, AllocError>
    requires small { IsSmallScope scope.now }
    requires few_names { length names.now ≤ 4096 }
    requires few { HaveFewEntries queries.now }
    ensures { IfOk result (λ made. made ≡ map (bound_query_of scope.now names.now) queries.now) }
{
    let mut made = BoundQueryList::new(alloc);
    for bound in queries {
        made.push(bound_query_of(alloc, scope, names, bound)?)?;
    }
    Ok(made)
}

/// The bound tables of the function of a name; there are none where it isn't there.
fn bound_of<'a>(functions: &'a [Function], function: &Name) -> &'a [BoundDef]
    ensures { result.now ≡ (unwrap_or (function_named functions.now function.now) no_function).bound }
{
    match function_named(functions, function) {
        Some(function) => function.bound.as_slice(),
        None => &[],
    }
}

/// The number of the function of a name; one that isn't there is the first.
#[tactic(auto, using(crate::proofs::Numbers::below))]
fn function_id(functions: &[Function], function: &Name) -> u32
    requires few { length functions.now ≤ 64 }
    ensures { result ≡ unwrap_or (function_number functions.now function.now) 0 }
{
    match function_number(functions, function) {
        Some(number) => number as u32,
        None => 0,
    }
}

/// The rule that a `rule` statement declares.
pub fn rule_of(
    alloc: Global,
    tables: &[TableDef],
    functions: &[Function],
    name: &Name,
    table: &Name,
    events: &[EventTree],
    conditions: &[BoundTree],
    evaluate: &[BoundTree],
    function: &Name,
    manner: &Manner,
) -> Result<Rule, AllocError>
    requires small { IsSmallScope (in_rule tables.now table.now) }
    requires few_functions { length functions.now ≤ 64 }
    requires few_conditions { HaveFewEntries conditions.now }
    requires few { HaveFewEntries evaluate.now }
    requires few_names { length (names_with (function_at (of_both tables.now functions.now) function.now).bound (bindings_of (in_rule tables.now table.now) (conditions.now ++ evaluate.now))) ≤ 4096 }
    requires soon { manner.now.after ≤ 4294967295 }
    ensures { IfOk result (λ made. made ≡ rule_of (of_both tables.now functions.now) name.now table.now events.now conditions.now evaluate.now function.now manner.now) }
{
    let name = name.copy(alloc)?;
    let scope = Scope::in_rule(tables, table);
    let bindings = bindings_of(alloc, &scope, conditions, evaluate)?;
    let names = names_with(alloc, bound_of(functions, function), bindings.as_slice())?;
    let columns = columns_of(table_named(tables, table));
    let events = events_of(alloc, columns, events)?;
    let conditions = bound_queries_of(alloc, &scope, names.as_slice(), conditions)?;
    let evaluate = bound_queries_of(alloc, &scope, names.as_slice(), evaluate)?;
    let unique = manner.unique.copy(alloc)?;
    Ok(Rule {
        name,
        table: table_id(tables, table),
        events,
        conditions,
        evaluate,
        function: function_id(functions, function),
        unique,
        after: manner.after as u32,
    })
}

/// The function of a number, with other bound tables.
fn rebound(
    alloc: Global,
    functions: &[Function],
    number: usize,
    bound: BoundDefList,
) -> Result<FunctionList, AllocError>
    requires within { number < length functions.now }
    ensures { IfOk result (λ made. made ≡ rebound functions.now number bound) }
{
    let function = &functions[number];
    let name = function.name.copy(alloc)?;
    let steps = function.steps.copy(alloc)?;
    let mut made = copied(alloc, functions)?.into_vec();
    made[number] = Function { name, steps, bound };
    Ok(FunctionList::from_vec(made))
}

/// The functions once a rule that executes this one is there: the bound tables of the function have the columns that the
/// rule binds.
pub fn functions_with_rule(
    alloc: Global,
    tables: &[TableDef],
    functions: &[Function],
    function: &Name,
    table: &Name,
    conditions: &[BoundTree],
    evaluate: &[BoundTree],
) -> Result<FunctionList, AllocError>
    requires small { IsSmallScope (in_rule tables.now table.now) }
    requires few_conditions { HaveFewEntries conditions.now }
    requires few { HaveFewEntries evaluate.now }
    ensures { IfOk result (λ made. made ≡ functions_with_rule (of_both tables.now functions.now) function.now table.now (conditions.now ++ evaluate.now)) }
{
    let Some(number) = function_number(functions, function) else {
        return copied(alloc, functions);
    };
    let scope = Scope::in_rule(tables, table);
    let bindings = bindings_of(alloc, &scope, conditions, evaluate)?;
    let bound = bound_with(alloc, bound_of(functions, function), bindings.as_slice())?;
    rebound(alloc, functions, number, bound)
}
