//! Names that are taken, or stand twice where once is meant, and tables that are kept otherwise.
ghost use Rattle.std.specs.Prelude.{
  ◌≡◌,
  ◌++◌,
  IfOk,
  Some,
  Ok,
  filter_map,
  flat_map,
  is_some,
  map,
  option_copied,
  option_map,
  slice_get,
  false,
  unwrap_or,
  [],
};
ghost use Rattle.std.specs.List.{list_any};
ghost use Rattle.std.specs.Option.{option_map_or};
ghost use Rattle.strip_value.specs.declared.tables.TableDef.{TableDef};
ghost use Rattle.strip_setup.specs.declared.errors.SetupError.TheVariants.{Exists};
ghost use Rattle.strip_setup.specs.Catalog.{first, function_named, name_if, repeated, rule_named, table_named};
ghost use Rattle.strip_setup.specs.Checks.{Checks};
ghost use Rattle.strip_names.specs.Exists.{bars, exists, is_kept_otherwise, is_made, keeps_otherwise, kept_number, same_by, taken_by_steps, taken_in_deed, taken_in_event, taken_in_query};
ghost use Rattle.strip_setup.specs.Resolve.{kept_name, kind_of_step};
ghost use Rattle.strip_setup.specs.Queries.{alias_of};
ghost use Rattle.strip_setup.specs.Resolve.{function_at};

use std::alloc::{AllocError, Global};
use strip_ast::{
    BoundTree, Deed, EntryTree, EventTree, Manner, QueryTree, SetTree, Statement, StepTree,
};
use strip_setup::SetupError;
use strip_setup::functions::{kept_name, kind_of_step};
use strip_setup::items::item_names;
use strip_setup::names::{
    function_named, has_name, is_derived, is_same, rule_named, stream_named, table_named,
};
use strip_setup::origins::alias_of;
use strip_setup::setup::Setup;
use strip_value::{By, ColumnDef, Duplicate, Function, Id, Name, NameList, Step, TableDef};

// ---- names that stand twice

/// The refusal of a taken name.
fn refuse(alloc: Global, name: &Name) -> Result<(), SetupError>
    ensures { Checks (Some (Exists name.now)) result }
{
    let Ok(name) = name.copy(alloc) else {
        return Err(SetupError::Memory);
    };
    Err(SetupError::Exists { name })
}

fn refuse_if(alloc: Global, is_taken: bool, name: &Name) -> Result<(), SetupError>
    ensures { Checks (option_map Exists (first (name_if is_taken name.now))) result }
{
    if is_taken {
        refuse(alloc, name)
    } else {
        Ok(())
    }
}

/// The first name that stands twice.
pub fn check_repeated(alloc: Global, names: &[Name]) -> Result<(), SetupError>
    ensures { Checks (option_map Exists (first (repeated names.now))) result }
{
    for (i, name) in names.iter().enumerate() {
        if has_name(&names[..i], name) {
            return refuse(alloc, name);
        }
    }
    Ok(())
}

fn check_event(alloc: Global, event: &EventTree) -> Result<(), SetupError>
    ensures { Checks (option_map Exists (first (taken_in_event event.now))) result }
{
    match event {
        EventTree::Updated(names) => check_repeated(alloc, names.as_slice()),
        _ => Ok(()),
    }
}

fn check_events(alloc: Global, events: &[EventTree]) -> Result<(), SetupError>
    ensures { Checks (option_map Exists (first (flat_map taken_in_event events.now))) result }
{
    for event in events {
        check_event(alloc, event)?;
    }
    Ok(())
}

fn column_names(alloc: Global, columns: &[ColumnDef]) -> Result<NameList, AllocError>
    ensures { IfOk result (λ made. made ≡ map (λ column. column.name) columns.now) }
{
    let mut names = NameList::new(alloc);
    for column in columns {
        names.push(column.name.copy(alloc)?)?;
    }
    Ok(names)
}

fn check_columns(alloc: Global, columns: &[ColumnDef]) -> Result<(), SetupError>
    ensures { Checks (option_map Exists (first (repeated (map (λ column. column.name) columns.now)))) result }
{
    let Ok(names) = column_names(alloc, columns) else {
        return Err(SetupError::Memory);
    };
    check_repeated(alloc, names.as_slice())
}

fn set_names(alloc: Global, sets: &[SetTree]) -> Result<NameList, AllocError>
    ensures { IfOk result (λ made. made ≡ map (λ s. s.column) sets.now) }
{
    let mut names = NameList::new(alloc);
    for set in sets {
        names.push(set.column.copy(alloc)?)?;
    }
    Ok(names)
}

fn check_sets(alloc: Global, sets: &[SetTree]) -> Result<(), SetupError>
    ensures { Checks (option_map Exists (first (repeated (map (λ s. s.column) sets.now)))) result }
{
    let Ok(names) = set_names(alloc, sets) else {
        return Err(SetupError::Memory);
    };
    check_repeated(alloc, names.as_slice())
}

fn aliases(alloc: Global, entries: &[EntryTree]) -> Result<NameList, AllocError>
    ensures { IfOk result (λ made. made ≡ filter_map alias_of entries.now) }
{
    let mut names = NameList::new(alloc);
    for entry in entries {
        if let Some(alias) = alias_of(entry) {
            names.push(alias.copy(alloc)?)?;
        }
    }
    Ok(names)
}

fn check_aliases(alloc: Global, entries: &[EntryTree]) -> Result<(), SetupError>
    ensures { Checks (option_map Exists (first (repeated (filter_map alias_of entries.now)))) result }
{
    let Ok(names) = aliases(alloc, entries) else {
        return Err(SetupError::Memory);
    };
    check_repeated(alloc, names.as_slice())
}

// ---- tables that are kept otherwise

fn is_same_kind(by: By, other: By) -> bool
    ensures { result ≡ same_by by other }
{
    match (by, other) {
        (By::Sum, By::Sum) | (By::Key, By::Key) => true,
        _ => false,
    }
}

/// Whether the table bars steps of this kind.
fn bars(how: By, table: &TableDef) -> bool
    ensures { result ≡ bars how (Some table.now) }
{
    match table.kept {
        _ if table.declared => true,
        Some(kept) => !is_same_kind(how, kept),
        None => false,
    }
}

/// Whether the other step keeps the same table by the other kind of step.
fn keeps_otherwise(step: &StepTree, other: &StepTree) -> bool
    ensures { result ≡ keeps_otherwise step.now other.now }
{
    is_same(kept_name(other), kept_name(step))
        && !is_same_kind(kind_of_step(step), kind_of_step(other))
}

fn is_kept_by_others(step: &StepTree, earlier: &[StepTree]) -> bool
    ensures { result ≡ list_any (keeps_otherwise step.now) earlier.now }
{
    earlier.iter().any(|other| keeps_otherwise(step, other))
}

fn is_kept_otherwise(tables: &[TableDef], step: &StepTree, earlier: &[StepTree]) -> bool
    ensures { result ≡ is_kept_otherwise tables.now (step.now, earlier.now) }
{
    let Some(table) = table_named(tables, kept_name(step)) else {
        return false;
    };
    is_derived(Some(table)) && (bars(kind_of_step(step), table) || is_kept_by_others(step, earlier))
}

fn check_steps(alloc: Global, tables: &[TableDef], steps: &[StepTree]) -> Result<(), SetupError>
    ensures { Checks (option_map Exists (first (taken_by_steps tables.now steps.now))) result }
{
    for (i, step) in steps.iter().enumerate() {
        if is_kept_otherwise(tables, step, &steps[..i]) {
            return refuse(alloc, kept_name(step));
        }
    }
    Ok(())
}

/// The number of the table that a step of a function keeps.
fn kept_number(step: &Step) -> Id
    ensures { result ≡ kept_number step.now }
{
    match step {
        Step::Add { into, .. } => *into,
        Step::Redo { table, .. } => *table,
    }
}

fn keeps_declared(tables: &[TableDef], step: &Step) -> bool
    ensures { result ≡ option_map_or (λ (table : TableDef). table.declared) (slice_get tables.now (kept_number step.now)) false }
{
    match tables.get(kept_number(step).0 as usize) {
        Some(table) => table.declared,
        None => false,
    }
}

fn keep_declared(tables: &[TableDef], steps: &[Step]) -> bool
    ensures { result ≡ list_any (λ s. option_map_or (λ (table : TableDef). table.declared) (slice_get tables.now (kept_number s)) false) steps.now }
{
    steps.iter().any(|step| keeps_declared(tables, step))
}

/// Whether the function was made with a declared table.
fn is_made(tables: &[TableDef], function: &Function) -> bool
    ensures { result ≡ is_made tables.now function.now }
{
    keep_declared(tables, function.steps.as_slice())
}

fn check_made(alloc: Global, setup: &Setup<'_>, function: &Name) -> Result<(), SetupError>
    ensures { Checks (option_map Exists (first (name_if (is_made setup.now.tables (function_at setup.now function.now)) function.now))) result }
{
    let is_made = match function_named(setup.functions(), function) {
        Some(found) => is_made(setup.defs(), found),
        None => false,
    };
    refuse_if(alloc, is_made, function)
}

// ---- statements

fn check_table(
    alloc: Global,
    tables: &[TableDef],
    name: &Name,
    columns: &[ColumnDef],
    key: &[Name],
) -> Result<(), SetupError>
    ensures { Checks (option_map Exists (first (name_if (is_some (table_named tables.now name.now)) name.now ++ (repeated (map (λ column. column.name) columns.now) ++ repeated key.now)))) result }
{
    refuse_if(alloc, table_named(tables, name).is_some(), name)?;
    check_columns(alloc, columns)?;
    check_repeated(alloc, key)
}

fn check_function(
    alloc: Global,
    setup: &Setup<'_>,
    name: &Name,
    steps: &[StepTree],
) -> Result<(), SetupError>
    ensures { Checks (option_map Exists (first (name_if (is_some (function_named setup.now.functions name.now)) name.now ++ taken_by_steps setup.now.tables steps.now))) result }
{
    refuse_if(
        alloc,
        function_named(setup.functions(), name).is_some(),
        name,
    )?;
    check_steps(alloc, setup.defs(), steps)
}

fn check_unique(alloc: Global, unique: Option<&NameList>) -> Result<(), SetupError>
    ensures { Checks (option_map Exists (first (repeated (unwrap_or (option_copied unique.entry) [])))) result }
{
    match unique {
        Some(names) => check_repeated(alloc, names.as_slice()),
        None => Ok(()),
    }
}

/// What a rule runs: a function that wasn't made with a table, with columns that each stand once in `unique on`.
fn check_action(
    alloc: Global,
    setup: &Setup<'_>,
    function: &Name,
    manner: &Manner,
) -> Result<(), SetupError>
    ensures { Checks (option_map Exists (first (name_if (is_made setup.now.tables (function_at setup.now function.now)) function.now ++ repeated (unwrap_or manner.now.unique [])))) result }
{
    check_made(alloc, setup, function)?;
    check_unique(alloc, manner.unique.as_ref())
}

fn check_query(alloc: Global, query: &QueryTree) -> Result<(), SetupError>
    ensures { Checks (option_map Exists (first (taken_in_query query.now))) result }
{
    let Ok(names) = item_names(alloc, query.items.as_slice()) else {
        return Err(SetupError::Memory);
    };
    check_repeated(alloc, names.as_slice())?;
    check_aliases(alloc, query.entries.as_slice())
}

fn check_queries(alloc: Global, queries: &[BoundTree]) -> Result<(), SetupError>
    ensures { Checks (option_map Exists (first (flat_map (λ bound. taken_in_query bound.query) queries.now))) result }
{
    for bound in queries {
        check_query(alloc, &bound.query)?;
    }
    Ok(())
}

/// The first name of an act that is taken: a column that is set twice, or a name that stands twice in a query.
pub fn taken_in_deed(alloc: Global, deed: &Deed) -> Result<(), SetupError>
    ensures { Checks (option_map Exists (first (taken_in_deed deed.now))) result }
{
    match deed {
        Deed::Update { sets, .. } => check_sets(alloc, sets.as_slice()),
        Deed::Select { query } => check_query(alloc, query),
        _ => Ok(()),
    }
}

fn check_derive(
    alloc: Global,
    tables: &[TableDef],
    name: &Name,
    query: &QueryTree,
) -> Result<(), SetupError>
    ensures { Checks (option_map Exists (first (name_if (is_some (table_named tables.now name.now)) name.now ++ taken_in_query query.now))) result }
{
    refuse_if(alloc, table_named(tables, name).is_some(), name)?;
    check_query(alloc, query)
}

/// The first name of the statement that is taken.
pub fn exists(alloc: Global, setup: &Setup<'_>, statement: &Statement) -> Result<(), SetupError>
    ensures { Checks (exists setup.now statement.now) result }
{
    let tables = setup.defs();
    match statement {
        Statement::Table {
            name,
            columns,
            key,
            ..
        } => { check_table(alloc, tables, name, columns.as_slice(), key.as_slice()) }
        Statement::Stream { name, .. } => {
            refuse_if(alloc, stream_named(setup.streams(), name).is_some(), name)
        }
        Statement::Derive { name, query } => check_derive(alloc, tables, name, query),
        Statement::Function { name, steps } => check_function(alloc, setup, name, steps.as_slice()),
        Statement::Rule {
            name,
            events,
            conditions,
            evaluate,
            function,
            manner,
            ..
        } => {
            refuse_if(alloc, rule_named(setup.rules(), name).is_some(), name)?;
            check_events(alloc, events.as_slice())?;
            check_queries(alloc, conditions.as_slice())?;
            check_queries(alloc, evaluate.as_slice())?;
            check_action(alloc, setup, function, manner)
        }
        Statement::Deed { deed, .. } => taken_in_deed(alloc, deed),
        _ => Ok(()),
    }
}
