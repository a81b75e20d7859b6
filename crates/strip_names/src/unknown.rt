//! Names that a statement uses and that aren't there.
ghost use Rattle.std.specs.Prelude.{◌≡◌, ◌++◌, Some, false, filter_map, flat_map, is_none, not, option_map, unwrap_or, [], ◌∷◌};
ghost use Rattle.std.specs.List.{list_any};
ghost use Rattle.std.specs.Option.{option_map_or};
ghost use Rattle.std.specs.Str.{bytes_eq};
ghost use Rattle.strip_setup.specs.declared.errors.SetupError.TheVariants.{Unknown};
ghost use Rattle.strip_setup.specs.Catalog.{columns_of, first, function_named, name_if, table_named};
ghost use Rattle.strip_setup.specs.Checks.{Checks};
ghost use Rattle.strip_setup.specs.Parts.{filter_wholes, item_wholes, total_wholes};
ghost use Rattle.strip_setup.specs.Resolve.{kept_name};
ghost use Rattle.strip_setup.specs.Queries.{own_entry};
ghost use Rattle.strip_setup.specs.Resolve.{in_rule};
ghost use Rattle.strip_names.specs.Unknown.{missing, names_of, outside, unknown, unknown_alias, unknown_column, unknown_derived, unknown_in, unknown_in_all, unknown_in_deed, unknown_in_event, unknown_in_query, unknown_in_set, unknown_origin, unknown_table};

use std::alloc::Global;
use strip_ast::{
    BoundTree, ColTree, ColTreeList, Deed, EntryTree, EventTree, Expr, ItemTree, Origin, QueryTree,
    SetTree, Statement, StepTree, Total,
};
use strip_setup::SetupError;
use strip_setup::functions::kept_name;
use strip_setup::names::{columns_of, function_named, is_derived, is_same, table_named};
use strip_setup::places::is_clear;
use strip_setup::scope::{Entry, Scope, own_entry};
use strip_setup::setup::Setup;
use strip_value::{ColumnDef, Duplicate, Function, Name, TableDef};

// ---- names of one thing

fn refuse_if(alloc: Global, is_unknown: bool, name: &Name) -> Result<(), SetupError>
    ensures { Checks (option_map Unknown (first (name_if is_unknown name.now))) result }
{
    if !is_unknown {
        return Ok(());
    }
    let Ok(name) = name.copy(alloc) else {
        return Err(SetupError::Memory);
    };
    Err(SetupError::Unknown { name })
}

fn check_table(alloc: Global, tables: &[TableDef], name: &Name) -> Result<(), SetupError>
    ensures { Checks (option_map Unknown (first (unknown_table tables.now name.now))) result }
{
    refuse_if(alloc, table_named(tables, name).is_none(), name)
}

fn check_derived(alloc: Global, tables: &[TableDef], name: &Name) -> Result<(), SetupError>
    ensures { Checks (option_map Unknown (first (unknown_derived tables.now name.now))) result }
{
    refuse_if(alloc, !is_derived(table_named(tables, name)), name)
}

/// What is there only in a rule, called by its word.
fn check_in_rule(alloc: Global, scope: &Scope, word: &[u8]) -> Result<(), SetupError>
    ensures { Checks (option_map Unknown (first (outside scope.now.changed word.now))) result }
{
    if scope.is_in_rule() {
        return Ok(());
    }
    let Ok(name) = Name::of(alloc, word) else {
        return Err(SetupError::Memory);
    };
    Err(SetupError::Unknown { name })
}

// ---- columns

fn is_called(entry: &Entry, alias: &Name) -> bool
    ensures { result ≡ option_map_or (λ other. bytes_eq other alias.now) entry.now.alias false }
{
    match &entry.alias {
        Some(other) => is_same(other, alias),
        None => false,
    }
}

fn has_alias(entries: &[Entry], alias: &Name) -> bool
    ensures { result ≡ list_any (λ entry. option_map_or (λ other. bytes_eq other alias.now) entry.alias false) entries.now }
{
    entries.iter().any(|entry| is_called(entry, alias))
}

/// The alias before a column.
#[tactic(auto, using(crate::proofs::Absent::alias_missing))]
fn check_alias(alloc: Global, entries: &[Entry], of: &Option<Name>) -> Result<(), SetupError>
    ensures { Checks (option_map Unknown (first (unknown_alias entries.now of.now))) result }
{
    match of {
        Some(alias) => refuse_if(alloc, !has_alias(entries, alias), alias),
        None => Ok(()),
    }
}

fn check_column(
    alloc: Global,
    entries: &[Entry],
    of: &Option<Name>,
    name: &Name,
) -> Result<(), SetupError>
    ensures { Checks (option_map Unknown (first (unknown_column entries.now (record { of = of.now; name = name.now })))) result }
{
    check_alias(alloc, entries, of)?;
    refuse_if(alloc, !is_clear(entries, of, name), name)
}

#[tactic(auto, using(crate::proofs::Absent::unknown_not))]
fn check_expr(alloc: Global, entries: &[Entry], expr: &Expr) -> Result<(), SetupError>
    ensures { Checks (option_map Unknown (first (unknown_in entries.now expr.now))) result }
{
    match expr {
        Expr::Column { of, name } => check_column(alloc, entries, of, name),
        Expr::Two { left, right, .. } => {
            check_expr(alloc, entries, left.get())?;
            check_expr(alloc, entries, right.get())
        }
        Expr::Not(inner) => check_expr(alloc, entries, inner.get()),
        _ => Ok(()),
    }
}

// ---- queries

fn check_total(alloc: Global, entries: &[Entry], total: &Total) -> Result<(), SetupError>
    ensures { Checks (option_map Unknown (first (unknown_in_all entries.now (total_wholes total.now)))) result }
{
    match total {
        Total::Plain(expr) | Total::Sum(expr) => check_expr(alloc, entries, expr),
        Total::Count => Ok(()),
    }
}

fn check_items(alloc: Global, entries: &[Entry], items: &[ItemTree]) -> Result<(), SetupError>
    ensures { Checks (option_map Unknown (first (flat_map (λ item. unknown_in_all entries.now (total_wholes item.what)) items.now))) result }
{
    for item in items {
        check_total(alloc, entries, &item.what)?;
    }
    Ok(())
}

fn check_origin(alloc: Global, scope: &Scope, origin: &Origin) -> Result<(), SetupError>
    ensures { Checks (option_map Unknown (first (unknown_origin scope.now origin.now))) result }
{
    match origin {
        Origin::Table(name) => check_table(alloc, scope.tables(), name),
        Origin::Before(name) => {
            check_in_rule(alloc, scope, b"before")?;
            check_table(alloc, scope.tables(), name)
        }
        Origin::Inserted => check_in_rule(alloc, scope, b"inserted"),
        Origin::Deleted => check_in_rule(alloc, scope, b"deleted"),
        Origin::Old => check_in_rule(alloc, scope, b"old"),
        Origin::New => check_in_rule(alloc, scope, b"new"),
    }
}

fn check_entries(alloc: Global, scope: &Scope, entries: &[EntryTree]) -> Result<(), SetupError>
    ensures { Checks (option_map Unknown (first (flat_map (λ entry. unknown_origin scope.now entry.origin) entries.now))) result }
{
    for entry in entries {
        check_origin(alloc, scope, &entry.origin)?;
    }
    Ok(())
}

fn check_filter(alloc: Global, entries: &[Entry], filter: &Option<Expr>) -> Result<(), SetupError>
    ensures { Checks (option_map Unknown (first (unknown_in_all entries.now (filter_wholes filter.now)))) result }
{
    match filter {
        Some(expr) => check_expr(alloc, entries, expr),
        None => Ok(()),
    }
}

fn check_columns(alloc: Global, entries: &[Entry], columns: &[ColTree]) -> Result<(), SetupError>
    ensures { Checks (option_map Unknown (first (flat_map (unknown_column entries.now) columns.now))) result }
{
    for column in columns {
        check_column(alloc, entries, &column.of, &column.name)?;
    }
    Ok(())
}

fn check_groups(
    alloc: Global,
    entries: &[Entry],
    group: &Option<ColTreeList>,
) -> Result<(), SetupError>
    ensures { Checks (option_map Unknown (first (flat_map (unknown_column entries.now) (unwrap_or group.now [])))) result }
{
    match group {
        Some(columns) => check_columns(alloc, entries, columns.as_slice()),
        None => Ok(()),
    }
}

fn check_parts(
    alloc: Global,
    scope: &Scope,
    entries: &[Entry],
    query: &QueryTree,
) -> Result<(), SetupError>
    ensures { Checks (option_map Unknown (first (flat_map (λ item. unknown_in_all entries.now (total_wholes item.what)) query.now.items
        ++ (flat_map (λ entry. unknown_origin scope.now entry.origin) query.now.entries
        ++ (unknown_in_all entries.now (filter_wholes query.now.filter)
        ++ flat_map (unknown_column entries.now) (unwrap_or query.now.group [])))))) result }
{
    check_items(alloc, entries, query.items.as_slice())?;
    check_entries(alloc, scope, query.entries.as_slice())?;
    check_filter(alloc, entries, &query.filter)?;
    check_groups(alloc, entries, &query.group)
}

/// The first name of a query that isn't there: in its items, its entries, its filter or its groups.
#[tactic(auto, using(crate::proofs::Absent::unknown_items))]
fn unknown_in_query(alloc: Global, scope: &Scope, query: &QueryTree) -> Result<(), SetupError>
    ensures { Checks (option_map Unknown (first (unknown_in_query scope.now query.now))) result }
{
    let Ok(entries) = scope.entries_of(alloc, query) else {
        return Err(SetupError::Memory);
    };
    check_parts(alloc, scope, entries.as_slice(), query)
}

// ---- statements

fn has_column(columns: &[ColumnDef], name: &Name) -> bool
    ensures { result ≡ list_any (λ column. bytes_eq column.name name.now) columns.now }
{
    columns.iter().any(|column| is_same(&column.name, name))
}

#[tactic(auto, using(crate::proofs::Absent::column_missing))]
fn check_name(alloc: Global, columns: &[ColumnDef], name: &Name) -> Result<(), SetupError>
    ensures { Checks (option_map Unknown (first (missing (names_of columns.now) (name.now ∷ [])))) result }
{
    refuse_if(alloc, !has_column(columns, name), name)
}

/// The columns of a key or an event.
fn check_names(alloc: Global, columns: &[ColumnDef], names: &[Name]) -> Result<(), SetupError>
    ensures { Checks (option_map Unknown (first (missing (names_of columns.now) names.now))) result }
{
    for name in names {
        check_name(alloc, columns, name)?;
    }
    Ok(())
}

fn check_event(alloc: Global, columns: &[ColumnDef], event: &EventTree) -> Result<(), SetupError>
    ensures { Checks (option_map Unknown (first (unknown_in_event columns.now event.now))) result }
{
    match event {
        EventTree::Updated(names) => check_names(alloc, columns, names.as_slice()),
        _ => Ok(()),
    }
}

fn check_events(
    alloc: Global,
    columns: &[ColumnDef],
    events: &[EventTree],
) -> Result<(), SetupError>
    ensures { Checks (option_map Unknown (first (flat_map (unknown_in_event columns.now) events.now))) result }
{
    for event in events {
        check_event(alloc, columns, event)?;
    }
    Ok(())
}

fn check_set(
    alloc: Global,
    entries: &[Entry],
    columns: &[ColumnDef],
    set: &SetTree,
) -> Result<(), SetupError>
    ensures { Checks (option_map Unknown (first (unknown_in_set entries.now columns.now set.now))) result }
{
    check_name(alloc, columns, &set.column)?;
    check_expr(alloc, entries, &set.value)
}

fn check_sets(
    alloc: Global,
    entries: &[Entry],
    columns: &[ColumnDef],
    sets: &[SetTree],
) -> Result<(), SetupError>
    ensures { Checks (option_map Unknown (first (flat_map (unknown_in_set entries.now columns.now) sets.now))) result }
{
    for set in sets {
        check_set(alloc, entries, columns, set)?;
    }
    Ok(())
}

fn check_update(
    alloc: Global,
    tables: &[TableDef],
    table: &Name,
    sets: &[SetTree],
    filter: &Option<Expr>,
) -> Result<(), SetupError>
    ensures { Checks (option_map Unknown (first (unknown_table tables.now table.now
        ++ (flat_map (unknown_in_set (own_entry tables.now table.now) (columns_of (table_named tables.now table.now))) sets.now
        ++ unknown_in_all (own_entry tables.now table.now) (filter_wholes filter.now))))) result }
{
    check_table(alloc, tables, table)?;
    let Ok(entries) = own_entry(alloc, tables, table) else {
        return Err(SetupError::Memory);
    };
    let columns = columns_of(table_named(tables, table));
    check_sets(alloc, entries.as_slice(), columns, sets)?;
    check_filter(alloc, entries.as_slice(), filter)
}

fn check_delete(
    alloc: Global,
    tables: &[TableDef],
    table: &Name,
    filter: &Option<Expr>,
) -> Result<(), SetupError>
    ensures { Checks (option_map Unknown (first (unknown_table tables.now table.now ++ unknown_in_all (own_entry tables.now table.now) (filter_wholes filter.now)))) result }
{
    check_table(alloc, tables, table)?;
    let Ok(entries) = own_entry(alloc, tables, table) else {
        return Err(SetupError::Memory);
    };
    check_filter(alloc, entries.as_slice(), filter)
}

/// The first name in an act of what isn't there.
pub fn unknown_in_deed(alloc: Global, tables: &[TableDef], deed: &Deed) -> Result<(), SetupError>
    ensures { Checks (option_map Unknown (first (unknown_in_deed tables.now deed.now))) result }
{
    match deed {
        Deed::Insert { table, .. } | Deed::Put { table, .. } | Deed::Show { table } => {
            check_table(alloc, tables, table)
        }
        Deed::Update {
            table,
            sets,
            filter,
        } => check_update(alloc, tables, table, sets.as_slice(), filter),
        Deed::Delete { table, filter } => check_delete(alloc, tables, table, filter),
        Deed::Select { query } => unknown_in_query(alloc, &Scope::outside_rules(tables), query),
        _ => Ok(()),
    }
}

fn check_steps(alloc: Global, tables: &[TableDef], steps: &[StepTree]) -> Result<(), SetupError>
    ensures { Checks (option_map Unknown (first (flat_map (λ s. unknown_derived tables.now (kept_name s)) steps.now))) result }
{
    for step in steps {
        check_derived(alloc, tables, kept_name(step))?;
    }
    Ok(())
}

fn check_queries(alloc: Global, scope: &Scope, queries: &[BoundTree]) -> Result<(), SetupError>
    ensures { Checks (option_map Unknown (first (flat_map (λ bound. unknown_in_query scope.now bound.query) queries.now))) result }
{
    for bound in queries {
        unknown_in_query(alloc, scope, &bound.query)?;
    }
    Ok(())
}

/// Conditions, and then what is evaluated.
fn check_bodies(
    alloc: Global,
    scope: &Scope,
    conditions: &[BoundTree],
    evaluate: &[BoundTree],
) -> Result<(), SetupError>
    ensures { Checks (option_map Unknown (first (flat_map (λ bound. unknown_in_query scope.now bound.query) (conditions.now ++ evaluate.now)))) result }
{
    check_queries(alloc, scope, conditions)?;
    check_queries(alloc, scope, evaluate)
}

/// The same of a rule on the table.
fn check_rule_queries(
    alloc: Global,
    tables: &[TableDef],
    table: &Name,
    conditions: &[BoundTree],
    evaluate: &[BoundTree],
) -> Result<(), SetupError>
    ensures { Checks (option_map Unknown (first (flat_map (λ bound. unknown_in_query (in_rule tables.now table.now) bound.query) (conditions.now ++ evaluate.now)))) result }
{
    check_bodies(alloc, &Scope::in_rule(tables, table), conditions, evaluate)
}

/// What a rule names, but for its function.
fn check_rule(
    alloc: Global,
    tables: &[TableDef],
    table: &Name,
    events: &[EventTree],
    conditions: &[BoundTree],
    evaluate: &[BoundTree],
) -> Result<(), SetupError>
    ensures { Checks (option_map Unknown (first (unknown_table tables.now table.now
        ++ (flat_map (unknown_in_event (columns_of (table_named tables.now table.now))) events.now
        ++ flat_map (λ bound. unknown_in_query (in_rule tables.now table.now) bound.query) (conditions.now ++ evaluate.now))))) result }
{
    check_table(alloc, tables, table)?;
    check_events(alloc, columns_of(table_named(tables, table)), events)?;
    check_rule_queries(alloc, tables, table, conditions, evaluate)
}

fn check_function(alloc: Global, functions: &[Function], function: &Name) -> Result<(), SetupError>
    ensures { Checks (option_map Unknown (first (name_if (is_none (function_named functions.now function.now)) function.now))) result }
{
    refuse_if(
        alloc,
        function_named(functions, function).is_none(),
        function,
    )
}

/// The first name of the statement that isn't there.
pub fn unknown(alloc: Global, setup: &Setup<'_>, statement: &Statement) -> Result<(), SetupError>
    ensures { Checks (unknown setup.now statement.now) result }
{
    let tables = setup.defs();
    match statement {
        Statement::Table { columns, key, .. } => {
            check_names(alloc, columns.as_slice(), key.as_slice())
        }
        Statement::Stream { table, .. } => check_table(alloc, tables, table),
        Statement::Derive { query, .. } => {
            unknown_in_query(alloc, &Scope::outside_rules(tables), query)
        }
        Statement::Function { steps, .. } => check_steps(alloc, tables, steps.as_slice()),
        Statement::Rule {
            table,
            events,
            conditions,
            evaluate,
            function,
            ..
        } => {
            let (events, conditions) = (events.as_slice(), conditions.as_slice());
            check_rule(
                alloc,
                tables,
                table,
                events,
                conditions,
                evaluate.as_slice(),
            )?;
            check_function(alloc, setup.functions(), function)
        }
        Statement::Deed { deed, .. } => unknown_in_deed(alloc, tables, deed),
        _ => Ok(()),
    }
}
