//! Causes of refusals of which a look tells.
ghost use Rattle.std.specs.Prelude.{◌∷◌, [], ◌++◌, filter, flat_map, option_map};
ghost use Rattle.strip_setup.specs.declared.errors.SetupError.TheVariants.{ReadsDerived};
ghost use Rattle.strip_setup.specs.Catalog.{first, is_derived, table_named};
ghost use Rattle.strip_setup.specs.Checks.{Checks};
ghost use Rattle.strip_setup.specs.Parts.{names_read};
ghost use Rattle.strip_names.specs.Basics.{closed, no_key, reads_derived};

use std::alloc::Global;
use strip_ast::{BoundTree, QueryTree, Statement};
use strip_setup::SetupError;
use strip_setup::names::{is_derived, table_named};
use strip_setup::origins::origin_name;
use strip_setup::setup::Setup;
use strip_value::{Duplicate, Name, TableDef};

/// Setup is over, and the statement belongs to setup.
pub fn closed(setup: &Setup<'_>, statement: &Statement) -> Result<(), SetupError>
    ensures { Checks (closed setup.now statement.now) result }
{
    match statement {
        Statement::At { .. } | Statement::Deed { .. } => Ok(()),
        _ if setup.is_ready() => Err(SetupError::Closed),
        _ => Ok(()),
    }
}

/// A table without a key.
pub fn no_key(statement: &Statement) -> Result<(), SetupError>
    ensures { Checks (no_key statement.now) result }
{
    match statement {
        Statement::Table { key, .. } if key.is_empty() => Err(SetupError::NoKey),
        _ => Ok(()),
    }
}

fn check_base(alloc: Global, tables: &[TableDef], name: &Name) -> Result<(), SetupError>
    ensures { Checks (option_map ReadsDerived (first (filter (λ name. is_derived (table_named tables.now name)) (name.now ∷ [])))) result }
{
    if !is_derived(table_named(tables, name)) {
        return Ok(());
    }
    let Ok(name) = name.copy(alloc) else {
        return Err(SetupError::Memory);
    };
    Err(SetupError::ReadsDerived { name })
}

fn check_query(alloc: Global, tables: &[TableDef], query: &QueryTree) -> Result<(), SetupError>
    ensures { Checks (option_map ReadsDerived (first (filter (λ name. is_derived (table_named tables.now name)) (names_read query.now)))) result }
{
    for entry in query.entries.as_slice() {
        if let Some(name) = origin_name(&entry.origin) {
            check_base(alloc, tables, name)?;
        }
    }
    Ok(())
}

fn check_queries(
    alloc: Global,
    tables: &[TableDef],
    queries: &[BoundTree],
) -> Result<(), SetupError>
    ensures { Checks (option_map ReadsDerived (first (flat_map (λ bound. filter (λ name. is_derived (table_named tables.now name)) (names_read bound.query)) queries.now))) result }
{
    for bound in queries {
        check_query(alloc, tables, &bound.query)?;
    }
    Ok(())
}

fn check_rule(
    alloc: Global,
    tables: &[TableDef],
    table: &Name,
    conditions: &[BoundTree],
    evaluate: &[BoundTree],
) -> Result<(), SetupError>
    ensures { Checks (option_map ReadsDerived (first (filter (λ name. is_derived (table_named tables.now name)) (table.now ∷ flat_map (λ bound. names_read bound.query) (conditions.now ++ evaluate.now))))) result }
{
    check_base(alloc, tables, table)?;
    check_queries(alloc, tables, conditions)?;
    check_queries(alloc, tables, evaluate)
}

/// The first derived table that is named where only base tables may stand.
pub fn reads_derived(
    alloc: Global,
    setup: &Setup<'_>,
    statement: &Statement,
) -> Result<(), SetupError>
    ensures { Checks (reads_derived setup.now statement.now) result }
{
    let tables = setup.defs();
    match statement {
        Statement::Stream { table, .. } => check_base(alloc, tables, table),
        Statement::Derive { query, .. } => check_query(alloc, tables, query),
        Statement::Rule {
            table,
            conditions,
            evaluate,
            ..
        } => check_rule(
            alloc,
            tables,
            table,
            conditions.as_slice(),
            evaluate.as_slice(),
        ),
        _ => Ok(()),
    }
}
