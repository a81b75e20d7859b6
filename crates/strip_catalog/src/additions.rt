//! What a statement adds to a catalog.
ghost use Rattle.std.specs.Prelude.{◌≡◌, IfOk, None};
ghost use Rattle.strip_ast.specs.declared.statements.Statement.TheVariants as st;
ghost use Rattle.strip_catalog.specs.Laws.{IsSmall};
ghost use Rattle.strip_catalog.specs.Calls.{IsAdded, IsDeclaration};
ghost use Rattle.strip_catalog.specs.Refusals.{refusal};

use std::alloc::{AllocError, Global};
use strip_ast::{BoundTree, EventTree, Manner, QueryTree, Statement, StepTree};
use strip_setup::declares::{derived_of, functions_with_rule, kept_by_steps, rule_of};
use strip_setup::functions::function_of;
use strip_setup::setup::Setup;
use strip_setup::tables::{stream_of, table_of};
use strip_value::{ColumnDef, Function, FunctionList, Name, Rule, Stream, TableDef, TableDefList};

/// What a statement adds to a catalog.
#[derive(Debug, Drop)]
pub(crate) enum Addition {
    Table(TableDef),
    Stream(Stream),
    /// A function, and the tables, of which it keeps some.
    Function {
        tables: TableDefList,
        function: Function,
    },
    /// A rule, and the functions, of which it binds tables of one.
    Rule {
        functions: FunctionList,
        rule: Rule,
    },
    /// A rule, and the functions with the one that it is for, and the tables, of which it keeps one from then on.
    Kept {
        tables: TableDefList,
        functions: FunctionList,
        rule: Rule,
    },
}

/// What a statement of a base table adds that isn't refused.
fn table_added(
    alloc: Global,
    setup: &Setup<'_>,
    name: &Name,
    columns: &[ColumnDef],
    key: &[Name],
    limit: Option<u128>,
) -> Result<Addition, AllocError>
    requires accepted { refusal setup.now (st.Table name.now columns.now key.now limit) ≡ None }
    ensures { IfOk result (λ made. IsAdded setup.now (st.Table name.now columns.now key.now limit) made) }
{
    let table = table_of(alloc, name, columns, key, limit)?;
    Ok(Addition::Table(table))
}

/// What a statement of a stream adds.
fn stream_added(
    alloc: Global,
    setup: &Setup<'_>,
    name: &Name,
    table: &Name,
    marked: bool,
) -> Result<Addition, AllocError>
    requires small { IsSmall setup.now }
    ensures { IfOk result (λ made. IsAdded setup.now (st.Stream name.now table.now marked) made) }
{
    let stream = stream_of(alloc, setup.defs(), name, table, marked)?;
    Ok(Addition::Stream(stream))
}

/// What a statement of a derived table adds that isn't refused.
fn derived_added(
    alloc: Global,
    setup: &Setup<'_>,
    name: &Name,
    query: &QueryTree,
) -> Result<Addition, AllocError>
    requires small { IsSmall setup.now }
    requires accepted { refusal setup.now (st.Derive name.now query.now) ≡ None }
    ensures { IfOk result (λ made. IsAdded setup.now (st.Derive name.now query.now) made) }
{
    let table = derived_of(alloc, setup.defs(), name, query)?;
    Ok(Addition::Table(table))
}

/// What a statement of a function adds that isn't refused.
fn function_added(
    alloc: Global,
    setup: &Setup<'_>,
    name: &Name,
    steps: &[StepTree],
) -> Result<Addition, AllocError>
    requires small { IsSmall setup.now }
    requires accepted { refusal setup.now (st.Function name.now steps.now) ≡ None }
    ensures { IfOk result (λ made. IsAdded setup.now (st.Function name.now steps.now) made) }
{
    let tables = setup.defs();
    let function = function_of(alloc, tables, name, steps)?;
    let kept = kept_by_steps(alloc, tables, steps)?;
    Ok(Addition::Function {
        tables: kept,
        function,
    })
}

/// What a statement of a rule adds that isn't refused.
fn rule_added(
    alloc: Global,
    setup: &Setup<'_>,
    name: &Name,
    table: &Name,
    events: &[EventTree],
    conditions: &[BoundTree],
    evaluate: &[BoundTree],
    function: &Name,
    manner: &Manner,
) -> Result<Addition, AllocError>
    requires small { IsSmall setup.now }
    requires accepted { refusal setup.now (st.Rule name.now table.now events.now conditions.now evaluate.now function.now manner.now) ≡ None }
    ensures { IfOk result (λ made. IsAdded setup.now (st.Rule name.now table.now events.now conditions.now evaluate.now function.now manner.now) made) }
{
    let tables = setup.defs();
    let functions = setup.functions();
    let rule = rule_of(
        alloc, tables, functions, name, table, events, conditions, evaluate, function, manner,
    )?;
    let bound = functions_with_rule(
        alloc, tables, functions, function, table, conditions, evaluate,
    )?;
    Ok(Addition::Rule {
        functions: bound,
        rule,
    })
}

/// What a statement adds that isn't refused.
pub(crate) fn addition_of(
    alloc: Global,
    setup: &Setup<'_>,
    statement: &Statement,
) -> Result<Addition, AllocError>
    requires declaration { IsDeclaration statement.now }
    requires small { IsSmall setup.now }
    requires accepted { refusal setup.now statement.now ≡ None }
    ensures { IfOk result (λ made. IsAdded setup.now statement.now made) }
{
    match statement {
        Statement::Table {
            name,
            columns,
            key,
            limit,
        } => {
            let columns = columns.as_slice();
            table_added(alloc, setup, name, columns, key.as_slice(), *limit)
        }
        Statement::Stream {
            name,
            table,
            marked,
        } => stream_added(alloc, setup, name, table, *marked),
        Statement::Derive { name, query } => derived_added(alloc, setup, name, query),
        Statement::Function { name, steps } => function_added(alloc, setup, name, steps.as_slice()),
        Statement::Rule {
            name,
            table,
            events,
            conditions,
            evaluate,
            function,
            manner,
        } => rule_added(
            alloc,
            setup,
            name,
            table,
            events.as_slice(),
            conditions.as_slice(),
            evaluate.as_slice(),
            function,
            manner,
        ),
        _ => unreachable!(),
    }
}
