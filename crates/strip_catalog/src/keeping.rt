//! Derived tables that are to be kept: why that is refused, what is made of those that can be kept so far, and what it adds.
ghost use Rattle.std.specs.Prelude.{◌≡◌, ◌<◌, ◌≤◌, ◌∷◌, ◌++◌, IfOk, None, Some, [], get_or, is_some, length, option_map, true, unwrap_or};
ghost use Rattle.std.specs.List.{list_any};
ghost use Rattle.std.specs.Option.{IfSome};
ghost use Rattle.std.specs.Str.{bytes_eq};
ghost use Rattle.strip_setup.specs.declared.errors.SetupError.TheVariants.{Exists, NoCount, NotBound};
ghost use Rattle.strip_meaning.specs.Contents.{def_at};
ghost use Rattle.strip_setup.specs.Catalog.{first, function_named, name_if, refused_if, repeated, rule_named};
ghost use Rattle.strip_setup.specs.Checks.{Checks};
ghost use Rattle.strip_names.specs.Unknown.{missing, names_of};
ghost use Rattle.strip_catalog.specs.Calls.{AddsKept};
ghost use Rattle.strip_value.specs.declared.tables.By.TheVariants as by;
ghost use Rattle.strip_catalog.specs.First.{at_once, first_made, has_first_form, is_first, is_taken, sums_column};
ghost use Rattle.strip_catalog.specs.Laws.{IsSmall, NamesItsNumbers};
ghost use Rattle.strip_catalog.specs.Made.{IsMade, generated, how_of, statement_of};
ghost use Rattle.strip_catalog.specs.Refusals.{columns_made, is_count, lacks_count, limits_of_maintain, refusal, taken_by_maintain};

use crate::additions::Addition;
use crate::made::Made;
use crate::sums::{keep_function, keep_rule};
use std::alloc::{AllocError, Global};
use strip_names::exists::check_repeated;
use strip_names::grouped::is_group_column;
use strip_setup::names::{function_named, is_same, rule_named, table_number};
use strip_setup::setup::Setup;
use strip_setup::{LimitKind, SetupError};
use strip_value::{
    By, Calc, ColumnDef, Duplicate, Function, FunctionList, Id, Name, Query, Step, TableDef,
    TableDefList, Test, What,
};

/// The most functions.
const FUNCTIONS: u64 = 64;

/// The most rules.
const RULES: u64 = 128;

/// The longest name of a text.
const LONGEST: usize = 32;

// ---- tables that can be kept

fn is_count(what: &What) -> bool
    ensures { result ≡ is_count what.now }
{
    match what {
        What::Count => true,
        _ => false,
    }
}

/// Whether it is the sum of a column.
fn sums_column(what: &What) -> bool
    ensures { result ≡ sums_column what.now }
{
    match what {
        What::Sum(Calc::Column { .. }) => true,
        _ => false,
    }
}

/// Whether the query has the first form: a group column, a sum of a column and a count, over all rows.
fn is_first(query: &Query) -> bool
    ensures { result ≡ is_first query.now }
{
    let (Test::True, Some(places)) = (&query.filter, &query.group) else {
        return false;
    };
    match (places.as_slice(), query.items.as_slice()) {
        ([place], [group, sum, count]) => {
            is_group_column(&group.what, place) && sums_column(&sum.what) && is_count(&count.what)
        }
        _ => false,
    }
}

/// Whether the table is derived, has the first form and a name of a text, and no step keeps it.
fn has_first_form(table: &TableDef) -> bool
    ensures { result ≡ has_first_form table.now }
{
    match &table.query {
        Some(query) => {
            is_first(query) && table.kept.is_none() && table.name.bytes().len() <= LONGEST
        }
        None => false,
    }
}

/// Whether the name of the function or that of the rule is taken.
fn is_taken(setup: &Setup<'_>, made: &Made) -> bool
    ensures { result ≡ is_taken setup.now made.now }
{
    function_named(setup.functions(), &made.function.name).is_some()
        || rule_named(setup.rules(), &made.rule.name).is_some()
}

/// What keeps a table by sums, at once.
fn made_by_sums(
    alloc: Global,
    setup: &Setup<'_>,
    table: &TableDef,
    query: &Query,
    id: Id,
) -> Result<Made, AllocError>
    requires small { IsSmall setup.now }
    requires short { length table.now.name ≤ 32 }
    requires query { table.now.query ≡ Some query.now }
    requires at { def_at setup.now.tables id ≡ table.now }
    ensures { IfOk result (λ made. made ≡ generated setup.now by.Sum at_once id) }
{
    let function = keep_function(alloc, table, id)?;
    let number = setup.functions().len() as u32;
    let rule = keep_rule(alloc, table, query, number)?;
    Ok(Made {
        function,
        rule,
        table: id,
    })
}

/// What keeps the table of a name by sums, if it is there and can be kept so far.
pub(crate) fn first_made(
    alloc: Global,
    setup: &Setup<'_>,
    name: &Name,
) -> Result<Option<Made>, AllocError>
    requires small { IsSmall setup.now }
    ensures exact { IfOk result (λ made. made ≡ first_made setup.now name.now) }
    ensures made { IfOk result (λ made. IfSome made (IsMade setup.now)) }
{
    let Some(number) = table_number(setup.defs(), name) else {
        return Ok(None);
    };
    let table = &setup.defs()[number];
    let Some(query) = &table.query else {
        return Ok(None);
    };
    if !has_first_form(table) {
        return Ok(None);
    }
    let made = made_by_sums(alloc, setup, table, query, Id(number as u32))?;
    if is_taken(setup, &made) {
        return Ok(None);
    }
    Ok(Some(made))
}

// ---- refusals

fn exists(alloc: Global, name: &Name) -> Result<(), SetupError>
    ensures { Checks (Some (Exists name.now)) result }
{
    match name.copy(alloc) {
        Ok(name) => Err(SetupError::Exists { name }),
        Err(_) => Err(SetupError::Memory),
    }
}

/// The columns of `unique on`; none where actions aren't told apart.
fn unique_names(made: &Made) -> &[Name]
    ensures { result.now ≡ unwrap_or made.now.rule.unique [] }
{
    match &made.rule.unique {
        Some(names) => names.as_slice(),
        None => &[],
    }
}

/// The first name that is taken.
fn check_taken(
    alloc: Global,
    setup: &Setup<'_>,
    table: &TableDef,
    made: &Made,
) -> Result<(), SetupError>
    ensures { Checks (option_map Exists (first (name_if (is_some (function_named setup.now.functions made.now.function.name)) made.now.function.name ++ (name_if (is_some (rule_named setup.now.rules made.now.rule.name)) made.now.rule.name ++ (name_if (is_some table.now.kept) table.now.name ++ repeated (unwrap_or made.now.rule.unique [])))))) result }
{
    if function_named(setup.functions(), &made.function.name).is_some() {
        return exists(alloc, &made.function.name);
    }
    if rule_named(setup.rules(), &made.rule.name).is_some() {
        return exists(alloc, &made.rule.name);
    }
    if table.kept.is_some() {
        return exists(alloc, &table.name);
    }
    check_repeated(alloc, unique_names(made))
}

/// One function and one rule more; no delay that a rule can have is too long.
fn check_limits(setup: &Setup<'_>, made: &Made) -> Result<(), SetupError>
    ensures { Checks (first (limits_of_maintain setup.now made.now.rule.after)) result }
{
    if setup.functions().len() as u64 >= FUNCTIONS {
        return Err(SetupError::Limit {
            what: LimitKind::Functions,
            at: FUNCTIONS,
        });
    }
    if setup.rules().len() as u64 >= RULES {
        return Err(SetupError::Limit {
            what: LimitKind::Rules,
            at: RULES,
        });
    }
    let _after = made.rule.after;
    Ok(())
}

/// Whether an item of the query is a count.
fn has_count(query: &Query) -> bool
    ensures { result ≡ list_any (λ item. is_count item.what) query.now.items }
{
    query
        .items
        .as_slice()
        .iter()
        .any(|item| is_count(&item.what))
}

/// A table that is kept by sums has a count.
fn check_count(table: &TableDef, made: &Made) -> Result<(), SetupError>
    requires { is_some table.now.query ≡ true }
    ensures { Checks (refused_if (lacks_count (how_of made.now.function) (Some table.now)) NoCount) result }
{
    let (By::Sum, Some(query)) = (how_of(&made.function), &table.query) else {
        return Ok(());
    };
    if has_count(query) {
        return Ok(());
    }
    Err(SetupError::NoCount)
}

/// The columns that the rule binds.
fn columns_bound(made: &Made) -> &[ColumnDef]
    ensures { result.now ≡ (get_or made.now.function.bound 0 (record { name = []; columns = [] })).columns }
{
    match made.function.bound.as_slice().first() {
        Some(bound) => bound.columns.as_slice(),
        None => &[],
    }
}

fn has_column(columns: &[ColumnDef], name: &Name) -> bool
    ensures { result ≡ list_any (λ column. bytes_eq column.name name.now) columns.now }
{
    columns.iter().any(|column| is_same(&column.name, name))
}

/// A column of this name is among them.
#[tactic(auto, using(strip_names::proofs::Absent::column_missing))]
fn check_column(alloc: Global, columns: &[ColumnDef], name: &Name) -> Result<(), SetupError>
    ensures { Checks (option_map NotBound (first (missing (names_of columns.now) (name.now ∷ [])))) result }
{
    if has_column(columns, name) {
        return Ok(());
    }
    match name.copy(alloc) {
        Ok(column) => Err(SetupError::NotBound { column }),
        Err(_) => Err(SetupError::Memory),
    }
}

/// The first of the names that no column has.
fn check_columns(alloc: Global, columns: &[ColumnDef], names: &[Name]) -> Result<(), SetupError>
    ensures { Checks (option_map NotBound (first (missing (names_of columns.now) names.now))) result }
{
    for name in names {
        check_column(alloc, columns, name)?;
    }
    Ok(())
}

/// The table of a number.
fn table_at<'a>(setup: &Setup<'a>, id: Id) -> &'a TableDef
    requires { id < length setup.now.tables }
    ensures { result.now ≡ def_at setup.now.tables id }
{
    &setup.defs()[id.0 as usize]
}

/// Why what is made of a table that is to be kept is refused.
pub(crate) fn refuse_made(alloc: Global, setup: &Setup<'_>, made: &Made) -> Result<(), SetupError>
    requires made { IsMade setup.now made.now }
    requires numbers { NamesItsNumbers setup.now }
    ensures { Checks (refusal setup.now (statement_of setup.now made.now)) result }
{
    if setup.is_ready() {
        return Err(SetupError::Closed);
    }
    let table = table_at(setup, made.table);
    check_taken(alloc, setup, table, made)?;
    check_limits(setup, made)?;
    check_count(table, made)?;
    check_columns(alloc, columns_bound(made), unique_names(made))
}

// ---- what is added

/// How the function keeps its table.
fn how_of(function: &Function) -> By
    ensures { result ≡ how_of function.now }
{
    match function.steps.as_slice().first() {
        Some(Step::Redo { .. }) => By::Key,
        _ => By::Sum,
    }
}

fn declare_kept(table: &mut TableDef, how: By)
    ensures { table.new ≡ record table.old { kept = Some how; declared = true } }
{
    table.kept = Some(how);
    table.declared = true;
}

/// What is added for a table that is to be kept.
pub(crate) fn kept_addition(
    alloc: Global,
    tables: &TableDefList,
    functions: &FunctionList,
    made: Made,
) -> Result<Addition, AllocError>
    requires { made.table < length tables.now }
    ensures { IfOk result (AddsKept tables.now functions.now made) }
{
    let how = how_of(&made.function);
    let mut kept = tables.copy(alloc)?.into_vec();
    declare_kept(&mut kept[made.table.0 as usize], how);
    let mut with = functions.copy(alloc)?;
    with.push(made.function)?;
    Ok(Addition::Kept {
        tables: TableDefList::from_vec(kept),
        functions: with,
        rule: made.rule,
    })
}
