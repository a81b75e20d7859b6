//! What there is too much of.
ghost use Rattle.std.specs.Prelude.{◌≡◌, ◌++◌, flat_map};
ghost use Rattle.std.specs.List.{enumerate_from};
ghost use Rattle.strip_setup.specs.declared.errors.LimitKind.TheVariants.{Delay};
ghost use Rattle.strip_setup.specs.Catalog.{first};
ghost use Rattle.strip_setup.specs.Checks.{Checks};
ghost use Rattle.strip_names.specs.Limits.{limit, limit_of_rows, limits_in_bound, limits_in_deed, limits_in_query, more_than, most_delay, most_entries, one_more_than};

use strip_ast::{BoundTree, Deed, QueryTree, Statement};
use strip_setup::setup::Setup;
use strip_setup::{LimitKind, SetupError};

const MOST_TABLES: usize = 64;

const MOST_STREAMS: usize = 64;

const MOST_FUNCTIONS: usize = 64;

const MOST_RULES: usize = 128;

const MOST_COLUMNS: usize = 16;

const MOST_STEPS: usize = 4;

const MOST_QUERIES: usize = 8;

const MOST_ROWS: u64 = 1_048_576;

const MOST_DELAY: u64 = 4_294_967_295;

fn more_than(most: usize, what: LimitKind, number: usize) -> Result<(), SetupError>
    ensures { Checks (first (more_than most what number)) result }
{
    if number > most {
        return Err(SetupError::Limit {
            what,
            at: most as u64,
        });
    }
    Ok(())
}

/// There is no room for one more.
fn one_more_than(most: usize, what: LimitKind, number: usize) -> Result<(), SetupError>
    ensures { Checks (first (one_more_than most what number)) result }
{
    if number >= most {
        return Err(SetupError::Limit {
            what,
            at: most as u64,
        });
    }
    Ok(())
}

fn check_delay(after: u128) -> Result<(), SetupError>
    ensures { Checks (first (more_than most_delay Delay after)) result }
{
    if after > u128::from(MOST_DELAY) {
        return Err(SetupError::Limit {
            what: LimitKind::Delay,
            at: MOST_DELAY,
        });
    }
    Ok(())
}

/// A limit of rows is 1 at least, and not above the most that there can be.
fn check_rows(limit: Option<u128>) -> Result<(), SetupError>
    ensures { Checks (first (limit_of_rows limit)) result }
{
    match limit {
        Some(rows) if rows < 1 || rows > u128::from(MOST_ROWS) => Err(SetupError::Limit {
            what: LimitKind::Rows,
            at: MOST_ROWS,
        }),
        _ => Ok(()),
    }
}

fn most_entries(query: &QueryTree) -> usize
    ensures { result ≡ most_entries query.now.group }
{
    match &query.group {
        Some(_) => 1,
        None => 3,
    }
}

fn check_query(query: &QueryTree) -> Result<(), SetupError>
    ensures { Checks (first (limits_in_query query.now)) result }
{
    more_than(MOST_COLUMNS, LimitKind::Columns, query.items.len())?;
    more_than(most_entries(query), LimitKind::Entries, query.entries.len())
}

/// The query of this number of a rule, counted from 1.
fn check_bound(number: usize, bound: &BoundTree) -> Result<(), SetupError>
    ensures { Checks (first (limits_in_bound (number, bound.now))) result }
{
    more_than(MOST_QUERIES, LimitKind::Queries, number)?;
    check_query(&bound.query)
}

fn check_queries(conditions: &[BoundTree], evaluate: &[BoundTree]) -> Result<(), SetupError>
    ensures { Checks (first (flat_map limits_in_bound (enumerate_from 1 (conditions.now ++ evaluate.now)))) result }
{
    for (i, bound) in conditions.iter().enumerate() {
        check_bound(i + 1, bound)?;
    }
    for (j, bound) in evaluate.iter().enumerate() {
        check_bound(conditions.len() + j + 1, bound)?;
    }
    Ok(())
}

/// The first limit that an act passes.
pub fn limits_in_deed(deed: &Deed) -> Result<(), SetupError>
    ensures { Checks (first (limits_in_deed deed.now)) result }
{
    match deed {
        Deed::Select { query } => check_query(query),
        _ => Ok(()),
    }
}

/// The first limit that the statement passes.
pub fn limit(setup: &Setup<'_>, statement: &Statement) -> Result<(), SetupError>
    ensures { Checks (limit setup.now statement.now) result }
{
    match statement {
        Statement::Table { columns, limit, .. } => {
            one_more_than(MOST_TABLES, LimitKind::Tables, setup.defs().len())?;
            more_than(MOST_COLUMNS, LimitKind::Columns, columns.len())?;
            check_rows(*limit)
        }
        Statement::Stream { .. } => {
            one_more_than(MOST_STREAMS, LimitKind::Streams, setup.streams().len())
        }
        Statement::Derive { query, .. } => {
            one_more_than(MOST_TABLES, LimitKind::Tables, setup.defs().len())?;
            check_query(query)
        }
        Statement::Function { steps, .. } => {
            one_more_than(
                MOST_FUNCTIONS,
                LimitKind::Functions,
                setup.functions().len(),
            )?;
            more_than(MOST_STEPS, LimitKind::Steps, steps.len())
        }
        Statement::Rule {
            conditions,
            evaluate,
            manner,
            ..
        } => {
            one_more_than(MOST_RULES, LimitKind::Rules, setup.rules().len())?;
            check_queries(conditions.as_slice(), evaluate.as_slice())?;
            check_delay(manner.after)
        }
        Statement::Deed { deed, .. } => limits_in_deed(deed),
        _ => Ok(()),
    }
}
