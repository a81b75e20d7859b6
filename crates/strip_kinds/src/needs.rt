//! What the steps of a function need of its bound tables, and what queries bind there.
ghost use Rattle.std.specs.Prelude.{◌≡◌, ◌++◌, ◌==◌, IfOk, OnOk, filter, filter_map, flat_map, map, not, option_copied, slice_get};
ghost use Rattle.std.specs.List.{enumerate_from, list_any};
ghost use Rattle.strip_value.specs.declared.tables.ColumnDef.{ColumnDef};
ghost use Rattle.strip_kinds.specs.declared.needs.Need.{Need};
ghost use Rattle.strip_kinds.specs.Needs.{answer_named, bindings_named, bound_name_at, bound_of_step, fits_of, is_key, key_columns, key_needs, step_fits, step_needs, total_columns, total_needs};

use std::alloc::{AllocError, Global};
use strip_setup::answers::{Answer, Binding};
use strip_setup::names::is_same;
use strip_value::{
    BoundDef, ColumnDef, ColumnDefList, Duplicate, Function, Id, Items, Name, Step, TableDef,
};

/// A column that a step needs: one named like a key column of the table that it keeps, or like a total, which is added.
#[derive(Debug, Drop)]
pub struct Need {
    pub column: ColumnDef,
    pub is_added: bool,
}

pub type NeedList = Items<Need>;

/// A needed column, and what one query that binds the step's table has for it.
#[derive(Debug, Drop)]
pub struct Fit {
    pub need: Need,
    pub given: Option<Answer>,
}

pub type FitList = Items<Fit>;

impl Duplicate for Need {
    fn copy(&self, alloc: Global) -> Result<Need, AllocError> {
        let column = self.column.copy(alloc)?;
        Ok(Need {
            column,
            is_added: self.is_added,
        })
    }
}

fn column_at(columns: &[ColumnDef], number: u32) -> Option<&ColumnDef>
    ensures { option_copied result ≡ slice_get columns.now number }
{
    columns.get(number as usize)
}

/// The columns of these numbers that are there.
fn columns_at(
    alloc: Global,
    columns: &[ColumnDef],
    numbers: &[u32],
) -> Result<ColumnDefList, AllocError>
    ensures { IfOk result (λ made. made ≡ filter_map (slice_get columns.now) numbers.now) }
{
    let mut found = ColumnDefList::new(alloc);
    for number in numbers {
        if let Some(column) = column_at(columns, *number) {
            found.push(column.copy(alloc)?)?;
        }
    }
    Ok(found)
}

/// The key columns, in the key's order.
fn key_columns(alloc: Global, table: &TableDef) -> Result<ColumnDefList, AllocError>
    ensures { IfOk result (λ made. made ≡ key_columns table.now) }
{
    columns_at(alloc, table.columns.as_slice(), table.key.as_slice())
}

fn is_key(key: &[u32], number: usize) -> bool
    ensures { result ≡ list_any (λ k. k == number) key.now }
{
    key.iter().any(|k| *k as usize == number)
}

fn columns_outside(
    alloc: Global,
    columns: &[ColumnDef],
    key: &[u32],
) -> Result<ColumnDefList, AllocError>
    ensures { IfOk result (λ made. made ≡ map (λ numbered. numbered.1) (filter (λ numbered. not (is_key key.now numbered)) (enumerate_from 0 columns.now))) }
{
    let mut found = ColumnDefList::new(alloc);
    for (number, column) in columns.iter().enumerate() {
        if !is_key(key, number) {
            found.push(column.copy(alloc)?)?;
        }
    }
    Ok(found)
}

/// The columns that aren't in the key.
fn total_columns(alloc: Global, table: &TableDef) -> Result<ColumnDefList, AllocError>
    ensures { IfOk result (λ made. made ≡ total_columns table.now) }
{
    columns_outside(alloc, table.columns.as_slice(), table.key.as_slice())
}

fn push_needs(
    alloc: Global,
    needs: &mut NeedList,
    columns: &[ColumnDef],
    is_added: bool,
) -> Result<(), AllocError>
    ensures { OnOk result (needs.new ≡ needs.old ++ map (λ column. record { column = column; is_added = is_added }) columns.now) }
{
    for column in columns {
        let column = column.copy(alloc)?;
        needs.push(Need { column, is_added })?;
    }
    Ok(())
}

fn push_key_needs(
    alloc: Global,
    needs: &mut NeedList,
    table: Option<&TableDef>,
) -> Result<(), AllocError>
    ensures { OnOk result (needs.new ≡ needs.old ++ key_needs (option_copied table.entry)) }
{
    match table {
        None => Ok(()),
        Some(table) => {
            let columns = key_columns(alloc, table)?;
            push_needs(alloc, needs, columns.as_slice(), false)
        }
    }
}

fn push_total_needs(
    alloc: Global,
    needs: &mut NeedList,
    table: Option<&TableDef>,
) -> Result<(), AllocError>
    ensures { OnOk result (needs.new ≡ needs.old ++ total_needs (option_copied table.entry)) }
{
    match table {
        None => Ok(()),
        Some(table) => {
            let columns = total_columns(alloc, table)?;
            push_needs(alloc, needs, columns.as_slice(), true)
        }
    }
}

fn table_at(tables: &[TableDef], number: Id) -> Option<&TableDef>
    ensures { option_copied result ≡ slice_get tables.now number }
{
    tables.get(number.0 as usize)
}

/// The columns that a step needs: those of the key, and to add those of the totals.
fn step_needs(alloc: Global, tables: &[TableDef], step: &Step) -> Result<NeedList, AllocError>
    ensures { IfOk result (λ made. made ≡ step_needs tables.now step.now) }
{
    let mut needs = NeedList::new(alloc);
    match step {
        Step::Add { into, .. } => {
            let table = table_at(tables, *into);
            push_key_needs(alloc, &mut needs, table)?;
            push_total_needs(alloc, &mut needs, table)?;
            Ok(needs)
        }
        Step::Redo { table, .. } => {
            push_key_needs(alloc, &mut needs, table_at(tables, *table))?;
            Ok(needs)
        }
    }
}

/// The number of the bound table that a step uses.
pub fn bound_of_step(step: &Step) -> u32
    ensures { result ≡ bound_of_step step.now }
{
    match step {
        Step::Add { bound, .. } => *bound,
        Step::Redo { by, .. } => *by,
    }
}

/// The bytes of a bound table's name; none, where it isn't there.
pub fn bound_name_at(bound: &[BoundDef], number: u32) -> &[u8]
    ensures { result.now ≡ bound_name_at bound.now number }
{
    match bound.get(number as usize) {
        Some(def) => def.name.bytes(),
        None => &[],
    }
}

/// The column that a query binds under a name.
pub fn answer_named<'a>(binding: &'a Binding, name: &Name) -> Option<&'a Answer>
    ensures { option_copied result ≡ answer_named binding.now name.now }
{
    binding
        .columns
        .as_slice()
        .iter()
        .find(|answer| is_same(&answer.name, name))
}

fn fit_of(alloc: Global, need: &Need, binding: &Binding) -> Result<Fit, AllocError>
    ensures { IfOk result (λ made. made ≡ record { need = need.now; given = answer_named binding.now need.now.column.name }) }
{
    let need = need.copy(alloc)?;
    match answer_named(binding, &need.column.name) {
        Some(answer) => {
            let answer = answer.copy(alloc)?;
            Ok(Fit {
                need,
                given: Some(answer),
            })
        }
        None => Ok(Fit { need, given: None }),
    }
}

/// A needed column, with each query that binds this name.
fn push_need_fits(
    alloc: Global,
    fits: &mut FitList,
    bindings: &[Binding],
    name: &[u8],
    need: &Need,
) -> Result<(), AllocError>
    ensures { OnOk result (fits.new ≡ fits.old ++ map (λ binding. record { need = need.now; given = answer_named binding need.now.column.name }) (bindings_named bindings.now name.now)) }
{
    for binding in bindings {
        if binding.name.bytes() == name {
            let fit = fit_of(alloc, need, binding)?;
            fits.push(fit)?;
        }
    }
    Ok(())
}

/// Each of these needed columns, with each query that binds this name.
fn push_fits(
    alloc: Global,
    fits: &mut FitList,
    bindings: &[Binding],
    name: &[u8],
    needs: &[Need],
) -> Result<(), AllocError>
    ensures { OnOk result (fits.new ≡ fits.old ++ flat_map (λ (need : Need). map (λ binding. record { need = need; given = answer_named binding need.column.name }) (bindings_named bindings.now name.now)) needs.now) }
{
    for need in needs {
        push_need_fits(alloc, fits, bindings, name, need)?;
    }
    Ok(())
}

fn push_step_fits(
    alloc: Global,
    fits: &mut FitList,
    tables: &[TableDef],
    bound: &[BoundDef],
    bindings: &[Binding],
    step: &Step,
) -> Result<(), AllocError>
    ensures { OnOk result (fits.new ≡ fits.old ++ step_fits tables.now bound.now bindings.now step.now) }
{
    let needs = step_needs(alloc, tables, step)?;
    let name = bound_name_at(bound, bound_of_step(step));
    push_fits(alloc, fits, bindings, name, needs.as_slice())
}

/// Each column that a step needs, with each query that binds its table.
pub fn step_fits(
    alloc: Global,
    tables: &[TableDef],
    bound: &[BoundDef],
    bindings: &[Binding],
    step: &Step,
) -> Result<FitList, AllocError>
    ensures { IfOk result (λ made. made ≡ step_fits tables.now bound.now bindings.now step.now) }
{
    let mut fits = FitList::new(alloc);
    push_step_fits(alloc, &mut fits, tables, bound, bindings, step)?;
    Ok(fits)
}

fn fits_of_steps(
    alloc: Global,
    tables: &[TableDef],
    bound: &[BoundDef],
    bindings: &[Binding],
    steps: &[Step],
) -> Result<FitList, AllocError>
    ensures { IfOk result (λ made. made ≡ flat_map (step_fits tables.now bound.now bindings.now) steps.now) }
{
    let mut fits = FitList::new(alloc);
    for step in steps {
        push_step_fits(alloc, &mut fits, tables, bound, bindings, step)?;
    }
    Ok(fits)
}

/// The same of all steps of a function.
pub fn fits_of(
    alloc: Global,
    tables: &[TableDef],
    function: &Function,
    bindings: &[Binding],
) -> Result<FitList, AllocError>
    ensures { IfOk result (λ made. made ≡ fits_of tables.now function.now bindings.now) }
{
    fits_of_steps(
        alloc,
        tables,
        function.bound.as_slice(),
        bindings,
        function.steps.as_slice(),
    )
}
