ghost use Rattle.std.specs.Prelude.{◌≡◌, ◌^◌, ◌<◌, map, length, IfOk, OnOk};
ghost use Rattle.std.specs.List.{AllByRecursion};
ghost use Rattle.strip_meaning.specs.Sums.{IsDerived, IsUnder, as_derived, folded, plus, summed, totals_at, totals_of};
ghost use Rattle.strip_value.specs.Kinds.{FitsColumns};
ghost use Rattle.strip_value.specs.Table.{key_of, with_row};

use crate::sums::{derived_row, summed_row};
use std::alloc::{AllocError, Global};
use strip_table::Table;
use strip_value::{Duplicate, Row, RowList, TableDef};

/// For each key its totals: rows of a derived table, by rising key.
pub type Totals = RowList;

/// For each key that a row has the sums of the rows' totals. The key and the totals of a row are its
/// columns `from`, in the order of the derived table's columns.
///
/// Takes about n log k steps for n rows of k keys, and moves up to k rows for each new key.
pub fn fold(
    alloc: Global,
    rows: &RowList,
    into: &TableDef,
    from: &[u32],
) -> Result<Totals, AllocError>
    requires derived { IsDerived into.now }
    requires kinds { AllByRecursion (λ row. FitsColumns into.now.columns (as_derived from.now row)) rows.now }
    requires few { length rows.now < 2 ^ 62 }
    requires small { AllByRecursion (λ row. AllByRecursion (IsUnder (2 ^ 63)) (totals_of into.now (as_derived from.now row))) rows.now }
    ensures { IfOk result (λ totals. totals ≡ folded into.now (map (as_derived from.now) rows.now)) }
{
    let mut sums = Table::new(alloc, into)?;
    for row in rows.as_slice() {
        fold_row(alloc, &mut sums, row, from)?;
    }
    rows_of(alloc, &sums)
}

fn fold_row(alloc: Global, sums: &mut Table, row: &Row, from: &[u32]) -> Result<(), AllocError>
    requires derived { IsDerived sums.old.def }
    requires rows { AllByRecursion (FitsColumns sums.old.def.columns) sums.old.rows }
    requires fits { FitsColumns sums.old.def.columns (as_derived from.now row.now) }
    requires sums { let seen = as_derived from.now row.now in AllByRecursion (IsUnder (2 ^ 126)) (plus (totals_at sums.old.def sums.old.rows (key_of sums.old.def.key seen)) (totals_of sums.old.def seen)) }
    ensures { OnOk result (sums.new ≡ record sums.old { rows = with_row sums.old.def.key sums.old.rows (summed sums.old.def sums.old.rows (as_derived from.now row.now)) }) }
{
    let seen = derived_row(alloc, row.values(), from)?;
    let summed = summed_row(alloc, sums, seen.as_slice())?;
    match sums.put(summed) {
        Ok(_) => Ok(()),
        Err(_) => Err(AllocError),
    }
}

fn rows_of(alloc: Global, table: &Table) -> Result<RowList, AllocError>
    ensures { IfOk result (λ rows. rows ≡ table.now.rows) }
{
    let mut rows = RowList::new(alloc);
    for row in table.rows() {
        rows.push(row.copy(alloc)?)?;
    }
    Ok(rows)
}
