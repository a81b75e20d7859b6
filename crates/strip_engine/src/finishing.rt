//! A finish: sums are added to a derived table.
ghost use Rattle.std.specs.Prelude.{◌≡◌, ◌<◌, vec_len, OnOk, OnErr};
ghost use Rattle.strip_engine.specs.Acting.{CanAdd, with_sums};
ghost use Rattle.strip_meaning.specs.Effect.{table_at};

use std::alloc::{AllocError, Global};
use strip_add::{Totals, apply};
use strip_table::Table;
use strip_value::Id;

/// Adds sums to one of the tables; where memory is wanting, the tables are as before.
pub(crate) fn add_sums(
    alloc: Global,
    tables: &mut Vec<Table>,
    table: Id,
    totals: &Totals,
) -> Result<(), AllocError>
    requires there { table < vec_len tables.old }
    requires can_add { CanAdd (table_at tables.old.items table) totals.now }
    ensures ok { OnOk result (tables.new.items ≡ with_sums tables.old.items table totals.now) }
    ensures err { OnErr result (tables.new.items ≡ tables.old.items) }
{
    apply(alloc, &mut tables[table.0 as usize], totals)
}
