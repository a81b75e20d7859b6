ghost use Rattle.std.specs.Prelude.{◌≡◌, reverse};
ghost use Rattle.std.specs.List.{AllByRecursion};
ghost use Rattle.strip_engine.specs.Steps.{defs_of};
ghost use Rattle.strip_engine.specs.Undo.{IsLogged, restored, all_restored};

use crate::undo::Logged;
use strip_table::Table;
use strip_value::Shift;

fn restore(tables: &mut Vec<Table>, logged: Logged)
    requires { IsLogged (defs_of tables.old.items) logged }
    ensures tables { tables.new.items ≡ restored logged tables.old.items }
    ensures defs { defs_of tables.new.items ≡ defs_of tables.old.items }
{
    let Logged { key, change } = logged;
    let at = change.table.0 as usize;
    match change.shift {
        Shift::Inserted(_row) => {
            let _gone = tables[at].take_out(key.values());
        }
        Shift::Deleted(_row) => {}
        Shift::Changed { old, new: _ } => tables[at].put_back(old),
    }
}

/// Takes changes back, the newest first.
pub(crate) fn restore_all(tables: &mut Vec<Table>, changes: Vec<Logged>)
    requires { AllByRecursion (IsLogged (defs_of tables.old.items)) changes.items }
    ensures tables { tables.new.items ≡ all_restored (reverse changes.items) tables.old.items }
    ensures defs { defs_of tables.new.items ≡ defs_of tables.old.items }
{
    let mut left = changes;
    while let Some(change) = left.pop() {
        restore(tables, change);
    }
}
