//! Combinations of one row of each entry.
ghost use Rattle.std.specs.Prelude.{◌≡◌, ◌-◌, ◌∷◌, ◌++◌, [], get_or, length, take, OnOk, OnErr};
ghost use Rattle.strip_value.specs.Table.{column_of};
ghost use Rattle.strip_eval.specs.Lent.{shown};

use crate::values::{Seen, see};
use std::alloc::{AllocError, Global};
use std::marker::Model;
use strip_value::Row;

/// A row of each entry, or of the first ones, where they stand. Contracts see the rows.
#[derive(Drop)]
pub(crate) struct Combination<'a> {
    rows: Vec<&'a Row>,
}

impl<'a> Model for Combination<'a> {
    ghost use Rattle.std.specs.Prelude.{List, map};
    ghost use Rattle.std.specs.Coded.{coded_list};
    ghost use Rattle.strip_value.specs.contracts.rows.Row.{the_row};
    ghost use Rattle.strip_value.specs.declared.values.Value.{Value as OneValue};

    ghost Value = { List (List OneValue) };

    ghost coded = { coded_list the_row.coded };

    ghost view = { λ c. map (λ row. row.now) c.rows.items };
}

impl<'a> Combination<'a> {
    pub fn new(alloc: Global) -> Combination<'a>
        ensures { result ≡ [] }
    {
        Combination {
            rows: Vec::new(alloc),
        }
    }

    /// The row of the next entry.
    pub fn push(&mut self, row: &'a Row) -> Result<(), AllocError>
        ensures ok { OnOk result (self.new ≡ self.old ++ row.now ∷ []) }
        ensures err { OnErr result (self.new ≡ self.old) }
    {
        self.rows.push(row)?;
        Ok(())
    }

    /// Lets the last row go.
    pub fn pop(&mut self)
        ensures { self.new ≡ take (length self.old - 1) self.old }
    {
        self.rows.pop();
    }

    /// The value of a column of an entry; one that isn't there counts as 0.
    pub fn column(&self, entry: u32, column: u32) -> Seen<'a>
        ensures { shown result ≡ column_of (get_or self.now entry []) column }
    {
        let Some(row) = self.rows.get(entry as usize) else {
            return Seen::Number(0);
        };
        let row: &'a Row = row;
        match row.values().get(column as usize) {
            Some(value) => see(value),
            None => Seen::Number(0),
        }
    }
}
