ghost use Rattle.std.specs.Iterator.{YieldsFirstRef, item_count};

use std::marker::Model;
use strip_value::Row;

/// The rows of a table by rising key. Contracts see those that are left.
#[derive(Drop)]
pub struct Rows<'a> {
    pub(crate) left: &'a [Row],
}

impl<'a> Model for Rows<'a> {
    ghost use Rattle.std.specs.Prelude.{List};
    ghost use Rattle.std.specs.Coded.{coded_list};
    ghost use Rattle.strip_value.specs.contracts.rows.Row.{the_row};
    ghost use Rattle.strip_value.specs.declared.values.Value.{Value as OneValue};

    ghost Value = { List (List OneValue) };

    ghost coded = { coded_list the_row.coded };

    ghost view = { λ it. it.left.now };
}

impl<'a> Iterator for Rows<'a> {
    type Item = &'a Row;

    ghost next_gives = { YieldsFirstRef (λ rows. rows) };

    ghost remaining = { item_count (λ rows. rows) };

    fn next(&mut self) -> Option<&'a Row> {
        let (first, others) = self.left.split_first()?;
        self.left = others;
        Some(first)
    }
}
