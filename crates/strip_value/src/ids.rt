ghost use Rattle.std.specs.Prelude.{◌≡◌};

use crate::copies::Duplicate;
use crate::items::Items;
use std::alloc::{AllocError, Global};
use std::marker::Model;

/// The number of a table: tables are numbered from 0 in the order of declaration.
#[derive(Clone, Copy, Debug, PartialEq, Eq, PartialOrd, Ord)]
pub struct Id(pub u32);

impl Model for Id {
    ghost use Rattle.std.specs.Prelude.{ℕ};

    ghost Value = { ℕ };

    ghost view = { λ id. id.0 };

    ghost inverse = { λ n. record { 0 = n } };
}

impl Duplicate for Id {
    fn copy(&self, _alloc: Global) -> Result<Id, AllocError> {
        Ok(*self)
    }
}

/// A list of tables, by their numbers.
pub type Ids = Items<Id>;
