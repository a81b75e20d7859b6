use crate::marks::Mark;
use std::marker::Model;
use strip_value::{Items, Name, Text};

/// A number as statements write it: 1 to 38 digits, seen as the number.
#[derive(Debug, Drop)]
pub struct Digits {
    value: u128,
}

impl Model for Digits {
    ghost use Rattle.std.specs.Prelude.{ℕ, ◌<◌, ◌^◌};

    ghost Value = { ℕ };

    ghost view = { λ d. d.value };

    ghost invariant = { λ d. d.value < 10 ^ 38 };
}

/// A token of a statement.
#[derive(Debug, Drop)]
pub enum Token {
    Mark(Mark),
    /// A word that is no keyword, of at most 32 bytes.
    Name(Name),
    Number(Digits),
    /// What stands between the quotes, each doubled quote once.
    Text(Text),
}

/// A token, and the place of its first byte, counted from 0.
#[derive(Debug, Drop)]
pub struct Placed {
    pub at: u64,
    pub token: Token,
}

/// The tokens of a statement, in their order.
pub type TokenList = Items<Placed>;

ghost use Rattle.std.specs.Prelude.{◌≡◌, ◌<◌, ◌^◌, pos, neg_ℤ};

impl Digits {
    pub(crate) fn of(value: u128) -> Digits
        requires { value < 10 ^ 38 }
        ensures { result ≡ value }
    {
        Digits { value }
    }

    /// The number.
    pub fn value(&self) -> u128
        ensures { result ≡ self.now }
    {
        self.value
    }

    /// The number, signed.
    pub fn signed(&self) -> i128
        ensures { result ≡ pos self.now }
    {
        self.value as i128
    }

    /// The number with a minus before it.
    pub fn negated(&self) -> i128
        ensures { result ≡ neg_ℤ (pos self.now) }
    {
        -(self.value as i128)
    }
}
