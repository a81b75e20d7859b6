use crate::copies::Duplicate;
use crate::texts::Text;
use sqlite_items::Boxed;
use std::alloc::{AllocError, Global};

/// A value computed from a combination of one row per entry of a query.
#[derive(Debug, Drop)]
pub enum Calc {
    Number(i128),
    Text(Text),
    /// A column of an entry's row, both counted from 0.
    Column { entry: u32, column: u32 },
    Add(Boxed<Calc>, Boxed<Calc>),
    Sub(Boxed<Calc>, Boxed<Calc>),
    Mul(Boxed<Calc>, Boxed<Calc>),
}

/// How two values are compared.
#[derive(Clone, Copy, Debug, PartialEq, Eq)]
pub enum Cmp {
    Eq,
    Ne,
    Lt,
    Le,
    Gt,
    Ge,
}

/// What is true or false of a combination of one row per entry of a query.
#[derive(Debug, Drop)]
pub enum Test {
    /// What a query without a filter asks.
    True,
    Compare(Cmp, Calc, Calc),
    Not(Boxed<Test>),
    And(Boxed<Test>, Boxed<Test>),
    Or(Boxed<Test>, Boxed<Test>),
}

impl Duplicate for Calc {
    fn copy(&self, alloc: Global) -> Result<Calc, AllocError> {
        match self {
            Calc::Number(n) => Ok(Calc::Number(*n)),
            Calc::Text(text) => Ok(Calc::Text(text.copy(alloc)?)),
            Calc::Column { entry, column } => Ok(Calc::Column {
                entry: *entry,
                column: *column,
            }),
            Calc::Add(left, right) => {
                let left = Boxed::new(alloc, left.get().copy(alloc)?)?;
                let right = Boxed::new(alloc, right.get().copy(alloc)?)?;
                Ok(Calc::Add(left, right))
            }
            Calc::Sub(left, right) => {
                let left = Boxed::new(alloc, left.get().copy(alloc)?)?;
                let right = Boxed::new(alloc, right.get().copy(alloc)?)?;
                Ok(Calc::Sub(left, right))
            }
            Calc::Mul(left, right) => {
                let left = Boxed::new(alloc, left.get().copy(alloc)?)?;
                let right = Boxed::new(alloc, right.get().copy(alloc)?)?;
                Ok(Calc::Mul(left, right))
            }
        }
    }
}

impl Duplicate for Cmp {
    fn copy(&self, _alloc: Global) -> Result<Cmp, AllocError> {
        Ok(*self)
    }
}

impl Duplicate for Test {
    fn copy(&self, alloc: Global) -> Result<Test, AllocError> {
        match self {
            Test::True => Ok(Test::True),
            Test::Compare(cmp, left, right) => {
                let left = left.copy(alloc)?;
                let right = right.copy(alloc)?;
                Ok(Test::Compare(*cmp, left, right))
            }
            Test::Not(test) => {
                let test = Boxed::new(alloc, test.get().copy(alloc)?)?;
                Ok(Test::Not(test))
            }
            Test::And(left, right) => {
                let left = Boxed::new(alloc, left.get().copy(alloc)?)?;
                let right = Boxed::new(alloc, right.get().copy(alloc)?)?;
                Ok(Test::And(left, right))
            }
            Test::Or(left, right) => {
                let left = Boxed::new(alloc, left.get().copy(alloc)?)?;
                let right = Boxed::new(alloc, right.get().copy(alloc)?)?;
                Ok(Test::Or(left, right))
            }
        }
    }
}
