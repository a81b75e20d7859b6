use sqlite_items::Boxed;
use std::alloc::{AllocError, Global};
use strip_value::{Duplicate, Name, Text};

/// An expression as it is written.
#[derive(Debug, Drop)]
pub enum Expr {
    Number(i128),
    Text(Text),
    /// A column, of the entry with that alias or of any.
    Column {
        of: Option<Name>,
        name: Name,
    },
    Two {
        op: Op,
        left: Boxed<Expr>,
        right: Boxed<Expr>,
    },
    Not(Boxed<Expr>),
}

/// What joins two expressions.
#[derive(Clone, Copy, Debug, PartialEq, Eq)]
pub enum Op {
    Add,
    Sub,
    Mul,
    Eq,
    Ne,
    Lt,
    Le,
    Gt,
    Ge,
    And,
    Or,
}

impl Duplicate for Expr {
    fn copy(&self, alloc: Global) -> Result<Expr, AllocError> {
        match self {
            Expr::Number(n) => Ok(Expr::Number(*n)),
            Expr::Text(text) => Ok(Expr::Text(text.copy(alloc)?)),
            Expr::Column { of, name } => {
                let of = of.copy(alloc)?;
                let name = name.copy(alloc)?;
                Ok(Expr::Column { of, name })
            }
            Expr::Two { op, left, right } => {
                let left = Boxed::new(alloc, left.get().copy(alloc)?)?;
                let right = Boxed::new(alloc, right.get().copy(alloc)?)?;
                Ok(Expr::Two {
                    op: *op,
                    left,
                    right,
                })
            }
            Expr::Not(inner) => {
                let inner = Boxed::new(alloc, inner.get().copy(alloc)?)?;
                Ok(Expr::Not(inner))
            }
        }
    }
}
