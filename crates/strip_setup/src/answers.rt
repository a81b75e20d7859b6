//! The columns that queries answer with, and under which names a rule binds them.
use std::alloc::{AllocError, Global};
use strip_value::{Duplicate, Items, Kind, Name};

/// A column of a query's answer: its name, its kind, and how far from 0 its numbers may be.
#[derive(Debug, Drop)]
pub struct Answer {
    pub name: Name,
    pub kind: Kind,
    pub magnitude: u128,
}

impl Duplicate for Answer {
    fn copy(&self, alloc: Global) -> Result<Answer, AllocError> {
        let name = self.name.copy(alloc)?;
        Ok(Answer {
            name,
            kind: self.kind,
            magnitude: self.magnitude,
        })
    }
}

pub type AnswerList = Items<Answer>;

/// What a query of a rule binds: the name, and the columns.
#[derive(Debug, Drop)]
pub struct Binding {
    pub name: Name,
    pub columns: AnswerList,
}

pub type BindingList = Items<Binding>;
