//! The one-thread core: tables, transactions and their history.
#![tactic(auto)]

mod answers;
mod asking;
mod causes;
mod committing;
mod deltas;
mod engine;
mod finishing;
mod holds;
mod jobs;
mod keepers;
pub mod laws;
mod queue;
mod starting;
mod steps;
mod undo;

pub use answers::{
    ActFault, BeginError, CommitError, FinishError, FinishFault, Fired, Limits, NoSession, Taken,
};
pub use causes::row_misfit;
pub use engine::Engine;
pub use jobs::{Done, Job};
pub use strip_catalog::Catalog;
pub use strip_model::{Entry, History};
pub use strip_value::{Act, ActError, ColumnDef, Counts, Id, KeyOf, Reply, Row, TableDef, Value};
