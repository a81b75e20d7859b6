//! Scripts: statements in, replies out.
#![tactic(auto)]

mod alone;
mod built;
mod database;
#[cfg(test)]
mod engine_tests;
mod jobs;
pub mod laws;
mod refusals;
mod run;
mod script;
mod setup;

pub use run::{Ended, RunError, run_script};
pub use strip_engine::Limits;
pub use strip_outside::{Sink, Source};
