//! The outside of the database: where bytes come from and go to, files, a clock, and the place
//! where a job waits before it runs.
//!
//! Each trait says by ghost members what a call means. A count of faults belongs to each source,
//! sink and set of files: a call answers a fault only where that count rose.
#![tactic(auto)]

mod clocks;
mod faults;
mod feeds;
mod gates;
mod host;
mod memory_sink;
mod memory_source;
mod sinks;
mod sources;
mod std_streams;

pub use clocks::Clock;
pub use faults::{Fault, OpenError};
pub use feeds::Files;
pub use gates::{FreeGate, WorkGate};
pub use host::{HostClock, HostFiles};
pub use memory_sink::MemorySink;
pub use memory_source::MemorySource;
pub use sinks::{Sink, write_all};
pub use sources::Source;
pub use std_streams::{StdSink, StdSource};

#[cfg(test)]
mod tests;
