//! What acts do to tables, as definitions alone: `specs/Effect.antt`. The crates that change tables cite them.
#![tactic(auto)]

pub use strip_value::{Act, ActError, Change, Holds, Reply};
