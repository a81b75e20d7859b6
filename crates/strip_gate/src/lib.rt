//! A lock that threads take in the order in which they asked for it, round a state that keeps a history.
//!
//! Whoever uses it holds a `Pass`, which knows the history as far as it has seen it, and which of its entries are its own.
#![tactic(auto)]

mod gate;
mod kept;
mod pass;
mod plays;
mod steps;
#[cfg(test)]
mod tests;
mod turn;
mod view;

pub use gate::Gate;
pub use kept::Kept;
pub use pass::{Pass, WHOLE};
pub use turn::Turn;
