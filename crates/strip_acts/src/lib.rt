//! Acts that suit the tables of a catalog: which do, and how they are written.
#![tactic(auto)]

pub mod laws;
mod reads;
mod shapes;
mod suiting;
mod trees;

pub use suiting::suits;
pub use trees::tree_of;
