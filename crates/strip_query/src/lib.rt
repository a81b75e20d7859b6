//! Resolved queries and acts, and how far the numbers that they compute can be from 0.
#![tactic(auto)]

mod bounds;
pub mod laws;

pub use bounds::{capped_product, capped_sum, column_kind, kind_magnitude, magnitude};
pub use strip_value::{
    Act, Calc, Cmp, Input, Item, ItemList, Kind, KindList, Kinds, Place, PlaceList, Query, Set,
    SetList, Test, What,
};

#[cfg(test)]
mod tests;
