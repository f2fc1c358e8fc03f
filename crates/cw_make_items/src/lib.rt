//! The items and descriptors of a unit.
#![tactic(auto)]

pub mod descriptors;
pub mod items;
pub mod lookup;
pub mod types;
