//! Checked program representation, storage types and the source semantics.
#![tactic(auto)]

pub mod descriptor;
pub mod laws;
pub mod layout;
pub mod same;
pub mod scales;
pub mod unit;
