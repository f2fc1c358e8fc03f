//! What the object of a unit tells, and linking objects by their bytes.
#![tactic(auto)]

pub mod laws;
mod linking;

pub use linking::link_objects;
