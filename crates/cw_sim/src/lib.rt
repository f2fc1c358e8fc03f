//! The simulation theorem: linked image against source semantics.
#![tactic(auto)]

pub mod laws;
