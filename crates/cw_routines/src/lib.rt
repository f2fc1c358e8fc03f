//! What the routines of the run-time library do.
#![tactic(auto)]

pub mod laws;
