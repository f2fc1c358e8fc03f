//! The 8086 as a deterministic machine, and what the instructions of compiled code do to what that code deals with.
#![tactic(auto)]

pub mod laws;
