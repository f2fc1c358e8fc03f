//! The code of a unit is short: how many bytes it has for each token that a text of it has at least.
#![tactic(auto)]

pub mod laws;
