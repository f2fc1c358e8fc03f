//! The trees of a unit for the statements of a text.
#![tactic(auto)]

mod parts;
pub mod statements;
