//! The grammar, and reading of single tokens.
#![tactic(auto)]

pub mod fault;
pub mod leaf;
pub mod reading;
pub mod stop;
pub mod token;
