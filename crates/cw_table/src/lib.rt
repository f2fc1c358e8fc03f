//! Tables of what is said of tokens.
#![tactic(auto)]

pub mod table;
