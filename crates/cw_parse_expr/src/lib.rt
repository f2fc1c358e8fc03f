//! Recursive-descent parser of expressions and conditions.
#![tactic(auto)]

mod chains;
pub mod parsing;
pub mod reading;
