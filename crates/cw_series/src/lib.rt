//! Items in a row, each read as the caller says.
#![tactic(auto)]

pub mod lists;
