//! The words that items hold at the start.
#![tactic(auto)]

pub mod held;
pub mod lists;
pub mod stored;
pub mod strings;
