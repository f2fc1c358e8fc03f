//! Specifications of procedures by numbers, each found by one search.
#![tactic(auto)]

mod key;
pub mod laws;
mod specifications;
mod spelling;

pub use specifications::Specifications;
