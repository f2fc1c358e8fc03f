//! What the names mean that units share: for each the first definition, found by one search.
#![tactic(auto)]

mod definitions;
mod key;

pub use definitions::Definitions;
