//! The numbers that the things of a text have in its unit.
#![tactic(auto)]

pub mod listed;
pub mod numbered;
pub mod numbers;

pub use cw_items::text::StoredText;
pub use cw_items::thing::{Base, Owner, Sort, Thing};
