//! The checker: what the types of a resolved text come to.
#![tactic(auto)]

pub mod check;

pub use cw_items::text::StoredText;
