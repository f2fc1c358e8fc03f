//! The trees of a unit for the expressions, conditions and references of a text.
#![tactic(auto)]

pub mod calls;
mod handed;
mod making;
mod nodes;
pub mod parts;

pub use cw_number::numbered::Numbered;
