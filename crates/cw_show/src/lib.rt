//! The canonical text of a syntax tree.
#![tactic(auto)]

mod expression;
mod items;
pub mod laws;
mod leaf;
mod lists;
mod segment;
mod showing;
mod statement;
mod token;
mod written;

pub use showing::show;
