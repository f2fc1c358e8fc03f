//! Parser of whole segments.
#![tactic(auto)]

pub mod parsing;
mod simple;
mod statement;

pub use cw_grammar::fault::ParseFault;
pub use parsing::parse;
