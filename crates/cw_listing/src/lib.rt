//! The listing of a linked program: its code as text that an assembler takes.
#![tactic(auto)]

pub mod laws;
mod library;
pub mod line;
mod lines;
mod listing;
mod places;
mod program;
pub mod remark;
mod segment;
mod source;
mod words;

pub use program::code_listing;
