//! The words of the command line.
#![tactic(auto)]

mod action;
pub mod laws;
mod request;
mod simple;

pub use action::Action;
pub use request::{Command, read_words};
pub use simple::WordsFault;
