//! The texts of a call, taken in order and compiled.
#![tactic(auto)]

pub mod laws;
mod texts;

pub use texts::{TEXT_LIMIT, compile_text, read_text, read_units};
