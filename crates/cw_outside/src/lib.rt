//! What the command has of the system: files as a store, a reader as a source, a writer as a sink. A result takes the place of an older file
//! whole, or not at all.
#![tactic(auto)]

mod adapters;
mod replace;

pub use adapters::{Files, Stream};
