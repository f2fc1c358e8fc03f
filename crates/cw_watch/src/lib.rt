//! What a stop word means in objects that were linked: the places of its line, and the words that it watches.
#![tactic(auto)]

mod fault;
mod finding;
pub mod laws;
mod lines;
mod opening;
mod places;
mod watching;

pub use fault::WatchFault;
pub use watching::watch_for;
