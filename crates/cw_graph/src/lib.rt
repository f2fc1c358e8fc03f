//! Reports on graphs of numbers: a longest chain behind a body, or the first node that is reached and has no height.
#![tactic(auto)]

mod choosing;
pub mod graph;
mod levels;
mod ranking;
mod reaching;
pub mod report;
