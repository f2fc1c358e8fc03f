//! The depth report of a program: how many calls can be at work at once.
#![tactic(auto)]

mod call_graph;
mod depth_report;
mod expressions;
mod groups;
pub mod laws;
pub mod mention;
pub mod node;
mod numbering;
mod rows;
mod specifications;
mod standing;
mod statements;

pub use depth_report::{Report, depth};
