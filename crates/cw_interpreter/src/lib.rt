//! The machine of orders as a plain program, and programs of orders as texts: what the checks of orders and their code compare with.
#![tactic(auto)]

mod accumulator;
mod calls;
mod machine;
mod reader;
mod segments;
mod values;
mod ways;
mod words;

pub use machine::{End, Machine};
pub use reader::program;
pub use segments::{Program, Segment};
