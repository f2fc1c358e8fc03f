//! Code generation for statements, procedures and units.
#![tactic(auto)]

mod begun;
mod elements;
mod labels;
mod loops;
mod procedures;
mod simple;
mod simple_orders;
mod statements;
mod switches;
mod unit;

pub use unit::orders;
