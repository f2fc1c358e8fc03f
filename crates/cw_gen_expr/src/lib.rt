//! Code generation for expressions, addresses and conditions.
#![tactic(auto)]

pub mod expressions;
pub mod forms;
pub mod known;
pub mod laws;
pub mod orders;
pub mod output;
pub mod tree;

pub use expressions::expr_orders;
