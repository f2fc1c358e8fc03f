//! Intermediate code: the orders of an abstract stack machine.
#![tactic(auto)]

pub mod laws;
mod order;

pub use order::{Comparator, LabelMark, Order, Orders, Place};
