//! The code of orders does what the orders do.
#![tactic(auto)]

pub mod laws;
