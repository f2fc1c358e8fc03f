//! The orders of a program follow what its source means: laws alone.
//!
//! A relation holds between configurations of the source and states of the machine of orders in which the words are the same and the code
//! from here on carries out the pending work. Each operation of an expression, a reference or a call is one equation between what its orders
//! do to words and what the source does (`Expressions`). Statements, FOR and labels come on top (`Statements`). So every run of units that are
//! well formed together is tracked by the run of their orders, with what is shown and with the statements that begin (`Runs`).
#![tactic(auto)]

pub mod laws;
