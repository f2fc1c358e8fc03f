//! Units that have orders which do what they mean, orders that have code which does, and what both tell.
#![tactic(auto)]

pub mod laws;
