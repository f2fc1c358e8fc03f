//! Types, scales and bounds.
#![tactic(auto)]

pub mod arguments;
pub mod fault;
pub mod judge;
pub mod kinds;
pub mod laws;
pub mod scales;
pub mod types;

pub use cw_scope::resolve::Named;
