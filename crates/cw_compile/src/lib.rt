//! From a text to its unit, or the first fault of the first pass that refuses it.
#![tactic(auto)]

pub mod fault;
pub mod laws;
mod making;
mod tree;

pub use cw_type::check::TypeFault;
pub use fault::{Refusal, UnitFault};
pub use making::{canonical, unit};
