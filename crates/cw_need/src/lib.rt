//! The words of control stack that the bodies of a unit need, as far as 65,536 tells them.
#![tactic(auto)]

mod expressions;
mod statements;
mod units;

pub use units::unit_need;
