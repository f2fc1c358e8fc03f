//! What expressions are put together from and what opens no level: constants, operators, BITS, and trees without brackets
//! that are not needed.
#![tactic(auto)]

pub mod brackets;
pub mod operands;
