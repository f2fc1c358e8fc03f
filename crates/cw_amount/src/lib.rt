//! What the numbers of a text amount to where whole ones are wanted.
#![tactic(auto)]

pub mod amount;
