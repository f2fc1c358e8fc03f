//! The least number of tokens that a text with such a unit has, and the labels that its bodies set: what the size of its code is held to; and
//! that a text has as many tokens as its tree counts.
#![tactic(auto)]

pub mod laws;
