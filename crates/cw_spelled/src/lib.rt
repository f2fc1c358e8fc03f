//! What each token of a text is, also behind the expansion of its macros.
#![tactic(auto)]

pub mod laws;
