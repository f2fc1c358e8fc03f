//! Why no text of a large program is refused.
#![tactic(auto)]

pub mod laws;
