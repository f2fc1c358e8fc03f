//! The unit of a named text.
#![tactic(auto)]

pub mod definitions;
pub mod labels;
pub mod made;
pub mod procedures;
pub mod switches;
