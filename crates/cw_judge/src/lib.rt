//! The judgement of a whole text: data with its presets and overlays, statements, and how many operators and words there are.
#![tactic(auto)]

pub mod declared;
pub mod operators;
pub mod sites;
pub mod statements;
pub mod text;
