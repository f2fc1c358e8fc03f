//! What a text stores, where it stands in the families of storage, and how many words there are.
#![tactic(auto)]

pub mod counts;
pub mod data;
pub mod families;
pub mod statements;
mod strings;
pub mod text;
pub mod thing;
