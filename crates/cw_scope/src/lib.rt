//! Name resolution.
//!
//! Names are judged by the facts of a text alone.
#![tactic(auto)]

pub mod declared;
pub mod definitions;
pub mod fault;
pub mod judge;
pub mod key;
pub mod laws;
pub mod names;
pub mod resolve;
mod resolving;
pub mod same;
