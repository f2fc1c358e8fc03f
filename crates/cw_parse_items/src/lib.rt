//! Data, specifications, declarations, parameters and communicators from left to right: what opens no level.
#![tactic(auto)]

pub mod comms;
pub mod data;
pub mod decls;
pub mod params;
pub mod specifications;
pub mod taking;
