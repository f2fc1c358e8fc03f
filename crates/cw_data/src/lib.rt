//! The rules of declarations: bounds, sizes, fields, and how many there may be.
#![tactic(auto)]

pub mod data;
pub mod overlays;
pub mod presets;
pub mod specifications;

pub use cw_scale::fault::{Fault, Rule, keep_unless};
pub use cw_scale::kinds::kind_of;
