//! Symbol agreement between segments.
#![tactic(auto)]

mod agreeing;
mod agreement;
mod checking;
mod clash;
mod entry;
mod face;
pub mod laws;
mod listing;
mod tables;

pub use agreeing::agree;
pub use clash::Clash;
pub use entry::wants_definition;
pub use face::{Agreed, Face};
