//! Relocatable object file writer.
#![tactic(auto)]

mod descriptor;
mod item;
pub mod laws;
mod migrating;
mod object;
mod records;

pub use migrating::{MigrateFault, migrate};
pub use object::write_object;
