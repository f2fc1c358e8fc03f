//! The members of libraries that objects need.
#![tactic(auto)]

mod finding;
mod following;
mod index;
pub mod laws;
mod marking;
mod offer;
mod reading;
mod settling;

pub use finding::pick;
