//! From units to their objects, and from these to the image.
#![tactic(auto)]

mod compiling;
pub mod laws;
mod linking;
pub mod made;

pub use compiling::compile;
pub use linking::link_units;
pub use made::Made;
