//! The run of an image that is watched: over an input and an output, with what is told of it on `say`.
#![tactic(auto)]

mod running;

pub use running::{WatchedEnd, run_watched_image};
