//! The tracer: a run of an image that tells before each instruction at chosen places what chosen words hold.
#![tactic(auto)]

pub mod laws;
mod line;
mod marks;
mod reporting;
mod running;
mod watch;

pub use running::run_watched;
pub use watch::{Watch, WatchEnd, WatchedWord};
