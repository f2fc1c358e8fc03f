//! The action `trace`: texts run as by `go`, and reports of what the source begins at a stop.

mod closing;
pub mod laws;
mod running;
mod tracing;

pub use tracing::trace;
