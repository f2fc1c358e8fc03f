//! The stop word of a trace: the line of a segment at which it reports, and what it watches.
#![tactic(auto)]

mod reading;
mod stopping;

pub use reading::read_stop;
pub use stopping::{Stop, StopFault, Watched};
