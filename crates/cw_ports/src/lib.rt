//! The ports of an image that runs, over any source and sink: its input and its output in pieces; and the run.
#![tactic(auto)]

mod inlet;
mod outlet;
mod ports;
mod running;
mod supply;

pub use inlet::Inlet;
pub use outlet::Outlet;
pub use ports::ImagePorts;
pub use running::{ImageEnd, run_image};
