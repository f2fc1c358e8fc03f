//! Statuses of the command, and the closing line.
#![tactic(auto)]

mod bad;
mod faults;
mod last;
mod link;
mod status;

pub use last::write_last;
pub use status::{Bad, LinkFault, Long, Status, Which};
