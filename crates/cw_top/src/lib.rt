//! The command: its actions; carries the correctness theorem.
#![tactic(auto)]

mod command;
pub mod laws;
mod top;

pub use cw_say::{Bad, LinkFault, Long, Status, Which};
pub use top::coral66;
