//! The action `exec`: the run of what its file tells, an image or a HEX text.

mod executing;
pub mod laws;

pub use executing::exec;
