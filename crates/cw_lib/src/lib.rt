//! Library files of objects, and the members of them that objects need.
#![tactic(auto)]

mod fault;
pub mod laws;
mod library;
mod writing;

pub use fault::LibFault;
pub use library::{Lib, open_lib};
pub use writing::write_lib;
