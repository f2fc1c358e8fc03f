//! The files of `link`: objects and libraries, and the list of objects that they come to.
#![tactic(auto)]

pub mod laws;
mod listing;
mod reading;

pub use listing::link_list;
pub use reading::{LinkFiles, read_link_files};
