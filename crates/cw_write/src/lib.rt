//! Text written to a sink that may take a part of it or fail.
#![tactic(auto)]

mod writing;

pub use writing::{write_line, write_name, write_number, write_piece};
