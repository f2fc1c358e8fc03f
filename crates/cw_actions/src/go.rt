//! The action `go`: the texts of files to the run of their image; and its parts, for other actions that run texts.

mod closing;
mod going;
pub mod laws;
mod linking;
mod running;
mod statuses;

pub use closing::close;
pub use cw_texts::laws::compiled_units;
pub use cw_texts::{compile_text, read_units};
pub use going::go;
pub use linking::link_segments;
pub(crate) use running::{load, load_and_run, storage_text};
pub use statuses::status_of;
