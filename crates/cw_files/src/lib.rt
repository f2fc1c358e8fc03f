//! The files of a call, taken in order: their bytes, their objects opened, an image read; and what their texts are compiled to.
#![tactic(auto)]

mod bytes;
mod images;
mod objects;
pub mod segments;

pub use bytes::read_bytes;
pub use cw_say::{Bad, Status};
pub use images::{Runnable, read_image_file, read_runnable};
pub use objects::read_objects;
pub use segments::{Segment, Segments};
