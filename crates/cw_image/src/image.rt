//! The image of a program.
use cw_word::{List, Name};

/// The words of the data area, those of the frame area at its end, the calls that may be active at once, the names of the
/// segments, the words that the data area begins with, and the code.
#[derive(Drop)]
pub struct Image {
    pub area: u16,
    pub frames: u16,
    pub depth: u16,
    pub names: List<Name>,
    pub words: List<u16>,
    pub code: List<u8>,
}
