//! What is watched.
use cw_cpu86::RunEnd;
use cw_word::{List, Name};

/// The stop at which a run reports, and what it reports.
#[derive(Drop)]
pub struct Watch {
    pub segment: Name,
    /// The line of the segment's text.
    pub line: u16,
    /// The offsets in the code at which a statement of that segment and line begins, rising.
    pub places: List<u16>,
    /// The watched words, in order.
    pub words: List<WatchedWord>,
}

/// A watched word.
#[derive(Drop)]
pub struct WatchedWord {
    /// What it is called.
    pub text: List<u8>,
    /// Its number in the data segment, 0 to 32767.
    pub address: u16,
}

/// How a run that is watched ended.
#[derive(Clone, Copy, Debug, PartialEq, Eq)]
pub enum WatchEnd {
    /// As a run does that is not watched.
    Run(RunEnd),
    /// A report could not be written.
    SayFault,
}
