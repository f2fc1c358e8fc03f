//! Checks of lists of segments: where their storage ends, or their first fault.
mod ends;
mod large;
mod spelling;
