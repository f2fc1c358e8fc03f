//! Linker: relocation and the executable image.
#![tactic(auto)]

mod code;
mod contents;
mod definitions;
mod fault;
mod filled;
pub mod laws;
mod linking;
mod lists;
mod presets;
mod relocation;
mod words;

pub use contents::families_of;
pub use fault::LinkFault;
pub use filled::{Filled, fill_word, no_words};
pub use linking::{Linked, link};
pub use relocation::{Links, fill, number_at};
