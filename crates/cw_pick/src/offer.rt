//! What an object offers to the selection.
use cw_word::{List, Name};

/// The names of labels, switches and procedures that an object lists, and the names that it defines.
#[derive(Drop)]
pub(crate) struct Offer {
    pub lists: List<Name>,
    pub defines: List<Name>,
}
