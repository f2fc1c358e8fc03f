//! What each tree of the grammar is: in normal form, with positions that rise in order of the text.
#![tactic(auto)]

pub mod laws;
