//! Macro preprocessor over token slices.
//!
//! `DEFINE name "body";` or `DEFINE name(p1,p2) "body";` defines a name from there on, in place of an earlier definition, and `DELETE name;` removes it.
//! A defined name elsewhere is a call. The tokens of the body stand for it, with the call's arguments in place of the parameters, and are read in turn.
//! An argument is any tokens, perhaps none, in which round and square brackets are nested; commas outside these separate arguments. Names compare without case.
//! Strings and literals of a body stay as they are.
//!
//! The tokens of the text have level 0. A call at level k brings the tokens of its body at level k + 1 and those of
//! its arguments at the larger of their own and k + 1;
//! at level 32 it is refused. What a call brings has the call's line, and stays the slice of the source that it is. `specs/Expansion.antt` is the definition.
#![tactic(auto)]

mod arguments;
mod definition;
mod expansion;
mod fault;
mod key;
pub mod laws;
mod left;

pub use expansion::expand;
pub use fault::{MOST_BYTES, MOST_LEVELS, MOST_REPLACED, MOST_TOKENS, MacroFault};
