//! What a text says about names, and which words it asks for.
//!
//! The facts of each block are gathered from the tree, in order of the text. Names and storage are judged by them alone.
#![tactic(auto)]

pub mod boxed;
pub mod declarations;
pub mod expressions;
pub mod fact;
pub mod signatures;
pub mod statements;
pub mod text;
