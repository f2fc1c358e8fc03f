//! Syntax trees of segments.
//!
//! A tree holds what its canonical text holds. Each rule of the grammar has one type. A choice is an enum, and a part that
//! may be left out, where it is one of a list or of a few forms, is the list without items or a form of its own. What the
//! canonical text leaves out or makes equal is not there: the name behind END, brackets of preset lists, brackets that an
//! operand does not need.
//!
//! A name, a number, an operator and a word or bracket that begins a part have their position, that of their first token.
//! So the position of a part is that of the first thing in it that has one.
#![tactic(auto)]

pub mod expression;
pub mod items;
pub mod leaf;
pub mod segment;
pub mod statement;
