//! The canonical text of a tree is a text again, with the same tree but for its positions: laws alone.
//!
//! What is shown of an expression is read back as the expression (`Expressions`), and so is what is shown of items, statements and a whole
//! tree (`Trees`). Its tokens hold no definitions of macros, so they expand to themselves (`Plain`), and there are no more of them than the
//! text has (`Shorter`). So where the tokens of a text are spelled right, its canonical text has a tree, the same but for positions
//! (`Texts`).
#![tactic(auto)]

pub mod laws;
