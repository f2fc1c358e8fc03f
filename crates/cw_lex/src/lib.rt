//! Lexer: tokens as slices of the source text.
#![tactic(auto)]

mod item;
pub mod laws;
mod lexing;
mod piece;
mod token;

pub use lexing::{lex, lex_body};
pub use token::{Form, LexFault, Problem, Symbol, Token, TokenKind, WORDS, Word};
