//! The checks, by what they check.
mod canonical;
mod command;
mod lexer;
mod macros;
mod names;
mod outside;
mod rows;
mod trees;
mod types;
mod words;
