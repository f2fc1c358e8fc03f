//! Checks of what reads texts and words, each told by hand or by another hand: the base (words, and the outside in memory), tokens, expansion, trees and their
//! canonical text, names, types, and the words of the command.
#![tactic(auto)]

#[cfg(test)]
mod tests;
pub mod tree;
