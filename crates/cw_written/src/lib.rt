//! The grammar's rules with their alternatives written out, and the law that they are the rules that are read.
#![tactic(auto)]

pub mod laws;
