//! What each instruction of compiled code does, stated once for every operand: a register, or a word of the data, the stack or the code.
#![tactic(auto)]

pub mod laws;
