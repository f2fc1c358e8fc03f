//! The text of instructions of the 8086 in NASM's syntax.
#![tactic(auto)]

mod names;
mod operation;
mod text;

pub use operation::{Operand, Width, named_place};
pub use text::{
    add, add_by_bytes, add_bytes, add_decimal, add_four_hex, add_instruction, add_label,
    add_two_hex,
};
