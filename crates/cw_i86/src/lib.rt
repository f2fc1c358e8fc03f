//! 8086 instructions, machine state, encodings and effects (definitions).
#![tactic(auto)]

mod flags;
mod instr;
mod shift;

pub use flags::Flags;
pub use instr::{Imm, Instr, Mem, Place, Rm};
pub use shift::ShiftOp;
