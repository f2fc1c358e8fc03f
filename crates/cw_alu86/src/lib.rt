//! The arithmetic of the 8086, with its flags.
#![tactic(auto)]

mod numbered;
mod products;
mod shifts;
mod sums;

pub use cw_i86::{Flags, ShiftOp};
pub use numbered::{alu, alu8, alu16, holds, negative, shift, shift8, shift16, stepped};
pub use products::{div8, div16, idiv8, idiv16, imul8, imul16, mul8, mul16};
pub use shifts::{
    rcl8, rcl16, rcr8, rcr16, rol8, rol16, ror8, ror16, sar8, sar16, shl8, shl16, shr8, shr16,
};
pub use sums::{
    add8, add16, and8, and16, dec8, dec16, inc8, inc16, or8, or16, sub8, sub16, xor8, xor16,
};
