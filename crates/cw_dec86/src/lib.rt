//! 8086 instruction decoder, inverse of the encoder.
#![tactic(auto)]

ghost use Rattle.std.specs.Prelude.{◌≡◌, List, ◌++◌, length, ℕ, Some};
ghost use Rattle.cw_i86.specs.Encoding.{bytes_of, IsInstr, BeginsWith};
ghost use Rattle.cw_i86.specs.declared.instr.Instr.{Instr};
ghost use Rattle.cw_dec86.specs.declared.Decoded.{Decoded};
ghost use Rattle.cw_dec86.specs.Decoding.{Reads};
ghost use Rattle.cw_dec86.specs.Rows.{instr_at};

mod rows;

use cw_i86::Instr;

/// What bytes are, read as an instruction from the first on.
#[derive(Clone, Copy)]
pub enum Decoded {
    /// They begin with this instruction, which has so many bytes: 1 to 7.
    Done { instr: Instr, length: u8 },
    /// They begin with no instruction, but some bytes that begin with these do.
    NeedMore,
    /// No bytes that begin with these begin with an instruction.
    Unknown,
}

/// Reads the instruction that the bytes begin with. What follows it is not looked at.
#[inline(always)]
pub fn decode(bytes: &[u8]) -> Decoded
    ensures reads { Reads bytes.now result }
    ensures done { (i : Instr) (rest : List ℕ) → IsInstr i → bytes.now ≡ bytes_of i ++ rest → result ≡ Decoded.Done i (length (bytes_of i)) }
{
    match rows::instr_at(bytes) {
        None => Decoded::Unknown,
        Some((instr, length)) => {
            if length <= bytes.len() {
                Decoded::Done {
                    instr,
                    length: length as u8,
                }
            } else {
                Decoded::NeedMore
            }
        }
    }
}

/// A law, and no work: bytes begin with at most one instruction.
/// So no two instructions have the same bytes, and none's bytes begin another's.
pub fn no_instruction_begins_another()
    ensures front { (bytes : List ℕ) (i j : Instr) → IsInstr i → IsInstr j → BeginsWith bytes i → BeginsWith bytes j → i ≡ j }
    ensures same { (i j : Instr) → IsInstr i → IsInstr j → bytes_of i ≡ bytes_of j → i ≡ j }
    ensures begins { (i j : Instr) → IsInstr i → IsInstr j → BeginsWith (bytes_of i) j → i ≡ j }
{}

/// A law, and no work: the rows read back each instruction from its bytes, whatever stands behind them.
pub fn rows_read_back()
    ensures { (i : Instr) (rest : List ℕ) → IsInstr i → instr_at (bytes_of i ++ rest) ≡ Some i }
{}
