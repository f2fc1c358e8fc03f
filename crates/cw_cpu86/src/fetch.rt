// The instruction at a place.
ghost use Rattle.std.specs.Prelude.{◌≡◌, ◌+◌, ◌^◌, ℕ, length, IfSome, Some, ◌++◌, List};
ghost use Rattle.cw_i86.specs.Encoding.{bytes_of, IsInstr, BeginsWith};
ghost use Rattle.cw_i86.specs.declared.instr.Instr.{Instr};
ghost use Rattle.cw_i86.specs.State.{window};

use crate::memory::{address, read_byte};
use cw_dec86::{Decoded, decode};
use cw_i86::Instr;

// The instruction that stands at a place, and how many bytes it has.
#[inline(always)]
pub(crate) fn fetch(memory: &[u8], segment: u16, offset: u16) -> Option<(Instr, u8)>
    requires { length memory.now ≡ 2 ^ 20 }
    ensures found { IfSome result (λ f. IsInstr f.0 × BeginsWith (window 7 memory.now segment offset) f.0 × (f.1 ≡ length (bytes_of f.0))) }
    ensures again { (i : Instr) (rest : List ℕ) → IsInstr i → window 7 memory.now segment offset ≡ bytes_of i ++ rest → result ≡ Some (i, length (bytes_of i)) }
{
    let mut bytes = [0; 7];
    load(memory, segment, offset, &mut bytes);
    match decode(&bytes) {
        Decoded::Done { instr, length } => Some((instr, length)),
        Decoded::NeedMore | Decoded::Unknown => None,
    }
}

#[inline(always)]
fn load(memory: &[u8], segment: u16, offset: u16, bytes: &mut [u8; 7])
    requires { length memory.now ≡ 2 ^ 20 }
    ensures { bytes.new ≡ window 7 memory.now segment offset }
{
    let at = address(segment, offset);
    if offset < 0xFFF9 && at < 0xF_FFF9 {
        bytes.copy_from_slice(&memory[at..at + 7]);
    } else {
        *bytes = wrapped_bytes(memory, segment, offset);
    }
}

// The bytes from a place near the end of the segment or of memory.
#[inline(never)]
#[tactic(auto, unfolding(cw_i86::specs::State::window))]
fn wrapped_bytes(memory: &[u8], segment: u16, offset: u16) -> [u8; 7]
    requires { length memory.now ≡ 2 ^ 20 }
    ensures { result ≡ window 7 memory.now segment offset }
{
    [
        read_byte(memory, segment, offset),
        read_byte(memory, segment, offset.wrapping_add(1)),
        read_byte(memory, segment, offset.wrapping_add(2)),
        read_byte(memory, segment, offset.wrapping_add(3)),
        read_byte(memory, segment, offset.wrapping_add(4)),
        read_byte(memory, segment, offset.wrapping_add(5)),
        read_byte(memory, segment, offset.wrapping_add(6)),
    ]
}
