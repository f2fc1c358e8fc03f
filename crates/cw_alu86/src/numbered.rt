// Operations by the numbers that instructions hold.
ghost use Rattle.std.specs.Prelude.{◌≡◌, ◌<◌, ◌^◌, if◌then◌else◌, true, false};
ghost use Rattle.cw_i86.specs.Sums.{sum_of, difference_of, sum_flags, difference_flags, keeping_carry};
ghost use Rattle.cw_i86.specs.Shifts.{shift_of, shift_flags};
ghost use Rattle.cw_i86.specs.State.{half_of, limit_of};
ghost use Rattle.cw_i86.specs.Effect.{alu_value, alu_flags, shift_named, holds};

use crate::shifts::{
    rcl8, rcl16, rcr8, rcr16, rol8, rol16, ror8, ror16, sar8, sar16, shl8, shl16, shr8, shr16,
};
use crate::sums::{
    add8, add16, and8, and16, dec8, dec16, inc8, inc16, or8, or16, sub8, sub16, xor8, xor16,
};
use cw_i86::Flags;

/// ADD OR ADC SBB AND SUB XOR CMP of two bytes, by number from 0. CMP gives the difference too.
#[tactic(auto, unfolding(cw_i86::specs::Effect::alu_value, cw_i86::specs::Effect::alu_flags))]
pub fn alu8(op: u8, flags: Flags, a: u8, b: u8) -> (u8, Flags)
    ensures value { result.0 ≡ alu_value op (2 ^ 7) a b flags.cf }
    ensures flags { result.1 ≡ alu_flags op (2 ^ 7) a b flags }
{
    match op {
        0 => add8(flags, a, b, false),
        1 => or8(flags, a, b),
        2 => add8(flags, a, b, flags.cf),
        3 => sub8(flags, a, b, flags.cf),
        4 => and8(flags, a, b),
        6 => xor8(flags, a, b),
        _ => sub8(flags, a, b, false),
    }
}

/// The same of two words.
#[inline(always)]
#[tactic(auto, unfolding(cw_i86::specs::Effect::alu_value, cw_i86::specs::Effect::alu_flags))]
pub fn alu16(op: u8, flags: Flags, a: u16, b: u16) -> (u16, Flags)
    ensures value { result.0 ≡ alu_value op (2 ^ 15) a b flags.cf }
    ensures flags { result.1 ≡ alu_flags op (2 ^ 15) a b flags }
{
    match op {
        0 => add16(flags, a, b, false),
        1 => or16(flags, a, b),
        2 => add16(flags, a, b, flags.cf),
        3 => sub16(flags, a, b, flags.cf),
        4 => and16(flags, a, b),
        6 => xor16(flags, a, b),
        _ => sub16(flags, a, b, false),
    }
}

/// The same of two words, or of two bytes.
pub fn alu(op: u8, wide: bool, flags: Flags, a: u16, b: u16) -> (u16, Flags)
    requires a { a < limit_of wide }
    requires b { b < limit_of wide }
    ensures value { result.0 ≡ alu_value op (half_of wide) a b flags.cf }
    ensures flags { result.1 ≡ alu_flags op (half_of wide) a b flags }
    ensures fits { result.0 < limit_of wide }
{
    if wide {
        alu16(op, flags, a, b)
    } else {
        let (value, new) = alu8(op, flags, a as u8, b as u8);
        (u16::from(value), new)
    }
}

/// ROL ROR RCL RCR SHL SHR and SAR of a byte, by number from 0 to 5 and from 6 on, as often as the count says.
pub fn shift8(op: u8, flags: Flags, a: u8, count: u8) -> (u8, Flags)
    ensures value { result.0 ≡ shift_of (shift_named op) (2 ^ 7) a count flags }
    ensures flags { result.1 ≡ shift_flags (shift_named op) (2 ^ 7) a count flags }
{
    match op {
        0 => rol8(flags, a, count),
        1 => ror8(flags, a, count),
        2 => rcl8(flags, a, count),
        3 => rcr8(flags, a, count),
        4 => shl8(flags, a, count),
        5 => shr8(flags, a, count),
        _ => sar8(flags, a, count),
    }
}

/// The same of a word.
pub fn shift16(op: u8, flags: Flags, a: u16, count: u8) -> (u16, Flags)
    ensures value { result.0 ≡ shift_of (shift_named op) (2 ^ 15) a count flags }
    ensures flags { result.1 ≡ shift_flags (shift_named op) (2 ^ 15) a count flags }
{
    match op {
        0 => rol16(flags, a, count),
        1 => ror16(flags, a, count),
        2 => rcl16(flags, a, count),
        3 => rcr16(flags, a, count),
        4 => shl16(flags, a, count),
        5 => shr16(flags, a, count),
        _ => sar16(flags, a, count),
    }
}

/// The same of a word, or of a byte.
pub fn shift(op: u8, wide: bool, flags: Flags, a: u16, count: u8) -> (u16, Flags)
    requires a { a < limit_of wide }
    ensures value { result.0 ≡ shift_of (shift_named op) (half_of wide) a count flags }
    ensures flags { result.1 ≡ shift_flags (shift_named op) (half_of wide) a count flags }
    ensures fits { result.0 < limit_of wide }
{
    if wide {
        shift16(op, flags, a, count)
    } else {
        let (value, new) = shift8(op, flags, a as u8, count);
        (u16::from(value), new)
    }
}

/// Whether a condition holds: O B Z BE S P L LE, by number, each before its opposite.
#[tactic(auto, unfolding(cw_i86::specs::Effect::holds))]
pub fn holds(f: Flags, cond: u8) -> bool
    ensures { result ≡ holds f cond }
{
    let is = match cond / 2 {
        0 => f.of,
        1 => f.cf,
        2 => f.zf,
        3 => f.cf || f.zf,
        4 => f.sf,
        5 => f.pf,
        6 => f.sf != f.of,
        _ => f.zf || f.sf != f.of,
    };
    if cond % 2 == 0 { is } else { !is }
}

/// INC or DEC of a word, or of a byte.
pub fn stepped(down: bool, wide: bool, flags: Flags, a: u16) -> (u16, Flags)
    requires { a < limit_of wide }
    ensures value { result.0 ≡ (if down then difference_of (half_of wide) a 1 false else sum_of (half_of wide) a 1 false) }
    ensures flags { result.1 ≡ keeping_carry flags (if down then difference_flags (half_of wide) a 1 false else sum_flags (half_of wide) a 1 false) }
    ensures fits { result.0 < limit_of wide }
{
    match (down, wide) {
        (false, true) => inc16(flags, a),
        (true, true) => dec16(flags, a),
        (false, false) => {
            let (value, new) = inc8(flags, a as u8);
            (u16::from(value), new)
        }
        (true, false) => {
            let (value, new) = dec8(flags, a as u8);
            (u16::from(value), new)
        }
    }
}

/// NEG of a word, or of a byte.
pub fn negative(wide: bool, flags: Flags, a: u16) -> (u16, Flags)
    requires { a < limit_of wide }
    ensures value { result.0 ≡ difference_of (half_of wide) 0 a false }
    ensures flags { result.1 ≡ difference_flags (half_of wide) 0 a false }
    ensures fits { result.0 < limit_of wide }
{
    if wide {
        sub16(flags, 0, a, false)
    } else {
        let (value, new) = sub8(flags, 0, a as u8, false);
        (u16::from(value), new)
    }
}
