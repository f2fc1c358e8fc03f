ghost use Rattle.std.specs.Prelude.{◌≡◌, ℕ, ◌+◌, ◌*◌, ◌/◌, ◌%◌, ◌^◌, ◌<◌, ◌≤◌};
ghost use Rattle.cw_i86.specs.declared.shift.ShiftOp.TheVariants.{Rol, Ror, Rcl, Rcr, Shl, Shr, Sar};
ghost use Rattle.cw_i86.specs.Shifts.{up, down, once, repeated, overflow_of_one, overflow_of, shifted_flags, shift_of, shift_flags};

use crate::sums::has_even_parity;
use cw_i86::{Flags, ShiftOp};

/// The number one place up, and the bit that went out.
fn up(half: u32, n: u32, low: bool) -> (u32, bool)
    requires some { 0 < half }
    requires half { half ≤ 2 ^ 15 }
    requires n { n < half + half }
    ensures state { result ≡ up half n low }
    ensures fits { result.0 < half + half }
{
    (2 * (n % half) + u32::from(low), n >= half)
}

/// The number one place down, and the bit that went out.
fn down(half: u32, n: u32, top: bool) -> (u32, bool)
    requires some { 0 < half }
    requires half { half ≤ 2 ^ 15 }
    requires n { n < half + half }
    ensures state { result ≡ down half n top }
    ensures fits { result.0 < half + half }
{
    (n / 2 + if top { half } else { 0 }, n % 2 == 1)
}

fn once(shift: ShiftOp, half: u32, n: u32, carry: bool) -> (u32, bool)
    requires some { 0 < half }
    requires half { half ≤ 2 ^ 15 }
    requires n { n < half + half }
    ensures state { result ≡ once shift half (n, carry) }
    ensures fits { result.0 < half + half }
{
    match shift {
        ShiftOp::Rol => up(half, n, n >= half),
        ShiftOp::Ror => down(half, n, n % 2 == 1),
        ShiftOp::Rcl => up(half, n, carry),
        ShiftOp::Rcr => down(half, n, carry),
        ShiftOp::Shl => up(half, n, false),
        ShiftOp::Shr => down(half, n, false),
        ShiftOp::Sar => down(half, n, n >= half),
    }
}

#[tactic(auto, using(crate::proofs::Repeats::more), unfolding(cw_i86::specs::Shifts::repeated))]
fn repeated(shift: ShiftOp, half: u32, n: u32, carry: bool, count: u8) -> (u32, bool)
    requires some { 0 < half }
    requires half { half ≤ 2 ^ 15 }
    requires n { n < half + half }
    ensures state { result ≡ repeated shift half count (n, carry) }
    ensures fits { result.0 < half + half }
{
    let mut state = (n, carry);
    for _ in 0..count {
        state = once(shift, half, state.0, state.1);
    }
    state
}

fn overflow_of_one(shift: ShiftOp, half: u32, a: u32, n: u32, carry: bool) -> bool
    requires some { 0 < half }
    requires half { half ≤ 2 ^ 15 }
    ensures { result ≡ overflow_of_one shift half a (n, carry) }
{
    let of_up = carry != (n >= half);
    let of_down = (n >= half) != (2 * (n % half) >= half);
    match shift {
        ShiftOp::Rol => of_up,
        ShiftOp::Rcl => of_up,
        ShiftOp::Shl => of_up,
        ShiftOp::Ror => of_down,
        ShiftOp::Rcr => of_down,
        ShiftOp::Shr => a >= half,
        ShiftOp::Sar => false,
    }
}

fn overflow(shift: ShiftOp, half: u32, a: u32, count: u8, n: u32, carry: bool, old: bool) -> bool
    requires some { 0 < half }
    requires half { half ≤ 2 ^ 15 }
    ensures { result ≡ overflow_of shift half a count (n, carry) old }
{
    if let ShiftOp::Sar = shift {
        return false;
    }
    if count == 1 {
        overflow_of_one(shift, half, a, n, carry)
    } else {
        old
    }
}

/// The number shifted or rotated by the count.
fn shift_by(shift: ShiftOp, half: u32, flags: Flags, a: u32, count: u8) -> (u32, Flags)
    requires some { 0 < half }
    requires half { half ≤ 2 ^ 15 }
    requires a { a < half + half }
    ensures value { result.0 ≡ shift_of shift half a count flags }
    ensures flags { result.1 ≡ shift_flags shift half a count flags }
    ensures fits { result.0 < half + half }
{
    let (n, cf) = repeated(shift, half, a, flags.cf, count);
    if count == 0 {
        return (n, flags);
    }
    let of = overflow(shift, half, a, count, n, cf, flags.of);
    match shift {
        ShiftOp::Rol | ShiftOp::Ror | ShiftOp::Rcl | ShiftOp::Rcr => (n, Flags { cf, of, ..flags }),
        ShiftOp::Shl | ShiftOp::Shr | ShiftOp::Sar => {
            let pf = has_even_parity(n);
            (
                n,
                Flags {
                    cf,
                    of,
                    pf,
                    zf: n == 0,
                    sf: n >= half,
                    ..flags
                },
            )
        }
    }
}

pub fn rol8(flags: Flags, a: u8, count: u8) -> (u8, Flags)
    ensures value { result.0 ≡ shift_of Rol (2 ^ 7) a count flags }
    ensures flags { result.1 ≡ shift_flags Rol (2 ^ 7) a count flags }
{
    let (n, new) = shift_by(ShiftOp::Rol, 0x80, flags, a.into(), count);
    (n as u8, new)
}

pub fn ror8(flags: Flags, a: u8, count: u8) -> (u8, Flags)
    ensures value { result.0 ≡ shift_of Ror (2 ^ 7) a count flags }
    ensures flags { result.1 ≡ shift_flags Ror (2 ^ 7) a count flags }
{
    let (n, new) = shift_by(ShiftOp::Ror, 0x80, flags, a.into(), count);
    (n as u8, new)
}

pub fn rcl8(flags: Flags, a: u8, count: u8) -> (u8, Flags)
    ensures value { result.0 ≡ shift_of Rcl (2 ^ 7) a count flags }
    ensures flags { result.1 ≡ shift_flags Rcl (2 ^ 7) a count flags }
{
    let (n, new) = shift_by(ShiftOp::Rcl, 0x80, flags, a.into(), count);
    (n as u8, new)
}

pub fn rcr8(flags: Flags, a: u8, count: u8) -> (u8, Flags)
    ensures value { result.0 ≡ shift_of Rcr (2 ^ 7) a count flags }
    ensures flags { result.1 ≡ shift_flags Rcr (2 ^ 7) a count flags }
{
    let (n, new) = shift_by(ShiftOp::Rcr, 0x80, flags, a.into(), count);
    (n as u8, new)
}

pub fn shl8(flags: Flags, a: u8, count: u8) -> (u8, Flags)
    ensures value { result.0 ≡ shift_of Shl (2 ^ 7) a count flags }
    ensures flags { result.1 ≡ shift_flags Shl (2 ^ 7) a count flags }
{
    let (n, new) = shift_by(ShiftOp::Shl, 0x80, flags, a.into(), count);
    (n as u8, new)
}

pub fn shr8(flags: Flags, a: u8, count: u8) -> (u8, Flags)
    ensures value { result.0 ≡ shift_of Shr (2 ^ 7) a count flags }
    ensures flags { result.1 ≡ shift_flags Shr (2 ^ 7) a count flags }
{
    let (n, new) = shift_by(ShiftOp::Shr, 0x80, flags, a.into(), count);
    (n as u8, new)
}

pub fn sar8(flags: Flags, a: u8, count: u8) -> (u8, Flags)
    ensures value { result.0 ≡ shift_of Sar (2 ^ 7) a count flags }
    ensures flags { result.1 ≡ shift_flags Sar (2 ^ 7) a count flags }
{
    let (n, new) = shift_by(ShiftOp::Sar, 0x80, flags, a.into(), count);
    (n as u8, new)
}

pub fn rol16(flags: Flags, a: u16, count: u8) -> (u16, Flags)
    ensures value { result.0 ≡ shift_of Rol (2 ^ 15) a count flags }
    ensures flags { result.1 ≡ shift_flags Rol (2 ^ 15) a count flags }
{
    let (n, new) = shift_by(ShiftOp::Rol, 0x8000, flags, a.into(), count);
    (n as u16, new)
}

pub fn ror16(flags: Flags, a: u16, count: u8) -> (u16, Flags)
    ensures value { result.0 ≡ shift_of Ror (2 ^ 15) a count flags }
    ensures flags { result.1 ≡ shift_flags Ror (2 ^ 15) a count flags }
{
    let (n, new) = shift_by(ShiftOp::Ror, 0x8000, flags, a.into(), count);
    (n as u16, new)
}

pub fn rcl16(flags: Flags, a: u16, count: u8) -> (u16, Flags)
    ensures value { result.0 ≡ shift_of Rcl (2 ^ 15) a count flags }
    ensures flags { result.1 ≡ shift_flags Rcl (2 ^ 15) a count flags }
{
    let (n, new) = shift_by(ShiftOp::Rcl, 0x8000, flags, a.into(), count);
    (n as u16, new)
}

pub fn rcr16(flags: Flags, a: u16, count: u8) -> (u16, Flags)
    ensures value { result.0 ≡ shift_of Rcr (2 ^ 15) a count flags }
    ensures flags { result.1 ≡ shift_flags Rcr (2 ^ 15) a count flags }
{
    let (n, new) = shift_by(ShiftOp::Rcr, 0x8000, flags, a.into(), count);
    (n as u16, new)
}

pub fn shl16(flags: Flags, a: u16, count: u8) -> (u16, Flags)
    ensures value { result.0 ≡ shift_of Shl (2 ^ 15) a count flags }
    ensures flags { result.1 ≡ shift_flags Shl (2 ^ 15) a count flags }
{
    let (n, new) = shift_by(ShiftOp::Shl, 0x8000, flags, a.into(), count);
    (n as u16, new)
}

pub fn shr16(flags: Flags, a: u16, count: u8) -> (u16, Flags)
    ensures value { result.0 ≡ shift_of Shr (2 ^ 15) a count flags }
    ensures flags { result.1 ≡ shift_flags Shr (2 ^ 15) a count flags }
{
    let (n, new) = shift_by(ShiftOp::Shr, 0x8000, flags, a.into(), count);
    (n as u16, new)
}

pub fn sar16(flags: Flags, a: u16, count: u8) -> (u16, Flags)
    ensures value { result.0 ≡ shift_of Sar (2 ^ 15) a count flags }
    ensures flags { result.1 ≡ shift_flags Sar (2 ^ 15) a count flags }
{
    let (n, new) = shift_by(ShiftOp::Sar, 0x8000, flags, a.into(), count);
    (n as u16, new)
}
