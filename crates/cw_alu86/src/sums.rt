ghost use Rattle.std.specs.Prelude.{◌≡◌, ℕ, ◌+◌, ◌-◌, ◌*◌, ◌/◌, ◌%◌, ◌^◌, ◌<◌, ◌≤◌, pos, ◌≤ℤ◌, ◌<ℤ◌, ◌-ℤ◌, ◌+ℤ◌, negsuc, bit_and, bit_or, bit_xor, false};
ghost use Rattle.cw_i86.specs.Sums.{bit, has_even_parity, signed, overflows, sum_of, sum_flags, difference_of, difference_flags, keeping_carry, logic_flags};

use cw_i86::Flags;

#[tactic(auto, unfolding(cw_i86::specs::Sums::has_even_parity))]
pub(crate) fn has_even_parity(n: u32) -> bool
    ensures { result ≡ has_even_parity n }
{
    (n % 256).count_ones() % 2 == 0
}

/// The number in two's complement, where half is half of what the width holds.
#[tactic(auto, unfolding(cw_i86::specs::Sums::signed))]
pub(crate) fn signed(half: u32, a: u32) -> i32
    requires half { half ≤ 2 ^ 15 }
    requires a { a < half + half }
    ensures value { result ≡ signed half a }
    ensures low { negsuc 32767 ≤ℤ result }
    ensures high { result <ℤ pos 32768 }
{
    if a < half {
        a as i32
    } else {
        a as i32 - (half + half) as i32
    }
}

/// Whether the width has no such number in two's complement.
pub(crate) fn overflows(half: u32, exact: i32) -> bool
    requires half { half ≤ 2 ^ 30 }
    ensures { result ≡ overflows half exact }
{
    exact < -(half as i32) || half as i32 <= exact
}

fn sum_overflows(half: u32, a: u32, b: u32, carry: bool) -> bool
    requires half { half ≤ 2 ^ 15 }
    requires a { a < half + half }
    requires b { b < half + half }
    ensures { result ≡ overflows half (signed half a +ℤ signed half b +ℤ pos (bit carry)) }
{
    overflows(half, signed(half, a) + signed(half, b) + i32::from(carry))
}

fn difference_overflows(half: u32, a: u32, b: u32, borrow: bool) -> bool
    requires half { half ≤ 2 ^ 15 }
    requires a { a < half + half }
    requires b { b < half + half }
    ensures { result ≡ overflows half (signed half a -ℤ signed half b -ℤ pos (bit borrow)) }
{
    overflows(half, signed(half, a) - signed(half, b) - i32::from(borrow))
}

/// The sum of two numbers and a carry.
fn add(half: u32, a: u32, b: u32, carry: bool) -> (u32, Flags)
    requires some { 0 < half }
    requires half { half ≤ 2 ^ 15 }
    requires a { a < half + half }
    requires b { b < half + half }
    ensures value { result.0 ≡ sum_of half a b carry }
    ensures flags { result.1 ≡ sum_flags half a b carry }
    ensures fits { result.0 < half + half }
{
    let total = a + b + u32::from(carry);
    let sum = total % (half + half);
    let flags = Flags {
        cf: total >= half + half,
        pf: has_even_parity(sum),
        af: a % 16 + b % 16 + u32::from(carry) >= 16,
        zf: sum == 0,
        sf: sum >= half,
        of: sum_overflows(half, a, b, carry),
    };
    (sum, flags)
}

/// The first less the second and a borrow.
fn subtract(half: u32, a: u32, b: u32, borrow: bool) -> (u32, Flags)
    requires some { 0 < half }
    requires half { half ≤ 2 ^ 15 }
    requires a { a < half + half }
    requires b { b < half + half }
    ensures value { result.0 ≡ difference_of half a b borrow }
    ensures flags { result.1 ≡ difference_flags half a b borrow }
    ensures fits { result.0 < half + half }
{
    let taken = b + u32::from(borrow);
    let difference = (a + (half + half) - taken) % (half + half);
    let flags = Flags {
        cf: a < taken,
        pf: has_even_parity(difference),
        af: a % 16 < b % 16 + u32::from(borrow),
        zf: difference == 0,
        sf: difference >= half,
        of: difference_overflows(half, a, b, borrow),
    };
    (difference, flags)
}

/// The flags of AND, OR, XOR and TEST.
fn logic(half: u32, n: u32, flags: Flags) -> Flags
    ensures { result ≡ logic_flags half n flags }
{
    Flags {
        cf: false,
        pf: has_even_parity(n),
        zf: n == 0,
        sf: n >= half,
        of: false,
        ..flags
    }
}

/// The sum of two bytes and a carry.
pub fn add8(_flags: Flags, a: u8, b: u8, carry: bool) -> (u8, Flags)
    ensures value { result.0 ≡ sum_of (2 ^ 7) a b carry }
    ensures flags { result.1 ≡ sum_flags (2 ^ 7) a b carry }
{
    let (sum, flags) = add(0x80, a.into(), b.into(), carry);
    (sum as u8, flags)
}

/// The first of two bytes less the second and a borrow.
pub fn sub8(_flags: Flags, a: u8, b: u8, borrow: bool) -> (u8, Flags)
    ensures value { result.0 ≡ difference_of (2 ^ 7) a b borrow }
    ensures flags { result.1 ≡ difference_flags (2 ^ 7) a b borrow }
{
    let (difference, flags) = subtract(0x80, a.into(), b.into(), borrow);
    (difference as u8, flags)
}

pub fn inc8(flags: Flags, a: u8) -> (u8, Flags)
    ensures value { result.0 ≡ sum_of (2 ^ 7) a 1 false }
    ensures flags { result.1 ≡ keeping_carry flags (sum_flags (2 ^ 7) a 1 false) }
{
    let (sum, new) = add8(flags, a, 1, false);
    (
        sum,
        Flags {
            cf: flags.cf,
            ..new
        },
    )
}

pub fn dec8(flags: Flags, a: u8) -> (u8, Flags)
    ensures value { result.0 ≡ difference_of (2 ^ 7) a 1 false }
    ensures flags { result.1 ≡ keeping_carry flags (difference_flags (2 ^ 7) a 1 false) }
{
    let (difference, new) = sub8(flags, a, 1, false);
    (
        difference,
        Flags {
            cf: flags.cf,
            ..new
        },
    )
}

pub fn and8(flags: Flags, a: u8, b: u8) -> (u8, Flags)
    ensures value { result.0 ≡ bit_and a b }
    ensures flags { result.1 ≡ logic_flags (2 ^ 7) (bit_and a b) flags }
{
    let n = a & b;
    (n, logic(0x80, n.into(), flags))
}

pub fn or8(flags: Flags, a: u8, b: u8) -> (u8, Flags)
    ensures value { result.0 ≡ bit_or a b }
    ensures flags { result.1 ≡ logic_flags (2 ^ 7) (bit_or a b) flags }
{
    let n = a | b;
    (n, logic(0x80, n.into(), flags))
}

pub fn xor8(flags: Flags, a: u8, b: u8) -> (u8, Flags)
    ensures value { result.0 ≡ bit_xor a b }
    ensures flags { result.1 ≡ logic_flags (2 ^ 7) (bit_xor a b) flags }
{
    let n = a ^ b;
    (n, logic(0x80, n.into(), flags))
}

/// The sum of two words and a carry.
pub fn add16(_flags: Flags, a: u16, b: u16, carry: bool) -> (u16, Flags)
    ensures value { result.0 ≡ sum_of (2 ^ 15) a b carry }
    ensures flags { result.1 ≡ sum_flags (2 ^ 15) a b carry }
{
    let (sum, flags) = add(0x8000, a.into(), b.into(), carry);
    (sum as u16, flags)
}

/// The first of two words less the second and a borrow.
pub fn sub16(_flags: Flags, a: u16, b: u16, borrow: bool) -> (u16, Flags)
    ensures value { result.0 ≡ difference_of (2 ^ 15) a b borrow }
    ensures flags { result.1 ≡ difference_flags (2 ^ 15) a b borrow }
{
    let (difference, flags) = subtract(0x8000, a.into(), b.into(), borrow);
    (difference as u16, flags)
}

pub fn inc16(flags: Flags, a: u16) -> (u16, Flags)
    ensures value { result.0 ≡ sum_of (2 ^ 15) a 1 false }
    ensures flags { result.1 ≡ keeping_carry flags (sum_flags (2 ^ 15) a 1 false) }
{
    let (sum, new) = add16(flags, a, 1, false);
    (
        sum,
        Flags {
            cf: flags.cf,
            ..new
        },
    )
}

pub fn dec16(flags: Flags, a: u16) -> (u16, Flags)
    ensures value { result.0 ≡ difference_of (2 ^ 15) a 1 false }
    ensures flags { result.1 ≡ keeping_carry flags (difference_flags (2 ^ 15) a 1 false) }
{
    let (difference, new) = sub16(flags, a, 1, false);
    (
        difference,
        Flags {
            cf: flags.cf,
            ..new
        },
    )
}

pub fn and16(flags: Flags, a: u16, b: u16) -> (u16, Flags)
    ensures value { result.0 ≡ bit_and a b }
    ensures flags { result.1 ≡ logic_flags (2 ^ 15) (bit_and a b) flags }
{
    let n = a & b;
    (n, logic(0x8000, n.into(), flags))
}

pub fn or16(flags: Flags, a: u16, b: u16) -> (u16, Flags)
    ensures value { result.0 ≡ bit_or a b }
    ensures flags { result.1 ≡ logic_flags (2 ^ 15) (bit_or a b) flags }
{
    let n = a | b;
    (n, logic(0x8000, n.into(), flags))
}

pub fn xor16(flags: Flags, a: u16, b: u16) -> (u16, Flags)
    ensures value { result.0 ≡ bit_xor a b }
    ensures flags { result.1 ≡ logic_flags (2 ^ 15) (bit_xor a b) flags }
{
    let n = a ^ b;
    (n, logic(0x8000, n.into(), flags))
}
