ghost use Rattle.std.specs.Prelude.{◌≡◌, ℕ, ◌+◌, ◌*◌, ◌/◌, ◌%◌, ◌^◌, ◌<◌, ◌≤◌, nat_le};
ghost use Rattle.std.specs.Prelude.{ℤ, ◌≢◌, pos, negsuc, neg_ℤ, ◌*ℤ◌, ◌≤ℤ◌, ◌<ℤ◌, unsigned_abs, IfSome, int_rem, int_div};
ghost use Rattle.std.specs.Int.{w8, w16, w32, cast_signed, cast_unsigned};
ghost use Rattle.cw_i86.specs.Sums.{overflows};
ghost use Rattle.cw_i86.specs.Products.{product_flags, quotient_of, truncated, signed_quotient_of};

use crate::sums::overflows;
use cw_i86::Flags;

/// The product of two bytes. The carry and the overflow tell that it is no byte.
pub fn mul8(flags: Flags, a: u8, b: u8) -> (u16, Flags)
    ensures value { result.0 ≡ a * b }
    ensures flags { result.1 ≡ product_flags (nat_le (2 ^ 8) (a * b)) flags }
{
    let product = u16::from(a) * u16::from(b);
    let wide = product >= 0x100;
    (
        product,
        Flags {
            cf: wide,
            of: wide,
            ..flags
        },
    )
}

/// The product of two words. The carry and the overflow tell that it is no word.
pub fn mul16(flags: Flags, a: u16, b: u16) -> (u32, Flags)
    ensures value { result.0 ≡ a * b }
    ensures flags { result.1 ≡ product_flags (nat_le (2 ^ 16) (a * b)) flags }
{
    let product = u32::from(a) * u32::from(b);
    let wide = product >= 0x1_0000;
    (
        product,
        Flags {
            cf: wide,
            of: wide,
            ..flags
        },
    )
}

fn quotient(half: u32, a: u32, b: u32) -> Option<(u32, u32)>
    requires { half ≤ 2 ^ 15 }
    ensures { result ≡ quotient_of half a b }
{
    if b == 0 {
        return None;
    }
    if a / b < half + half {
        Some((a / b, a % b))
    } else {
        None
    }
}

/// The product of two signed words.
fn signed_product(a: i32, b: i32) -> i32
    requires a { unsigned_abs a ≤ 32768 }
    requires b { unsigned_abs b ≤ 32768 }
    ensures { result ≡ a *ℤ b }
{
    a * b
}

/// The product of two signed bytes.
fn signed_byte_product(a: i16, b: i16) -> i16
    requires a { unsigned_abs a ≤ 128 }
    requires b { unsigned_abs b ≤ 128 }
    ensures { result ≡ a *ℤ b }
{
    a * b
}

/// The signed product of two bytes. The carry and the overflow tell that it is no signed byte.
pub fn imul8(flags: Flags, a: u8, b: u8) -> (u16, Flags)
    ensures value { result.0 ≡ cast_unsigned w16 (cast_signed w8 a *ℤ cast_signed w8 b) }
    ensures flags { result.1 ≡ product_flags (overflows (2 ^ 7) (cast_signed w8 a *ℤ cast_signed w8 b)) flags }
{
    let product = signed_byte_product(a.cast_signed().into(), b.cast_signed().into());
    let wide = overflows(0x80, product.into());
    (
        product.cast_unsigned(),
        Flags {
            cf: wide,
            of: wide,
            ..flags
        },
    )
}

/// The signed product of two words. The carry and the overflow tell that it is no signed word.
pub fn imul16(flags: Flags, a: u16, b: u16) -> (u32, Flags)
    ensures value { result.0 ≡ cast_unsigned w32 (cast_signed w16 a *ℤ cast_signed w16 b) }
    ensures flags { result.1 ≡ product_flags (overflows (2 ^ 15) (cast_signed w16 a *ℤ cast_signed w16 b)) flags }
{
    let product = signed_product(a.cast_signed().into(), b.cast_signed().into());
    let wide = overflows(0x8000, product);
    (
        product.cast_unsigned(),
        Flags {
            cf: wide,
            of: wide,
            ..flags
        },
    )
}

/// Quotient and remainder of a word by a byte, where the quotient is a byte.
pub fn div8(a: u16, b: u8) -> Option<(u8, u8)>
    ensures { result ≡ quotient_of (2 ^ 7) a b }
{
    let (quotient, remainder) = quotient(0x80, a.into(), b.into())?;
    Some((quotient as u8, remainder as u8))
}

/// Quotient and remainder of a double word by a word, where the quotient is a word.
pub fn div16(a: u32, b: u16) -> Option<(u16, u16)>
    ensures { result ≡ quotient_of (2 ^ 15) a b }
{
    let (quotient, remainder) = quotient(0x8000, a, b.into())?;
    Some((quotient as u16, remainder as u16))
}

/// The truncated quotient and the remainder.
fn divide(a: i64, b: i64) -> (i64, i64)
    requires a { unsigned_abs a ≤ 2 ^ 31 }
    requires b { unsigned_abs b ≤ 2 ^ 15 }
    requires divisor { b ≢ pos 0 }
    ensures quotient { result.0 ≡ int_div a b }
    ensures remainder { result.1 ≡ int_rem a b }
{
    (a / b, a % b)
}

/// Quotient and remainder, where the quotient is between -half and half.
#[tactic(auto, using(std::proofs::lemmas::Int::rem_below))]
fn truncated(half: u32, a: i64, b: i64) -> Option<(i64, i64)>
    requires half { half ≤ 2 ^ 15 }
    requires a { unsigned_abs a ≤ 2 ^ 31 }
    requires b { unsigned_abs b ≤ 2 ^ 15 }
    ensures value { result ≡ truncated half a b }
    ensures quotient { IfSome result (λ found. unsigned_abs found.0 < half) }
    ensures remainder { IfSome result (λ found. unsigned_abs found.1 < unsigned_abs b) }
{
    if b == 0 {
        return None;
    }
    let (quotient, remainder) = divide(a, b);
    if quotient.unsigned_abs() < half.into() {
        Some((quotient, remainder))
    } else {
        None
    }
}

/// Quotient and remainder of a signed word by a signed byte, where the quotient is from -127 to 127.
pub fn idiv8(a: u16, b: u8) -> Option<(u8, u8)>
    ensures { result ≡ signed_quotient_of w16 w8 (2 ^ 7) a b }
{
    let (quotient, remainder) = truncated(0x80, a.cast_signed().into(), b.cast_signed().into())?;
    Some((
        (quotient as i8).cast_unsigned(),
        (remainder as i8).cast_unsigned(),
    ))
}

/// Quotient and remainder of a signed double word by a signed word, where the quotient is from -32,767 to 32,767.
pub fn idiv16(a: u32, b: u16) -> Option<(u16, u16)>
    ensures { result ≡ signed_quotient_of w32 w16 (2 ^ 15) a b }
{
    let (quotient, remainder) = truncated(0x8000, a.cast_signed().into(), b.cast_signed().into())?;
    Some((
        (quotient as i16).cast_unsigned(),
        (remainder as i16).cast_unsigned(),
    ))
}
