//! Whole numbers, octal ones, and signs before them.
ghost use Rattle.std.specs.Prelude.{◌≡◌, ◌≤◌, ◌<◌, ◌^◌, IfSome};
ghost use Rattle.cw_amount.specs.Amounts.{octal_value, all_octal, octal, whole, int_amount, is_negative, with_sign, sint_amount};
ghost use Rattle.cw_amount.specs.Amounts.{octal_word, place_amount, place_sint, number_position, int_position};

use cw_tree::leaf::{AddOp, Position, RawInt, RawSign, RawSint};
use cw_word::Num;

// Decimal digits read as octal ones.
fn octal_value(digits: u8, number: u64) -> u64
    ensures value { result ≡ octal_value digits number }
    ensures not_above { result ≤ number }
{
    if digits == 0 {
        return 0;
    }
    octal_value(digits - 1, number / 10) * 8 + number % 10
}

fn all_octal(digits: u8, number: u64) -> bool
    ensures { result ≡ all_octal digits number }
{
    if digits == 0 {
        return true;
    }
    number % 10 < 8 && all_octal(digits - 1, number / 10)
}

/// The number for which the digits of an OCTAL stand.
pub fn octal(number: &Num) -> Option<u64>
    ensures value { result ≡ octal number.now }
    ensures fits { IfSome result (λ n. n < 10 ^ 12) }
{
    if number.places() == 0 && all_octal(12, number.whole()) {
        Some(octal_value(12, number.whole()))
    } else {
        None
    }
}

fn whole(number: &Num) -> Option<u64>
    ensures value { result ≡ whole number.now }
    ensures fits { IfSome result (λ n. n < 10 ^ 12) }
{
    if number.places() == 0 {
        Some(number.whole())
    } else {
        None
    }
}

/// What a number amounts to, where it is whole.
pub fn int_amount(number: &RawInt) -> Option<u64>
    ensures value { result ≡ int_amount number.now }
    ensures fits { IfSome result (λ n. n < 10 ^ 12) }
{
    match number {
        RawInt::Number(n) => whole(&n.number),
        RawInt::Octal(n) => octal(&n.number.number),
    }
}

/// Whether a sign is a minus.
pub fn is_negative(sign: &Option<RawSign>) -> bool
    ensures { result ≡ is_negative sign.now }
{
    match sign {
        None => false,
        Some(sign) => sign.op == AddOp::Minus,
    }
}

fn with_sign(negative: bool, size: u64) -> i64
    requires fits { size < 10 ^ 12 }
    ensures { result ≡ with_sign negative size }
{
    let size = size as i64;
    if negative { -size } else { size }
}

/// What a number with a sign amounts to, where it is whole.
pub fn sint_amount(number: &RawSint) -> Option<i64>
    ensures value { result ≡ sint_amount number.now }
{
    match int_amount(&number.value) {
        None => None,
        Some(size) => Some(with_sign(is_negative(&number.sign), size)),
    }
}

/// The word for which the digits of an OCTAL stand.
pub fn octal_word(number: &Num) -> Option<u64>
    ensures value { result ≡ octal_word number.now }
    ensures fits { IfSome result (λ n. n ≤ 65535) }
{
    match octal(number) {
        Some(n) if n <= 65535 => Some(n),
        _ => None,
    }
}

/// What a number amounts to where an int stands.
pub fn place_amount(number: &RawInt) -> Option<u64>
    ensures value { result ≡ place_amount number.now }
    ensures fits { IfSome result (λ n. n < 10 ^ 12) }
{
    match number {
        RawInt::Number(n) => whole(&n.number),
        RawInt::Octal(n) => octal_word(&n.number.number),
    }
}

/// What a number with a sign amounts to where an int stands.
pub fn place_sint(number: &RawSint) -> Option<i64>
    ensures value { result ≡ place_sint number.now }
{
    match place_amount(&number.value) {
        None => None,
        Some(size) => Some(with_sign(is_negative(&number.sign), size)),
    }
}

/// Where the number itself stands, which of an OCTAL is inside.
pub fn number_position(number: &RawInt) -> Position
    ensures { result ≡ number_position number.now }
{
    match number {
        RawInt::Number(n) => n.at,
        RawInt::Octal(n) => n.number.at,
    }
}

pub fn int_position(number: &RawInt) -> Position
    ensures { result ≡ int_position number.now }
{
    match number {
        RawInt::Number(n) => n.at,
        RawInt::Octal(n) => n.at,
    }
}
