//! What operations make of words, as exact numbers, and of the bits of words.
use cw_order::Comparator;

/// The largest number that is not above x times 2^s.
pub fn floor_scaled(x: i64, s: i32) -> i64 {
    let places = s.unsigned_abs();
    if s < 0 {
        x.wrapping_shr(places)
    } else {
        x.wrapping_shl(places)
    }
}

/// x times 2^s over y, cut toward zero; none where y is 0.
pub fn trunc_scaled(x: i64, y: i64, s: i32) -> Option<i64> {
    let places = s.unsigned_abs();
    if s < 0 {
        x.checked_div(y.wrapping_shl(places))
    } else {
        x.wrapping_shl(places).checked_div(y)
    }
}

// The word whose low t bits are set.
fn low_bits(t: u8) -> u16 {
    if t > 15 {
        65_535
    } else {
        1_u16.wrapping_shl(u32::from(t)).wrapping_sub(1)
    }
}

/// The t bits of a word from bit b, without a sign.
pub fn bits_of(word: i16, t: u8, b: u8) -> u16 {
    word.cast_unsigned().wrapping_shr(u32::from(b)) & low_bits(t)
}

/// The same with the uppermost of them as sign.
pub fn signed_bits_of(word: i16, t: u8, b: u8) -> i16 {
    let value = bits_of(word, t, b);
    if value > low_bits(t) / 2 {
        (value | !low_bits(t)).cast_signed()
    } else {
        value.cast_signed()
    }
}

/// The word with the low t bits of a value from bit b on.
pub fn with_bits(word: i16, t: u8, b: u8, value: i16) -> i16 {
    let places = u32::from(b);
    let mask = low_bits(t).wrapping_shl(places);
    let old = word.cast_unsigned() & !mask;
    let new = value.cast_unsigned().wrapping_shl(places) & mask;
    (old | new).cast_signed()
}

/// Whether a comparison holds.
pub fn holds(comparator: Comparator, x: i16, y: i16) -> bool {
    match comparator {
        Comparator::Less => x < y,
        Comparator::LessEqual => x <= y,
        Comparator::Equal => x == y,
        Comparator::GreaterEqual => x >= y,
        Comparator::Greater => x > y,
        Comparator::Unequal => x != y,
    }
}

/// Whether the control variable of a loop is past its limit.
pub fn is_past(step: i16, variable: i16, limit: i16) -> bool {
    (step > 0 && variable > limit) || (step < 0 && variable < limit)
}
