//! What is known before a run: values of numbers alone, and words of items that such indexes name.
ghost use Rattle.std.specs.Prelude.{◌≡◌, ◌≢◌, ◌≤ℤ◌, pos, negsuc};
ghost use Rattle.cw_word.specs.FixedPoint.{scaled_quotient};
ghost use Rattle.cw_gen_expr.specs.KnownValues.{of_known, of_both, fitted, known_sum, known_difference, known_negative, known_rescaled, known_product, known_quotient};
ghost use Rattle.cw_gen_expr.specs.KnownValues.{known_logic, known_bits, word_inside, from_lower, element_word, element_of_two_word, entry_word};
ghost use Rattle.cw_gen_expr.specs.KnownValues as known;

use cw_unit::unit::LogicOp;
use cw_word::{difference, negate, product, quotient, rescale, sum, take_bits};

pub fn sum_of(x: Option<i16>, y: Option<i16>) -> Option<i16>
    ensures { result ≡ of_both known_sum x y }
{
    sum(x?, y?).ok()
}

pub fn difference_of(x: Option<i16>, y: Option<i16>) -> Option<i16>
    ensures { result ≡ of_both known_difference x y }
{
    difference(x?, y?).ok()
}

pub fn negative_of(x: Option<i16>) -> Option<i16>
    ensures { result ≡ of_known known_negative x }
{
    negate(x?).ok()
}

pub fn rescaled_to(x: Option<i16>, from: u8, to: u8) -> Option<i16>
    ensures { result ≡ of_known (known_rescaled from to) x }
{
    let x = x?;
    if from <= 15 && to <= 15 {
        rescale(x, from, to).ok()
    } else {
        None
    }
}

/// A product times a power of two, which is -30 to 15 where the scales are those of a unit.
pub fn product_of(x: Option<i16>, y: Option<i16>, power: i8) -> Option<i16>
    ensures { result ≡ of_both (known_product power) x y }
{
    let (x, y) = (x?, y?);
    if -30 <= power && power <= 15 {
        product(x, y, power).ok()
    } else {
        None
    }
}

fn divided(x: i16, y: i16, power: i8) -> Option<i16>
    requires divisor { y ≢ pos 0 }
    requires low { negsuc 14 ≤ℤ power }
    requires high { power ≤ℤ pos 16 }
    ensures { result ≡ fitted (scaled_quotient x y power) }
{
    match quotient(x, y, power) {
        Ok(word) => Some(word),
        Err(_) => None,
    }
}

/// A quotient times a power of two, which is -15 to 16 where the scales are those of a unit; none by 0.
#[tactic(auto, using(crate::proofs::Quotients::quotients))]
pub fn quotient_of(x: Option<i16>, y: Option<i16>, power: i8) -> Option<i16>
    ensures { result ≡ of_both (known_quotient power) x y }
{
    let (x, y) = (x?, y?);
    if y != 0 && -15 <= power && power <= 16 {
        divided(x, y, power)
    } else {
        None
    }
}

pub fn combined(op: LogicOp, x: Option<i16>, y: Option<i16>) -> Option<i16>
    ensures { result ≡ of_both (known_logic op) x y }
{
    let (x, y) = (x?.cast_unsigned(), y?.cast_unsigned());
    let word = match op {
        LogicOp::Mask => x & y,
        LogicOp::Union => x | y,
        LogicOp::Differ => x ^ y,
    };
    Some(word.cast_signed())
}

pub fn bits_of(x: Option<i16>, t: u8, b: u8) -> Option<i16>
    ensures { result ≡ of_known (known_bits t b) x }
{
    let x = x?;
    if t >= 1 && t <= 16 && b <= 16 - t {
        Some(take_bits(x.cast_unsigned(), t, b).cast_signed())
    } else {
        None
    }
}

/// A word of the first so many.
fn inside(span: u16, word: u64) -> Option<u16>
    ensures { result ≡ word_inside span word }
{
    if word < u64::from(span) {
        Some(word as u16)
    } else {
        None
    }
}

/// Whether an index is between its bounds, or is not compared with them.
fn in_bounds(compared: bool, lower: i64, upper: i64, index: i64) -> bool
    ensures { result ≡ known.in_bounds compared lower upper index }
{
    !compared || (lower <= index && index <= upper)
}

/// How far an index is above its lower bound; none where it is below it, or is compared with its bounds and is outside.
pub fn above(compared: bool, lower: i16, upper: i64, index: Option<i16>) -> Option<u16>
    ensures { result ≡ from_lower compared lower upper index }
{
    let index = i64::from(index?);
    let lower = i64::from(lower);
    if in_bounds(compared, lower, upper, index) {
        u16::try_from(index - lower).ok()
    } else {
        None
    }
}

/// The word of an array's element.
pub fn word_of_element(span: u16, index: Option<u16>) -> Option<u16>
    ensures { result ≡ element_word span index }
{
    inside(span, u64::from(index?))
}

/// The word of an element of an array of two dimensions.
pub fn word_of_two(span: u16, width: u16, row: Option<u16>, column: Option<u16>) -> Option<u16>
    ensures { result ≡ element_of_two_word span width row column }
{
    let row = inside(32_768, u64::from(row?))?;
    let column = column?;
    inside(span, u64::from(row) * u64::from(width) + u64::from(column))
}

/// Whether two indexes are compared with bounds between which all words are known to be in the data area.
pub fn all_inside(
    compared: bool,
    span: u16,
    lower: i16,
    upper: i16,
    second: i16,
    last: i16,
    width: u16,
) -> bool
    ensures { result ≡ known.all_inside compared span lower upper second last width }
{
    let row = above(true, lower, i64::from(upper), Some(upper));
    let column = above(true, second, i64::from(last), Some(last));
    compared && word_of_two(span, width, row, column).is_some()
}

/// The word of a table's entry.
pub fn word_of_entry(span: u16, width: u16, word: u16, entry: Option<u16>) -> Option<u16>
    ensures { result ≡ entry_word span width word entry }
{
    inside(span, u64::from(entry?) * u64::from(width) + u64::from(word))
}
