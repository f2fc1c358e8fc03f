//! Lines and the bytes that their digits spell.
ghost use Rattle.std.specs.Prelude.{◌≡◌, ◌∷◌, ◌≤◌, ◌<◌, ◌+◌, ◌*◌, ◌%◌, ◌==◌, ◌&&◌, drop, length, slice_index};
ghost use Rattle.std.specs.List.{sum, list_all};
ghost use Rattle.cw_hex.specs.HexFormat.{is_digit, begins_with_feed, digit_value, bytes_of, lines_of, is_record, fits_type, line_fault};

use crate::fault::HexFault;

// Whether the character at a place is a carriage return right before a line feed.
fn is_return(text: &[u8], i: usize) -> bool
    requires { i < length text.now }
    ensures { result ≡ (slice_index text.now i == 13 && begins_with_feed (drop (i + 1) text.now)) }
{
    text[i] == b'\r' && i + 1 < text.len() && text[i + 1] == b'\n'
}

// The first line without its end, and what follows it.
pub(crate) fn first_line(text: &[u8]) -> (&[u8], &[u8])
    requires { 0 < length text.now }
    ensures lines { lines_of text.now ≡ result.0.now ∷ lines_of result.1.now }
    ensures shorter { length result.1.now < length text.now }
{
    for i in 0..text.len() {
        if text[i] == b'\n' {
            return (&text[..i], &text[i + 1..]);
        }
        if is_return(text, i) {
            return (&text[..i], &text[i + 2..]);
        }
    }
    (text, &text[text.len()..])
}

#[tactic(auto, unfolding(crate::specs::HexFormat::is_digit))]
fn is_digit(c: u8) -> bool
    ensures { result ≡ is_digit c }
{
    (48 <= c && c <= 57) || (65 <= c && c <= 70) || (97 <= c && c <= 102)
}

#[tactic(auto, unfolding(crate::specs::HexFormat::digit_value))]
fn digit_value(c: u8) -> u8
    ensures is { result ≡ digit_value c }
    ensures small { result < 16 }
{
    if 48 <= c && c <= 57 {
        c - 48
    } else if 65 <= c && c <= 70 {
        c - 55
    } else if 97 <= c && c <= 102 {
        c - 87
    } else {
        0
    }
}

fn are_digits(digits: &[u8]) -> bool
    ensures { result ≡ list_all is_digit digits.now }
{
    digits.iter().all(|c| is_digit(*c))
}

/// The byte at a place of those that the digits spell.
pub(crate) fn byte(digits: &[u8], k: usize) -> u8
    requires { 2 * k + 1 < length digits.now }
    ensures { result ≡ slice_index (bytes_of digits.now) k }
{
    16 * digit_value(digits[2 * k]) + digit_value(digits[2 * k + 1])
}

// The sum of the bytes modulo 256.
fn sum(digits: &[u8]) -> u16
    ensures { result ≡ sum (bytes_of digits.now) % 256 }
{
    let mut total = 0;
    for k in 0..digits.len() / 2 {
        total = (total + u16::from(byte(digits, k))) % 256;
    }
    total
}

fn is_record(line: &[u8]) -> bool
    ensures { result ≡ is_record line.now }
{
    let [first, digits @ ..] = line else {
        return false;
    };
    *first == b':'
        && are_digits(digits)
        && digits.len() >= 10
        && digits.len() == 2 * (5 + usize::from(byte(digits, 0)))
}

// Whether the type is one that there is, and the length one that it has.
fn fits_type(kind: u8, length: u8) -> bool
    ensures { result ≡ fits_type kind length }
{
    kind == 0
        || (kind == 1 && length == 0)
        || (kind == 2 && length == 2)
        || (kind == 3 && length == 4)
}

/// What is wrong with a line, if anything is.
pub(crate) fn line_fault(is_ended: bool, number: u64, line: &[u8]) -> Option<HexFault>
    ensures { result ≡ line_fault is_ended number line.now }
{
    let [_, digits @ ..] = line else {
        return None;
    };
    if !is_record(line) {
        return Some(HexFault::BadLine { line: number });
    }
    if sum(digits) != 0 {
        return Some(HexFault::BadSum { line: number });
    }
    if !fits_type(byte(digits, 3), byte(digits, 0)) {
        return Some(HexFault::BadType { line: number });
    }
    if is_ended {
        return Some(HexFault::AfterEnd { line: number });
    }
    None
}
