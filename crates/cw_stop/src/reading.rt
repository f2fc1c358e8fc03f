//! Reading a stop word.
ghost use Rattle.std.specs.Prelude.{◌≡◌, ◌<◌, ◌≤◌, min, IfOk, IfSome, option_map};
ghost use Rattle.std.specs.List.{list_all};
ghost use Rattle.cw_fields.specs.Names.{is_letter, is_digit, named};
ghost use Rattle.cw_stop.specs.Stopping.{capital, capitals, value_of, number_in, cut, is_watched_character, word_number};
ghost use Rattle.cw_stop.specs.Stopping.{watched_in, watched_list, watched_behind, stop_in, Answers};

use crate::stopping::{Stop, StopFault, Watched};
use cw_fields::named;
use cw_word::{List, Name, NoMemory};
use std::alloc::Global;

/// No number of a stop word is as great.
const TOO_GREAT: u64 = 4_294_967_296;

/// The most names that are watched.
const MOST_WATCHED: usize = 16;

fn is_letter(byte: u8) -> bool
    ensures { result ≡ is_letter byte }
{
    byte >= b'A' && byte <= b'Z'
}

fn is_digit(byte: u8) -> bool
    ensures { result ≡ is_digit byte }
{
    byte >= b'0' && byte <= b'9'
}

fn is_watched_character(byte: u8) -> bool
    ensures { result ≡ is_watched_character byte }
{
    is_letter(byte) || is_digit(byte) || byte == b'.' || byte == b'@'
}

fn capital(byte: u8) -> u8
    ensures { result ≡ capital byte }
{
    if byte >= b'a' && byte <= b'z' {
        byte - (b'a' - b'A')
    } else {
        byte
    }
}

// A text with capitals for its letters.
fn capitals(alloc: Global, text: &[u8]) -> Result<List<u8>, NoMemory>
    ensures { IfOk result (λ capital. capital ≡ capitals text.now) }
{
    let mut capitals = List::new(alloc);
    for byte in text {
        capitals.push(capital(*byte))?;
    }
    Ok(capitals)
}

fn all_digits(text: &[u8]) -> bool
    ensures { result ≡ list_all is_digit text.now }
{
    text.iter().all(|byte| is_digit(*byte))
}

fn all_watched_characters(text: &[u8]) -> bool
    ensures { result ≡ list_all is_watched_character text.now }
{
    text.iter().all(|byte| is_watched_character(*byte))
}

// What digits mean, up to a number that is too great.
fn value_of(digits: &[u8]) -> u64
    ensures { result ≡ min (value_of digits.now) 4294967296 }
{
    let mut value = 0;
    for digit in digits {
        value = (10 * value + u64::from(digit.saturating_sub(b'0'))).min(TOO_GREAT);
    }
    value
}

// The number of digits, where it is in the range.
#[tactic(auto, unfolding(crate::specs::Stopping::number_in))]
fn number_in(low: u64, high: u64, text: &[u8]) -> Option<u64>
    requires { high < 4294967296 }
    ensures number { result ≡ number_in low high text.now }
    ensures within { IfSome result (λ n. n ≤ high) }
{
    if text.is_empty() || !all_digits(text) {
        return None;
    }
    let value = value_of(text);
    if low <= value && value <= high {
        Some(value)
    } else {
        None
    }
}

// What stands in front of a byte, and behind it where there is one.
fn cut(mark: u8, text: &[u8]) -> (&[u8], Option<&[u8]>)
    ensures front { result.0.now ≡ (cut mark text.now).0 }
    ensures behind { option_map (λ rest. rest.now) result.1 ≡ (cut mark text.now).1 }
{
    for at in 0..text.len() {
        if text[at] == mark {
            let (front, rest) = text.split_at(at);
            let (_, behind) = rest.split_at(1);
            return (front, Some(behind));
        }
    }
    (text, None)
}

// The number of a word from the text behind an opening bracket, or 0 where there is none.
fn word_number(behind: Option<&[u8]>) -> Option<u32>
    ensures { result ≡ word_number (option_map (λ text. text.now) behind.entry) }
{
    let Some(text) = behind else {
        return Some(0);
    };
    let (digits, rest) = cut(b']', text);
    match rest {
        Some(rest) if rest.is_empty() => match number_in(0, 4_294_967_295, digits) {
            Some(number) => Some(number as u32),
            None => None,
        },
        _ => None,
    }
}

// The watched name of a text, exactly where it is one.
#[tactic(auto, unfolding(crate::specs::Stopping::watched_in))]
fn read_watched(alloc: Global, text: &[u8]) -> Result<Watched, StopFault>
    ensures { Answers (watched_in text.now) result }
{
    let (name, behind) = cut(b'[', text);
    let text = capitals(alloc, name)?;
    if name.is_empty() || !all_watched_characters(text.as_slice()) {
        return Err(StopFault::NotAStop);
    }
    match word_number(behind) {
        Some(word) => Ok(Watched { text, word }),
        None => Err(StopFault::NotAStop),
    }
}

// The watched names between commas.
fn read_list(alloc: Global, text: &[u8]) -> Result<List<Watched>, StopFault>
    ensures { Answers (watched_list text.now) result }
{
    let mut watched = List::new(alloc);
    let mut rest = text;
    'names: for _ in 0..MOST_WATCHED {
        let (name, behind) = cut(b',', rest);
        watched.push(read_watched(alloc, name)?)?;
        match behind {
            Some(behind) => rest = behind,
            None => return Ok(watched),
        }
    }
    Err(StopFault::NotAStop)
}

// Those behind the second colon, if it stands.
fn read_behind(alloc: Global, behind: Option<&[u8]>) -> Result<List<Watched>, StopFault>
    ensures { Answers (watched_behind (option_map (λ text. text.now) behind.entry)) result }
{
    match behind {
        Some(text) => read_list(alloc, text),
        None => Ok(List::new(alloc)),
    }
}

// The name of a segment, with capitals for its letters.
fn read_segment(alloc: Global, text: &[u8]) -> Result<Name, StopFault>
    ensures { Answers (named (capitals text.now)) result }
{
    let capitals = capitals(alloc, text)?;
    match named(capitals.as_slice()) {
        Some(name) => Ok(name),
        None => Err(StopFault::NotAStop),
    }
}

/// The stop that a word means, exactly where it is a stop word.
#[tactic(auto, unfolding(crate::specs::Stopping::stop_in))]
pub fn read_stop(alloc: Global, word: &str) -> Result<Stop, StopFault>
    ensures { Answers (stop_in word.now) result }
{
    let (segment, behind) = cut(b':', word.as_bytes());
    let Some(behind) = behind else {
        return Err(StopFault::NotAStop);
    };
    let (line, watched) = cut(b':', behind);
    let segment = read_segment(alloc, segment)?;
    let Some(line) = number_in(1, 65535, line) else {
        return Err(StopFault::NotAStop);
    };
    let watched = read_behind(alloc, watched)?;
    Ok(Stop {
        segment,
        line: line as u16,
        watched,
    })
}
