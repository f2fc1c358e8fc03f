//! What names, numbers, literals and strings stand for.
ghost use Rattle.std.specs.Prelude.{◌≡◌, ◌<◌, ◌≤◌, ◌+◌, ◌-◌, ◌++◌, ◌&&◌, ◌||◌, ◌∷◌, [], IfOk, true, length, map, take, drop, Some};
ghost use Rattle.std.specs.List.{list_all, prefix_len};
ghost use Rattle.std.specs.Char.{is_ascii_digit, is_ascii_uppercase, to_ascii_uppercase};
ghost use Rattle.std.specs.Str.Parse.{digits_value};
ghost use Rattle.cw_grammar.specs.Tokens.{begins_with, is_identifier, identifier, name_of, is_part, part_value, part_places};
ghost use Rattle.cw_grammar.specs.Tokens.{whole_part, fraction, number_of, unquoted, characters, literal_byte};

use cw_lex::TokenKind;
use cw_word::{List, Name, NoMemory, Num};
use std::alloc::Global;

fn starts_with_capital(text: &[u8]) -> bool
    ensures { result ≡ begins_with is_ascii_uppercase text.now }
{
    match text {
        [first, ..] => first.is_ascii_uppercase(),
        [] => false,
    }
}

fn all_capitals_and_digits(text: &[u8]) -> bool
    ensures { result ≡ list_all (λ b. is_ascii_uppercase b || is_ascii_digit b) text.now }
{
    text.iter()
        .all(|b| b.is_ascii_uppercase() || b.is_ascii_digit())
}

fn is_identifier(text: &[u8]) -> bool
    ensures { result ≡ is_identifier text.now }
{
    starts_with_capital(text) && all_capitals_and_digits(text) && text.len() <= 31
}

fn identifier(text: &[u8]) -> Option<Name>
    ensures { result ≡ identifier text.now }
{
    if !is_identifier(text) {
        return None;
    }
    Name::new(text)
}

fn capital_identifier(text: &[u8]) -> Option<Name>
    ensures { result ≡ identifier (map to_ascii_uppercase text.now) }
{
    if text.len() > 31 {
        return None;
    }
    let mut letters = [0; 31];
    let letters = &mut letters[..text.len()];
    letters.copy_from_slice(text);
    letters.make_ascii_uppercase();
    identifier(letters)
}

fn letter_a() -> Name
    ensures { result ≡ 65 ∷ [] }
{
    identifier(b"A").unwrap()
}

/// The name in capital letters.
pub fn name_of(text: &[u8]) -> Name
    ensures { result ≡ name_of text.now }
{
    match capital_identifier(text) {
        Some(name) => name,
        None => letter_a(),
    }
}

fn digits(bytes: &[u8]) -> usize
    ensures value { result ≡ prefix_len is_ascii_digit bytes.now }
    ensures within { result ≤ length bytes.now }
{
    bytes.iter().take_while(|b| b.is_ascii_digit()).count()
}

fn all_digits(text: &[u8]) -> bool
    ensures { result ≡ list_all is_ascii_digit text.now }
{
    text.iter().all(|b| b.is_ascii_digit())
}

fn is_part(digits: &[u8]) -> bool
    ensures { result ≡ is_part digits.now }
{
    digits.len() <= 12 && all_digits(digits)
}

fn value(digits: &[u8]) -> u64
    requires few { length digits.now ≤ 12 }
    requires digits { list_all is_ascii_digit digits.now ≡ true }
    ensures { result ≡ digits_value 10 digits.now }
{
    let mut value = 0;
    for digit in digits {
        value = value * 10 + u64::from(*digit - b'0');
    }
    value
}

fn part_value(digits: &[u8]) -> u64
    ensures { result ≡ part_value digits.now }
{
    if digits.len() <= 12 && all_digits(digits) {
        value(digits)
    } else {
        0
    }
}

fn part_places(digits: &[u8]) -> u8
    ensures { result ≡ part_places digits.now }
{
    if digits.len() <= 12 && all_digits(digits) {
        digits.len() as u8
    } else {
        0
    }
}

fn fraction(text: &[u8]) -> &[u8]
    ensures { result.now ≡ fraction text.now }
{
    let end = digits(text);
    if end < text.len() {
        &text[end + 1..]
    } else {
        &[]
    }
}

/// The number.
#[tactic(auto, using(crate::proofs::Numbers::part_fits, crate::proofs::Numbers::few_places, crate::proofs::Numbers::part_small))]
pub fn number_of(text: &[u8]) -> Num
    ensures { result ≡ number_of text.now }
{
    let whole = &text[..digits(text)];
    let fraction = fraction(text);
    Num::new(
        part_value(whole),
        part_value(fraction),
        part_places(fraction),
    )
}

/// The byte between the brackets of a literal.
pub fn literal_byte(text: &[u8]) -> u8
    ensures { result ≡ literal_byte text.now }
{
    match &text[text.len().saturating_sub(2)..] {
        [byte, ..] => *byte,
        [] => 0,
    }
}

fn copied(alloc: Global, bytes: &[u8]) -> Result<List<u8>, NoMemory>
    ensures { IfOk result (λ list. list ≡ bytes.now) }
{
    match Vec::from_slice(alloc, bytes) {
        Ok(items) => Ok(List::of(items)),
        Err(_) => Err(NoMemory),
    }
}

fn without_quotes(bytes: &[u8]) -> &[u8]
    ensures { result.now ≡ take (length bytes.now - 4) (drop 2 bytes.now) }
{
    if bytes.len() < 4 {
        return &[];
    }
    &bytes[2..bytes.len() - 2]
}

fn unquoted(alloc: Global, text: &[u8]) -> Result<List<u8>, NoMemory>
    ensures { IfOk result (λ list. list ≡ unquoted text.now) }
{
    let mut found = List::new(alloc);
    let mut at = 0;
    while at < text.len() {
        let byte = text[at];
        if byte != b'"' {
            found.push(byte)?;
            at += 1;
        } else if at + 1 < text.len() && text[at + 1] == b'"' {
            found.push(byte)?;
            at += 2;
        } else {
            return Ok(found);
        }
    }
    Ok(found)
}

/// The characters of a string.
pub fn characters(alloc: Global, kind: TokenKind, text: &[u8]) -> Result<List<u8>, NoMemory>
    ensures { IfOk result (λ list. list ≡ characters kind text.now) }
{
    match kind {
        TokenKind::BodyText => copied(alloc, without_quotes(text)),
        _ => {
            if text.is_empty() {
                return Ok(List::new(alloc));
            }
            unquoted(alloc, &text[1..])
        }
    }
}
