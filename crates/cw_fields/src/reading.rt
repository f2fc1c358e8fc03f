//! Fields at the front of bytes. Each reader answers None exactly where the bytes do not begin with its field.
ghost use Rattle.std.specs.Prelude.{◌≡◌};
ghost use Rattle.cw_fields.specs.Fields.{Gives, byte_in, bytes_in, number_in, word_in, signed_in, long_in, text_in, flag_in};
ghost use Rattle.cw_fields.specs.Names.{named, name_in, name_or_empty_in, is_name, is_name_or_empty};

use byteorder::{ByteOrder, LittleEndian};
use cw_word::Name;

/// A byte, and what follows it.
pub fn byte_in(bytes: &[u8]) -> Option<(u8, &[u8])>
    ensures { Gives (λ x. (x.0, x.1.now)) result (byte_in bytes.now) }
{
    match bytes {
        [] => None,
        [byte, rest @ ..] => Some((*byte, rest)),
    }
}

/// So many bytes, and what follows them.
pub fn bytes_in(count: usize, bytes: &[u8]) -> Option<(&[u8], &[u8])>
    ensures { Gives (λ x. (x.0.now, x.1.now)) result (bytes_in count bytes.now) }
{
    if bytes.len() < count {
        return None;
    }
    Some(bytes.split_at(count))
}

/// A number of two bytes.
#[tactic(auto, unfolding(crate::specs::Fields::number_in))]
pub fn word_in(bytes: &[u8]) -> Option<(u16, &[u8])>
    ensures { Gives (λ x. (x.0, x.1.now)) result (word_in bytes.now) }
{
    if bytes.len() < 2 {
        return None;
    }
    Some((LittleEndian::read_u16(bytes), &bytes[2..]))
}

/// A signed number of two bytes.
#[tactic(auto, unfolding(crate::specs::Fields::number_in, crate::specs::Fields::signed_in))]
pub fn signed_in(bytes: &[u8]) -> Option<(i16, &[u8])>
    ensures { Gives (λ x. (x.0, x.1.now)) result (signed_in bytes.now) }
{
    if bytes.len() < 2 {
        return None;
    }
    Some((LittleEndian::read_i16(bytes), &bytes[2..]))
}

/// A number of four bytes.
#[tactic(auto, unfolding(crate::specs::Fields::number_in))]
pub fn long_in(bytes: &[u8]) -> Option<(u32, &[u8])>
    ensures { Gives (λ x. (x.0, x.1.now)) result (long_in bytes.now) }
{
    if bytes.len() < 4 {
        return None;
    }
    Some((LittleEndian::read_u32(bytes), &bytes[4..]))
}

/// The bytes behind a length byte.
#[tactic(auto, unfolding(crate::specs::Fields::text_in))]
pub fn text_in(bytes: &[u8]) -> Option<(&[u8], &[u8])>
    ensures { Gives (λ x. (x.0.now, x.1.now)) result (text_in bytes.now) }
{
    let (count, rest) = byte_in(bytes)?;
    bytes_in(count as usize, rest)
}

/// A byte that says no or yes, 0 or 1.
#[tactic(auto, unfolding(crate::specs::Fields::flag_in))]
pub fn flag_in(bytes: &[u8]) -> Option<(bool, &[u8])>
    ensures { Gives (λ x. (x.0, x.1.now)) result (flag_in bytes.now) }
{
    match byte_in(bytes)? {
        (0, rest) => Some((false, rest)),
        (1, rest) => Some((true, rest)),
        _ => None,
    }
}

/// The name of these bytes.
#[tactic(auto, using(crate::proofs::Names::names))]
pub fn named(text: &[u8]) -> Option<Name>
    ensures { result ≡ named text.now }
{
    Name::new(text)
}

/// Whether these bytes are those of a name.
pub fn is_name(text: &[u8]) -> bool
    ensures { result ≡ is_name text.now }
{
    named(text).is_some()
}

/// Whether these bytes are those of a name, or there are none.
pub fn is_name_or_empty(text: &[u8]) -> bool
    ensures { result ≡ is_name_or_empty text.now }
{
    text.is_empty() || is_name(text)
}

/// The bytes of a name behind their length.
#[tactic(auto, unfolding(crate::specs::Names::name_in))]
pub fn name_in(bytes: &[u8]) -> Option<(&[u8], &[u8])>
    ensures { Gives (λ x. (x.0.now, x.1.now)) result (name_in bytes.now) }
{
    let (text, rest) = text_in(bytes)?;
    if !is_name(text) {
        return None;
    }
    Some((text, rest))
}

/// The bytes of a name behind their length, or a length 0.
#[tactic(auto, unfolding(crate::specs::Names::name_or_empty_in))]
pub fn name_or_empty_in(bytes: &[u8]) -> Option<(&[u8], &[u8])>
    ensures { Gives (λ x. (x.0.now, x.1.now)) result (name_or_empty_in bytes.now) }
{
    let (text, rest) = text_in(bytes)?;
    if !is_name_or_empty(text) {
        return None;
    }
    Some((text, rest))
}
