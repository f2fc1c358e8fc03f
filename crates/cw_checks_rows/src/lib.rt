//! What the tables of tests give and tell.
#![tactic(auto)]

use std::alloc::{AllocError, Global};

/// Pieces of text, one behind the other, each so many times.
pub fn repeated(alloc: Global, pieces: &[(&[u8], u32)]) -> Result<Vec<u8>, AllocError> {
    let mut text = Vec::new(alloc);
    for &(piece, count) in pieces {
        for _ in 0..count {
            text.extend_from_slice(piece)?;
        }
    }
    Ok(text)
}

/// Whether the bytes have these numbers, between which stands one blank.
pub fn are_numbers(bytes: &[u8], numbers: &str) -> bool {
    if numbers.is_empty() {
        return bytes.is_empty();
    }
    let mut left = bytes;
    for number in numbers.split(' ') {
        match (left, number.parse::<u8>()) {
            ([first, rest @ ..], Ok(byte)) if *first == byte => left = rest,
            _ => return false,
        }
    }
    left.is_empty()
}

/// The first three parts of a row that this character parts, where it has so many.
pub fn in_three(row: &str, mark: char) -> Option<(&str, &str, &str)> {
    let mut parts = row.split(mark);
    Some((parts.next()?, parts.next()?, parts.next()?))
}

/// The first four.
pub fn in_four(row: &str, mark: char) -> Option<(&str, &str, &str, &str)> {
    let mut parts = row.split(mark);
    Some((parts.next()?, parts.next()?, parts.next()?, parts.next()?))
}
