//! Objects spelled by hand from the format, for those that no text has.
use cw_tmpl::base_code;
use std::alloc::{AllocError, Global};

// A record: its kind, the length of its payload, and the payload.
fn put_record(object: &mut Vec<u8>, kind: u8, payload: &[u8]) -> Result<(), AllocError> {
    object.push(kind)?;
    object.extend_from_slice(&((payload.len() % 4_294_967_296) as u32).to_le_bytes())?;
    object.extend_from_slice(payload)
}

fn put_zeros(payload: &mut Vec<u8>, count: usize) -> Result<(), AllocError> {
    for _ in 0..count {
        payload.push(0)?;
    }
    Ok(())
}

// A word of the spelling, where it is one.
fn put_word(payload: &mut Vec<u8>, word: &str) -> Result<Option<()>, AllocError> {
    if let Some(name) = word.strip_prefix('\'') {
        payload.push((name.len() % 256) as u8)?;
        payload.extend_from_slice(name.as_bytes())?;
    } else if let Some(size) = word.strip_prefix('=') {
        let Ok(size) = size.parse::<usize>() else {
            return Ok(None);
        };
        put_zeros(payload, size.saturating_sub(base_code().len()))?;
    } else if let Some(number) = word.strip_suffix('l') {
        let Ok(number) = number.parse::<u32>() else {
            return Ok(None);
        };
        payload.extend_from_slice(&number.to_le_bytes())?;
    } else if let Some(number) = word.strip_suffix('w') {
        let Ok(number) = number.parse::<u16>() else {
            return Ok(None);
        };
        payload.extend_from_slice(&number.to_le_bytes())?;
    } else {
        let Ok(number) = word.parse::<u8>() else {
            return Ok(None);
        };
        payload.push(number)?;
    }
    Ok(Some(()))
}

// The records of a spelling, where it is of the form; the payload of each is gathered apart.
fn put_records(
    object: &mut Vec<u8>,
    payload: &mut Vec<u8>,
    words: &str,
) -> Result<Option<()>, AllocError> {
    let mut kind = None;
    for word in words.split(' ') {
        if let Some(number) = word.strip_suffix(':') {
            if let Some(kind) = kind {
                put_record(object, kind, payload.as_slice())?;
            }
            payload.clear();
            kind = number.parse::<u8>().ok();
        } else if put_word(payload, word)?.is_none() {
            return Ok(None);
        }
    }
    if let Some(kind) = kind {
        put_record(object, kind, payload.as_slice())?;
    }
    put_record(object, 255, &[])?;
    Ok(Some(()))
}

/// The object of a spelling. Between its words stands one blank. `6:` begins a record of kind 6; then its payload: `'AB` is a
/// name, `7` a byte, `7w` and `7l` numbers of two and four bytes, and `=99` as many zeros as make code that takes 99 bytes
/// together with the library's. The mark, version 2 and the record End are left out. None where it is not of this form.
pub fn spelled(alloc: Global, words: &str) -> Result<Option<Vec<u8>>, AllocError> {
    let mut object = b"C66O\x02\x00".to_vec(alloc)?;
    let mut payload = Vec::new(alloc);
    match put_records(&mut object, &mut payload, words)? {
        Some(()) => Ok(Some(object)),
        None => Ok(None),
    }
}
