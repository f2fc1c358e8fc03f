//! The writer.
ghost use Rattle.std.specs.Prelude.{◌≡◌, ◌≤◌, ◌<◌, ◌+◌, ◌*◌, ◌%◌, ◌++◌, ◌∷◌, [], length, OnOk, IfOk};
ghost use Rattle.std.specs.List.{sum, flat_map};
ghost use Rattle.cw_image.specs.ImageFormat.{IsImage};
ghost use Rattle.cw_hex.specs.HexText.{digit_of, piece, digits_of, record_bytes, record_text, all_pieces, word_bytes, words_records, hex_text};

use cw_image::Image;
use cw_word::NoMemory;
use std::alloc::Global;

#[tactic(auto, unfolding(crate::specs::HexText::digit_of))]
fn digit_of(n: u8) -> u8
    requires { n < 16 }
    ensures { result ≡ digit_of n }
{
    if n < 10 { 48 + n } else { 55 + n }
}

fn put(text: &mut Vec<u8>, c: u8) -> Result<(), NoMemory>
    ensures { OnOk result (text.new.items ≡ text.old.items ++ c ∷ []) }
{
    text.push(c).map_err(|_| NoMemory)
}

// Puts the digits of bytes at the end.
fn put_digits(text: &mut Vec<u8>, bytes: &[u8]) -> Result<(), NoMemory>
    ensures { OnOk result (text.new.items ≡ text.old.items ++ digits_of bytes.now) }
{
    for b in bytes {
        put(text, digit_of(*b / 16))?;
        put(text, digit_of(*b % 16))?;
    }
    Ok(())
}

// The sum of bytes modulo 256.
fn sum(bytes: &[u8]) -> u16
    ensures is { result ≡ sum bytes.now % 256 }
    ensures small { result < 256 }
{
    let mut total = 0;
    for b in bytes {
        total = (total + u16::from(*b)) % 256;
    }
    total
}

// Puts a record at the end.
fn put_record(text: &mut Vec<u8>, kind: u8, address: u16, bytes: &[u8]) -> Result<(), NoMemory>
    requires { length bytes.now ≤ 255 }
    ensures { OnOk result (text.new.items ≡ text.old.items ++ record_text (record_bytes kind address bytes.now)) }
{
    let head = [
        bytes.len() as u8,
        (address / 256) as u8,
        (address % 256) as u8,
        kind,
    ];
    let checksum = ((256 - (sum(&head) + sum(bytes)) % 256) % 256) as u8;
    put(text, b':')?;
    put_digits(text, &head)?;
    put_digits(text, bytes)?;
    put_digits(text, &[checksum])?;
    put(text, b'\n')?;
    Ok(())
}

// The piece of so many bytes at most that stands behind so many pieces.
#[tactic(auto, using(std::proofs::lemmas::List::take_all))]
fn piece(bytes: &[u8], k: usize) -> &[u8]
    requires { 16 * k ≤ length bytes.now }
    ensures is { result.now ≡ piece k bytes.now }
    ensures short { length result.now ≤ 16 }
{
    let (_, rest) = bytes.split_at(16 * k);
    if rest.len() < 16 {
        return rest;
    }
    let (front, _) = rest.split_at(16);
    front
}

// Puts the records of bytes from address 0 on at the end.
fn put_pieces(text: &mut Vec<u8>, bytes: &[u8]) -> Result<(), NoMemory>
    requires { length bytes.now ≤ 65536 }
    ensures { OnOk result (text.new.items ≡ text.old.items ++ flat_map record_text (all_pieces bytes.now)) }
{
    for k in 0..bytes.len().div_ceil(16) {
        put_record(text, 0, (16 * k) as u16, piece(bytes, k))?;
    }
    Ok(())
}

// The bytes of words, the low one first.
fn bytes_of(alloc: Global, words: &[u16]) -> Result<Vec<u8>, NoMemory>
    ensures { IfOk result (λ bytes. bytes.items ≡ word_bytes words.now) }
{
    let mut bytes = Vec::new(alloc);
    for w in words {
        put(&mut bytes, (*w % 256) as u8)?;
        put(&mut bytes, (*w / 256) as u8)?;
    }
    Ok(bytes)
}

// Puts the records of the words at the end, if there are words.
fn put_words(alloc: Global, text: &mut Vec<u8>, words: &[u16]) -> Result<(), NoMemory>
    requires { length words.now ≤ 32768 }
    ensures { OnOk result (text.new.items ≡ text.old.items ++ flat_map record_text (words_records words.now)) }
{
    if words.is_empty() {
        return Ok(());
    }
    let bytes = bytes_of(alloc, words)?;
    put_record(text, 2, 0, &[0x20, 0])?;
    put_pieces(text, bytes.as_slice())?;
    Ok(())
}

/// The HEX text of an image: its code from 10000h on, its words from 20000h on, and where the program begins.
pub fn write_hex(alloc: Global, image: &Image) -> Result<Vec<u8>, NoMemory>
    requires { IsImage image.now }
    ensures { IfOk result (λ text. text.items ≡ hex_text image.now.code image.now.words) }
{
    let mut text = Vec::new(alloc);
    put_record(&mut text, 2, 0, &[0x10, 0])?;
    put_pieces(&mut text, image.code.as_slice())?;
    put_words(alloc, &mut text, image.words.as_slice())?;
    put_record(&mut text, 3, 0, &[0x10, 0, 0, 0])?;
    put_record(&mut text, 1, 0, &[])?;
    Ok(text)
}
