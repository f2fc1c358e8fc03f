//! Images as they are read.
ghost use Rattle.std.specs.Prelude.{◌≡◌, ◌-◌, ◌||◌, ◌==◌, true, nat_lt, not, length, IfOk};
ghost use Rattle.cw_fields.specs.Fields.{byte_in, text_in, word_in, long_in, bytes_in};
ghost use Rattle.cw_fields.specs.Names.{is_name};
ghost use Rattle.cw_image.specs.declared.fault.ImageFault.TheVariants as faults;
ghost use Rattle.cw_image.specs.ImageFormat.{Gives, field, between, name_field, word_item, names_fields, words_fields};
ghost use Rattle.cw_image.specs.ImageFormat.{limits_in, names_in, words_in, code_in, fields_in, image_in};

use crate::fault::ImageFault;
use crate::image::Image;
use byteorder::{ByteOrder, LittleEndian};
use cw_fields::{byte_in, bytes_in, is_name, long_in, named, text_in, word_in};
use cw_word::{List, Name, NoMemory};
use std::alloc::Global;

const MARK: [u8; 4] = *b"C66I";

const HEADER: usize = 6;

fn bad_field(len: usize, rest: &[u8]) -> ImageFault
    ensures { result ≡ faults.BadField (len - length rest.now) }
{
    ImageFault::BadField {
        at: len.saturating_sub(rest.len()) as u64,
    }
}

// A word in a range.
fn word_field(len: usize, low: u16, high: u16, rest: &[u8]) -> Result<(u16, &[u8]), ImageFault>
    ensures { Gives (λ x. (x.0, x.1.now)) result (field len word_in (between low high) rest.now) }
{
    match word_in(rest) {
        None => Err(ImageFault::Truncated { at: len as u64 }),
        Some((word, after)) => {
            if low <= word && word <= high {
                Ok((word, after))
            } else {
                Err(bad_field(len, rest))
            }
        }
    }
}

// A byte in a range.
fn byte_field(len: usize, low: u8, high: u8, rest: &[u8]) -> Result<(u8, &[u8]), ImageFault>
    ensures { Gives (λ x. (x.0, x.1.now)) result (field len byte_in (between low high) rest.now) }
{
    match byte_in(rest) {
        None => Err(ImageFault::Truncated { at: len as u64 }),
        Some((byte, after)) => {
            if low <= byte && byte <= high {
                Ok((byte, after))
            } else {
                Err(bad_field(len, rest))
            }
        }
    }
}

// The length of the code.
fn code_length(len: usize, rest: &[u8]) -> Result<(u32, &[u8]), ImageFault>
    ensures { Gives (λ x. (x.0, x.1.now)) result (field len long_in (between 1 65536) rest.now) }
{
    match long_in(rest) {
        None => Err(ImageFault::Truncated { at: len as u64 }),
        Some((long, after)) => {
            if 1 <= long && long <= 65_536 {
                Ok((long, after))
            } else {
                Err(bad_field(len, rest))
            }
        }
    }
}

#[tactic(auto, unfolding(crate::specs::ImageFormat::name_field))]
fn name_field(len: usize, rest: &[u8]) -> Result<(&[u8], &[u8]), ImageFault>
    ensures { Gives (λ x. (x.0.now, x.1.now)) result (name_field len rest.now) }
{
    byte_field(len, 1, 31, rest)?;
    match text_in(rest) {
        None => Err(ImageFault::Truncated { at: len as u64 }),
        Some((text, after)) => {
            if is_name(text) {
                Ok((text, after))
            } else {
                Err(bad_field(len, rest))
            }
        }
    }
}

fn word_item(len: usize, follow: u16, rest: &[u8]) -> Result<(u16, &[u8]), ImageFault>
    ensures { Gives (λ x. (x.0, x.1.now)) result (word_item len follow rest.now) }
{
    match word_in(rest) {
        None => Err(ImageFault::Truncated { at: len as u64 }),
        Some((word, after)) => {
            if 0 < follow || word != 0 {
                Ok((word, after))
            } else {
                Err(bad_field(len, rest))
            }
        }
    }
}

fn names_fields(
    alloc: Global,
    len: usize,
    count: u8,
    bytes: &[u8],
) -> Result<(List<Name>, &[u8]), ImageFault>
    ensures { Gives (λ x. (x.0, x.1.now)) result (names_fields len count bytes.now) }
{
    let mut names = List::new(alloc);
    let mut rest = bytes;
    for _ in 0..count {
        let (text, after) = name_field(len, rest)?;
        match named(text) {
            Some(name) => names.push(name)?,
            None => unreachable!(),
        }
        rest = after;
    }
    Ok((names, rest))
}

fn words_fields(
    alloc: Global,
    len: usize,
    count: u16,
    bytes: &[u8],
) -> Result<(List<u16>, &[u8]), ImageFault>
    ensures { Gives (λ x. (x.0, x.1.now)) result (words_fields len count bytes.now) }
{
    let mut words = List::new(alloc);
    let mut rest = bytes;
    for i in 0..count {
        let (word, after) = word_item(len, count - (i + 1), rest)?;
        words.push(word)?;
        rest = after;
    }
    Ok((words, rest))
}

fn code_field(len: usize, size: u32, rest: &[u8]) -> Result<(&[u8], &[u8]), ImageFault>
    ensures { Gives (λ x. (x.0.now, x.1.now)) result (field len (bytes_in size) (λ _. true) rest.now) }
{
    match bytes_in(size as usize, rest) {
        None => Err(ImageFault::Truncated { at: len as u64 }),
        Some((code, after)) => Ok((code, after)),
    }
}

fn copied(alloc: Global, bytes: &[u8]) -> Result<List<u8>, NoMemory>
    ensures { IfOk result (λ copy. copy ≡ bytes.now) }
{
    match Vec::from_slice(alloc, bytes) {
        Ok(copy) => Ok(List::of(copy)),
        Err(_) => Err(NoMemory),
    }
}

// The words of data, those of the frame area, and the calls that may be active.
#[derive(Clone, Copy)]
struct Bounds {
    area: u16,
    frames: u16,
    depth: u16,
}

#[tactic(auto, unfolding(crate::specs::ImageFormat::limits_in))]
fn limits_in(len: usize, rest: &[u8]) -> Result<(Bounds, &[u8]), ImageFault>
    ensures { Gives (λ x. ((x.0.area, (x.0.frames, x.0.depth)), x.1.now)) result (limits_in len rest.now) }
{
    let (area, rest) = word_field(len, 1, 32_768, rest)?;
    let (frames, rest) = word_field(len, 0, area, rest)?;
    let (depth, rest) = word_field(len, 1, 4_096, rest)?;
    Ok((
        Bounds {
            area,
            frames,
            depth,
        },
        rest,
    ))
}

#[tactic(auto, unfolding(crate::specs::ImageFormat::names_in))]
fn names_in(alloc: Global, len: usize, rest: &[u8]) -> Result<(List<Name>, &[u8]), ImageFault>
    ensures { Gives (λ x. (x.0, x.1.now)) result (names_in len rest.now) }
{
    let (count, rest) = byte_field(len, 1, 200, rest)?;
    names_fields(alloc, len, count, rest)
}

#[tactic(auto, unfolding(crate::specs::ImageFormat::words_in))]
fn words_in(
    alloc: Global,
    len: usize,
    area: u16,
    rest: &[u8],
) -> Result<(List<u16>, &[u8]), ImageFault>
    ensures { Gives (λ x. (x.0, x.1.now)) result (words_in len area rest.now) }
{
    let (size, rest) = word_field(len, 0, area, rest)?;
    words_fields(alloc, len, size, rest)
}

#[tactic(auto, unfolding(crate::specs::ImageFormat::code_in))]
fn code_in(len: usize, rest: &[u8]) -> Result<(&[u8], &[u8]), ImageFault>
    ensures { Gives (λ x. (x.0.now, x.1.now)) result (code_in len rest.now) }
{
    let (long, rest) = code_length(len, rest)?;
    code_field(len, long, rest)
}

#[tactic(auto, unfolding(crate::specs::ImageFormat::fields_in))]
fn fields_in(alloc: Global, len: usize, rest: &[u8]) -> Result<Image, ImageFault>
    ensures { Gives (λ i. i) result (fields_in len rest.now) }
{
    let (bounds, rest) = limits_in(len, rest)?;
    let (names, rest) = names_in(alloc, len, rest)?;
    let (words, rest) = words_in(alloc, len, bounds.area, rest)?;
    let (code, rest) = code_in(len, rest)?;
    if !rest.is_empty() {
        return Err(ImageFault::Trailing {
            at: len.saturating_sub(rest.len()) as u64,
        });
    }
    let code = copied(alloc, code)?;
    Ok(Image {
        area: bounds.area,
        frames: bounds.frames,
        depth: bounds.depth,
        names,
        words,
        code,
    })
}

/// The image that these bytes are, or the first thing that is wrong with them.
#[tactic(auto, unfolding(crate::specs::ImageFormat::image_in))]
pub fn read_image(alloc: Global, bytes: &[u8]) -> Result<Image, ImageFault>
    ensures { Gives (λ i. i) result (image_in bytes.now) }
{
    let size = bytes.len().min(4);
    if bytes[..size] != MARK[..size] {
        return Err(ImageFault::NotImage);
    }
    if bytes.len() < HEADER {
        return Err(ImageFault::Truncated {
            at: bytes.len() as u64,
        });
    }
    if LittleEndian::read_u16(&bytes[4..]) != 1 {
        return Err(ImageFault::BadVersion);
    }
    fields_in(alloc, bytes.len(), &bytes[HEADER..])
}
