//! Images with the text that is written of them.
ghost use Rattle.std.specs.Prelude.{IfSome};
ghost use Rattle.cw_image.specs.ImageFormat.{IsImage};

use cw_hex::{load_hex, write_hex};
use cw_image::laws::image_format;
use cw_image::{Image, read_image};
use std::alloc::{AllocError, Global};
use std::test::Fail;

// The mark, the version, 32,768 words of data, none of frames, depth 1, and the segment A.
const HEADER: [u8; 15] = [67, 54, 54, 73, 1, 0, 0, 128, 0, 0, 1, 0, 1, 1, 65];

// Words, code, and the text.
const ROWS: &[(&[u16], &[u8], &str)] = &[
    // HLT alone
    (
        &[],
        &[0xF4],
        ":020000021000EC\n:01000000F40B\n:0400000310000000E9\n:00000001FF\n",
    ),
    // with words, the low byte of each first
    (
        &[0x0001, 0x1234],
        &[0xF4],
        ":020000021000EC\n:01000000F40B\n:020000022000DC\n:0400000001003412B5\n:0400000310000000E9\n:00000001FF\n",
    ),
    // a whole piece of code
    (
        &[],
        &[0, 1, 2, 3, 4, 5, 6, 7, 8, 9, 10, 11, 12, 13, 14, 15],
        ":020000021000EC\n:10000000000102030405060708090A0B0C0D0E0F78\n:0400000310000000E9\n:00000001FF\n",
    ),
    // a byte more
    (
        &[],
        &[0, 1, 2, 3, 4, 5, 6, 7, 8, 9, 10, 11, 12, 13, 14, 15, 16],
        ":020000021000EC\n:10000000000102030405060708090A0B0C0D0E0F78\n:0100100010DF\n:0400000310000000E9\n:00000001FF\n",
    ),
];

// The ends of the largest code and the largest words, and the length of their text.
const LAST_CODE: &str = ":10FFF0009090909090909090909090909090909001\n:020000022000DC\n";

const LAST_WORDS: &str =
    ":10FFF00001010101010101010101010101010101F1\n:0400000310000000E9\n:00000001FF\n";

const LARGEST: usize = 360_512;

// A record of type 02 and 4,096 of 16 bytes each, and then the base of the words.
const CODE_END: usize = 180_256;

// The bytes of an image with these words and this code.
fn spelled(alloc: Global, words: &[u16], code: &[u8]) -> Result<Vec<u8>, AllocError> {
    let mut bytes = Vec::from_slice(alloc, &HEADER)?;
    bytes.extend_from_slice(&((words.len() % 65_536) as u16).to_le_bytes())?;
    for word in words {
        bytes.extend_from_slice(&word.to_le_bytes())?;
    }
    bytes.extend_from_slice(&((code.len() % 1_048_576) as u32).to_le_bytes())?;
    bytes.extend_from_slice(code)?;
    Ok(bytes)
}

// The image that the bytes are, if they are one.
fn image_of(alloc: Global, bytes: &[u8]) -> Option<Image>
    ensures { IfSome result IsImage }
{
    image_format();
    match read_image(alloc, bytes) {
        Ok(image) => Some(image),
        Err(_) => None,
    }
}

// The image with these words and this code.
fn image(alloc: Global, words: &[u16], code: &[u8]) -> Option<Image>
    ensures { IfSome result IsImage }
{
    let bytes = spelled(alloc, words, code).ok()?;
    image_of(alloc, bytes.as_slice())
}

// The text that is written of the image, if there is one, and memory for it.
fn written(alloc: Global, words: &[u16], code: &[u8]) -> Option<Vec<u8>> {
    let image = image(alloc, words, code)?;
    write_hex(alloc, &image).ok()
}

#[test]
fn texts(rt: HostRuntime) -> Result<(), Fail> {
    let alloc = rt.alloc();
    for &(words, code, text) in ROWS {
        let is_written = match written(alloc, words, code) {
            Some(bytes) => bytes.as_slice() == text.as_bytes(),
            None => false,
        };
        assert_eq!(rt; (text, is_written), (text, true));
    }
    Ok(())
}

// Whether a text has a part that ends at a place.
fn ends_at(text: &[u8], end: usize, part: &str) -> bool {
    match text.get(..end) {
        Some(first) => first.ends_with(part.as_bytes()),
        None => false,
    }
}

#[test]
fn largest(rt: HostRuntime) -> Result<(), Fail> {
    let alloc = rt.alloc();
    let mut code = Vec::new(alloc);
    code.resize(65_536, 0x90u8)?;
    let mut words = Vec::new(alloc);
    words.resize(32_768, 0x0101u16)?;
    let Some(text) = written(alloc, words.as_slice(), code.as_slice()) else {
        assert!(rt; false);
        return Ok(());
    };
    let text = text.as_slice();
    assert_eq!(rt; text.len(), LARGEST);
    assert!(rt; ends_at(text, LARGEST, LAST_WORDS));
    assert!(rt; ends_at(text, CODE_END, LAST_CODE));
    let Ok(cpu) = load_hex(alloc, text) else {
        assert!(rt; false);
        return Ok(());
    };
    assert_eq!(rt;
        [
            cpu.byte_at(0x0_FFFF),
            cpu.byte_at(0x1_0000),
            cpu.byte_at(0x1_FFFF)
        ],
        [0, 0x90, 0x90]
    );
    assert_eq!(rt;
        [
            cpu.byte_at(0x2_0000),
            cpu.byte_at(0x2_FFFF),
            cpu.byte_at(0x3_0000)
        ],
        [1, 1, 0]
    );
    Ok(())
}
