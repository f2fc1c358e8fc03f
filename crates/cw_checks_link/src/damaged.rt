//! Damaged files: an object and an image, each with the fault that comes of a cut, of a byte more and of a byte changed.
use crate::objects::{CALLER, OWNER, link_two};
use cw_image::{ImageFault, read_image};
use cw_link::LinkFault;
use cw_view::{ObjFault, View};
use std::alloc::{AllocError, Global};
use std::test::Fail;

// An image of 10 words of data and 2 of frames, depth 3, the segments A and B1, the words 1 and 7, and 3 bytes of code.
const IMAGE: [u8; 31] = [
    67, 54, 54, 73, 1, 0, 10, 0, 2, 0, 3, 0, 2, 1, 65, 2, 66, 49, 2, 0, 1, 0, 7, 0, 3, 0, 0, 0,
    144, 144, 244,
];

// The place of its last initial word, and that of the length of its code.
const LAST_WORD: usize = 22;

const CODE_LENGTH: usize = 24;

// The bytes with another byte at a place.
fn changed(alloc: Global, bytes: &[u8], place: usize, byte: u8) -> Result<Vec<u8>, AllocError> {
    let mut copy = Vec::from_slice(alloc, bytes)?;
    if let Some(spot) = copy.as_mut_slice().get_mut(place) {
        *spot = byte;
    }
    Ok(copy)
}

// The bytes and one more.
fn longer(alloc: Global, bytes: &[u8]) -> Result<Vec<u8>, AllocError> {
    let mut copy = Vec::from_slice(alloc, bytes)?;
    copy.push(0)?;
    Ok(copy)
}

// The image with so many bytes of code, all 0.
fn with_code(alloc: Global, count: u32) -> Result<Vec<u8>, AllocError> {
    let mut bytes = Vec::from_slice(alloc, &IMAGE[..CODE_LENGTH])?;
    bytes.extend_from_slice(&count.to_le_bytes())?;
    for _ in 0..count {
        bytes.push(0)?;
    }
    Ok(bytes)
}

fn object_fault(bytes: &[u8]) -> Option<ObjFault> {
    match View::open(bytes) {
        Ok(_) => None,
        Err(fault) => Some(fault),
    }
}

// The fault of an image, or how many bytes of code it has.
fn image_fault(alloc: Global, bytes: &[u8]) -> Result<usize, ImageFault> {
    let image = read_image(alloc, bytes)?;
    Ok(image.code.as_slice().len())
}

// Whether opening answers, with a fault in the file or a view, and then linking answers too.
fn answers(alloc: Global, bytes: &[u8]) -> bool {
    match object_fault(bytes) {
        None => !matches!(link_two(alloc, bytes, &OWNER), Err(LinkFault::NoMemory)),
        Some(ObjFault::NotObject | ObjFault::BadVersion) => true,
        Some(ObjFault::Truncated { at } | ObjFault::BadRecord { at } | ObjFault::Trailing { at }) =>
            at <= bytes.len() as u64,
    }
}

#[test]
fn object(rt: HostRuntime) -> Result<(), Fail> {
    let alloc = rt.alloc();
    assert_eq!(rt; object_fault(&CALLER), None);
    for place in 0..CALLER.len() {
        let cut = Some(ObjFault::Truncated { at: place as u64 });
        assert_eq!(rt; object_fault(&CALLER[..place]), cut);
        for byte in [0, 255] {
            let damaged = changed(alloc, &CALLER, place, byte)?;
            assert!(rt; answers(alloc, damaged.as_slice()));
        }
    }
    let more = longer(alloc, &CALLER)?;
    assert_eq!(rt;
        object_fault(more.as_slice()),
        Some(ObjFault::Trailing { at: 155 })
    );
    let other = changed(alloc, &CALLER, 0, 68)?;
    assert_eq!(rt; object_fault(other.as_slice()), Some(ObjFault::NotObject));
    let third = changed(alloc, &CALLER, 4, 3)?;
    assert_eq!(rt; object_fault(third.as_slice()), Some(ObjFault::BadVersion));
    Ok(())
}

#[test]
fn image(rt: HostRuntime) -> Result<(), Fail> {
    let alloc = rt.alloc();
    assert_eq!(rt; image_fault(alloc, &IMAGE), Ok(3));
    for place in 0..IMAGE.len() {
        let cut = Err(ImageFault::Truncated { at: place as u64 });
        assert_eq!(rt; image_fault(alloc, &IMAGE[..place]), cut);
    }
    let more = longer(alloc, &IMAGE)?;
    assert_eq!(rt;
        image_fault(alloc, more.as_slice()),
        Err(ImageFault::Trailing { at: 31 })
    );
    let zero = changed(alloc, &IMAGE, LAST_WORD, 0)?;
    assert_eq!(rt;
        image_fault(alloc, zero.as_slice()),
        Err(ImageFault::BadField { at: 22 })
    );
    let most = with_code(alloc, 65_536)?;
    assert_eq!(rt; image_fault(alloc, most.as_slice()), Ok(65_536));
    let too_many = with_code(alloc, 65_537)?;
    assert_eq!(rt;
        image_fault(alloc, too_many.as_slice()),
        Err(ImageFault::BadField { at: 24 })
    );
    Ok(())
}

// The faults of objects and of images, in one order, and the texts of both.
const OBJECT_FAULTS: &[ObjFault] = &[
    ObjFault::NotObject,
    ObjFault::BadVersion,
    ObjFault::Truncated { at: 7 },
    ObjFault::BadRecord { at: 7 },
    ObjFault::Trailing { at: 7 },
];

const IMAGE_FAULTS: &[ImageFault] = &[
    ImageFault::NotImage,
    ImageFault::BadVersion,
    ImageFault::Truncated { at: 7 },
    ImageFault::BadField { at: 7 },
    ImageFault::Trailing { at: 7 },
    ImageFault::NoMemory,
];

const TEXTS: &str =
    "NotObject BadVersion Truncated BadRecord Trailing NotImage BadVersion Truncated BadField Trailing NoMemory ";

#[test]
fn texts_of_faults(rt: HostRuntime) -> Result<(), Fail> {
    let alloc = rt.alloc();
    let mut texts = String::new(alloc);
    for &fault in OBJECT_FAULTS {
        texts.push_str(format!(in alloc; "{fault} ")?.as_str())?;
    }
    for &fault in IMAGE_FAULTS {
        texts.push_str(format!(in alloc; "{fault} ")?.as_str())?;
    }
    assert_eq!(rt; texts.as_str(), TEXTS);
    Ok(())
}
