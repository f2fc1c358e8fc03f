//! Lists of object files, spelled by hand from the format, and what comes of linking them.
use cw_link::{LinkFault, Linked, link};
use cw_tmpl::{base_code, base_entry};
use cw_unit::layout::Limits;
use cw_view::View;
use std::alloc::Global;
use std::test::Fail;

const LIMITS: Limits = Limits {
    area: 1000,
    frames: 100,
    depth: 10,
};

// Segment AA: common TOTAL of 1 word, label GO from elsewhere, an own family of 5 words whose word 2 is 7.
pub(crate) const CALLER: [u8; 155] = [
    67, 54, 54, 79, 2, 0, 1, 3, 0, 0, 0, 2, 65, 65, 2, 11, 0, 0, 0, 5, 84, 79, 84, 65, 76, 0, 0, 0,
    16, 0, 2, 6, 0, 0, 0, 2, 71, 79, 3, 0, 0, 3, 7, 0, 0, 0, 1, 0, 0, 5, 0, 0, 0, 3, 7, 0, 0, 0, 0,
    0, 0, 1, 0, 0, 0, 5, 6, 0, 0, 0, 0, 0, 2, 0, 7, 0, 6, 12, 0, 0, 0, 1, 2, 0, 0, 3, 0, 0, 4, 5,
    0, 0, 6, 7, 9, 0, 0, 0, 2, 0, 0, 0, 1, 1, 0, 0, 0, 7, 9, 0, 0, 0, 5, 0, 0, 0, 5, 1, 0, 0, 0, 7,
    9, 0, 0, 0, 9, 0, 0, 0, 9, 0, 0, 0, 0, 9, 10, 0, 0, 0, 0, 0, 0, 0, 8, 0, 1, 0, 0, 0, 255, 0, 0,
    0, 0,
];

// Segment BB: defines GO at place 5; common TOTAL of 3 words; an absolute family of 2 words at 2, whose first is 513.
pub(crate) const OWNER: [u8; 148] = [
    67, 54, 54, 79, 2, 0, 1, 3, 0, 0, 0, 2, 66, 66, 2, 6, 0, 0, 0, 2, 71, 79, 3, 0, 0, 2, 11, 0, 0,
    0, 5, 84, 79, 84, 65, 76, 0, 0, 0, 16, 0, 3, 7, 0, 0, 0, 0, 1, 0, 3, 0, 0, 0, 3, 7, 0, 0, 0, 2,
    2, 0, 2, 0, 0, 0, 5, 6, 0, 0, 0, 1, 0, 0, 0, 1, 2, 6, 8, 0, 0, 0, 9, 8, 7, 0, 0, 6, 0, 0, 7, 9,
    0, 0, 0, 3, 0, 0, 0, 2, 0, 0, 1, 0, 7, 9, 0, 0, 0, 6, 0, 0, 0, 8, 3, 0, 0, 0, 8, 6, 0, 0, 0, 0,
    0, 5, 0, 0, 0, 9, 10, 0, 0, 0, 1, 0, 0, 0, 8, 0, 1, 0, 0, 0, 255, 0, 0, 0, 0,
];

// Segment CC: common TOTAL, preset to 1.
const ONE: [u8; 79] = [
    67, 54, 54, 79, 2, 0, 1, 3, 0, 0, 0, 2, 67, 67, 2, 11, 0, 0, 0, 5, 84, 79, 84, 65, 76, 0, 0, 0,
    16, 0, 3, 7, 0, 0, 0, 0, 0, 0, 1, 0, 0, 0, 5, 6, 0, 0, 0, 0, 0, 0, 0, 1, 0, 6, 1, 0, 0, 0, 1,
    9, 10, 0, 0, 0, 0, 0, 0, 0, 8, 0, 1, 0, 0, 0, 255, 0, 0, 0, 0,
];

// Segment DD: common TOTAL, preset to 1 and to 2.
const TWO: [u8; 90] = [
    67, 54, 54, 79, 2, 0, 1, 3, 0, 0, 0, 2, 68, 68, 2, 11, 0, 0, 0, 5, 84, 79, 84, 65, 76, 0, 0, 0,
    16, 0, 3, 7, 0, 0, 0, 0, 0, 0, 1, 0, 0, 0, 5, 6, 0, 0, 0, 0, 0, 0, 0, 1, 0, 5, 6, 0, 0, 0, 0,
    0, 0, 0, 2, 0, 6, 1, 0, 0, 0, 1, 9, 10, 0, 0, 0, 0, 0, 0, 0, 8, 0, 1, 0, 0, 0, 255, 0, 0, 0, 0,
];

// Another segment AA.
const SAME_NAME: [u8; 40] = [
    67, 54, 54, 79, 2, 0, 1, 3, 0, 0, 0, 2, 65, 65, 6, 1, 0, 0, 0, 1, 9, 10, 0, 0, 0, 0, 0, 0, 0,
    8, 0, 1, 0, 0, 0, 255, 0, 0, 0, 0,
];

// Segment EE: defines GO; common TOTAL of another scale.
const OTHER_SCALE: [u8; 78] = [
    67, 54, 54, 79, 2, 0, 1, 3, 0, 0, 0, 2, 69, 69, 2, 11, 0, 0, 0, 5, 84, 79, 84, 65, 76, 0, 0, 0,
    15, 0, 2, 6, 0, 0, 0, 2, 71, 79, 3, 0, 0, 6, 1, 0, 0, 0, 1, 8, 6, 0, 0, 0, 1, 0, 0, 0, 0, 0, 9,
    10, 0, 0, 0, 0, 0, 0, 0, 8, 0, 1, 0, 0, 0, 255, 0, 0, 0, 0,
];

// Segment FF: defines GO.
const SECOND: [u8; 62] = [
    67, 54, 54, 79, 2, 0, 1, 3, 0, 0, 0, 2, 70, 70, 2, 6, 0, 0, 0, 2, 71, 79, 3, 0, 0, 6, 1, 0, 0,
    0, 1, 8, 6, 0, 0, 0, 0, 0, 0, 0, 0, 0, 9, 10, 0, 0, 0, 0, 0, 0, 0, 8, 0, 1, 0, 0, 0, 255, 0, 0,
    0, 0,
];

// Segment GG: an absolute family of 4,294,967,295 words at 100.
const OUTSIDE: [u8; 52] = [
    67, 54, 54, 79, 2, 0, 1, 3, 0, 0, 0, 2, 71, 71, 3, 7, 0, 0, 0, 2, 100, 0, 255, 255, 255, 255,
    6, 1, 0, 0, 0, 1, 9, 10, 0, 0, 0, 0, 0, 0, 0, 8, 0, 1, 0, 0, 0, 255, 0, 0, 0, 0,
];

// Segment HH: an own family of 4,294,967,295 words.
const LARGE: [u8; 52] = [
    67, 54, 54, 79, 2, 0, 1, 3, 0, 0, 0, 2, 72, 72, 3, 7, 0, 0, 0, 1, 0, 0, 255, 255, 255, 255, 6,
    1, 0, 0, 0, 1, 9, 10, 0, 0, 0, 0, 0, 0, 0, 8, 0, 1, 0, 0, 0, 255, 0, 0, 0, 0,
];

pub(crate) fn link_two(alloc: Global, first: &[u8], second: &[u8]) -> Result<Linked, LinkFault> {
    match (View::open(first), View::open(second)) {
        (Ok(a), Ok(b)) => link(alloc, &[a, b], &LIMITS),
        _ => Err(LinkFault::NoMemory),
    }
}

// The code of the two segments, behind the library's.
fn own_code(linked: &Linked) -> &[u8] {
    match linked.image.code.as_slice().get(base_code().len()..) {
        Some(code) => code,
        None => &[],
    }
}

fn homes_of(linked: &Linked, segment: usize) -> &[u16] {
    match linked.map.homes.as_slice().get(segment) {
        Some(homes) => homes.as_slice(),
        None => &[],
    }
}

// A jump to a label and a common word reach the other segment; the own family goes behind the absolute one.
#[test]
fn two_segments(rt: HostRuntime) -> Result<(), Fail> {
    let Ok(linked) = link_two(rt.alloc(), &CALLER, &OWNER) else {
        panic!(&rt; "not linked");
    };
    let entry = (base_code().len() as u16).wrapping_add(13).to_le_bytes();
    let code = [
        1, 2, 9, 0, 3, 10, 0, 4, 5, entry[0], entry[1], 6, 9, 8, 7, 20, 0, 6, 2, 0,
    ];
    assert!(rt; own_code(&linked) == code.as_slice());
    let words: [u16; 7] = [0, 0, 513, 0, 0, 0, 7];
    assert!(rt; linked.image.words.as_slice() == words.as_slice());
    let caller: [u16; 2] = [4, 9];
    assert!(rt; homes_of(&linked, 0) == caller.as_slice());
    let owner: [u16; 2] = [9, 2];
    assert!(rt; homes_of(&linked, 1) == owner.as_slice());
    assert_eq!(rt; linked.map.end, 12);
    Ok(())
}

// The last segment goes on at the end of the program.
#[test]
fn last_segment(rt: HostRuntime) -> Result<(), Fail> {
    let Ok(linked) = link_two(rt.alloc(), &OWNER, &CALLER) else {
        panic!(&rt; "not linked");
    };
    let Some(end) = base_entry(0) else {
        panic!(&rt; "no end");
    };
    let end = end.to_le_bytes();
    let Some(next) = own_code(&linked).get(17..19) else {
        panic!(&rt; "too short");
    };
    assert!(rt; next == end.as_slice());
    Ok(())
}

// Two objects, and the fault of linking them: its name, a number and the segments that it tells, each 0 where it tells none.
const FAULTS: &[(&[u8], &[u8], Told)] = &[
    (&CALLER, &SAME_NAME, ("SegmentTwice", 0, 0, 0)),
    (&CALLER, &OTHER_SCALE, ("Differs", 0, 1, 2)),
    (&SECOND, &OWNER, ("DefinedTwice", 0, 1, 2)),
    (&CALLER, &ONE, ("Undefined", 0, 0, 0)),
    (&ONE, &OUTSIDE, ("AbsoluteOutside", 100, 2, 0)),
    (&ONE, &LARGE, ("DataTooBig", 4_294_967_396, 0, 0)),
    (&ONE, &TWO, ("PresetClash", 0, 1, 2)),
];

type Told = (&'static str, u64, u8, u8);

fn told(fault: LinkFault) -> Told {
    match fault {
        LinkFault::SegmentTwice { .. } => ("SegmentTwice", 0, 0, 0),
        LinkFault::Differs { first, second, .. } => ("Differs", 0, first, second),
        LinkFault::DefinedTwice { first, second, .. } => ("DefinedTwice", 0, first, second),
        LinkFault::Undefined { .. } => ("Undefined", 0, 0, 0),
        LinkFault::AbsoluteOutside { segment, address } => {
            ("AbsoluteOutside", u64::from(address), segment, 0)
        }
        LinkFault::DataTooBig { need } => ("DataTooBig", need, 0, 0),
        LinkFault::ControlTooBig { need } => ("ControlTooBig", need, 0, 0),
        LinkFault::PresetClash {
            address,
            first,
            second,
        } => ("PresetClash", u64::from(address), first, second),
        LinkFault::CodeTooBig { bytes } => ("CodeTooBig", bytes, 0, 0),
        LinkFault::NoMemory => ("NoMemory", 0, 0, 0),
    }
}

#[test]
fn faults(rt: HostRuntime) -> Result<(), Fail> {
    for &(first, second, wanted) in FAULTS {
        let Err(fault) = link_two(rt.alloc(), first, second) else {
            panic!(&rt; "{wanted:?}");
        };
        assert_eq!(rt; told(fault), wanted);
    }
    Ok(())
}
