//! Strange files and failing outsides: damaged files, and each call of the outside failing in turn.
use crate::command::{FIRST, Outside, Wanted, call, store_of};
use cw_checks_rows::{in_four, in_three, repeated};
use cw_io::{MemStore, read_file};
use std::alloc::{AllocError, Global};
use std::test::Fail;

// A filter, and the control that asks it of each byte that it reads.
const FILTER: &str =
    "COMMON (FIXED(16,4) LEVEL; INTEGER PROCEDURE ALARM(VALUE INTEGER)); SEGMENT FILTER BEGIN INTEGER PROCEDURE ALARM(VALUE INTEGER X); BEGIN LEVEL := LEVEL + (X - LEVEL) * 0.5; IF LEVEL >= 60 THEN ANSWER 1 ELSE ANSWER 0 END; LEVEL := 0 END FINISH";

const CONTROL: &str =
    "COMMON (FIXED(16,4) LEVEL; INTEGER PROCEDURE ALARM(VALUE INTEGER)); LIBRARY (INTEGER PROCEDURE READBYTE; PROCEDURE WRITEBYTE(VALUE INTEGER)); SEGMENT CONTROL BEGIN INTEGER C, STATE, N; TABLE LOG[1,4][SEEN UNSIGNED(8,0)0,0; KIND(8,0)0,8]; SWITCH ACT := IDLE, BUSY; STATE := 1; NEXT: C := READBYTE; IF C < 0 THEN GOTO DONE; IF ALARM(C) = 1 THEN STATE := 2; GOTO ACT[STATE]; IDLE: SEEN[0] := SEEN[0] + 1; GOTO NEXT; BUSY: SEEN[1] := SEEN[1] + 1; KIND[1] := -1; GOTO NEXT; DONE: WRITEBYTE(SEEN[0]); WRITEBYTE(SEEN[1]); WRITEBYTE(KIND[1]) END FINISH";

const MAP: &str =
    "00000 00001 COMMON.LEVEL WORD~00001 00001 FILTER.ALARM.X WORD~00002 00001 CONTROL.C WORD~00003 00001 CONTROL.STATE WORD~00004 00001 CONTROL.N WORD~00005 00004 CONTROL.LOG TABLE~12288 04096 FRAMES~";

// A text of one segment, whose object has the extent of its one family in four bytes at this place.
const ONE: &str = "SEGMENT A BEGIN INTEGER X; X := 1 END FINISH";

const EXTENT: usize = 21;

// An image before the length of its code.
const HEAD: [u8; 17] = [
    0x43, 0x36, 0x36, 0x49, 1, 0, 0x10, 0, 1, 0, 1, 0, 1, 1, 0x41, 0, 0,
];

// The texts `f`, `c`, `o` and `first`, and this file `strange`, in a store that moves so many bytes a call.
fn store(
    alloc: Global,
    strange: &[u8],
    piece: usize,
    faults: &str,
) -> Result<MemStore, AllocError> {
    let texts = [
        ("f", FILTER.as_bytes()),
        ("c", CONTROL.as_bytes()),
        ("o", ONE.as_bytes()),
        ("first", FIRST.as_bytes()),
        ("strange", strange),
    ];
    store_of(alloc, &texts, (8, 65_536), piece, faults)
}

// What surrounds a call: 200 bytes of input, all 64.
const OUTSIDE: Outside<'static> = Outside {
    input: &[64; 200],
    taken: 4096,
    out: (64, 4096),
    say: (4096, 4096),
    input_faults: "",
    faults: "",
};

// The status of a call, where it shows what is wanted.
fn call_in(
    alloc: Global,
    files: &mut MemStore,
    line: &str,
    wanted: Wanted<'_>,
) -> Result<Option<u8>, AllocError> {
    call(alloc, files, line, &OUTSIDE, wanted)
}

// That where the file `strange` has these bytes.
fn call_over(
    alloc: Global,
    strange: &[u8],
    line: &str,
    wanted: Wanted<'_>,
) -> Result<Option<u8>, AllocError> {
    let mut files = store(alloc, strange, 4096, "")?;
    call_in(alloc, &mut files, line, wanted)
}

fn read(alloc: Global, files: &mut MemStore, name: &str) -> Result<Vec<u8>, AllocError> {
    match read_file(alloc, files, name, 65_536) {
        Ok(bytes) => Ok(bytes),
        Err(_) => Err(AllocError),
    }
}

fn made_in(
    alloc: Global,
    files: &mut MemStore,
    lines: &str,
    name: &str,
) -> Result<Vec<u8>, AllocError> {
    for line in lines.split(';') {
        call_in(alloc, files, line, Wanted::Status(&[0]))?;
    }
    read(alloc, files, name)
}

// The bytes of a file that these calls make, one behind the other.
fn made(alloc: Global, lines: &str, name: &str) -> Result<Vec<u8>, AllocError> {
    let mut files = store(alloc, &[], 4096, "")?;
    made_in(alloc, &mut files, lines, name)
}

// A row a line: the calls that make a file, its name, how it is read, and the fault of a cut.
const CUTS: &str = "compile f#f.SEG#link strange#O3
compile c#c.SEG#link strange#O3
compile f;compile c;link f.SEG c.SEG#A.IMG#exec strange#I3";

fn is_cut_at(
    alloc: Global,
    part: &[u8],
    line: &str,
    fault: &str,
) -> Result<Option<u8>, AllocError> {
    let told = format!(in alloc; "9||strange: {fault} Truncated {}~", part.len())?;
    call_over(alloc, part, line, Wanted::Numbers(told.as_str()))
}

// Whether each proper first part of the bytes is refused at its end.
fn is_cut(alloc: Global, bytes: &[u8], line: &str, fault: &str) -> Result<bool, AllocError> {
    for place in 0..bytes.len() {
        if is_cut_at(alloc, &bytes[..place], line, fault)?.is_none() {
            return Ok(false);
        }
    }
    Ok(!bytes.is_empty())
}

fn is_cut_row(
    alloc: Global,
    lines: &str,
    name: &str,
    line: &str,
    fault: &str,
) -> Result<bool, AllocError> {
    let bytes = made(alloc, lines, name)?;
    is_cut(alloc, bytes.as_slice(), line, fault)
}

#[test]
fn cut(rt: HostRuntime) -> Result<(), Fail> {
    let alloc = rt.alloc();
    let mut count = 0_u32;
    for row in CUTS.split('\n') {
        if let Some((lines, name, line, fault)) = in_four(row, '#') {
            assert!(rt; is_cut_row(alloc, lines, name, line, fault)?, "{row}");
            count = count.wrapping_add(1);
        }
    }
    assert_eq!(rt; count, 3);
    Ok(())
}

fn change(bytes: &mut [u8], place: usize, byte: u8) {
    if let Some(spot) = bytes.get_mut(place) {
        *spot = byte;
    }
}

// Whether a call has one of these statuses, and where that is 0, the call behind it one of a run's.
fn answers(
    alloc: Global,
    files: &mut MemStore,
    line: &str,
    statuses: &[u8],
    then: &str,
) -> Result<bool, AllocError> {
    match call_in(alloc, files, line, Wanted::Status(statuses))? {
        Some(0) => {
            let run = call_in(alloc, files, then, Wanted::Status(&[0, 4, 5, 11, 12]))?;
            Ok(run.is_some())
        }
        Some(_) => Ok(true),
        None => Ok(false),
    }
}

fn answers_over(
    alloc: Global,
    strange: &[u8],
    line: &str,
    statuses: &[u8],
    then: &str,
) -> Result<bool, AllocError> {
    let mut files = store(alloc, strange, 4096, "")?;
    answers(alloc, &mut files, line, statuses, then)
}

// Whether they do over the bytes with another byte at a place.
fn answers_changed(
    alloc: Global,
    bytes: &[u8],
    (place, byte): (usize, u8),
    line: &str,
    statuses: &[u8],
    then: &str,
) -> Result<bool, AllocError> {
    let mut strange = bytes.to_vec(alloc)?;
    change(strange.as_mut_slice(), place, byte);
    answers_over(alloc, strange.as_slice(), line, statuses, then)
}

// Whether they do over the bytes with each changed to 0 and to 255 in turn.
fn is_answered(
    alloc: Global,
    bytes: &[u8],
    line: &str,
    statuses: &[u8],
    then: &str,
) -> Result<bool, AllocError> {
    for place in 0..bytes.len() {
        for &byte in &[0, 255] {
            if !answers_changed(alloc, bytes, (place, byte), line, statuses, then)? {
                return Ok(false);
            }
        }
    }
    Ok(!bytes.is_empty())
}

fn is_object_answered(alloc: Global) -> Result<bool, AllocError> {
    let object = made(alloc, "compile first", "first.SEG")?;
    let run = "--steps 1000 exec A.IMG";
    is_answered(alloc, object.as_slice(), "link strange", &[0, 3, 9], run)
}

fn is_image_answered(alloc: Global) -> Result<bool, AllocError> {
    let image = repeated(alloc, &[(&HEAD, 1), (&[1, 0, 0, 0, 0xF4], 1)])?;
    let run = "--steps 1000 exec strange";
    is_answered(
        alloc,
        image.as_slice(),
        run,
        &[0, 4, 5, 9, 11, 12],
        "depth o",
    )
}

#[test]
fn each_byte_changed(rt: HostRuntime) -> Result<(), Fail> {
    let alloc = rt.alloc();
    assert!(rt; is_object_answered(alloc)?);
    assert!(rt; is_image_answered(alloc)?);
    Ok(())
}

// The one statement has a record of eleven bytes before the record of five that ends the object; version 1 has none of these.
fn older_of(alloc: Global, object: &[u8]) -> Result<Vec<u8>, AllocError> {
    let Some(before) = object.len().checked_sub(16) else {
        return Err(AllocError);
    };
    let mut older = object[..before].to_vec(alloc)?;
    change(older.as_mut_slice(), 4, 1);
    older.extend_from_slice(&object[before + 11..])?;
    Ok(older)
}

fn older(alloc: Global) -> Result<Vec<u8>, AllocError> {
    let object = made(alloc, "compile o", "o.SEG")?;
    older_of(alloc, object.as_slice())
}

// The calls of so many lines end with nothing said.
fn quiet(alloc: Global, files: &mut MemStore, lines: &str) -> Result<u32, AllocError> {
    let mut count = 0_u32;
    for line in lines.split(';') {
        if call_in(alloc, files, line, Wanted::Numbers("0||"))?.is_some() {
            count = count.wrapping_add(1);
        }
    }
    Ok(count)
}

fn is_file(
    alloc: Global,
    files: &mut MemStore,
    name: &str,
    wanted: &[u8],
) -> Result<bool, AllocError> {
    let bytes = read(alloc, files, name)?;
    Ok(bytes.as_slice() == wanted)
}

fn are_same(
    alloc: Global,
    files: &mut MemStore,
    first: &str,
    second: &str,
) -> Result<bool, AllocError> {
    let bytes = read(alloc, files, first)?;
    is_file(alloc, files, second, bytes.as_slice())
}

#[test]
fn older_object(rt: HostRuntime) -> Result<(), Fail> {
    let alloc = rt.alloc();
    let mut files = store(alloc, older(alloc)?.as_slice(), 4096, "")?;
    let lines =
        "link strange;exec A.IMG;migrate strange;link strange.SG2;exec A.IMG;migrate strange.SG2";
    assert_eq!(rt; quiet(alloc, &mut files, lines)?, 6);
    assert!(rt; are_same(alloc, &mut files, "strange.SG2", "strange.SG2.SG2")?);
    Ok(())
}

// An image that takes a byte again and again.
const TAKING: [u8; 8] = [4, 0, 0, 0, 0xE4, 0x10, 0xEB, 0xFC];

fn takes_all(alloc: Global, image: &[u8], input: &[u8]) -> Result<Option<u8>, AllocError> {
    let mut files = store(alloc, image, 4096, "")?;
    let outside = Outside {
        input,
        taken: 4096,
        out: (1, 1),
        say: (100, 100),
        input_faults: "",
        faults: "",
    };
    call(
        alloc,
        &mut files,
        "--steps 40000000 exec strange",
        &outside,
        Wanted::Numbers("10||too long: input~"),
    )
}

fn takes(alloc: Global, image: &[u8], count: usize) -> Result<Option<u8>, AllocError> {
    let input = vec![in alloc; 0_u8; count]?;
    takes_all(alloc, image, input.as_slice())
}

#[test]
fn longest_input(rt: HostRuntime) -> Result<(), Fail> {
    let alloc = rt.alloc();
    let image = repeated(alloc, &[(&HEAD, 1), (&TAKING, 1)])?;
    assert!(rt; takes(alloc, image.as_slice(), 16_777_217)?.is_some());
    Ok(())
}

// The pieces of a file, each so many times, a call, and what is told.
const LARGE: &[(&[(&[u8], u32)], &str, &str)] = &[
    (
        &[(&HEAD, 1), (&[0, 0, 1, 0], 1), (&[0x90], 65_536)],
        "--steps 70000 exec strange",
        "5||unfinished: 70000~",
    ),
    (
        &[(&HEAD, 1), (&[2, 0, 0, 0, 0xF6, 0xF0], 1)],
        "exec strange",
        "12||divided: 0~",
    ),
    (
        &[(b";", 1_048_576)],
        "go strange",
        "2||strange:1: M4 TooLong~",
    ),
];

fn is_large(
    alloc: Global,
    pieces: &[(&[u8], u32)],
    line: &str,
    told: &str,
) -> Result<Option<u8>, AllocError> {
    let strange = repeated(alloc, pieces)?;
    call_over(alloc, strange.as_slice(), line, Wanted::Numbers(told))
}

// Whether an object whose family has the largest extent is refused.
fn is_large_object(alloc: Global, told: &str) -> Result<Option<u8>, AllocError> {
    let mut object = made(alloc, "compile o", "o.SEG")?;
    for place in EXTENT..EXTENT + 4 {
        change(object.as_mut_slice(), place, 255);
    }
    call_over(
        alloc,
        object.as_slice(),
        "link strange",
        Wanted::Numbers(told),
    )
}

#[test]
fn large_numbers(rt: HostRuntime) -> Result<(), Fail> {
    let alloc = rt.alloc();
    let told = "3||link: P1 DataTooBig 4294971391~";
    assert!(rt; is_large_object(alloc, told)?.is_some());
    for &(pieces, line, told) in LARGE {
        assert!(rt; is_large(alloc, pieces, line, told)?.is_some(), "{told}");
    }
    Ok(())
}

// A row a line: how many bytes a call moves, the calls of the outside that fail, and what is told of `go f c`, with MAP for its map.
const FAULTS: &str = "4096##0|3 197 255|MAP
1##0|3 197 255|MAP
4096#store:1#7||fault: store~
4096#store:2#7||fault: store~
4096#store:3#7||fault: store~
4096#store:4#7||fault: store~
4096#store:5#0|3 197 255|MAP
4096#input:1#7||MAPfault: input~
4096#input:2#7||MAPfault: input~
4096#input:3#0|3 197 255|MAP
1#out:1#7||MAPfault: out~
1#out:2#7|3|MAPfault: out~
1#out:3#7|3 197|MAPfault: out~
1#out:4#0|3 197 255|MAP
4096#say:1#7||fault: say~
4096#say:2#0|3 197 255|MAP";

fn is_told(
    alloc: Global,
    piece: usize,
    faults: &str,
    told: &str,
) -> Result<Option<u8>, AllocError> {
    let mut files = store(alloc, &[], piece, faults)?;
    let outside = Outside {
        taken: piece,
        out: (64, piece),
        say: (4096, piece),
        input_faults: faults,
        faults,
        ..OUTSIDE
    };
    call(alloc, &mut files, "go f c", &outside, Wanted::Numbers(told))
}

fn is_fault(
    alloc: Global,
    piece: &str,
    faults: &str,
    told: &str,
) -> Result<Option<u8>, AllocError> {
    let told = told.replace(alloc, "MAP", MAP)?;
    let piece = piece.parse::<usize>().unwrap_or(1);
    is_told(alloc, piece, faults, told.as_str())
}

#[test]
fn faults_in_turn(rt: HostRuntime) -> Result<(), Fail> {
    let alloc = rt.alloc();
    let mut count = 0_u32;
    for row in FAULTS.split('\n') {
        if let Some((piece, faults, told)) = in_three(row, '#') {
            assert!(rt; is_fault(alloc, piece, faults, told)?.is_some(), "{row}");
            count = count.wrapping_add(1);
        }
    }
    assert_eq!(rt; count, 16);
    Ok(())
}

// Calls one behind the other, the third of whose store fails, and what is told.
const FAILED: &[(&str, &str)] = &[
    ("compile f", "7||fault: store~"),
    ("link f.SEG", "6||no file: f.SEG~"),
];

#[test]
fn failed_result(rt: HostRuntime) -> Result<(), Fail> {
    let alloc = rt.alloc();
    let mut files = store(alloc, &[], 4096, "store:3")?;
    for &(line, told) in FAILED {
        assert!(rt;
            call_in(alloc, &mut files, line, Wanted::Numbers(told))?.is_some(),
            "{line}"
        );
    }
    Ok(())
}
