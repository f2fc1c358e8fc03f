//! The sources, sinks and stores in memory: with ample memory, with a fault in each call, and in pieces.
ghost use Rattle.std.specs.Prelude.{◌≤◌, length};

use cw_io::*;
use cw_word::List;
use std::alloc::{AllocError, Global};
use std::process::Abort;
use std::test::Fail;

const TEXT: &[u8] = b"to be read";

fn bytes(alloc: Global, bytes: &[u8]) -> Result<List<u8>, AllocError> {
    Ok(List::of(bytes.to_vec(alloc)?))
}

fn calls(alloc: Global, calls: &[u64]) -> Result<List<u64>, AllocError> {
    Ok(List::of(calls.to_vec(alloc)?))
}

fn file(alloc: Global) -> Result<MemFile, AllocError> {
    Ok(MemFile {
        name: bytes(alloc, b"a")?,
        bytes: bytes(alloc, TEXT)?,
    })
}

fn files(alloc: Global) -> Result<List<MemFile>, AllocError> {
    Ok(List::of(vec![in alloc; file(alloc)?]?))
}

// A store of one file `a`, whose calls move at most three bytes, with room for one file of eight bytes, its name counted.
fn store(alloc: Global, fails: &[u64]) -> Result<MemStore, AllocError> {
    let fails = calls(alloc, fails)?;
    match MemStore::new(alloc, files(alloc)?, 1, 8, 3, fails) {
        Ok(store) => Ok(store),
        Err(_) => Err(AllocError),
    }
}

// Reads in order, into eight bytes or into none: what each answers, and what stands first in the eight bytes then.
const READS: &[(u8, Result<usize, Failed>, &[u8])] = &[
    (8, Ok(3), b"fou"),
    (8, Err(Failed), b"fou"),
    (0, Ok(0), b"fou"),
    (8, Ok(1), b"r"),
    (8, Ok(0), b"r"),
];

#[test]
fn sources(rt: HostRuntime) -> Result<(), Fail> {
    let alloc = rt.alloc();
    let mut source = MemSource::new(bytes(alloc, b"four")?, 3, calls(alloc, &[2])?);
    let mut buf = [0u8; 8];
    for (room, wanted, first) in READS {
        let count = match room {
            0 => source.read(&mut []),
            _ => source.read(&mut buf),
        };
        assert_eq!(rt; count, *wanted);
        assert!(rt; buf.starts_with(first));
    }
    Ok(())
}

// Writes in order, and what each answers.
const WRITES: &[(&[u8], Result<usize, Failed>)] = &[
    (b"abcd", Ok(3)),
    (b"d", Err(Failed)),
    (b"", Ok(0)),
    (b"def", Ok(2)),
    (b"f", Err(Failed)),
    (b"", Ok(0)),
];

#[test]
fn sinks(rt: HostRuntime) -> Result<(), Fail> {
    let alloc = rt.alloc();
    let Ok(mut sink) = MemSink::new(alloc, 5, 3, calls(alloc, &[2])?) else {
        return Err(AllocError.into());
    };
    for (piece, wanted) in WRITES {
        assert_eq!(rt; sink.write(piece), *wanted);
    }
    assert_eq!(rt; sink.held(), b"abcde".as_slice());
    Ok(())
}

// Reads of a store in order, of a file from a place on into eight bytes, and what each answers.
const PART_READS: &[(&str, u64, Result<usize, StoreFault>)] = &[
    ("a", 8, Ok(2)),
    ("b", 0, Err(StoreFault::Missing)),
    ("a", 0, Err(StoreFault::Failed)),
    ("a", 99, Ok(0)),
];

// And then writes.
const FILE_WRITES: &[(&str, &[u8], Result<(), StoreFault>)] = &[
    ("b", b"written", Err(StoreFault::Failed)),
    ("b", b"too long", Err(StoreFault::Failed)),
    ("b", b"written", Ok(())),
    ("c", b"", Err(StoreFault::Failed)),
];

fn check_reads(rt: &impl Abort, files: &mut MemStore) {
    let mut buf = [0u8; 8];
    for (name, at, wanted) in PART_READS {
        assert_eq!(rt; files.read_part(name, *at, &mut buf), *wanted);
        assert!(rt; buf.starts_with(b"ad"));
    }
}

fn check_writes(rt: &impl Abort, files: &mut MemStore) {
    for (name, written, wanted) in FILE_WRITES {
        assert_eq!(rt; files.write_all(name, written), *wanted);
    }
}

fn check_file(
    rt: &impl Abort,
    alloc: Global,
    files: &mut MemStore,
    name: &str,
    wanted: &[u8],
) -> Result<(), Fail>
    requires { length wanted.now ≤ 16777216 }
{
    let read = read_file(alloc, files, name, wanted.len())?;
    assert_eq!(rt; read.as_slice(), wanted);
    Ok(())
}

#[test]
fn stores(rt: HostRuntime) -> Result<(), Fail> {
    let mut files = store(rt.alloc(), &[3, 5])?;
    check_reads(&rt, &mut files);
    check_writes(&rt, &mut files);
    check_file(&rt, rt.alloc(), &mut files, "b", b"written")?;
    check_file(&rt, rt.alloc(), &mut files, "a", TEXT)
}

// What reading the file `a` answers, where these calls fail.
fn answer(alloc: Global, name: &str, limit: usize, fails: &[u64]) -> Result<FileFault, AllocError>
    requires { limit ≤ 16777216 }
{
    let mut files = store(alloc, fails)?;
    match read_file(alloc, &mut files, name, limit) {
        Ok(_) => Err(AllocError),
        Err(fault) => Ok(fault),
    }
}

// Reads of a whole file: its name, how long it may be, the calls that fail, and the answer.
const WHOLE_READS: &[(&str, u8, &[u64], FileFault)] = &[
    ("a", 9, &[], FileFault::TooLong),
    ("a", 0, &[], FileFault::TooLong),
    ("b", 9, &[], FileFault::Missing),
    ("a", 10, &[1], FileFault::Failed),
    ("a", 10, &[2], FileFault::Failed),
    ("a", 10, &[3], FileFault::Failed),
    ("a", 10, &[4], FileFault::Failed),
    ("a", 10, &[5], FileFault::Failed),
];

#[test]
fn whole_files(rt: HostRuntime) -> Result<(), Fail> {
    for (name, limit, fails, wanted) in WHOLE_READS {
        let fault = answer(rt.alloc(), name, usize::from(*limit), fails)?;
        assert_eq!(rt; fault, *wanted);
    }
    Ok(())
}
