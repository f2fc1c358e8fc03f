//! The command with one file, over a store, a source and sinks in memory.
use cw_checks_rows::{are_numbers, in_four, repeated};
use cw_io::{MemFile, MemSink, MemSource, MemStore};
use cw_top::coral66;
use cw_word::List;
use std::alloc::{AllocError, Global};
use std::test::Fail;

/// A sum and its output.
pub const FIRST: &str =
    "LIBRARY (PROCEDURE WRITEBYTE(VALUE INTEGER)); SEGMENT A BEGIN INTEGER X; X := 1+2; WRITEBYTE(X+64) END FINISH";

/// The instructions of a run of `coral66`.
pub const RUN_STEPS: u64 = 200_000_000;

fn list(alloc: Global, bytes: &[u8]) -> Result<List<u8>, AllocError> {
    Ok(List::of(bytes.to_vec(alloc)?))
}

// The words of a line, between which stands one blank.
fn words_of(alloc: Global, line: &str) -> Result<Vec<String>, AllocError> {
    let mut words = Vec::new(alloc);
    for word in line.split(' ') {
        words.push(String::from_str(alloc, word)?)?;
    }
    Ok(words)
}

// The number that stands behind this name and a colon in a fault.
fn call_number(fault: &str, name: &str) -> Option<u64> {
    match fault.split_once(':') {
        Some((object, number)) if object == name => number.parse::<u64>().ok(),
        _ => None,
    }
}

// The numbers that stand behind this name and a colon in a list of faults.
fn failing(alloc: Global, faults: &str, name: &str) -> Result<List<u64>, AllocError> {
    let mut calls = Vec::new(alloc);
    for fault in faults.split(' ') {
        if let Some(number) = call_number(fault, name) {
            calls.push(number)?;
        }
    }
    Ok(List::of(calls))
}

fn file(alloc: Global, name: &str, bytes: &[u8]) -> Result<MemFile, AllocError> {
    Ok(MemFile {
        name: list(alloc, name.as_bytes())?,
        bytes: list(alloc, bytes)?,
    })
}

fn files_of(alloc: Global, texts: &[(&str, &[u8])]) -> Result<List<MemFile>, AllocError> {
    let mut files = Vec::new(alloc);
    for &(name, bytes) in texts {
        files.push(file(alloc, name, bytes)?)?;
    }
    Ok(List::of(files))
}

/// A store of these files, with room for so many more of so many bytes, that moves so many bytes a call; and these calls of it fail.
pub fn store_of(
    alloc: Global,
    texts: &[(&str, &[u8])],
    (slots, room): (usize, usize),
    piece: usize,
    faults: &str,
) -> Result<MemStore, AllocError> {
    let fails = failing(alloc, faults, "store")?;
    let files = files_of(alloc, texts)?;
    match MemStore::new(alloc, files, slots, room, piece.max(1), fails) {
        Ok(store) => Ok(store),
        Err(_) => Err(AllocError),
    }
}

/// What surrounds a call besides its files: the bytes that it can read, and how many of them a call of the source moves; for `out` and for `say` how many
/// bytes have room, and how many a call moves; and the calls of the source and of the two that fail.
#[derive(Clone, Copy)]
pub struct Outside<'a> {
    pub input: &'a [u8],
    pub taken: usize,
    pub out: (usize, usize),
    pub say: (usize, usize),
    pub input_faults: &'a str,
    pub faults: &'a str,
}

#[derive(Drop)]
struct Streams {
    input: MemSource,
    out: MemSink,
    say: MemSink,
}

fn source(alloc: Global, outside: &Outside<'_>) -> Result<MemSource, AllocError> {
    let bytes = list(alloc, outside.input)?;
    let fails = failing(alloc, outside.input_faults, "input")?;
    Ok(MemSource::new(bytes, outside.taken.max(1), fails))
}

fn sink(
    alloc: Global,
    (room, piece): (usize, usize),
    faults: &str,
    name: &str,
) -> Result<MemSink, AllocError> {
    match MemSink::new(alloc, room, piece.max(1), failing(alloc, faults, name)?) {
        Ok(sink) => Ok(sink),
        Err(_) => Err(AllocError),
    }
}

fn streams_of(alloc: Global, outside: &Outside<'_>) -> Result<Streams, AllocError> {
    Ok(Streams {
        input: source(alloc, outside)?,
        out: sink(alloc, outside.out, outside.faults, "out")?,
        say: sink(alloc, outside.say, outside.faults, "say")?,
    })
}

/// What a call is to show.
#[derive(Clone, Copy)]
pub enum Wanted<'a> {
    /// Its status, the text that it writes and what it says, with `|` between them, and `~` for the end of a line.
    Text(&'a str),
    /// The same, with what it writes as the numbers of its bytes.
    Numbers(&'a str),
    /// The bytes that it writes, as numbers, and its closing line.
    End(&'a str, &'a str),
    /// Its status, and how many bytes it writes.
    Length(u8, usize),
    /// One of these statuses.
    Status(&'a [u8]),
}

// Whether the bytes are those of a text with `~` for the end of a line.
fn are_bytes(bytes: &[u8], text: &str) -> bool {
    for (byte, wanted) in bytes.iter().zip(text.as_bytes()) {
        let wanted = if *wanted == b'~' { b'\n' } else { *wanted };
        if *byte != wanted {
            return false;
        }
    }
    bytes.len() == text.len()
}

// Whether this is the last line of what is said, where that is no line of the storage map.
fn is_end(said: &[u8], end: &str) -> bool {
    let Ok(said) = str::from_utf8(said) else {
        return false;
    };
    match said.lines().last() {
        Some(last) if !last.ends_with(" FRAMES") => last == end,
        _ => end.is_empty(),
    }
}

fn is_told(code: u8, out: &[u8], say: &[u8], told: &str, in_numbers: bool) -> bool {
    let Some((status, told)) = told.split_once('|') else {
        return false;
    };
    let Some((written, said)) = told.split_once('|') else {
        return false;
    };
    let is_written = if in_numbers {
        are_numbers(out, written)
    } else {
        are_bytes(out, written)
    };
    is_written && are_bytes(say, said) && status.parse::<u8>() == Ok(code)
}

fn is_shown(code: u8, out: &[u8], say: &[u8], wanted: Wanted<'_>) -> bool {
    match wanted {
        Wanted::Text(told) => is_told(code, out, say, told, false),
        Wanted::Numbers(told) => is_told(code, out, say, told, true),
        Wanted::End(bytes, end) => are_numbers(out, bytes) && is_end(say, end),
        Wanted::Length(status, length) => code == status && out.len() == length,
        Wanted::Status(statuses) => statuses.contains(&code),
    }
}

fn call_words(
    alloc: Global,
    files: &mut MemStore,
    words: &[String],
    outside: &Outside<'_>,
    wanted: Wanted<'_>,
) -> Result<Option<u8>, AllocError> {
    let mut streams = streams_of(alloc, outside)?;
    let code = coral66(
        alloc,
        words,
        files,
        &mut streams.input,
        &mut streams.out,
        &mut streams.say,
    )
    .code();
    if is_shown(code, streams.out.held(), streams.say.held(), wanted) {
        Ok(Some(code))
    } else {
        Ok(None)
    }
}

/// The status of a call, where it shows what is wanted.
pub fn call(
    alloc: Global,
    files: &mut MemStore,
    line: &str,
    outside: &Outside<'_>,
    wanted: Wanted<'_>,
) -> Result<Option<u8>, AllocError> {
    let words = words_of(alloc, line)?;
    call_words(alloc, files, words.as_slice(), outside, wanted)
}

// That of a call over the file `a` of this text, where these calls of the outside fail: as `store:1 say:2`, those of the store, of `out` and of `say`. No
// program reads so far: a call of the source would fail.
fn call_over(
    alloc: Global,
    text: &[u8],
    line: &str,
    faults: &str,
    wanted: Wanted<'_>,
) -> Result<Option<u8>, AllocError> {
    let mut files = store_of(alloc, &[("a", text)], (0, 0), 4096, faults)?;
    let outside = Outside {
        input: b"unread",
        taken: 4096,
        out: (64, 1),
        say: (400_000, 4096),
        input_faults: "input:1",
        faults,
    };
    call(alloc, &mut files, line, &outside, wanted)
}

/// Whether `go a` shows what is wanted where nothing fails, within so many instructions.
pub fn goes(
    alloc: Global,
    text: &[u8],
    steps: u64,
    wanted: Wanted<'_>,
) -> Result<Option<u8>, AllocError> {
    let line = format!(in alloc; "go --steps {steps} a")?;
    call_over(alloc, text, line.as_str(), "", wanted)
}

// A row a line: the words of a call, the text of its file (none: that of FIRST), the calls of the outside that fail, and its status, what it writes and what it
// says, with `|` between them; `~` stands for the end of a line.
const CALLS: &str = "go a###0|C|00000 00001 A.X WORD~12288 04096 FRAMES~
go a#SEGMENT E BEGIN END FINISH##0||12288 04096 FRAMES~
go a#segment e begin ;;; end finish##0||12288 04096 FRAMES~
go a#SEGMENT S BEGIN INTEGER X, Y; INTEGER LONGER; X := Y + LONGER + 32767; END FINISH##0||00000 00001 S.X WORD~00001 00001 S.Y WORD~00002 00001 S.LONGER WORD~12288 04096 FRAMES~
go a#SEGMENT S~BEGIN INTEGER X;~X := 32767;~X :=~X + 1 END FINISH##4||00000 00001 S.X WORD~12288 04096 FRAMES~stopped: Overflow S 4~
go a#SEGMENT A BEGIN INTEGER X;~X := 32767;~X := X + 1 END FINISH##4||00000 00001 A.X WORD~12288 04096 FRAMES~stopped: Overflow A 3~
go a#LIBRARY (PROCEDURE WRITEBYTE(VALUE INTEGER)); SEGMENT A BEGIN INTEGER A2; A2<-70;WRITEBYTE(A2);A2:=A2+A2+5;WRITEBYTE(65);WRITEBYTE(32767+A2) END FINISH##4|FA|00000 00001 A.A2 WORD~12288 04096 FRAMES~stopped: Overflow A 1~
go a#LIBRARY (PROCEDURE WRITEBYTE(VALUE INTEGER)); SEGMENT P BEGIN INTEGER X; X := -32767 - 1; WRITEBYTE(X) END FINISH##0|\0|00000 00001 P.X WORD~12288 04096 FRAMES~
go a#SEGMENT P BEGIN INTEGER X; X := -32767 - 2 END FINISH##4||00000 00001 P.X WORD~12288 04096 FRAMES~stopped: Overflow P 1~
go a#LIBRARY (PROCEDURE WRITEBYTE(VALUE INTEGER)); SEGMENT P BEGIN INTEGER X; X := -2+70; WRITEBYTE(X); WRITEBYTE(+X-1+2) END FINISH##0|DE|00000 00001 P.X WORD~12288 04096 FRAMES~
go a#~##2||a:1: S1 Syntax 1~
go a#SEGMENT A BEGIN WRITEBYTE(1) END FINISH##2||a:1: N1 Undeclared WRITEBYTE~
go a#SEGMENT A BEGIN INTEGER X, X; END FINISH##2||a:1: N2 Twice X~
go a#SEGMENT A BEGIN INTEGER X; X := - -1 END FINISH##2||a:1: S1 Syntax 10~
go a#SEGMENT A BEGIN INTEGER X; X := 2 - END FINISH##2||a:1: S1 Syntax 11~
go a#SEGMENT A BEGIN INTEGER X; X := 32768 END FINISH##2||a:1: Y8 NumberRange~
go a#SEGMENT A BEGIN INTEGER X;~Y := 1 END FINISH##2||a:2: N1 Undeclared Y~
go a#SEGMENT A BEGIN INTEGER X END FINISH##2||a:1: S1 Syntax 6~
go a#SEGMENT A BEGIN COMMENT NONE; END FINISH##0||12288 04096 FRAMES~
go a#SEGMENT A BEGIN END A FINISH##0||12288 04096 FRAMES~
go a#SEGMENT A BEGIN END FINISH;##2||a:1: S1 Syntax 6~
go a#SEGMENT A~BEGIN ?##2||a:2: L1 BadChar~
go###1||usage: coral66 [--data N] [--frames N] [--depth N] [--steps N] ACTION WORD...~
list a b###1||usage: coral66 [--data N] [--frames N] [--depth N] [--steps N] ACTION WORD...~
big 0###1||usage: coral66 [--data N] [--frames N] [--depth N] [--steps N] ACTION WORD...~
go none###6||no file: none~
--data 8000 go --frames 1000 a###0|C|00000 00001 A.X WORD~07000 01000 FRAMES~
--steps 10 go a###5||00000 00001 A.X WORD~12288 04096 FRAMES~unfinished: 10~
--depth 4096 go a###3||link: P3 ControlTooBig 49228~
--data 8000 --frames 8001 go a###1||usage: coral66 [--data N] [--frames N] [--depth N] [--steps N] ACTION WORD...~
--depth 0 go a###1||usage: coral66 [--data N] [--frames N] [--depth N] [--steps N] ACTION WORD...~
--steps 1 --steps 2 go a###1||usage: coral66 [--data N] [--frames N] [--depth N] [--steps N] ACTION WORD...~
go a##store:1#7||fault: store~
go a##store:2#7||fault: store~
go a##out:1#7||00000 00001 A.X WORD~12288 04096 FRAMES~fault: out~
go a##say:1#7||fault: say~
go a##store:1 say:2#7||fault: 
go a#SEGMENT A BEGIN INTEGER X;~X := 32767;~X := X + 1 END FINISH#say:2#4||00000 00001 A.X WORD~12288 04096 FRAMES~";

// The bytes of a text with `~` for the end of a line.
fn lines_of(alloc: Global, text: &str) -> Result<Vec<u8>, AllocError> {
    let mut bytes = text.as_bytes().to_vec(alloc)?;
    for byte in bytes.as_mut_slice() {
        if *byte == b'~' {
            *byte = b'\n';
        }
    }
    Ok(bytes)
}

// Whether a row of CALLS holds.
fn is_row(
    alloc: Global,
    line: &str,
    text: &str,
    faults: &str,
    told: &str,
) -> Result<Option<u8>, AllocError> {
    let text = lines_of(alloc, if text.is_empty() { FIRST } else { text })?;
    call_over(alloc, text.as_slice(), line, faults, Wanted::Text(told))
}

#[test]
fn calls(rt: HostRuntime) -> Result<(), Fail> {
    let alloc = rt.alloc();
    let mut count = 0_u32;
    for row in CALLS.split('\n') {
        if let Some((line, text, faults, told)) = in_four(row, '#') {
            assert!(rt; is_row(alloc, line, text, faults, told)?.is_some(), "{row}");
            count = count.wrapping_add(1);
        }
    }
    assert_eq!(rt; count, 38);
    Ok(())
}

// How many blanks a text has, and what `go a` shows of it.
const BLANKS: &[(u32, &str)] = &[
    (0, "2||a:1: S1 Syntax 1~"),
    (1_048_576, "2||a:1: S1 Syntax 1~"),
    (1_048_577, "10||too long: a~"),
];

fn is_blank_row(alloc: Global, count: u32, told: &str) -> Result<Option<u8>, AllocError> {
    let text = repeated(alloc, &[(b" ", count)])?;
    call_over(alloc, &text, "go a", "", Wanted::Text(told))
}

#[test]
fn longest(rt: HostRuntime) -> Result<(), Fail> {
    let alloc = rt.alloc();
    for &(count, told) in BLANKS {
        assert!(rt; is_blank_row(alloc, count, told)?.is_some(), "{count}");
    }
    Ok(())
}

// A program that fills a piece of output writes it, and the end of its run writes the rest.
const LONG: &[u8] =
    b"LIBRARY (PROCEDURE WRITEBYTE(VALUE INTEGER)); SEGMENT A BEGIN INTEGER N; L: WRITEBYTE(N); N := N + 1; IF N < 4097 THEN GOTO L END FINISH";

// The calls that fail, and how many bytes are written then.
const PIECES: &[(&str, usize)] = &[("out:1", 0), ("out:65", 64)];

#[test]
fn pieces(rt: HostRuntime) -> Result<(), Fail> {
    let alloc = rt.alloc();
    for &(fault, written) in PIECES {
        let wanted = Wanted::Length(7, written);
        assert!(rt;
            call_over(alloc, LONG, "go a", fault, wanted)?.is_some(),
            "{fault}"
        );
    }
    Ok(())
}
