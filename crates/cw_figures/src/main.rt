//! Benchmark of the compiler: how many bytes of code small programs take and how many instructions their runs, beside
//! those of what bcc makes of the same in C, and how long a text takes by its size.
#![tactic(auto)]

ghost use Rattle.std.specs.Prelude.{◌<◌, ◌≤◌, length};

mod passes;

use cw_cpu86::Cpu;
use cw_io::{MemSink, MemSource};
use cw_link::{Linked, link};
use cw_ports::{ImageEnd, run_image};
use cw_texts::compile_text;
use cw_unit::layout::Limits;
use cw_view::View;
use cw_word::List;
use passes::{Span, Spans, time_text};
use std::alloc::{AllocError, Global};
use std::io;
use std::rt::Clock;
use std::time::Instant;

/// A text, and how many bytes bcc makes of the same in C: Debian's bcc with `-0 -O`, which tests neither overflow nor the places of elements (docs/bcc).
#[derive(Clone, Copy)]
struct Sample {
    name: &'static str,
    text: &'static str,
    by_bcc: u32,
}

const FIRST: &str =
    "LIBRARY (PROCEDURE WRITEBYTE(VALUE INTEGER)); SEGMENT A BEGIN INTEGER X; X := 1+2; WRITEBYTE(X+64) END FINISH";

const LOOPS: &str = "SEGMENT A BEGIN INTEGER TOTAL, J; INTEGER ARRAY A[0:99];
FOR J := 0 STEP 1 UNTIL 99 DO A[J] := J * 7;
FOR J := 0 STEP 1 UNTIL 99 DO TOTAL := (TOTAL + A[J]) MASK 4095
END FINISH";

const FACTORIAL: &str = "LIBRARY (PROCEDURE WRITEBYTE(VALUE INTEGER)); SEGMENT A BEGIN
INTEGER RECURSIVE F(VALUE INTEGER N); IF N < 2 THEN ANSWER 1 ELSE ANSWER N * F(N - 1);
WRITEBYTE(F(7) / 256); WRITEBYTE(F(7))
END FINISH";

const FILTER: &str =
    "COMMON (FIXED(16,4) LEVEL; INTEGER PROCEDURE ALARM(VALUE INTEGER)); SEGMENT FILTER BEGIN
INTEGER PROCEDURE ALARM(VALUE INTEGER X);
BEGIN LEVEL := LEVEL + (X - LEVEL) * 0.5; IF LEVEL >= 60 THEN ANSWER 1 ELSE ANSWER 0 END;
LEVEL := 0
END FINISH";

const CONTROL: &str = "COMMON (FIXED(16,4) LEVEL; INTEGER PROCEDURE ALARM(VALUE INTEGER));
LIBRARY (INTEGER PROCEDURE READBYTE; PROCEDURE WRITEBYTE(VALUE INTEGER)); SEGMENT CONTROL BEGIN
INTEGER C, STATE, N; TABLE LOG[1,4][SEEN UNSIGNED(8,0)0,0; KIND(8,0)0,8]; SWITCH ACT := IDLE, BUSY;
STATE := 1;
NEXT: C := READBYTE; IF C < 0 THEN GOTO DONE;
IF ALARM(C) = 1 THEN STATE := 2;
GOTO ACT[STATE];
IDLE: SEEN[0] := SEEN[0] + 1; GOTO NEXT;
BUSY: SEEN[1] := SEEN[1] + 1; KIND[1] := -1; GOTO NEXT;
DONE: WRITEBYTE(SEEN[0]); WRITEBYTE(SEEN[1]); WRITEBYTE(KIND[1])
END FINISH";

const SAMPLES: &[Sample] = &[
    Sample {
        name: "first",
        text: FIRST,
        by_bcc: 23,
    },
    Sample {
        name: "loops",
        text: LOOPS,
        by_bcc: 91,
    },
    Sample {
        name: "factorial",
        text: FACTORIAL,
        by_bcc: 73,
    },
    Sample {
        name: "filter",
        text: FILTER,
        by_bcc: 51,
    },
    Sample {
        name: "control",
        text: CONTROL,
        by_bcc: 115,
    },
];

// The object of a text, where it is compiled.
fn object_of(alloc: Global, text: &str) -> Option<List<u8>> {
    if text.len() > 1_048_576 {
        return None;
    }
    let Ok(segment) = compile_text(alloc, text.as_bytes(), 0) else {
        return None;
    };
    let made = segment.made;
    Some(made.object)
}

// The bytes of its code, without the library.
fn code_of(alloc: Global, text: &str) -> Option<usize> {
    let object = object_of(alloc, text)?;
    match View::open(object.as_slice()) {
        Ok(view) => Some(view.code().len()),
        Err(_) => None,
    }
}

fn measure(rt: &impl Print, alloc: Global, sample: &Sample) -> anyhow::Result<()> {
    match code_of(alloc, sample.text) {
        Some(bytes) => println!(rt;
            "{}: {bytes} bytes of code, {} by bcc",
            sample.name, sample.by_bcc
        )?,
        None => println!(rt; "{}: not compiled", sample.name)?,
    }
    Ok(())
}

/// The texts of a program, one or two, the bytes that it reads, and how many instructions run of what bcc makes of the same in C, without the routines
/// that read and write a byte.
#[derive(Clone, Copy)]
struct Program {
    name: &'static str,
    texts: &'static [&'static str],
    input: &'static [u8],
    by_bcc: u32,
}

const PROGRAMS: &[Program] = &[
    Program {
        name: "first",
        texts: &[FIRST],
        input: b"",
        by_bcc: 11,
    },
    Program {
        name: "loops",
        texts: &[LOOPS],
        input: b"",
        by_bcc: 2418,
    },
    Program {
        name: "factorial",
        texts: &[FACTORIAL],
        input: b"",
        by_bcc: 206,
    },
    Program {
        name: "filter and control",
        texts: &[FILTER, CONTROL],
        input: b"\x28\x78\xC8\xC8",
        by_bcc: 174,
    },
];

const LIMITS: Limits = Limits {
    area: 1000,
    frames: 100,
    depth: 20,
};

/// How many bytes are read and written at most.
const MOST: usize = 64;

/// A run has fewer instructions, 2 to the number of halvings.
const FEWER: u64 = 131_072;

const HALVINGS: u32 = 17;

// The objects of texts, where they are compiled.
fn objects_of(alloc: Global, texts: &[&str]) -> Option<Vec<List<u8>>> {
    let mut objects = Vec::new(alloc);
    for text in texts {
        let object = object_of(alloc, text)?;
        objects.push(object).ok()?;
    }
    Some(objects)
}

// One object or two, linked.
fn linked(alloc: Global, objects: &[List<u8>]) -> Option<Linked> {
    match objects {
        [object] => match View::open(object.as_slice()) {
            Ok(view) => link(alloc, &[view], &LIMITS).ok(),
            Err(_) => None,
        },
        [first, second] => match (View::open(first.as_slice()), View::open(second.as_slice())) {
            (Ok(first), Ok(second)) => link(alloc, &[first, second], &LIMITS).ok(),
            _ => None,
        },
        _ => None,
    }
}

// Whether a program, over this input and output, has not ended after so many instructions.
fn goes_on(
    alloc: Global,
    code: &[u8],
    words: &[u16],
    input: &mut MemSource,
    out: &mut MemSink,
    count: u64,
) -> Option<bool>
    requires some { 0 < length code.now }
    requires code { length code.now ≤ 65536 }
    requires words { length words.now ≤ 32768 }
{
    let mut cpu = Cpu::start(alloc, code, words).ok()?;
    Some(run_image(&mut cpu, input, out, count) == ImageEnd::Unfinished)
}

// The same over this input, with what it writes kept nowhere.
fn goes_on_from(
    alloc: Global,
    code: &[u8],
    words: &[u16],
    input: &mut MemSource,
    count: u64,
) -> Option<bool>
    requires some { 0 < length code.now }
    requires code { length code.now ≤ 65536 }
    requires words { length words.now ≤ 32768 }
{
    let mut out = MemSink::new(alloc, MOST, MOST, List::new(alloc)).ok()?;
    goes_on(alloc, code, words, input, &mut out, count)
}

// The same where it reads these bytes.
fn goes_on_with(alloc: Global, code: &[u8], words: &[u16], bytes: &[u8], count: u64) -> Option<bool>
    requires some { 0 < length code.now }
    requires code { length code.now ≤ 65536 }
    requires words { length words.now ≤ 32768 }
{
    let bytes = List::of(bytes.to_vec(alloc).ok()?);
    let mut input = MemSource::new(bytes, MOST, List::new(alloc));
    goes_on_from(alloc, code, words, &mut input, count)
}

// How many instructions a program runs to its end, by runs from its start: a run reads ahead, so it goes on with all of its input only by itself.
fn instructions_to_end(alloc: Global, code: &[u8], words: &[u16], bytes: &[u8]) -> Option<u64>
    requires some { 0 < length code.now }
    requires code { length code.now ≤ 65536 }
    requires words { length words.now ≤ 32768 }
{
    let mut few = 0_u64;
    let mut enough = FEWER;
    for _ in 0..HALVINGS {
        let count = few.wrapping_add(enough) / 2;
        if goes_on_with(alloc, code, words, bytes, count)? {
            few = count;
        } else {
            enough = count;
        }
    }
    if enough < FEWER { Some(enough) } else { None }
}

fn instructions_of_linked(alloc: Global, linked: &Linked, bytes: &[u8]) -> Option<u64> {
    let code = linked.image.code.as_slice();
    let words = linked.image.words.as_slice();
    if code.is_empty() || code.len() > 65_536 || words.len() > 32_768 {
        return None;
    }
    instructions_to_end(alloc, code, words, bytes)
}

fn instructions_of(alloc: Global, program: &Program) -> Option<u64> {
    let objects = objects_of(alloc, program.texts)?;
    let linked = linked(alloc, &objects)?;
    instructions_of_linked(alloc, &linked, program.input)
}

fn run(rt: &impl Print, alloc: Global, program: &Program) -> anyhow::Result<()> {
    match instructions_of(alloc, program) {
        Some(count) => println!(rt;
            "{}: {count} instructions run, {} by bcc",
            program.name, program.by_bcc
        )?,
        None => println!(rt; "{}: not run", program.name)?,
    }
    Ok(())
}

// A text of so many statements, of twelve bytes and six tokens each.
fn long_text(alloc: Global, statements: u32) -> Result<String, AllocError> {
    let mut text = String::from_str(alloc, "SEGMENT A BEGIN INTEGER X;\n")?;
    for _ in 0..statements {
        text.push_str("X := X + 1;\n")?;
    }
    text.push_str("END FINISH\n")?;
    Ok(text)
}

// Compiles a text of so many statements again and again, and tells how long each token took.
fn time_text_of(
    rt: &(impl Print + Eprint + Clock),
    alloc: Global,
    text: &str,
    statements: u32,
    times: u32,
) -> anyhow::Result<()> {
    let mut bytes = 0_usize;
    let start = Instant::now(rt)?;
    for _ in 0..times {
        bytes = code_of(alloc, text).unwrap_or(0);
    }
    let took = start.elapsed(rt)?.as_micros();
    println!(rt; "{statements} statements, {bytes} bytes of code")?;
    let of_text = u128::from(times) * text.len() as u128;
    if took > 0 {
        eprintln!(rt;
            "{statements} statements: {} kilobytes of source a second",
            of_text * 1000 / took
        )?;
    }
    Ok(())
}

fn time(
    rt: &(impl Print + Eprint + Clock),
    alloc: Global,
    statements: u32,
    times: u32,
) -> anyhow::Result<()> {
    let text = long_text(alloc, statements)?;
    time_text_of(rt, alloc, text.as_str(), statements, times)
}

// Tells the share of each pass in so many microseconds.
fn tell(rt: &impl Eprint, spans: &[Span], whole: u128) -> anyhow::Result<()> {
    if whole == 0 {
        return Ok(());
    }
    for span in spans {
        if let Some(hundredfold) = span.took.checked_mul(100) {
            eprintln!(rt; "{}: {} of 100", span.pass, hundredfold / whole)?;
        }
    }
    Ok(())
}

// Tells the share of each pass in compiling a text, in hundredths; what is left goes to orders, code and the object.
fn share_of(rt: &(impl Eprint + Clock), alloc: Global, text: &str) -> anyhow::Result<()> {
    if text.len() > 1_048_576 {
        return Ok(());
    }
    let start = Instant::now(rt)?;
    let _bytes = code_of(alloc, text);
    let whole = start.elapsed(rt)?.as_micros();
    let mut spans = Spans::new(alloc);
    time_text(rt, alloc, text.as_bytes(), &mut spans);
    match spans.list() {
        Some(list) => tell(rt, list, whole),
        None => Ok(()),
    }
}

// The same of a text of so many statements.
fn share(rt: &(impl Eprint + Clock), alloc: Global, statements: u32) -> anyhow::Result<()> {
    let text = long_text(alloc, statements)?;
    share_of(rt, alloc, text.as_str())
}

fn main(rt: HostRuntime) -> anyhow::Result<()> {
    for sample in SAMPLES {
        measure(&rt, rt.alloc(), sample)?;
    }
    for program in PROGRAMS {
        run(&rt, rt.alloc(), program)?;
    }
    time(&rt, rt.alloc(), 166, 640)?;
    time(&rt, rt.alloc(), 10_900, 10)?;
    share(&rt, rt.alloc(), 10_900)?;
    Ok(())
}
