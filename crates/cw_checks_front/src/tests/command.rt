//! Words, one line of them a row, with what they mean.
use crate::tests::rows::Left;
use cw_stop::{Stop, Watched};
use cw_words::{Action, Command, WordsFault, read_words};
use std::alloc::{AllocError, Global};
use std::test::Fail;

// A row a line: the words with a blank between any two, a question mark, and what they mean: the action, the words of the data
// area and of the frame area, the depth, the instructions, the number of texts, the WORDs, and behind an @ the stop: its segment, its line and what is watched.
// Nothing stands for usage.
const ROWS: &str = "go a?go 16384 4096 256 200000000 0 a
go a b c?go 16384 4096 256 200000000 0 a b c
compile a?compile 16384 4096 256 200000000 0 a
link a b?link 16384 4096 256 200000000 0 a b
exec a?exec 16384 4096 256 200000000 0 a
list a?list 16384 4096 256 200000000 0 a
map a b?map 16384 4096 256 200000000 0 a b
depth a b?depth 16384 4096 256 200000000 0 a b
code a b?code 16384 4096 256 200000000 0 a b
migrate a?migrate 16384 4096 256 200000000 0 a
hex a?hex 16384 4096 256 200000000 0 a
lib a b?lib 16384 4096 256 200000000 0 a b
lib a b c?lib 16384 4096 256 200000000 0 a b c
trace A:3 a?trace 16384 4096 256 200000000 0 A:3 a @ A 3
trace a:003:A.x,y[7],COMMON.FOR@2[010] a b?trace 16384 4096 256 200000000 0 a:003:A.x,y[7],COMMON.FOR@2[010] a b @ A 3 A.X[0] Y[7] COMMON.FOR@2[10]
trace LONGEST890123456789012345678901:65535:X[4294967295] a?trace 16384 4096 256 200000000 0 LONGEST890123456789012345678901:65535:X[4294967295] a @ LONGEST890123456789012345678901 65535 X[4294967295]
big 7?big 16384 4096 256 200000000 7 7
big 100?big 16384 4096 256 200000000 100 100
big 001?big 16384 4096 256 200000000 1 001
go go?go 16384 4096 256 200000000 0 go
--data 4096 go a?go 4096 4096 256 200000000 0 a
--data 4095 go a?
--data 1 --frames 0 go a?go 1 0 256 200000000 0 a
--data 1 --frames 1 go a?go 1 1 256 200000000 0 a
--data 0 --frames 0 go a?
--data 32768 go a?go 32768 4096 256 200000000 0 a
--data 32769 go a?
--frames 0 go a?go 16384 0 256 200000000 0 a
--frames 16384 go a?go 16384 16384 256 200000000 0 a
--frames 16385 go a?
--frames 32768 --data 32768 go a?go 32768 32768 256 200000000 0 a
--frames 32769 --data 32768 go a?
--frames 200 --data 100 go a?
--depth 1 go a?go 16384 4096 1 200000000 0 a
--depth 4096 go a?go 16384 4096 4096 200000000 0 a
--depth 4097 go a?
--depth 0 go a?
--steps 1 go a?go 16384 4096 256 1 0 a
--steps 1000000000000 go a?go 16384 4096 256 1000000000000 0 a
--steps 1000000000001 go a?
--steps 0 go a?
go --steps 5 a?go 16384 4096 256 5 0 a
go a --steps 5 b?go 16384 4096 256 5 0 a b
go a b --steps 5?go 16384 4096 256 5 0 a b
--steps=5 go a?go 16384 4096 256 5 0 a
--data 9 --frames 8 --depth 7 --steps 6 map a?map 9 8 7 6 0 a
--steps 1 --steps 1 go a?
--steps=1 go a --steps 2?
--data 18446744073709551617 go a?
--data five go a?
--data 1.5 go a?
--data -1 go a?
--data go a?
go a --data?
go?
--steps 5?
--steps 5 go?
run a?
GO a?
--fast go a?
--dat 5 go a?
-d 5 go a?
--help?
--help go a?
go --help?
-h?
--version?
help?
compile a b?
exec a b?
list a b?
migrate a b?
hex a b?
hex?
lib a?
lib?
trace A:3?
trace A a?
trace A: a?
trace :3 a?
trace A:0 a?
trace A:65536 a?
trace A:+3 a?
trace A:3: a?
trace A:3:X, a?
trace A:3:X[] a?
trace A:3:X[4294967296] a?
trace A:3:X[1]Y a?
trace A:3:X-Y a?
trace 1A:3 a?
trace LONGEST8901234567890123456789012:3 a?
trace A:3:X:4 a?
big 1 2?
big 0?
big 101?
big 0001?
big +1?
big x?
big -1?";

fn name(action: Action) -> &'static str {
    match action {
        Action::Go => "go",
        Action::Compile => "compile",
        Action::Link => "link",
        Action::Exec => "exec",
        Action::List => "list",
        Action::Map => "map",
        Action::Migrate => "migrate",
        Action::Big => "big",
        Action::Hex => "hex",
        Action::Lib => "lib",
        Action::Depth => "depth",
        Action::Trace => "trace",
        Action::Code => "code",
    }
}

fn takes_watched(
    alloc: Global,
    left: &mut Left<'_>,
    watched: &Watched,
) -> Result<bool, AllocError> {
    let word = format!(in alloc; "[{}]", watched.word)?;
    Ok(left.takes(b" ") && left.takes(watched.text.as_slice()) && left.takes(word.as_bytes()))
}

fn takes_all_watched(
    alloc: Global,
    left: &mut Left<'_>,
    watched: &[Watched],
) -> Result<bool, AllocError> {
    for watched in watched {
        if !takes_watched(alloc, left, watched)? {
            return Ok(false);
        }
    }
    Ok(true)
}

fn takes_line(alloc: Global, left: &mut Left<'_>, stop: &Stop) -> Result<bool, AllocError> {
    let line = format!(in alloc; " {}", stop.line)?;
    Ok(left.takes(b" @ ") && left.takes(stop.segment.bytes()) && left.takes(line.as_bytes()))
}

// What a stop is, as a row tells it.
fn takes_stop(alloc: Global, left: &mut Left<'_>, stop: &Stop) -> Result<bool, AllocError> {
    if takes_line(alloc, left, stop)? {
        takes_all_watched(alloc, left, stop.watched.as_slice())
    } else {
        Ok(false)
    }
}

fn takes_names(left: &mut Left<'_>, names: &[&str]) -> bool {
    for name in names {
        if !(left.takes(b" ") && left.takes(name.as_bytes())) {
            return false;
        }
    }
    true
}

fn takes_numbers(
    alloc: Global,
    left: &mut Left<'_>,
    command: &Command<'_>,
) -> Result<bool, AllocError> {
    let told = format!(in alloc;
        "{} {} {} {} {} {}",
        name(command.action),
        command.area,
        command.frames,
        command.depth,
        command.steps,
        command.copies
    )?;
    Ok(left.takes(told.as_bytes()) && takes_names(left, command.names.as_slice()))
}

// What a command is, as a row tells it.
fn is_command(alloc: Global, command: &Command<'_>, told: &str) -> Result<bool, AllocError> {
    let mut left = Left::new(told.as_bytes());
    let is_taken = takes_numbers(alloc, &mut left, command)?
        && match &command.stop {
            Some(stop) => takes_stop(alloc, &mut left, stop)?,
            None => true,
        };
    Ok(is_taken && left.is_empty())
}

fn is_meant(alloc: Global, words: &[String], told: &str) -> Result<bool, AllocError> {
    match read_words(alloc, words) {
        Ok(command) => is_command(alloc, &command, told),
        Err(WordsFault::Usage) => Ok(told.is_empty()),
        Err(WordsFault::NoMemory) => Err(AllocError),
    }
}

fn words_of(alloc: Global, line: &str) -> Result<Vec<String>, AllocError> {
    let mut words = Vec::new(alloc);
    for word in line.split(' ') {
        if !word.is_empty() {
            words.push(String::from_str(alloc, word)?)?;
        }
    }
    Ok(words)
}

fn is_row(alloc: Global, line: &str, told: &str) -> Result<bool, AllocError> {
    let words = words_of(alloc, line)?;
    is_meant(alloc, words.as_slice(), told)
}

#[test]
fn rows(rt: HostRuntime) -> Result<(), Fail> {
    let alloc = rt.alloc();
    for row in ROWS.split('\n') {
        let Some((line, told)) = row.split_once('?') else {
            return Err(AllocError.into());
        };
        assert!(rt; is_row(alloc, line, told)?, "{row}");
    }
    assert!(rt; is_meant(alloc, &[], "")?);
    Ok(())
}

// So many WORDs behind an action.
fn many(alloc: Global, action: &str, number: usize) -> Result<Vec<String>, AllocError> {
    let mut words = Vec::new(alloc);
    words.push(String::from_str(alloc, action)?)?;
    for _ in 0..number {
        words.push(String::from_str(alloc, "a")?)?;
    }
    Ok(words)
}

fn are_taken(alloc: Global, words: &[String]) -> Result<bool, AllocError> {
    match read_words(alloc, words) {
        Ok(_) => Ok(true),
        Err(WordsFault::Usage) => Ok(false),
        Err(WordsFault::NoMemory) => Err(AllocError),
    }
}

fn is_taken(alloc: Global, action: &str, number: usize) -> Result<bool, AllocError> {
    let words = many(alloc, action, number)?;
    are_taken(alloc, words.as_slice())
}

// Actions that take so many WORDs, or not.
const NUMBERS: &[(&str, usize, bool)] = &[
    ("go", 200, true),
    ("go", 201, false),
    ("link", 200, true),
    ("link", 201, false),
    ("map", 200, true),
    ("map", 201, false),
    ("code", 200, true),
    ("code", 201, false),
];

#[test]
fn numbers_of_words(rt: HostRuntime) -> Result<(), Fail> {
    let alloc = rt.alloc();
    for &(action, number, wanted) in NUMBERS {
        assert_eq!(rt; is_taken(alloc, action, number)?, wanted);
    }
    Ok(())
}
