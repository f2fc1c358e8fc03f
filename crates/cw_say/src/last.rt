// The line that closes what is told of a run.
ghost use Rattle.std.specs.Prelude.{◌≡◌, ◌++◌, map, option_map, decimal, codes};
ghost use Rattle.cw_write.specs.Said.{Writes};
ghost use Rattle.cw_say.specs.Closing.{closing_line, file_name, long_name, stop_name, name_or_number, segment_name};

use crate::bad::write_bad;
use crate::faults::write_refusal;
use crate::link::write_unlinked;
use crate::status::{Long, Status};
use cw_io::{Failed, Sink};
use cw_word::Name;
use cw_write::{write_line, write_name, write_number, write_piece};

const USAGE: &[u8] =
    b"usage: coral66 [--data N] [--frames N] [--depth N] [--steps N] ACTION WORD...\n";

fn file_name<'a>(names: &'a [&str], file: u16) -> &'a [u8]
    ensures { result.now ≡ file_name (map (λ name. name.now) names.entry.now) file }
{
    match names.get(file as usize) {
        Some(name) => name.as_bytes(),
        None => b"",
    }
}

fn write_too_long<S: Sink>(say: &mut S, names: &[&str], long: &Long) -> Result<(), Failed>
    ensures { Writes (S.held say.old) (S.held say.new) (S.faults say.old) (S.faults say.new)
        (codes "too long: " ++ long_name (map (λ name. name.now) names.now) long.now ++ codes "\n") result }
{
    match long {
        Long::File(file) => write_name(say, b"too long: ", file_name(names, *file)),
        Long::Input => write_name(say, b"too long: ", b"input"),
    }
}

/// Writes the line that closes what is told of a run.
pub fn write_last<S: Sink>(
    say: &mut S,
    names: &[&str],
    segments: &[Name],
    status: &Status,
) -> Result<(), Failed>
    ensures line { Writes (S.held say.old) (S.held say.new) (S.faults say.old) (S.faults say.new)
        (closing_line (map (λ name. name.now) names.now) segments.now status.now) result }
    ensures none { status.now ≡ Status.Ended → S.faults say.new ≡ S.faults say.old }
{
    match status {
        Status::Ended => Ok(()),
        Status::Usage => write_piece(say, USAGE),
        Status::Refused { file, fault } => write_refusal(say, file_name(names, *file), fault),
        Status::Unlinked(fault) => write_unlinked(say, fault),
        Status::Stopped {
            kind,
            segment,
            line,
        } => write_stopped(say, segments, *kind, *segment, *line),
        Status::Unfinished { steps } => write_number(say, b"unfinished: ", *steps),
        Status::NoFile { file } => write_name(say, b"no file: ", file_name(names, *file)),
        Status::Outside(which) => write_name(say, b"fault: ", which.name()),
        Status::NoMemory => write_piece(say, b"no memory\n"),
        Status::BadFile { file, fault } => write_bad(say, file_name(names, *file), fault),
        Status::TooLong(long) => write_too_long(say, names, long),
        Status::BadCode { offset } => write_number(say, b"bad code: ", u64::from(*offset)),
        Status::Divided { offset } => write_number(say, b"divided: ", u64::from(*offset)),
        Status::TooMany { count } => write_number(say, b"too many: ", u64::from(*count)),
        Status::NoPlace => write_name(say, b"no place: ", file_name(names, 0)),
        Status::NoItem { index } => write_name(say, b"no item: ", file_name(names, *index)),
    }
}

// The name of a kind of stop that has one.
fn stop_name(kind: u8) -> Option<&'static [u8]>
    ensures { option_map (λ name. name.now) result ≡ stop_name kind }
{
    match kind {
        1 => Some(b"Overflow"),
        2 => Some(b"ZeroDivisor"),
        3 => Some(b"Switch"),
        4 => Some(b"Address"),
        5 => Some(b"Frames"),
        6 => Some(b"Depth"),
        7 => Some(b"Bounds"),
        _ => None,
    }
}

fn name_or_number<'a>(name: Option<&'a [u8]>, digits: &'a [u8], number: u16) -> &'a [u8]
    requires { digits.now ≡ decimal number }
    ensures { result.now ≡ name_or_number (option_map (λ name. name.now) name.entry) number }
{
    match name {
        Some(name) => name,
        None => digits,
    }
}

fn write_stopped<S: Sink>(
    say: &mut S,
    segments: &[Name],
    kind: u8,
    number: u8,
    line: u16,
) -> Result<(), Failed>
    ensures { Writes (S.held say.old) (S.held say.new) (S.faults say.old) (S.faults say.new)
        (codes "stopped: " ++ name_or_number (stop_name kind) kind ++ codes " "
        ++ name_or_number (segment_name segments.now number) number ++ codes " " ++ decimal line ++ codes "\n")
        result }
{
    let mut kind_digits = itoa::Buffer::new();
    let mut number_digits = itoa::Buffer::new();
    let mut line_digits = itoa::Buffer::new();
    let kind_text = name_or_number(
        stop_name(kind),
        kind_digits.format(kind).as_bytes(),
        u16::from(kind),
    );
    let name = segment_bytes(segments, number);
    let segment_text = name_or_number(
        name,
        number_digits.format(number).as_bytes(),
        u16::from(number),
    );
    let line_text = line_digits.format(line).as_bytes();
    write_stopped_parts(say, kind_text, segment_text, line_text)
}

fn write_stopped_parts<S: Sink>(
    say: &mut S,
    kind: &[u8],
    segment: &[u8],
    line: &[u8],
) -> Result<(), Failed>
    ensures { Writes (S.held say.old) (S.held say.new) (S.faults say.old) (S.faults say.new)
        (codes "stopped: " ++ kind.now ++ codes " " ++ segment.now ++ codes " " ++ line.now ++ codes "\n") result }
{
    write_line(say, &[b"stopped: ", kind, b" ", segment, b" ", line, b"\n"])
}

fn segment_bytes(segments: &[Name], number: u8) -> Option<&[u8]>
    ensures { option_map (λ name. name.now) result ≡ segment_name segments.now number }
{
    if number == 0 {
        return None;
    }
    match segments.get(number as usize - 1) {
        Some(name) => Some(name.bytes()),
        None => None,
    }
}
