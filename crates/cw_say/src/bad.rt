// The lines that tell what is wrong with bytes that are not what an action takes.
ghost use Rattle.std.specs.Prelude.{◌++◌, decimal, codes};
ghost use Rattle.cw_write.specs.Said.{Writes};
ghost use Rattle.cw_say.specs.Closing.{bad_line, bad_place, object_line, image_line, hex_line, library_line, bad_file_line};

use crate::status::Bad;
use cw_hex::HexFault;
use cw_image::ImageFault;
use cw_io::{Failed, Sink};
use cw_lib::LibFault;
use cw_view::ObjFault;
use cw_write::write_line;

// Writes what is wrong with a file behind a mark, and the place of it, if there is one.
fn write_place_behind<S: Sink>(
    say: &mut S,
    file: &[u8],
    mark: &[u8],
    text: &[u8],
    place: u64,
) -> Result<(), Failed>
    ensures { Writes (S.held say.old) (S.held say.new) (S.faults say.old) (S.faults say.new) (file.now ++ bad_place mark.now text.now place) result }
{
    let mut buffer = itoa::Buffer::new();
    write_place_parts(say, file, mark, text, buffer.format(place).as_bytes())
}

fn write_place_parts<S: Sink>(
    say: &mut S,
    file: &[u8],
    mark: &[u8],
    text: &[u8],
    place: &[u8],
) -> Result<(), Failed>
    ensures { Writes (S.held say.old) (S.held say.new) (S.faults say.old) (S.faults say.new)
        (file.now ++ (mark.now ++ (text.now ++ (codes " " ++ (place.now ++ codes "\n"))))) result }
{
    write_line(say, &[file, mark, text, b" ", place, b"\n"])
}

fn write_wrong_behind<S: Sink>(
    say: &mut S,
    file: &[u8],
    mark: &[u8],
    text: &[u8],
) -> Result<(), Failed>
    ensures { Writes (S.held say.old) (S.held say.new) (S.faults say.old) (S.faults say.new) (file.now ++ bad_line mark.now text.now) result }
{
    write_line(say, &[file, mark, text, b"\n"])
}

fn write_place<S: Sink>(say: &mut S, file: &[u8], text: &[u8], place: u64) -> Result<(), Failed>
    ensures { Writes (S.held say.old) (S.held say.new) (S.faults say.old) (S.faults say.new) (file.now ++ bad_place (codes ": ") text.now place) result }
{
    write_place_behind(say, file, b": ", text, place)
}

fn write_wrong<S: Sink>(say: &mut S, file: &[u8], text: &[u8]) -> Result<(), Failed>
    ensures { Writes (S.held say.old) (S.held say.new) (S.faults say.old) (S.faults say.new) (file.now ++ bad_line (codes ": ") text.now) result }
{
    write_wrong_behind(say, file, b": ", text)
}

// What is wrong with an object, which is a file or a member of one.
fn write_object_fault<S: Sink>(
    say: &mut S,
    file: &[u8],
    mark: &[u8],
    fault: &ObjFault,
) -> Result<(), Failed>
    ensures { Writes (S.held say.old) (S.held say.new) (S.faults say.old) (S.faults say.new) (file.now ++ object_line mark.now fault.now) result }
{
    match fault {
        ObjFault::NotObject => write_wrong_behind(say, file, mark, b"O1 NotObject"),
        ObjFault::BadVersion => write_wrong_behind(say, file, mark, b"O2 BadVersion"),
        ObjFault::Truncated { at } => write_place_behind(say, file, mark, b"O3 Truncated", *at),
        ObjFault::BadRecord { at } => write_place_behind(say, file, mark, b"O4 BadRecord", *at),
        ObjFault::Trailing { at } => write_place_behind(say, file, mark, b"O5 Trailing", *at),
    }
}

fn write_image_fault<S: Sink>(say: &mut S, file: &[u8], fault: &ImageFault) -> Result<(), Failed>
    ensures { Writes (S.held say.old) (S.held say.new) (S.faults say.old) (S.faults say.new) (file.now ++ image_line fault.now) result }
{
    match fault {
        ImageFault::NotImage => write_wrong(say, file, b"I1 NotImage"),
        ImageFault::BadVersion => write_wrong(say, file, b"I2 BadVersion"),
        ImageFault::Truncated { at } => write_place(say, file, b"I3 Truncated", *at),
        ImageFault::BadField { at } => write_place(say, file, b"I4 BadField", *at),
        ImageFault::Trailing { at } => write_place(say, file, b"I5 Trailing", *at),
        ImageFault::NoMemory => write_wrong(say, file, b"NoMemory"),
    }
}

fn write_hex_fault<S: Sink>(say: &mut S, file: &[u8], fault: &HexFault) -> Result<(), Failed>
    ensures { Writes (S.held say.old) (S.held say.new) (S.faults say.old) (S.faults say.new) (file.now ++ hex_line fault.now) result }
{
    match fault {
        HexFault::BadLine { line } => write_place(say, file, b"X1 BadLine", *line),
        HexFault::BadSum { line } => write_place(say, file, b"X2 BadSum", *line),
        HexFault::BadType { line } => write_place(say, file, b"X3 BadType", *line),
        HexFault::AfterEnd { line } => write_place(say, file, b"X4 AfterEnd", *line),
        HexFault::NoEnd { line } => write_place(say, file, b"X5 NoEnd", *line),
        HexFault::NoMemory => write_wrong(say, file, b"NoMemory"),
    }
}

// A member of a library that is no object, by its number, from 1.
fn write_member_fault<S: Sink>(
    say: &mut S,
    file: &[u8],
    member: u16,
    fault: &ObjFault,
) -> Result<(), Failed>
    ensures { Writes (S.held say.old) (S.held say.new) (S.faults say.old) (S.faults say.new)
        (file.now ++ (codes ": B5 BadMember " ++ (decimal member ++ object_line (codes " ") fault.now))) result }
{
    let mut buffer = itoa::Buffer::new();
    let digits = buffer.format(member);
    match write_line(say, &[file, b": B5 BadMember ", digits.as_bytes()]) {
        Ok(()) => write_object_fault(say, b"", b" ", fault),
        Err(failed) => Err(failed),
    }
}

fn write_library_fault<S: Sink>(say: &mut S, file: &[u8], fault: &LibFault) -> Result<(), Failed>
    ensures { Writes (S.held say.old) (S.held say.new) (S.faults say.old) (S.faults say.new) (file.now ++ library_line fault.now) result }
{
    match fault {
        LibFault::NotLibrary => write_wrong(say, file, b"B1 NotLibrary"),
        LibFault::BadVersion => write_wrong(say, file, b"B2 BadVersion"),
        LibFault::Truncated { at } => write_place(say, file, b"B3 Truncated", *at),
        LibFault::BadField { at } => write_place(say, file, b"B4 BadField", *at),
        LibFault::BadMember { member, fault } => write_member_fault(say, file, *member, fault),
        LibFault::Trailing { at } => write_place(say, file, b"B6 Trailing", *at),
    }
}

pub(crate) fn write_bad<S: Sink>(say: &mut S, file: &[u8], fault: &Bad) -> Result<(), Failed>
    ensures { Writes (S.held say.old) (S.held say.new) (S.faults say.old) (S.faults say.new) (file.now ++ bad_file_line fault.now) result }
{
    match fault {
        Bad::Object(fault) => write_object_fault(say, file, b": ", fault),
        Bad::Image(fault) => write_image_fault(say, file, fault),
        Bad::Hex(fault) => write_hex_fault(say, file, fault),
        Bad::Library(fault) => write_library_fault(say, file, fault),
    }
}
