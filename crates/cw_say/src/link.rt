// The lines that tell why segments do not link.
ghost use Rattle.std.specs.Prelude.{◌++◌, decimal, codes};
ghost use Rattle.cw_write.specs.Said.{Writes};
ghost use Rattle.cw_say.specs.Closing.{clash_line, link_line};

use crate::status::LinkFault;
use cw_io::{Failed, Sink};
use cw_write::{write_line, write_name, write_number, write_piece};

// Writes a text, two numbers and the end of the line.
fn write_outside<S: Sink>(say: &mut S, text: &[u8], segment: u8, address: u16) -> Result<(), Failed>
    ensures { Writes (S.held say.old) (S.held say.new) (S.faults say.old) (S.faults say.new)
        (text.now ++ decimal segment ++ codes " " ++ decimal address ++ codes "\n") result }
{
    let mut segment_buffer = itoa::Buffer::new();
    let mut address_buffer = itoa::Buffer::new();
    let segment_digits = segment_buffer.format(segment).as_bytes();
    let address_digits = address_buffer.format(address).as_bytes();
    write_line(say, &[text, segment_digits, b" ", address_digits, b"\n"])
}

// Writes a text, what clashes, the numbers of two segments and the end of the line.
fn write_segments<S: Sink>(
    say: &mut S,
    text: &[u8],
    what: &[u8],
    first: u8,
    second: u8,
) -> Result<(), Failed>
    ensures { Writes (S.held say.old) (S.held say.new) (S.faults say.old) (S.faults say.new) (clash_line text.now what.now first second) result }
{
    let mut first_buffer = itoa::Buffer::new();
    let mut second_buffer = itoa::Buffer::new();
    let first_digits = first_buffer.format(first).as_bytes();
    let second_digits = second_buffer.format(second).as_bytes();
    write_line(
        say,
        &[text, what, b" ", first_digits, b" ", second_digits, b"\n"],
    )
}

pub(crate) fn write_unlinked<S: Sink>(say: &mut S, fault: &LinkFault) -> Result<(), Failed>
    ensures { Writes (S.held say.old) (S.held say.new) (S.faults say.old) (S.faults say.new) (link_line fault.now) result }
{
    match fault {
        LinkFault::SegmentTwice { name } => {
            write_name(say, b"link: K5 SegmentTwice ", name.bytes())
        }
        LinkFault::Differs {
            name,
            first,
            second,
        } => write_segments(say, b"link: K1 Differs ", name.bytes(), *first, *second),
        LinkFault::DefinedTwice {
            name,
            first,
            second,
        } => write_segments(
            say,
            b"link: K3 DefinedTwice ",
            name.bytes(),
            *first,
            *second,
        ),
        LinkFault::Undefined { name } => write_name(say, b"link: K2 Undefined ", name.bytes()),
        LinkFault::NoMemory => write_piece(say, b"link: NoMemory\n"),
        LinkFault::AbsoluteOutside { segment, address } => {
            write_outside(say, b"link: P2 AbsoluteOutside ", *segment, *address)
        }
        LinkFault::DataTooBig { need } => write_number(say, b"link: P1 DataTooBig ", *need),
        LinkFault::ControlTooBig { need } => write_number(say, b"link: P3 ControlTooBig ", *need),
        LinkFault::PresetClash {
            address,
            first,
            second,
        } => {
            let mut buffer = itoa::Buffer::new();
            let digits = buffer.format(*address).as_bytes();
            write_segments(say, b"link: K4 PresetClash ", digits, *first, *second)
        }
        LinkFault::CodeTooBig { bytes } => write_number(say, b"link: P4 CodeTooBig ", *bytes),
    }
}
