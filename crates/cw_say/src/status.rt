//! What a call of the command comes to.
use cw_compile::Refusal;
use cw_hex::HexFault;
use cw_image::ImageFault;
use cw_lib::LibFault;
pub use cw_link::LinkFault;
use cw_view::ObjFault;

/// What a call of the command came to.
#[derive(Drop)]
pub enum Status {
    /// The program ran to its end.
    Ended,
    /// The words are not the command.
    Usage,
    /// The text of this file has no unit: its first fault.
    Refused { file: u16, fault: Refusal },
    /// What was compiled does not link; never for want of memory.
    Unlinked(LinkFault),
    /// The program stopped, for the cause of this kind, at a line of a segment, counted from 1.
    Stopped { kind: u8, segment: u8, line: u16 },
    /// The program is still running after so many instructions.
    Unfinished { steps: u64 },
    /// There is no such file.
    NoFile { file: u16 },
    /// Something outside failed.
    Outside(Which),
    /// There is no memory for what was asked.
    NoMemory,
    /// The bytes of this file are not what the action takes.
    BadFile { file: u16, fault: Bad },
    /// Something has more bytes than its limit.
    TooLong(Long),
    /// No instruction begins where the machine stands.
    BadCode { offset: u16 },
    /// A quotient of the machine faults.
    Divided { offset: u16 },
    /// So many objects are to be linked, more than 200.
    TooMany { count: u32 },
    /// No statement begins at the segment and the line of the stop word.
    NoPlace,
    /// This watched name of the stop word, counted from 0, means no word that has an address.
    NoItem { index: u16 },
}

/// The first thing that is wrong with bytes; never want of memory.
#[derive(Clone, Copy, Debug)]
pub enum Bad {
    /// They are no object.
    Object(ObjFault),
    /// They are no image.
    Image(ImageFault),
    /// They are no HEX text.
    Hex(HexFault),
    /// They are no library of objects.
    Library(LibFault),
}

/// What failed outside.
#[derive(Clone, Copy, Debug, PartialEq, Eq)]
pub enum Which {
    Store,
    Input,
    Out,
    Say,
}

/// What is too long. Files count from 0.
#[derive(Clone, Copy, Debug, PartialEq, Eq)]
pub enum Long {
    File(u16),
    Input,
}

impl Status {
    ghost use Rattle.std.specs.Prelude.{◌≡◌};
    ghost use Rattle.cw_say.specs.Closing.{status_code};

    /// The exit status of the process.
    pub fn code(&self) -> u8
        ensures { result ≡ status_code self.now }
    {
        match self {
            Status::Ended => 0,
            Status::Usage => 1,
            Status::Refused { .. } => 2,
            Status::Unlinked(_) => 3,
            Status::Stopped { .. } => 4,
            Status::Unfinished { .. } => 5,
            Status::NoFile { .. } => 6,
            Status::Outside(_) => 7,
            Status::NoMemory => 8,
            Status::BadFile { .. } => 9,
            Status::TooLong(_) => 10,
            Status::BadCode { .. } => 11,
            Status::Divided { .. } => 12,
            Status::TooMany { .. } => 13,
            Status::NoPlace => 14,
            Status::NoItem { .. } => 15,
        }
    }
}

impl Which {
    ghost use Rattle.std.specs.Prelude.{◌≡◌};
    ghost use Rattle.cw_say.specs.Closing.{which_name};

    /// How it is named.
    pub(crate) fn name(self) -> &'static [u8]
        ensures { result.now ≡ which_name self }
    {
        match self {
            Which::Store => b"store",
            Which::Input => b"input",
            Which::Out => b"out",
            Which::Say => b"say",
        }
    }
}
