//! Why objects do not link.
ghost use Rattle.std.specs.Prelude.{◌≡◌};
ghost use Rattle.cw_link.specs.LinkFaults.{of_clash, of_place_fault};
ghost use Rattle.cw_link.specs.declared.fault.LinkFault.TheVariants as faults;

use cw_comm::Clash;
use cw_place::PlaceFault;
use cw_word::{Name, NoMemory};

/// The first reason why objects do not link. Segments count from 1.
#[derive(Clone, Copy, Debug)]
pub enum LinkFault {
    /// Two segments have this name.
    SegmentTwice { name: Name },
    /// Two segments list this name with descriptors that differ.
    Differs { name: Name, first: u8, second: u8 },
    /// Two segments define this name.
    DefinedTwice { name: Name, first: u8, second: u8 },
    /// This label, switch or procedure has no definition.
    Undefined { name: Name },
    /// The absolute family at this address ends behind the words that families may have.
    AbsoluteOutside { segment: u8, address: u16 },
    /// Families and frames take this many words, which is more than there are.
    DataTooBig { need: u64 },
    /// The control stack takes this many words, which is more than it may.
    ControlTooBig { need: u64 },
    /// The word at this address has presets of different values: the first is of one segment, and the first other value of
    /// another.
    PresetClash { address: u32, first: u8, second: u8 },
    /// The code takes this many bytes, which is more than 65,536.
    CodeTooBig { bytes: u64 },
    NoMemory,
}

impl From<NoMemory> for LinkFault {
    ghost from_gives = { λ _ fault. fault ≡ faults.NoMemory };

    fn from(_: NoMemory) -> LinkFault {
        LinkFault::NoMemory
    }
}

impl From<Clash> for LinkFault {
    ghost from_gives = { λ clash fault. fault ≡ of_clash clash };

    fn from(clash: Clash) -> LinkFault {
        match clash {
            Clash::SegmentTwice { name } => LinkFault::SegmentTwice { name },
            Clash::Differs {
                name,
                first,
                second,
            } => LinkFault::Differs {
                name,
                first,
                second,
            },
            Clash::DefinedTwice {
                name,
                first,
                second,
            } => LinkFault::DefinedTwice {
                name,
                first,
                second,
            },
            Clash::Undefined { name } => LinkFault::Undefined { name },
            Clash::NoMemory => LinkFault::NoMemory,
        }
    }
}

impl From<PlaceFault> for LinkFault {
    ghost from_gives = { λ place fault. fault ≡ of_place_fault place };

    fn from(fault: PlaceFault) -> LinkFault {
        match fault {
            PlaceFault::AbsoluteOutside { segment, address } => {
                LinkFault::AbsoluteOutside { segment, address }
            }
            PlaceFault::DataTooBig { need } => LinkFault::DataTooBig { need },
            PlaceFault::ControlTooBig { need } => LinkFault::ControlTooBig { need },
            PlaceFault::NoMemory => LinkFault::NoMemory,
        }
    }
}
