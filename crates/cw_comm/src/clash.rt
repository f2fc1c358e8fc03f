//! Why segments do not agree.
ghost use Rattle.cw_comm.specs.declared.clash.Clash.TheVariants as clashes;
ghost use Rattle.std.specs.Prelude.{◌≡◌};

use cw_word::{Name, NoMemory};

/// The first thing in which segments do not agree. Segments count from 1.
#[derive(Clone, Copy, Debug)]
pub enum Clash {
    /// Two segments have this name.
    SegmentTwice { name: Name },
    /// Two segments list this name with descriptors that differ.
    Differs { name: Name, first: u8, second: u8 },
    /// Two segments define this name.
    DefinedTwice { name: Name, first: u8, second: u8 },
    /// This label, switch or procedure has no definition.
    Undefined { name: Name },
    NoMemory,
}

impl From<NoMemory> for Clash {
    ghost from_gives = { λ _ clash. clash ≡ clashes.NoMemory };

    fn from(_: NoMemory) -> Clash {
        Clash::NoMemory
    }
}
