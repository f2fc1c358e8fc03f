//! What a stop word means.
use cw_word::{List, Name, NoMemory};

/// A line of a segment, and the words that are watched there.
#[derive(Drop)]
pub struct Stop {
    pub segment: Name,
    /// From 1.
    pub line: u16,
    /// At most 16, in order.
    pub watched: List<Watched>,
}

/// A watched word.
#[derive(Drop)]
pub struct Watched {
    /// The item's owner and name as the storage map prints them, in capitals.
    pub text: List<u8>,
    /// The number of the word in the item, from 0.
    pub word: u32,
}

/// Why there is no stop.
#[derive(Clone, Copy, Debug, PartialEq, Eq)]
pub enum StopFault {
    /// The word is not of the form.
    NotAStop,
    /// There is no memory for what it names.
    NoMemory,
}

impl From<NoMemory> for StopFault {
    ghost use Rattle.std.specs.Prelude.{◌≡◌};
    ghost use Rattle.cw_stop.specs.declared.stopping.StopFault.TheVariants.{NoMemory as OutOfMemory};

    ghost from_gives = { λ _ fault. fault ≡ OutOfMemory };

    fn from(_: NoMemory) -> StopFault {
        StopFault::NoMemory
    }
}
