//! Why a stop cannot be watched.
use cw_word::NoMemory;

/// Why a stop cannot be watched.
#[derive(Clone, Copy, Debug, PartialEq, Eq)]
pub enum WatchFault {
    /// No statement of that segment and line begins in the code.
    NoPlace,
    /// The watched name of this number, from 0, is none of the storage map that has an address, or the item has no such word.
    NoItem { index: u16 },
    /// There is no memory for the watch.
    NoMemory,
}

impl From<NoMemory> for WatchFault {
    ghost use Rattle.std.specs.Prelude.{◌≡◌};
    ghost use Rattle.cw_watch.specs.declared.fault.WatchFault.TheVariants.{NoMemory as OutOfMemory};

    ghost from_gives = { λ _ fault. fault ≡ OutOfMemory };

    fn from(_: NoMemory) -> WatchFault {
        WatchFault::NoMemory
    }
}
