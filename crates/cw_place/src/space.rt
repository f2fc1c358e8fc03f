//! What has to be placed, and where it does not fit.
ghost use Rattle.std.specs.Prelude.{◌≡◌, ◌≤◌, ◌<◌, ◌+◌, ◌*◌, length};
ghost use Rattle.cw_place.specs.declared.space.PlaceFault.TheVariants as faults;
ghost use Rattle.cw_place.specs.Fitting.{outside_in, first_outside, largest_need, control_words};

use cw_unit::layout::{Family, Sort};
use cw_word::{List, NoMemory};

/// The storage of a segment: its families, and the words of its control stack record.
#[derive(Drop)]
pub struct Space {
    pub families: List<Family>,
    pub need: u16,
}

/// Why segments have no place.
#[derive(Clone, Copy, Debug, PartialEq, Eq)]
pub enum PlaceFault {
    /// The absolute family at this address ends behind the words that families may have. Segments count from 1.
    AbsoluteOutside { segment: u8, address: u16 },
    /// Families and frames take this many words, which is more than there are.
    DataTooBig { need: u64 },
    /// The control stack takes this many words, which is more than it may.
    ControlTooBig { need: u64 },
    NoMemory,
}

impl From<NoMemory> for PlaceFault {
    ghost from_gives = { λ _ fault. fault ≡ faults.NoMemory };

    fn from(_: NoMemory) -> PlaceFault {
        PlaceFault::NoMemory
    }
}

/// The address of the first absolute family that ends behind so many words.
fn outside(families: &[Family], room: u32) -> Option<u16>
    ensures { result ≡ outside_in room families.now }
{
    for family in families {
        if let Sort::Absolute(address) = family.sort {
            if u64::from(room) < u64::from(address) + u64::from(family.extent) {
                return Some(address);
            }
        }
    }
    None
}

/// The first absolute family that ends behind so many words: its segment, from 1, and its address.
pub(crate) fn first_outside(spaces: &[Space], room: u32) -> Option<(u8, u16)>
    requires { length spaces.now ≤ 200 }
    ensures { result ≡ first_outside room 1 spaces.now }
{
    for (number, space) in spaces.iter().enumerate() {
        if let Some(address) = outside(space.families.as_slice(), room) {
            return Some((number as u8 + 1, address));
        }
    }
    None
}

fn largest_need(spaces: &[Space]) -> u16
    ensures { result ≡ largest_need spaces.now }
{
    let mut largest = 0;
    for space in spaces {
        largest = space.need.max(largest);
    }
    largest
}

/// The words of the control stack, where so many calls may be active.
pub(crate) fn control_words(spaces: &[Space], depth: u16) -> u64
    ensures { result ≡ control_words depth spaces.now }
{
    (u64::from(depth) + 1) * u64::from(largest_need(spaces)) + 64
}
