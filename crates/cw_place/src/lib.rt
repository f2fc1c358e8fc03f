//! Storage allocation over a list of segments.
#![tactic(auto)]

mod extents;
pub mod laws;
mod placing;
mod space;
mod spans;
mod sweep;

ghost use Rattle.std.specs.Prelude.{◌≤◌, length};
ghost use Rattle.cw_place.specs.Segments.{AreOf, segment_storage};
ghost use Rattle.cw_place.specs.Placement.{IsLimits, AnswersPlace};

use crate::extents::name_extents;
use crate::placing::{Room, place_all};
use crate::space::{control_words, first_outside};
pub use crate::space::{PlaceFault, Space};
use crate::spans::spans;
use cw_comm::Agreed;
use cw_unit::layout::{Limits, Map};
use std::alloc::Global;

/// The words that the control stack may take.
const CONTROL: u64 = 32000;

/// The storage map of segments whose names agree, or the first reason why they have none: an absolute family that ends
/// in the frame area or behind it, then families that take too many words, then a control stack that does. At most 200
/// segments. The time is near linear in the number of families.
pub fn place(
    alloc: Global,
    agreed: &Agreed,
    spaces: &[Space],
    limits: &Limits,
) -> Result<Map, PlaceFault>
    requires of { AreOf agreed.now spaces.now }
    requires count { length spaces.now ≤ 200 }
    requires limits { IsLimits limits.now }
    ensures { AnswersPlace (segment_storage agreed.now spaces.now) spaces.now limits.now result }
{
    if let Some((segment, address)) = first_outside(spaces, limits.area - limits.frames) {
        return Err(PlaceFault::AbsoluteOutside { segment, address });
    }
    let spans = spans(alloc, spaces)?;
    let extents = name_extents(alloc, agreed, spaces)?;
    let (absolute, shared) = (spans.as_slice(), extents.as_slice());
    let room = Room {
        spans: absolute,
        extents: shared,
    };
    let (homes, end) = place_all(alloc, agreed, spaces, &room)?;
    let need = end.saturating_add(u64::from(limits.frames));
    if need > u64::from(limits.area) {
        return Err(PlaceFault::DataTooBig { need });
    }
    let control = control_words(spaces, limits.depth);
    if control > CONTROL {
        return Err(PlaceFault::ControlTooBig { need: control });
    }
    Ok(Map {
        homes,
        end: end as u32,
    })
}
