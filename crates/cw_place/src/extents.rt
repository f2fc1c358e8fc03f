//! How many words the names of COMMON lists take.
ghost use Rattle.std.specs.Prelude.{◌≡◌, ℕ, ◌<◌, max, length, slice_index, slice_get, nat_eq, if◌then◌else◌, Some, IfOk};
ghost use Rattle.cw_unit.specs.Allocation.{name_at, extent_in_segment};
ghost use Rattle.cw_place.specs.declared.space.Space.{Space as SegmentSpace};
ghost use Rattle.cw_place.specs.Segments.{AreOf, names_of, segment_storage};
ghost use Rattle.cw_place.specs.Placing.{TellsExtents};

use crate::space::Space;
use cw_comm::Agreed;
use cw_unit::layout::Sort;
use cw_word::NoMemory;
use std::alloc::Global;

// Raises an extent to this one.
fn raise(extents: &mut Vec<u32>, number: usize, extent: u32)
    requires { number < length extents.old.items }
    ensures count { length extents.new.items ≡ length extents.old.items }
    ensures raised { (k : ℕ) → slice_index extents.new.items k ≡ max (slice_index extents.old.items k) (if nat_eq k number then extent else 0) }
{
    if extents[number] < extent {
        extents[number] = extent;
    }
}

// Raises the extents of names to those that a segment gives.
fn raise_extents(extents: &mut Vec<u32>, agreed: &Agreed, spaces: &[Space], segment: usize)
    requires of { AreOf agreed.now spaces.now }
    requires segment { segment < length spaces.now }
    requires count { length extents.old.items ≡ length agreed.now.names }
    ensures count { length extents.new.items ≡ length extents.old.items }
    ensures raised { (k : ℕ) (s : SegmentSpace) → k < length agreed.now.names → slice_get spaces.now segment ≡ Some s
        → slice_index extents.new.items k ≡ max (slice_index extents.old.items k)
        (extent_in_segment (name_at agreed.now.names k) (names_of agreed.now segment) s.families) }
{
    let numbers = agreed.of.as_slice()[segment].as_slice();
    let families = spaces[segment].families.as_slice();
    for n in 0..families.len() {
        if let Sort::Common(descriptor) = families[n].sort {
            raise(extents, numbers[descriptor as usize], families[n].extent);
        }
    }
}

/// For each name the largest extent that a segment gives it.
pub(crate) fn name_extents(
    alloc: Global,
    agreed: &Agreed,
    spaces: &[Space],
) -> Result<Vec<u32>, NoMemory>
    requires { AreOf agreed.now spaces.now }
    ensures { IfOk result (λ extents. TellsExtents agreed.now (segment_storage agreed.now spaces.now) extents.items) }
{
    let mut extents = vec![in alloc; 0u32; agreed.names.as_slice().len()].map_err(|_| NoMemory)?;
    for segment in 0..spaces.len() {
        raise_extents(&mut extents, agreed, spaces, segment);
    }
    Ok(extents)
}
