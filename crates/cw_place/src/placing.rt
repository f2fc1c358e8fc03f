//! Families in their places, one after another.
ghost use Rattle.std.specs.Prelude.{◌≡◌, ◌≤◌, ◌<◌, ◌+◌, ℕ, length, slice_get, Some, IfOk, OnOk};
ghost use Rattle.std.specs.List.{All};
ghost use Rattle.cw_unit.specs.Allocation.{first_fit, absolute_ranges, family_address, addresses_from, homes_from, keys_from, last_end_of, placed_families};
ghost use Rattle.cw_unit.specs.declared.layout.Family.{Family as SegmentFamily};
ghost use Rattle.cw_place.specs.declared.space.Space.{Space as SegmentSpace};
ghost use Rattle.cw_place.specs.Sweep.{ranges_of, IsSpan, IsSwept, ArePassed};
ghost use Rattle.cw_place.specs.Segments.{AreOf, names_of, segment_storage};
ghost use Rattle.cw_place.specs.Placement.{told_words};
ghost use Rattle.cw_place.specs.Placing.{TellsExtents, HasPlaced, placed_before, told, told_address, AreSweptFor};

use crate::space::Space;
use crate::sweep::{Span, Sweep, first_fit};
use cw_comm::Agreed;
use cw_unit::layout::Sort;
use cw_word::{List, NoMemory};
use std::alloc::Global;

/// What is placed so far: for each name the start of its family, and the last end. Starts are told up to 65,535, and
/// ends up to the last number of 64 bits: behind these no map is given.
#[derive(Drop)]
pub(crate) struct Placing {
    starts: Vec<Option<u16>>,
    sweep: Sweep,
}

/// The spans of absolute families, which stay free, and for each name how many words its shared family takes.
#[derive(Clone, Copy)]
pub(crate) struct Room<'a> {
    pub spans: &'a [Span],
    pub extents: &'a [u32],
}

/// An address behind each absolute family.
const FAR: u64 = 1 << 33;

// The first fit at the last end.
fn fit(spans: &[Span], sweep: &Sweep, extent: u32) -> Sweep
    requires swept { IsSwept spans.now }
    requires each { All IsSpan spans.now }
    requires within { sweep.now.passed ≤ length spans.now }
    requires passed { ArePassed spans.now sweep.now.passed sweep.now.address }
    ensures address { (end : ℕ) → sweep.now.address ≡ told_words end → result.address ≡ told_words (first_fit (ranges_of spans.now) extent end) }
    ensures within { result.passed ≤ length spans.now }
    ensures passed { ArePassed spans.now result.passed result.address }
{
    if sweep.address < FAR {
        first_fit(spans, sweep, u64::from(extent))
    } else {
        *sweep
    }
}

// Places so many words: their start. The last end is then behind them.
fn place_next(sweep: &mut Sweep, spans: &[Span], extent: u32) -> u16
    requires swept { IsSwept spans.now }
    requires each { All IsSpan spans.now }
    requires within { sweep.old.passed ≤ length spans.now }
    requires passed { ArePassed spans.now sweep.old.passed sweep.old.address }
    ensures start { (end : ℕ) → sweep.old.address ≡ told_words end → result ≡ told_address (first_fit (ranges_of spans.now) extent end) }
    ensures end { (end : ℕ) → sweep.old.address ≡ told_words end → sweep.new.address ≡ told_words (first_fit (ranges_of spans.now) extent end + extent) }
    ensures within { sweep.new.passed ≤ length spans.now }
    ensures passed { ArePassed spans.now sweep.new.passed sweep.new.address }
{
    let at = fit(spans, sweep, extent);
    *sweep = Sweep {
        passed: at.passed,
        address: at.address.saturating_add(u64::from(extent)),
    };
    at.address.min(65535) as u16
}

// Places a family, if it is not in its place: its address.
fn place_family(
    placing: &mut Placing,
    agreed: &Agreed,
    spaces: &[Space],
    room: &Room,
    segment: usize,
    number: usize,
) -> u16
    requires of { AreOf agreed.now spaces.now }
    requires spans { AreSweptFor (segment_storage agreed.now spaces.now) room.now.spans.now }
    requires extents { TellsExtents agreed.now (segment_storage agreed.now spaces.now) room.now.extents.now }
    requires segment { segment < length spaces.now }
    requires number { (s : SegmentSpace) → slice_get spaces.now segment ≡ Some s → number < length s.families }
    requires placed { HasPlaced agreed.now room.now.spans.now (placed_before agreed.now spaces.now segment number) placing.old }
    ensures placed { HasPlaced agreed.now room.now.spans.now (placed_before agreed.now spaces.now segment (number + 1)) placing.new }
    ensures address { (s : SegmentSpace) (f : SegmentFamily) → slice_get spaces.now segment ≡ Some s
        → slice_get s.families number ≡ Some f → result
        ≡ family_address (told (placed_before agreed.now spaces.now segment (number + 1))) segment
        (names_of agreed.now segment) number f.sort }
{
    let family = &spaces[segment].families.as_slice()[number];
    match family.sort {
        Sort::Absolute(address) => address,
        Sort::Frame(offset) => offset,
        Sort::Own => place_next(&mut placing.sweep, room.spans, family.extent),
        Sort::Common(descriptor) => {
            let name = agreed.of.as_slice()[segment].as_slice()[descriptor as usize];
            match placing.starts[name] {
                Some(start) => start,
                None => {
                    let start = place_next(&mut placing.sweep, room.spans, room.extents[name]);
                    placing.starts[name] = Some(start);
                    start
                }
            }
        }
    }
}

// Places the families of a segment: their addresses.
fn place_segment(
    alloc: Global,
    placing: &mut Placing,
    agreed: &Agreed,
    spaces: &[Space],
    room: &Room,
    segment: usize,
) -> Result<List<u16>, NoMemory>
    requires of { AreOf agreed.now spaces.now }
    requires spans { AreSweptFor (segment_storage agreed.now spaces.now) room.now.spans.now }
    requires extents { TellsExtents agreed.now (segment_storage agreed.now spaces.now) room.now.extents.now }
    requires segment { segment < length spaces.now }
    requires placed { HasPlaced agreed.now room.now.spans.now (placed_before agreed.now spaces.now segment 0) placing.old }
    ensures placed { OnOk result (HasPlaced agreed.now room.now.spans.now (placed_before agreed.now spaces.now (segment + 1) 0) placing.new) }
    ensures homes { IfOk result (λ homes. (s : SegmentSpace) → slice_get spaces.now segment ≡ Some s
        → homes ≡ addresses_from (told (placed_before agreed.now spaces.now (segment + 1) 0)) segment
        (names_of agreed.now segment) 0 s.families) }
{
    let mut homes = List::new(alloc);
    let count = spaces[segment].families.as_slice().len();
    for number in 0..count {
        homes.push(place_family(placing, agreed, spaces, room, segment, number))?;
    }
    Ok(homes)
}

/// The addresses of all families, and the last end.
pub(crate) fn place_all(
    alloc: Global,
    agreed: &Agreed,
    spaces: &[Space],
    room: &Room,
) -> Result<(List<List<u16>>, u64), NoMemory>
    requires of { AreOf agreed.now spaces.now }
    requires spans { AreSweptFor (segment_storage agreed.now spaces.now) room.now.spans.now }
    requires extents { TellsExtents agreed.now (segment_storage agreed.now spaces.now) room.now.extents.now }
    ensures homes { IfOk result (λ made. made.0
        ≡ homes_from (told (placed_families (segment_storage agreed.now spaces.now))) 0
        (segment_storage agreed.now spaces.now)) }
    ensures end { IfOk result (λ made. made.1 ≡ told_words (last_end_of 0 (placed_families (segment_storage agreed.now spaces.now)))) }
{
    let starts = vec![in alloc; None; agreed.names.as_slice().len()].map_err(|_| NoMemory)?;
    let sweep = Sweep {
        passed: 0,
        address: 0,
    };
    let mut placing = Placing { starts, sweep };
    let mut homes = List::new(alloc);
    for segment in 0..spaces.len() {
        let addresses = place_segment(alloc, &mut placing, agreed, spaces, room, segment)?;
        homes.push(addresses)?;
    }
    Ok((homes, placing.sweep.address))
}
