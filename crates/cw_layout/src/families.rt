// The families of a unit in order of their roots, how many words each takes, and where those of a frame stand in it.
ghost use Rattle.std.specs.Prelude.{◌≡◌, ◌<◌, ◌+◌, length, slice_index, IfOk};
ghost use Rattle.std.specs.Option.{ForSome};
ghost use Rattle.cw_unit.specs.Storage.{positions_from, families_from, frame_sizes_from};
ghost use Rattle.cw_unit.specs.HasLayout.{HasLayout};
ghost use Rattle.cw_unit.specs.declared.unit.Home.TheVariants as home;
ghost use Rattle.cw_layout.specs.Tables.{TellsExtents, frame_at, grown_frame, sort_with, grown_frames};

use crate::homes::is_root;
use cw_unit::layout::{Family, Sort};
use cw_unit::unit::{Home, Item, Unit};
use cw_word::{List, NoMemory};
use std::alloc::Global;

/// How many words each family takes: up to the end of the item that reaches furthest.
pub(crate) fn family_extents(
    alloc: Global,
    unit: &Unit,
    homes: &[(u16, u16)],
) -> Result<Vec<u32>, NoMemory>
    requires unit { HasLayout unit.now }
    requires homes { homes.now ≡ positions_from 0 unit.now unit.now.items }
    ensures { IfOk result (λ extents. TellsExtents unit.now extents.items) }
{
    let items = unit.items.as_slice();
    let mut extents = vec![in alloc; 0u32; items.len()].map_err(|_| NoMemory)?;
    for n in 0..items.len() {
        let (family, place) = homes[n];
        let end = u32::from(place) + items[n].words;
        if extents[family as usize] < end {
            extents[family as usize] = end;
        }
    }
    Ok(extents)
}

/// The families, and the words of each procedure's frame.
pub(crate) fn family_list(
    alloc: Global,
    unit: &Unit,
    extents: &[u32],
) -> Result<(List<Family>, List<u16>), NoMemory>
    requires unit { HasLayout unit.now }
    requires extents { TellsExtents unit.now extents.now }
    ensures families { IfOk result (λ made. made.0 ≡ families_from 0 unit.now unit.now.items) }
    ensures frames { IfOk result (λ made. made.1 ≡ frame_sizes_from 0 unit.now unit.now.procs) }
{
    let items = unit.items.as_slice();
    let mut families = List::new(alloc);
    let mut frames = vec![in alloc; 0u16; unit.procs.as_slice().len()].map_err(|_| NoMemory)?;
    for n in 0..items.len() {
        let item = &items[n];
        if is_root(unit, item.home) {
            let extent = extents[families.as_slice().len()];
            let sort = sort_of(&mut frames, item, extent);
            families.push(Family { sort, extent })?;
        }
    }
    Ok((families, List::of(frames)))
}

// The sort of a root of so many words. One of a frame stands where its owner's frame ends so far, and the frame grows by it.
fn sort_of(frames: &mut Vec<u16>, item: &Item, extent: u32) -> Sort
    requires { item.now.home ≡ home.Frame → ForSome item.now.owner (λ q. (q < length frames.old.items) × (slice_index frames.old.items q + extent < 65536)) }
    ensures sort { result ≡ sort_with frames.old.items item.now.owner item.now.home }
    ensures grown { frames.new.items ≡ grown_frames frames.old.items item.now.owner item.now.home extent }
{
    match item.home {
        Home::Common(descriptor) => Sort::Common(descriptor),
        Home::Absolute(address) => Sort::Absolute(address),
        Home::Own | Home::Over { .. } => Sort::Own,
        Home::Frame => Sort::Frame(add_to_frame(frames, item.owner, extent)),
    }
}

// A family of so many words in the frame of its owner: its offset there. The frame grows by it.
fn add_to_frame(frames: &mut Vec<u16>, owner: Option<u16>, extent: u32) -> u16
    requires owner { ForSome owner (λ q. (q < length frames.old.items) × (slice_index frames.old.items q + extent < 65536)) }
    ensures offset { result ≡ frame_at frames.old.items owner }
    ensures grown { frames.new.items ≡ grown_frame frames.old.items owner extent }
{
    match owner {
        Some(procedure) => {
            let offset = frames[procedure as usize];
            frames[procedure as usize] = offset + extent as u16;
            offset
        }
        None => 0,
    }
}
