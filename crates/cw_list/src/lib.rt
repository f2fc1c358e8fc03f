//! Storage map listing: a line for each item in order of its address, then the items of frames, then the frame area.
#![tactic(auto)]

mod commons;
mod lines;
mod order;
pub mod row;
mod segment;

ghost use Rattle.std.specs.Prelude.{◌≡◌, ◌++◌, ◌∷◌, [], ◌≤◌, slice_index_or, IfOk};
ghost use Rattle.std.specs.List.{filter};
ghost use Rattle.cw_unit.specs.declared.layout.Limits.{Limits as RunLimits};
ghost use Rattle.cw_unit.specs.Program.{program_at};
ghost use Rattle.cw_list.specs.Rows.{layouts_of, rows_of, program_listing};
ghost use Rattle.cw_list.specs.Listing.{map_listing, in_map_order, stands_in_frame, row_lines, frames_line};

use crate::commons::with_lines;
use crate::lines::{add_frames, add_rows};
use crate::order::sort_by_address;
use crate::row::Row;
use crate::segment::add_segment;
use cw_unit::layout::{Layout, Limits, Map};
use cw_unit::unit::Unit;
use cw_word::{List, NoMemory};
pub use lines::{add, unnamed};
use std::alloc::Global;

// Those in a frame, or those that are not.
fn rows_where(alloc: Global, rows: &[Row], frame: bool) -> Result<Vec<Row>, NoMemory>
    ensures { IfOk result (λ kept. kept.items ≡ filter (stands_in_frame frame) rows.now) }
{
    let mut kept = Vec::new(alloc);
    for k in 0..rows.len() {
        if rows[k].frame == frame {
            kept.push(rows[k]).map_err(|_| NoMemory)?;
        }
    }
    Ok(kept)
}

// The lines of these items in the map's order, and that of the frame area.
fn ordered_text(alloc: Global, rows: &[Row], limits: &Limits) -> Result<Vec<u8>, NoMemory>
    requires { limits.now.frames ≤ limits.now.area }
    ensures { IfOk result (λ text. text.items ≡ row_lines (in_map_order rows.now) ++ frames_line limits.now) }
{
    let mut placed = rows_where(alloc, rows, false)?;
    sort_by_address(&mut placed)?;
    let framed = rows_where(alloc, rows, true)?;
    let mut text = Vec::new(alloc);
    add_rows(&mut text, placed.as_slice())?;
    add_rows(&mut text, framed.as_slice())?;
    add_frames(&mut text, limits)?;
    Ok(text)
}

/// The text of the storage map, from all items in order of segment and place in the text.
pub fn listing_text(alloc: Global, rows: &[Row], limits: &Limits) -> Result<Vec<u8>, NoMemory>
    requires { limits.now.frames ≤ limits.now.area }
    ensures { IfOk result (λ text. text.items ≡ map_listing rows.now limits.now) }
{
    let lines = with_lines(alloc, rows)?;
    ordered_text(alloc, lines.as_slice(), limits)
}

/// The addresses of a segment's families.
pub fn addresses(map: &Map, segment: usize) -> &[u16]
    ensures { result.now ≡ slice_index_or map.now.homes segment [] }
{
    match map.homes.as_slice().get(segment) {
        Some(addresses) => addresses.as_slice(),
        None => &[],
    }
}

// The items of units, in order of segment and place in the text.
fn unit_rows(
    alloc: Global,
    units: &[Unit],
    layouts: &[Layout],
    map: &Map,
) -> Result<List<Row>, NoMemory>
    requires { layouts.now ≡ layouts_of units.now }
    ensures { IfOk result (λ rows. (limits : RunLimits) → rows ≡ rows_of (program_at units.now map.now limits)) }
{
    let mut rows = List::new(alloc);
    for segment in 0..units.len() {
        add_segment(
            &mut rows,
            &units[segment],
            &layouts[segment],
            addresses(map, segment),
        )?;
    }
    Ok(rows)
}

/// The text of the storage map of units, with their layouts.
pub fn map_text(
    alloc: Global,
    units: &[Unit],
    layouts: &[Layout],
    map: &Map,
    limits: &Limits,
) -> Result<Vec<u8>, NoMemory>
    requires layouts { layouts.now ≡ layouts_of units.now }
    requires limits { limits.now.frames ≤ limits.now.area }
    ensures { IfOk result (λ text. text.items ≡ program_listing (program_at units.now map.now limits.now)) }
{
    let rows = unit_rows(alloc, units, layouts, map)?;
    listing_text(alloc, rows.as_slice(), limits)
}
