//! Storage layout of one unit: its families, where its items stand in them, its frames, and the words that hold a value
//! at the start.
#![tactic(auto)]

mod families;
mod homes;
mod presets;

ghost use Rattle.std.specs.Prelude.{◌≡◌, IfOk};
ghost use Rattle.cw_unit.specs.Storage.{layout_of};
ghost use Rattle.cw_unit.specs.HasLayout.{HasLayout};

use crate::families::{family_extents, family_list};
use crate::homes::item_homes;
use crate::presets::preset_words;
use cw_unit::layout::Layout;
use cw_unit::unit::Unit;
use cw_word::NoMemory;
use std::alloc::Global;

/// The storage layout of a unit, in time that grows with its items and presets.
pub fn layout(alloc: Global, unit: &Unit) -> Result<Layout, NoMemory>
    requires { HasLayout unit.now }
    ensures { IfOk result (λ layout. layout ≡ layout_of unit.now) }
{
    let homes = item_homes(alloc, unit)?;
    let extents = family_extents(alloc, unit, homes.as_slice())?;
    let (families, frames) = family_list(alloc, unit, extents.as_slice())?;
    let words = preset_words(alloc, unit, homes.as_slice())?;
    Ok(Layout {
        families,
        homes,
        frames,
        words,
    })
}
