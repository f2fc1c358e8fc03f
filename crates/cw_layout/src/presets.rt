// The words that hold a value at the start.
ghost use Rattle.std.specs.Prelude.{◌≡◌, ℕ, ◌<◌, ◌+◌, ◌++◌, length, map, slice_index_or, IfOk, OnOk};
ghost use Rattle.cw_unit.specs.Storage.{positions_from, presets_from};
ghost use Rattle.cw_unit.specs.HasLayout.{HasLayout};
ghost use Rattle.cw_layout.specs.Tables.{preset_in};

use cw_unit::layout::Preset;
use cw_unit::unit::Unit;
use cw_word::{List, NoMemory};
use std::alloc::Global;

/// The preset words of all items in order of the text.
pub(crate) fn preset_words(
    alloc: Global,
    unit: &Unit,
    homes: &[(u16, u16)],
) -> Result<List<Preset>, NoMemory>
    requires unit { HasLayout unit.now }
    requires homes { homes.now ≡ positions_from 0 unit.now unit.now.items }
    ensures { IfOk result (λ words. words ≡ presets_from 0 unit.now unit.now.items) }
{
    let items = unit.items.as_slice();
    let mut words = List::new(alloc);
    for n in 0..items.len() {
        add_presets(&mut words, homes[n], items[n].presets.as_slice())?;
    }
    Ok(words)
}

// Adds those of an item with this home.
fn add_presets(
    words: &mut List<Preset>,
    home: (u16, u16),
    presets: &[(u16, u16)],
) -> Result<(), NoMemory>
    requires { (k : ℕ) → k < length presets.now → home.1 + (slice_index_or presets.now k (0, 0)).0 < 65536 }
    ensures { OnOk result (words.new ≡ words.old ++ map (preset_in home) presets.now) }
{
    for k in 0..presets.len() {
        let (place, word) = presets[k];
        words.push(Preset {
            family: home.0,
            offset: home.1 + place,
            word,
        })?;
    }
    Ok(())
}
