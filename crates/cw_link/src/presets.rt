//! The presets of objects.
ghost use Rattle.std.specs.Prelude.{◌≡◌, ◌≤◌, ◌<◌, ◌+◌, ◌++◌, ◌∷◌, ◌^◌, List, length, map, drop, slice_index, [], IfOk};
ghost use Rattle.cw_view.specs.Reading.{preset_in};
ghost use Rattle.cw_link.specs.Contents.{records_of, contents_of};
ghost use Rattle.cw_link.specs.Presets.{FilledWord};
ghost use Rattle.cw_link.specs.Filled.{HasFilled};
ghost use Rattle.cw_link.specs.LinkedImage.{filled_word, presets_from};

use crate::filled::{Filled, fill_word, no_words};
use crate::lists::list_at;
use cw_unit::layout::Preset;
use cw_view::{View, read_preset};
use cw_word::{List as Items, NoMemory};
use std::alloc::Global;

/// The words that a preset may name: those of a 16-bit address and an offset of 16 bits.
const REACH: u32 = 1 << 17;

fn home_of(homes: &[u16], family: u16) -> u16
    ensures { result ≡ slice_index homes.now family }
{
    match homes.get(family as usize) {
        Some(home) => *home,
        None => 0,
    }
}

// Fills a word as a preset tells.
fn fill_preset(filled: &mut Filled, homes: &[u16], segment: u8, preset: &Preset)
    requires { length filled.old.words.items ≡ 2 ^ 17 }
    ensures filled { (ps : List FilledWord) → HasFilled ps filled.old → HasFilled (ps ++ filled_word segment homes.now preset.now ∷ []) filled.new }
    ensures count { length filled.new.words.items ≡ length filled.old.words.items }
{
    let address = u32::from(home_of(homes, preset.family)) + u32::from(preset.offset);
    fill_word(filled, segment, address, preset.word);
}

// Fills the words of a segment's presets, whose number is from 1.
fn fill_presets(filled: &mut Filled, view: &View, homes: &[u16], segment: u8)
    requires { length filled.old.words.items ≡ 2 ^ 17 }
    ensures filled { (ps : List FilledWord) → HasFilled ps filled.old
        → HasFilled (ps ++ map (filled_word segment homes.now) (records_of preset_in 5 view.now)) filled.new }
    ensures count { length filled.new.words.items ≡ length filled.old.words.items }
{
    for payload in view.records(5) {
        if let Some(preset) = read_preset(payload) {
            fill_preset(filled, homes, segment, &preset);
        }
    }
}

/// The words that all presets fill.
pub(crate) fn fill_all(
    alloc: Global,
    views: &[View],
    homes: &[Items<u16>],
) -> Result<Filled, NoMemory>
    requires { length views.now ≤ 200 }
    ensures filled { IfOk result (HasFilled (presets_from 0 homes.now (map contents_of views.now))) }
    ensures count { IfOk result (λ filled. length filled.words.items ≡ 2 ^ 17) }
{
    let mut filled = no_words(alloc, REACH)?;
    for segment in 0..views.len() {
        let homes = list_at(homes, segment);
        fill_presets(&mut filled, &views[segment], homes, segment as u8 + 1);
    }
    Ok(filled)
}
