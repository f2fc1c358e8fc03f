//! Laws of the units of texts: each is a function without a body, whose contract is the law.
ghost use Rattle.std.specs.Prelude.{ℕ, ◌*◌, ◌<◌, ◌≤◌, List, length, All};
ghost use Rattle.cw_tree.specs.declared.segment.Raw.{Raw};
ghost use Rattle.cw_unit.specs.declared.unit.Unit.{Unit as SourceUnit};
ghost use Rattle.cw_compile.specs.Texts.{HasTree, IsUnitOf};
ghost use Rattle.cw_build.specs.Compiled.{code_of, IsCompilable};
ghost use Rattle.cw_sound.specs.Units.TreeFits.{TreeFits};

use crate::laws::names::labels_set;
use crate::laws::statements::unit_ranged;
use crate::laws::storage::{
    bytes_kept, definitions_met, descriptors_named, items_stand, presets_fit, stored,
};
use crate::laws::trees::{
    items_derived, lines_counted, placed, positions_fit, regular, unit_counted, within_levels,
};
use crate::laws::units::{
    bases_listed, homes_fit, items_called, items_declared, items_fit, items_titled,
    names_identified, need_fits, segment_named, unit_built, unit_formed, unit_ready,
};
use cw_compile::laws::one_outcome;
use cw_size::laws::short_code;
use cw_spelled::laws::spelled;
use cw_tokens::laws::tokens_counted;
use cw_writable::laws::back::back_writable;
use cw_writable::laws::coded::coded;
use cw_writable::laws::front::front_of_parts;

/// The tree of a text is as the laws of its unit ask.
pub fn text_trees()
    ensures { (text : List ℕ) (raw : Raw) → HasTree text raw → TreeFits raw }
{
    one_outcome();
    spelled();
    tokens_counted();
    regular();
    within_levels();
    items_derived();
    placed();
}

/// The code of a text's unit has at most 32 bytes for each token of the text.
pub fn text_sizes()
    ensures { (text : List ℕ) (u : SourceUnit) → IsUnitOf text u → length (code_of u).bytes ≤ 32 * u.tokens }
{
    one_outcome();
    tokens_counted();
    unit_counted();
    labels_set();
    short_code();
}

/// The unit of each text of bytes can be compiled.
pub fn text_units()
    ensures { (text : List ℕ) (u : SourceUnit) → All (λ b. b < 256) text → IsUnitOf text u → IsCompilable u }
{
    text_trees();
    text_sizes();
    one_outcome();
    items_derived();
    items_stand();
    items_declared();
    descriptors_named();
    stored();
    definitions_met();
    unit_formed();
    unit_built();
    unit_ranged();
    coded();
    need_fits();
    lines_counted();
    positions_fit();
    unit_ready();
    back_writable();
    names_identified();
    segment_named();
    bases_listed();
    items_fit();
    homes_fit();
    bytes_kept();
    presets_fit();
    items_titled();
    items_called();
    front_of_parts();
}
