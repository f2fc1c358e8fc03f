//! Declared data with its presets, and what is overlaid.
ghost use Rattle.std.specs.Prelude.{◌≡◌};
ghost use Rattle.cw_table.specs.Rows.{item_at};
ghost use Rattle.cw_judge.specs.Declarations.{is_framed, names_framed, groups_framed, frame_judged, places_of, one_kind, presets_judged, declared_judged};
ghost use Rattle.cw_judge.specs.Declarations.{stands_in_common, common_base_judged, overlaid_judged, common_overlaid_judged};

use cw_data::data::judge_data;
use cw_data::overlays::{judge_base, name_of};
use cw_data::presets::{
    judge_arrays_preset, judge_elements_preset, judge_singles_preset, judge_table_preset,
};
use cw_items::families::Site;
use cw_scale::fault::{Fault, Rule, keep_unless};
use cw_scale::kinds::fraction_of;
use cw_scope::resolve::Named;
use cw_table::table::Table;
use cw_tree::items::{RawBase, RawData, RawGroup, RawPlace, RawPresets};
use cw_tree::leaf::RawName;

// ---- frames

fn is_framed(sites: &Table<Site>, token: u32) -> bool
    ensures { result ≡ is_framed (item_at sites.now token) }
{
    match sites.find(token) {
        None => false,
        Some(site) => site.frame.is_some(),
    }
}

fn names_framed(sites: &Table<Site>, names: &[RawName]) -> bool
    ensures { result ≡ names_framed sites.now names.now }
{
    match names {
        [] => false,
        [name, ..] => is_framed(sites, name.at.token),
    }
}

fn groups_framed(sites: &Table<Site>, groups: &[RawGroup]) -> bool
    ensures { result ≡ groups_framed sites.now groups.now }
{
    match groups {
        [] => false,
        [group, ..] => names_framed(sites, group.names.as_slice()),
    }
}

fn judge_frame(framed: bool, presets: &Option<RawPresets>, first: &mut Option<Fault>)
    ensures { first.new ≡ frame_judged framed presets.now first.old }
{
    match presets {
        None => {}
        Some(presets) => keep_unless(!framed, Rule::BadPreset, presets.at, first),
    }
}

// ---- presets

fn places_of(presets: &Option<RawPresets>) -> &[RawPlace]
    ensures { result.now ≡ places_of presets.now }
{
    match presets {
        None => &[],
        Some(presets) => presets.places.as_slice(),
    }
}

fn judge_kinds(inside: &Option<RawPresets>, behind: &Option<RawPresets>, first: &mut Option<Fault>)
    ensures { first.new ≡ one_kind inside.now behind.now first.old }
{
    match behind {
        None => {}
        Some(presets) => keep_unless(inside.is_none(), Rule::BadPreset, presets.at, first),
    }
}

fn judge_presets(sites: &Table<Site>, items: &RawData, first: &mut Option<Fault>)
    ensures { first.new ≡ presets_judged sites.now items.now first.old }
{
    match items {
        RawData::Singles(scale, names, presets) => {
            let names = names.as_slice();
            judge_singles_preset(names, places_of(presets), fraction_of(scale), first);
            judge_frame(names_framed(sites, names), presets, first);
        }
        RawData::Arrays(scale, groups, presets) => {
            let groups = groups.as_slice();
            judge_arrays_preset(groups, places_of(presets), fraction_of(scale), first);
            judge_frame(groups_framed(sites, groups), presets, first);
        }
        RawData::Table(table, inside, behind) => {
            let framed = is_framed(sites, table.name.at.token);
            judge_elements_preset(
                &table.size,
                table.elems.as_slice(),
                places_of(inside),
                first,
            );
            judge_frame(framed, inside, first);
            judge_table_preset(&table.size, places_of(behind), first);
            judge_frame(framed, behind, first);
            judge_kinds(inside, behind, first);
        }
    }
}

/// Judges declared data with its presets.
pub(crate) fn judge_declared(sites: &Table<Site>, items: &RawData, first: &mut Option<Fault>)
    ensures { first.new ≡ declared_judged sites.now items.now first.old }
{
    judge_data(items, first);
    judge_presets(sites, items, first);
}

// ---- overlays in COMMON

fn stands_in_common(absolute: &Table<u32>, declared: &Option<u32>) -> bool
    ensures { result ≡ stands_in_common absolute.now declared.now }
{
    match declared {
        None => true,
        Some(token) => absolute.find(*token).is_none(),
    }
}

fn judge_common_base(
    named: &Named,
    absolute: &Table<u32>,
    base: &RawBase,
    first: &mut Option<Fault>,
)
    ensures { first.new ≡ common_base_judged named.now absolute.now base.now first.old }
{
    judge_base(named, base, first);
    let name = name_of(base);
    let declared = named.uses.find(name.at.token).copied();
    let holds = stands_in_common(absolute, &declared);
    keep_unless(holds, Rule::BadOverlay, name.at, first);
}

// ---- what is overlaid, with its base

/// Judges what is overlaid.
pub(crate) fn judge_overlaid(
    named: &Named,
    sites: &Table<Site>,
    base: &RawBase,
    items: &RawData,
    first: &mut Option<Fault>,
)
    ensures { first.new ≡ overlaid_judged named.now sites.now base.now items.now first.old }
{
    judge_base(named, base, first);
    judge_declared(sites, items, first);
}

/// Judges what is overlaid in COMMON.
pub(crate) fn judge_common_overlaid(
    named: &Named,
    sites: &Table<Site>,
    absolute: &Table<u32>,
    base: &RawBase,
    items: &RawData,
    first: &mut Option<Fault>,
)
    ensures { first.new ≡ common_overlaid_judged named.now sites.now absolute.now base.now items.now first.old }
{
    judge_common_base(named, absolute, base, first);
    judge_declared(sites, items, first);
}
