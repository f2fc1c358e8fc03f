//! Declared data.
ghost use Rattle.std.specs.Prelude.{◌≡◌, ◌<◌, ◌≤◌, ◌*◌, ◌^◌, IfSome};
ghost use Rattle.cw_amount.specs.Amounts.{place_amount, place_sint};
ghost use Rattle.cw_data.specs.Data.{fits_word_if, bound_judged, range_judged, second_judged, span, range_span};
ghost use Rattle.cw_data.specs.Data.{fits_area, good_bounds, each_wrong_unless, group_judged};
ghost use Rattle.cw_data.specs.Data.{groups_judged, good_size, size_judged, is_within, element_judged, elements_judged, table_judged, data_judged};

use cw_amount::amount::{int_position, is_negative, place_amount, place_sint};
use cw_scale::fault::{Fault, Rule, keep_unless};
use cw_scale::types::{is_field, judge_int, judge_scale, judge_type};
use cw_tree::items::{RawData, RawElem, RawGroup, RawRange, RawTable};
use cw_tree::leaf::{RawName, RawSint, RawSize};

// ---- bounds

fn fits_word(bound: &Option<i64>) -> bool
    ensures { result ≡ fits_word_if bound.now }
{
    match bound {
        None => true,
        Some(z) => -32768 <= *z && *z <= 32767,
    }
}

fn judge_bound(bound: &RawSint, first: &mut Option<Fault>)
    ensures { first.new ≡ bound_judged bound.now first.old }
{
    judge_int(&bound.value, first);
    let fits = fits_word(&place_sint(bound));
    keep_unless(fits, Rule::NumberRange, int_position(&bound.value), first);
}

pub(crate) fn judge_range(range: &RawRange, first: &mut Option<Fault>)
    ensures { first.new ≡ range_judged range.now first.old }
{
    judge_bound(&range.lower, first);
    judge_bound(&range.upper, first);
}

pub(crate) fn judge_second(range: &Option<RawRange>, first: &mut Option<Fault>)
    ensures { first.new ≡ second_judged range.now first.old }
{
    match range {
        None => {}
        Some(range) => judge_range(range, first),
    }
}

fn span(l_negative: bool, l: u64, u_negative: bool, u: u64) -> u64
    requires l_fits { l < 10 ^ 12 }
    requires u_fits { u < 10 ^ 12 }
    ensures { result ≡ span l_negative l u_negative u }
{
    if l_negative {
        if u_negative {
            (l + 1).saturating_sub(u)
        } else {
            l + u + 1
        }
    } else if u_negative {
        1u64.saturating_sub(l + u)
    } else {
        (u + 1).saturating_sub(l)
    }
}

pub fn range_span(range: &RawRange) -> u64
    ensures { result ≡ range_span range.now }
{
    match place_amount(&range.lower.value) {
        None => 1,
        Some(l) => match place_amount(&range.upper.value) {
            None => 1,
            Some(u) => {
                let l_negative = is_negative(&range.lower.sign);
                let u_negative = is_negative(&range.upper.sign);
                span(l_negative, l, u_negative, u)
            }
        },
    }
}

pub(crate) fn fits_product(a: u64, b: u64) -> bool
    ensures { result ≡ fits_area (a * b) }
{
    match a.checked_mul(b) {
        Some(n) => n <= 32768,
        None => false,
    }
}

pub(crate) fn good_bounds(range: &RawRange, second: &Option<RawRange>) -> bool
    ensures { result ≡ good_bounds range.now second.now }
{
    let span = range_span(range);
    match second {
        None => 1 <= span && span <= 32768,
        Some(other) => {
            let across = range_span(other);
            1 <= span && (1 <= across && fits_product(span, across))
        }
    }
}

fn judge_names(holds: bool, names: &[RawName], first: &mut Option<Fault>)
    ensures { first.new ≡ each_wrong_unless holds names.now first.old }
{
    for name in names {
        keep_unless(holds, Rule::BadBounds, name.at, first);
    }
}

fn judge_group(group: &RawGroup, first: &mut Option<Fault>)
    ensures { first.new ≡ group_judged group.now first.old }
{
    judge_range(&group.bounds.first, first);
    judge_second(&group.bounds.second, first);
    let holds = good_bounds(&group.bounds.first, &group.bounds.second);
    judge_names(holds, group.names.as_slice(), first);
}

fn judge_groups(groups: &[RawGroup], first: &mut Option<Fault>)
    ensures { first.new ≡ groups_judged groups.now first.old }
{
    for group in groups {
        judge_group(group, first);
    }
}

// ---- tables

fn good_size(width: &Option<u64>, length: &Option<u64>) -> bool
    ensures { result ≡ good_size width.now length.now }
{
    match width {
        None => match length {
            None => true,
            Some(n) => 1 <= *n,
        },
        Some(w) => match length {
            None => 1 <= *w,
            Some(n) => 1 <= *w && (1 <= *n && fits_product(*w, *n)),
        },
    }
}

/// Judges the width and the length of a table, at the name that has them.
pub fn judge_size(name: &RawName, size: &RawSize, first: &mut Option<Fault>)
    ensures { first.new ≡ size_judged name.now size.now first.old }
{
    judge_int(&size.first, first);
    judge_int(&size.second, first);
    let holds = good_size(&place_amount(&size.first), &place_amount(&size.second));
    keep_unless(holds, Rule::BadBounds, name.at, first);
}

fn is_within(place: &Option<u64>, width: &Option<u64>) -> bool
    ensures { result ≡ is_within place.now width.now }
{
    match place {
        None => true,
        Some(p) => match width {
            None => true,
            Some(w) => *p < *w,
        },
    }
}

fn judge_element(element: &RawElem, width: &Option<u64>, first: &mut Option<Fault>)
    ensures { first.new ≡ element_judged width.now element.now first.old }
{
    match element {
        RawElem::Word(name, scale, word) => {
            judge_type(scale, first);
            judge_int(word, first);
            let holds = is_within(&place_amount(word), width);
            keep_unless(holds, Rule::FieldRange, name.at, first);
        }
        RawElem::Part {
            name,
            bits,
            scale,
            word,
            bit,
            ..
        } => {
            judge_int(bits, first);
            judge_scale(scale, first);
            judge_int(word, first);
            judge_int(bit, first);
            let holds = is_within(&place_amount(word), width)
                && is_field(&place_amount(bits), &place_amount(bit));
            keep_unless(holds, Rule::FieldRange, name.at, first);
        }
    }
}

fn judge_elements(elements: &[RawElem], width: &Option<u64>, first: &mut Option<Fault>)
    ensures { first.new ≡ elements_judged width.now elements.now first.old }
{
    for element in elements {
        judge_element(element, width, first);
    }
}

/// Judges a table.
pub fn judge_table(table: &RawTable, first: &mut Option<Fault>)
    ensures { first.new ≡ table_judged table.now first.old }
{
    judge_size(&table.name, &table.size, first);
    judge_elements(
        table.elems.as_slice(),
        &place_amount(&table.size.first),
        first,
    );
}

/// Judges declared data, but for its presets.
pub fn judge_data(items: &RawData, first: &mut Option<Fault>)
    ensures { first.new ≡ data_judged items.now first.old }
{
    match items {
        RawData::Singles(scale, _, _) => judge_type(scale, first),
        RawData::Arrays(scale, groups, _) => {
            judge_type(scale, first);
            judge_groups(groups.as_slice(), first);
        }
        RawData::Table(table, _, _) => judge_table(table, first),
    }
}
