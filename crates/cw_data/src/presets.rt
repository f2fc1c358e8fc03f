//! The places of preset lists.
ghost use Rattle.std.specs.Prelude.{◌≡◌, ◌≤◌, ◌<◌, ◌*◌, ◌^◌, drop, length, IfSome};
ghost use Rattle.cw_word.specs.Decimal.{decimal_floor};
ghost use Rattle.cw_amount.specs.Amounts.{octal_word};
ghost use Rattle.cw_data.specs.Presets.{fits_signed, fits_part, fits_room, whole_word, word_fits, octal_fits};
ghost use Rattle.cw_data.specs.Presets.{number_fits, begins, place_position, octal_judged};
ghost use Rattle.cw_data.specs.Presets.{place_judged, places_judged, behind_each, left_over, singles_preset};
ghost use Rattle.cw_data.specs.Presets.{array_words, behind_groups, arrays_preset, table_words};
ghost use Rattle.cw_data.specs.Presets.{table_preset, bits_in, element_room, entry_judged, entries_preset, table_entries, elements_preset};

use crate::data::{fits_product, range_span};
use cw_amount::amount::{is_negative, octal_word, place_amount};
use cw_scale::fault::{Fault, Rule, keep, keep_unless};
use cw_scale::kinds::element_fraction;
use cw_tree::items::{RawElem, RawGroup, RawPlace, RawRange};
use cw_tree::leaf::{Position, RawName, RawOctal, RawSign, RawSize};
use cw_word::Num;

/// Bits of a word in which a value is kept, with a sign or without.
#[derive(Clone, Copy)]
pub struct Room {
    pub unsigned: bool,
    pub bits: u8,
}

fn whole_word() -> Room
    ensures { result ≡ whole_word }
{
    Room {
        unsigned: false,
        bits: 16,
    }
}

fn fits_signed(negative: bool, size: u64) -> bool
    ensures { result ≡ fits_signed negative size }
{
    if negative {
        size <= 32768
    } else {
        size <= 32767
    }
}

fn fits_part(unsigned: bool, bits: u8, negative: bool, size: u64) -> bool
    requires bits_fit { bits < 16 }
    ensures { result ≡ fits_part unsigned bits negative size }
{
    let half = 2u64.pow(u32::from(bits.saturating_sub(1)));
    if unsigned {
        if negative {
            size <= 0
        } else {
            size < 2u64.pow(u32::from(bits))
        }
    } else if negative {
        size <= half
    } else {
        size < half
    }
}

fn fits_room(room: &Room, negative: bool, size: u64) -> bool
    ensures { result ≡ fits_room room.now negative size }
{
    if 16 <= room.bits {
        fits_signed(negative, size)
    } else {
        fits_part(room.unsigned, room.bits, negative, size)
    }
}

fn number_fits(room: &Room, negative: bool, scale: u8, number: &Num) -> bool
    requires scale_fits { scale ≤ 15 }
    ensures { result ≡ number_fits room.now negative scale number.now }
{
    fits_room(room, negative, number.scaled(scale))
}

fn word_fits(room: &Room, negative: bool, scale: u8, word: u64) -> bool
    requires scale_fits { scale ≤ 15 }
    requires word_fits { word ≤ 65535 }
    ensures { result ≡ word_fits room.now negative scale word }
{
    let factor = 2u64.pow(u32::from(scale));
    if word < 32768 {
        fits_room(room, negative, word * factor)
    } else {
        fits_room(room, !negative, (65536 - word) * factor)
    }
}

fn begins(sign: &Option<RawSign>, at: Position) -> Position
    ensures { result ≡ begins sign.now at }
{
    match sign {
        None => at,
        Some(sign) => sign.at,
    }
}

fn place_position(place: &RawPlace) -> Position
    ensures { result ≡ place_position place.now }
{
    match place {
        RawPlace::Void(at) => *at,
        RawPlace::Number(sign, n) => begins(sign, n.at),
        RawPlace::Octal(sign, n) => begins(sign, n.at),
        RawPlace::Literal(sign, l) => begins(sign, l.at),
    }
}

fn octal_fits(room: &Room, negative: bool, scale: u8, word: &Option<u64>) -> bool
    requires scale_fits { scale ≤ 15 }
    requires word_fits { IfSome word.now (λ w. w ≤ 65535) }
    ensures { result ≡ octal_fits room.now negative scale word.now }
{
    match word {
        None => true,
        Some(word) => word_fits(room, negative, scale, *word),
    }
}

fn judge_octal(number: &RawOctal, first: &mut Option<Fault>)
    ensures { first.new ≡ octal_judged number.now first.old }
{
    let fits = octal_word(&number.number.number).is_some();
    keep_unless(fits, Rule::NumberRange, number.number.at, first);
}

fn judge_place(place: &RawPlace, room: &Room, scale: u8, first: &mut Option<Fault>)
    ensures { first.new ≡ place_judged room.now scale place.now first.old }
{
    match place {
        RawPlace::Void(_) => {}
        RawPlace::Number(sign, n) => {
            let fits = scale <= 15 && number_fits(room, is_negative(sign), scale, &n.number);
            keep_unless(fits, Rule::BadPreset, begins(sign, n.at), first);
        }
        RawPlace::Octal(sign, n) => {
            judge_octal(n, first);
            let word = octal_word(&n.number.number);
            let fits = scale <= 15 && octal_fits(room, is_negative(sign), scale, &word);
            keep_unless(fits, Rule::BadPreset, begins(sign, n.at), first);
        }
        RawPlace::Literal(sign, l) => {
            let fits = scale <= 15 && byte_fits(room, is_negative(sign), scale, l.byte);
            keep_unless(fits, Rule::BadPreset, begins(sign, l.at), first);
        }
    }
}

fn byte_fits(room: &Room, negative: bool, scale: u8, byte: u8) -> bool
    requires scale_fits { scale ≤ 15 }
    ensures { result ≡ fits_room room.now negative (byte * 2 ^ scale) }
{
    fits_room(room, negative, u64::from(byte) * 2u64.pow(u32::from(scale)))
}

/// Judges the values of places at a scale.
pub(crate) fn judge_places(places: &[RawPlace], scale: u8, first: &mut Option<Fault>)
    ensures { first.new ≡ places_judged scale places.now first.old }
{
    for place in places {
        judge_place(place, &whole_word(), scale, first);
    }
}

/// The places behind so many.
pub fn behind(words: usize, places: &[RawPlace]) -> &[RawPlace]
    ensures { result.now ≡ drop words places.now }
{
    if words >= places.len() {
        &[]
    } else {
        &places[words..]
    }
}

/// The places behind those of some items, which have so many words each.
pub fn behind_each<'a>(words: usize, names: &[RawName], places: &'a [RawPlace]) -> &'a [RawPlace]
    ensures { result.now ≡ behind_each words names.now places.now }
{
    let mut rest = places;
    for name in names {
        let _ = name;
        rest = behind(words, rest);
    }
    rest
}

fn judge_left_over(places: &[RawPlace], first: &mut Option<Fault>)
    ensures { first.new ≡ left_over places.now first.old }
{
    match places {
        [] => {}
        [place, ..] => keep(Rule::BadPreset, place_position(place), first),
    }
}

/// Judges the presets of single items.
pub fn judge_singles_preset(
    names: &[RawName],
    places: &[RawPlace],
    scale: u8,
    first: &mut Option<Fault>,
)
    ensures { first.new ≡ singles_preset scale names.now places.now first.old }
{
    judge_places(places, scale, first);
    judge_left_over(behind_each(1, names, places), first);
}

// ---- arrays and tables

pub fn array_words(range: &RawRange, second: &Option<RawRange>) -> usize
    ensures { result ≡ array_words range.now second.now }
{
    let span = range_span(range);
    match second {
        None => {
            if 1 <= span && span <= 32768 {
                span as usize
            } else {
                1
            }
        }
        Some(other) => {
            let across = range_span(other);
            if 1 <= span && (1 <= across && fits_product(span, across)) {
                (span * across) as usize
            } else {
                1
            }
        }
    }
}

fn behind_groups<'a>(groups: &[RawGroup], places: &'a [RawPlace]) -> &'a [RawPlace]
    ensures { result.now ≡ behind_groups groups.now places.now }
{
    let mut rest = places;
    for group in groups {
        let words = array_words(&group.bounds.first, &group.bounds.second);
        rest = behind_each(words, group.names.as_slice(), rest);
    }
    rest
}

/// Judges the presets of arrays.
pub fn judge_arrays_preset(
    groups: &[RawGroup],
    places: &[RawPlace],
    scale: u8,
    first: &mut Option<Fault>,
)
    ensures { first.new ≡ arrays_preset scale groups.now places.now first.old }
{
    judge_places(places, scale, first);
    judge_left_over(behind_groups(groups, places), first);
}

pub fn table_words(width: &Option<u64>, length: &Option<u64>) -> usize
    ensures { result ≡ table_words width.now length.now }
{
    match width {
        None => 1,
        Some(w) => match length {
            None => 1,
            Some(n) => {
                if 1 <= *w && (1 <= *n && fits_product(*w, *n)) {
                    (*w * *n) as usize
                } else {
                    1
                }
            }
        },
    }
}

/// Judges the presets of the words of a table.
pub fn judge_table_preset(size: &RawSize, places: &[RawPlace], first: &mut Option<Fault>)
    ensures { first.new ≡ table_preset size.now places.now first.old }
{
    judge_places(places, 0, first);
    let words = table_words(&place_amount(&size.first), &place_amount(&size.second));
    judge_left_over(behind(words, places), first);
}

// ---- presets in the brackets of a table

fn bits_in(bits: &Option<u64>) -> u8
    ensures { result ≡ bits_in bits.now }
{
    match bits {
        None => 16,
        Some(n) => if *n <= 16 { *n as u8 } else { 16 },
    }
}

fn element_room(element: &RawElem) -> Room
    ensures { result ≡ element_room element.now }
{
    match element {
        RawElem::Word(..) => whole_word(),
        RawElem::Part { unsigned, bits, .. } => Room {
            unsigned: *unsigned,
            bits: bits_in(&place_amount(bits)),
        },
    }
}

// The places of one entry.
fn judge_entry(elements: &[RawElem], places: &[RawPlace], first: &mut Option<Fault>)
    ensures { first.new ≡ entry_judged elements.now places.now first.old }
{
    let mut rest = places;
    for element in elements {
        match rest {
            [] => return,
            [place, others @ ..] => {
                judge_place(
                    place,
                    &element_room(element),
                    element_fraction(element),
                    first,
                );
                rest = others;
            }
        }
    }
}

fn judge_entries(entries: u32, elements: &[RawElem], places: &[RawPlace], first: &mut Option<Fault>)
    ensures { first.new ≡ entries_preset entries elements.now places.now first.old }
{
    let mut rest = places;
    let mut left = entries;
    while left > 0 {
        judge_entry(elements, rest, first);
        rest = behind(elements.len(), rest);
        left -= 1;
    }
    judge_left_over(rest, first);
}

fn table_entries(width: &Option<u64>, length: &Option<u64>) -> u32
    ensures { result ≡ table_entries width.now length.now }
{
    match width {
        None => 1,
        Some(w) => match length {
            None => 1,
            Some(n) => {
                if 1 <= *w && (1 <= *n && fits_product(*w, *n)) {
                    *n as u32
                } else {
                    1
                }
            }
        },
    }
}

/// Judges the presets of the elements of a table.
pub fn judge_elements_preset(
    size: &RawSize,
    elements: &[RawElem],
    places: &[RawPlace],
    first: &mut Option<Fault>,
)
    ensures { first.new ≡ elements_preset size.now elements.now places.now first.old }
{
    let entries = table_entries(&place_amount(&size.first), &place_amount(&size.second));
    judge_entries(entries, elements, places, first);
}
