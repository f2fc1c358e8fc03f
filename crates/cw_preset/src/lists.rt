//! The words of preset lists.
ghost use Rattle.std.specs.Prelude.{◌≡◌, ◌≤◌, ◌<◌, ◌+◌, ◌*◌, ◌^◌, ◌++◌, ◌∷◌, [], take, nat_le, IfOk, OnOk};
ghost use Rattle.cw_data.specs.Data.{fits_area};
ghost use Rattle.cw_data.specs.Presets.{table_entries};
ghost use Rattle.cw_make_items.specs.things.Things.{amount_or_none, group_words, words_of_table};
ghost use Rattle.cw_make_items.specs.scale.Kinds.{fraction_of, fraction_of_sint, element_fraction};
ghost use Rattle.cw_amount.specs.Amounts.{octal_word};
ghost use Rattle.cw_preset.specs.Lists.{as_word, place_word, word_if, places_words, named_rows, groups_rows, put_part, element_put, element_word, stored};
ghost use Rattle.cw_preset.specs.Lists.{entry_words, entries_words, elements_words, singles_preset, groups_preset, table_preset, data_rows};

use crate::stored::{Stored, words_of};
use cw_amount::amount::{is_negative, octal_word, place_amount};
use cw_data::presets::{array_words, behind, behind_each, table_words};
use cw_make_items::types::{byte_within, short_within, width_of};
use cw_table::table::Row;
use cw_tree::items::{RawData, RawElem, RawGroup, RawPlace, RawPresets, RawTable};
use cw_tree::leaf::{RawName, RawSint, RawSize, RawType};
use cw_word::{List, NoMemory, Num, put_bits};
use std::alloc::Global;

// ---- scales

fn fraction_of_sint(number: &RawSint) -> u8
    ensures value { result ≡ fraction_of_sint number.now }
    ensures fits { result ≤ 15 }
{
    match place_amount(&number.value) {
        None => 0,
        Some(value) => {
            if !is_negative(&number.sign) && value < 16 {
                value as u8
            } else {
                0
            }
        }
    }
}

fn fraction_of(scale: &RawType) -> u8
    ensures value { result ≡ fraction_of scale.now }
    ensures fits { result ≤ 15 }
{
    match scale {
        RawType::Integer(_) => 0,
        RawType::Fixed(_, _, f) => fraction_of_sint(f),
    }
}

fn element_fraction(element: &RawElem) -> u8
    ensures value { result ≡ element_fraction element.now }
    ensures fits { result ≤ 15 }
{
    match element {
        RawElem::Word(_, scale, _) => fraction_of(scale),
        RawElem::Part { scale, .. } => fraction_of_sint(scale),
    }
}

// ---- values

fn as_word(negative: bool, size: u64) -> u16
    ensures { result ≡ as_word negative size }
{
    let low = size % 65536;
    if negative {
        ((65536 - low) % 65536) as u16
    } else {
        low as u16
    }
}

fn octal_amount(number: &Num) -> u64
    ensures value { result ≡ amount_or_none (octal_word number.now) }
    ensures fits { result ≤ 65535 }
{
    match octal_word(number) {
        None => 0,
        Some(n) => n,
    }
}

fn scaled(word: u64, scale: u8) -> u64
    requires scale_fits { scale ≤ 15 }
    requires word_fits { word ≤ 65535 }
    ensures { result ≡ word * 2 ^ scale }
{
    word * 2u64.pow(u32::from(scale))
}

fn place_word(place: &RawPlace, scale: u8) -> Option<u16>
    requires scale_fits { scale ≤ 15 }
    ensures { result ≡ place_word scale place.now }
{
    match place {
        RawPlace::Void(_) => None,
        RawPlace::Number(sign, n) => { Some(as_word(is_negative(sign), n.number.scaled(scale))) }
        RawPlace::Octal(sign, o) => {
            let word = octal_amount(&o.number.number);
            Some(as_word(is_negative(sign), scaled(word, scale)))
        }
        RawPlace::Literal(sign, l) => {
            Some(as_word(is_negative(sign), scaled(u64::from(l.byte), scale)))
        }
    }
}

fn word_if(offset: u16, word: Option<u16>, out: &mut List<(u16, u16)>) -> Result<(), NoMemory>
    ensures { OnOk result (out.new ≡ out.old ++ word_if offset word) }
{
    match word {
        None => Ok(()),
        Some(word) => out.push((offset, word)),
    }
}

fn places_words(alloc: Global, scale: u8, places: &[RawPlace]) -> Result<List<(u16, u16)>, NoMemory>
    requires scale_fits { scale ≤ 15 }
    ensures { IfOk result (λ words. words ≡ places_words scale 0 places.now) }
{
    let mut words = List::new(alloc);
    let mut offset = 0u16;
    for place in places {
        word_if(offset, place_word(place, scale), &mut words)?;
        offset = offset.saturating_add(1);
    }
    Ok(words)
}

// ---- items that have so many words each

fn front(words: usize, places: &[RawPlace]) -> &[RawPlace]
    ensures { result.now ≡ take words places.now }
{
    if words >= places.len() {
        places
    } else {
        &places[..words]
    }
}

fn hold(
    token: u32,
    words: List<(u16, u16)>,
    out: &mut List<Row<List<(u16, u16)>>>,
) -> Result<(), NoMemory>
    ensures { OnOk result (out.new ≡ out.old ++ record { token = token; item = words } ∷ []) }
{
    out.push(Row { token, item: words })
}

fn named_rows(
    alloc: Global,
    scale: u8,
    words: usize,
    names: &[RawName],
    places: &[RawPlace],
    out: &mut List<Row<List<(u16, u16)>>>,
) -> Result<(), NoMemory>
    requires scale_fits { scale ≤ 15 }
    ensures { OnOk result (out.new ≡ out.old ++ named_rows scale words names.now places.now) }
{
    let mut rest = places;
    for name in names {
        let held = places_words(alloc, scale, front(words, rest))?;
        hold(name.at.token, held, out)?;
        rest = behind(words, rest);
    }
    Ok(())
}

fn group_words(group: &RawGroup) -> usize
    ensures { result ≡ group_words group.now }
{
    array_words(&group.bounds.first, &group.bounds.second)
}

fn groups_rows(
    alloc: Global,
    scale: u8,
    groups: &[RawGroup],
    places: &[RawPlace],
    out: &mut List<Row<List<(u16, u16)>>>,
) -> Result<(), NoMemory>
    requires scale_fits { scale ≤ 15 }
    ensures { OnOk result (out.new ≡ out.old ++ groups_rows scale groups.now places.now) }
{
    let mut rest = places;
    for group in groups {
        let words = group_words(group);
        named_rows(alloc, scale, words, group.names.as_slice(), rest, out)?;
        rest = behind_each(words, group.names.as_slice(), rest);
    }
    Ok(())
}

// ---- the elements of tables

fn put_part(t: u8, b: u8, before: u16, value: u16) -> u16
    ensures { result ≡ put_part t b before value }
{
    if 1 <= t && u16::from(t) + u16::from(b) <= 16 {
        put_bits(before, t, b, value)
    } else {
        before
    }
}

fn element_put(element: &RawElem, before: u16, value: u16) -> u16
    ensures { result ≡ element_put element.now before value }
{
    match element {
        RawElem::Word(..) => value,
        RawElem::Part { bits, bit, .. } => {
            let t = byte_within(&place_amount(bits));
            let b = byte_within(&place_amount(bit));
            put_part(t, b, before, value)
        }
    }
}

fn element_word(element: &RawElem) -> u16
    ensures { result ≡ element_word element.now }
{
    match element {
        RawElem::Word(_, _, word) => short_within(&place_amount(word)),
        RawElem::Part { word, .. } => short_within(&place_amount(word)),
    }
}

fn stored(
    offset: u16,
    element: &RawElem,
    value: Option<u16>,
    words: Stored,
) -> Result<Stored, NoMemory>
    ensures { IfOk result (λ ws. ws ≡ stored offset element.now value words) }
{
    match value {
        None => Ok(words),
        Some(value) => {
            let word = element_put(element, words.at(offset), value);
            words.with(offset, word)
        }
    }
}

fn entry_words(
    first: u16,
    elements: &[RawElem],
    places: &[RawPlace],
    words: Stored,
) -> Result<Stored, NoMemory>
    ensures { IfOk result (λ ws. ws ≡ entry_words first elements.now places.now words) }
{
    let mut all = words;
    let mut rest = places;
    for element in elements {
        match rest {
            [] => return Ok(all),
            [place, others @ ..] => {
                let offset = first.saturating_add(element_word(element));
                let value = place_word(place, element_fraction(element));
                all = stored(offset, element, value, all)?;
                rest = others;
            }
        }
    }
    Ok(all)
}

fn fits_product(a: u64, b: u64) -> bool
    ensures { result ≡ fits_area (a * b) }
{
    match a.checked_mul(b) {
        Some(n) => n <= 32768,
        None => false,
    }
}

fn table_entries(width: &Option<u64>, length: &Option<u64>) -> u32
    ensures { result ≡ table_entries width.now length.now }
{
    match width {
        None => 1,
        Some(w) => match length {
            None => 1,
            Some(n) => {
                if 1 <= *w && (1 <= *n && fits_product(*w, *n)) {
                    *n as u32
                } else {
                    1
                }
            }
        },
    }
}

fn entries_words(
    entries: u32,
    width: u16,
    elements: &[RawElem],
    places: &[RawPlace],
    words: Stored,
) -> Result<Stored, NoMemory>
    ensures { IfOk result (λ ws. ws ≡ entries_words entries width 0 elements.now places.now words) }
{
    let mut all = words;
    let mut rest = places;
    let mut first = 0u16;
    let mut left = entries;
    while left > 0 {
        all = entry_words(first, elements, rest, all)?;
        rest = behind(elements.len(), rest);
        first = first.saturating_add(width);
        left -= 1;
    }
    Ok(all)
}

fn elements_words(
    alloc: Global,
    size: &RawSize,
    elements: &[RawElem],
    places: &[RawPlace],
) -> Result<List<(u16, u16)>, NoMemory>
    ensures { IfOk result (λ words. words ≡ elements_words size.now elements.now places.now) }
{
    let entries = table_entries(&place_amount(&size.first), &place_amount(&size.second));
    let stored = entries_words(
        entries,
        width_of(size),
        elements,
        places,
        Stored::new(alloc),
    )?;
    words_of(alloc, &stored)
}

// ---- declarations

fn singles_preset(
    alloc: Global,
    scale: u8,
    names: &[RawName],
    presets: &Option<RawPresets>,
    out: &mut List<Row<List<(u16, u16)>>>,
) -> Result<(), NoMemory>
    requires scale_fits { scale ≤ 15 }
    ensures { OnOk result (out.new ≡ out.old ++ singles_preset scale names.now presets.now) }
{
    match presets {
        None => Ok(()),
        Some(presets) => named_rows(alloc, scale, 1, names, presets.places.as_slice(), out),
    }
}

fn groups_preset(
    alloc: Global,
    scale: u8,
    groups: &[RawGroup],
    presets: &Option<RawPresets>,
    out: &mut List<Row<List<(u16, u16)>>>,
) -> Result<(), NoMemory>
    requires scale_fits { scale ≤ 15 }
    ensures { OnOk result (out.new ≡ out.old ++ groups_preset scale groups.now presets.now) }
{
    match presets {
        None => Ok(()),
        Some(presets) => groups_rows(alloc, scale, groups, presets.places.as_slice(), out),
    }
}

fn words_of_table(table: &RawTable) -> usize
    ensures { result ≡ words_of_table table.now }
{
    table_words(
        &place_amount(&table.size.first),
        &place_amount(&table.size.second),
    )
}

fn table_preset(
    alloc: Global,
    table: &RawTable,
    inside: &Option<RawPresets>,
    behind: &Option<RawPresets>,
    out: &mut List<Row<List<(u16, u16)>>>,
) -> Result<(), NoMemory>
    ensures { OnOk result (out.new ≡ out.old ++ table_preset table.now inside.now behind.now) }
{
    let token = table.name.at.token;
    match inside {
        Some(presets) => {
            let elements = table.elems.as_slice();
            let held = elements_words(alloc, &table.size, elements, presets.places.as_slice())?;
            hold(token, held, out)
        }
        None => match behind {
            Some(presets) => {
                let places = front(words_of_table(table), presets.places.as_slice());
                let held = places_words(alloc, 0, places)?;
                hold(token, held, out)
            }
            None => Ok(()),
        },
    }
}

/// Adds what the items of a declaration hold at the start.
pub(crate) fn data_rows(
    items: &RawData,
    alloc: Global,
    out: &mut List<Row<List<(u16, u16)>>>,
) -> Result<(), NoMemory>
    ensures { OnOk result (out.new ≡ out.old ++ data_rows items.now) }
{
    match items {
        RawData::Singles(scale, names, presets) => {
            singles_preset(alloc, fraction_of(scale), names.as_slice(), presets, out)
        }
        RawData::Arrays(scale, groups, presets) => {
            groups_preset(alloc, fraction_of(scale), groups.as_slice(), presets, out)
        }
        RawData::Table(table, inside, behind) => { table_preset(alloc, table, inside, behind, out) }
    }
}
