//! The descriptors of a segment.
ghost use Rattle.std.specs.Prelude.{◌≡◌, ◌++◌, ◌∷◌, [], IfOk, OnOk, slice_get, min};
ghost use Rattle.cw_table.specs.Rows.{place_at};
ghost use Rattle.cw_number.specs.things.Things.{amount_or_none};
ghost use Rattle.cw_make_items.specs.Descriptors.{dimension, second_dimension, dimensions_of, part_form, element_of};
ghost use Rattle.cw_make_items.specs.Descriptors.{elements_of, array_body, table_body, descriptor_at};
ghost use Rattle.cw_make_items.specs.Descriptors.{over_base, over_thing, over_at, data_desc, word_descs, array_descs};
ghost use Rattle.cw_make_items.specs.Descriptors.{group_descs, data_descs, bare_desc, label_descs, switch_descs};
ghost use Rattle.cw_make_items.specs.Descriptors.{spec_desc, citem_descs, citems_descs, library_desc, library_descs, communicator_descs, descs_of};

use crate::lookup::item_here;
use crate::types::{bound, byte_within, scale_of, short_within, spec_of, width_of};
use cw_amount::amount::place_amount;
use cw_number::listed::{Listing, is_built_in};
use cw_number::numbered::Numbered;
use cw_number::{Base, Thing};
use cw_scale::kinds::fraction_of_sint;
use cw_table::table::Table;
use cw_tree::items::{RawBounds, RawData, RawElem, RawGroup, RawRange, RawTable};
use cw_tree::leaf::{RawName, RawType};
use cw_tree::segment::{RawCitem, RawComm, RawSpec};
use cw_unit::descriptor::{Desc, DescBody, ElemDesc};
use cw_word::{List, NoMemory};
use std::alloc::Global;

// ---- what stands for what

fn dimension(range: &RawRange) -> (i16, i16)
    ensures { result ≡ dimension range.now }
{
    (bound(&range.lower), bound(&range.upper))
}

fn dimensions_of(alloc: Global, bounds: &RawBounds) -> Result<List<(i16, i16)>, NoMemory>
    ensures { IfOk result (λ all. all ≡ dimensions_of bounds.now) }
{
    let mut all = List::new(alloc);
    all.push(dimension(&bounds.first))?;
    match &bounds.second {
        None => {}
        Some(second) => all.push(dimension(second))?,
    }
    Ok(all)
}

fn element_of(element: &RawElem) -> ElemDesc
    ensures { result ≡ element_of element.now }
{
    match element {
        RawElem::Word(name, scale, word) => {
            let scale = scale_of(scale);
            ElemDesc {
                name: name.name,
                form: 0,
                t: scale.t,
                f: scale.f,
                word: short_within(&place_amount(word)),
                bit: 0,
            }
        }
        RawElem::Part {
            name,
            unsigned,
            bits,
            scale,
            word,
            bit,
        } => ElemDesc {
            name: name.name,
            form: if *unsigned { 2 } else { 1 },
            t: byte_within(&place_amount(bits)),
            f: fraction_of_sint(scale),
            word: short_within(&place_amount(word)),
            bit: byte_within(&place_amount(bit)),
        },
    }
}

fn elements_of(alloc: Global, elements: &[RawElem]) -> Result<List<ElemDesc>, NoMemory>
    ensures { IfOk result (λ all. all ≡ elements_of elements.now) }
{
    let mut all = List::new(alloc);
    for element in elements {
        all.push(element_of(element))?;
    }
    Ok(all)
}

fn array_body(alloc: Global, scale: &RawType, bounds: &RawBounds) -> Result<DescBody, NoMemory>
    ensures { IfOk result (λ b. b ≡ array_body scale.now bounds.now) }
{
    let dims = dimensions_of(alloc, bounds)?;
    Ok(DescBody::Array {
        scale: scale_of(scale),
        dims,
    })
}

fn table_body(alloc: Global, table: &RawTable) -> Result<DescBody, NoMemory>
    ensures { IfOk result (λ b. b ≡ table_body table.now) }
{
    let elems = elements_of(alloc, table.elems.as_slice())?;
    Ok(DescBody::Table {
        width: width_of(&table.size),
        length: short_within(&place_amount(&table.size.second)),
        elems,
    })
}

// ---- overlays

/// The descriptor of a name of this token.
pub(crate) fn descriptor_at(listed: &Table<Listing>, token: u32) -> u16
    ensures { result ≡ min (amount_or_none (place_at listed.now token)) 65535 }
{
    match listed.number(token) {
        None => 0,
        Some(place) => if place <= 65535 { place as u16 } else { 65535 },
    }
}

/// A word of a base.
pub(crate) fn short(word: u32) -> u16
    ensures { result ≡ min word 65535 }
{
    if word <= 65535 { word as u16 } else { 65535 }
}

fn over_base(listed: &Table<Listing>, base: &Option<Base>) -> Option<(u16, u16)>
    ensures { result ≡ over_base listed.now base.now }
{
    match base {
        None => None,
        Some(base) => Some((descriptor_at(listed, base.token), short(base.word))),
    }
}

// What descriptors are made by: the numbers of a text, what it lists and what it stores.
#[derive(Clone, Copy)]
struct Grounds<'a> {
    alloc: Global,
    numbers: &'a Table<Numbered>,
    listed: &'a Table<Listing>,
    things: &'a [Thing],
}

fn over_at(by: Grounds, token: u32) -> Option<(u16, u16)>
    ensures { result ≡ over_at by.entry.numbers.now by.entry.listed.now by.entry.things.now token }
{
    match by.things.get(item_here(by.numbers, token) as usize) {
        None => None,
        Some(thing) => over_base(by.listed, &thing.base),
    }
}

// ---- the lists

fn data_desc(by: Grounds, name: &RawName, body: DescBody) -> Desc
    ensures { result ≡ data_desc by.entry.numbers.now by.entry.listed.now by.entry.things.now name.now body }
{
    Desc {
        name: name.name,
        library: false,
        over: over_at(by, name.at.token),
        body,
    }
}

fn word_descs(
    by: Grounds,
    scale: &RawType,
    names: &[RawName],
    out: &mut List<Desc>,
) -> Result<(), NoMemory>
    ensures { OnOk result (out.new ≡ out.old ++ word_descs by.entry.numbers.now by.entry.listed.now by.entry.things.now scale.now names.now) }
{
    for name in names {
        let body = DescBody::Word(scale_of(scale));
        out.push(data_desc(by, name, body))?;
    }
    Ok(())
}

fn array_descs(
    by: Grounds,
    scale: &RawType,
    bounds: &RawBounds,
    names: &[RawName],
    out: &mut List<Desc>,
) -> Result<(), NoMemory>
    ensures { OnOk result (out.new ≡ out.old ++ array_descs by.entry.numbers.now by.entry.listed.now by.entry.things.now scale.now bounds.now names.now) }
{
    for name in names {
        let body = array_body(by.alloc, scale, bounds)?;
        out.push(data_desc(by, name, body))?;
    }
    Ok(())
}

fn group_descs(
    by: Grounds,
    scale: &RawType,
    groups: &[RawGroup],
    out: &mut List<Desc>,
) -> Result<(), NoMemory>
    ensures { OnOk result (out.new ≡ out.old ++ group_descs by.entry.numbers.now by.entry.listed.now by.entry.things.now scale.now groups.now) }
{
    for group in groups {
        let names = group.names.as_slice();
        array_descs(by, scale, &group.bounds, names, out)?;
    }
    Ok(())
}

fn data_descs(by: Grounds, items: &RawData, out: &mut List<Desc>) -> Result<(), NoMemory>
    ensures { OnOk result (out.new ≡ out.old ++ data_descs by.entry.numbers.now by.entry.listed.now by.entry.things.now items.now) }
{
    match items {
        RawData::Singles(scale, names, _) => { word_descs(by, scale, names.as_slice(), out) }
        RawData::Arrays(scale, groups, _) => { group_descs(by, scale, groups.as_slice(), out) }
        RawData::Table(table, _, _) => {
            let body = table_body(by.alloc, table)?;
            out.push(data_desc(by, &table.name, body))
        }
    }
}

fn bare_desc(name: &RawName, body: DescBody) -> Desc
    ensures { result ≡ bare_desc name.now body }
{
    Desc {
        name: name.name,
        library: false,
        over: None,
        body,
    }
}

fn label_descs(names: &[RawName], out: &mut List<Desc>) -> Result<(), NoMemory>
    ensures { OnOk result (out.new ≡ out.old ++ label_descs names.now) }
{
    for name in names {
        out.push(bare_desc(name, DescBody::Label))?;
    }
    Ok(())
}

fn switch_descs(names: &[RawName], out: &mut List<Desc>) -> Result<(), NoMemory>
    ensures { OnOk result (out.new ≡ out.old ++ switch_descs names.now) }
{
    for name in names {
        out.push(bare_desc(name, DescBody::Switch))?;
    }
    Ok(())
}

fn spec_desc(alloc: Global, library: bool, spec: &RawSpec) -> Result<Desc, NoMemory>
    ensures { IfOk result (λ d. d ≡ spec_desc library spec.now) }
{
    let specified = spec_of(alloc, &spec.answer, spec.params.as_slice())?;
    Ok(Desc {
        name: spec.name.name,
        library,
        over: None,
        body: DescBody::Proc(specified),
    })
}

fn citem_descs(by: Grounds, item: &RawCitem, out: &mut List<Desc>) -> Result<(), NoMemory>
    ensures { OnOk result (out.new ≡ out.old ++ citem_descs by.entry.numbers.now by.entry.listed.now by.entry.things.now item.now) }
{
    match item {
        RawCitem::Data(items) => data_descs(by, items, out),
        RawCitem::Overlay(_, _, items) => data_descs(by, items, out),
        RawCitem::Label(_, names) => label_descs(names.as_slice(), out),
        RawCitem::Switch(_, names) => switch_descs(names.as_slice(), out),
        RawCitem::Spec(spec) => {
            let desc = spec_desc(by.alloc, false, spec)?;
            out.push(desc)
        }
    }
}

fn citems_descs(by: Grounds, items: &[RawCitem], out: &mut List<Desc>) -> Result<(), NoMemory>
    ensures { OnOk result (out.new ≡ out.old ++ citems_descs by.entry.numbers.now by.entry.listed.now by.entry.things.now items.now) }
{
    for item in items {
        citem_descs(by, item, out)?;
    }
    Ok(())
}

fn library_desc(alloc: Global, spec: &RawSpec, out: &mut List<Desc>) -> Result<(), NoMemory>
    ensures { OnOk result (out.new ≡ out.old ++ library_desc spec.now) }
{
    if is_built_in(&spec.name.name) {
        return Ok(());
    }
    let desc = spec_desc(alloc, true, spec)?;
    out.push(desc)
}

fn library_descs(alloc: Global, specs: &[RawSpec], out: &mut List<Desc>) -> Result<(), NoMemory>
    ensures { OnOk result (out.new ≡ out.old ++ library_descs specs.now) }
{
    for spec in specs {
        library_desc(alloc, spec, out)?;
    }
    Ok(())
}

fn communicator_descs(by: Grounds, list: &RawComm, out: &mut List<Desc>) -> Result<(), NoMemory>
    ensures { OnOk result (out.new ≡ out.old ++ communicator_descs by.entry.numbers.now by.entry.listed.now by.entry.things.now list.now) }
{
    match list {
        RawComm::Common(_, items) => { citems_descs(by, items.as_slice(), out) }
        RawComm::Library(_, specs) => library_descs(by.alloc, specs.as_slice(), out),
        RawComm::Absolute(..) => Ok(()),
    }
}

/// The descriptors of a segment, in order of the text.
pub fn descs_of(
    alloc: Global,
    numbers: &Table<Numbered>,
    listed: &Table<Listing>,
    things: &[Thing],
    lists: &[RawComm],
) -> Result<List<Desc>, NoMemory>
    ensures { IfOk result (λ all. all ≡ descs_of numbers.now listed.now things.now lists.now) }
{
    let by = Grounds {
        alloc,
        numbers,
        listed,
        things,
    };
    let mut all = List::new(alloc);
    for list in lists {
        communicator_descs(by, list, &mut all)?;
    }
    Ok(all)
}
