//! What relocated words mean, and the words of data behind calls of the library.
ghost use Rattle.std.specs.Prelude.{◌≡◌, ◌≤◌, ◌+◌, ◌%◌, ◌++◌, map, flat_map, Some, All, ◌^◌, slice_get, slice_index, IfOk, OnOk};
ghost use Rattle.cw_nasm.specs.Assembly.{label_of};
ghost use Rattle.cw_unit.specs.Storage.{layout_of};
ghost use Rattle.cw_list.specs.Listing.{segment_owner, unnamed, name_or_line};
ghost use Rattle.cw_list.specs.Rows.{is_common, owner_of};
ghost use Rattle.cw_nasm.specs.Names.{name_in};
ghost use Rattle.cw_listing.specs.Remarks.{roots_from, roots_of, item_owner, item_name, offset_text, word_name, descriptor_name, limit_names};
ghost use Rattle.cw_listing.specs.Remarks.{word_text, word_remark, word_remarks, words_behind, words_behind_call, data_places};

use crate::library::{add_library_text, words_behind};
use crate::remark::Remark;
use cw_nasm::{add, add_decimal, add_label};
use cw_tmpl::Code;
use cw_unit::layout::{Layout, Reloc};
use cw_unit::unit::{Home, Item, ItemKind, Proc, Unit};
use cw_word::{List, Name, NoMemory};
use std::alloc::Global;

const LIMIT_NAMES: [&[u8]; 4] = [b"D", b"F", b"calls", b"segment"];

// The items that are the roots of families, in order of these.
fn roots_of(alloc: Global, homes: &[(u16, u16)]) -> Result<List<u64>, NoMemory>
    ensures { IfOk result (λ roots. roots ≡ roots_from 0 0 homes.now) }
{
    let mut roots = List::new(alloc);
    let mut family: u64 = 0;
    for k in 0..homes.len() {
        if u64::from(homes[k].0) == family {
            roots.push(k as u64)?;
            family += 1;
        }
    }
    Ok(roots)
}

// ---- names of items

fn is_common(home: Home) -> bool
    ensures { result ≡ is_common home }
{
    match home {
        Home::Common(_) => true,
        _ => false,
    }
}

fn owner_of(procedures: &[Proc], owner: Option<u16>) -> Option<Name>
    ensures { result ≡ owner_of procedures.now owner }
{
    match owner {
        Some(procedure) => match procedures.get(procedure as usize) {
            Some(procedure) => Some(procedure.name),
            None => None,
        },
        None => None,
    }
}

fn add_segment_owner(
    text: &mut Vec<u8>,
    segment: &Name,
    procedure: &Option<Name>,
) -> Result<(), NoMemory>
    ensures { OnOk result (text.new.items ≡ text.old.items ++ segment_owner segment.now procedure.now) }
{
    add(text, segment.bytes())?;
    match procedure {
        Some(procedure) => {
            add(text, b".")?;
            add(text, procedure.bytes())
        }
        None => Ok(()),
    }
}

fn add_owner(text: &mut Vec<u8>, unit: &Unit, item: &Item) -> Result<(), NoMemory>
    ensures { OnOk result (text.new.items ≡ text.old.items ++ item_owner unit.now item.now) }
{
    if is_common(item.home) {
        add(text, b"COMMON")
    } else {
        let owner = owner_of(unit.procs.as_slice(), item.owner);
        add_segment_owner(text, &unit.name, &owner)
    }
}

fn unnamed(kind: ItemKind) -> &'static [u8]
    ensures { result.now ≡ unnamed kind }
{
    match kind {
        ItemKind::Loop => b"FOR@",
        _ => b"STRING@",
    }
}

fn add_name(
    text: &mut Vec<u8>,
    name: &Option<Name>,
    kind: ItemKind,
    line: u16,
) -> Result<(), NoMemory>
    ensures { OnOk result (text.new.items ≡ text.old.items ++ name_or_line name.now kind line) }
{
    match name {
        Some(name) => add(text, name.bytes()),
        None => {
            add(text, unnamed(kind))?;
            add_decimal(text, u32::from(line))
        }
    }
}

fn add_item(text: &mut Vec<u8>, unit: &Unit, item: &Item) -> Result<(), NoMemory>
    ensures { OnOk result (text.new.items ≡ text.old.items ++ item_name unit.now (Some item.now)) }
{
    add_owner(text, unit, item)?;
    add(text, b".")?;
    add_name(text, &item.name, item.kind, item.line)
}

fn add_item_name(text: &mut Vec<u8>, unit: &Unit, item: u64) -> Result<(), NoMemory>
    ensures { OnOk result (text.new.items ≡ text.old.items ++ item_name unit.now (slice_get unit.now.items item)) }
{
    match unit.items.as_slice().get(item as usize) {
        Some(item) => add_item(text, unit, item),
        None => Ok(()),
    }
}

fn add_offset(text: &mut Vec<u8>, offset: u16) -> Result<(), NoMemory>
    ensures { OnOk result (text.new.items ≡ text.old.items ++ offset_text offset) }
{
    if offset == 0 {
        Ok(())
    } else {
        add(text, b"+")?;
        add_decimal(text, u32::from(offset))
    }
}

fn root(roots: &[u64], family: u16) -> u64
    ensures { result ≡ slice_index roots.now family }
{
    match roots.get(family as usize) {
        Some(root) => *root,
        None => 0,
    }
}

fn add_word_name(
    text: &mut Vec<u8>,
    unit: &Unit,
    roots: &[u64],
    family: u16,
    offset: u16,
) -> Result<(), NoMemory>
    ensures { OnOk result (text.new.items ≡ text.old.items ++ word_name unit.now roots.now family offset) }
{
    add_item_name(text, unit, root(roots, family))?;
    add_offset(text, offset)
}

// ---- meanings

fn add_descriptor(text: &mut Vec<u8>, unit: &Unit, descriptor: u16) -> Result<(), NoMemory>
    ensures { OnOk result (text.new.items ≡ text.old.items ++ descriptor_name (slice_get unit.now.descs descriptor)) }
{
    match unit.descs.as_slice().get(descriptor as usize) {
        Some(descriptor) => add(text, descriptor.name.bytes()),
        None => Ok(()),
    }
}

fn limit_name(index: u16) -> &'static [u8]
    ensures { result.now ≡ name_in limit_names index }
{
    match LIMIT_NAMES.get(index as usize) {
        Some(name) => *name,
        None => &[],
    }
}

fn add_place(text: &mut Vec<u8>, start: u64, add: u16) -> Result<(), NoMemory>
    requires { start ≤ 65536 }
    ensures { OnOk result (text.new.items ≡ text.old.items ++ label_of ((start + add) % 65536)) }
{
    add_label(text, ((start + u64::from(add)) % 65536) as u16)
}

// Adds what a relocated word means.
fn add_word_text(
    text: &mut Vec<u8>,
    start: u64,
    unit: &Unit,
    roots: &[u64],
    reloc: &Reloc,
) -> Result<(), NoMemory>
    requires { start ≤ 65536 }
    ensures { OnOk result (text.new.items ≡ text.old.items ++ word_text start unit.now roots.now reloc.now) }
{
    if reloc.sort == 1 {
        add(text, b"address of ")?;
        add_word_name(text, unit, roots, reloc.index, reloc.add)
    } else if reloc.sort == 2 {
        add_word_name(text, unit, roots, reloc.index, reloc.add)
    } else if reloc.sort == 3 {
        add_place(text, start, reloc.add)
    } else if reloc.sort < 6 {
        add_descriptor(text, unit, reloc.index)
    } else if reloc.sort < 8 {
        add_library_text(text, reloc.index)
    } else if reloc.sort == 8 {
        add(text, limit_name(reloc.index))
    } else {
        add(text, b"next segment")
    }
}

fn word_remark(
    alloc: Global,
    start: u64,
    unit: &Unit,
    roots: &[u64],
    reloc: &Reloc,
) -> Result<Remark, NoMemory>
    requires { start ≤ 65536 }
    ensures { IfOk result (λ remark. remark ≡ word_remark start unit.now roots.now reloc.now) }
{
    let mut text = Vec::new(alloc);
    add_word_text(&mut text, start, unit, roots, reloc)?;
    Ok(Remark {
        place: start + u64::from(reloc.place),
        text: List::of(text),
    })
}

fn add_each_word(
    alloc: Global,
    remarks: &mut List<Remark>,
    start: u64,
    unit: &Unit,
    roots: &[u64],
    relocs: &[Reloc],
) -> Result<(), NoMemory>
    requires { start ≤ 65536 }
    ensures { OnOk result (remarks.new ≡ remarks.old ++ map (word_remark start unit.now roots.now) relocs.now) }
{
    for k in 0..relocs.len() {
        remarks.push(word_remark(alloc, start, unit, roots, &relocs[k])?)?;
    }
    Ok(())
}

/// Adds the relocated words of a segment, whose linked code begins at a place.
pub(crate) fn add_words(
    alloc: Global,
    remarks: &mut List<Remark>,
    start: u64,
    unit: &Unit,
    layout: &Layout,
    code: &Code,
) -> Result<(), NoMemory>
    requires start { start ≤ 65536 }
    requires layout { layout.now ≡ layout_of unit.now }
    ensures { OnOk result (remarks.new ≡ remarks.old ++ word_remarks start unit.now code.now) }
{
    let roots = roots_of(alloc, layout.homes.as_slice())?;
    add_each_word(
        alloc,
        remarks,
        start,
        unit,
        roots.as_slice(),
        code.relocs.as_slice(),
    )
}

// ---- words of data

fn add_offsets(places: &mut List<u64>, end: u64, offsets: &[u64]) -> Result<(), NoMemory>
    requires end { end ≤ 2 ^ 40 }
    requires offsets { All (λ o. o ≤ 2 ^ 40) offsets.now }
    ensures { OnOk result (places.new ≡ places.old ++ map (λ o. end + o) offsets.now) }
{
    for k in 0..offsets.len() {
        places.push(end + offsets[k])?;
    }
    Ok(())
}

fn add_behind_call(places: &mut List<u64>, start: u64, reloc: &Reloc) -> Result<(), NoMemory>
    requires { start ≤ 65536 }
    ensures { OnOk result (places.new ≡ places.old ++ words_behind_call start reloc.now) }
{
    if reloc.sort == 7 {
        add_offsets(
            places,
            start + u64::from(reloc.place) + 2,
            words_behind(reloc.index),
        )
    } else {
        Ok(())
    }
}

/// Adds the places of the words of data behind calls of the library.
pub(crate) fn add_data(places: &mut List<u64>, start: u64, code: &Code) -> Result<(), NoMemory>
    requires { start ≤ 65536 }
    ensures { OnOk result (places.new ≡ places.old ++ data_places start code.now) }
{
    let relocs = code.relocs.as_slice();
    for k in 0..relocs.len() {
        add_behind_call(places, start, &relocs[k])?;
    }
    Ok(())
}
