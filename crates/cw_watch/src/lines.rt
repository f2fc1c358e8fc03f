// The lines of the storage map that have an address.
ghost use Rattle.std.specs.Prelude.{◌≡◌, ◌+◌, ◌++◌, All, OnOk, IfOk, slice_get, flat_map};
ghost use Rattle.cw_unit.specs.Program.{is_frame_family};
ghost use Rattle.cw_view.specs.ObjectFormat.{IsObject};
ghost use Rattle.cw_view.specs.Reading.{family_in, item_in};
ghost use Rattle.cw_view.specs.Views.{entry_of};
ghost use Rattle.cw_link.specs.Contents.{records_of};
ghost use Rattle.cw_watch.specs.Watching.{owner_text, name_text, item_text, line_of, lines_from};

use crate::opening::view_of;
use cw_link::{families_of, number_at};
use cw_list::{add, addresses, unnamed};
use cw_unit::layout::{Family, ItemView, Map, Sort};
use cw_view::{View, read_item};
use cw_word::{List, Name, NoMemory};
use std::alloc::Global;

/// What the storage map tells of an item that has an address: what stands for it there, where it begins, and its words.
#[derive(Drop)]
pub(crate) struct ItemLine {
    pub(crate) text: List<u8>,
    pub(crate) address: u32,
    pub(crate) words: u32,
}

fn is_frame(families: &[Family], family: u16) -> bool
    ensures { result ≡ is_frame_family (slice_get families.now family) }
{
    match families.get(family as usize) {
        Some(family) => match family.sort {
            Sort::Frame(_) => true,
            _ => false,
        },
        None => false,
    }
}

fn add_owner(text: &mut Vec<u8>, segment: &Name, item: &ItemView) -> Result<(), NoMemory>
    ensures { OnOk result (text.new.items ≡ text.old.items ++ owner_text segment.now (entry_of item.now)) }
{
    if item.common {
        return add(text, b"COMMON");
    }
    add(text, segment.bytes())?;
    if item.owner.is_empty() {
        return Ok(());
    }
    add(text, b".")?;
    add(text, item.owner)
}

fn add_name(text: &mut Vec<u8>, item: &ItemView) -> Result<(), NoMemory>
    ensures { OnOk result (text.new.items ≡ text.old.items ++ name_text (entry_of item.now)) }
{
    if !item.name.is_empty() {
        return add(text, item.name);
    }
    add(text, unnamed(item.kind))?;
    let mut buffer = itoa::Buffer::new();
    let digits = buffer.format(item.line);
    add(text, digits.as_bytes())
}

// What stands for an item in the storage map.
fn item_text(alloc: Global, segment: &Name, item: &ItemView) -> Result<List<u8>, NoMemory>
    ensures { IfOk result (λ text. text ≡ item_text segment.now (entry_of item.now)) }
{
    let mut text = Vec::new(alloc);
    add_owner(&mut text, segment, item)?;
    add(&mut text, b".")?;
    add_name(&mut text, item)?;
    Ok(List::of(text))
}

// Adds the line of an item, if it has one.
fn add_line(
    alloc: Global,
    lines: &mut List<ItemLine>,
    segment: &Name,
    families: &[Family],
    homes: &[u16],
    item: &ItemView,
) -> Result<(), NoMemory>
    ensures { OnOk result (lines.new ≡ lines.old ++ line_of segment.now families.now homes.now (entry_of item.now)) }
{
    if is_frame(families, item.family) {
        return Ok(());
    }
    let text = item_text(alloc, segment, item)?;
    lines.push(ItemLine {
        text,
        address: u32::from(number_at(homes, item.family)) + u32::from(item.offset),
        words: item.words,
    })
}

// Adds those of an object's items.
fn add_lines(
    alloc: Global,
    lines: &mut List<ItemLine>,
    view: &View,
    homes: &[u16],
) -> Result<(), NoMemory>
    ensures { OnOk result (lines.new ≡ lines.old
        ++ flat_map (line_of view.now.name (records_of family_in 3 view.now) homes.now)
        (records_of item_in 4 view.now)) }
{
    let families = families_of(alloc, view)?;
    let segment = view.name();
    for payload in view.records(4) {
        if let Some(item) = read_item(payload) {
            add_line(alloc, lines, &segment, families.as_slice(), homes, &item)?;
        }
    }
    Ok(())
}

/// Those of objects that were linked, in order of segment and place in the text.
pub(crate) fn all_lines(
    alloc: Global,
    objects: &[List<u8>],
    map: &Map,
) -> Result<List<ItemLine>, NoMemory>
    requires { All IsObject objects.now }
    ensures { IfOk result (λ lines. lines ≡ lines_from 0 map.now.homes objects.now) }
{
    let mut lines = List::new(alloc);
    for segment in 0..objects.len() {
        let view = view_of(objects[segment].as_slice());
        add_lines(alloc, &mut lines, &view, addresses(map, segment))?;
    }
    Ok(lines)
}
