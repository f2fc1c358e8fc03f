//! Items at the end of bytes.
ghost use Rattle.std.specs.Prelude.{◌≡◌, ℕ, ◌++◌, ◌∷◌, [], ◌<◌, OnOk, length, slice_get, slice_index_or};
ghost use Rattle.cw_view.specs.Payloads.{item_bytes, item_kind_number};
ghost use Rattle.cw_view.specs.ObjectFormat.{framed};
ghost use Rattle.cw_obj.specs.ReferenceObject.{records_bytes, name_or_none, owner_name, is_common, entry_of, items_from, place_bytes};

use crate::records::put_head;
use cw_fields::{put_byte, put_long, put_text, put_word};
use cw_unit::layout::Layout;
use cw_unit::unit::{Home, Item, ItemKind, Unit};
use cw_word::{Name, NoMemory};

fn item_kind_number(kind: ItemKind) -> u8
    ensures { result ≡ item_kind_number kind }
{
    match kind {
        ItemKind::Single => 0,
        ItemKind::Array => 1,
        ItemKind::Table => 2,
        ItemKind::Text => 3,
        ItemKind::Loop => 4,
    }
}

fn is_common(home: Home) -> bool
    ensures { result ≡ is_common home }
{
    match home {
        Home::Common(_) => true,
        Home::Own => false,
        Home::Absolute(_) => false,
        Home::Frame => false,
        Home::Over { .. } => false,
    }
}

// A name's bytes, none where there is no name.
fn name_or_none(name: &Option<Name>) -> &[u8]
    ensures value { result.now ≡ name_or_none name.now }
    ensures short { length result.now < 32 }
{
    match name {
        None => &[],
        Some(name) => name.bytes(),
    }
}

fn owner_name(unit: &Unit, owner: Option<u16>) -> &[u8]
    ensures value { result.now ≡ owner_name unit.now owner }
    ensures short { length result.now < 32 }
{
    match owner {
        None => &[],
        Some(number) => match unit.procs.as_slice().get(number as usize) {
            None => &[],
            Some(procedure) => procedure.name.bytes(),
        },
    }
}

// The words of an item: kind, whether of a COMMON list, family, offset there, words.
fn put_place(out: &mut Vec<u8>, item: &Item, place: (u16, u16)) -> Result<(), NoMemory>
    ensures { OnOk result (out.new.items ≡ out.old.items ++ place_bytes place item.now) }
{
    put_byte(out, item_kind_number(item.kind))?;
    put_byte(out, u8::from(is_common(item.home)))?;
    put_word(out, place.0)?;
    put_word(out, place.1)?;
    put_long(out, item.words)
}

fn put_item_payload(
    out: &mut Vec<u8>,
    unit: &Unit,
    item: &Item,
    place: (u16, u16),
) -> Result<(), NoMemory>
    ensures { OnOk result (out.new.items ≡ out.old.items ++ item_bytes (entry_of unit.now place item.now)) }
{
    put_text(out, owner_name(unit, item.owner))?;
    put_text(out, name_or_none(&item.name))?;
    put_word(out, item.line)?;
    put_place(out, item, place)?;
    Ok(())
}

// How long an item's payload is. The place does not matter.
fn item_size(unit: &Unit, item: &Item) -> u32
    ensures { (place : ℕ × ℕ) → result ≡ length (item_bytes (entry_of unit.now place item.now)) }
{
    14 + owner_name(unit, item.owner).len() as u32 + name_or_none(&item.name).len() as u32
}

fn put_item(out: &mut Vec<u8>, unit: &Unit, item: &Item, place: (u16, u16)) -> Result<(), NoMemory>
    ensures { OnOk result (out.new.items ≡ out.old.items ++ framed 4 (item_bytes (entry_of unit.now place item.now))) }
{
    put_head(out, 4, item_size(unit, item))?;
    put_item_payload(out, unit, item, place)
}

fn place_of(layout: &Layout, number: usize) -> (u16, u16)
    ensures { result ≡ slice_index_or layout.now.homes number (0, 0) }
{
    match layout.homes.as_slice().get(number) {
        Some(place) => *place,
        None => (0, 0),
    }
}

/// The records of a unit's items, in order.
pub(crate) fn put_items(out: &mut Vec<u8>, unit: &Unit, layout: &Layout) -> Result<(), NoMemory>
    ensures { OnOk result (out.new.items ≡ out.old.items ++ records_bytes (items_from 0 unit.now layout.now unit.now.items)) }
{
    for (number, item) in unit.items.as_slice().iter().enumerate() {
        put_item(out, unit, item, place_of(layout, number))?;
    }
    Ok(())
}
