//! The object of a unit.
ghost use Rattle.std.specs.Prelude.{◌≡◌, ℕ, ◌++◌, ◌∷◌, [], ◌<◌, OnOk, IfOk, length, slice_index, map};
ghost use Rattle.cw_fields.specs.Fields.{text_bytes};
ghost use Rattle.cw_view.specs.Payloads.{definition_bytes, statement_bytes, body_facts_bytes};
ghost use Rattle.cw_view.specs.ObjectFormat.{framed, header, PresetWord, Relocation, Statement};
ghost use Rattle.cw_obj.specs.ReferenceObject.{records_bytes, definition_place, definition_of, definition_records};
ghost use Rattle.cw_obj.specs.ReferenceObject.{front_records, back_records, object_records, object_bytes};

use crate::descriptor::put_descriptors;
use crate::item::put_items;
use crate::records::{put_families, put_head, put_preset, put_record, put_relocation};
use cw_fields::{put_bytes, put_long, put_text, put_word};
use cw_tmpl::Code;
use cw_unit::layout::{Body, Layout, Preset, Reloc};
use cw_unit::unit::{Def, Unit};
use cw_word::{Name, NoMemory};
use std::alloc::Global;

/// The mark of an object, and version 2.
const HEADER: [u8; 6] = *b"C66O\x02\x00";

fn put_header(out: &mut Vec<u8>) -> Result<(), NoMemory>
    ensures { OnOk result (out.new.items ≡ out.old.items ++ header 2) }
{
    put_bytes(out, &HEADER)
}

fn put_segment(out: &mut Vec<u8>, name: &Name) -> Result<(), NoMemory>
    ensures { OnOk result (out.new.items ≡ out.old.items ++ framed 1 (text_bytes name.now)) }
{
    let text = name.bytes();
    put_head(out, 1, 1 + text.len() as u32)?;
    put_text(out, text)
}

fn put_presets(out: &mut Vec<u8>, presets: &[Preset]) -> Result<(), NoMemory>
    ensures { OnOk result (out.new.items ≡ out.old.items ++ records_bytes (map PresetWord presets.now)) }
{
    for preset in presets {
        put_preset(out, preset)?;
    }
    Ok(())
}

fn put_relocations(out: &mut Vec<u8>, relocations: &[Reloc]) -> Result<(), NoMemory>
    ensures { OnOk result (out.new.items ≡ out.old.items ++ records_bytes (map Relocation relocations.now)) }
{
    for relocation in relocations {
        put_relocation(out, relocation)?;
    }
    Ok(())
}

fn place_at(places: &[u32], number: usize) -> u32
    ensures { result ≡ slice_index places.now number }
{
    match places.get(number) {
        Some(place) => *place,
        None => 0,
    }
}

// Where the code of what defines a descriptor begins.
fn definition_place(code: &Code, definition: Def) -> u32
    ensures { result ≡ definition_place code.now definition }
{
    match definition {
        Def::Proc(number) => place_at(code.procedures.as_slice(), number as usize),
        Def::Label(number) => place_at(code.labels.as_slice(), number as usize),
        Def::Switch(number) => place_at(code.switches.as_slice(), number as usize),
    }
}

fn definition_of(code: &Code, definition: (u16, Def)) -> (u16, u32)
    ensures { result ≡ definition_of code.now definition }
{
    (definition.0, definition_place(code, definition.1))
}

fn put_definition(out: &mut Vec<u8>, definition: (u16, u32)) -> Result<(), NoMemory>
    ensures { OnOk result (out.new.items ≡ out.old.items ++ framed 8 (definition_bytes definition)) }
{
    put_head(out, 8, 6)?;
    put_word(out, definition.0)?;
    put_long(out, definition.1)
}

fn put_definitions(out: &mut Vec<u8>, code: &Code, defined: &[(u16, Def)]) -> Result<(), NoMemory>
    ensures { OnOk result (out.new.items ≡ out.old.items ++ records_bytes (definition_records code.now defined.now)) }
{
    for definition in defined {
        put_definition(out, definition_of(code, *definition))?;
    }
    Ok(())
}

fn put_body_facts(out: &mut Vec<u8>, body: &Body) -> Result<(), NoMemory>
    ensures { OnOk result (out.new.items ≡ out.old.items ++ framed 9 (body_facts_bytes body.now)) }
{
    put_head(out, 9, 10)?;
    put_long(out, body.entry)?;
    put_word(out, body.need)?;
    put_long(out, body.tokens)
}

fn put_statement(out: &mut Vec<u8>, place: (u32, u16)) -> Result<(), NoMemory>
    ensures { OnOk result (out.new.items ≡ out.old.items ++ framed 10 (statement_bytes place)) }
{
    put_head(out, 10, 6)?;
    put_long(out, place.0)?;
    put_word(out, place.1)
}

fn put_statements(out: &mut Vec<u8>, places: &[(u32, u16)]) -> Result<(), NoMemory>
    ensures { OnOk result (out.new.items ≡ out.old.items ++ records_bytes (map Statement places.now)) }
{
    for place in places {
        put_statement(out, *place)?;
    }
    Ok(())
}

// What stands before the code.
fn put_front(alloc: Global, out: &mut Vec<u8>, unit: &Unit, layout: &Layout) -> Result<(), NoMemory>
    ensures { OnOk result (out.new.items ≡ out.old.items ++ records_bytes (front_records unit.now layout.now)) }
{
    put_segment(out, &unit.name)?;
    put_descriptors(alloc, out, unit.descs.as_slice())?;
    put_families(out, layout.families.as_slice())?;
    put_items(out, unit, layout)?;
    put_presets(out, layout.words.as_slice())?;
    Ok(())
}

// The code and what stands behind it.
fn put_back(
    out: &mut Vec<u8>,
    unit: &Unit,
    code: &Code,
    need: u16,
    places: &[(u32, u16)],
) -> Result<(), NoMemory>
    ensures { OnOk result (out.new.items ≡ out.old.items ++ records_bytes (back_records unit.now code.now need places.now)) }
{
    put_record(out, 6, code.bytes.as_slice())?;
    put_relocations(out, code.relocs.as_slice())?;
    put_definitions(out, code, unit.defined.as_slice())?;
    put_body_facts(
        out,
        &Body {
            entry: code.entry,
            need,
            tokens: unit.tokens,
        },
    )?;
    put_statements(out, places)?;
    put_head(out, 255, 0)?;
    Ok(())
}

/// The object of a unit with its storage and its code, the words of its control stack record, and the places in the code
/// where its statements begin, each with its line.
pub fn write_object(
    alloc: Global,
    unit: &Unit,
    layout: &Layout,
    code: &Code,
    need: u16,
    places: &[(u32, u16)],
) -> Result<Vec<u8>, NoMemory>
    ensures { IfOk result (λ bytes. bytes.items ≡ object_bytes (object_records unit.now layout.now code.now need places.now)) }
{
    let mut out = Vec::new(alloc);
    put_header(&mut out)?;
    put_front(alloc, &mut out, unit, layout)?;
    put_back(&mut out, unit, code, need, places)?;
    Ok(out)
}
