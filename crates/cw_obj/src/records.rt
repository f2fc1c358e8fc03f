//! Records at the end of bytes.
ghost use Rattle.std.specs.Prelude.{◌≡◌, ◌++◌, ◌∷◌, map, OnOk};
ghost use Rattle.cw_fields.specs.Fields.{long_bytes};
ghost use Rattle.cw_view.specs.Payloads.{family_bytes, preset_bytes, relocation_bytes, sort_number, sort_operand};
ghost use Rattle.cw_view.specs.ObjectFormat.{framed, StorageFamily};
ghost use Rattle.cw_obj.specs.ReferenceObject.{records_bytes};

use cw_fields::{put_byte, put_bytes, put_long, put_word};
use cw_unit::layout::{Family, Preset, Reloc, Sort};
use cw_word::NoMemory;

/// What stands before a payload.
pub(crate) fn put_head(out: &mut Vec<u8>, kind: u8, size: u32) -> Result<(), NoMemory>
    ensures { OnOk result (out.new.items ≡ out.old.items ++ kind ∷ long_bytes size) }
{
    put_byte(out, kind)?;
    put_long(out, size)
}

/// A record with this payload.
pub(crate) fn put_record(out: &mut Vec<u8>, kind: u8, payload: &[u8]) -> Result<(), NoMemory>
    ensures { OnOk result (out.new.items ≡ out.old.items ++ framed kind payload.now) }
{
    match u32::try_from(payload.len()) {
        Ok(size) => {
            put_byte(out, kind)?;
            put_long(out, size)?;
            put_bytes(out, payload)
        }
        Err(_) => Err(NoMemory),
    }
}

fn sort_number(sort: Sort) -> u8
    ensures { result ≡ sort_number sort }
{
    match sort {
        Sort::Common(_) => 0,
        Sort::Own => 1,
        Sort::Absolute(_) => 2,
        Sort::Frame(_) => 3,
    }
}

fn sort_operand(sort: Sort) -> u16
    ensures { result ≡ sort_operand sort }
{
    match sort {
        Sort::Common(descriptor) => descriptor,
        Sort::Own => 0,
        Sort::Absolute(address) => address,
        Sort::Frame(offset) => offset,
    }
}

/// The record of a family.
pub(crate) fn put_family(out: &mut Vec<u8>, family: &Family) -> Result<(), NoMemory>
    ensures { OnOk result (out.new.items ≡ out.old.items ++ framed 3 (family_bytes family.now)) }
{
    put_head(out, 3, 7)?;
    put_byte(out, sort_number(family.sort))?;
    put_word(out, sort_operand(family.sort))?;
    put_long(out, family.extent)
}

/// The records of families, in order.
pub(crate) fn put_families(out: &mut Vec<u8>, families: &[Family]) -> Result<(), NoMemory>
    ensures { OnOk result (out.new.items ≡ out.old.items ++ records_bytes (map StorageFamily families.now)) }
{
    for family in families {
        put_family(out, family)?;
    }
    Ok(())
}

/// The record of a preset.
pub(crate) fn put_preset(out: &mut Vec<u8>, preset: &Preset) -> Result<(), NoMemory>
    ensures { OnOk result (out.new.items ≡ out.old.items ++ framed 5 (preset_bytes preset.now)) }
{
    put_head(out, 5, 6)?;
    put_word(out, preset.family)?;
    put_word(out, preset.offset)?;
    put_word(out, preset.word)
}

/// The record of a relocation.
pub(crate) fn put_relocation(out: &mut Vec<u8>, relocation: &Reloc) -> Result<(), NoMemory>
    ensures { OnOk result (out.new.items ≡ out.old.items ++ framed 7 (relocation_bytes relocation.now)) }
{
    put_head(out, 7, 9)?;
    put_long(out, relocation.place)?;
    put_byte(out, relocation.sort)?;
    put_word(out, relocation.index)?;
    put_word(out, relocation.add)
}
