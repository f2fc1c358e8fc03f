//! Libraries as they are written.
ghost use Rattle.std.specs.Prelude.{◌≡◌, ◌++◌, ◌≤◌, length, OnOk, IfOk};
ghost use Rattle.std.specs.List.{AllByRecursion};
ghost use Rattle.cw_fields.specs.Fields.{each};
ghost use Rattle.cw_view.specs.ObjectFormat.{IsObject};
ghost use Rattle.cw_lib.specs.LibraryFormat.{start, member_bytes, library_bytes, IsNumber};

use cw_fields::{put_bytes, put_count, put_long_count};
use cw_word::{List, NoMemory};
use std::alloc::Global;

/// The mark of a library, and its version.
const HEADER: [u8; 6] = *b"C66L\x01\x00";

fn put_start(out: &mut Vec<u8>, number: usize) -> Result<(), NoMemory>
    ensures { OnOk result (out.new.items ≡ out.old.items ++ start number) }
{
    put_bytes(out, &HEADER)?;
    put_count(out, number)
}

fn put_member(out: &mut Vec<u8>, member: &List<u8>) -> Result<(), NoMemory>
    ensures { OnOk result (out.new.items ≡ out.old.items ++ member_bytes member.now) }
{
    put_long_count(out, member.as_slice().len())?;
    put_bytes(out, member.as_slice())
}

fn put_members(out: &mut Vec<u8>, members: &[List<u8>]) -> Result<(), NoMemory>
    ensures { OnOk result (out.new.items ≡ out.old.items ++ each member_bytes members.now) }
{
    for member in members {
        put_member(out, member)?;
    }
    Ok(())
}

/// The library of these members: 1 to 200 objects of at most 16,777,216 bytes each.
pub fn write_lib(alloc: Global, members: &[List<u8>]) -> Result<Vec<u8>, NoMemory>
    requires number { IsNumber (length members.now) }
    requires objects { AllByRecursion IsObject members.now }
    requires short { AllByRecursion (λ m. length m ≤ 16777216) members.now }
    ensures { IfOk result (λ bytes. bytes.items ≡ library_bytes members.now) }
{
    let mut out = Vec::new(alloc);
    put_start(&mut out, members.len())?;
    put_members(&mut out, members)?;
    Ok(out)
}
