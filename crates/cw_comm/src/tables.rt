//! Where names are listed and defined, by their numbers.
ghost use Rattle.std.specs.Prelude.{◌≡◌, ◌<◌, ℕ, length, slice_get, slice_index_or, Some, None, IfOk};
ghost use Rattle.cw_unit.specs.Allocation.{name_at};
ghost use Rattle.cw_comm.specs.declared.face.Face.{Face as SegmentFace};
ghost use Rattle.cw_comm.specs.Agreement.{defines};
ghost use Rattle.cw_comm.specs.Tables.{place_from, listed_in, defined_in, IsNumbering, HaveNone, HaveEach, Enter, TellFrom};

use crate::entry::{own_number, row};
use crate::face::Face;
use cw_word::{List, Name, NoMemory};
use std::alloc::Global;

/// Segments, the names that they list, and for each descriptor the number of its name.
#[derive(Clone, Copy)]
pub(crate) struct Numbering<'a> {
    pub segments: &'a [Face],
    pub names: &'a [Name],
    pub numbers: &'a [List<usize>],
}

/// For each name a segment that lists it, with its first descriptor of the name, and a segment that defines it.
#[derive(Drop)]
pub(crate) struct Tables {
    pub listings: Vec<Option<(u8, usize)>>,
    pub definers: Vec<Option<u8>>,
}

// Enters the names that a segment lists: the segment, and its first descriptor of each.
fn enter_listings(table: &mut Vec<Option<(u8, usize)>>, listed: &Numbering, segment: usize)
    requires listed { IsNumbering listed.now }
    requires segment { segment < length listed.now.segments.now }
    requires count { length table.old.items ≡ length listed.now.names.now }
    ensures count { length table.new.items ≡ length table.old.items }
    ensures told { (k : ℕ) (f : SegmentFace) → k < length listed.now.names.now → slice_get listed.now.segments.now segment ≡ Some f
        → slice_index_or table.new.items k None ≡ listed_in segment (place_from 0 (name_at listed.now.names.now k) f.descs) (slice_index_or table.old.items k None) }
{
    let numbers = row(listed.numbers, segment);
    for d in (0..numbers.len()).rev() {
        table[numbers[d]] = Some((segment as u8, d));
    }
}

// Enters the names that a segment defines.
fn enter_definitions(table: &mut Vec<Option<u8>>, listed: &Numbering, segment: usize)
    requires listed { IsNumbering listed.now }
    requires segment { segment < length listed.now.segments.now }
    requires count { length table.old.items ≡ length listed.now.names.now }
    ensures count { length table.new.items ≡ length table.old.items }
    ensures told { (k : ℕ) (f : SegmentFace) → k < length listed.now.names.now → slice_get listed.now.segments.now segment ≡ Some f
        → slice_index_or table.new.items k None ≡ defined_in segment (defines (name_at listed.now.names.now k) f.descs f.defined) (slice_index_or table.old.items k None) }
{
    let numbers = row(listed.numbers, segment);
    let segments = listed.segments;
    let defined = segments[segment].defined.as_slice();
    for n in (0..defined.len()).rev() {
        if let Some(number) = own_number(numbers, defined[n] as usize) {
            table[number] = Some(segment as u8);
        }
    }
}

impl Tables {
    /// Tables for so many names, with no entries.
    pub(crate) fn empty(alloc: Global, names: usize) -> Result<Tables, NoMemory>
        ensures { IfOk result (HaveNone names) }
    {
        Ok(Tables {
            listings: vec![in alloc; None; names].map_err(|_| NoMemory)?,
            definers: vec![in alloc; None; names].map_err(|_| NoMemory)?,
        })
    }

    /// Enters what a segment lists and what it defines.
    pub(crate) fn enter(&mut self, listed: &Numbering, segment: usize)
        requires listed { IsNumbering listed.now }
        requires segment { segment < length listed.now.segments.now }
        requires each { HaveEach (length listed.now.names.now) self.old }
        ensures { Enter listed.now segment self.old self.new }
    {
        enter_listings(&mut self.listings, listed, segment);
        enter_definitions(&mut self.definers, listed, segment);
    }
}

/// For each name its first listing, and the first segment that defines it.
pub(crate) fn first_tables(alloc: Global, listed: &Numbering) -> Result<Tables, NoMemory>
    requires { IsNumbering listed.now }
    ensures { IfOk result (TellFrom listed.now 0) }
{
    let mut tables = Tables::empty(alloc, listed.names.len())?;
    for segment in (0..listed.segments.len()).rev() {
        tables.enter(listed, segment);
    }
    Ok(tables)
}
