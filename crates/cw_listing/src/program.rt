//! The listing of a linked program.
ghost use Rattle.std.specs.Prelude.{◌≡◌, ◌≤◌, ◌++◌, length, slice_get, slice_index_or, [], IfOk, OnOk};
ghost use Rattle.cw_unit.specs.Storage.{layout_of};
ghost use Rattle.cw_tmpl.specs.Library.{library_bytes};
ghost use Rattle.cw_list.specs.Order.{in_order};
ghost use Rattle.cw_list.specs.Rows.{layouts_of};
ghost use Rattle.cw_listing.specs.Remarks.{source_of, unit_remarks, unit_words, remarks_from};
ghost use Rattle.cw_listing.specs.Listing.{IsListing};
ghost use Rattle.cw_listing.specs.CodeListing.{notes_of, words_of, data_of, IsCodeListing};

use crate::library::library_remarks;
use crate::listing::listing_text;
use crate::remark::Remark;
use crate::segment::add_segment;
use crate::words::{add_data, add_words};
use cw_tmpl::{Code, base_code};
use cw_unit::layout::Layout;
use cw_unit::unit::Unit;
use cw_word::{List, NoMemory};
use std::alloc::Global;

fn source_of(sources: &[List<u8>], segment: usize) -> &[u8]
    ensures { result.now ≡ source_of sources.now segment }
{
    match sources.get(segment) {
        Some(source) => source.as_slice(),
        None => &[],
    }
}

// Where the first segment's code begins.
fn first_start() -> u64
    ensures { result ≡ length library_bytes }
{
    base_code().len() as u64
}

fn add_unit(
    alloc: Global,
    remarks: &mut List<Remark>,
    start: u64,
    units: &[Unit],
    segment: usize,
    code: &Code,
    source: &[u8],
) -> Result<(), NoMemory>
    requires { start ≤ 65536 }
    ensures { OnOk result (remarks.new ≡ remarks.old ++ unit_remarks start (slice_get units.now segment) code.now source.now) }
{
    if segment < units.len() {
        add_segment(alloc, remarks, start, &units[segment], code, source)
    } else {
        Ok(())
    }
}

fn add_all_remarks(
    alloc: Global,
    remarks: &mut List<Remark>,
    units: &[Unit],
    codes: &[Code],
    sources: &[List<u8>],
) -> Result<(), NoMemory>
    ensures { OnOk result (remarks.new ≡ remarks.old ++ remarks_from 0 (length library_bytes) sources.now units.now codes.now) }
{
    let mut start = first_start();
    for k in 0..codes.len() {
        if start > 65536 {
            return Err(NoMemory);
        }
        add_unit(
            alloc,
            remarks,
            start,
            units,
            k,
            &codes[k],
            source_of(sources, k),
        )?;
        start += codes[k].bytes.as_slice().len() as u64;
    }
    Ok(())
}

fn sort_by_place(remarks: &mut Vec<Remark>) -> Result<(), NoMemory>
    ensures { OnOk result (remarks.new.items ≡ in_order (λ r. r.place) remarks.old.items) }
{
    match remarks.sort_by_key(|remark| remark.place) {
        Ok(()) => Ok(()),
        Err(_) => Err(NoMemory),
    }
}

// All remarks, in order of their places.
fn notes_of(
    alloc: Global,
    units: &[Unit],
    codes: &[Code],
    sources: &[List<u8>],
) -> Result<Vec<Remark>, NoMemory>
    ensures { IfOk result (λ notes. notes.items ≡ notes_of units.now codes.now sources.now) }
{
    let mut remarks = library_remarks(alloc)?;
    add_all_remarks(alloc, &mut remarks, units, codes, sources)?;
    let mut notes = remarks.into_vec();
    sort_by_place(&mut notes)?;
    Ok(notes)
}

fn add_unit_words(
    alloc: Global,
    words: &mut List<Remark>,
    start: u64,
    units: &[Unit],
    layouts: &[Layout],
    segment: usize,
    code: &Code,
) -> Result<(), NoMemory>
    requires start { start ≤ 65536 }
    requires layouts { layouts.now ≡ layouts_of units.now }
    ensures { OnOk result (words.new ≡ words.old ++ unit_words start (slice_get units.now segment) code.now) }
{
    if segment < units.len() {
        add_words(
            alloc,
            words,
            start,
            &units[segment],
            &layouts[segment],
            code,
        )
    } else {
        Ok(())
    }
}

// The relocated words.
fn words_of(
    alloc: Global,
    units: &[Unit],
    layouts: &[Layout],
    codes: &[Code],
) -> Result<List<Remark>, NoMemory>
    requires { layouts.now ≡ layouts_of units.now }
    ensures { IfOk result (λ words. words ≡ words_of units.now codes.now) }
{
    let mut words = List::new(alloc);
    let mut start = first_start();
    for k in 0..codes.len() {
        if start > 65536 {
            return Err(NoMemory);
        }
        add_unit_words(alloc, &mut words, start, units, layouts, k, &codes[k])?;
        start += codes[k].bytes.as_slice().len() as u64;
    }
    Ok(words)
}

// The places of words of data behind calls of the library.
fn data_of(alloc: Global, codes: &[Code]) -> Result<List<u64>, NoMemory>
    ensures { IfOk result (λ places. places ≡ data_of codes.now) }
{
    let mut places = List::new(alloc);
    let mut start = first_start();
    for k in 0..codes.len() {
        if start > 65536 {
            return Err(NoMemory);
        }
        add_data(&mut places, start, &codes[k])?;
        start += codes[k].bytes.as_slice().len() as u64;
    }
    Ok(places)
}

// The listing, by the notes.
fn listing_with(
    alloc: Global,
    code: &[u8],
    notes: &[Remark],
    units: &[Unit],
    layouts: &[Layout],
    codes: &[Code],
) -> Result<Vec<u8>, NoMemory>
    requires few { length code.now ≤ 65536 }
    requires layouts { layouts.now ≡ layouts_of units.now }
    ensures { IfOk result (λ text. IsListing code.now notes.now (words_of units.now codes.now) (data_of codes.now) text.items) }
{
    let words = words_of(alloc, units, layouts, codes)?;
    let data = data_of(alloc, codes)?;
    listing_text(alloc, code, notes, words.as_slice(), data.as_slice())
}

/// The listing of linked code, from the units, the layout and the relocatable code of each, and their source texts. NoMemory
/// comes for want of memory, and where a segment's code would begin past 65,536.
pub fn code_listing(
    alloc: Global,
    code: &[u8],
    units: &[Unit],
    layouts: &[Layout],
    codes: &[Code],
    sources: &[List<u8>],
) -> Result<Vec<u8>, NoMemory>
    requires few { length code.now ≤ 65536 }
    requires layouts { layouts.now ≡ layouts_of units.now }
    ensures { IfOk result (λ text. IsCodeListing code.now units.now codes.now sources.now text.items) }
{
    let notes = notes_of(alloc, units, codes, sources)?;
    listing_with(alloc, code, notes.as_slice(), units, layouts, codes)
}
