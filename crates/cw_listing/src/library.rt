//! The run-time library in a listing: the names of its entries, and the words of data behind calls of them.
ghost use Rattle.std.specs.Prelude.{◌≡◌, ◌++◌, ◌≤◌, ◌-◌, ◌^◌, All, map, IfOk, OnOk};
ghost use Rattle.cw_nasm.specs.Names.{name_in};
ghost use Rattle.cw_tmpl.specs.Library.{library_entry};
ghost use Rattle.cw_listing.specs.Remarks.{first_names, last_names, late_name, entry_name, words_behind, named_entries};
ghost use Rattle.cw_listing.specs.Remarks.{library_text, place_or_none, entry_remark, library_remarks};

use crate::remark::Remark;
use cw_nasm::add;
use cw_tmpl::base_entry;
use cw_word::{List, NoMemory};
use std::alloc::Global;

const FIRST_NAMES: [&[u8]; 8] = [
    b"start",
    b"overflow",
    b"zero divisor",
    b"address",
    b"bounds",
    b"switch",
    b"earlier",
    b"read",
];

const LAST_NAMES: [&[u8]; 8] = [
    b"product",
    b"quotient down",
    b"quotient up",
    b"set variable",
    b"add step",
    b"put variable",
    b"exhausted",
    b"enter",
];

const NAMED_ENTRIES: [u16; 19] = [
    0, 17, 18, 19, 20, 21, 22, 23, 25, 26, 27, 28, 29, 30, 31, 32, 33, 34, 35,
];

fn first_name(entry: u16) -> &'static [u8]
    requires { 18 ≤ entry }
    ensures { result.now ≡ name_in first_names (entry - 18) }
{
    match FIRST_NAMES.get((entry - 18) as usize) {
        Some(name) => *name,
        None => &[],
    }
}

fn last_name(entry: u16) -> &'static [u8]
    requires { 26 ≤ entry }
    ensures { result.now ≡ name_in last_names (entry - 26) }
{
    match LAST_NAMES.get((entry - 26) as usize) {
        Some(name) => *name,
        None => &[],
    }
}

fn late_name(entry: u16) -> &'static [u8]
    requires { 26 ≤ entry }
    ensures { result.now ≡ late_name entry }
{
    if entry < 34 {
        last_name(entry)
    } else if entry == 34 {
        b"next step"
    } else {
        b"enter stop"
    }
}

fn entry_name(entry: u16) -> &'static [u8]
    ensures { result.now ≡ entry_name entry }
{
    if entry == 0 {
        b"end"
    } else if entry < 18 {
        b"earlier"
    } else if entry < 26 {
        first_name(entry)
    } else {
        late_name(entry)
    }
}

/// Where words of data stand behind a call of an entry, counted from its end.
pub(crate) fn words_behind(entry: u16) -> &'static [u64]
    ensures words { result.now ≡ words_behind entry }
    ensures near { All (λ o. o ≤ 2 ^ 40) result.now }
{
    match entry {
        18 => &[0, 2, 4, 6],
        19..=22 => &[0],
        33 => &[0, 2],
        34 => &[5],
        _ => &[],
    }
}

/// Adds the name of an entry.
pub(crate) fn add_library_text(text: &mut Vec<u8>, entry: u16) -> Result<(), NoMemory>
    ensures { OnOk result (text.new.items ≡ text.old.items ++ library_text entry) }
{
    add(text, b"LIBRARY ")?;
    add(text, entry_name(entry))
}

fn entry_place(entry: u16) -> u16
    ensures { result ≡ place_or_none (library_entry entry) }
{
    match base_entry(entry) {
        Some(place) => place,
        None => 0,
    }
}

fn entry_remark(alloc: Global, entry: u16) -> Result<Remark, NoMemory>
    ensures { IfOk result (λ remark. remark ≡ entry_remark entry) }
{
    let mut text = Vec::new(alloc);
    add_library_text(&mut text, entry)?;
    Ok(Remark {
        place: u64::from(entry_place(entry)),
        text: List::of(text),
    })
}

fn named_entries() -> &'static [u16]
    ensures { result.now ≡ named_entries }
{
    &NAMED_ENTRIES
}

/// The remarks on the library.
pub(crate) fn library_remarks(alloc: Global) -> Result<List<Remark>, NoMemory>
    ensures { IfOk result (λ remarks. remarks ≡ library_remarks) }
{
    let mut remarks = List::new(alloc);
    let entries = named_entries();
    for k in 0..entries.len() {
        remarks.push(entry_remark(alloc, entries[k])?)?;
    }
    Ok(remarks)
}
