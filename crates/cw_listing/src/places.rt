//! Which places of code are among some.
ghost use Rattle.std.specs.Prelude.{◌≡◌, ◌<◌, ◌++◌, ℕ, Bool, true, map, flat_map, slice_index_or, false, length, IfOk, OnOk, ◌||◌, ◌==◌};
ghost use Rattle.cw_listing.specs.Lines.{is_among};
ghost use Rattle.cw_listing.specs.Listing.{shown_place, referred_by, referred_places, begun_places};
ghost use Rattle.cw_listing.specs.Tables.{IsTable};

use crate::line::{Line, Shown};
use crate::remark::Remark;
use cw_nasm::named_place;
use cw_word::{List, NoMemory};
use std::alloc::Global;

/// Places, with a table of those below 65,536.
#[derive(Drop)]
pub(crate) struct Places {
    among: List<u64>,
    table: Vec<bool>,
    ghost length_is: { length table.items ≡ 65536 },
    ghost tells: { (place : ℕ) → place < 65536 → slice_index_or table.items place false ≡ is_among among place },
}

// No places.
fn no_places(alloc: Global, size: usize) -> Result<Vec<bool>, NoMemory>
    ensures { IfOk result (λ table. IsTable size (λ p. false) table.items) }
{
    vec![in alloc; false; size].map_err(|_| NoMemory)
}

// Puts a place into the table, where it has room there.
fn mark(table: &mut Vec<bool>, place: u64)
    ensures { (size : ℕ) (has : ℕ → Bool) → IsTable size has table.old.items → IsTable size (λ p. has p || place == p) table.new.items }
{
    if place < table.len() as u64 {
        table[place as usize] = true;
    }
}

// The table of the places that are among some.
fn table_of(alloc: Global, size: usize, places: &[u64]) -> Result<Vec<bool>, NoMemory>
    ensures { IfOk result (λ table. IsTable size (is_among places.now) table.items) }
{
    let mut table = no_places(alloc, size)?;
    for k in 0..places.len() {
        mark(&mut table, places[k]);
    }
    Ok(table)
}

impl Places {
    /// Some places.
    pub(crate) fn new(alloc: Global, among: List<u64>) -> Result<Places, NoMemory>
        ensures { IfOk result (λ places. places.among ≡ among) }
    {
        let table = table_of(alloc, 65536, among.as_slice())?;
        Ok(Places { among, table })
    }

    /// Whether a place is among them.
    pub(crate) fn has(&self, place: u16) -> bool
        ensures { result ≡ is_among self.now.among place }
    {
        match self.table.as_slice().get(place as usize) {
            Some(found) => *found,
            None => false,
        }
    }
}

/// The places of remarks.
pub(crate) fn remark_places(alloc: Global, remarks: &[Remark]) -> Result<List<u64>, NoMemory>
    ensures { IfOk result (λ places. places ≡ map (λ r. r.place) remarks.now) }
{
    let mut places = List::new(alloc);
    for k in 0..remarks.len() {
        places.push(remarks[k].place)?;
    }
    Ok(places)
}

/// The places at which lines begin.
pub(crate) fn begun_places(alloc: Global, lines: &[Line]) -> Result<List<u64>, NoMemory>
    ensures { IfOk result (λ places. places ≡ begun_places lines.now) }
{
    let mut places = List::new(alloc);
    for k in 0..lines.len() {
        places.push(u64::from(lines[k].place))?;
    }
    Ok(places)
}

fn shown_place(shown: &Shown, place: u16) -> Option<u16>
    ensures { result ≡ shown_place shown.now place }
{
    match shown {
        Shown::Instruction(instr) => named_place(instr, place),
        Shown::Word => None,
        Shown::Byte => None,
    }
}

fn add_referred(places: &mut List<u64>, line: &Line) -> Result<(), NoMemory>
    ensures { OnOk result (places.new ≡ places.old ++ referred_by line.now) }
{
    match shown_place(&line.shown, line.place) {
        Some(place) => places.push(u64::from(place)),
        None => Ok(()),
    }
}

/// The places that instructions among lines refer to.
pub(crate) fn referred_places(alloc: Global, lines: &[Line]) -> Result<List<u64>, NoMemory>
    ensures { IfOk result (λ places. places ≡ referred_places lines.now) }
{
    let mut places = List::new(alloc);
    for k in 0..lines.len() {
        add_referred(&mut places, &lines[k])?;
    }
    Ok(places)
}
