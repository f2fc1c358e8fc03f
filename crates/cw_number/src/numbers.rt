//! The numbers of the names of a text in its unit.
ghost use Rattle.std.specs.Prelude.{◌≡◌, ◌++◌, ◌∷◌, [], IfOk};
ghost use Rattle.cw_items.specs.Things.{text_things};
ghost use Rattle.cw_number.specs.Listed.{listed_of};
ghost use Rattle.cw_number.specs.Numbers.{item_rows, listed_number, listed_rows, own_number, counted, built_in_number, declared_number};
ghost use Rattle.cw_number.specs.Numbers.{counted_after, declared_rows, none_counted, row_if, with_control, begin_of, numbers_of};

use crate::listed::{Listing, listed_of};
use crate::numbered::Numbered;
use cw_facts::fact::{Declaration, Kind};
use cw_items::text::StoredText;
use cw_items::thing::Thing;
use cw_scope::resolve::Named;
use cw_table::table::{Row, Table};
use cw_tree::segment::Raw;
use cw_word::NoMemory;
use std::alloc::Global;

/// How many labels, switches and procedures there are so far, and control parameters of the last procedure.
#[derive(Clone, Copy)]
pub struct Counts {
    pub labels: u32,
    pub switches: u32,
    pub procs: u16,
    pub controls: u8,
}

fn with_items(things: &[Thing], before: Table<Numbered>) -> Result<Table<Numbered>, NoMemory>
    ensures { IfOk result (λ t. t ≡ before ++ item_rows 0 things.now) }
{
    let mut all = before;
    let mut number = 0u32;
    for thing in things {
        all = all.with(thing.at.token, Numbered::Item(number))?;
        number = number.saturating_add(1);
    }
    Ok(all)
}

fn listed_number(number: u16, listing: &Listing) -> Option<Numbered>
    ensures { result ≡ listed_number number listing.now }
{
    match listing {
        Listing::Data => None,
        Listing::Label => Some(Numbered::CommonLabel(number)),
        Listing::Switch => Some(Numbered::CommonSwitch(number)),
        Listing::Proc => Some(Numbered::CommonProc(number)),
    }
}

fn with_number(
    token: u32,
    number: Option<Numbered>,
    before: Table<Numbered>,
) -> Result<Table<Numbered>, NoMemory>
    ensures { IfOk result (λ t. t ≡ before ++ row_if token number) }
{
    match number {
        None => Ok(before),
        Some(number) => before.with(token, number),
    }
}

fn with_listed(
    listed: &[Row<Listing>],
    before: Table<Numbered>,
) -> Result<Table<Numbered>, NoMemory>
    ensures { IfOk result (λ t. t ≡ before ++ listed_rows 0 listed.now) }
{
    let mut all = before;
    let mut number = 0u16;
    for row in listed {
        all = with_number(row.token, listed_number(number, &row.item), all)?;
        number = number.saturating_add(1);
    }
    Ok(all)
}

fn built_in_number(kind: &Kind) -> Option<Numbered>
    ensures { result ≡ built_in_number kind.now }
{
    match kind {
        Kind::ReadByte => Some(Numbered::ReadByte),
        Kind::WriteByte => Some(Numbered::WriteByte),
        _ => None,
    }
}

fn own_number(counts: &Counts, kind: &Kind) -> Option<Numbered>
    ensures { result ≡ own_number counts.now kind.now }
{
    match kind {
        Kind::Label => Some(Numbered::Label(counts.labels)),
        Kind::Switch => Some(Numbered::Switch(counts.switches)),
        Kind::Proc(_) => Some(Numbered::Proc(counts.procs)),
        Kind::LabelParam => Some(Numbered::Control(counts.controls)),
        Kind::SwitchParam => Some(Numbered::Control(counts.controls)),
        Kind::ProcParam(_) => Some(Numbered::Control(counts.controls)),
        _ => None,
    }
}

fn with_control(counts: &Counts) -> Counts
    ensures { result ≡ with_control counts.now }
{
    Counts {
        labels: counts.labels,
        switches: counts.switches,
        procs: counts.procs,
        controls: counts.controls.saturating_add(1),
    }
}

fn counted(counts: &Counts, kind: &Kind) -> Counts
    ensures { result ≡ counted counts.now kind.now }
{
    match kind {
        Kind::Label => Counts {
            labels: counts.labels.saturating_add(1),
            switches: counts.switches,
            procs: counts.procs,
            controls: counts.controls,
        },
        Kind::Switch => Counts {
            labels: counts.labels,
            switches: counts.switches.saturating_add(1),
            procs: counts.procs,
            controls: counts.controls,
        },
        Kind::Proc(_) => Counts {
            labels: counts.labels,
            switches: counts.switches,
            procs: counts.procs.saturating_add(1),
            controls: 0,
        },
        Kind::LabelParam => with_control(counts),
        Kind::SwitchParam => with_control(counts),
        Kind::ProcParam(_) => with_control(counts),
        _ => *counts,
    }
}

fn declared_number(begin: u32, counts: &Counts, declaration: &Declaration) -> Option<Numbered>
    ensures { result ≡ declared_number begin counts.now declaration.now }
{
    if declaration.name.at.token < begin {
        built_in_number(&declaration.kind)
    } else {
        own_number(counts, &declaration.kind)
    }
}

fn counted_after(begin: u32, counts: &Counts, declaration: &Declaration) -> Counts
    ensures { result ≡ counted_after begin counts.now declaration.now }
{
    if declaration.name.at.token < begin {
        *counts
    } else {
        counted(counts, &declaration.kind)
    }
}

fn with_declared(
    begin: u32,
    declarations: &[Row<Declaration>],
    before: Table<Numbered>,
) -> Result<Table<Numbered>, NoMemory>
    ensures { IfOk result (λ t. t ≡ before ++ declared_rows begin none_counted declarations.now) }
{
    let mut all = before;
    let mut counts = Counts {
        labels: 0,
        switches: 0,
        procs: 0,
        controls: 0,
    };
    for row in declarations {
        all = with_number(row.token, declared_number(begin, &counts, &row.item), all)?;
        counts = counted_after(begin, &counts, &row.item);
    }
    Ok(all)
}

fn stored(alloc: Global, text: &StoredText) -> Result<Table<Numbered>, NoMemory>
    ensures { IfOk result (λ t. t ≡ item_rows 0 (text_things text.now text.now.raw.now)) }
{
    with_items(text.things(), Table::new(alloc))
}

fn with_shared(
    alloc: Global,
    raw: &Raw,
    before: Table<Numbered>,
) -> Result<Table<Numbered>, NoMemory>
    ensures { IfOk result (λ t. t ≡ before ++ listed_rows 0 (listed_of raw.now)) }
{
    let listed = listed_of(alloc, raw)?;
    with_listed(listed.rows(), before)
}

// Where the outermost block begins.
fn begin_of(raw: &Raw) -> u32
    ensures { result ≡ begin_of raw.now }
{
    raw.block.at.token
}

// The numbers behind those of what is stored.
fn with_names(
    alloc: Global,
    named: &Named,
    before: Table<Numbered>,
) -> Result<Table<Numbered>, NoMemory>
    ensures { IfOk result (λ t. t
        ≡ before ++ (listed_rows 0 (listed_of named.now.raw.now)
        ++ declared_rows (begin_of named.now.raw.now) none_counted named.now.declarations)) }
{
    let shared = with_shared(alloc, named.raw, before)?;
    with_declared(begin_of(named.raw), named.declarations.rows(), shared)
}

/// What the unit of a text has for each of its declarations, strings and FORs, found by tokens.
pub fn numbers_of(alloc: Global, text: &StoredText) -> Result<Table<Numbered>, NoMemory>
    ensures { IfOk result (λ t. t ≡ numbers_of text.now) }
{
    let items = stored(alloc, text)?;
    with_names(alloc, text.named(), items)
}
