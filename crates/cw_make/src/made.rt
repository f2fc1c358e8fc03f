//! The unit of a named text.
ghost use Rattle.std.specs.Prelude.{◌≡◌, IfOk};
ghost use Rattle.cw_number.specs.things.Things.{text_things};
ghost use Rattle.cw_number.specs.Listed.{listed_of};
ghost use Rattle.cw_make_items.specs.Descriptors.{descs_of};
ghost use Rattle.cw_make_items.specs.Items.{addresses_of, items_of};
ghost use Rattle.cw_preset.specs.Held.{held_of};
ghost use Rattle.cw_make.specs.Made.{is_bounds, lists_bounds, unit_with, unit_of};

use crate::definitions::defined_of;
use crate::labels::labels_of;
use crate::procedures::procs_of;
use crate::switches::switches_of;
use cw_facts::fact::{Declaration, Kind};
use cw_make_items::descriptors::descs_of;
use cw_make_items::items::{addresses_of, items_of};
use cw_make_stmt::statements::{Source, make_block};
use cw_number::listed::{Listing, listed_of};
use cw_number::numbers::numbers_of;
use cw_number::{StoredText, Thing};
use cw_preset::held::held_of;
use cw_table::table::{Row, Table};
use cw_unit::descriptor::Desc;
use cw_unit::unit::{Def, Item, Label, Proc, Stmt, Switch, Unit};
use cw_word::{List, NoMemory};
use std::alloc::Global;

fn is_bounds(kind: &Kind) -> bool
    ensures { result ≡ is_bounds kind.now }
{
    match kind {
        Kind::Bounds => true,
        _ => false,
    }
}

fn lists_bounds(declarations: &[Row<Declaration>]) -> bool
    ensures { result ≡ lists_bounds declarations.now }
{
    for row in declarations {
        if is_bounds(&row.item.kind) {
            return true;
        }
    }
    false
}

// The lists that go by what is stored.
#[derive(Drop)]
struct Storage {
    descs: List<Desc>,
    items: List<Item>,
}

// The items, from the tables that they are looked up in. Each of these functions owns one table and lends it to the next.
fn items_at(
    source: Source,
    listed: &Table<Listing>,
    addresses: &Table<u16>,
    things: &[Thing],
) -> Result<List<Item>, NoMemory>
    ensures { IfOk result (λ all. all
        ≡ items_of source.entry.named.now.declarations source.entry.numbers.now listed.now addresses.now (held_of source.entry.named.now.raw.now) things.now) }
{
    let held = held_of(source.alloc, source.named.raw)?;
    items_of(
        source.alloc,
        &source.named.declarations,
        source.numbers,
        listed,
        addresses,
        &held,
        things,
    )
}

fn items_in(
    source: Source,
    listed: &Table<Listing>,
    things: &[Thing],
) -> Result<List<Item>, NoMemory>
    ensures { IfOk result (λ all. all
        ≡ items_of source.entry.named.now.declarations source.entry.numbers.now listed.now (addresses_of source.entry.named.now.raw.now.comms)
        (held_of source.entry.named.now.raw.now) things.now) }
{
    let addresses = addresses_of(source.alloc, source.named.raw.comms.as_slice())?;
    items_at(source, listed, &addresses, things)
}

fn storage_in(
    source: Source,
    listed: &Table<Listing>,
    things: &[Thing],
) -> Result<Storage, NoMemory>
    ensures descs { IfOk result (λ s. s.descs ≡ descs_of source.entry.numbers.now listed.now things.now source.entry.named.now.raw.now.comms) }
    ensures items { IfOk result (λ s. s.items
        ≡ items_of source.entry.named.now.declarations source.entry.numbers.now listed.now (addresses_of source.entry.named.now.raw.now.comms)
        (held_of source.entry.named.now.raw.now) things.now) }
{
    let descs = descs_of(
        source.alloc,
        source.numbers,
        listed,
        things,
        source.named.raw.comms.as_slice(),
    )?;
    let items = items_in(source, listed, things)?;
    Ok(Storage { descs, items })
}

fn storage_of(source: Source, things: &[Thing]) -> Result<Storage, NoMemory>
    requires { things.now ≡ text_things source.named.now source.named.now.raw.now }
    ensures descs { IfOk result (λ s. s.descs
        ≡ descs_of source.entry.numbers.now (listed_of source.entry.named.now.raw.now) (text_things source.entry.named.now source.entry.named.now.raw.now)
        source.entry.named.now.raw.now.comms) }
    ensures items { IfOk result (λ s. s.items
        ≡ items_of source.entry.named.now.declarations source.entry.numbers.now (listed_of source.entry.named.now.raw.now)
        (addresses_of source.entry.named.now.raw.now.comms) (held_of source.entry.named.now.raw.now)
        (text_things source.entry.named.now source.entry.named.now.raw.now)) }
{
    let listed = listed_of(source.alloc, source.named.raw)?;
    storage_in(source, &listed, things)
}

// What a text does: its procedures, and its own body.
#[derive(Drop)]
struct Code {
    procs: List<Proc>,
    body: Stmt,
}

fn code_of(source: Source) -> Result<Code, NoMemory>
    ensures procs { IfOk result (λ c. c.procs ≡ (unit_with source.entry.named.now source.entry.numbers.now source.entry.named.now.raw.now).procs) }
    ensures body { IfOk result (λ c. c.body ≡ (unit_with source.entry.named.now source.entry.numbers.now source.entry.named.now.raw.now).body) }
{
    let procs = procs_of(source)?;
    let body = make_block(source, &source.named.raw.block)?;
    Ok(Code { procs, body })
}

// What a text can be entered by.
#[derive(Drop)]
struct Entries {
    labels: List<Label>,
    switches: List<Switch>,
    defined: List<(u16, Def)>,
}

fn entries_of(source: Source) -> Result<Entries, NoMemory>
    ensures labels { IfOk result (λ e. e.labels ≡ (unit_with source.entry.named.now source.entry.numbers.now source.entry.named.now.raw.now).labels) }
    ensures switches { IfOk result (λ e. e.switches ≡ (unit_with source.entry.named.now source.entry.numbers.now source.entry.named.now.raw.now).switches) }
    ensures defined { IfOk result (λ e. e.defined ≡ (unit_with source.entry.named.now source.entry.numbers.now source.entry.named.now.raw.now).defined) }
{
    let labels = labels_of(source.alloc, source.named, source.numbers)?;
    let switches = switches_of(source)?;
    let defined = defined_of(source.alloc, source.named, source.numbers)?;
    Ok(Entries {
        labels,
        switches,
        defined,
    })
}

fn unit_with(source: Source, things: &[Thing]) -> Result<Unit, NoMemory>
    requires { things.now ≡ text_things source.named.now source.named.now.raw.now }
    ensures { IfOk result (λ u. u ≡ unit_with source.entry.named.now source.entry.numbers.now source.entry.named.now.raw.now) }
{
    let raw = source.named.raw;
    let Storage { descs, items } = storage_of(source, things)?;
    let Code { procs, body } = code_of(source)?;
    let Entries {
        labels,
        switches,
        defined,
    } = entries_of(source)?;
    Ok(Unit {
        name: raw.name,
        tokens: raw.tokens,
        bounds: lists_bounds(source.named.declarations.rows()),
        descs,
        items,
        procs,
        labels,
        switches,
        defined,
        body,
    })
}

/// The unit of a named text.
pub fn unit_of_named(alloc: Global, text: &StoredText) -> Result<Unit, NoMemory>
    ensures { IfOk result (λ u. u ≡ unit_of text.now) }
{
    let numbers = numbers_of(alloc, text)?;
    let source = Source {
        alloc,
        named: text.named(),
        numbers: &numbers,
    };
    unit_with(source, text.things())
}
