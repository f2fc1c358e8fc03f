//! A whole text is judged.
ghost use Rattle.std.specs.Prelude.{◌≡◌, ◌++◌, ◌∷◌, [], None, IfOk, OnOk};
ghost use Rattle.cw_amount.specs.Amounts.{place_amount};
ghost use Rattle.cw_scale.specs.Faults.{both};
ghost use Rattle.cw_judge.specs.Judged.{address_or_none, aitem_address, aitems_addresses, communicator_addresses, absolute_addresses, citem_judged};
ghost use Rattle.cw_judge.specs.Judged.{citems_judged, communicator_judged, communicators_judged, block_judged, text_judged, first_type_fault};

use crate::declared::{judge_common_overlaid, judge_declared};
use crate::statements::judge_block;
use cw_amount::amount::place_amount;
use cw_data::specifications::{judge_aitems, judge_spec, judge_specs};
use cw_items::families::{Site, judge_things};
use cw_items::text::StoredText;
use cw_items::thing::Thing;
use cw_scale::fault::Fault;
use cw_scope::resolve::Named;
use cw_table::table::Table;
use cw_tree::leaf::RawInt;
use cw_tree::segment::{RawAitem, RawCitem, RawComm};
use cw_word::NoMemory;
use std::alloc::Global;

// ---- addresses

fn address_or_none(address: &RawInt) -> u32
    ensures { result ≡ address_or_none (place_amount address.now) }
{
    match place_amount(address) {
        None => 0,
        Some(a) => if a <= 32767 { a as u32 } else { 0 },
    }
}

fn with_address(before: Table<u32>, item: &RawAitem) -> Result<Table<u32>, NoMemory>
    ensures { IfOk result (λ t. t ≡ before ++ aitem_address item.now ∷ []) }
{
    match item {
        RawAitem::Single(_, name, address) => {
            before.with(name.at.token, address_or_none(address))
        }
        RawAitem::Array(_, name, _, address) => {
            before.with(name.at.token, address_or_none(address))
        }
        RawAitem::Table(table, address) => {
            before.with(table.name.at.token, address_or_none(address))
        }
    }
}

fn with_addresses(before: Table<u32>, items: &[RawAitem]) -> Result<Table<u32>, NoMemory>
    ensures { IfOk result (λ t. t ≡ before ++ aitems_addresses items.now) }
{
    let mut all = before;
    for item in items {
        all = with_address(all, item)?;
    }
    Ok(all)
}

fn with_list(before: Table<u32>, list: &RawComm) -> Result<Table<u32>, NoMemory>
    ensures { IfOk result (λ t. t ≡ before ++ communicator_addresses list.now) }
{
    match list {
        RawComm::Absolute(_, items) => with_addresses(before, items.as_slice()),
        _ => Ok(before),
    }
}

/// Where each name of the ABSOLUTE lists stands, by the token of the name.
pub fn absolute_addresses(alloc: Global, lists: &[RawComm]) -> Result<Table<u32>, NoMemory>
    ensures { IfOk result (λ t. t ≡ absolute_addresses lists.now) }
{
    let mut all = Table::new(alloc);
    for list in lists {
        all = with_list(all, list)?;
    }
    Ok(all)
}

// ---- communicators

// What a communicator is judged by: the names, where things stand, and what stands at an address of its own.
#[derive(Clone, Copy)]
struct Grounds<'a> {
    named: &'a Named<'a>,
    sites: &'a Table<Site>,
    absolute: &'a Table<u32>,
}

fn judge_citem(by: Grounds, item: &RawCitem, first: &mut Option<Fault>)
    ensures { first.new ≡ citem_judged by.entry.named.now by.entry.sites.now by.entry.absolute.now item.now first.old }
{
    match item {
        RawCitem::Data(items) => judge_declared(by.sites, items, first),
        RawCitem::Overlay(_, base, items) => {
            judge_common_overlaid(by.named, by.sites, by.absolute, base, items, first);
        }
        RawCitem::Label(..) | RawCitem::Switch(..) => {}
        RawCitem::Spec(spec) => judge_spec(spec, first),
    }
}

fn judge_citems(by: Grounds, items: &[RawCitem], first: &mut Option<Fault>)
    ensures { first.new ≡ citems_judged by.entry.named.now by.entry.sites.now by.entry.absolute.now items.now first.old }
{
    for item in items {
        judge_citem(by, item, first);
    }
}

fn judge_communicator(by: Grounds, list: &RawComm, first: &mut Option<Fault>)
    ensures { first.new ≡ communicator_judged by.entry.named.now by.entry.sites.now by.entry.absolute.now list.now first.old }
{
    match list {
        RawComm::Common(_, items) => judge_citems(by, items.as_slice(), first),
        RawComm::Library(_, specs) => judge_specs(specs.as_slice(), first),
        RawComm::Absolute(_, items) => judge_aitems(items.as_slice(), first),
    }
}

fn judge_communicators(by: Grounds, lists: &[RawComm], first: &mut Option<Fault>)
    ensures { first.new ≡ communicators_judged by.entry.named.now by.entry.sites.now by.entry.absolute.now lists.now first.old }
{
    for list in lists {
        judge_communicator(by, list, first);
    }
}

// Judges the communicators and the block of a text, by where its things stand.
fn judge_placed(
    alloc: Global,
    named: &Named,
    sites: &Table<Site>,
    first: &mut Option<Fault>,
) -> Result<(), NoMemory>
    ensures { OnOk result (first.new
        ≡ both (communicators_judged named.now sites.now (absolute_addresses named.now.raw.now.comms) named.now.raw.now.comms)
        (block_judged named.now sites.now named.now.raw.now.block) first.old) }
{
    let absolute = absolute_addresses(alloc, named.raw.comms.as_slice())?;
    let by = Grounds {
        named: &*named,
        sites: &*sites,
        absolute: &absolute,
    };
    judge_communicators(by, named.raw.comms.as_slice(), first);
    judge_block(&named.raw.block, named, sites, first);
    Ok(())
}

// The first fault of a text that stores these things.
fn judge_stored(alloc: Global, named: &Named, things: &[Thing]) -> Result<Option<Fault>, NoMemory>
    ensures { IfOk result (λ fault. fault ≡ text_judged named.now things.now None) }
{
    let mut first = None;
    let known = judge_things(alloc, things, &mut first)?;
    judge_placed(alloc, named, known.sites(), &mut first)?;
    Ok(first)
}

/// The first fault of the types of a text.
pub fn judge_text(alloc: Global, text: &StoredText) -> Result<Option<Fault>, NoMemory>
    ensures { IfOk result (λ fault. fault ≡ first_type_fault text.now) }
{
    judge_stored(alloc, text.named(), text.things())
}
