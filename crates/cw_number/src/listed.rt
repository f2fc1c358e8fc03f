//! The names that COMMON and LIBRARY list, which are the descriptors of a segment.
ghost use Rattle.std.specs.Prelude.{◌≡◌, ◌++◌, ◌∷◌, [], IfOk};
ghost use Rattle.cw_number.specs.Listed.{row, each_listed, groups_listed, data_listed, citem_listed, citems_listed, is_built_in};
ghost use Rattle.cw_number.specs.Listed.{spec_listed, specs_listed, communicator_listed, communicators_listed, listed_of};

use cw_table::table::Table;
use cw_tree::items::{RawData, RawGroup};
use cw_tree::leaf::RawName;
use cw_tree::segment::{Raw, RawCitem, RawComm, RawSpec};
use cw_word::{Name, NoMemory};
use std::alloc::Global;

/// What a listed name stands for.
#[derive(Clone, Copy)]
pub enum Listing {
    Data,
    Label,
    Switch,
    Proc,
}

fn each(
    listing: Listing,
    names: &[RawName],
    before: Table<Listing>,
) -> Result<Table<Listing>, NoMemory>
    ensures { IfOk result (λ t. t ≡ before ++ each_listed listing names.now) }
{
    let mut all = before;
    for name in names {
        all = all.with(name.at.token, listing)?;
    }
    Ok(all)
}

fn groups(groups: &[RawGroup], before: Table<Listing>) -> Result<Table<Listing>, NoMemory>
    ensures { IfOk result (λ t. t ≡ before ++ groups_listed groups.now) }
{
    let mut all = before;
    for group in groups {
        all = each(Listing::Data, group.names.as_slice(), all)?;
    }
    Ok(all)
}

fn data(items: &RawData, before: Table<Listing>) -> Result<Table<Listing>, NoMemory>
    ensures { IfOk result (λ t. t ≡ before ++ data_listed items.now) }
{
    match items {
        RawData::Singles(_, names, _) => each(Listing::Data, names.as_slice(), before),
        RawData::Arrays(_, list, _) => groups(list.as_slice(), before),
        RawData::Table(table, _, _) => before.with(table.name.at.token, Listing::Data),
    }
}

fn citem(item: &RawCitem, before: Table<Listing>) -> Result<Table<Listing>, NoMemory>
    ensures { IfOk result (λ t. t ≡ before ++ citem_listed item.now) }
{
    match item {
        RawCitem::Data(items) => data(items, before),
        RawCitem::Overlay(_, _, items) => data(items, before),
        RawCitem::Label(_, names) => each(Listing::Label, names.as_slice(), before),
        RawCitem::Switch(_, names) => each(Listing::Switch, names.as_slice(), before),
        RawCitem::Spec(spec) => before.with(spec.name.at.token, Listing::Proc),
    }
}

fn citems(items: &[RawCitem], before: Table<Listing>) -> Result<Table<Listing>, NoMemory>
    ensures { IfOk result (λ t. t ≡ before ++ citems_listed items.now) }
{
    let mut all = before;
    for item in items {
        all = citem(item, all)?;
    }
    Ok(all)
}

/// Whether a name that LIBRARY lists is READBYTE, WRITEBYTE or BOUNDS.
pub fn is_built_in(name: &Name) -> bool
    ensures { result ≡ is_built_in name.now }
{
    let bytes = name.bytes();
    bytes == b"READBYTE".as_slice()
        || (bytes == b"WRITEBYTE".as_slice() || bytes == b"BOUNDS".as_slice())
}

fn spec(spec: &RawSpec, before: Table<Listing>) -> Result<Table<Listing>, NoMemory>
    ensures { IfOk result (λ t. t ≡ before ++ spec_listed spec.now) }
{
    if is_built_in(&spec.name.name) {
        Ok(before)
    } else {
        before.with(spec.name.at.token, Listing::Proc)
    }
}

fn specs(list: &[RawSpec], before: Table<Listing>) -> Result<Table<Listing>, NoMemory>
    ensures { IfOk result (λ t. t ≡ before ++ specs_listed list.now) }
{
    let mut all = before;
    for one in list {
        all = spec(one, all)?;
    }
    Ok(all)
}

fn communicator(list: &RawComm, before: Table<Listing>) -> Result<Table<Listing>, NoMemory>
    ensures { IfOk result (λ t. t ≡ before ++ communicator_listed list.now) }
{
    match list {
        RawComm::Common(_, items) => citems(items.as_slice(), before),
        RawComm::Library(_, list) => specs(list.as_slice(), before),
        RawComm::Absolute(..) => Ok(before),
    }
}

fn communicators(lists: &[RawComm], before: Table<Listing>) -> Result<Table<Listing>, NoMemory>
    ensures { IfOk result (λ t. t ≡ before ++ communicators_listed lists.now) }
{
    let mut all = before;
    for list in lists {
        all = communicator(list, all)?;
    }
    Ok(all)
}

/// The names of the descriptors of a segment, in order of the text.
pub fn listed_of(alloc: Global, raw: &Raw) -> Result<Table<Listing>, NoMemory>
    ensures { IfOk result (λ t. t ≡ listed_of raw.now) }
{
    communicators(raw.comms.as_slice(), Table::new(alloc))
}
