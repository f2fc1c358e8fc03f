//! The items of a unit.
ghost use Rattle.std.specs.Prelude.{◌≡◌, ◌++◌, ◌∷◌, [], IfOk, is_some};
ghost use Rattle.cw_table.specs.Rows.{item_at, place_at};
ghost use Rattle.cw_number.specs.things.Families.{frame_of};
ghost use Rattle.cw_make_items.specs.Items.{address_row, aitem_address, aitems_addresses, communicator_addresses, addresses_of, kind_in, declared_kind};
ghost use Rattle.cw_make_items.specs.Items.{item_kind, whole_scale, declared_scale, item_scale, declared_name, item_name, item_line, proc_of_owner};
ghost use Rattle.cw_make_items.specs.Items.{home_in, home_on, home_at, home_listed, held_or_none, item_of, items_of};

use crate::descriptors::short;
use crate::lookup::{item_here, line_of, proc_here};
use crate::types::{scale_of, short_within};
use cw_amount::amount::place_amount;
use cw_facts::fact::{Declaration, Kind};
use cw_number::listed::Listing;
use cw_number::numbered::Numbered;
use cw_number::{Base, Owner, Sort, Thing};
use cw_table::table::Table;
use cw_tree::leaf::Position;
use cw_tree::segment::{RawAitem, RawComm};
use cw_unit::descriptor::Scale;
use cw_unit::unit::{Home, Item, ItemKind};
use cw_word::{List, Name, NoMemory};
use std::alloc::Global;

// ---- the addresses that ABSOLUTE lists give

fn aitem_address(item: &RawAitem, before: Table<u16>) -> Result<Table<u16>, NoMemory>
    ensures { IfOk result (λ t. t ≡ before ++ aitem_address item.now ∷ []) }
{
    match item {
        RawAitem::Single(_, name, address) => {
            before.with(name.at.token, short_within(&place_amount(address)))
        }
        RawAitem::Array(_, name, _, address) => {
            before.with(name.at.token, short_within(&place_amount(address)))
        }
        RawAitem::Table(table, address) => {
            before.with(table.name.at.token, short_within(&place_amount(address)))
        }
    }
}

fn aitems_addresses(items: &[RawAitem], before: Table<u16>) -> Result<Table<u16>, NoMemory>
    ensures { IfOk result (λ t. t ≡ before ++ aitems_addresses items.now) }
{
    let mut all = before;
    for item in items {
        all = aitem_address(item, all)?;
    }
    Ok(all)
}

fn communicator_addresses(list: &RawComm, before: Table<u16>) -> Result<Table<u16>, NoMemory>
    ensures { IfOk result (λ t. t ≡ before ++ communicator_addresses list.now) }
{
    match list {
        RawComm::Common(..) => Ok(before),
        RawComm::Library(..) => Ok(before),
        RawComm::Absolute(_, items) => aitems_addresses(items.as_slice(), before),
    }
}

/// The addresses that ABSOLUTE lists give.
pub fn addresses_of(alloc: Global, lists: &[RawComm]) -> Result<Table<u16>, NoMemory>
    ensures { IfOk result (λ t. t ≡ addresses_of lists.now) }
{
    let mut all = Table::new(alloc);
    for list in lists {
        all = communicator_addresses(list, all)?;
    }
    Ok(all)
}

// ---- what is declared of an item

fn declared_at(declarations: &Table<Declaration>, token: u32) -> Option<Declaration>
    ensures { result ≡ item_at declarations.now token }
{
    declarations.find(token).copied()
}

fn kind_in(declaration: &Option<Declaration>) -> Option<Kind>
    ensures { result ≡ kind_in declaration.now }
{
    match declaration {
        None => None,
        Some(declaration) => Some(declaration.kind),
    }
}

fn declared_kind(kind: &Option<Kind>) -> ItemKind
    ensures { result ≡ declared_kind kind.now }
{
    match kind {
        Some(Kind::Array(..)) => ItemKind::Array,
        Some(Kind::Table(_)) => ItemKind::Table,
        _ => ItemKind::Single,
    }
}

fn item_kind(sort: &Sort, kind: &Option<Kind>) -> ItemKind
    ensures { result ≡ item_kind sort.now kind.now }
{
    match sort {
        Sort::Named => declared_kind(kind),
        Sort::Text => ItemKind::Text,
        Sort::Loop => ItemKind::Loop,
    }
}

fn whole_scale() -> Scale
    ensures { result ≡ whole_scale }
{
    Scale { t: 16, f: 0 }
}

fn declared_scale(kind: &Option<Kind>) -> Scale
    ensures { result ≡ declared_scale kind.now }
{
    match kind {
        Some(Kind::Single(scale)) => scale_of(scale),
        Some(Kind::Array(scale, _)) => scale_of(scale),
        Some(Kind::Value(scale)) => scale_of(scale),
        Some(Kind::Location(scale)) => scale_of(scale),
        Some(Kind::ArrayParam(scale)) => scale_of(scale),
        _ => whole_scale(),
    }
}

fn item_scale(sort: &Sort, kind: &Option<Kind>) -> Scale
    ensures { result ≡ item_scale sort.now kind.now }
{
    match sort {
        Sort::Named => declared_scale(kind),
        Sort::Text => whole_scale(),
        Sort::Loop => whole_scale(),
    }
}

fn declared_name(declaration: &Option<Declaration>) -> Option<Name>
    ensures { result ≡ declared_name declaration.now }
{
    match declaration {
        None => None,
        Some(declaration) => Some(declaration.name.name),
    }
}

fn item_name(sort: &Sort, declaration: &Option<Declaration>) -> Option<Name>
    ensures { result ≡ item_name sort.now declaration.now }
{
    match sort {
        Sort::Named => declared_name(declaration),
        Sort::Text => None,
        Sort::Loop => None,
    }
}

fn item_line(sort: &Sort, at: Position) -> u16
    ensures { result ≡ item_line sort.now at }
{
    match sort {
        Sort::Named => 0,
        Sort::Text => line_of(at),
        Sort::Loop => line_of(at),
    }
}

fn proc_of_owner(numbers: &Table<Numbered>, owner: &Option<Owner>) -> Option<u16>
    ensures { result ≡ proc_of_owner numbers.now owner.now }
{
    match owner {
        None => None,
        Some(owner) => Some(proc_here(numbers, owner.token)),
    }
}

// ---- where it stands

fn is_in_frame(sort: &Sort, owner: &Option<Owner>) -> bool
    ensures { result ≡ is_some (frame_of sort.now owner.now) }
{
    match sort {
        Sort::Text => false,
        _ => match owner {
            None => false,
            Some(owner) => owner.recursive,
        },
    }
}

fn home_in(in_frame: bool) -> Home
    ensures { result ≡ home_in in_frame }
{
    if in_frame { Home::Frame } else { Home::Own }
}

fn home_on(numbers: &Table<Numbered>, base: &Option<Base>, in_frame: bool) -> Home
    ensures { result ≡ home_on numbers.now base.now in_frame }
{
    match base {
        None => home_in(in_frame),
        Some(base) => Home::Over {
            item: item_here(numbers, base.token),
            offset: short(base.word),
        },
    }
}

fn home_at(numbers: &Table<Numbered>, address: &Option<u16>, thing: &Thing) -> Home
    ensures { result ≡ home_at numbers.now address.now thing.now }
{
    match address {
        None => home_on(numbers, &thing.base, is_in_frame(&thing.sort, &thing.owner)),
        Some(address) => Home::Absolute(*address),
    }
}

fn home_listed(
    numbers: &Table<Numbered>,
    descriptor: &Option<usize>,
    address: &Option<u16>,
    thing: &Thing,
) -> Home
    ensures { result ≡ home_listed numbers.now descriptor.now address.now thing.now }
{
    match descriptor {
        None => home_at(numbers, address, thing),
        Some(d) => Home::Common(if *d <= 65535 { *d as u16 } else { 65535 }),
    }
}

// ---- items

fn held_again(alloc: Global, held: &[(u16, u16)]) -> Result<List<(u16, u16)>, NoMemory>
    ensures { IfOk result (λ all. all ≡ held.now) }
{
    let mut all = List::new(alloc);
    for one in held {
        all.push(*one)?;
    }
    Ok(all)
}

fn held_at(
    alloc: Global,
    held: &Table<List<(u16, u16)>>,
    token: u32,
) -> Result<List<(u16, u16)>, NoMemory>
    ensures { IfOk result (λ all. all ≡ held_or_none (item_at held.now token)) }
{
    match held.find(token) {
        None => Ok(List::new(alloc)),
        Some(words) => held_again(alloc, words.as_slice()),
    }
}

fn item_of(
    alloc: Global,
    declarations: &Table<Declaration>,
    numbers: &Table<Numbered>,
    listed: &Table<Listing>,
    addresses: &Table<u16>,
    held: &Table<List<(u16, u16)>>,
    thing: &Thing,
) -> Result<Item, NoMemory>
    ensures { IfOk result (λ i. i ≡ item_of declarations.now numbers.now listed.now addresses.now held.now thing.now) }
{
    let token = thing.at.token;
    let declaration = declared_at(declarations, token);
    let kind = kind_in(&declaration);
    let descriptor = listed.number(token);
    let address = addresses.find(token).copied();
    let presets = held_at(alloc, held, token)?;
    Ok(Item {
        name: item_name(&thing.sort, &declaration),
        owner: proc_of_owner(numbers, &thing.owner),
        line: item_line(&thing.sort, thing.at),
        kind: item_kind(&thing.sort, &kind),
        scale: item_scale(&thing.sort, &kind),
        home: home_listed(numbers, &descriptor, &address, thing),
        words: thing.words,
        presets,
    })
}

/// The items of a unit, in order of the text.
pub fn items_of(
    alloc: Global,
    declarations: &Table<Declaration>,
    numbers: &Table<Numbered>,
    listed: &Table<Listing>,
    addresses: &Table<u16>,
    held: &Table<List<(u16, u16)>>,
    things: &[Thing],
) -> Result<List<Item>, NoMemory>
    ensures { IfOk result (λ all. all ≡ items_of declarations.now numbers.now listed.now addresses.now held.now things.now) }
{
    let mut all = List::new(alloc);
    for thing in things {
        let item = item_of(alloc, declarations, numbers, listed, addresses, held, thing)?;
        all.push(item)?;
    }
    Ok(all)
}
