//! Places in the code of a segment.
ghost use Rattle.std.specs.Prelude.{◌≡◌, ◌+◌, ◌*◌, map, slice_index, Some, None, IfOk, All, ◌&&◌, not, length};
ghost use Rattle.cw_order.specs.HasCode.{HasCode};
ghost use Rattle.cw_tmpl.specs.Backward.{calls_from};
ghost use Rattle.cw_tmpl.specs.Blocks.{NamesParts};
ghost use Rattle.cw_tmpl.specs.Names.{mark_place, way_to_label, landing_bytes, switch_bytes, place_of_one};
ghost use Rattle.cw_tmpl.specs.Named.{is_named_label, is_named_switch};
ghost use Rattle.cw_tmpl.specs.ShortForms.{is_short};
ghost use Rattle.cw_tmpl.specs.Templates.{block_size};
ghost use Rattle.cw_tmpl.specs.ReferenceCode.{longest_places, places_by, landing_places, landing_sizes, switch_places, label_starts, statements_from};
ghost use Rattle.cw_assemble.specs.Flags.{AreFlags};
ghost use Rattle.cw_assemble.specs.Noted.{blocks_from};

use crate::noted::block_noted;
use crate::sizes::{block_size, sum, table_size};
use cw_order::{LabelMark, Order, Orders};
use cw_tmpl::{Block, Call, LANDING, Names, Reach, call_after, call_for, check_of, orders_left};
use cw_unit::unit::Goal;
use cw_word::{List, NoMemory};
use std::alloc::Global;

/// The place behind a block that stands at a place. NoMemory comes where it is no u32.
fn place_behind(at: u32, short: bool, block: Block, order: &Order) -> Result<u32, NoMemory>
    requires code { HasCode order.now }
    requires parts { NamesParts block }
    ensures { IfOk result (λ n. n ≡ at + block_size short block order.now) }
{
    sum(at, block_size(short, block, order)?)
}

/// The places of the orders' code, and of the end, where no jump is short.
pub(crate) fn longest_places(
    alloc: Global,
    orders: &[Order],
    blocks: &[Block],
) -> Result<List<u32>, NoMemory>
    requires codes { All HasCode orders.now }
    requires noted { blocks.now ≡ blocks_from 0 orders.now }
    ensures { IfOk result (λ list. list ≡ longest_places orders.now) }
{
    let mut list = List::new(alloc);
    let mut at: u32 = 11;
    let mut left = 0;
    for k in 0..orders.len() {
        let order = &orders[k];
        let block = block_noted(blocks, orders, left, k);
        let behind = place_behind(at, false, block, order)?;
        list.push(at)?;
        at = behind;
        left = orders_left(block);
    }
    list.push(at)?;
    Ok(list)
}

/// A number of an order. NoMemory comes where it is no u32.
fn order_number(number: usize) -> Result<u32, NoMemory>
    ensures { IfOk result (λ n. n ≡ number) }
{
    u32::try_from(number).map_err(|_| NoMemory)
}

/// Which CALL the check of each block jumps back to: the number of the order behind the first one of the block that has it, or 0 for none.
pub(crate) fn calls(
    alloc: Global,
    orders: &[Order],
    blocks: &[Block],
    longest: &[u32],
) -> Result<List<u32>, NoMemory>
    requires codes { All HasCode orders.now }
    requires noted { blocks.now ≡ blocks_from 0 orders.now }
    ensures { IfOk result (λ list. list ≡ calls_from longest.now None 0 0 orders.now) }
{
    let mut list = List::new(alloc);
    let mut last: Option<Call> = None;
    let mut left = 0;
    for k in 0..orders.len() {
        let block = block_noted(blocks, orders, left, k);
        let check = check_of(block, &orders[k]);
        let call = call_for(longest, last, k, check);
        let behind = order_number(k + 1)?;
        list.push(call)?;
        last = call_after(last, behind, call, check);
        left = orders_left(block);
    }
    Ok(list)
}

/// The places of the orders' code, and of the end, where the jumps are short that reach their marks so, and checks jump back.
pub(crate) fn order_places(
    alloc: Global,
    orders: &[Order],
    blocks: &[Block],
    reach: &Reach,
) -> Result<List<u32>, NoMemory>
    requires codes { All HasCode orders.now }
    requires noted { blocks.now ≡ blocks_from 0 orders.now }
    ensures { IfOk result (λ list. list ≡ places_by (is_short reach.now) orders.now) }
{
    let mut list = List::new(alloc);
    let mut at: u32 = 11;
    let mut left = 0;
    for k in 0..orders.len() {
        let order = &orders[k];
        let block = block_noted(blocks, orders, left, k);
        let short = reach.is_short(k, block, order);
        let behind = place_behind(at, short, block, order)?;
        list.push(at)?;
        at = behind;
        left = orders_left(block);
    }
    list.push(at)?;
    Ok(list)
}

/// Whether a label has a landing, where something names it or not.
pub(crate) fn has_landing(named: bool, label: LabelMark) -> bool
    ensures { result ≡ (named && not label.in_procedure) }
{
    named && !label.in_procedure
}

/// The place of what there is, and 0 for what there is not.
fn place_of_one(has: bool, place: u32) -> u32
    ensures { result ≡ place_of_one has place }
{
    if has { place } else { 0 }
}

fn landing_bytes(has: bool) -> u32
    ensures { result ≡ landing_bytes has }
{
    if has { LANDING } else { 0 }
}

fn switch_bytes(has: bool, goals: &[Goal]) -> Result<u32, NoMemory>
    ensures { IfOk result (λ n. n ≡ switch_bytes has goals.now) }
{
    if has {
        table_size(29, goals.len())
    } else {
        Ok(0)
    }
}

/// The places of the landings of labels, the first one given, and the place behind the last.
pub(crate) fn landing_places(
    alloc: Global,
    first: u32,
    orders: &Orders,
    named: &[bool],
) -> Result<(List<u32>, u32), NoMemory>
    requires { AreFlags named.now (length orders.now.labels) (is_named_label orders.now) }
    ensures places { IfOk result (λ found. found.0 ≡ landing_places (is_named_label orders.now) first 0 orders.now.labels) }
    ensures behind { IfOk result (λ found. found.1 ≡ first + landing_sizes (is_named_label orders.now) 0 orders.now.labels) }
{
    let labels = orders.labels.as_slice();
    let mut list = List::new(alloc);
    let mut at = first;
    for number in 0..labels.len() {
        let has = has_landing(named[number], labels[number]);
        let behind = sum(at, landing_bytes(has))?;
        list.push(place_of_one(has, at))?;
        at = behind;
    }
    Ok((list, at))
}

/// The place behind the routine of a switch that stands at a place, if it has one. NoMemory comes where it is no u32.
fn routine_behind(at: u32, has: bool, goals: &[Goal]) -> Result<u32, NoMemory>
    ensures { IfOk result (λ n. n ≡ at + switch_bytes has goals.now) }
{
    sum(at, switch_bytes(has, goals)?)
}

/// The places of the routines of switches, the first one given.
pub(crate) fn switch_places(
    alloc: Global,
    first: u32,
    orders: &Orders,
    named: &[bool],
) -> Result<List<u32>, NoMemory>
    requires { AreFlags named.now (length orders.now.switches) (is_named_switch orders.now) }
    ensures { IfOk result (λ list. list ≡ switch_places (is_named_switch orders.now) first 0 orders.now.switches) }
{
    let switches = orders.switches.as_slice();
    let mut list = List::new(alloc);
    let mut at = first;
    for number in 0..switches.len() {
        let has = named[number];
        let behind = routine_behind(at, has, switches[number].as_slice())?;
        list.push(place_of_one(has, at))?;
        at = behind;
    }
    Ok(list)
}

/// The places of the marks.
pub(crate) fn mark_places(
    alloc: Global,
    places: &[u32],
    marks: &[u32],
) -> Result<List<u32>, NoMemory>
    ensures { IfOk result (λ list. list ≡ map (slice_index places.now) marks.now) }
{
    let mut list = List::new(alloc);
    for mark in marks {
        list.push(place_at(places, *mark as usize))?;
    }
    Ok(list)
}

/// A place of the list, 0 past its end.
pub(crate) fn place_at(places: &[u32], order: usize) -> u32
    ensures { result ≡ slice_index places.now order }
{
    places.get(order).copied().unwrap_or(0)
}

/// Where a label of this number is reached.
fn label_place(names: &Names, number: usize, label: LabelMark) -> u32
    ensures { result ≡ way_to_label names.now number (Some label) }
{
    if label.in_procedure {
        names.mark(label.mark)
    } else {
        place_at(names.landings, number)
    }
}

/// Where the labels are reached.
pub(crate) fn label_places(
    alloc: Global,
    labels: &[LabelMark],
    names: &Names,
) -> Result<List<u32>, NoMemory>
    ensures { IfOk result (λ list. list ≡ label_starts names.now 0 labels.now) }
{
    let mut list = List::new(alloc);
    for (number, label) in labels.iter().enumerate() {
        list.push(label_place(names, number, *label))?;
    }
    Ok(list)
}

/// The places of the procedures with these marks.
pub(crate) fn procedure_places(
    alloc: Global,
    procedures: &[u32],
    names: &Names,
) -> Result<List<u32>, NoMemory>
    ensures { IfOk result (λ list. list ≡ map (mark_place names.now) procedures.now) }
{
    let mut list = List::new(alloc);
    for mark in procedures {
        list.push(names.mark(*mark))?;
    }
    Ok(list)
}

/// Where the statements begin, each with its line.
pub(crate) fn statement_places(
    alloc: Global,
    places: &[u32],
    orders: &[Order],
) -> Result<List<(u32, u16)>, NoMemory>
    ensures { IfOk result (λ list. list ≡ statements_from 0 places.now orders.now) }
{
    let mut list = List::new(alloc);
    for (k, order) in orders.iter().enumerate() {
        if let Order::Start(line) = order {
            list.push((place_at(places, k), *line))?;
        }
    }
    Ok(list)
}
