//! The block that begins with the first of these orders.
ghost use Rattle.std.specs.Prelude.{◌≡◌, ◌+◌, if◌then◌else◌, Some, length, drop, slice_get};
ghost use Rattle.cw_tmpl.specs.Blocks.{is_part, bounds_at, element_at, with_use, fetched, assigned, is_plain_divisor};
ghost use Rattle.cw_tmpl.specs.Blocks.{exponent_of, halving_places, halved, divided};
ghost use Rattle.cw_tmpl.specs.Blocks.{counted, number_scaled, with_number, saved, place_at, fetched_from};
ghost use Rattle.cw_tmpl.specs.Blocks.{saved_from, element_orders, element_fetched, element_used, element_saved, fetched_or, saved_or};
ghost use Rattle.cw_tmpl.specs.Blocks.{bounded_if, bounded_by, behind_bounds, at_bounds, row_at, row_or, block_if_saved, block_alone};
ghost use Rattle.cw_tmpl.specs.Blocks.{number_of, number_compared, compared_or, both_fetched, both_or, fetched_behind, block_at};
ghost use Rattle.cw_tmpl.specs.declared.blocks.Block.TheVariants as block;
ghost use Rattle.cw_order.specs.declared.order.Place.TheVariants as cell;

use crate::blocks::{
    Block, Bounded, Bounds, Element, Form, Simple, Use, orders_of_address, orders_of_element,
};
use crate::operands::{
    Home, bounds_at, element_at, element_behind, form_at, form_within, home_at, is_load, is_save,
    place_at, use_at,
};
use crate::rows::row_at;
use cw_order::{Order, Place};

fn with_use(operand: Simple, with: Option<Use>) -> Block
    ensures { result ≡ with_use operand with }
{
    match with {
        Some(with) => Block::Operate { operand, with },
        None => Block::Single,
    }
}

/// Whether so many bits from a bit on are those of a word.
fn is_part(t: u8, b: u8) -> bool
    ensures { result ≡ is_part t b }
{
    0 < t && u16::from(t) + u16::from(b) <= 16
}

fn part_fetched(place: Place, t: u8, b: u8, signed: bool) -> Block
    ensures { result ≡ (if is_part t b then block.FetchPart place t b signed else block.Single) }
{
    if is_part(t, b) {
        Block::FetchPart {
            place,
            t,
            b,
            signed,
        }
    } else {
        Block::Single
    }
}

/// The block of an order behind the address of a place.
fn fetched_by(place: Place, order: &Order) -> Block
    ensures { result ≡ fetched place (Some order.now) }
{
    match order {
        Order::Load => Block::Fetch(place),
        Order::LoadPart { t, b, signed } => part_fetched(place, *t, *b, *signed),
        _ => Block::Single,
    }
}

fn fetched(place: Place, orders: &[Order], behind: usize) -> Block
    ensures { result ≡ fetched place (slice_get orders.now behind) }
{
    match orders.get(behind) {
        Some(order) => fetched_by(place, order),
        None => Block::Single,
    }
}

fn part_assigned(place: Place, t: u8, b: u8) -> Block
    ensures { result ≡ (if is_part t b then block.AssignPart place t b else block.Single) }
{
    if is_part(t, b) {
        Block::AssignPart { place, t, b }
    } else {
        Block::Single
    }
}

/// The block of an order behind a `Save` and the address of a place, where another one is the next.
fn assigned_by(place: Place, order: &Order, orders: &[Order], next: usize) -> Block
    ensures { result ≡ assigned place (Some order.now) (slice_get orders.now next) }
{
    match order {
        Order::Load => with_use(Simple::Contents(place), use_at(orders, next)),
        Order::Store => Block::Assign(place),
        Order::StorePart { t, b } => part_assigned(place, *t, *b),
        _ => Block::Single,
    }
}

// `next` is the place behind `behind`.
fn assigned(place: Place, orders: &[Order], behind: usize, next: usize) -> Block
    ensures { result ≡ assigned place (slice_get orders.now behind) (slice_get orders.now next) }
{
    match orders.get(behind) {
        Some(order) => assigned_by(place, order, orders, next),
        None => Block::Single,
    }
}

// A divisor of the processor's own division: a number from 2 to 32,767.
fn is_plain_divisor(word: u16) -> bool
    ensures { result ≡ is_plain_divisor word }
{
    1 < word && word < 32_768
}

fn divided(by: u16, power: i8, line: u16) -> Block
    ensures { result ≡ divided by power line }
{
    if power == 0 && is_plain_divisor(by) {
        Block::Divide { by, line }
    } else {
        Block::Single
    }
}

/// The exponent of a power of two that is a word.
fn exponent_of(word: u16) -> Option<u8>
    ensures { result ≡ exponent_of word }
{
    match word {
        1 => Some(0),
        2 => Some(1),
        4 => Some(2),
        8 => Some(3),
        16 => Some(4),
        32 => Some(5),
        64 => Some(6),
        128 => Some(7),
        256 => Some(8),
        512 => Some(9),
        1024 => Some(10),
        2048 => Some(11),
        4096 => Some(12),
        8192 => Some(13),
        16_384 => Some(14),
        _ => None,
    }
}

/// By how many places a product with a number, at this power of two, is a shift down.
fn halving_places(word: u16, power: i8) -> Option<u8>
    ensures { result ≡ halving_places word power }
{
    if 0 <= power {
        return None;
    }
    let down = power.unsigned_abs();
    let exponent = exponent_of(word)?;
    if exponent < down && down <= exponent + 15 {
        Some(down - exponent)
    } else {
        None
    }
}

fn halved(word: u16, power: i8, line: u16) -> Block
    ensures { result ≡ halved word power line (halving_places word power) }
{
    match halving_places(word, power) {
        Some(places) => Block::Halve {
            word,
            power,
            places,
            line,
        },
        None => Block::Single,
    }
}

// A sum or a difference with a number.
fn counted(word: u16, down: bool, line: u16, with: Use) -> Block
    ensures { result ≡ counted word down line with }
{
    if word == 1 {
        Block::Count { down, line }
    } else {
        Block::Operate {
            operand: Simple::Number(word),
            with,
        }
    }
}

/// The block of a number and the order behind it, which is no use of a simple operand.
fn number_scaled_by(word: u16, order: &Order) -> Block
    ensures { result ≡ number_scaled word (Some order.now) }
{
    match order {
        Order::Div { power, line } => divided(word, *power, *line),
        Order::Mul { power, line } => halved(word, *power, *line),
        _ => Block::Single,
    }
}

// A number behind which is no use of a simple operand.
fn number_scaled(word: u16, orders: &[Order]) -> Block
    ensures { result ≡ number_scaled word (slice_get orders.now 1) }
{
    match orders.get(1) {
        Some(order) => number_scaled_by(word, order),
        None => Block::Single,
    }
}

fn with_number(word: u16, orders: &[Order]) -> Block
    ensures { result ≡ with_number word (slice_get orders.now 1) }
{
    match use_at(orders, 1) {
        None => number_scaled(word, orders),
        Some(Use::Add(line)) => counted(word, false, line, Use::Add(line)),
        Some(Use::Subtract(line)) => counted(word, true, line, Use::Subtract(line)),
        Some(with) => Block::Operate {
            operand: Simple::Number(word),
            with,
        },
    }
}

fn saved(orders: &[Order]) -> Block
    ensures { result ≡ saved (slice_get orders.now 0) (slice_get orders.now 1) }
{
    match orders.first() {
        Some(Order::Const(word)) => with_number(*word, orders),
        Some(Order::WriteByte) => Block::Write,
        _ => Block::Single,
    }
}

/// The block that begins with a `Save` before these orders.
fn saved_from(orders: &[Order]) -> Block
    ensures { result ≡ saved_from (place_at orders.now) orders.now }
{
    match place_at(orders) {
        Some(place) => {
            let behind = orders_of_address(place);
            assigned(place, orders, behind, behind + 1)
        }
        None => saved(orders),
    }
}

/// An element that is fetched, and another block where it is not.
fn element_fetched(element: Element, orders: &[Order], other: Block) -> Block
    ensures { result ≡ element_fetched element (slice_get orders.now (length (element_orders element))) other }
{
    if is_load(orders, orders_of_element(element)) {
        Block::FetchElement(element)
    } else {
        other
    }
}

/// The element that these orders fetch, and another block where they fetch none; the first ones put the address of a place.
fn element_or_fetched(orders: &[Order], place: Place) -> Block
    ensures { result ≡ fetched_or (element_at (Some place) orders.now) orders.now (fetched_from (Some place) orders.now) }
{
    let behind = orders_of_address(place);
    let other = fetched(place, orders, behind);
    match element_behind(place, orders, behind) {
        Some(element) => element_fetched(element, orders, other),
        None => other,
    }
}

/// An element that is used, and another block where it is not.
fn element_used(element: Element, with: Option<Use>, other: Block) -> Block
    ensures { result ≡ element_used element with other }
{
    match with {
        Some(with) => Block::Operate {
            operand: Simple::Element(element),
            with,
        },
        None => other,
    }
}

/// The block of an order behind a `Save` and an element, where another one is the next, and another block where it neither assigns nor fetches.
fn element_saved_by(
    element: Element,
    order: &Order,
    orders: &[Order],
    next: usize,
    other: Block,
) -> Block
    ensures { result ≡ element_saved element (Some order.now) (slice_get orders.now next) other }
{
    match order {
        Order::Load => element_used(element, use_at(orders, next), other),
        Order::Store => Block::AssignElement(element),
        _ => other,
    }
}

/// An element behind a `Save` that is assigned or used, and another block where it is neither.
fn element_saved(element: Element, orders: &[Order], other: Block) -> Block
    ensures { result ≡ element_saved element (slice_get orders.now (length (element_orders element)))
        (slice_get orders.now (length (element_orders element) + 1)) other }
{
    let behind = orders_of_element(element);
    match orders.get(behind) {
        Some(order) => element_saved_by(element, order, orders, behind + 1, other),
        None => other,
    }
}

/// The element that these orders behind a `Save` assign or use, and another block where they do neither.
fn element_or_saved(orders: &[Order]) -> Block
    ensures { result ≡ saved_or (element_at (place_at orders.now) orders.now) orders.now (saved_from (place_at orders.now) orders.now) }
{
    let other = saved_from(orders);
    match element_at(orders) {
        Some(element) => element_saved(element, orders, other),
        None => other,
    }
}

fn bounded_if(bounded: Bounded) -> Block
    ensures { result ≡ bounded_if bounded }
{
    if form_within(bounded.bounds, bounded.first, bounded.form) {
        Block::Bounded(bounded)
    } else {
        Block::Single
    }
}

/// The block of an address that is formed of an index behind its bounds, where a word and what is formed are known.
fn bounded_by(bounds: Bounds, home: Option<Home>, form: Option<Form>) -> Block
    ensures { result ≡ bounded_by bounds home form }
{
    match (home, form) {
        (Some(home), Some(form)) => bounded_if(Bounded {
            bounds,
            family: home.family,
            first: home.offset,
            form,
        }),
        _ => Block::Single,
    }
}

/// The block behind the comparison of an index with bounds, which is the first order.
fn behind_bounds(bounds: Bounds, orders: &[Order]) -> Block
    ensures { result ≡ behind_bounds bounds (slice_get orders.now 1) (slice_get orders.now 2) (slice_get orders.now 3) }
{
    if is_save(orders, 1) {
        bounded_by(bounds, home_at(orders, 2), form_at(orders, 3, bounds.lower))
    } else {
        Block::Single
    }
}

/// The block that begins with the comparison of an index with bounds, where that is the first order.
fn at_bounds(orders: &[Order]) -> Block
    ensures { result ≡ at_bounds (bounds_at (slice_get orders.now 0)) (slice_get orders.now 1) (slice_get orders.now 2) (slice_get orders.now 3) }
{
    match bounds_at(orders, 0) {
        Some(bounds) => behind_bounds(bounds, orders),
        None => Block::Single,
    }
}

/// The block that begins with no address.
fn block_if_saved(orders: &[Order]) -> Block
    ensures { result ≡ block_if_saved orders.now }
{
    match orders {
        [Order::Save, rest @ ..] => element_or_saved(rest),
        _ => at_bounds(orders),
    }
}

/// An element of two dimensions, and another block where there is none.
fn row_or_saved(orders: &[Order]) -> Block
    ensures { result ≡ row_or (row_at orders.now) (block_if_saved orders.now) }
{
    match row_at(orders) {
        Some(row) => Block::Row(row),
        None => block_if_saved(orders),
    }
}

/// The block that begins with the first of these orders, where a word of the frame that is fetched is all of its block.
fn block_alone(orders: &[Order]) -> Block
    ensures { result ≡ block_alone orders.now }
{
    match place_at(orders) {
        Some(place) => element_or_fetched(orders, place),
        None => row_or_saved(orders),
    }
}

/// The block of a word of the frame that is fetched, by the blocks that stand behind it: one of a `Save`, and one that fetches another such word.
fn both_fetched(first: u16, saved: Block, next: Block) -> Block
    ensures { result ≡ both_fetched first saved next (block.Fetch (cell.Frame first)) }
{
    match (saved, next) {
        (Block::Single, Block::Fetch(Place::Frame(second))) => Block::FetchBoth { first, second },
        _ => Block::Fetch(Place::Frame(first)),
    }
}

/// The block of a word of the frame that is fetched: another one may be behind a `Save` with which these orders begin.
fn fetched_with(offset: u16, saved: &[Order]) -> Block
    ensures { result ≡ both_or offset (slice_get saved.now 0) (block_alone saved.now) (block_alone (drop 1 saved.now)) (block.Fetch (cell.Frame offset)) }
{
    match saved {
        [Order::Save, next @ ..] => both_fetched(offset, block_alone(saved), block_alone(next)),
        _ => Block::Fetch(Place::Frame(offset)),
    }
}

/// The same behind the two orders that fetch it.
fn fetched_behind(offset: u16, orders: &[Order]) -> Block
    ensures { result ≡ fetched_behind offset orders.now }
{
    match orders {
        [_, _, saved @ ..] => fetched_with(offset, saved),
        _ => Block::Fetch(Place::Frame(offset)),
    }
}

/// The number that an order puts.
fn number_of(order: &Order) -> Option<u16>
    ensures { result ≡ number_of (Some order.now) }
{
    match order {
        Order::Const(word) => Some(*word),
        _ => None,
    }
}

/// That of the order at a place.
fn number_at(orders: &[Order], place: usize) -> Option<u16>
    ensures { result ≡ number_of (slice_get orders.now place) }
{
    match orders.get(place) {
        Some(order) => number_of(order),
        None => None,
    }
}

/// The block of a word of the frame that an order compares with a number, and another block where it does not.
fn compared_by(offset: u16, with: u16, order: &Order, other: Block) -> Block
    ensures { result ≡ number_compared offset (Some with) (Some order.now) other }
{
    match order {
        Order::JumpIf { comparator, mark } => Block::CompareWord {
            offset,
            with,
            comparator: *comparator,
            mark: *mark,
        },
        _ => other,
    }
}

/// The block of a word of the frame that these orders compare with a number, if there is one, and another block where they do not.
fn number_compared(offset: u16, number: Option<u16>, orders: &[Order], other: Block) -> Block
    ensures { result ≡ number_compared offset number (slice_get orders.now 4) other }
{
    match (number, orders.get(4)) {
        (Some(with), Some(order)) => compared_by(offset, with, order, other),
        _ => other,
    }
}

/// The block of a word of the frame that these orders fetch and compare with a number, and another block where they do not.
fn compared_or(offset: u16, orders: &[Order], other: Block) -> Block
    ensures { result ≡ compared_or offset (slice_get orders.now 2) (slice_get orders.now 3) (slice_get orders.now 4) other }
{
    if is_save(orders, 2) {
        number_compared(offset, number_at(orders, 3), orders, other)
    } else {
        other
    }
}

/// The block that begins with the first of these orders.
fn block_here(orders: &[Order]) -> Block
    ensures { result ≡ block_at 0 orders.now }
{
    match block_alone(orders) {
        Block::Fetch(Place::Frame(offset)) => {
            compared_or(offset, orders, fetched_behind(offset, orders))
        }
        block => block,
    }
}

/// How the first of the orders stands, where so many are left of the block before.
pub(crate) fn block_at(left: u8, orders: &[Order]) -> Block
    ensures { result ≡ block_at left orders.now }
{
    match left.checked_sub(1) {
        Some(fewer) => Block::Within(fewer),
        None => block_here(orders),
    }
}
