//! What orders of a block name: a place, a use, bounds, an element, or what is formed of an index behind its bounds.
ghost use Rattle.std.specs.Prelude.{◌≡◌, ◌<◌, ◌-ℤ◌, if◌then◌else◌, ◌&&◌, Some, None, int_le, slice_get};
ghost use Rattle.cw_tmpl.specs.Blocks.{use_of, zero_word, address_test, bounds_at, bounds_test, tested_by};
ghost use Rattle.cw_tmpl.specs.Blocks.{is_save, is_load, home_of, array_from, array_of, element_in, element_addressed, element_bounded};
ghost use Rattle.cw_tmpl.specs.declared.blocks.Form.TheVariants as form;
ghost use Rattle.cw_tmpl.specs.Blocks.{element_behind, element_at, place_at, is_within, form_of, entries_within, form_within};

use crate::blocks::{Bounds, Element, Form, Test, Use, orders_of_address};
use cw_order::{Order, Place};

/// A word of a storage family.
#[derive(Clone, Copy)]
pub struct Home {
    pub family: u16,
    pub offset: u16,
}

/// An item of one dimension, which begins with a word of a storage family: its elements count from `lower`, and so many words from the
/// first one on are in the data area (`span`). An address that is that of no word stops at its line.
#[derive(Clone, Copy)]
pub struct Array {
    pub family: u16,
    pub first: u16,
    pub lower: i16,
    pub span: u16,
    pub line: u16,
}

pub(crate) fn place_at(orders: &[Order]) -> Option<Place>
    ensures { result ≡ place_at orders.now }
{
    match orders.first() {
        Some(Order::Home { family, offset }) => Some(Place::Word {
            family: *family,
            offset: *offset,
        }),
        Some(Order::FrameHome(offset)) => Some(Place::Frame(*offset)),
        _ => None,
    }
}

fn use_of(order: &Order) -> Option<Use>
    ensures { result ≡ use_of (Some order.now) }
{
    match order {
        Order::Add(line) => Some(Use::Add(*line)),
        Order::Sub(line) => Some(Use::Subtract(*line)),
        Order::Mul { power, line } => {
            if *power == 0 {
                Some(Use::Multiply(*line))
            } else {
                None
            }
        }
        Order::And => Some(Use::Mask),
        Order::Or => Some(Use::Union),
        Order::Xor => Some(Use::Differ),
        Order::JumpIf { comparator, mark } => Some(Use::Compare {
            comparator: *comparator,
            mark: *mark,
        }),
        _ => None,
    }
}

pub(crate) fn use_at(orders: &[Order], place: usize) -> Option<Use>
    ensures { result ≡ use_of (slice_get orders.now place) }
{
    match orders.get(place) {
        Some(order) => use_of(order),
        None => None,
    }
}

/// The offset of the word that index 0 names, where it is known to be in the data area.
fn zero_word(lower: i16, span: u16, first: u16) -> Option<u16>
    ensures { result ≡ zero_word lower span first }
{
    if 0 < lower {
        return None;
    }
    let below = lower.unsigned_abs();
    if below < span {
        first.checked_add(below)
    } else {
        None
    }
}

/// The test of the address, where one compare is enough.
fn address_test(lower: i16, span: u16, first: u16) -> Option<Test>
    ensures { result ≡ address_test (zero_word lower span first) }
{
    let zero = zero_word(lower, span, first)?;
    Some(Test::Address { zero })
}

/// The bounds that an order compares an index with.
fn bounds_of(order: &Order) -> Option<Bounds>
    ensures { result ≡ bounds_at (Some order.now) }
{
    match order {
        Order::InBounds { lower, upper, line } => Some(Bounds {
            lower: *lower,
            upper: *upper,
            line: *line,
        }),
        _ => None,
    }
}

/// Those of the order at a place.
pub(crate) fn bounds_at(orders: &[Order], place: usize) -> Option<Bounds>
    ensures { result ≡ bounds_at (slice_get orders.now place) }
{
    match orders.get(place) {
        Some(order) => bounds_of(order),
        None => None,
    }
}

/// The test of an index with bounds, where an element begins at the lower one and all words between them are known to be in the data area.
fn bounds_test(bounds: Bounds, begins: i16, span: u16) -> Option<Test>
    ensures { result ≡ bounds_test bounds begins span }
{
    let Bounds { lower, upper, line } = bounds;
    if lower == begins && is_within(lower, upper, span) {
        Some(Test::Bounds { upper, line })
    } else {
        None
    }
}

/// The same with the bounds at a place.
fn tested_by(orders: &[Order], place: usize, begins: i16, span: u16) -> Option<Test>
    ensures { result ≡ tested_by (bounds_at (slice_get orders.now place)) begins span }
{
    let bounds = bounds_at(orders, place)?;
    bounds_test(bounds, begins, span)
}

fn saves(order: &Order) -> bool
    ensures { result ≡ is_save (Some order.now) }
{
    matches!(order, Order::Save)
}

pub(crate) fn is_save(orders: &[Order], place: usize) -> bool
    ensures { result ≡ is_save (slice_get orders.now place) }
{
    match orders.get(place) {
        Some(order) => saves(order),
        None => false,
    }
}

fn loads(order: &Order) -> bool
    ensures { result ≡ is_load (Some order.now) }
{
    matches!(order, Order::Load)
}

pub(crate) fn is_load(orders: &[Order], place: usize) -> bool
    ensures { result ≡ is_load (slice_get orders.now place) }
{
    match orders.get(place) {
        Some(order) => loads(order),
        None => false,
    }
}

/// The word of a storage family whose address an order puts.
fn home_of(order: &Order) -> Option<Home>
    ensures { result ≡ home_of (Some order.now) }
{
    match order {
        Order::Home { family, offset } => Some(Home {
            family: *family,
            offset: *offset,
        }),
        _ => None,
    }
}

/// That of the order at a place.
pub(crate) fn home_at(orders: &[Order], place: usize) -> Option<Home>
    ensures { result ≡ home_of (slice_get orders.now place) }
{
    match orders.get(place) {
        Some(order) => home_of(order),
        None => None,
    }
}

/// The item that begins with a word, where an order makes the address of an element of it.
fn array_from(home: Home, order: &Order) -> Option<Array>
    ensures { result ≡ array_from (Some home) (Some order.now) }
{
    match order {
        Order::Element { lower, span, line } => Some(Array {
            family: home.family,
            first: home.offset,
            lower: *lower,
            span: *span,
            line: *line,
        }),
        _ => None,
    }
}

/// The item of which the orders at two places make the address of an element.
fn array_at(orders: &[Order], puts: usize, forms: usize) -> Option<Array>
    ensures { result ≡ array_of (slice_get orders.now puts) (slice_get orders.now forms) }
{
    match (home_at(orders, puts), orders.get(forms)) {
        (Some(home), Some(order)) => array_from(home, order),
        _ => None,
    }
}

/// The element of an item whose index stands at a place, where its test is known.
fn element_in(test: Option<Test>, index: Place, array: Array) -> Option<Element>
    ensures { result ≡ element_in test index array }
{
    let test = test?;
    Some(Element {
        index,
        family: array.family,
        first: array.first,
        lower: array.lower,
        span: array.span,
        line: array.line,
        test,
    })
}

/// The element whose index stands at a place, where the orders at two places make its address.
fn element_addressed(index: Place, orders: &[Order], puts: usize, forms: usize) -> Option<Element>
    ensures { result ≡ element_addressed index (slice_get orders.now puts) (slice_get orders.now forms) }
{
    let array = array_at(orders, puts, forms)?;
    element_in(
        address_test(array.lower, array.span, array.first),
        index,
        array,
    )
}

/// The same where an order before them compares the index with bounds.
fn element_bounded(
    index: Place,
    orders: &[Order],
    bounds: usize,
    puts: usize,
    forms: usize,
) -> Option<Element>
    ensures { result ≡ element_bounded index (slice_get orders.now bounds) (slice_get orders.now puts) (slice_get orders.now forms) }
{
    let array = array_at(orders, puts, forms)?;
    element_in(
        tested_by(orders, bounds, array.lower, array.span),
        index,
        array,
    )
}

/// The element whose index stands at a place, where four orders behind its address make the address of one, or five with a test of its bounds.
pub(crate) fn element_behind(index: Place, orders: &[Order], behind: usize) -> Option<Element>
    requires { behind < 8 }
    ensures { result ≡ element_behind index behind orders.now }
{
    if !is_load(orders, behind) {
        None
    } else if is_save(orders, behind + 1) {
        element_addressed(index, orders, behind + 2, behind + 3)
    } else if is_save(orders, behind + 2) {
        element_bounded(index, orders, behind + 1, behind + 3, behind + 4)
    } else {
        None
    }
}

/// The element whose address these orders make.
pub(crate) fn element_at(orders: &[Order]) -> Option<Element>
    ensures { result ≡ element_at (place_at orders.now) orders.now }
{
    let index = place_at(orders)?;
    element_behind(index, orders, orders_of_address(index))
}

/// What an order forms of an index that has been compared with bounds from a lower one.
fn form_of(order: &Order, lower: i16) -> Option<Form>
    ensures { result ≡ form_of lower (Some order.now) }
{
    match order {
        Order::Element {
            lower: begins,
            span,
            line,
        } => element_form(lower, *begins, *span, *line),
        Order::Entry {
            width,
            word,
            span,
            line,
        } => Some(Form::Entry {
            width: *width,
            word: *word,
            span: *span,
            line: *line,
        }),
        _ => None,
    }
}

/// The same of the order at a place.
pub(crate) fn form_at(orders: &[Order], place: usize, lower: i16) -> Option<Form>
    ensures { result ≡ form_of lower (slice_get orders.now place) }
{
    match orders.get(place) {
        Some(order) => form_of(order, lower),
        None => None,
    }
}

/// The form of an element that counts from the lower bound.
fn element_form(lower: i16, begins: i16, span: u16, line: u16) -> Option<Form>
    ensures { result ≡ (if int_le lower begins && int_le begins lower then Some (form.Element span line) else None) }
{
    if begins == lower {
        Some(Form::Element { span, line })
    } else {
        None
    }
}

/// Whether the word at the upper bound, counted from the lower one, is among so many.
pub(crate) fn is_within(lower: i16, upper: i16, span: u16) -> bool
    ensures { result ≡ is_within (upper -ℤ lower) span }
{
    lower <= upper && upper.abs_diff(lower) < span
}

/// Whether a word of each entry from 0 to the upper bound is among so many.
fn entries_within(lower: i16, upper: i16, width: u16, word: u16, span: u16) -> bool
    ensures { result ≡ entries_within lower upper width word span }
{
    lower == 0
        && 0 <= upper
        && u32::from(upper.unsigned_abs()) * u32::from(width) + u32::from(word) < u32::from(span)
}

/// Whether all indexes between the bounds name words that are known to be in the data area.
pub(crate) fn form_within(bounds: Bounds, first: u16, form: Form) -> bool
    ensures { result ≡ form_within bounds first form }
{
    let Bounds { lower, upper, .. } = bounds;
    match form {
        Form::Element { span, .. } => is_within(lower, upper, span),
        Form::Entry {
            width,
            word,
            span,
            ..
        } => {
            entries_within(lower, upper, width, word, span)
                && u32::from(first) + u32::from(word) < 65_536
        }
    }
}
