//! Elements of two dimensions, where both indexes are compared with their bounds and an instruction names the second one.
ghost use Rattle.std.specs.Prelude.{◌≡◌, ◌<◌, ◌+◌, ◌*◌, ◌-ℤ◌, ◌&&◌, pos, true, nat_lt, length, Some, slice_get};
ghost use Rattle.cw_tmpl.specs.Blocks.{column_orders, orders_to_row, is_within, is_save, bounds_at, column_at, last_within, row_within};
ghost use Rattle.cw_tmpl.specs.Blocks.{row_if, same_bound, item_from, item_of, row_made, row_formed, row_behind, row_saved, row_from, row_at};

use crate::blocks::{Bounds, orders_of_address};
use crate::operands::{Home, bounds_at, home_at, is_save, is_within};
use cw_order::{Order, Place};

/// A second index that an instruction names.
#[derive(Clone, Copy)]
pub enum Column {
    Number(u16),
    Contents(Place),
}

/// An element of an item of two dimensions, which begins with a word of a storage family. The first index is the top operand and counts
/// rows of so many words (`width`), the second one counts words in a row; between their bounds the words are known to be in the data
/// area, as so many are from the first one on (`span`).
#[derive(Clone, Copy)]
pub struct Row {
    pub rows: Bounds,
    pub column: Column,
    pub columns: Bounds,
    pub family: u16,
    pub first: u16,
    pub width: u16,
    pub span: u16,
}

/// An item of two dimensions, which begins with a word of a storage family.
#[derive(Clone, Copy)]
pub struct Item {
    pub family: u16,
    pub first: u16,
    pub lower: i16,
    pub second: i16,
    pub width: u16,
    pub span: u16,
}

/// How many orders put a second index.
fn orders_of_column(column: Column) -> usize
    ensures is { result ≡ length (column_orders column) }
    ensures small { result < 3 }
{
    match column {
        Column::Number(_) => 1,
        Column::Contents(place) => orders_of_address(place) + 1,
    }
}

/// How many orders stand before the one that makes the address.
pub(crate) fn orders_to_row(row: Row) -> usize
    ensures is { result ≡ length (orders_to_row row) }
    ensures small { result < 8 }
{
    orders_of_column(row.column) + 5
}

/// The second index that the first of these orders put.
fn column_at(orders: &[Order]) -> Option<Column>
    ensures { result ≡ column_at orders.now }
{
    match orders {
        [Order::Const(word), ..] => Some(Column::Number(*word)),
        [Order::Home { family, offset }, Order::Load, ..] => Some(Column::Contents(Place::Word {
            family: *family,
            offset: *offset,
        })),
        [Order::FrameHome(offset), Order::Load, ..] => {
            Some(Column::Contents(Place::Frame(*offset)))
        }
        _ => None,
    }
}

/// How far an upper bound is from the lower one.
fn last_of(bounds: Bounds, span: u16) -> u16
    requires { is_within (bounds.upper -ℤ bounds.lower) span ≡ true }
    ensures { pos result ≡ bounds.upper -ℤ bounds.lower }
{
    bounds.upper.abs_diff(bounds.lower)
}

/// Whether the last word, so many rows and words behind the first one, is among so many.
fn last_within(rows: u16, columns: u16, width: u16, span: u16) -> bool
    ensures { result ≡ nat_lt (rows * width + columns) span }
{
    u32::from(rows) * u32::from(width) + u32::from(columns) < u32::from(span)
}

/// Whether all indexes between the bounds name words that are known to be in the data area.
fn row_within(row: Row) -> bool
    ensures { result ≡ row_within row }
{
    let Row {
        rows,
        columns,
        width,
        span,
        ..
    } = row;
    is_within(rows.lower, rows.upper, span)
        && is_within(columns.lower, columns.upper, span)
        && last_within(last_of(rows, span), last_of(columns, span), width, span)
}

fn row_if(here: bool, row: Row) -> Option<Row>
    ensures { result ≡ row_if here row }
{
    if here && row_within(row) {
        Some(row)
    } else {
        None
    }
}

fn same_bound(one: i16, other: i16) -> bool
    ensures { result ≡ same_bound one other }
{
    one == other
}

/// Whether an item begins at the lower bounds.
fn begins_at(rows: Bounds, columns: Bounds, lower: i16, second: i16) -> bool
    ensures { result ≡ (same_bound rows.lower lower && same_bound columns.lower second) }
{
    same_bound(rows.lower, lower) && same_bound(columns.lower, second)
}

/// The item that begins with a word, where an order makes the address of an element of it.
fn item_from(home: Home, order: &Order) -> Option<Item>
    ensures { result ≡ item_from (Some home) (Some order.now) }
{
    match order {
        Order::ElementInside {
            lower,
            second,
            width,
            span,
        } => Some(Item {
            family: home.family,
            first: home.offset,
            lower: *lower,
            second: *second,
            width: *width,
            span: *span,
        }),
        _ => None,
    }
}

/// The item of which the orders at two places make the address of an element.
fn item_at(orders: &[Order], puts: usize, forms: usize) -> Option<Item>
    ensures { result ≡ item_of (slice_get orders.now puts) (slice_get orders.now forms) }
{
    match (home_at(orders, puts), orders.get(forms)) {
        (Some(home), Some(order)) => item_from(home, order),
        _ => None,
    }
}

/// The element of it, whose indexes are compared with bounds.
fn row_of(rows: Bounds, column: Column, columns: Bounds, item: Item) -> Option<Row>
    ensures { result ≡ row_made rows column columns (Some item) }
{
    row_if(
        begins_at(rows, columns, item.lower, item.second),
        Row {
            rows,
            column,
            columns,
            family: item.family,
            first: item.first,
            width: item.width,
            span: item.span,
        },
    )
}

fn row_made(rows: Bounds, column: Column, columns: Bounds, item: Option<Item>) -> Option<Row>
    ensures { result ≡ row_made rows column columns item }
{
    row_of(rows, column, columns, item?)
}

/// The same behind the second index, where its comparison with bounds stands at a place.
fn row_formed(rows: Bounds, column: Column, orders: &[Order], behind: usize) -> Option<Row>
    requires { behind < 8 }
    ensures { result ≡ row_formed rows column (bounds_at (slice_get orders.now behind))
        (slice_get orders.now (behind + 1)) (slice_get orders.now (behind + 2)) (slice_get orders.now (behind + 3)) }
{
    let columns = bounds_at(orders, behind)?;
    if is_save(orders, behind + 1) {
        row_made(
            rows,
            column,
            columns,
            item_at(orders, behind + 2, behind + 3),
        )
    } else {
        None
    }
}

/// The same with the orders that put the second index.
fn row_behind(rows: Bounds, orders: &[Order]) -> Option<Row>
    ensures { result ≡ row_behind rows (column_at orders.now) orders.now }
{
    let column = column_at(orders)?;
    row_formed(rows, column, orders, orders_of_column(column))
}

/// The same with a `Save` before them.
fn row_saved(rows: Bounds, orders: &[Order]) -> Option<Row>
    ensures { result ≡ row_saved rows orders.now }
{
    match orders {
        [Order::Save, rest @ ..] => row_behind(rows, rest),
        _ => None,
    }
}

/// The same behind the comparison of the first index with bounds, where there is one.
fn row_from(rows: Option<Bounds>, orders: &[Order]) -> Option<Row>
    ensures { result ≡ row_from rows orders.now }
{
    row_saved(rows?, orders)
}

/// The element whose address these orders make, the first of which compares its first index with bounds.
pub(crate) fn row_at(orders: &[Order]) -> Option<Row>
    ensures { result ≡ row_at orders.now }
{
    match orders {
        [_, saved @ ..] => row_from(bounds_at(orders, 0), saved),
        _ => None,
    }
}
