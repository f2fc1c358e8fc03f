//! Blocks: orders that have one piece of code together. The orders before the last only save the top operand, put a word, or make
//! the address of an element; the code leaves the one where it is, and takes the other from its instruction or from memory.
ghost use Rattle.std.specs.Prelude.{◌≡◌, ◌<◌, length, drop};
ghost use Rattle.cw_tmpl.specs.Blocks.{address_orders, element_orders, NamesParts, block_at, orders_left};

use crate::finding::block_at;
use crate::rows::{Row, orders_to_row};
use cw_order::{Comparator, Order, Place};

/// How it is found out whether there is an element.
#[derive(Clone, Copy)]
pub enum Test {
    /// Its address is compared with the length of the data area. `zero` is the offset in the family of the word that index 0 names.
    Address { zero: u16 },
    /// The index is compared with its bounds, between which the words are known to be in the data area; elsewhere it stops with Bounds at
    /// this line.
    Bounds { upper: i16, line: u16 },
}

/// Bounds that an index is compared with, at a line.
#[derive(Clone, Copy)]
pub struct Bounds {
    pub lower: i16,
    pub upper: i16,
    pub line: u16,
}

/// An element of an item whose first word stands in a storage family: its index stands at a place and counts from `lower`, and
/// so many words from the first one on are in the data area (`span`). Where its address is that of no word, it stops at its line.
#[derive(Clone, Copy)]
pub struct Element {
    pub index: Place,
    pub family: u16,
    pub first: u16,
    pub lower: i16,
    pub span: u16,
    pub line: u16,
    pub test: Test,
}

/// What is formed of an index that has been compared with bounds: so many words from the first one on are in the data area (`span`).
#[derive(Clone, Copy)]
pub enum Form {
    /// The address of an element, which counts from the lower bound.
    Element {
        span: u16,
        line: u16,
    },
    /// That of a word of an entry of so many words, counted from 0.
    Entry {
        width: u16,
        word: u16,
        span: u16,
        line: u16,
    },
}

/// An address that is formed of an index behind its bounds, between which the words are known to be in the data area: its item begins
/// with a word of a storage family.
#[derive(Clone, Copy)]
pub struct Bounded {
    pub bounds: Bounds,
    pub family: u16,
    pub first: u16,
    pub form: Form,
}

/// An operand that an instruction names.
#[derive(Clone, Copy)]
pub enum Simple {
    Number(u16),
    Contents(Place),
    /// The word of an element.
    Element(Element),
}

/// What is done with the operand below and a simple one on top; a sum, a difference or a product that does not fit stops at its
/// line.
#[derive(Clone, Copy)]
pub enum Use {
    Add(u16),
    Subtract(u16),
    /// At no other scale.
    Multiply(u16),
    /// The bits that both have, that either has, and that one of them has.
    Mask,
    Union,
    Differ,
    /// A jump to a mark where the comparison holds.
    Compare { comparator: Comparator, mark: u32 },
}

/// How an order stands in its block.
#[derive(Clone, Copy)]
pub enum Block {
    /// In a block that has begun, and so many follow in it.
    Within(u8),
    /// Alone.
    Single,
    /// First of those that put the word at a place.
    Fetch(Place),
    /// First of those that store the top operand at a place.
    Assign(Place),
    /// First of two: the top operand is written.
    Write,
    /// First of three: the top operand is divided by a number from 2 to 32,767, at no other scale.
    Divide {
        by: u16,
        line: u16,
    },
    /// First of those that save the top operand, put a simple one and use both.
    Operate {
        operand: Simple,
        with: Use,
    },
    /// First of those that put a part of the word at a place: `t` bits from bit `b` on.
    FetchPart {
        place: Place,
        t: u8,
        b: u8,
        signed: bool,
    },
    /// First of those that store the top operand in such a part.
    AssignPart {
        place: Place,
        t: u8,
        b: u8,
    },
    /// First of those that put the word of an element.
    FetchElement(Element),
    /// First of those that store the top operand in an element.
    AssignElement(Element),
    /// First of three: one more, or less, than the top operand.
    Count {
        down: bool,
        line: u16,
    },
    /// First of three: the top operand times a power of two, taken down by so many more `places`.
    Halve {
        word: u16,
        power: i8,
        places: u8,
        line: u16,
    },
    /// First of four: the top operand is compared with bounds, and an address is formed of it.
    Bounded(Bounded),
    /// First of seven or eight: the top operand is compared with bounds, a second index is put and compared, and an address is formed of both.
    Row(Row),
    /// First of five that put two words of the frame.
    FetchBoth {
        first: u16,
        second: u16,
    },
    /// First of five: a word of the frame is compared with a number, with a jump to a mark where the comparison holds.
    CompareWord {
        offset: u16,
        with: u16,
        comparator: Comparator,
        mark: u32,
    },
}

/// How many orders put the address of a place.
pub(crate) fn orders_of_address(place: Place) -> usize
    ensures { result ≡ length (address_orders place) }
{
    match place {
        Place::Word { .. } | Place::Frame(_) => 1,
    }
}

/// How many orders make the address of an element.
pub(crate) fn orders_of_element(element: Element) -> usize
    ensures { result ≡ length (element_orders element) }
{
    let tested = match element.test {
        Test::Address { .. } => 0,
        Test::Bounds { .. } => 1,
    };
    orders_of_address(element.index) + 4 + tested
}

/// How the order at a place stands.
pub fn block_in(left: u8, orders: &[Order], place: usize) -> Block
    requires { place < length orders.now }
    ensures value { result ≡ block_at left (drop place orders.now) }
    ensures parts { NamesParts result }
{
    block_at(left, &orders[place..])
}

/// How many orders follow in the block.
pub fn orders_left(block: Block) -> u8
    ensures { result ≡ orders_left block }
{
    match block {
        Block::Within(left) => left,
        Block::Single => 0,
        Block::Write => 1,
        Block::Divide { .. } => 2,
        Block::Count { .. } | Block::Halve { .. } => 2,
        Block::Bounded(_) => 3,
        Block::Row(row) => orders_to_row(row) as u8,
        Block::FetchBoth { .. } | Block::CompareWord { .. } => 4,
        Block::Fetch(place) | Block::FetchPart { place, .. } => orders_of_address(place) as u8,
        Block::Assign(place) | Block::AssignPart { place, .. } => {
            orders_of_address(place) as u8 + 1
        }
        Block::FetchElement(element) => orders_of_element(element) as u8,
        Block::AssignElement(element) => orders_of_element(element) as u8 + 1,
        Block::Operate {
            operand: Simple::Element(element),
            ..
        } => orders_of_element(element) as u8 + 2,
        Block::Operate {
            operand: Simple::Number(_),
            ..
        } => 2,
        Block::Operate {
            operand: Simple::Contents(place),
            ..
        } => orders_of_address(place) as u8 + 2,
    }
}
