//! What a line of the storage map tells of an item.
use cw_unit::unit::ItemKind;
use cw_word::Name;

/// An item of the storage map, whether a unit tells it or an object.
#[derive(Clone, Copy)]
pub struct Row {
    pub segment: Name,
    /// The procedure to which it belongs, if any.
    pub procedure: Option<Name>,
    /// None for strings and loops, which go by their line.
    pub name: Option<Name>,
    pub line: u16,
    pub kind: ItemKind,
    /// An item of a COMMON list.
    pub common: bool,
    /// Its address is its offset in a frame.
    pub frame: bool,
    pub address: u32,
    pub words: u32,
}
