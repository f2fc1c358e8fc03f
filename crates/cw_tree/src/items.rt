//! Trees of data declarations and presets.
use crate::leaf::{
    Position, RawInt, RawLiteral, RawName, RawNumber, RawOctal, RawSign, RawSint, RawSize, RawType,
};
use cw_word::List;

/// A place of a preset list. A void one has the position of the token before it.
#[derive(Clone, Copy)]
pub enum RawPlace {
    Void(Position),
    Number(Option<RawSign>, RawNumber),
    Octal(Option<RawSign>, RawOctal),
    Literal(Option<RawSign>, RawLiteral),
}

/// The places of a preset list, all its brackets taken away, one at least, with the position of `:=` or PRESET.
#[derive(Drop)]
pub struct RawPresets {
    pub at: Position,
    pub places: List<RawPlace>,
}

/// `sint : sint`.
#[derive(Clone, Copy)]
pub struct RawRange {
    pub lower: RawSint,
    pub upper: RawSint,
}

/// The bounds of an array of one or two dimensions.
#[derive(Clone, Copy)]
pub struct RawBounds {
    pub first: RawRange,
    pub second: Option<RawRange>,
}

/// Arrays with the same bounds.
#[derive(Drop)]
pub struct RawGroup {
    pub names: List<RawName>,
    pub bounds: RawBounds,
}

/// An element of a table: `name type int`, or `name [UNSIGNED] ( int , sint ) int , int`.
#[derive(Clone, Copy)]
pub enum RawElem {
    Word(RawName, RawType, RawInt),
    Part {
        name: RawName,
        unsigned: bool,
        bits: RawInt,
        scale: RawSint,
        word: RawInt,
        bit: RawInt,
    },
}

/// TABLE with its name, its size and its elements.
#[derive(Drop)]
pub struct RawTable {
    pub at: Position,
    pub name: RawName,
    pub size: RawSize,
    pub elems: List<RawElem>,
}

/// Items that are declared. A table has the presets in its brackets before those behind them.
#[derive(Drop)]
pub enum RawData {
    Singles(RawType, List<RawName>, Option<RawPresets>),
    Arrays(RawType, List<RawGroup>, Option<RawPresets>),
    Table(RawTable, Option<RawPresets>, Option<RawPresets>),
}

/// What is overlaid: `name`, `name [ sint ]` or `name [ sint , sint ]`.
#[derive(Clone, Copy)]
pub enum RawBase {
    Name(RawName),
    One(RawName, RawSint),
    Two(RawName, RawSint, RawSint),
}
