//! Descriptors: what a segment's COMMON, LIBRARY and ABSOLUTE lists say of the names that segments share.
use cw_word::{List, Name};

/// The scale FIXED(t, f) of a word, t from 1 to 16 and f from 0 to 15: the word w stands for w / 2^f. INTEGER is FIXED(16, 0).
/// A whole word holds 16 bits whatever t is; t is compared where two scales have to be the same.
#[derive(Clone, Copy, PartialEq, Eq)]
pub struct Scale {
    pub t: u8,
    pub f: u8,
}

/// One name of the COMMON or LIBRARY lists of a segment.
#[derive(Drop)]
pub struct Desc {
    pub name: Name,
    /// Listed in LIBRARY, else in COMMON.
    pub library: bool,
    /// An overlay's base, as the number of its descriptor, and the word of the base at which the overlay begins.
    pub over: Option<(u16, u16)>,
    pub body: DescBody,
}

/// What a listed name stands for.
#[derive(Drop)]
pub enum DescBody {
    Word(Scale),
    /// One or two dimensions, each with its lower and upper bound.
    Array {
        scale: Scale,
        dims: List<(i16, i16)>,
    },
    /// `length` entries of `width` words.
    Table {
        width: u16,
        length: u16,
        elems: List<ElemDesc>,
    },
    Label,
    Switch,
    Proc(Spec),
}

/// An element of a table.
#[derive(Clone, Copy, PartialEq, Eq)]
pub struct ElemDesc {
    pub name: Name,
    /// 0 a whole word, 1 a signed part of a word, 2 an unsigned part.
    pub form: u8,
    /// The scale of its value.
    pub t: u8,
    pub f: u8,
    /// Its word in the entry, and for a part the least significant of its t bits.
    pub word: u16,
    pub bit: u8,
}

/// A procedure's specification: the scale of its answer, where it has one, and its parameters.
#[cycle(spec)]
#[derive(Drop)]
pub struct Spec {
    pub answer: Option<Scale>,
    pub params: List<SpecParam>,
}

/// What a parameter takes. A table is known by its width. The specification in `Proc` has no parameter `Proc`.
#[cycle(spec)]
#[derive(Drop)]
pub enum SpecParam {
    Value(Scale),
    Location(Scale),
    Array(Scale),
    Table(u16),
    Label,
    Switch,
    Proc(Spec),
}
