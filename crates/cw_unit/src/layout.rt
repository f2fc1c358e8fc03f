//! The storage of units: what the layout of a unit, an object and the storage map tell of it.
use crate::unit::ItemKind;
use cw_word::List;

/// The storage of a unit: its families in order of their first item, for each item its family and the offset there, for
/// each procedure the words of its frame, and the preset words in order of the text.
#[derive(Drop)]
pub struct Layout {
    pub families: List<Family>,
    pub homes: List<(u16, u16)>,
    pub frames: List<u16>,
    pub words: List<Preset>,
}

/// A storage family: an item together with all that are overlaid on it. `extent` is how many words it takes.
#[derive(Clone, Copy, PartialEq, Eq)]
pub struct Family {
    pub sort: Sort,
    pub extent: u32,
}

/// What decides where a family stands: the name of a descriptor, the storage map alone, an address, or its offset in the
/// frame of a procedure.
#[derive(Clone, Copy, PartialEq, Eq)]
pub enum Sort {
    Common(u16),
    Own,
    Absolute(u16),
    Frame(u16),
}

/// A word that holds a value at the start.
#[derive(Clone, Copy, PartialEq, Eq)]
pub struct Preset {
    pub family: u16,
    pub offset: u16,
    pub word: u16,
}

/// The storage map of a list of segments: for each the addresses of its families, a frame family's being its offset in
/// the frame, and the end of the last family placed.
#[derive(Drop)]
pub struct Map {
    pub homes: List<List<u16>>,
    pub end: u32,
}

/// The limits of a run: the words of the data area, 1 to 32,768, those of the frame area at its end, and the calls that
/// may be active at once, 1 to 4,096.
#[derive(Clone, Copy)]
pub struct Limits {
    pub area: u32,
    pub frames: u32,
    pub depth: u16,
}

/// A word of an object's code that the linker fills: its place, what is put there (1 to 9) and of which index, and what
/// is added.
#[derive(Clone, Copy)]
pub struct Reloc {
    pub place: u32,
    pub sort: u8,
    pub index: u16,
    pub add: u16,
}

/// Of a segment's body: its entry in the code, the words of its control stack record, and the tokens of its text.
#[derive(Clone, Copy)]
pub struct Body {
    pub entry: u32,
    pub need: u16,
    pub tokens: u32,
}

/// An item as an object tells it: its owner's name, empty for the segment, its own name, empty where it has none, its line,
/// whether it is an item of a COMMON list, and its place and length.
#[derive(Clone, Copy)]
pub struct ItemView<'a> {
    pub owner: &'a [u8],
    pub name: &'a [u8],
    pub line: u16,
    pub kind: ItemKind,
    pub common: bool,
    pub family: u16,
    pub offset: u16,
    pub words: u32,
}
