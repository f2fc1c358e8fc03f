//! Things that are stored.
ghost use Rattle.std.specs.Prelude.{◌≡◌, ◌≤◌};
ghost use Rattle.cw_items.specs.Things.{capped, is_fixed};

use cw_tree::leaf::Position;

/// The procedure to which something belongs, by the token of its name, and whether it is RECURSIVE.
#[derive(Clone, Copy)]
pub struct Owner {
    pub token: u32,
    pub recursive: bool,
}

/// What something is overlaid on, by the token of the name in its declaration, and the word of it at which the overlay begins.
#[derive(Clone, Copy)]
pub struct Base {
    pub token: u32,
    pub word: u32,
}

#[derive(Clone, Copy)]
pub enum Sort {
    /// A declared item, or a parameter that has a word.
    Named,
    /// A string.
    Text,
    /// The words of a FOR.
    Loop,
}

/// Something that is stored: its name, its FOR or its string stands at a position. More than 32,768 words count as 32,769.
#[derive(Clone, Copy)]
pub struct Thing {
    pub sort: Sort,
    pub at: Position,
    pub owner: Option<Owner>,
    pub base: Option<Base>,
    pub words: u32,
}

/// A number of words, of which those above 32,769 are not counted.
pub fn capped(words: u64) -> u32
    ensures value { result ≡ capped words }
    ensures fits { result ≤ 32769 }
{
    if words <= 32768 { words as u32 } else { 32769 }
}

/// Whether something is in a frame of its procedure, unless it is overlaid on something that is not.
pub(crate) fn is_fixed(sort: &Sort) -> bool
    ensures { result ≡ is_fixed sort.now }
{
    match sort {
        Sort::Text => true,
        _ => false,
    }
}
