//! The words of the data area that presets fill.
ghost use Rattle.std.specs.Prelude.{◌≡◌, ◌<◌, ◌++◌, ◌∷◌, [], ℕ, List, length, IfOk};
ghost use Rattle.cw_link.specs.Presets.{FilledWord};
ghost use Rattle.cw_link.specs.Filled.{HasFilled, is_lowest};

use cw_word::NoMemory;
use std::alloc::Global;

/// For each word of the data area the segment, from 1, and the value of its first preset; and the lowest word with
/// presets of different values, with the segment of the first and that of the first other one.
#[derive(Drop)]
pub struct Filled {
    pub words: Vec<Option<(u8, u16)>>,
    pub clash: Option<(u32, u8, u8)>,
}

/// Words that no preset has filled.
pub fn no_words(alloc: Global, area: u32) -> Result<Filled, NoMemory>
    ensures filled { IfOk result (HasFilled []) }
    ensures count { IfOk result (λ filled. length filled.words.items ≡ area) }
{
    let words = vec![in alloc; None; area as usize].map_err(|_| NoMemory)?;
    Ok(Filled { words, clash: None })
}

// Whether the word stands before each that has presets of different values.
fn is_lowest(clash: Option<(u32, u8, u8)>, address: u32) -> bool
    ensures { result ≡ is_lowest clash address }
{
    match clash {
        None => true,
        Some((lowest, _, _)) => address < lowest,
    }
}

/// Fills a word. The first value stays.
pub fn fill_word(filled: &mut Filled, segment: u8, address: u32, word: u16)
    requires { address < length filled.old.words.items }
    ensures filled { (ps : List FilledWord) → HasFilled ps filled.old
        → HasFilled (ps ++ record { segment = segment; address = address; word = word } ∷ []) filled.new }
    ensures count { length filled.new.words.items ≡ length filled.old.words.items }
{
    match filled.words[address as usize] {
        None => filled.words[address as usize] = Some((segment, word)),
        Some((first, value)) => {
            if value != word && is_lowest(filled.clash, address) {
                filled.clash = Some((address, first, segment));
            }
        }
    }
}
