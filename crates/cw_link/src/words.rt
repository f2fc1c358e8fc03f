//! The words that the data area begins with.
ghost use Rattle.std.specs.Prelude.{◌≡◌, ◌≤◌, ◌<◌, List, length, IfOk};
ghost use Rattle.cw_link.specs.Presets.{FilledWord, first_at};
ghost use Rattle.cw_link.specs.Filled.{HasFilled};
ghost use Rattle.cw_link.specs.LinkedImage.{word_or_zero, words_from, without_last_zeros};

use crate::filled::Filled;
use cw_word::{List as Items, NoMemory};
use std::alloc::Global;

fn word_at(filled: &Filled, address: usize) -> u16
    requires { address < length filled.now.words.items }
    ensures { (ps : List FilledWord) → HasFilled ps filled.now → result ≡ word_or_zero (first_at address ps) }
{
    match filled.words[address] {
        Some((_, word)) => word,
        None => 0,
    }
}

// How many words there are up to the last that is not 0.
fn used_words(filled: &Filled, area: usize) -> usize
    requires { area ≤ length filled.now.words.items }
    ensures within { result ≤ area }
    ensures used { (ps : List FilledWord) → HasFilled ps filled.now → without_last_zeros (words_from 0 area ps) ≡ words_from 0 result ps }
{
    for n in (0..area).rev() {
        if word_at(filled, n) != 0 {
            return n + 1;
        }
    }
    0
}

/// The words of a data area of so many words, up to the last that is not 0.
pub(crate) fn data_words(
    alloc: Global,
    filled: &Filled,
    area: usize,
) -> Result<Items<u16>, NoMemory>
    requires { area ≤ length filled.now.words.items }
    ensures { IfOk result (λ words. (ps : List FilledWord) → HasFilled ps filled.now → words ≡ without_last_zeros (words_from 0 area ps)) }
{
    let mut words = Items::new(alloc);
    let used = used_words(filled, area);
    for n in 0..used {
        words.push(word_at(filled, n))?;
    }
    Ok(words)
}
