// The words that watched names mean.
ghost use Rattle.std.specs.Prelude.{◌≡◌, ◌≤◌, IfOk, IsTrue, All, MatchOption, ◌↔◌, ◌<◌, ⊤};
ghost use Rattle.cw_watch.specs.Watching.{item_at, watched_address, word_in_item, AnswersWords};

use crate::fault::WatchFault;
use crate::lines::ItemLine;
use cw_stop::Watched;
use cw_trace::WatchedWord;
use cw_word::{List, NoMemory};
use std::alloc::Global;

// Whether an address is below that of the item found so far, or none was found.
fn is_lower(address: u32, found: Option<(u32, u32)>) -> bool
    ensures { IsTrue result ↔ MatchOption found ⊤ (λ place. address < place.0) }
{
    match found {
        Some((lowest, _)) => address < lowest,
        None => true,
    }
}

// Where the item stands that a text names, and its words.
fn item_at(lines: &[ItemLine], text: &[u8]) -> Option<(u32, u32)>
    ensures { result ≡ item_at text.now lines.now }
{
    let mut found = None;
    for line in lines {
        if line.text.as_slice() == text && is_lower(line.address, found) {
            found = Some((line.address, line.words));
        }
    }
    found
}

// The address of a word of an item.
fn word_in_item(area: u32, number: u32, item: Option<(u32, u32)>) -> Option<u32>
    ensures { result ≡ word_in_item area number item }
{
    let (address, words) = item?;
    if number < words && u64::from(address) + u64::from(number) < u64::from(area) {
        Some(address + number)
    } else {
        None
    }
}

// The address that a watched name means, if it means one.
fn watched_address(lines: &[ItemLine], area: u32, watched: &Watched) -> Option<u32>
    ensures { result ≡ watched_address lines.now area watched.now }
{
    word_in_item(area, watched.word, item_at(lines, watched.text.as_slice()))
}

fn copy(alloc: Global, text: &[u8]) -> Result<List<u8>, NoMemory>
    ensures { IfOk result (λ copy. copy ≡ text.now) }
{
    match Vec::from_slice(alloc, text) {
        Ok(copy) => Ok(List::of(copy)),
        Err(_) => Err(NoMemory),
    }
}

/// The words that all of them mean, or the first that means none.
pub(crate) fn watched_words(
    alloc: Global,
    lines: &[ItemLine],
    area: u32,
    watched: &[Watched],
) -> Result<List<WatchedWord>, WatchFault>
    requires { area ≤ 32768 }
    ensures answers { AnswersWords lines.now area watched.now result }
    ensures within { IfOk result (λ words. All (λ word. word.address < area) words) }
{
    let mut words = List::new(alloc);
    for k in 0..watched.len() {
        let name = &watched[k];
        let Some(address) = watched_address(lines, area, name) else {
            return Err(WatchFault::NoItem {
                index: k.min(65535) as u16,
            });
        };
        let text = copy(alloc, name.text.as_slice())?;
        words.push(WatchedWord {
            text,
            address: address as u16,
        })?;
    }
    Ok(words)
}
