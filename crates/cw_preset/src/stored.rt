//! Words that are stored one after another.
ghost use Rattle.std.specs.Prelude.{◌≡◌, ◌<◌, ◌++◌, ◌∷◌, IfOk, [], nat_eq, length, slice_get, Some};
ghost use Rattle.indexmap.specs.IndexMap.{insert_entry};
ghost use Rattle.cw_preset.specs.Lists.{word_in};

use cw_word::{List, NoMemory};
use indexmap::IndexMap;
use std::alloc::Global;
use std::marker::Model;

/// Words by their offsets, in the order in which they were stored first.
#[derive(Drop)]
pub struct Stored {
    words: IndexMap<u16, u16>,
}

impl Model for Stored {
    ghost use Rattle.cw_preset.specs.Strings.{Words};

    ghost Value = { Words };

    ghost view = { λ s. s.words.entries };
}

impl Stored {
    pub fn new(alloc: Global) -> Stored
        ensures { result ≡ [] }
    {
        Stored {
            words: IndexMap::new(alloc),
        }
    }

    /// The word of an offset, 0 where none is stored yet.
    pub fn at(&self, offset: u16) -> u16
        ensures { result ≡ word_in self.now offset }
    {
        match self.words.get(&offset) {
            Some(word) => *word,
            None => 0,
        }
    }

    /// The same with another word of an offset.
    pub fn with(self, offset: u16, word: u16) -> Result<Stored, NoMemory>
        ensures { IfOk result (λ s. s ≡ insert_entry nat_eq self offset word) }
    {
        let Stored { mut words } = self;
        match words.insert(offset, word) {
            Ok(_) => Ok(Stored { words }),
            Err(_) => Err(NoMemory),
        }
    }

    /// How many words are stored.
    pub fn len(&self) -> usize
        ensures { result ≡ length self.now }
    {
        self.words.len()
    }

    /// A stored word, with its offset.
    pub fn entry(&self, index: usize) -> (u16, u16)
        requires inside { index < length self.now }
        ensures { slice_get self.now index ≡ Some result }
    {
        match self.words.get_index(index) {
            Some((offset, word)) => (*offset, *word),
            None => unreachable!(),
        }
    }
}

/// The words, as a list.
#[tactic(auto, using(crate::proofs::Entries::one_word_more))]
pub fn words_of(alloc: Global, stored: &Stored) -> Result<List<(u16, u16)>, NoMemory>
    ensures { IfOk result (λ all. all ≡ stored.now) }
{
    let mut all = List::new(alloc);
    for index in 0..stored.len() {
        all.push(stored.entry(index))?;
    }
    Ok(all)
}
