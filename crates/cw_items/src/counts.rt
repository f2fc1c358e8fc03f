//! Numbers of words by the tokens to which they belong.
ghost use Rattle.std.specs.Prelude.{◌≡◌, IfOk, OnOk, []};
ghost use Rattle.cw_items.specs.Families.{count_in, with_count};

use cw_word::NoMemory;
use indexmap::IndexMap;
use std::alloc::Global;
use std::marker::Model;

/// A number for each token, 0 for one that has none yet.
#[derive(Drop)]
pub struct Counts {
    counts: IndexMap<u32, u32>,
}

impl Model for Counts {
    ghost use Rattle.cw_items.specs.Families.{Counts as Numbers};

    ghost Value = { Numbers };

    ghost view = { λ c. c.counts.entries };
}

impl Counts {
    pub fn new(alloc: Global) -> Counts
        ensures { result ≡ [] }
    {
        Counts {
            counts: IndexMap::new(alloc),
        }
    }

    /// The number of a token.
    pub fn of(&self, token: u32) -> u32
        ensures { result ≡ count_in self.now token }
    {
        match self.counts.get(&token) {
            Some(count) => *count,
            None => 0,
        }
    }

    /// Another number for a token.
    pub(crate) fn set(&mut self, token: u32, count: u32) -> Result<(), NoMemory>
        ensures { OnOk result (self.new ≡ with_count self.old token count) }
    {
        match self.counts.insert(token, count) {
            Ok(_) => Ok(()),
            Err(_) => Err(NoMemory),
        }
    }

    /// The same with another number for a token.
    pub fn with(self, token: u32, count: u32) -> Result<Counts, NoMemory>
        ensures { IfOk result (λ c. c ≡ with_count self token count) }
    {
        let mut counts = self;
        counts.set(token, count)?;
        Ok(counts)
    }
}
