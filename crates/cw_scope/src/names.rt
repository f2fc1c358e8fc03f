//! The names of one block.
ghost use Rattle.std.specs.Prelude.{◌≡◌, ◌++◌, ◌∷◌, [], OnOk, IfOk, option_copied};
ghost use Rattle.cw_scope.specs.Scope.{declared_in};
ghost use Rattle.cw_scope.specs.Names.{NotesFirst};

use crate::key::Key;
use cw_facts::fact::Declaration;
use cw_word::{List, Name, NoMemory};
use indexmap::IndexMap;
use std::alloc::Global;
use std::marker::Model;

/// The declarations of a block, in order of the text. Of those of one name the first is found.
#[derive(Drop)]
pub struct Names {
    all: List<Declaration>,
    first: IndexMap<Key, usize>,
}

impl Model for Names {
    ghost use Rattle.std.specs.Prelude.{List as Sequence};
    ghost use Rattle.cw_facts.specs.declared.fact.Declaration.{Declaration as Declared};
    ghost use Rattle.cw_scope.specs.Names.{Finds};

    ghost Value = { Sequence Declared };

    ghost view = { λ t. t.all };

    ghost invariant = { λ t. Finds t.first t.all };
}

// Notes a place for a name that has none yet.
fn note_first(first: &mut IndexMap<Key, usize>, key: &Key, at: usize) -> Result<(), NoMemory>
    ensures { OnOk result (NotesFirst first.old first.new key.now at) }
{
    if first.get(key).is_some() {
        return Ok(());
    }
    match first.insert(*key, at) {
        Ok(_) => Ok(()),
        Err(_) => Err(NoMemory),
    }
}

impl Names {
    pub fn new(alloc: Global) -> Names
        ensures { result ≡ [] }
    {
        Names {
            all: List::new(alloc),
            first: IndexMap::new(alloc),
        }
    }

    /// The first declaration of a name.
    pub fn find(&self, name: &Name) -> Option<&Declaration>
        ensures { option_copied result ≡ declared_in self.now name.now }
    {
        let key = Key { name: *name };
        match self.first.get(&key) {
            Some(at) => self.all.as_slice().get(*at),
            None => None,
        }
    }

    /// These declarations and one more.
    pub fn with(self, declaration: &Declaration) -> Result<Names, NoMemory>
        ensures { IfOk result (λ t. t ≡ self ++ declaration.now ∷ []) }
    {
        let Names { mut all, mut first } = self;
        let key = Key {
            name: declaration.name.name,
        };
        note_first(&mut first, &key, all.as_slice().len())?;
        all.push(*declaration)?;
        Ok(Names { all, first })
    }
}
