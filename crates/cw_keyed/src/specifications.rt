//! The table of specifications.
ghost use Rattle.std.specs.Prelude.{◌≡◌, Some, OnOk, IfOk};
ghost use Rattle.cw_keyed.specs.Spelling.{spelled, spec_of};
ghost use Rattle.cw_keyed.specs.Numbered.{count, number_of, Keeps};

use crate::key::Key;
use crate::spelling::{add_procedure, add_spec};
use cw_unit::descriptor::Spec;
use cw_unit::unit::Proc;
use cw_word::{List, NoMemory};
use indexmap::IndexSet;
use std::alloc::Global;

/// Specifications with numbers from 0, in the order in which they were first asked for. Look-ups take their memory where the table does.
#[derive(Drop)]
pub struct Specifications {
    keys: IndexSet<Key>,
}

fn key_of(alloc: Global, spec: &Spec) -> Result<Key, NoMemory>
    ensures { IfOk result (λ key. key.numbers ≡ spelled spec.now) }
{
    let mut numbers = List::new(alloc);
    add_spec(&mut numbers, spec)?;
    Ok(Key { numbers })
}

fn key_of_procedure(alloc: Global, procedure: &Proc) -> Result<Key, NoMemory>
    ensures { IfOk result (λ key. key.numbers ≡ spelled (spec_of procedure.now)) }
{
    let mut numbers = List::new(alloc);
    add_procedure(&mut numbers, procedure)?;
    Ok(Key { numbers })
}

impl Specifications {
    /// No specifications.
    pub fn new(alloc: Global) -> Specifications
        ensures { count result ≡ 0 }
    {
        Specifications {
            keys: IndexSet::new(alloc),
        }
    }

    /// How many there are.
    pub fn count(&self) -> usize
        ensures { result ≡ count self.now }
    {
        self.keys.len()
    }

    /// The number of a specification, which gets the next one if it has none.
    pub fn number(&mut self, spec: &Spec) -> Result<usize, NoMemory>
        ensures number { IfOk result (λ n. number_of self.new spec.now ≡ Some n) }
        ensures keeps { OnOk result (Keeps self.old self.new) }
    {
        let key = key_of(*self.keys.allocator(), spec)?;
        let (number, _) = self.keys.insert_full(key).map_err(|_| NoMemory)?;
        Ok(number)
    }

    /// The number of the specification that a procedure has, if it has one.
    pub fn find(&self, procedure: &Proc) -> Result<Option<usize>, NoMemory>
        ensures { IfOk result (λ n. n ≡ number_of self.now (spec_of procedure.now)) }
    {
        let key = key_of_procedure(*self.keys.allocator(), procedure)?;
        Ok(self.keys.get_index_of(&key))
    }
}
