//! The first definitions of names.
ghost use Rattle.std.specs.Prelude.{◌≡◌, OnOk, IfOk};
ghost use Rattle.cw_unit.specs.Program.{name_of};
ghost use Rattle.cw_unit.specs.Step.{procedure_of_def};
ghost use Rattle.cw_named.specs.Spelled.{spelled};
ghost use Rattle.cw_named.specs.Meanings.{NotesFirst, NotesUnit, IsTableOf, place_of};

use crate::key::Key;
use cw_unit::unit::{Def, Unit};
use cw_word::{Name, NoMemory};
use indexmap::IndexMap;
use std::alloc::Global;

/// For each name that units define the segment of the first definition, from 0, and that definition.
#[derive(Drop)]
pub struct Definitions {
    first: IndexMap<Key, (usize, Def)>,
}

// The name of a descriptor, if there is such a descriptor.
fn name_of(unit: &Unit, descriptor: u16) -> Option<Name>
    ensures { spelled result ≡ name_of unit.now descriptor }
{
    match unit.descs.as_slice().get(descriptor as usize) {
        Some(found) => Some(found.name),
        None => None,
    }
}

// Notes a definition of a name that has none yet.
fn note_first(
    first: &mut IndexMap<Key, (usize, Def)>,
    name: Option<Name>,
    place: (usize, Def),
) -> Result<(), NoMemory>
    ensures { OnOk result (NotesFirst first.old first.new (spelled name) place) }
{
    let key = Key { name };
    if first.get(&key).is_some() {
        return Ok(());
    }
    match first.insert(key, place) {
        Ok(_) => Ok(()),
        Err(_) => Err(NoMemory),
    }
}

fn note_unit(
    first: &mut IndexMap<Key, (usize, Def)>,
    segment: usize,
    unit: &Unit,
) -> Result<(), NoMemory>
    ensures { OnOk result (NotesUnit first.old first.new segment unit.now) }
{
    for (descriptor, definition) in unit.defined.as_slice() {
        note_first(first, name_of(unit, *descriptor), (segment, *definition))?;
    }
    Ok(())
}

impl Definitions {
    /// Those of units in order.
    pub fn new(alloc: Global, units: &[Unit]) -> Result<Definitions, NoMemory>
        ensures { IfOk result (IsTableOf units.now) }
    {
        let mut first = IndexMap::new(alloc);
        for (segment, unit) in units.iter().enumerate() {
            note_unit(&mut first, segment, unit)?;
        }
        Ok(Definitions { first })
    }

    /// The procedure that a descriptor of a unit names.
    pub fn named_by(&self, unit: &Unit, descriptor: u16) -> Option<(usize, u16)>
        ensures { result ≡ procedure_of_def (place_of self.now (name_of unit.now descriptor)) }
    {
        let key = Key {
            name: name_of(unit, descriptor),
        };
        match self.first.get(&key) {
            Some((segment, Def::Proc(number))) => Some((*segment, *number)),
            _ => None,
        }
    }
}
