//! Where segments agree.
ghost use Rattle.std.specs.Prelude.{◌≡◌, [], slice_get, IfOk, OnOk};
ghost use Rattle.cw_comm.specs.Agreement.{first_twice, names_with, listed_names, place_of, places_in, all_places};
ghost use Rattle.cw_comm.specs.Numbered.{AreNumbered};

use crate::face::Face;
use cw_unit::descriptor::Desc;
use cw_word::{List, Name, NoMemory};
use indexmap::IndexSet;
use std::alloc::Global;

/// The name that two segments have.
pub(crate) fn segment_twice(alloc: Global, segments: &[Face]) -> Result<Option<Name>, NoMemory>
    ensures { IfOk result (λ name. name ≡ first_twice [] segments.now) }
{
    let mut seen = IndexSet::new(alloc);
    for segment in segments {
        match seen.insert_full(segment.name) {
            Ok((_, is_new)) => {
                if !is_new {
                    return Ok(Some(segment.name));
                }
            }
            Err(_) => return Err(NoMemory),
        }
    }
    Ok(None)
}

fn add_names(names: &mut IndexSet<Name>, descriptors: &[Desc]) -> Result<(), NoMemory>
    ensures { OnOk result (names.new.keys ≡ names_with names.old.keys descriptors.now) }
{
    for descriptor in descriptors {
        match names.insert_full(descriptor.name) {
            Ok(_place) => {}
            Err(_) => return Err(NoMemory),
        }
    }
    Ok(())
}

// The names that segments list, in order of the first listing.
fn number_names(alloc: Global, segments: &[Face]) -> Result<IndexSet<Name>, NoMemory>
    ensures { IfOk result (λ names. names.keys ≡ listed_names segments.now) }
{
    let mut names = IndexSet::new(alloc);
    for segment in segments {
        add_names(&mut names, segment.descs.as_slice())?;
    }
    Ok(names)
}

// The place of a name among these.
fn place_of(names: &IndexSet<Name>, name: Name) -> usize
    ensures { result ≡ place_of names.now.keys name }
{
    match names.get_index_of(&name) {
        Some(place) => place,
        None => names.len(),
    }
}

// The numbers of the names of descriptors.
fn numbers_in(
    alloc: Global,
    names: &IndexSet<Name>,
    descriptors: &[Desc],
) -> Result<List<usize>, NoMemory>
    ensures { IfOk result (λ numbers. numbers ≡ places_in names.now.keys descriptors.now) }
{
    let mut numbers = List::new(alloc);
    for descriptor in descriptors {
        numbers.push(place_of(names, descriptor.name))?;
    }
    Ok(numbers)
}

fn all_numbers(
    alloc: Global,
    names: &IndexSet<Name>,
    segments: &[Face],
) -> Result<List<List<usize>>, NoMemory>
    ensures { IfOk result (λ numbers. numbers ≡ all_places names.now.keys segments.now) }
{
    let mut numbers = List::new(alloc);
    for segment in segments {
        numbers.push(numbers_in(alloc, names, segment.descs.as_slice())?)?;
    }
    Ok(numbers)
}

fn name_at(names: &IndexSet<Name>, number: usize) -> Option<Name>
    ensures { result ≡ slice_get names.now.keys number }
{
    names.get_index(number).copied()
}

fn in_order(alloc: Global, names: &IndexSet<Name>) -> Result<List<Name>, NoMemory>
    ensures { IfOk result (λ list. list ≡ names.now.keys) }
{
    let mut list = List::new(alloc);
    for n in 0..names.len() {
        if let Some(name) = name_at(names, n) {
            list.push(name)?;
        }
    }
    Ok(list)
}

/// The names that segments list, in order of the first listing, and for each descriptor the number of its name.
pub(crate) fn numbered(
    alloc: Global,
    segments: &[Face],
) -> Result<(List<Name>, List<List<usize>>), NoMemory>
    ensures { IfOk result (λ made. AreNumbered segments.now made.0 made.1) }
{
    let set = number_names(alloc, segments)?;
    let names = in_order(alloc, &set)?;
    let numbers = all_numbers(alloc, &set, segments)?;
    Ok((names, numbers))
}
