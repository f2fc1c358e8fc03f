//! The list of objects that the files of `link` come to.
ghost use Rattle.std.specs.Prelude.{◌≡◌, ◌<◌, ◌≤◌, ◌++◌, All, length, IfOk, OnOk};
ghost use Rattle.cw_view.specs.ObjectFormat.{IsObject};
ghost use Rattle.cw_link_files.specs.Parts.{or_first, picked_of, IsListOf};
ghost use Rattle.cw_link_files.specs.Taken.{AreObjects};

use crate::reading::LinkFiles;
use cw_pick::pick;
use cw_word::{List, NoMemory};
use std::alloc::Global;

/// A copy of the bytes of an object.
pub(crate) fn copied(alloc: Global, bytes: &[u8]) -> Result<List<u8>, NoMemory>
    ensures { IfOk result (λ copy. copy ≡ bytes.now) }
{
    match bytes.to_vec(alloc) {
        Ok(copy) => Ok(List::of(copy)),
        Err(_) => Err(NoMemory),
    }
}

// The given objects, or the first member where there is none.
fn with_first(
    alloc: Global,
    objects: List<List<u8>>,
    members: &[List<u8>],
) -> Result<List<List<u8>>, NoMemory>
    ensures { IfOk result (λ given. given ≡ or_first objects members.now) }
{
    let mut given = objects;
    if given.as_slice().is_empty() {
        if let Some(first) = members.first() {
            given.push(copied(alloc, first.as_slice())?)?;
        }
    }
    Ok(given)
}

// Adds copies of the members of these numbers.
fn add_picked(
    alloc: Global,
    list: &mut List<List<u8>>,
    members: &[List<u8>],
    picked: &[u32],
) -> Result<(), NoMemory>
    requires { All (λ k. k < length members.now) picked.now }
    ensures { OnOk result (list.new ≡ list.old ++ picked_of members.now picked.now) }
{
    for k in picked {
        list.push(copied(alloc, members[*k as usize].as_slice())?)?;
    }
    Ok(())
}

/// The list of objects that files come to: those that are given, and the members that they need.
pub fn link_list(alloc: Global, files: LinkFiles) -> Result<List<List<u8>>, NoMemory>
    requires { AreObjects files }
    ensures list { IfOk result (λ list. IsListOf files.objects files.members list) }
    ensures objects { IfOk result (λ list. All IsObject list) }
    ensures short { IfOk result (λ list. length list ≤ 40200) }
{
    let LinkFiles { objects, members } = files;
    let mut list = with_first(alloc, objects, members.as_slice())?;
    let picked = pick(alloc, list.as_slice(), members.as_slice())?;
    add_picked(alloc, &mut list, members.as_slice(), picked.as_slice())?;
    Ok(list)
}
