//! The members that define a name.
ghost use Rattle.std.specs.Prelude.{◌≡◌, ◌<◌, ◌&&◌, ◌||◌, ◌++◌, ◌∷◌, [], ℕ, length, nat_eq, not, slice_set, slice_index_or, OnOk, IfOk};
ghost use Rattle.std.specs.Str.{bytes_eq};
ghost use Rattle.cw_comm.specs.Agreement.{Name as NameSpelled};
ghost use Rattle.cw_pick.specs.Picking.{is_in, is_among, defines_at};
ghost use Rattle.cw_pick.specs.Working.{IsFirst, HasLists, definers};

use crate::offer::Offer;
use cw_word::{List, Name, NoMemory};
use indexmap::IndexSet;
use std::alloc::Global;

/// Names, and for each the numbers of the members that define it.
#[derive(Drop)]
pub(crate) struct Index {
    pub names: IndexSet<Name>,
    pub definers: Vec<List<usize>>,
}

// One more empty list.
fn add_list(alloc: Global, lists: &mut Vec<List<usize>>) -> Result<(), NoMemory>
    ensures { OnOk result (lists.new.items ≡ lists.old.items ++ [] ∷ []) }
{
    lists.push(List::new(alloc)).map_err(|_| NoMemory)
}

// One more member in the list of a number.
fn add_member(lists: &mut Vec<List<usize>>, n: usize, member: usize) -> Result<(), NoMemory>
    requires { n < length lists.old.items }
    ensures { OnOk result (lists.new.items ≡ slice_set lists.old.items n (slice_index_or lists.old.items n [] ++ member ∷ [])) }
{
    lists[n].push(member)
}

// The number of a name, which is entered where it is new.
fn number_of(alloc: Global, index: &mut Index, name: Name) -> Result<usize, NoMemory>
    requires { HasLists index.old }
    ensures lists { OnOk result (HasLists index.new) }
    ensures same { OnOk result ((other : NameSpelled) → definers index.new other ≡ definers index.old other) }
    ensures first { IfOk result (λ n. IsFirst name index.new.names.keys n) }
{
    match index.names.insert_full(name) {
        Ok((n, is_new)) => {
            if is_new {
                add_list(alloc, &mut index.definers)?;
            }
            Ok(n)
        }
        Err(_) => Err(NoMemory),
    }
}

// Enters a member among those that define a name.
fn enter(alloc: Global, index: &mut Index, name: Name, member: usize) -> Result<(), NoMemory>
    requires { HasLists index.old }
    ensures lists { OnOk result (HasLists index.new) }
    ensures entered { OnOk result ((other : NameSpelled) (k : ℕ)
        → is_in (definers index.new other) k ≡ is_in (definers index.old other) k ||
        (bytes_eq other name && nat_eq k member)) }
{
    let n = number_of(alloc, index, name)?;
    add_member(&mut index.definers, n, member)?;
    Ok(())
}

// Enters what a member defines, without the names that are settled.
fn enter_all(
    alloc: Global,
    index: &mut Index,
    settled: &IndexSet<Name>,
    names: &[Name],
    member: usize,
) -> Result<(), NoMemory>
    requires { HasLists index.old }
    ensures lists { OnOk result (HasLists index.new) }
    ensures entered { OnOk result ((name : NameSpelled) (k : ℕ)
        → is_in (definers index.new name) k ≡ is_in (definers index.old name) k ||
        ((is_among names.now name && not (is_among settled.now.keys name)) && nat_eq k member)) }
{
    for name in names {
        if !settled.contains(name) {
            enter(alloc, index, *name, member)?;
        }
    }
    Ok(())
}

/// The members that define each name which is not settled.
pub(crate) fn indexed(
    alloc: Global,
    settled: &IndexSet<Name>,
    members: &[Offer],
) -> Result<Index, NoMemory>
    ensures lists { IfOk result HasLists }
    ensures entered { IfOk result (λ index. (name : NameSpelled) (k : ℕ)
        → is_in (definers index name) k ≡ defines_at members.now k name && not (is_among settled.now.keys name)) }
{
    let mut index = Index {
        names: IndexSet::new(alloc),
        definers: Vec::new(alloc),
    };
    for k in 0..members.len() {
        enter_all(alloc, &mut index, settled, members[k].defines.as_slice(), k)?;
    }
    Ok(index)
}
