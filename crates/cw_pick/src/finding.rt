//! The members that objects need.
ghost use Rattle.std.specs.Prelude.{◌≡◌, ◌<◌, ◌^◌, ℕ, [], false, length, slice_index_or, All, IfOk};
ghost use Rattle.cw_view.specs.ObjectFormat.{IsObject};
ghost use Rattle.cw_comm.specs.Agreement.{Name as NameSpelled};
ghost use Rattle.cw_pick.specs.declared.marking.Work.{Work as WorkSoFar};
ghost use Rattle.cw_pick.specs.Picking.{is_in, is_picked_for, IsLeast, numbers_below};
ghost use Rattle.cw_pick.specs.Selection.{IsSelection};
ghost use Rattle.cw_pick.specs.Working.{definers, is_picked, HasLists, Keeps};

use crate::following::{State, follow, start};
use crate::index::{Index, indexed};
use crate::marking::Work;
use crate::offer::Offer;
use crate::reading::offers_of;
use crate::settling::settled;
use cw_word::{List, NoMemory};
use std::alloc::Global;

// The members that define each name which no given object defines.
fn index_of(alloc: Global, given: &[Offer], members: &[Offer]) -> Result<Index, NoMemory>
    ensures lists { IfOk result HasLists }
    ensures told { IfOk result (λ index. (name : NameSpelled) (k : ℕ) → is_in (definers index name) k ≡ is_picked_for given.now members.now name k) }
{
    let settled = settled(alloc, given)?;
    indexed(alloc, &settled, members)
}

// No name has been asked for.
fn none_asked(alloc: Global, index: &Index) -> Result<Vec<bool>, NoMemory>
    ensures { IfOk result (λ asked. (work : WorkSoFar) → Keeps index.now asked.items work) }
{
    vec![in alloc; false; index.names.len()].map_err(|_| NoMemory)
}

// Of so many members none is picked.
fn none_picked(alloc: Global, members: usize) -> Result<Work, NoMemory>
    ensures count { IfOk result (λ work. length work.picked.items ≡ members) }
    ensures none { IfOk result (λ work. (k : ℕ) → is_picked work k ≡ false) }
    ensures todo { IfOk result (λ work. work.todo.items ≡ []) }
{
    let picked = vec![in alloc; false; members].map_err(|_| NoMemory)?;
    Ok(Work {
        picked,
        todo: Vec::new(alloc),
    })
}

// Whether each member is picked.
fn picked(alloc: Global, given: &[Offer], members: &[Offer]) -> Result<Vec<bool>, NoMemory>
    ensures count { IfOk result (λ picked. length picked.items ≡ length members.now) }
    ensures least { IfOk result (λ picked. IsLeast given.now members.now (λ k. slice_index_or picked.items k false)) }
{
    let index = index_of(alloc, given, members)?;
    let asked = none_asked(alloc, &index)?;
    let work = none_picked(alloc, members.len())?;
    let mut state = State { asked, work };
    start(&index, &mut state, given)?;
    follow(&index, &mut state, members)?;
    let State { asked: _, work } = state;
    let Work { picked, todo: _ } = work;
    Ok(picked)
}

// The numbers of the members that are picked.
fn numbers(alloc: Global, picked: &[bool]) -> Result<List<u32>, NoMemory>
    requires { length picked.now < 2 ^ 32 }
    ensures { IfOk result (λ numbers. numbers ≡ numbers_below (λ k. slice_index_or picked.now k false) (length picked.now)) }
{
    let mut numbers = List::new(alloc);
    for k in 0..picked.len() {
        if picked[k] {
            numbers.push(k as u32)?;
        }
    }
    Ok(numbers)
}

/// The members of libraries that these objects need, by rising number from 0: the least set that has each member which
/// defines a label, switch or procedure that one of the objects or a member in the set lists and that none of the objects
/// defines. The time is near linear in the number of descriptors and definitions.
pub fn pick(alloc: Global, given: &[List<u8>], members: &[List<u8>]) -> Result<List<u32>, NoMemory>
    requires given { All IsObject given.now }
    requires members { All IsObject members.now }
    requires numbered { length members.now < 2 ^ 32 }
    ensures { IfOk result (λ picked. IsSelection given.now members.now picked) }
{
    let needs = offers_of(alloc, given)?;
    let offers = offers_of(alloc, members)?;
    let picked = picked(alloc, needs.as_slice(), offers.as_slice())?;
    numbers(alloc, picked.as_slice())
}
