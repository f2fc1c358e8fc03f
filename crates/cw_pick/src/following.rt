//! Picking members until nothing more is wanted.
ghost use Rattle.std.specs.Prelude.{◌<◌, [], length, slice_index_or, OnOk};
ghost use Rattle.std.specs.List.{list_any};
ghost use Rattle.cw_pick.specs.Picking.{is_in, lists_at};
ghost use Rattle.cw_pick.specs.Working.{definers, is_asked, HasLists, Marks, Keeps, IsFresh, Closes};

use crate::index::Index;
use crate::marking::{Work, mark_all};
use crate::offer::Offer;
use cw_word::{Name, NoMemory};

/// Which names were asked for, by their numbers, and which members are picked.
#[derive(Drop)]
pub(crate) struct State {
    pub asked: Vec<bool>,
    pub work: Work,
}

// Picks the members that define the name of a number, unless it was asked for before.
fn ask(index: &Index, state: &mut State, number: usize) -> Result<(), NoMemory>
    requires lists { HasLists index.now }
    requires number { number < length index.now.names.keys }
    requires keeps { Keeps index.now state.old.asked.items state.old.work }
    ensures keeps { OnOk result (Keeps index.now state.new.asked.items state.new.work) }
    ensures marks { OnOk result (Marks (is_in (slice_index_or index.now.definers.items number [])) state.old.work state.new.work) }
{
    if state.asked[number] {
        return Ok(());
    }
    state.asked[number] = true;
    mark_all(&mut state.work, index.definers[number].as_slice())
}

// Picks the members that define a name.
fn want(index: &Index, state: &mut State, name: Name) -> Result<(), NoMemory>
    requires lists { HasLists index.now }
    requires keeps { Keeps index.now state.old.asked.items state.old.work }
    ensures keeps { OnOk result (Keeps index.now state.new.asked.items state.new.work) }
    ensures marks { OnOk result (Marks (is_in (definers index.now name)) state.old.work state.new.work) }
{
    match index.names.get_index_of(&name) {
        Some(number) => ask(index, state, number),
        None => Ok(()),
    }
}

fn want_all(index: &Index, state: &mut State, names: &[Name]) -> Result<(), NoMemory>
    requires lists { HasLists index.now }
    requires keeps { Keeps index.now state.old.asked.items state.old.work }
    ensures keeps { OnOk result (Keeps index.now state.new.asked.items state.new.work) }
    ensures marks { OnOk result (Marks (is_asked index.now names.now) state.old.work state.new.work) }
{
    for name in names {
        want(index, state, *name)?;
    }
    Ok(())
}

/// Picks what the given objects list.
pub(crate) fn start(index: &Index, state: &mut State, given: &[Offer]) -> Result<(), NoMemory>
    requires lists { HasLists index.now }
    requires keeps { Keeps index.now state.old.asked.items state.old.work }
    ensures keeps { OnOk result (Keeps index.now state.new.asked.items state.new.work) }
    ensures marks { OnOk result (Marks (λ k. list_any (λ o. is_asked index.now o.lists k) given.now) state.old.work state.new.work) }
{
    for offer in given {
        want_all(index, state, offer.lists.as_slice())?;
    }
    Ok(())
}

// Picks what a member lists.
fn want_of(
    index: &Index,
    state: &mut State,
    members: &[Offer],
    member: usize,
) -> Result<(), NoMemory>
    requires lists { HasLists index.now }
    requires keeps { Keeps index.now state.old.asked.items state.old.work }
    ensures keeps { OnOk result (Keeps index.now state.new.asked.items state.new.work) }
    ensures marks { OnOk result (Marks (is_asked index.now (lists_at members.now member)) state.old.work state.new.work) }
{
    match members.get(member) {
        Some(offer) => want_all(index, state, offer.lists.as_slice()),
        None => Ok(()),
    }
}

/// Picks what picked members list, until nothing more is wanted.
pub(crate) fn follow(index: &Index, state: &mut State, members: &[Offer]) -> Result<(), NoMemory>
    requires lists { HasLists index.now }
    requires keeps { Keeps index.now state.old.asked.items state.old.work }
    requires fresh { IsFresh state.old.work }
    ensures { OnOk result (Closes (λ j k. is_asked index.now (lists_at members.now j) k) state.old.work state.new.work) }
{
    while let Some(member) = state.work.todo.pop() {
        want_of(index, state, members, member)?;
    }
    Ok(())
}
