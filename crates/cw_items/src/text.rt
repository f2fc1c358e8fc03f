//! What a whole text stores.
ghost use Rattle.std.specs.Prelude.{◌≡◌, ◌++◌, ◌∷◌, [], None, OnOk, IfOk};
ghost use Rattle.cw_items.specs.Things.{citem_things, citems_things, aitem_things, aitems_things, communicator_things, communicators_things, text_things};

use crate::data::{base_at, data_things, store, words_of_table};
use crate::statements::block_things;
use crate::thing::{Sort, Thing};
use cw_data::presets::array_words;
use cw_scope::resolve::Named;
use cw_tree::segment::{Raw, RawAitem, RawCitem, RawComm};
use cw_word::{List, NoMemory};
use std::alloc::Global;
use std::marker::Model;

fn citem_things(named: &Named, item: &RawCitem, out: &mut List<Thing>) -> Result<(), NoMemory>
    ensures { OnOk result (out.new ≡ out.old ++ citem_things named.now item.now) }
{
    match item {
        RawCitem::Data(items) => data_things(&None, &None, items, out),
        RawCitem::Overlay(_, base, items) => {
            data_things(&None, &Some(base_at(named, base)), items, out)
        }
        RawCitem::Label(..) | RawCitem::Switch(..) | RawCitem::Spec(_) => Ok(()),
    }
}

fn citems_things(named: &Named, items: &[RawCitem], out: &mut List<Thing>) -> Result<(), NoMemory>
    ensures { OnOk result (out.new ≡ out.old ++ citems_things named.now items.now) }
{
    for item in items {
        citem_things(named, item, out)?;
    }
    Ok(())
}

fn aitem_things(item: &RawAitem, out: &mut List<Thing>) -> Result<(), NoMemory>
    ensures { OnOk result (out.new ≡ out.old ++ aitem_things item.now) }
{
    match item {
        RawAitem::Single(_, name, _) => store(Sort::Named, name.at, &None, &None, 1, out),
        RawAitem::Array(_, name, bounds, _) => {
            let words = array_words(&bounds.first, &bounds.second) as u32;
            store(Sort::Named, name.at, &None, &None, words, out)
        }
        RawAitem::Table(table, _) => {
            store(
                Sort::Named,
                table.name.at,
                &None,
                &None,
                words_of_table(table),
                out,
            )
        }
    }
}

fn aitems_things(items: &[RawAitem], out: &mut List<Thing>) -> Result<(), NoMemory>
    ensures { OnOk result (out.new ≡ out.old ++ aitems_things items.now) }
{
    for item in items {
        aitem_things(item, out)?;
    }
    Ok(())
}

fn communicator_things(named: &Named, list: &RawComm, out: &mut List<Thing>) -> Result<(), NoMemory>
    ensures { OnOk result (out.new ≡ out.old ++ communicator_things named.now list.now) }
{
    match list {
        RawComm::Common(_, items) => citems_things(named, items.as_slice(), out),
        RawComm::Library(..) => Ok(()),
        RawComm::Absolute(_, items) => aitems_things(items.as_slice(), out),
    }
}

fn communicators_things(
    named: &Named,
    lists: &[RawComm],
    out: &mut List<Thing>,
) -> Result<(), NoMemory>
    ensures { OnOk result (out.new ≡ out.old ++ communicators_things named.now lists.now) }
{
    for list in lists {
        communicator_things(named, list, out)?;
    }
    Ok(())
}

fn text_things(alloc: Global, named: &Named, raw: &Raw) -> Result<List<Thing>, NoMemory>
    ensures { IfOk result (λ things. things ≡ text_things named.now raw.now) }
{
    let mut things = List::new(alloc);
    communicators_things(named, raw.comms.as_slice(), &mut things)?;
    block_things(&raw.block, named, &None, &mut things)?;
    Ok(things)
}

/// A named text beside what it stores. Contracts see the named text.
#[derive(Drop)]
pub struct StoredText<'a> {
    named: Named<'a>,
    things: List<Thing>,
}

impl<'a> Model for StoredText<'a> {
    ghost use Rattle.std.specs.Prelude.{◌≡◌};
    ghost use Rattle.std.specs.Coded.{codes, coded_list};
    ghost use Rattle.cw_facts.specs.contracts.fact.Fact as fact;
    ghost use Rattle.cw_tree.specs.contracts.statement.RawBlock as block;
    ghost use Rattle.cw_scope.specs.declared.resolve.Named.{Named as Resolved};
    ghost use Rattle.cw_scope.specs.Gathered.{Gathers-coded};
    ghost use Rattle.cw_items.specs.Things.{text_things};

    ghost Value = { Resolved };

    ghost coded = { Prim.hlevel (codes, block.the_row.coded, fact.the_row.coded, Gathers-coded (coded_list fact.the_row.coded)) };

    ghost view = { λ t. t.named };

    ghost invariant = { λ t. t.things ≡ text_things t.named t.named.raw.now };
}

impl StoredText<'_> {
    pub fn new(alloc: Global, named: Named<'_>) -> Result<StoredText<'_>, NoMemory>
        ensures { IfOk result (λ text. text ≡ named.entry) }
    {
        let things = text_things(alloc, &named, named.raw)?;
        Ok(StoredText { named, things })
    }

    pub fn named(&self) -> &Named<'_>
        ensures { result.now ≡ self.now }
    {
        &self.named
    }

    /// What the text stores, in order of the text.
    pub fn things(&self) -> &[Thing]
        ensures { result.now ≡ text_things self.now self.now.raw.now }
    {
        self.things.as_slice()
    }
}
