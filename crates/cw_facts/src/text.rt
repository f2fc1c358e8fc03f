//! What a whole text says about names.
ghost use Rattle.std.specs.Prelude.{◌≡◌, ◌++◌, ◌∷◌, [], OnOk, IfOk};
ghost use Rattle.cw_facts.specs.Text.{library_kind, library_facts, spec_facts, citem_facts, citems_facts, aitem_facts};
ghost use Rattle.cw_facts.specs.Text.{aitems_facts, communicator_facts, communicators_facts, text_facts};

use crate::declarations::{base_facts, data_facts, declare, declare_each, specifies, table_facts};
use crate::fact::{Fact, Kind};
use crate::signatures::specified;
use crate::statements::block_facts;
use cw_tree::segment::{Raw, RawAitem, RawCitem, RawComm, RawSpec};
use cw_word::{List, Name, NoMemory};
use std::alloc::Global;

fn library_kind(name: &Name, kind: &Kind) -> Kind
    ensures { result ≡ library_kind name.now kind.now }
{
    let bytes = name.bytes();
    if bytes == b"READBYTE".as_slice() {
        Kind::ReadByte
    } else if bytes == b"WRITEBYTE".as_slice() {
        Kind::WriteByte
    } else if bytes == b"BOUNDS".as_slice() {
        Kind::Bounds
    } else {
        *kind
    }
}

// A procedure that is listed, of a kind.
fn spec_facts(
    alloc: Global,
    kind: &Kind,
    spec: &RawSpec,
    out: &mut List<Fact>,
) -> Result<(), NoMemory>
    ensures { OnOk result (out.new ≡ out.old ++ spec_facts kind.now spec.now) }
{
    declare(alloc, spec.name, *kind, out)?;
    let params = specified(alloc, spec.params.as_slice())?;
    specifies(alloc, spec.name.at.token, spec.answer, params, out)
}

fn library(alloc: Global, specs: &[RawSpec], out: &mut List<Fact>) -> Result<(), NoMemory>
    ensures { OnOk result (out.new ≡ out.old ++ library_facts specs.now) }
{
    for spec in specs {
        let kind = library_kind(&spec.name.name, &Kind::Proc(spec.answer));
        spec_facts(alloc, &kind, spec, out)?;
    }
    Ok(())
}

fn citem(alloc: Global, item: &RawCitem, out: &mut List<Fact>) -> Result<(), NoMemory>
    ensures { OnOk result (out.new ≡ out.old ++ citem_facts item.now) }
{
    match item {
        RawCitem::Data(data) => data_facts(alloc, data, out),
        RawCitem::Overlay(_, base, data) => {
            base_facts(base, out)?;
            data_facts(alloc, data, out)
        }
        RawCitem::Label(_, names) => declare_each(alloc, names.as_slice(), &Kind::Label, out),
        RawCitem::Switch(_, names) => declare_each(alloc, names.as_slice(), &Kind::Switch, out),
        RawCitem::Spec(spec) => spec_facts(alloc, &Kind::Proc(spec.answer), spec, out),
    }
}

fn citems(alloc: Global, items: &[RawCitem], out: &mut List<Fact>) -> Result<(), NoMemory>
    ensures { OnOk result (out.new ≡ out.old ++ citems_facts items.now) }
{
    for item in items {
        citem(alloc, item, out)?;
    }
    Ok(())
}

fn aitem(alloc: Global, item: &RawAitem, out: &mut List<Fact>) -> Result<(), NoMemory>
    ensures { OnOk result (out.new ≡ out.old ++ aitem_facts item.now) }
{
    match item {
        RawAitem::Single(scale, name, _) => declare(alloc, *name, Kind::Single(*scale), out),
        RawAitem::Array(scale, name, bounds, _) => declare(
            alloc,
            *name,
            Kind::Array(*scale, *bounds),
            out,
        ),
        RawAitem::Table(tree, _) => table_facts(alloc, &Kind::Table(tree.size), tree, out),
    }
}

fn aitems(alloc: Global, items: &[RawAitem], out: &mut List<Fact>) -> Result<(), NoMemory>
    ensures { OnOk result (out.new ≡ out.old ++ aitems_facts items.now) }
{
    for item in items {
        aitem(alloc, item, out)?;
    }
    Ok(())
}

fn communicator(alloc: Global, list: &RawComm, out: &mut List<Fact>) -> Result<(), NoMemory>
    ensures { OnOk result (out.new ≡ out.old ++ communicator_facts list.now) }
{
    match list {
        RawComm::Common(_, items) => citems(alloc, items.as_slice(), out),
        RawComm::Library(_, specs) => library(alloc, specs.as_slice(), out),
        RawComm::Absolute(_, items) => aitems(alloc, items.as_slice(), out),
    }
}

fn communicators(alloc: Global, lists: &[RawComm], out: &mut List<Fact>) -> Result<(), NoMemory>
    ensures { OnOk result (out.new ≡ out.old ++ communicators_facts lists.now) }
{
    for list in lists {
        communicator(alloc, list, out)?;
    }
    Ok(())
}

/// What a text says about names.
pub fn text_facts(alloc: Global, raw: &Raw) -> Result<List<Fact>, NoMemory>
    ensures { IfOk result (λ facts. facts ≡ text_facts raw.now) }
{
    let mut facts = List::new(alloc);
    communicators(alloc, raw.comms.as_slice(), &mut facts)?;
    block_facts(alloc, &raw.block, true, &mut facts)?;
    Ok(facts)
}
