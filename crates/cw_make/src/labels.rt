//! The labels of a text.
ghost use Rattle.std.specs.Prelude.{◌≡◌, ◌++◌, map, IfOk, OnOk};
ghost use Rattle.cw_make.specs.Labels.{joined, declared_label, proc_within, fact_labels, facts_labels, labels_of};
ghost use Rattle.cw_make_items.specs.Lookup.{line_of};

use cw_facts::fact::{Declaration, Fact, Kind};
use cw_make_items::lookup::{line_of, proc_here};
use cw_number::numbered::Numbered;
use cw_scope::resolve::Named;
use cw_table::table::Table;
use cw_unit::unit::Label;
use cw_word::{List, NoMemory};
use std::alloc::Global;

fn declared_label(
    declaration: &Declaration,
    proc: Option<u16>,
    out: &mut List<Label>,
) -> Result<(), NoMemory>
    ensures { OnOk result (out.new ≡ out.old ++ declared_label declaration.now.kind (line_of declaration.now.name.at) proc) }
{
    match declaration.kind {
        Kind::Label => out.push(Label {
            proc,
            line: line_of(declaration.name.at),
        }),
        _ => Ok(()),
    }
}

fn proc_within(numbers: &Table<Numbered>, owner: &Option<u32>, proc: Option<u16>) -> Option<u16>
    ensures { result ≡ proc_within numbers.now owner.now proc }
{
    match owner {
        None => proc,
        Some(token) => Some(proc_here(numbers, *token)),
    }
}

#[cycle(labels)]
fn facts_labels(
    facts: &[Fact],
    numbers: &Table<Numbered>,
    proc: Option<u16>,
    out: &mut List<Label>,
) -> Result<(), NoMemory>
    ensures { OnOk result (out.new ≡ out.old ++ joined (map (fact_labels numbers.now) facts.now) proc) }
{
    for fact in facts {
        fact_labels(fact, numbers, proc, out)?;
    }
    Ok(())
}

#[cycle(labels)]
fn fact_labels(
    fact: &Fact,
    numbers: &Table<Numbered>,
    proc: Option<u16>,
    out: &mut List<Label>,
) -> Result<(), NoMemory>
    ensures { OnOk result (out.new ≡ out.old ++ fact_labels numbers.now fact.now proc) }
{
    match fact {
        Fact::Declares(declaration) => declared_label(declaration.get(), proc, out),
        Fact::Block(owner, facts) => {
            let within = proc_within(numbers, owner, proc);
            facts_labels(facts.as_slice(), numbers, within, out)
        }
        _ => Ok(()),
    }
}

/// The labels that a text sets, in order of the text.
pub fn labels_of(
    alloc: Global,
    named: &Named,
    numbers: &Table<Numbered>,
) -> Result<List<Label>, NoMemory>
    ensures { IfOk result (λ all. all ≡ labels_of numbers.now named.now.raw.now) }
{
    let mut all = List::new(alloc);
    facts_labels(named.block_facts(), numbers, None, &mut all)?;
    Ok(all)
}
