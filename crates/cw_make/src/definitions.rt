//! What a segment defines of what its communicators list.
ghost use Rattle.std.specs.Prelude.{◌≡◌, ◌++◌, ◌∷◌, [], IfOk, OnOk, option_copied};
ghost use Rattle.cw_table.specs.Rows.{item_at};
ghost use Rattle.cw_facts.specs.declared.fact.Fact.{out-Fact};
ghost use Rattle.cw_make.specs.Definitions.{declared_by, all_declared, inside, inside_first, outermost_declared};
ghost use Rattle.cw_make.specs.Definitions.{def_in, def_if, def_by, def_named, def_of, defs_from, defined_of};

use cw_facts::fact::{Declaration, Fact};
use cw_number::listed::{Listing, listed_of};
use cw_number::numbered::Numbered;
use cw_scope::names::Names;
use cw_scope::resolve::Named;
use cw_table::table::{Row, Table};
use cw_unit::unit::Def;
use cw_word::{List, NoMemory};
use std::alloc::Global;

fn with_declared(fact: &Fact, before: Names) -> Result<Names, NoMemory>
    ensures { IfOk result (λ names. names ≡ before ++ declared_by (out-Fact fact.now)) }
{
    match fact {
        Fact::Declares(declaration) => before.with(declaration.get()),
        _ => Ok(before),
    }
}

fn all_declared(alloc: Global, facts: &[Fact]) -> Result<Names, NoMemory>
    ensures { IfOk result (λ names. names ≡ all_declared facts.now) }
{
    let mut names = Names::new(alloc);
    for fact in facts {
        names = with_declared(fact, names)?;
    }
    Ok(names)
}

fn inside(alloc: Global, fact: &Fact) -> Result<Names, NoMemory>
    ensures { IfOk result (λ names. names ≡ inside (out-Fact fact.now)) }
{
    match fact {
        Fact::Block(_, facts) => all_declared(alloc, facts.as_slice()),
        _ => Ok(Names::new(alloc)),
    }
}

fn inside_first(alloc: Global, facts: &[Fact]) -> Result<Names, NoMemory>
    ensures { IfOk result (λ names. names ≡ inside_first facts.now) }
{
    match facts {
        [] => Ok(Names::new(alloc)),
        [first, ..] => inside(alloc, first),
    }
}

fn outermost_declared(alloc: Global, named: &Named) -> Result<Names, NoMemory>
    ensures { IfOk result (λ names. names ≡ outermost_declared named.now.raw.now) }
{
    inside_first(alloc, named.block_facts())
}

fn def_in(number: &Option<Numbered>) -> Option<Def>
    ensures { result ≡ def_in number.now }
{
    match number {
        Some(Numbered::Proc(p)) => Some(Def::Proc(*p)),
        Some(Numbered::Label(l)) => Some(Def::Label(*l)),
        Some(Numbered::Switch(s)) => Some(Def::Switch(*s)),
        _ => None,
    }
}

fn def_by(numbers: &Table<Numbered>, declaration: Option<&Declaration>) -> Option<Def>
    ensures { result ≡ def_by numbers.now (option_copied declaration.entry) }
{
    match declaration {
        None => None,
        Some(declaration) => def_in(&numbers.find(declaration.name.at.token).copied()),
    }
}

fn def_of(named: &Named, numbers: &Table<Numbered>, own: &Names, row: &Row<Listing>) -> Option<Def>
    ensures { result ≡ def_of named.now numbers.now own.now row.now.item row.now.token }
{
    match row.item {
        Listing::Data => None,
        _ => match named.declarations.find(row.token) {
            None => None,
            Some(listed) => def_by(numbers, own.find(&listed.name.name)),
        },
    }
}

fn note(descriptor: u16, def: Option<Def>, out: &mut List<(u16, Def)>) -> Result<(), NoMemory>
    ensures { OnOk result (out.new ≡ out.old ++ def_if descriptor def) }
{
    match def {
        None => Ok(()),
        Some(def) => out.push((descriptor, def)),
    }
}

fn defs(
    alloc: Global,
    named: &Named,
    numbers: &Table<Numbered>,
    own: &Names,
    listed: &[Row<Listing>],
) -> Result<List<(u16, Def)>, NoMemory>
    ensures { IfOk result (λ all. all ≡ defs_from named.now numbers.now own.now 0 listed.now) }
{
    let mut all = List::new(alloc);
    let mut descriptor = 0u16;
    for row in listed {
        note(descriptor, def_of(named, numbers, own, row), &mut all)?;
        descriptor = descriptor.saturating_add(1);
    }
    Ok(all)
}

/// The descriptors that a segment defines, with their definitions, by rising descriptor.
pub fn defined_of(
    alloc: Global,
    named: &Named,
    numbers: &Table<Numbered>,
) -> Result<List<(u16, Def)>, NoMemory>
    ensures { IfOk result (λ all. all ≡ defined_of named.now numbers.now) }
{
    let own = outermost_declared(alloc, named)?;
    let listed = listed_of(alloc, named.raw)?;
    defs(alloc, named, numbers, &own, listed.rows())
}
