//! Resolves the names of a text.
ghost use Rattle.std.specs.Prelude.{◌≡◌, None, IfOk, map};
ghost use Rattle.cw_facts.specs.Text.{text_facts};
ghost use Rattle.cw_scope.specs.Gathered.{Gathers};
ghost use Rattle.cw_scope.specs.Text.{text_fault};
ghost use Rattle.cw_scope.specs.Resolved.{text_declarations, text_signatures};
ghost use Rattle.cw_scope.specs.NameRules.{all_declared, said, name_faults, name_resolutions};
ghost use Rattle.cw_scope.specs.Definitions.{each_listed, defined};
ghost use Rattle.cw_scope.specs.Outcome.{Resolves, ResolveFault};

use crate::declared::{declarations_of, signatures_of};
use crate::definitions::judge_definitions;
use crate::fault::{Fault, Rule};
use crate::judge::{declared, judge};
use crate::resolve::{Named, ScopeFault};
use cw_facts::fact::{Declaration, Fact, Signature};
use cw_facts::text::text_facts;
use cw_table::table::{Row, Table};
use cw_tree::segment::Raw;
use cw_word::{List, NoMemory};
use std::alloc::Global;

fn found(alloc: Global, resolved: &[Row<u32>]) -> Result<Table<u32>, NoMemory>
    ensures { IfOk result (λ all. all ≡ resolved.now) }
{
    let mut all = Table::with_room(alloc, resolved.len())?;
    for row in resolved {
        all = all.with(row.token, row.item)?;
    }
    Ok(all)
}

fn scope_fault(fault: &Fault) -> ScopeFault
    ensures { ResolveFault result fault.now }
{
    let name = fault.name.name;
    let line = fault.name.at.line;
    match fault.rule {
        Rule::Undeclared => ScopeFault::Undeclared { name, line },
        Rule::Twice => ScopeFault::Twice { name, line },
        Rule::WrongKind => ScopeFault::WrongKind { name, line },
        Rule::SpecDiffers => ScopeFault::SpecDiffers { name, line },
    }
}

// What the names of a text come to.
#[derive(Drop)]
struct Tables {
    first: Option<Fault>,
    declarations: Table<Declaration>,
    signatures: Table<Signature>,
    uses: Table<u32>,
}

// The first fault of names and definitions, by that of the names.
fn first_fault(
    alloc: Global,
    facts: &[Fact],
    signatures: &Table<Signature>,
    first: Option<Fault>,
) -> Result<Option<Fault>, NoMemory>
    ensures { IfOk result (λ fault. fault
        ≡ each_listed signatures.now (all_declared (map said facts.now)) (map (defined signatures.now) facts.now) first) }
{
    let communicators = declared(alloc, facts)?;
    let mut first = first;
    judge_definitions(facts, &communicators, signatures, &mut first);
    Ok(first)
}

// What the names come to, by the first fault and the uses of the names.
fn tables_with(
    alloc: Global,
    facts: &[Fact],
    first: Option<Fault>,
    uses: Table<u32>,
) -> Result<Tables, NoMemory>
    requires { first ≡ name_faults facts.now None }
    ensures first { IfOk result (λ t. t.first ≡ text_fault facts.now) }
    ensures declarations { IfOk result (λ t. t.declarations ≡ text_declarations facts.now) }
    ensures signatures { IfOk result (λ t. t.signatures ≡ text_signatures facts.now) }
    ensures uses { IfOk result (λ t. t.uses ≡ uses) }
{
    let signatures = signatures_of(facts, alloc, Table::new(alloc))?;
    let first = first_fault(alloc, facts, &signatures, first)?;
    let declarations = declarations_of(facts, Table::new(alloc))?;
    Ok(Tables {
        first,
        declarations,
        signatures,
        uses,
    })
}

fn tables_of(alloc: Global, facts: &[Fact]) -> Result<Tables, NoMemory>
    ensures first { IfOk result (λ t. t.first ≡ text_fault facts.now) }
    ensures declarations { IfOk result (λ t. t.declarations ≡ text_declarations facts.now) }
    ensures signatures { IfOk result (λ t. t.signatures ≡ text_signatures facts.now) }
    ensures uses { IfOk result (λ t. t.uses ≡ name_resolutions facts.now) }
{
    let findings = judge(alloc, facts)?;
    let uses = found(alloc, findings.resolved.as_slice())?;
    tables_with(alloc, facts, findings.first, uses)
}

// The tree of these facts with the declaration of each name, or the first fault of its names.
fn named_by(raw: &Raw, facts: List<Fact>, alloc: Global) -> Result<Named<'_>, ScopeFault>
    requires gathered { Gathers facts raw.now }
    requires facts { facts ≡ text_facts raw.now }
    ensures { Resolves raw.now result }
{
    match tables_of(alloc, facts.as_slice()) {
        Ok(
            Tables {
                first,
                declarations,
                signatures,
                uses,
            },
        ) => match first {
            None => Ok(Named {
                raw,
                facts,
                declarations,
                signatures,
                uses,
            }),
            Some(fault) => Err(scope_fault(&fault)),
        },
        Err(_) => Err(ScopeFault::NoMemory),
    }
}

/// The tree of a text with the declaration of each name in it, or the first fault of its names.
pub fn resolve(alloc: Global, raw: &Raw) -> Result<Named<'_>, ScopeFault>
    ensures { Resolves raw.now result }
{
    match text_facts(alloc, raw) {
        Ok(facts) => named_by(raw, facts, alloc),
        Err(_) => Err(ScopeFault::NoMemory),
    }
}
