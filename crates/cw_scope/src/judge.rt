//! Names are judged by the facts of a text.
ghost use Rattle.std.specs.Prelude.{◌≡◌, ◌++◌, ◌∷◌, [], None, ◌==◌, map, slice_get, drop, length, OnOk, IfOk, option_copied};
ghost use Rattle.cw_scope.specs.Scope.{declared_in, declaration_of};
ghost use Rattle.cw_scope.specs.Faults.{wrong, unless};
ghost use Rattle.cw_scope.specs.NameRules.{within, is_reference, is_part, answers, is_procedure, is_label, is_switch, is_own_label, is_own_switch, is_data};
ghost use Rattle.cw_scope.specs.NameRules.{is_answer, fits_reading, fits, undeclared_rule, use_faults, resolutions, repeat_faults, own_block, declaration_faults};
ghost use Rattle.cw_scope.specs.NameRules.{all_declared, all_faults, all_resolved, said, dimensions, name_faults, name_resolutions};

use crate::fault::{Fault, Rule, keep};
use crate::names::Names;
use cw_facts::fact::{Declaration, Fact, Form, Kind, Reading, Use};
use cw_table::table::Row;
use cw_tree::items::{RawBounds, RawElem};
use cw_tree::leaf::RawName;
use cw_word::{List, Name, NoMemory};
use std::alloc::Global;

// ---- what a kind allows

pub fn dimensions(bounds: &RawBounds) -> u8
    ensures { result ≡ dimensions bounds.now }
{
    if bounds.second.is_some() { 2 } else { 1 }
}

fn is_reference(kind: &Kind, indexes: u8) -> bool
    ensures { result ≡ is_reference kind.now indexes }
{
    match kind {
        Kind::Single(_) | Kind::Value(_) | Kind::Location(_) => indexes == 0,
        Kind::Array(_, bounds) => indexes == dimensions(bounds),
        Kind::Table(_) | Kind::Element(..) | Kind::ArrayParam(_) | Kind::TableParam(_) => {
            indexes == 1
        }
        _ => false,
    }
}

pub fn is_part(kind: &Kind) -> bool
    ensures { result ≡ is_part kind.now }
{
    match kind {
        Kind::Element(_, RawElem::Part { .. }) => true,
        _ => false,
    }
}

fn answers(kind: &Kind) -> bool
    ensures { result ≡ answers kind.now }
{
    match kind {
        Kind::Proc(answer) => answer.is_some(),
        Kind::ProcParam(answer) => answer.is_some(),
        Kind::ReadByte => true,
        _ => false,
    }
}

fn is_procedure(kind: &Kind) -> bool
    ensures { result ≡ is_procedure kind.now }
{
    match kind {
        Kind::Proc(_) | Kind::ProcParam(_) | Kind::ReadByte | Kind::WriteByte => true,
        _ => false,
    }
}

pub fn is_label(kind: &Kind) -> bool
    ensures { result ≡ is_label kind.now }
{
    match kind {
        Kind::Label | Kind::LabelParam => true,
        _ => false,
    }
}

pub fn is_switch(kind: &Kind) -> bool
    ensures { result ≡ is_switch kind.now }
{
    match kind {
        Kind::Switch | Kind::SwitchParam => true,
        _ => false,
    }
}

pub(crate) fn is_own_label(kind: &Kind) -> bool
    ensures { result ≡ is_own_label kind.now }
{
    match kind {
        Kind::Label => true,
        _ => false,
    }
}

pub(crate) fn is_own_switch(kind: &Kind) -> bool
    ensures { result ≡ is_own_switch kind.now }
{
    match kind {
        Kind::Switch => true,
        _ => false,
    }
}

fn is_data(kind: &Kind) -> bool
    ensures { result ≡ is_data kind.now }
{
    match kind {
        Kind::Single(_) | Kind::Array(..) | Kind::Table(_) => true,
        _ => false,
    }
}

fn is_answer(kind: &Kind) -> bool
    ensures { result ≡ is_answer kind.now }
{
    match kind {
        Kind::Answer(_) => true,
        _ => false,
    }
}

fn fits_reading(reading: &Reading, indexes: u8, kind: &Kind) -> bool
    ensures { result ≡ fits_reading reading.now indexes kind.now }
{
    match reading {
        Reading::Argument => true,
        Reading::Value => is_reference(kind, indexes) || (indexes == 0 && answers(kind)),
        Reading::Target => is_reference(kind, indexes),
        Reading::Whole => is_reference(kind, indexes) && !is_part(kind),
    }
}

fn fits(form: &Form, kind: &Kind) -> bool
    ensures { result ≡ fits form.now kind.now }
{
    match form {
        Form::Reference(reading, indexes) => fits_reading(reading, *indexes, kind),
        Form::CallValue => answers(kind),
        Form::Call => is_procedure(kind),
        Form::Goto => is_label(kind),
        Form::GotoSwitch => is_switch(kind),
        Form::Listed => is_own_label(kind),
        Form::Base => is_data(kind),
        Form::Answer => is_answer(kind),
    }
}

// ---- the environment

// From this block inwards.
fn declaration_from<'a>(blocks: &'a [Names], name: &Name, from: usize) -> Option<&'a Declaration>
    ensures { option_copied result ≡ declaration_of (drop from blocks.now) name.now }
{
    if from >= blocks.len() {
        return None;
    }
    match declaration_from(blocks, name, from + 1) {
        Some(declaration) => Some(declaration),
        None => blocks[from].find(name),
    }
}

fn declaration_of<'a>(blocks: &'a [Names], name: &Name) -> Option<&'a Declaration>
    ensures { option_copied result ≡ declaration_of blocks.now name.now }
{
    declaration_from(blocks, name, 0)
}

// ---- faults

fn undeclared_rule(form: &Form) -> Rule
    ensures { result ≡ undeclared_rule form.now }
{
    match form {
        Form::Answer => Rule::WrongKind,
        _ => Rule::Undeclared,
    }
}

// What is found so far: the earliest fault, and to what names refer.
#[derive(Drop)]
pub(crate) struct Findings {
    pub first: Option<Fault>,
    pub resolved: List<Row<u32>>,
}

fn fault(findings: &mut Findings, rule: Rule, name: &RawName)
    ensures first { findings.new.first ≡ wrong rule name.now findings.old.first }
    ensures resolved { findings.new.resolved ≡ findings.old.resolved }
{
    keep(rule, name, &mut findings.first);
}

fn fault_unless(findings: &mut Findings, holds: bool, rule: Rule, name: &RawName)
    ensures first { findings.new.first ≡ unless holds rule name.now findings.old.first }
    ensures resolved { findings.new.resolved ≡ findings.old.resolved }
{
    if !holds {
        fault(findings, rule, name);
    }
}

fn judge_use(
    found: Option<&Declaration>,
    usage: &Use,
    findings: &mut Findings,
) -> Result<(), NoMemory>
    ensures first { OnOk result (findings.new.first ≡ use_faults (option_copied found.entry) usage.now findings.old.first) }
    ensures resolved { OnOk result (findings.new.resolved ≡ findings.old.resolved ++ resolutions (option_copied found.entry) usage.now) }
{
    match found {
        None => {
            fault(findings, undeclared_rule(&usage.form), &usage.name);
            Ok(())
        }
        Some(declaration) => {
            fault_unless(
                findings,
                fits(&usage.form, &declaration.kind),
                Rule::WrongKind,
                &usage.name,
            );
            findings.resolved.push(Row {
                token: usage.name.at.token,
                item: declaration.name.at.token,
            })
        }
    }
}

fn judge_repeat(first: Option<&Declaration>, declaration: &Declaration, findings: &mut Findings)
    ensures first { findings.new.first ≡ repeat_faults (option_copied first.entry) declaration.now findings.old.first }
    ensures resolved { findings.new.resolved ≡ findings.old.resolved }
{
    match first {
        None => {}
        Some(other) => {
            let same = other.name.at.token == declaration.name.at.token;
            fault_unless(findings, same, Rule::Twice, &declaration.name);
        }
    }
}

fn first_in_block<'a>(blocks: &'a [Names], name: &Name) -> Option<&'a Declaration>
    ensures { option_copied result ≡ declared_in (own_block blocks.now) name.now }
{
    if blocks.is_empty() {
        return None;
    }
    let own = &blocks[blocks.len() - 1];
    own.find(name)
}

fn judge_declaration(blocks: &[Names], declaration: &Declaration, findings: &mut Findings)
    ensures first { findings.new.first ≡ declaration_faults blocks.now declaration.now findings.old.first }
    ensures resolved { findings.new.resolved ≡ findings.old.resolved }
{
    let first = first_in_block(blocks, &declaration.name.name);
    judge_repeat(first, declaration, findings);
}

// ---- blocks

// The names of a block with what one more fact declares in it.
fn with_declared(table: Names, fact: &Fact) -> Result<Names, NoMemory>
    ensures { IfOk result (λ t. t ≡ table ++ (said fact.now).declared) }
{
    match fact {
        Fact::Declares(declaration) => table.with(declaration.get()),
        _ => Ok(table),
    }
}

pub(crate) fn declared(alloc: Global, facts: &[Fact]) -> Result<Names, NoMemory>
    ensures { IfOk result (λ t. t ≡ all_declared (map said facts.now)) }
{
    let mut table = Names::new(alloc);
    for fact in facts {
        table = with_declared(table, fact)?;
    }
    Ok(table)
}

// Puts the names of one more block innermost.
fn enter(facts: &[Fact], alloc: Global, blocks: &mut Vec<Names>) -> Result<(), NoMemory>
    ensures { OnOk result (blocks.new.items ≡ within blocks.old.items (map said facts.now)) }
{
    let own = declared(alloc, facts)?;
    match blocks.push(own) {
        Ok(()) => Ok(()),
        Err(_) => Err(NoMemory),
    }
}

#[cycle(judged)]
fn judge_facts(
    facts: &[Fact],
    alloc: Global,
    blocks: &mut Vec<Names>,
    findings: &mut Findings,
) -> Result<(), NoMemory>
    ensures blocks { OnOk result (blocks.new.items ≡ blocks.old.items) }
    ensures first { OnOk result (findings.new.first ≡ all_faults blocks.old.items (map said facts.now) findings.old.first) }
    ensures resolved { OnOk result (findings.new.resolved ≡ findings.old.resolved ++ all_resolved blocks.old.items (map said facts.now)) }
{
    for fact in facts {
        judge_fact(fact, alloc, blocks, findings)?;
    }
    Ok(())
}

#[cycle(judged)]
fn judge_fact(
    fact: &Fact,
    alloc: Global,
    blocks: &mut Vec<Names>,
    findings: &mut Findings,
) -> Result<(), NoMemory>
    ensures blocks { OnOk result (blocks.new.items ≡ blocks.old.items) }
    ensures first { OnOk result (findings.new.first ≡ (said fact.now).faults blocks.old.items findings.old.first) }
    ensures resolved { OnOk result (findings.new.resolved ≡ findings.old.resolved ++ (said fact.now).resolved blocks.old.items) }
{
    match fact {
        Fact::Declares(declaration) => {
            judge_declaration(blocks.as_slice(), declaration.get(), findings);
            Ok(())
        }
        Fact::Uses(usage) => {
            let found = declaration_of(blocks.as_slice(), &usage.name.name);
            judge_use(found, usage, findings)
        }
        Fact::Block(_, inner) => judge_block(inner.as_slice(), alloc, blocks, findings),
        _ => Ok(()),
    }
}

#[cycle(judged)]
fn judge_block(
    facts: &[Fact],
    alloc: Global,
    blocks: &mut Vec<Names>,
    findings: &mut Findings,
) -> Result<(), NoMemory>
    ensures blocks { OnOk result (blocks.new.items ≡ blocks.old.items) }
    ensures first { OnOk result (findings.new.first ≡ all_faults (within blocks.old.items (map said facts.now)) (map said facts.now) findings.old.first) }
    ensures resolved { OnOk result (findings.new.resolved
        ≡ findings.old.resolved ++ all_resolved (within blocks.old.items (map said facts.now))
        (map said facts.now)) }
{
    let outer = blocks.len();
    enter(facts, alloc, blocks)?;
    judge_facts(facts, alloc, blocks, findings)?;
    blocks.truncate(outer);
    Ok(())
}

/// What is found of the names of a text.
pub(crate) fn judge(alloc: Global, facts: &[Fact]) -> Result<Findings, NoMemory>
    ensures { IfOk result (λ found. (found.first ≡ name_faults facts.now None) × (found.resolved ≡ name_resolutions facts.now)) }
{
    let mut findings = Findings {
        first: None,
        resolved: List::new(alloc),
    };
    let mut blocks = Vec::new(alloc);
    judge_block(facts, alloc, &mut blocks, &mut findings)?;
    Ok(findings)
}
