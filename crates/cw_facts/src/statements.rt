//! The facts of statements and blocks.
ghost use Rattle.std.specs.Prelude.{◌≡◌, ◌++◌, map, true, OnOk};
ghost use Rattle.cw_facts.specs.Facts.{joined, enclosed, felem_facts, felems_facts, declaration_facts, form_facts, simple_facts};
ghost use Rattle.cw_facts.specs.Facts.{block_facts, procedure_facts, statement_facts, parameters_facts, answer_facts};
ghost use Rattle.cw_tree.specs.declared.statement.RawBlock.{out-RawBlock};

use crate::declarations::{
    answer, answer_name, base_facts, data_facts, declare, declare_each, parameters, specifies,
    use_each,
};
use crate::expressions::{argument_uses, condition_uses, expression_uses, note, reference_uses};
use crate::fact::{Fact, Form, Kind, Reading};
use crate::signatures::flattened;
use cw_tree::statement::{RawBlock, RawDecl, RawFelem, RawForm, RawProc, RawSimple, RawStmt};
use cw_word::{List, NoMemory};
use std::alloc::Global;

fn felem(element: &RawFelem, out: &mut List<Fact>) -> Result<(), NoMemory>
    ensures { OnOk result (out.new ≡ out.old ++ felem_facts element.now) }
{
    match element {
        RawFelem::One(e) => expression_uses(e.get(), Reading::Value, out),
        RawFelem::While(e, test) => {
            expression_uses(e.get(), Reading::Value, out)?;
            condition_uses(test.get(), out)
        }
        RawFelem::Step(first, step, last) => {
            expression_uses(first.get(), Reading::Value, out)?;
            expression_uses(step.get(), Reading::Value, out)?;
            expression_uses(last.get(), Reading::Value, out)
        }
    }
}

fn felems(elements: &[RawFelem], out: &mut List<Fact>) -> Result<(), NoMemory>
    ensures { OnOk result (out.new ≡ out.old ++ felems_facts elements.now) }
{
    for element in elements {
        felem(element, out)?;
    }
    Ok(())
}

// The facts of a part as a block within, or as they are.
fn enclose(facts: List<Fact>, out: &mut List<Fact>) -> Result<(), NoMemory>
    ensures { OnOk result (out.new ≡ out.old ++ enclosed true facts) }
{
    out.push(Fact::Block(None, facts))
}

/// Adds the facts of a statement.
#[cycle(facts)]
pub fn statement_facts(alloc: Global, s: &RawStmt, out: &mut List<Fact>) -> Result<(), NoMemory>
    ensures { OnOk result (out.new ≡ out.old ++ statement_facts s.now) }
{
    declare_each(alloc, s.labels.as_slice(), &Kind::Label, out)?;
    form_facts(alloc, s.form.get(), out)
}

#[cycle(facts)]
fn form_facts(alloc: Global, form: &RawForm, out: &mut List<Fact>) -> Result<(), NoMemory>
    ensures { OnOk result (out.new ≡ out.old ++ form_facts form.now) }
{
    match form {
        RawForm::Simple(s) => simple_facts(alloc, s.get(), out),
        RawForm::If {
            test,
            labels,
            first,
            second,
            ..
        } => {
            condition_uses(test.get(), out)?;
            declare_each(alloc, labels.as_slice(), &Kind::Label, out)?;
            simple_facts(alloc, first.get(), out)?;
            match second {
                None => Ok(()),
                Some(s) => statement_facts(alloc, s.get(), out),
            }
        }
        RawForm::For {
            at,
            variable,
            elems,
            body,
        } => {
            out.push(Fact::Loop(*at))?;
            reference_uses(variable.get(), Reading::Whole, out)?;
            felems(elems.as_slice(), out)?;
            statement_facts(alloc, body.get(), out)
        }
    }
}

#[cycle(facts)]
fn simple_facts(alloc: Global, s: &RawSimple, out: &mut List<Fact>) -> Result<(), NoMemory>
    ensures { OnOk result (out.new ≡ out.old ++ simple_facts s.now) }
{
    match s {
        RawSimple::Empty => Ok(()),
        RawSimple::Assign(reference, e) => {
            reference_uses(reference.get(), Reading::Target, out)?;
            expression_uses(e.get(), Reading::Value, out)
        }
        RawSimple::AssignBits(_, reference, e) => {
            reference_uses(reference.get(), Reading::Whole, out)?;
            expression_uses(e.get(), Reading::Value, out)
        }
        RawSimple::Goto(_, name) => note(*name.get(), Form::Goto, out),
        RawSimple::GotoSwitch(_, name, index) => {
            note(*name.get(), Form::GotoSwitch, out)?;
            expression_uses(index.get(), Reading::Value, out)
        }
        RawSimple::Call(name, arguments) => {
            note(*name.get(), Form::Call, out)?;
            argument_uses(arguments.as_slice(), out)
        }
        RawSimple::Answer(at, e) => {
            note(answer_name(*at), Form::Answer, out)?;
            expression_uses(e.get(), Reading::Value, out)
        }
        RawSimple::Block(block) => block_facts(alloc, block.get(), false, out),
    }
}

/// Adds the facts of a block.
#[cycle(facts)]
pub fn block_facts(
    alloc: Global,
    block: &RawBlock,
    outermost: bool,
    out: &mut List<Fact>,
) -> Result<(), NoMemory>
    ensures { OnOk result (out.new ≡ out.old ++ block_facts block.now outermost) }
{
    if outermost || block.decls.as_slice().len() != 0 {
        let mut facts = List::new(alloc);
        parts_facts(alloc, block, &mut facts)?;
        enclose(facts, out)
    } else {
        parts_facts(alloc, block, out)
    }
}

#[cycle(facts)]
fn parts_facts(alloc: Global, block: &RawBlock, out: &mut List<Fact>) -> Result<(), NoMemory>
    ensures { OnOk result (out.new ≡ out.old
        ++ (joined (map declaration_facts (out-RawBlock block.now).decls)
        ++ joined (map statement_facts (out-RawBlock block.now).stmts))) }
{
    for declaration in block.decls.as_slice() {
        declaration_facts(alloc, declaration, out)?;
    }
    for statement in block.stmts.as_slice() {
        statement_facts(alloc, statement, out)?;
    }
    Ok(())
}

#[cycle(facts)]
fn declaration_facts(alloc: Global, d: &RawDecl, out: &mut List<Fact>) -> Result<(), NoMemory>
    ensures { OnOk result (out.new ≡ out.old ++ declaration_facts d.now) }
{
    match d {
        RawDecl::Data(data) => data_facts(alloc, data, out),
        RawDecl::Overlay(_, base, data) => {
            base_facts(base, out)?;
            data_facts(alloc, data, out)
        }
        RawDecl::Switch(_, name, labels) => {
            declare(alloc, *name, Kind::Switch, out)?;
            use_each(labels.as_slice(), out)
        }
        RawDecl::Proc(procedure) => procedure_facts(alloc, procedure.get(), out),
    }
}

#[cycle(facts)]
fn procedure_facts(alloc: Global, p: &RawProc, out: &mut List<Fact>) -> Result<(), NoMemory>
    ensures { OnOk result (out.new ≡ out.old ++ procedure_facts p.now) }
{
    declare(alloc, p.name, Kind::Proc(p.answer), out)?;
    let params = flattened(alloc, p.params.as_slice())?;
    specifies(alloc, p.name.at.token, p.answer, params, out)?;
    let mut facts = List::new(alloc);
    answer(alloc, &p.answer, &mut facts)?;
    parameters(alloc, p.params.as_slice(), &mut facts)?;
    statement_facts(alloc, p.body.get(), &mut facts)?;
    out.push(Fact::Block(Some(p.name.at.token), facts))
}
