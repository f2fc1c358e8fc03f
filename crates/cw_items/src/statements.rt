//! What statements and blocks store.
ghost use Rattle.std.specs.Prelude.{◌≡◌, ◌++◌, map, OnOk};
ghost use Rattle.cw_facts.specs.declared.fact.Reading.TheVariants as reading;
ghost use Rattle.cw_facts.specs.Uses.{expression_uses, condition_uses, reference_uses};
ghost use Rattle.cw_tree.specs.declared.statement.RawBlock.{out-RawBlock};
ghost use Rattle.cw_items.specs.Things.{texts, joined, felem_things, felems_things, is_recursive, declaration_things, form_things};
ghost use Rattle.cw_items.specs.Things.{simple_things, block_things, procedure_things, statement_things};

use crate::data::{base_at, data_things, parameters_things, store};
use crate::strings::{argument_strings, condition_strings, expression_strings, reference_strings};
use crate::thing::{Owner, Sort, Thing};
use cw_scope::resolve::Named;
use cw_tree::expression::{RawCond, RawExpr, RawRef};
use cw_tree::statement::{
    RawBlock, RawDecl, RawFelem, RawForm, RawProc, RawPtag, RawSimple, RawStmt,
};
use cw_word::{List, NoMemory};

// ---- strings

// Adds the strings of an expression that is wanted for its value.
fn expression_texts(
    owner: &Option<Owner>,
    e: &RawExpr,
    out: &mut List<Thing>,
) -> Result<(), NoMemory>
    ensures { OnOk result (out.new ≡ out.old ++ texts owner.now (expression_uses e.now reading.Value)) }
{
    expression_strings(e, owner, out)
}

fn condition_texts(
    owner: &Option<Owner>,
    test: &RawCond,
    out: &mut List<Thing>,
) -> Result<(), NoMemory>
    ensures { OnOk result (out.new ≡ out.old ++ texts owner.now (condition_uses test.now reading.Value)) }
{
    condition_strings(test, owner, out)
}

fn reference_texts(owner: &Option<Owner>, r: &RawRef, out: &mut List<Thing>) -> Result<(), NoMemory>
    ensures { OnOk result (out.new ≡ out.old ++ texts owner.now (reference_uses r.now reading.Whole)) }
{
    reference_strings(r, owner, out)
}

fn assigned_texts(
    owner: &Option<Owner>,
    r: &RawRef,
    e: &RawExpr,
    out: &mut List<Thing>,
) -> Result<(), NoMemory>
    ensures target { OnOk result (out.new ≡ out.old ++ texts owner.now (reference_uses r.now reading.Target ++ expression_uses e.now reading.Value)) }
    ensures whole { OnOk result (out.new ≡ out.old ++ texts owner.now (reference_uses r.now reading.Whole ++ expression_uses e.now reading.Value)) }
{
    reference_strings(r, owner, out)?;
    expression_strings(e, owner, out)
}

// ---- FOR

fn felem_things(
    owner: &Option<Owner>,
    element: &RawFelem,
    out: &mut List<Thing>,
) -> Result<(), NoMemory>
    ensures { OnOk result (out.new ≡ out.old ++ felem_things element.now owner.now) }
{
    match element {
        RawFelem::One(e) => expression_texts(owner, e.get(), out),
        RawFelem::While(e, test) => {
            expression_texts(owner, e.get(), out)?;
            condition_texts(owner, test.get(), out)
        }
        RawFelem::Step(first, step, last) => {
            expression_texts(owner, first.get(), out)?;
            expression_texts(owner, step.get(), out)?;
            expression_texts(owner, last.get(), out)
        }
    }
}

fn felems_things(
    owner: &Option<Owner>,
    elements: &[RawFelem],
    out: &mut List<Thing>,
) -> Result<(), NoMemory>
    ensures { OnOk result (out.new ≡ out.old ++ felems_things elements.now owner.now) }
{
    for element in elements {
        felem_things(owner, element, out)?;
    }
    Ok(())
}

// ---- statements

fn is_recursive(tag: &RawPtag) -> bool
    ensures { result ≡ is_recursive tag.now }
{
    match tag {
        RawPtag::Procedure(_) => false,
        RawPtag::Recursive(_) => true,
    }
}

#[cycle(things)]
fn statement_things(
    s: &RawStmt,
    named: &Named,
    owner: &Option<Owner>,
    out: &mut List<Thing>,
) -> Result<(), NoMemory>
    ensures { OnOk result (out.new ≡ out.old ++ statement_things named.now s.now owner.now) }
{
    form_things(s.form.get(), named, owner, out)
}

#[cycle(things)]
fn form_things(
    form: &RawForm,
    named: &Named,
    owner: &Option<Owner>,
    out: &mut List<Thing>,
) -> Result<(), NoMemory>
    ensures { OnOk result (out.new ≡ out.old ++ form_things named.now form.now owner.now) }
{
    match form {
        RawForm::Simple(s) => simple_things(s.get(), named, owner, out),
        RawForm::If {
            test,
            first,
            second,
            ..
        } => {
            condition_texts(owner, test.get(), out)?;
            simple_things(first.get(), named, owner, out)?;
            match second {
                None => Ok(()),
                Some(s) => statement_things(s.get(), named, owner, out),
            }
        }
        RawForm::For {
            at,
            variable,
            elems,
            body,
        } => {
            store(Sort::Loop, *at, owner, &None, 4, out)?;
            reference_texts(owner, variable.get(), out)?;
            felems_things(owner, elems.as_slice(), out)?;
            statement_things(body.get(), named, owner, out)
        }
    }
}

#[cycle(things)]
fn simple_things(
    s: &RawSimple,
    named: &Named,
    owner: &Option<Owner>,
    out: &mut List<Thing>,
) -> Result<(), NoMemory>
    ensures { OnOk result (out.new ≡ out.old ++ simple_things named.now s.now owner.now) }
{
    match s {
        RawSimple::Empty => Ok(()),
        RawSimple::Assign(r, e) => assigned_texts(owner, r.get(), e.get(), out),
        RawSimple::AssignBits(_, r, e) => assigned_texts(owner, r.get(), e.get(), out),
        RawSimple::Goto(..) => Ok(()),
        RawSimple::GotoSwitch(_, _, index) => expression_texts(owner, index.get(), out),
        RawSimple::Call(_, arguments) => { argument_strings(arguments.as_slice(), owner, out) }
        RawSimple::Answer(_, e) => expression_texts(owner, e.get(), out),
        RawSimple::Block(block) => block_things(block.get(), named, owner, out),
    }
}

/// Adds what a block stores.
#[cycle(things)]
pub(crate) fn block_things(
    block: &RawBlock,
    named: &Named,
    owner: &Option<Owner>,
    out: &mut List<Thing>,
) -> Result<(), NoMemory>
    ensures { OnOk result (out.new ≡ out.old ++ block_things named.now block.now owner.now) }
{
    for declaration in block.decls.as_slice() {
        declaration_things(declaration, named, owner, out)?;
    }
    for statement in block.stmts.as_slice() {
        statement_things(statement, named, owner, out)?;
    }
    Ok(())
}

#[cycle(things)]
fn declaration_things(
    d: &RawDecl,
    named: &Named,
    owner: &Option<Owner>,
    out: &mut List<Thing>,
) -> Result<(), NoMemory>
    ensures { OnOk result (out.new ≡ out.old ++ declaration_things named.now d.now owner.now) }
{
    match d {
        RawDecl::Data(items) => data_things(owner, &None, items, out),
        RawDecl::Overlay(_, base, items) => {
            data_things(owner, &Some(base_at(named, base)), items, out)
        }
        RawDecl::Switch(..) => Ok(()),
        RawDecl::Proc(procedure) => procedure_things(procedure.get(), named, owner, out),
    }
}

#[cycle(things)]
fn procedure_things(
    p: &RawProc,
    named: &Named,
    around: &Option<Owner>,
    out: &mut List<Thing>,
) -> Result<(), NoMemory>
    ensures { OnOk result (out.new ≡ out.old ++ procedure_things named.now p.now around.now) }
{
    let _ = around;
    let owner = Some(Owner {
        token: p.name.at.token,
        recursive: is_recursive(&p.tag),
    });
    parameters_things(&owner, p.params.as_slice(), out)?;
    statement_things(p.body.get(), named, &owner, out)
}
