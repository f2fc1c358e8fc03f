//! What the items of a text hold at the start.
ghost use Rattle.std.specs.Prelude.{◌≡◌, ◌++◌, ◌∷◌, [], map, IfOk, OnOk};
ghost use Rattle.cw_preset.specs.Strings.{joined, expression_rows, condition_rows, reference_rows, argument_rows};
ghost use Rattle.cw_preset.specs.Held.{felem_rows, felems_rows, rows_if, declaration_rows, form_rows, simple_rows, block_rows, procedure_rows};
ghost use Rattle.cw_preset.specs.Held.{statement_rows, citem_rows, citems_rows, communicator_rows, communicators_rows, held_of};

use crate::lists::data_rows;
use crate::strings::{argument_rows, condition_rows, expression_rows, reference_rows};
use cw_table::table::{Row, Table};
use cw_tree::expression::{RawExpr, RawRef};
use cw_tree::segment::{Raw, RawCitem, RawComm};
use cw_tree::statement::{RawBlock, RawDecl, RawFelem, RawForm, RawProc, RawSimple, RawStmt};
use cw_word::{List, NoMemory};
use std::alloc::Global;

fn felem_rows(
    element: &RawFelem,
    alloc: Global,
    out: &mut List<Row<List<(u16, u16)>>>,
) -> Result<(), NoMemory>
    ensures { OnOk result (out.new ≡ out.old ++ felem_rows element.now) }
{
    match element {
        RawFelem::One(e) => expression_rows(e.get(), alloc, out),
        RawFelem::While(e, test) => {
            expression_rows(e.get(), alloc, out)?;
            condition_rows(test.get(), alloc, out)
        }
        RawFelem::Step(first, step, last) => {
            expression_rows(first.get(), alloc, out)?;
            expression_rows(step.get(), alloc, out)?;
            expression_rows(last.get(), alloc, out)
        }
    }
}

fn felems_rows(
    elements: &[RawFelem],
    alloc: Global,
    out: &mut List<Row<List<(u16, u16)>>>,
) -> Result<(), NoMemory>
    ensures { OnOk result (out.new ≡ out.old ++ felems_rows elements.now) }
{
    for element in elements {
        felem_rows(element, alloc, out)?;
    }
    Ok(())
}

fn assigned_rows(
    reference: &RawRef,
    value: &RawExpr,
    alloc: Global,
    out: &mut List<Row<List<(u16, u16)>>>,
) -> Result<(), NoMemory>
    ensures { OnOk result (out.new ≡ out.old ++ (reference_rows reference.now ++ expression_rows value.now)) }
{
    reference_rows(reference, alloc, out)?;
    expression_rows(value, alloc, out)
}

#[cycle(held)]
fn statement_rows(
    s: &RawStmt,
    alloc: Global,
    out: &mut List<Row<List<(u16, u16)>>>,
) -> Result<(), NoMemory>
    ensures { OnOk result (out.new ≡ out.old ++ statement_rows s.now) }
{
    form_rows(s.form.get(), alloc, out)
}

#[cycle(held)]
fn form_rows(
    form: &RawForm,
    alloc: Global,
    out: &mut List<Row<List<(u16, u16)>>>,
) -> Result<(), NoMemory>
    ensures { OnOk result (out.new ≡ out.old ++ form_rows form.now) }
{
    match form {
        RawForm::Simple(s) => simple_rows(s.get(), alloc, out),
        RawForm::If {
            test,
            first,
            second,
            ..
        } => {
            condition_rows(test.get(), alloc, out)?;
            simple_rows(first.get(), alloc, out)?;
            match second {
                None => Ok(()),
                Some(s) => statement_rows(s.get(), alloc, out),
            }
        }
        RawForm::For {
            variable,
            elems,
            body,
            ..
        } => {
            reference_rows(variable.get(), alloc, out)?;
            felems_rows(elems.as_slice(), alloc, out)?;
            statement_rows(body.get(), alloc, out)
        }
    }
}

#[cycle(held)]
fn simple_rows(
    s: &RawSimple,
    alloc: Global,
    out: &mut List<Row<List<(u16, u16)>>>,
) -> Result<(), NoMemory>
    ensures { OnOk result (out.new ≡ out.old ++ simple_rows s.now) }
{
    match s {
        RawSimple::Empty => Ok(()),
        RawSimple::Assign(r, e) => assigned_rows(r.get(), e.get(), alloc, out),
        RawSimple::AssignBits(_, r, e) => assigned_rows(r.get(), e.get(), alloc, out),
        RawSimple::Goto(..) => Ok(()),
        RawSimple::GotoSwitch(_, _, index) => expression_rows(index.get(), alloc, out),
        RawSimple::Call(_, arguments) => argument_rows(arguments.as_slice(), alloc, out),
        RawSimple::Answer(_, e) => expression_rows(e.get(), alloc, out),
        RawSimple::Block(block) => block_rows(block.get(), alloc, out),
    }
}

#[cycle(held)]
fn block_rows(
    block: &RawBlock,
    alloc: Global,
    out: &mut List<Row<List<(u16, u16)>>>,
) -> Result<(), NoMemory>
    ensures { OnOk result (out.new ≡ out.old ++ block_rows block.now) }
{
    for declaration in block.decls.as_slice() {
        declaration_rows(declaration, alloc, out)?;
    }
    for statement in block.stmts.as_slice() {
        statement_rows(statement, alloc, out)?;
    }
    Ok(())
}

#[cycle(held)]
fn declaration_rows(
    d: &RawDecl,
    alloc: Global,
    out: &mut List<Row<List<(u16, u16)>>>,
) -> Result<(), NoMemory>
    ensures { OnOk result (out.new ≡ out.old ++ declaration_rows d.now) }
{
    match d {
        RawDecl::Data(items) => data_rows(items, alloc, out),
        RawDecl::Overlay(_, _, items) => data_rows(items, alloc, out),
        RawDecl::Switch(..) => Ok(()),
        RawDecl::Proc(procedure) => procedure_rows(procedure.get(), alloc, out),
    }
}

#[cycle(held)]
fn procedure_rows(
    p: &RawProc,
    alloc: Global,
    out: &mut List<Row<List<(u16, u16)>>>,
) -> Result<(), NoMemory>
    ensures { OnOk result (out.new ≡ out.old ++ procedure_rows p.now) }
{
    statement_rows(p.body.get(), alloc, out)
}

fn citem_rows(
    item: &RawCitem,
    alloc: Global,
    out: &mut List<Row<List<(u16, u16)>>>,
) -> Result<(), NoMemory>
    ensures { OnOk result (out.new ≡ out.old ++ citem_rows item.now) }
{
    match item {
        RawCitem::Data(items) => data_rows(items, alloc, out),
        RawCitem::Overlay(_, _, items) => data_rows(items, alloc, out),
        RawCitem::Label(..) | RawCitem::Switch(..) | RawCitem::Spec(_) => Ok(()),
    }
}

fn citems_rows(
    items: &[RawCitem],
    alloc: Global,
    out: &mut List<Row<List<(u16, u16)>>>,
) -> Result<(), NoMemory>
    ensures { OnOk result (out.new ≡ out.old ++ citems_rows items.now) }
{
    for item in items {
        citem_rows(item, alloc, out)?;
    }
    Ok(())
}

fn communicator_rows(
    list: &RawComm,
    alloc: Global,
    out: &mut List<Row<List<(u16, u16)>>>,
) -> Result<(), NoMemory>
    ensures { OnOk result (out.new ≡ out.old ++ communicator_rows list.now) }
{
    match list {
        RawComm::Common(_, items) => citems_rows(items.as_slice(), alloc, out),
        RawComm::Library(..) | RawComm::Absolute(..) => Ok(()),
    }
}

fn communicators_rows(
    lists: &[RawComm],
    alloc: Global,
    out: &mut List<Row<List<(u16, u16)>>>,
) -> Result<(), NoMemory>
    ensures { OnOk result (out.new ≡ out.old ++ communicators_rows lists.now) }
{
    for list in lists {
        communicator_rows(list, alloc, out)?;
    }
    Ok(())
}

fn rows_of(alloc: Global, raw: &Raw) -> Result<List<Row<List<(u16, u16)>>>, NoMemory>
    ensures { IfOk result (λ rows. rows ≡ held_of raw.now) }
{
    let mut rows = List::new(alloc);
    communicators_rows(raw.comms.as_slice(), alloc, &mut rows)?;
    block_rows(&raw.block, alloc, &mut rows)?;
    Ok(rows)
}

fn words_again(alloc: Global, words: &[(u16, u16)]) -> Result<List<(u16, u16)>, NoMemory>
    ensures { IfOk result (λ all. all ≡ words.now) }
{
    let mut all = List::new(alloc);
    for one in words {
        all.push(*one)?;
    }
    Ok(all)
}

fn table_of(
    alloc: Global,
    rows: &[Row<List<(u16, u16)>>],
) -> Result<Table<List<(u16, u16)>>, NoMemory>
    ensures { IfOk result (λ t. t ≡ rows.now) }
{
    let mut all = Table::new(alloc);
    for row in rows {
        let words = words_again(alloc, row.item.as_slice())?;
        all = all.with(row.token, words)?;
    }
    Ok(all)
}

/// What the items of a text hold at the start: words by their offsets, found by the items' tokens.
pub fn held_of(alloc: Global, raw: &Raw) -> Result<Table<List<(u16, u16)>>, NoMemory>
    ensures { IfOk result (λ t. t ≡ held_of raw.now) }
{
    let rows = rows_of(alloc, raw)?;
    table_of(alloc, rows.as_slice())
}
