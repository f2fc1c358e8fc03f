//! The rules of types in statements and blocks.
ghost use Rattle.std.specs.Prelude.{◌≡◌, map};
ghost use Rattle.cw_facts.specs.Facts.{answer_name};
ghost use Rattle.cw_scale.specs.Kinds.{kind_of, fraction_of_kind};
ghost use Rattle.cw_judge.specs.Judged.{felem_judged, felems_judged, all_judged, declaration_judged, form_judged};
ghost use Rattle.cw_judge.specs.Judged.{simple_judged, block_judged, procedure_judged, statement_judged};

use crate::declared::{judge_declared, judge_overlaid};
use crate::sites::{count_arguments, scale_of, whole_condition, whole_expression, whole_reference};
use cw_data::specifications::{judge_heading, judge_switch};
use cw_facts::declarations::answer_name;
use cw_items::families::Site;
use cw_scale::fault::Fault;
use cw_scale::judge::judge_call;
use cw_scale::kinds::name_fraction;
use cw_scale::types::judge_bits;
use cw_scope::resolve::Named;
use cw_table::table::Table;
use cw_tree::statement::{RawBlock, RawDecl, RawFelem, RawForm, RawProc, RawSimple, RawStmt};

fn judge_felem(element: &RawFelem, named: &Named, scale: u8, first: &mut Option<Fault>)
    ensures { first.new ≡ felem_judged named.now scale element.now first.old }
{
    match element {
        RawFelem::One(e) => whole_expression(e.get(), named, scale, first),
        RawFelem::While(e, test) => {
            whole_expression(e.get(), named, scale, first);
            whole_condition(test.get(), named, first);
        }
        RawFelem::Step(start, step, last) => {
            whole_expression(start.get(), named, scale, first);
            whole_expression(step.get(), named, scale, first);
            whole_expression(last.get(), named, scale, first);
        }
    }
}

fn judge_felems(elements: &[RawFelem], named: &Named, scale: u8, first: &mut Option<Fault>)
    ensures { first.new ≡ felems_judged named.now scale elements.now first.old }
{
    for element in elements {
        judge_felem(element, named, scale, first);
    }
}

#[cycle(judged)]
fn judge_statement(s: &RawStmt, named: &Named, sites: &Table<Site>, first: &mut Option<Fault>)
    ensures { first.new ≡ statement_judged named.now sites.now s.now first.old }
{
    judge_form(s.form.get(), named, sites, first);
}

#[cycle(judged)]
fn judge_form(form: &RawForm, named: &Named, sites: &Table<Site>, first: &mut Option<Fault>)
    ensures { first.new ≡ form_judged named.now sites.now form.now first.old }
{
    match form {
        RawForm::Simple(s) => judge_simple(s.get(), named, sites, first),
        RawForm::If {
            test,
            first: arm,
            second,
            ..
        } => {
            whole_condition(test.get(), named, first);
            judge_simple(arm.get(), named, sites, first);
            match second {
                None => {}
                Some(s) => judge_statement(s.get(), named, sites, first),
            }
        }
        RawForm::For {
            variable,
            elems,
            body,
            ..
        } => {
            let variable = variable.get();
            whole_reference(variable, named, first);
            judge_felems(elems.as_slice(), named, scale_of(variable, named), first);
            judge_statement(body.get(), named, sites, first);
        }
    }
}

#[cycle(judged)]
fn judge_simple(s: &RawSimple, named: &Named, sites: &Table<Site>, first: &mut Option<Fault>)
    ensures { first.new ≡ simple_judged named.now sites.now s.now first.old }
{
    match s {
        RawSimple::Empty => {}
        RawSimple::Assign(r, e) => {
            let r = r.get();
            whole_reference(r, named, first);
            whole_expression(e.get(), named, scale_of(r, named), first);
        }
        RawSimple::AssignBits(bits, r, e) => {
            judge_bits(bits.get(), first);
            whole_reference(r.get(), named, first);
            whole_expression(e.get(), named, 0, first);
        }
        RawSimple::Goto(..) => {}
        RawSimple::GotoSwitch(_, _, index) => whole_expression(index.get(), named, 0, first),
        RawSimple::Call(name, arguments) => {
            let arguments = arguments.as_slice();
            judge_call(name.get(), arguments, named, first);
            count_arguments(arguments, first);
        }
        RawSimple::Answer(at, e) => {
            let scale = name_fraction(named, &answer_name(*at));
            whole_expression(e.get(), named, scale, first);
        }
        RawSimple::Block(block) => judge_block(block.get(), named, sites, first),
    }
}

/// Judges a block.
#[cycle(judged)]
pub(crate) fn judge_block(
    block: &RawBlock,
    named: &Named,
    sites: &Table<Site>,
    first: &mut Option<Fault>,
)
    ensures { first.new ≡ block_judged named.now sites.now block.now first.old }
{
    for declaration in block.decls.as_slice() {
        judge_declaration(declaration, named, sites, first);
    }
    for statement in block.stmts.as_slice() {
        judge_statement(statement, named, sites, first);
    }
}

#[cycle(judged)]
fn judge_declaration(d: &RawDecl, named: &Named, sites: &Table<Site>, first: &mut Option<Fault>)
    ensures { first.new ≡ declaration_judged named.now sites.now d.now first.old }
{
    match d {
        RawDecl::Data(items) => judge_declared(sites, items, first),
        RawDecl::Overlay(_, base, items) => judge_overlaid(named, sites, base, items, first),
        RawDecl::Switch(_, name, labels) => judge_switch(name, labels.as_slice(), first),
        RawDecl::Proc(procedure) => judge_procedure(procedure.get(), named, sites, first),
    }
}

#[cycle(judged)]
fn judge_procedure(p: &RawProc, named: &Named, sites: &Table<Site>, first: &mut Option<Fault>)
    ensures { first.new ≡ procedure_judged named.now sites.now p.now first.old }
{
    judge_heading(named, &p.answer, &p.name, p.params.as_slice(), first);
    judge_statement(p.body.get(), named, sites, first);
}
