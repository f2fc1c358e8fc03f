//! The procedures of a text.
ghost use Rattle.std.specs.Prelude.{◌≡◌, ◌++◌, ◌∷◌, [], IfOk, OnOk};
ghost use Rattle.cw_make.specs.Procedures.{param_of, each_param, params_in, params_of, is_control, controls_from};
ghost use Rattle.cw_make.specs.Procedures.{proc_of, joined, procedures_if, declaration_procs};
ghost use Rattle.cw_make.specs.Procedures.{form_procs, simple_procs, block_procs, procedure_procs, statement_procs, procs_of};
ghost use Rattle.cw_number.specs.things.Things.{is_recursive};

use cw_make_items::lookup::{control_here, item_here};
use cw_make_items::types::{answer_of, plain_spec, scale_of, width_of};
use cw_make_stmt::statements::{Source, statement_of};
use cw_tree::leaf::RawName;
use cw_tree::statement::{
    RawBlock, RawDecl, RawForm, RawParam, RawProc, RawPtag, RawSimple, RawStmt,
};
use cw_unit::unit::{Param, Proc};
use cw_word::{List, NoMemory};

fn param_of(text: Source, param: &RawParam, name: &RawName) -> Result<Param, NoMemory>
    ensures { IfOk result (λ p. p ≡ param_of text.entry.numbers.now param.now name.now) }
{
    let token = name.at.token;
    match param {
        RawParam::Value(_, scale, _) => {
            Ok(Param::Value(item_here(text.numbers, token), scale_of(scale)))
        }
        RawParam::Location(_, scale, _) => {
            Ok(Param::Location(item_here(text.numbers, token), scale_of(scale)))
        }
        RawParam::Array(scale, _) => {
            Ok(Param::Array(item_here(text.numbers, token), scale_of(scale)))
        }
        RawParam::Table(table) => {
            Ok(Param::Table(item_here(text.numbers, token), width_of(&table.size)))
        }
        RawParam::Label(..) => Ok(Param::Label(control_here(text.numbers, token))),
        RawParam::Switch(..) => Ok(Param::Switch(control_here(text.numbers, token))),
        RawParam::Proc(answer, _, _, params) => {
            let spec = plain_spec(text.alloc, answer, params.as_slice())?;
            Ok(Param::Proc(control_here(text.numbers, token), spec))
        }
    }
}

fn each_param(
    text: Source,
    param: &RawParam,
    names: &[RawName],
    out: &mut List<Param>,
) -> Result<(), NoMemory>
    ensures { OnOk result (out.new ≡ out.old ++ each_param text.entry.numbers.now param.now names.now) }
{
    for name in names {
        let one = param_of(text, param, name)?;
        out.push(one)?;
    }
    Ok(())
}

fn params_in(text: Source, param: &RawParam, out: &mut List<Param>) -> Result<(), NoMemory>
    ensures { OnOk result (out.new ≡ out.old ++ params_in text.entry.numbers.now param.now) }
{
    match param {
        RawParam::Value(_, _, names) => each_param(text, param, names.as_slice(), out),
        RawParam::Location(_, _, names) => each_param(text, param, names.as_slice(), out),
        RawParam::Array(_, names) => each_param(text, param, names.as_slice(), out),
        RawParam::Table(table) => {
            let one = param_of(text, param, &table.name)?;
            out.push(one)
        }
        RawParam::Label(_, names) => each_param(text, param, names.as_slice(), out),
        RawParam::Switch(_, names) => each_param(text, param, names.as_slice(), out),
        RawParam::Proc(_, _, name, _) => {
            let one = param_of(text, param, name)?;
            out.push(one)
        }
    }
}

fn params_of(text: Source, params: &[RawParam]) -> Result<List<Param>, NoMemory>
    ensures { IfOk result (λ all. all ≡ params_of text.entry.numbers.now params.now) }
{
    let mut all = List::new(text.alloc);
    for param in params {
        params_in(text, param, &mut all)?;
    }
    Ok(all)
}

fn is_control(param: &Param) -> bool
    ensures { result ≡ is_control param.now }
{
    match param {
        Param::Label(_) => true,
        Param::Switch(_) => true,
        Param::Proc(..) => true,
        _ => false,
    }
}

// How many parameters are labels, switches or procedures.
fn controls(params: &[Param]) -> u8
    ensures { result ≡ controls_from 0 params.now }
{
    let mut count = 0u8;
    for param in params {
        if is_control(param) {
            count = count.saturating_add(1);
        }
    }
    count
}

fn is_recursive(tag: &RawPtag) -> bool
    ensures { result ≡ is_recursive tag.now }
{
    match tag {
        RawPtag::Procedure(_) => false,
        RawPtag::Recursive(_) => true,
    }
}

fn proc_of(text: Source, p: &RawProc) -> Result<Proc, NoMemory>
    ensures { IfOk result (λ q. q ≡ proc_of text.entry.named.now text.entry.numbers.now p.now) }
{
    let params = params_of(text, p.params.as_slice())?;
    let specials = controls(params.as_slice());
    let body = statement_of(text, p.body.get())?;
    Ok(Proc {
        name: p.name.name,
        answer: answer_of(&p.answer),
        recursive: is_recursive(&p.tag),
        params,
        specials,
        body,
    })
}

#[cycle(procedures)]
fn statement_procs(s: &RawStmt, text: Source, out: &mut List<Proc>) -> Result<(), NoMemory>
    ensures { OnOk result (out.new ≡ out.old ++ statement_procs text.entry.named.now text.entry.numbers.now s.now) }
{
    form_procs(s.form.get(), text, out)
}

#[cycle(procedures)]
fn form_procs(form: &RawForm, text: Source, out: &mut List<Proc>) -> Result<(), NoMemory>
    ensures { OnOk result (out.new ≡ out.old ++ form_procs text.entry.named.now text.entry.numbers.now form.now) }
{
    match form {
        RawForm::Simple(s) => simple_procs(s.get(), text, out),
        RawForm::If { first, second, .. } => {
            simple_procs(first.get(), text, out)?;
            match second {
                None => Ok(()),
                Some(s) => statement_procs(s.get(), text, out),
            }
        }
        RawForm::For { body, .. } => statement_procs(body.get(), text, out),
    }
}

#[cycle(procedures)]
fn simple_procs(s: &RawSimple, text: Source, out: &mut List<Proc>) -> Result<(), NoMemory>
    ensures { OnOk result (out.new ≡ out.old ++ simple_procs text.entry.named.now text.entry.numbers.now s.now) }
{
    match s {
        RawSimple::Block(block) => block_procs(block.get(), text, out),
        _ => Ok(()),
    }
}

#[cycle(procedures)]
fn block_procs(block: &RawBlock, text: Source, out: &mut List<Proc>) -> Result<(), NoMemory>
    ensures { OnOk result (out.new ≡ out.old ++ block_procs text.entry.named.now text.entry.numbers.now block.now) }
{
    for declaration in block.decls.as_slice() {
        declaration_procs(declaration, text, out)?;
    }
    for statement in block.stmts.as_slice() {
        statement_procs(statement, text, out)?;
    }
    Ok(())
}

#[cycle(procedures)]
fn declaration_procs(d: &RawDecl, text: Source, out: &mut List<Proc>) -> Result<(), NoMemory>
    ensures { OnOk result (out.new ≡ out.old ++ declaration_procs text.entry.named.now text.entry.numbers.now d.now) }
{
    match d {
        RawDecl::Proc(procedure) => {
            let made = proc_of(text, procedure.get())?;
            out.push(made)?;
            procedure_procs(procedure.get(), text, out)
        }
        _ => Ok(()),
    }
}

#[cycle(procedures)]
fn procedure_procs(p: &RawProc, text: Source, out: &mut List<Proc>) -> Result<(), NoMemory>
    ensures { OnOk result (out.new ≡ out.old ++ procedure_procs text.entry.named.now text.entry.numbers.now p.now) }
{
    statement_procs(p.body.get(), text, out)
}

/// The procedures of a text, in order of the text.
pub fn procs_of(text: Source) -> Result<List<Proc>, NoMemory>
    ensures { IfOk result (λ all. all ≡ procs_of text.entry.named.now text.entry.numbers.now text.entry.named.now.raw.now) }
{
    let mut all = List::new(text.alloc);
    block_procs(&text.named.raw.block, text, &mut all)?;
    Ok(all)
}
