//! The switches of a text.
ghost use Rattle.std.specs.Prelude.{◌≡◌, ◌++◌, IfOk, OnOk};
ghost use Rattle.cw_make.specs.Switches.{joined, switches_if, goals_of, declaration_switches, form_switches, simple_switches};
ghost use Rattle.cw_make.specs.Switches.{block_switches, procedure_switches, statement_switches, switches_of};

use cw_make_items::lookup::{goal_of, proc_here};
use cw_make_stmt::statements::Source;
use cw_tree::leaf::RawName;
use cw_tree::statement::{RawBlock, RawDecl, RawForm, RawProc, RawSimple, RawStmt};
use cw_unit::unit::{Goal, Switch};
use cw_word::{List, NoMemory};

fn goals(text: Source, labels: &[RawName]) -> Result<List<Goal>, NoMemory>
    ensures { IfOk result (λ all. all ≡ goals_of text.entry.named.now text.entry.numbers.now labels.now) }
{
    let mut all = List::new(text.alloc);
    for label in labels {
        all.push(goal_of(text.named, text.numbers, label))?;
    }
    Ok(all)
}

#[cycle(switches)]
fn statement_switches(
    s: &RawStmt,
    text: Source,
    proc: Option<u16>,
    out: &mut List<Switch>,
) -> Result<(), NoMemory>
    ensures { OnOk result (out.new ≡ out.old ++ statement_switches text.entry.named.now text.entry.numbers.now s.now proc) }
{
    form_switches(s.form.get(), text, proc, out)
}

#[cycle(switches)]
fn form_switches(
    form: &RawForm,
    text: Source,
    proc: Option<u16>,
    out: &mut List<Switch>,
) -> Result<(), NoMemory>
    ensures { OnOk result (out.new ≡ out.old ++ form_switches text.entry.named.now text.entry.numbers.now form.now proc) }
{
    match form {
        RawForm::Simple(s) => simple_switches(s.get(), text, proc, out),
        RawForm::If { first, second, .. } => {
            simple_switches(first.get(), text, proc, out)?;
            match second {
                None => Ok(()),
                Some(s) => statement_switches(s.get(), text, proc, out),
            }
        }
        RawForm::For { body, .. } => statement_switches(body.get(), text, proc, out),
    }
}

#[cycle(switches)]
fn simple_switches(
    s: &RawSimple,
    text: Source,
    proc: Option<u16>,
    out: &mut List<Switch>,
) -> Result<(), NoMemory>
    ensures { OnOk result (out.new ≡ out.old ++ simple_switches text.entry.named.now text.entry.numbers.now s.now proc) }
{
    match s {
        RawSimple::Block(block) => block_switches(block.get(), text, proc, out),
        _ => Ok(()),
    }
}

#[cycle(switches)]
fn block_switches(
    block: &RawBlock,
    text: Source,
    proc: Option<u16>,
    out: &mut List<Switch>,
) -> Result<(), NoMemory>
    ensures { OnOk result (out.new ≡ out.old ++ block_switches text.entry.named.now text.entry.numbers.now block.now proc) }
{
    for declaration in block.decls.as_slice() {
        declaration_switches(declaration, text, proc, out)?;
    }
    for statement in block.stmts.as_slice() {
        statement_switches(statement, text, proc, out)?;
    }
    Ok(())
}

#[cycle(switches)]
fn declaration_switches(
    d: &RawDecl,
    text: Source,
    proc: Option<u16>,
    out: &mut List<Switch>,
) -> Result<(), NoMemory>
    ensures { OnOk result (out.new ≡ out.old ++ declaration_switches text.entry.named.now text.entry.numbers.now d.now proc) }
{
    match d {
        RawDecl::Data(_) => Ok(()),
        RawDecl::Overlay(..) => Ok(()),
        RawDecl::Switch(_, _, labels) => {
            let list = goals(text, labels.as_slice())?;
            out.push(Switch { proc, list })
        }
        RawDecl::Proc(procedure) => { procedure_switches(procedure.get(), text, proc, out) }
    }
}

#[cycle(switches)]
fn procedure_switches(
    p: &RawProc,
    text: Source,
    around: Option<u16>,
    out: &mut List<Switch>,
) -> Result<(), NoMemory>
    ensures { OnOk result (out.new ≡ out.old ++ procedure_switches text.entry.named.now text.entry.numbers.now p.now around) }
{
    let _ = around;
    let proc = Some(proc_here(text.numbers, p.name.at.token));
    statement_switches(p.body.get(), text, proc, out)
}

/// The switches that a text declares, in order of the text.
pub fn switches_of(text: Source) -> Result<List<Switch>, NoMemory>
    ensures { IfOk result (λ all. all ≡ switches_of text.entry.named.now text.entry.numbers.now text.entry.named.now.raw.now) }
{
    let mut all = List::new(text.alloc);
    block_switches(&text.named.raw.block, text, None, &mut all)?;
    Ok(all)
}
