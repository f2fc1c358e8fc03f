//! What statements mention.
ghost use Rattle.std.specs.Prelude.{◌≡◌, ◌++◌, map, OnOk};
ghost use Rattle.cw_depth.specs.Mentions.{joined, in_element, in_jump, in_statement};

use crate::expressions::{add_arguments, add_call, add_condition, add_expression, add_spot};
use crate::mention::Mention;
use cw_unit::unit::{Dest, Felem, Stmt};
use cw_word::{List, NoMemory};

// Of a jump.
fn add_jump(out: &mut List<Mention>, jump: &Dest) -> Result<(), NoMemory>
    ensures { OnOk result (out.new ≡ out.old ++ in_jump jump.now) }
{
    match jump {
        Dest::Goal(_) | Dest::Special(_) => Ok(()),
        Dest::Switch(_, e) | Dest::CommonSwitch(_, e) | Dest::SpecialSwitch(_, e) => {
            add_expression(out, e)
        }
    }
}

// Of an element of a FOR.
fn add_element(out: &mut List<Mention>, element: &Felem) -> Result<(), NoMemory>
    ensures { OnOk result (out.new ≡ out.old ++ in_element element.now) }
{
    match element {
        Felem::One(e) => add_expression(out, e),
        Felem::While(e, condition) => {
            add_expression(out, e)?;
            add_condition(out, condition)
        }
        Felem::Step(first, step, limit) => {
            add_expression(out, first)?;
            add_expression(out, step)?;
            add_expression(out, limit)
        }
    }
}

// Of the elements of a FOR.
fn add_elements(out: &mut List<Mention>, elements: &[Felem]) -> Result<(), NoMemory>
    ensures { OnOk result (out.new ≡ out.old ++ joined (map in_element elements.now)) }
{
    for element in elements {
        add_element(out, element)?;
    }
    Ok(())
}

/// Of a statement.
#[tactic(auto, using(crate::proofs::Layers::layers))]
pub(crate) fn add_statement(out: &mut List<Mention>, statement: &Stmt) -> Result<(), NoMemory>
    ensures { OnOk result (out.new ≡ out.old ++ in_statement statement.now) }
{
    match statement {
        Stmt::Put(_, reference, e) => {
            add_spot(out, &reference.at)?;
            add_expression(out, e)
        }
        Stmt::PutBits(_, _, _, reference, e) => {
            add_spot(out, &reference.at)?;
            add_expression(out, e)
        }
        Stmt::Go(_, jump) => add_jump(out, jump),
        Stmt::Call(_, target, arguments) => {
            add_call(out, *target)?;
            add_arguments(out, arguments.as_slice())
        }
        Stmt::Answer(_, e) => add_expression(out, e),
        Stmt::If(_, condition, holds, fails) => {
            add_condition(out, condition)?;
            add_statement(out, holds.get())?;
            add_statement(out, fails.get())
        }
        Stmt::For(_, _, reference, elements, body) => {
            add_spot(out, &reference.at)?;
            add_elements(out, elements.as_slice())?;
            add_statement(out, body.get())
        }
        Stmt::Seq(list) => {
            for each in list.as_slice() {
                add_statement(out, each)?;
            }
            Ok(())
        }
        Stmt::Mark(_, marked) => add_statement(out, marked.get()),
    }
}
