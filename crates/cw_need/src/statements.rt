//! The most words in hand at once in statements.
ghost use Rattle.std.specs.Prelude.{◌≡◌};
ghost use Rattle.cw_unit.specs.StackBound.{jump_depth, element_depth, elements_depth, body_depth};
ghost use Rattle.cw_need.specs.Told.{told};

use crate::expressions::{arguments_depth, condition_depth, operand_depth, spot_depth, two_depth};
use cw_unit::unit::{Dest, Felem, Stmt};

/// Of a jump.
fn jump_depth(jump: &Dest) -> u32
    ensures { result ≡ told (jump_depth jump.now) }
{
    match jump {
        Dest::Goal(_) | Dest::Special(_) => 0,
        Dest::Switch(_, e) | Dest::CommonSwitch(_, e) | Dest::SpecialSwitch(_, e) => {
            operand_depth(e)
        }
    }
}

/// Of an element of a FOR.
fn element_depth(element: &Felem) -> u32
    ensures { result ≡ told (element_depth element.now) }
{
    match element {
        Felem::One(e) => operand_depth(e),
        Felem::While(e, condition) => operand_depth(e).max(condition_depth(condition)),
        Felem::Step(first, step, limit) => {
            operand_depth(first).max(operand_depth(step).max(operand_depth(limit)))
        }
    }
}

/// Of the elements of a FOR.
fn elements_depth(elements: &[Felem]) -> u32
    ensures { result ≡ told (elements_depth elements.now) }
{
    let mut most = 0;
    for element in elements {
        most = element_depth(element).max(most);
    }
    most
}

/// Of a statement.
#[tactic(auto, using(crate::proofs::Layers::layers))]
pub(crate) fn body_depth(statement: &Stmt) -> u32
    ensures { result ≡ told (body_depth statement.now) }
{
    match statement {
        Stmt::Put(_, reference, e) => two_depth(operand_depth(e), spot_depth(&reference.at)),
        Stmt::PutBits(_, _, _, reference, e) => {
            two_depth(operand_depth(e), spot_depth(&reference.at))
        }
        Stmt::Go(_, jump) => jump_depth(jump),
        Stmt::Call(_, _, arguments) => arguments_depth(arguments.as_slice()),
        Stmt::Answer(_, e) => operand_depth(e),
        Stmt::If(_, condition, holds, fails) => {
            let most = body_depth(holds.get()).max(body_depth(fails.get()));
            condition_depth(condition).max(most)
        }
        Stmt::For(_, _, reference, elements, body) => {
            let most = elements_depth(elements.as_slice()).max(body_depth(body.get()));
            spot_depth(&reference.at).max(most)
        }
        Stmt::Seq(list) => {
            let mut most = 0;
            for each in list.as_slice() {
                most = body_depth(each).max(most);
            }
            most
        }
        Stmt::Mark(_, marked) => body_depth(marked.get()),
    }
}
