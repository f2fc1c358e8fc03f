//! The most words in hand at once in expressions, conditions, references and arguments.
ghost use Rattle.std.specs.Prelude.{◌≡◌, ◌+◌, ◌≤◌, ◌⊎◌, ℕ, max};
ghost use Rattle.cw_unit.specs.StackBound.{ArgumentNeed, operand_depth, condition_depth, address_depth, argument_depth};
ghost use Rattle.cw_unit.specs.StackBound.{arguments_depth, argument_depths, two_depth};
ghost use Rattle.cw_need.specs.Told.{told};
ghost use Rattle.cw_need.specs.Depths.{spot_depth};

use cw_unit::unit::{Arg, Cond, Expr, Spot};

/// As many words as are told.
const MOST: u32 = 65_536;

/// Words that stay, with more on them.
pub(crate) fn told_sum(kept: u32, more: u32) -> u32
    requires kept { kept ≤ 65536 }
    requires more { more ≤ 65536 }
    ensures { result ≡ told (kept + more) }
{
    (kept + more).min(MOST)
}

/// The depth of two operands, the first of which stays in hand.
pub(crate) fn two_depth(first: u32, second: u32) -> u32
    requires first { first ≤ 65536 }
    requires second { second ≤ 65536 }
    ensures { (m n : ℕ) → first ≡ told m → second ≡ told n → result ≡ told (two_depth m n) }
{
    first.max(told_sum(1, second))
}

/// Of an expression.
#[cycle(tree)]
#[tactic(auto, using(crate::proofs::Layers::layers))]
pub(crate) fn operand_depth(e: &Expr) -> u32
    ensures { result ≡ told (operand_depth e.now) }
{
    match e {
        Expr::Num(_) | Expr::Const(_) | Expr::Text(_) => 1,
        Expr::Read(reference) => spot_depth(&reference.get().at),
        Expr::Call(_, arguments) => arguments_depth(arguments.as_slice()).max(1),
        Expr::Force(_, a) => operand_depth(a.get()),
        Expr::Locate(reference) => spot_depth(&reference.get().at),
        Expr::Bits(_, _, a) => operand_depth(a.get()),
        Expr::Logic(_, a, b) => two_depth(operand_depth(a.get()), operand_depth(b.get())),
        Expr::Sum(a, b) => two_depth(operand_depth(a.get()), operand_depth(b.get())),
        Expr::Less(a, b) => two_depth(operand_depth(a.get()), operand_depth(b.get())),
        Expr::Minus(a) => operand_depth(a.get()),
        Expr::Times(a, b) => two_depth(operand_depth(a.get()), operand_depth(b.get())),
        Expr::Over(a, b) => two_depth(operand_depth(a.get()), operand_depth(b.get())),
        Expr::Choice(condition, a, b) => {
            let most = operand_depth(a.get()).max(operand_depth(b.get()));
            condition_depth(condition.get()).max(most)
        }
    }
}

/// Of a condition.
#[cycle(tree)]
#[tactic(auto, using(crate::proofs::Layers::layers))]
pub(crate) fn condition_depth(condition: &Cond) -> u32
    ensures { result ≡ told (condition_depth condition.now) }
{
    match condition {
        Cond::Cmp(_, a, b) => two_depth(operand_depth(a), operand_depth(b)),
        Cond::And(first, second) => {
            condition_depth(first.get()).max(condition_depth(second.get()))
        }
        Cond::Or(first, second) => condition_depth(first.get()).max(condition_depth(second.get())),
    }
}

/// Of the address of a reference.
#[cycle(tree)]
#[tactic(auto, using(crate::proofs::Layers::layers))]
pub(crate) fn spot_depth(spot: &Spot) -> u32
    ensures { result ≡ told (spot_depth spot.now) }
{
    match spot {
        Spot::Direct(_) | Spot::Through(_) => 1,
        Spot::One(_, _, _, e) => operand_depth(e),
        Spot::Two(_, _, _, _, _, _, a, b) => two_depth(operand_depth(a), operand_depth(b)),
        Spot::ParamArray(_, e) => operand_depth(e),
        Spot::Word(_, _, _, e) => operand_depth(e),
        Spot::Elem(_, _, _, _, _, e) => operand_depth(e),
        Spot::Bare(e) => operand_depth(e),
    }
}

/// Of an argument.
#[cycle(tree)]
#[tactic(auto, using(crate::proofs::Layers::layers))]
pub(crate) fn argument_depth(argument: &Arg) -> u32
    ensures { result ≡ told (argument_depth argument.now).most }
{
    match argument {
        Arg::Value(e, _) => operand_depth(e),
        Arg::Place(reference) => spot_depth(&reference.at),
        Arg::Array(_, _) | Arg::Same(_) | Arg::Base(_) => 1,
        _ => 2,
    }
}

/// The words of an argument that stay.
#[tactic(auto, using(crate::proofs::Layers::layers))]
fn kept(argument: &Arg) -> u32
    ensures kept { result ≡ (argument_depth argument.now).kept }
    ensures few { result ≤ 2 }
{
    match argument {
        Arg::Value(_, _) | Arg::Place(_) => 1,
        Arg::Array(_, _) | Arg::Same(_) | Arg::Base(_) => 1,
        _ => 2,
    }
}

/// Of the arguments of a call.
#[cycle(tree)]
pub(crate) fn arguments_depth(arguments: &[Arg]) -> u32
    ensures { result ≡ told (arguments_depth (argument_depths arguments.now)) }
{
    let mut most = 0;
    let mut held = 0;
    for argument in arguments {
        most = most.max(told_sum(held, argument_depth(argument)));
        held = told_sum(held, kept(argument));
    }
    most.max(held)
}
