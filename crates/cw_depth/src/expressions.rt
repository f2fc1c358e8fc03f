//! What expressions, conditions, references and arguments mention.
ghost use Rattle.std.specs.Prelude.{◌≡◌, ◌++◌, map, OnOk};
ghost use Rattle.cw_depth.specs.Mentions.{called, joined, in_expression, in_condition, in_spot, in_argument};

use crate::mention::Mention;
use cw_unit::unit::{Arg, Cond, Expr, Spot, Target};
use cw_word::{List, NoMemory};

/// Of a call itself.
pub(crate) fn add_call(out: &mut List<Mention>, target: Target) -> Result<(), NoMemory>
    ensures { OnOk result (out.new ≡ out.old ++ called target) }
{
    match target {
        Target::Own(procedure) => out.push(Mention::Own(procedure)),
        Target::Common(descriptor) => out.push(Mention::Common(descriptor)),
        Target::Special(control, _) => out.push(Mention::Parameter(control)),
        Target::Read => Ok(()),
        Target::Write => Ok(()),
    }
}

/// Of an expression.
#[cycle(tree)]
#[tactic(auto, using(crate::proofs::Layers::layers))]
pub(crate) fn add_expression(out: &mut List<Mention>, e: &Expr) -> Result<(), NoMemory>
    ensures { OnOk result (out.new ≡ out.old ++ in_expression e.now) }
{
    match e {
        Expr::Num(_) | Expr::Const(_) | Expr::Text(_) => Ok(()),
        Expr::Read(reference) => add_spot(out, &reference.get().at),
        Expr::Call(target, arguments) => {
            add_call(out, *target)?;
            add_arguments(out, arguments.as_slice())
        }
        Expr::Force(_, a) => add_expression(out, a.get()),
        Expr::Locate(reference) => add_spot(out, &reference.get().at),
        Expr::Bits(_, _, a) => add_expression(out, a.get()),
        Expr::Logic(_, a, b) => {
            add_expression(out, a.get())?;
            add_expression(out, b.get())
        }
        Expr::Sum(a, b) => {
            add_expression(out, a.get())?;
            add_expression(out, b.get())
        }
        Expr::Less(a, b) => {
            add_expression(out, a.get())?;
            add_expression(out, b.get())
        }
        Expr::Minus(a) => add_expression(out, a.get()),
        Expr::Times(a, b) => {
            add_expression(out, a.get())?;
            add_expression(out, b.get())
        }
        Expr::Over(a, b) => {
            add_expression(out, a.get())?;
            add_expression(out, b.get())
        }
        Expr::Choice(condition, a, b) => {
            add_condition(out, condition.get())?;
            add_expression(out, a.get())?;
            add_expression(out, b.get())
        }
    }
}

/// Of a condition.
#[cycle(tree)]
#[tactic(auto, using(crate::proofs::Layers::layers))]
pub(crate) fn add_condition(out: &mut List<Mention>, condition: &Cond) -> Result<(), NoMemory>
    ensures { OnOk result (out.new ≡ out.old ++ in_condition condition.now) }
{
    match condition {
        Cond::Cmp(_, a, b) => {
            add_expression(out, a)?;
            add_expression(out, b)
        }
        Cond::And(first, second) => {
            add_condition(out, first.get())?;
            add_condition(out, second.get())
        }
        Cond::Or(first, second) => {
            add_condition(out, first.get())?;
            add_condition(out, second.get())
        }
    }
}

/// Of the address of a reference.
#[cycle(tree)]
#[tactic(auto, using(crate::proofs::Layers::layers))]
pub(crate) fn add_spot(out: &mut List<Mention>, spot: &Spot) -> Result<(), NoMemory>
    ensures { OnOk result (out.new ≡ out.old ++ in_spot spot.now) }
{
    match spot {
        Spot::Direct(_) | Spot::Through(_) => Ok(()),
        Spot::One(_, _, _, e) => add_expression(out, e),
        Spot::Two(_, _, _, _, _, _, a, b) => {
            add_expression(out, a)?;
            add_expression(out, b)
        }
        Spot::ParamArray(_, e) => add_expression(out, e),
        Spot::Word(_, _, _, e) => add_expression(out, e),
        Spot::Elem(_, _, _, _, _, e) => add_expression(out, e),
        Spot::Bare(e) => add_expression(out, e),
    }
}

/// Of an argument.
#[cycle(tree)]
#[tactic(auto, using(crate::proofs::Layers::layers))]
pub(crate) fn add_argument(out: &mut List<Mention>, argument: &Arg) -> Result<(), NoMemory>
    ensures { OnOk result (out.new ≡ out.old ++ in_argument argument.now) }
{
    match argument {
        Arg::Value(e, _) => add_expression(out, e),
        Arg::Place(reference) => add_spot(out, &reference.at),
        Arg::Proc(procedure) => out.push(Mention::HandedOwn(*procedure)),
        Arg::CommonProc(descriptor) => out.push(Mention::HandedCommon(*descriptor)),
        Arg::Array(_, _) | Arg::Same(_) | Arg::Base(_) => Ok(()),
        Arg::Goal(_) | Arg::Switch(_) | Arg::CommonSwitch(_) | Arg::Special(_) => Ok(()),
    }
}

/// Of the arguments of a call.
#[cycle(tree)]
pub(crate) fn add_arguments(out: &mut List<Mention>, arguments: &[Arg]) -> Result<(), NoMemory>
    ensures { OnOk result (out.new ≡ out.old ++ joined (map in_argument arguments.now)) }
{
    for argument in arguments {
        add_argument(out, argument)?;
    }
    Ok(())
}
