//! Expressions that are no parts of others.
ghost use Rattle.std.specs.Prelude.{◌≡◌};
ghost use Rattle.cw_scale.specs.TypeRules.{reference};
ghost use Rattle.cw_judge.specs.Operators.{reference_operators, few_each};
ghost use Rattle.cw_judge.specs.Judged.{expression_judged, condition_judged, reference_judged, arguments_counted, scale_of};

use crate::operators::{count_condition, count_expression};
use cw_scale::fault::Fault;
use cw_scale::judge::{judge_condition, judge_expression, judge_reference};
use cw_scale::scales::reference_shape;
use cw_scope::resolve::Named;
use cw_tree::expression::{RawCond, RawExpr, RawRef};

/// Judges an expression that is evaluated at a scale.
pub(crate) fn whole_expression(e: &RawExpr, named: &Named, scale: u8, first: &mut Option<Fault>)
    ensures { first.new ≡ expression_judged named.now scale e.now first.old }
{
    judge_expression(e, named, scale, first);
    count_expression(e, first);
}

/// Judges a condition.
pub(crate) fn whole_condition(c: &RawCond, named: &Named, first: &mut Option<Fault>)
    ensures { first.new ≡ condition_judged named.now c.now first.old }
{
    judge_condition(c, named, first);
    count_condition(c, first);
}

fn count_indexes(r: &RawRef, first: &mut Option<Fault>)
    ensures { first.new ≡ few_each (reference_operators r.now) first.old }
{
    match r {
        RawRef::Name(_) => {}
        RawRef::One(_, i) => count_expression(i.get(), first),
        RawRef::Two(_, i, j) => {
            count_expression(i.get(), first);
            count_expression(j.get(), first);
        }
        RawRef::Bare(_, e) => count_expression(e.get(), first),
    }
}

/// Judges a reference that is no part of an expression.
pub(crate) fn whole_reference(r: &RawRef, named: &Named, first: &mut Option<Fault>)
    ensures { first.new ≡ reference_judged named.now r.now first.old }
{
    judge_reference(r, named, first);
    count_indexes(r, first);
}

/// Judges how many operators each of some arguments has.
pub(crate) fn count_arguments(arguments: &[RawExpr], first: &mut Option<Fault>)
    ensures { first.new ≡ arguments_counted arguments.now first.old }
{
    for argument in arguments {
        count_expression(argument, first);
    }
}

/// The scale at which a reference is assigned to.
pub(crate) fn scale_of(r: &RawRef, named: &Named) -> u8
    ensures { result ≡ scale_of named.now r.now }
{
    reference_shape(r, named).natural
}
