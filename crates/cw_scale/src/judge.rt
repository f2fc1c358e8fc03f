//! The rules of types in expressions.
ghost use Rattle.std.specs.Prelude.{◌≡◌, ◌≤◌, ◌<◌, ◌==◌, max, map};
ghost use Rattle.cw_scale.specs.Kinds.{signature_of};
ghost use Rattle.cw_scale.specs.TypeRules.{can_divide, factor_faults, scale_for, chain_faults, expression, conjunction, comparison, condition, sum};
ghost use Rattle.cw_scale.specs.TypeRules.{term, differ, union, mask, prim, primary, reference, argument_faults, arguments_faults, call_faults};

use crate::arguments::all_taken;
use crate::fault::{Fault, Rule, keep, keep_unless};
use crate::kinds::{fraction_of, signature_of};
use crate::scales::{
    Shape, differ_shape, fits_at, mask_shape, prim_shape, primary_shape, sum_shape, union_shape,
};
use crate::types::{judge_each_bits, judge_type};
use cw_amount::amount::octal_word;
use cw_scope::resolve::Named;
use cw_tree::expression::{
    RawCand, RawCmp, RawCond, RawDiffer, RawExpr, RawMask, RawPrim, RawPrimary, RawRef, RawSum,
    RawTerm, RawUnion,
};
use cw_tree::leaf::{MulOp, RawFactorSign, RawName};
use cw_tree::segment::{RawIps, RawPs};

fn can_divide(asked: u8, f1: u8, f2: u8) -> bool
    ensures { result ≡ can_divide asked f1 f2 }
{
    let asked = u16::from(asked) + u16::from(f2);
    let first = u16::from(f1);
    first <= asked + 15 && asked <= first + 16
}

fn judge_factor(sign: &RawFactorSign, asked: u8, f1: u8, f2: u8, first: &mut Option<Fault>)
    ensures { first.new ≡ factor_faults sign.now asked f1 f2 first.old }
{
    match sign.op {
        MulOp::Times => {}
        MulOp::Divide => keep_unless(can_divide(asked, f1, f2), Rule::ScaleRange, sign.at, first),
    }
}

fn scale_for(alone: bool, asked: u8, operand: u8) -> u8
    ensures { result ≡ scale_for alone asked operand }
{
    if alone { asked } else { operand }
}

// ---- the scale of an operand of word logic: its own shape decides only beside others

fn union_scale(alone: bool, asked: u8, e: &RawUnion, named: &Named) -> u8
    ensures { result ≡ scale_for alone asked (union named.now e.now).shape.operand }
{
    if alone {
        asked
    } else {
        union_shape(e, named).operand
    }
}

fn mask_scale(alone: bool, asked: u8, e: &RawMask, named: &Named) -> u8
    ensures { result ≡ scale_for alone asked (mask named.now e.now).shape.operand }
{
    if alone {
        asked
    } else {
        mask_shape(e, named).operand
    }
}

fn prim_scale(alone: bool, asked: u8, e: &RawPrim, named: &Named) -> u8
    ensures { result ≡ scale_for alone asked (prim named.now e.now).shape.operand }
{
    if alone {
        asked
    } else {
        prim_shape(e, named).operand
    }
}

// ---- expressions

/// Judges an expression that is evaluated at a scale.
#[cycle(judged)]
pub fn judge_expression(e: &RawExpr, named: &Named, scale: u8, first: &mut Option<Fault>)
    ensures { first.new ≡ (expression named.now e.now).faults scale first.old }
{
    match e {
        RawExpr::Choice(_, test, a, b) => {
            judge_condition(test.get(), named, first);
            judge_expression(a.get(), named, scale, first);
            judge_expression(b.get(), named, scale, first);
        }
        RawExpr::Sum(e) => judge_sum(e.get(), named, scale, first),
    }
}

/// Judges a condition.
#[cycle(judged)]
pub fn judge_condition(c: &RawCond, named: &Named, first: &mut Option<Fault>)
    ensures { first.new ≡ (condition named.now c.now).faults 0 first.old }
{
    for operand in c.operands.as_slice() {
        judge_conjunction(operand, named, first);
    }
}

#[cycle(judged)]
fn judge_conjunction(c: &RawCand, named: &Named, first: &mut Option<Fault>)
    ensures { first.new ≡ (conjunction named.now c.now).faults 0 first.old }
{
    for operand in c.operands.as_slice() {
        judge_comparison(operand, named, first);
    }
}

#[cycle(judged)]
fn judge_comparison(c: &RawCmp, named: &Named, first: &mut Option<Fault>)
    ensures { first.new ≡ (comparison named.now c.now).faults 0 first.old }
{
    let left = sum_shape(c.left.get(), named);
    let right = sum_shape(c.right.get(), named);
    let scale = left.natural.max(right.natural);
    judge_sum(c.left.get(), named, scale, first);
    judge_sum(c.right.get(), named, scale, first);
}

#[cycle(judged)]
fn judge_sum(e: &RawSum, named: &Named, scale: u8, first: &mut Option<Fault>)
    ensures { first.new ≡ (sum named.now e.now).faults scale first.old }
{
    for operand in e.operands.as_slice() {
        judge_term(operand, named, scale, first);
    }
}

#[cycle(judged)]
fn judge_term(e: &RawTerm, named: &Named, scale: u8, first: &mut Option<Fault>)
    ensures { first.new ≡ (term named.now e.now).faults scale first.old }
{
    match e.operands.as_slice() {
        [] => {}
        [operand] => judge_differ(operand, named, scale, first),
        [head, others @ ..] => {
            let shape = differ_shape(head, named);
            judge_differ(head, named, shape.operand, first);
            judge_factors(&shape, others, e.operators.as_slice(), named, scale, first);
        }
    }
}

// Judges what stands behind the head of a term, each operand with the operator before it.
#[cycle(judged)]
fn judge_factors(
    head: &Shape,
    operands: &[RawDiffer],
    signs: &[RawFactorSign],
    named: &Named,
    scale: u8,
    first: &mut Option<Fault>,
)
    ensures { first.new ≡ chain_faults scale head.now.operand head.now.natural (map (differ named.now) operands.now) signs.now first.old }
{
    let mut before = head.operand;
    let mut natural = head.natural;
    let mut i = 0;
    while i < operands.len() && i < signs.len() {
        let operand = &operands[i];
        let shape = differ_shape(operand, named);
        judge_differ(operand, named, shape.operand, first);
        natural = natural.max(shape.natural);
        let asked = scale_for(i + 1 == operands.len(), scale, natural);
        judge_factor(&signs[i], asked, before, shape.operand, first);
        before = natural;
        i += 1;
    }
}

#[cycle(judged)]
fn judge_differ(e: &RawDiffer, named: &Named, scale: u8, first: &mut Option<Fault>)
    ensures { first.new ≡ (differ named.now e.now).faults scale first.old }
{
    let operands = e.operands.as_slice();
    let alone = operands.len() == 1;
    for operand in operands {
        let at = union_scale(alone, scale, operand, named);
        judge_union(operand, named, at, first);
    }
}

#[cycle(judged)]
fn judge_union(e: &RawUnion, named: &Named, scale: u8, first: &mut Option<Fault>)
    ensures { first.new ≡ (union named.now e.now).faults scale first.old }
{
    let operands = e.operands.as_slice();
    let alone = operands.len() == 1;
    for operand in operands {
        let at = mask_scale(alone, scale, operand, named);
        judge_mask(operand, named, at, first);
    }
}

#[cycle(judged)]
fn judge_mask(e: &RawMask, named: &Named, scale: u8, first: &mut Option<Fault>)
    ensures { first.new ≡ (mask named.now e.now).faults scale first.old }
{
    let operands = e.operands.as_slice();
    let alone = operands.len() == 1;
    for operand in operands {
        let at = prim_scale(alone, scale, operand, named);
        judge_prim(operand, named, at, first);
    }
}

#[cycle(judged)]
fn judge_prim(e: &RawPrim, named: &Named, scale: u8, first: &mut Option<Fault>)
    ensures { first.new ≡ (prim named.now e.now).faults scale first.old }
{
    match e.bits.as_slice() {
        [] => judge_primary(&e.primary, named, scale, first),
        bits => {
            judge_each_bits(bits, first);
            let shape = primary_shape(&e.primary, named);
            judge_primary(&e.primary, named, shape.operand, first);
        }
    }
}

#[cycle(judged)]
fn judge_primary(e: &RawPrimary, named: &Named, scale: u8, first: &mut Option<Fault>)
    ensures { first.new ≡ (primary named.now e.now).faults scale first.old }
{
    match e {
        RawPrimary::Number(n) => {
            keep_unless(fits_at(&n.number, scale), Rule::NumberRange, n.at, first);
        }
        RawPrimary::Octal(n) => {
            let fits = octal_word(&n.number.number).is_some();
            keep_unless(fits, Rule::NumberRange, n.number.at, first);
        }
        RawPrimary::Literal(_) | RawPrimary::Text(..) => {}
        RawPrimary::Location(_, r) => judge_reference(r.get(), named, first),
        RawPrimary::Forced(t, e) => {
            let t = t.get();
            judge_type(t, first);
            judge_expression(e.get(), named, fraction_of(t), first);
        }
        RawPrimary::Bracket(_, e) => judge_expression(e.get(), named, scale, first),
        RawPrimary::Ref(r) => judge_reference(r, named, first),
        RawPrimary::Call(name, arguments) => {
            judge_call(name.get(), arguments.as_slice(), named, first);
        }
    }
}

/// Judges a reference, or a procedure's name without arguments.
#[cycle(judged)]
pub fn judge_reference(r: &RawRef, named: &Named, first: &mut Option<Fault>)
    ensures { first.new ≡ (reference named.now r.now).faults 0 first.old }
{
    match r {
        RawRef::Name(name) => judge_call(name, &[], named, first),
        RawRef::One(_, i) => judge_expression(i.get(), named, 0, first),
        RawRef::Two(_, i, j) => {
            judge_expression(i.get(), named, 0, first);
            judge_expression(j.get(), named, 0, first);
        }
        RawRef::Bare(_, e) => judge_expression(e.get(), named, 0, first),
    }
}

/// Judges a call, or a name that may be one.
#[cycle(judged)]
pub fn judge_call(name: &RawName, arguments: &[RawExpr], named: &Named, first: &mut Option<Fault>)
    ensures { first.new ≡ call_faults named.now (signature_of named.now name.now) name.now (map (expression named.now) arguments.now) first.old }
{
    match signature_of(named, name) {
        None => {}
        Some(signature) => {
            let params = signature.params.as_slice();
            if all_taken(params, arguments, named) {
                judge_arguments(arguments, params, named, first);
            } else {
                keep(Rule::WrongArgs, name.at, first);
            }
        }
    }
}

#[cycle(judged)]
fn judge_arguments(
    arguments: &[RawExpr],
    params: &[RawPs],
    named: &Named,
    first: &mut Option<Fault>,
)
    ensures { first.new ≡ arguments_faults named.now params.now (map (expression named.now) arguments.now) first.old }
{
    let mut rest = params;
    for argument in arguments {
        match rest {
            [] => return,
            [param, others @ ..] => {
                judge_argument(argument, param, named, first);
                rest = others;
            }
        }
    }
}

#[cycle(judged)]
fn judge_argument(argument: &RawExpr, param: &RawPs, named: &Named, first: &mut Option<Fault>)
    ensures { first.new ≡ argument_faults named.now param.now (expression named.now argument.now) first.old }
{
    match param {
        RawPs::Plain(RawIps::Value(_, scale)) => {
            judge_expression(argument, named, fraction_of(scale), first);
        }
        RawPs::Plain(RawIps::Location(..)) => judge_expression(argument, named, 0, first),
        _ => {}
    }
}
