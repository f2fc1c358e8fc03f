//! Operators are counted.
ghost use Rattle.std.specs.Prelude.{◌≡◌, map};
ghost use Rattle.cw_judge.specs.Operators.{between, each, together, sign_at, factor_sign_at, bits_at, sign_if, expression_operators, primary_operators};
ghost use Rattle.cw_judge.specs.Operators.{reference_operators, conjunction_operators, comparison_operators};
ghost use Rattle.cw_judge.specs.Operators.{condition_operators, differ_operators, mask_operators};
ghost use Rattle.cw_judge.specs.Operators.{prim_operators, sum_operators, term_operators, union_operators, few_operators};
ghost use Rattle.cw_judge.specs.Operators.{one_counted, counted, first_if, others, tally_judged};

use cw_scale::fault::{Fault, Rule, keep};
use cw_tree::expression::{
    RawBits, RawCand, RawCmp, RawCond, RawDiffer, RawExpr, RawMask, RawPrim, RawPrimary, RawRef,
    RawSum, RawTerm, RawUnion,
};
use cw_tree::leaf::{Position, RawFactorSign, RawSign};

/// So many operators an expression has at the most.
const LIMIT: u16 = 1024;

/// What is known of operators that are counted: how many may still come, or the first that is one too many.
#[derive(Clone, Copy)]
pub(crate) enum Tally {
    Left(u16),
    TooMany(Position),
}

fn count(at: Position, tally: Tally) -> Tally
    ensures { result ≡ one_counted at tally }
{
    match tally {
        Tally::TooMany(extra) => Tally::TooMany(extra),
        Tally::Left(left) => if left == 0 {
            Tally::TooMany(at)
        } else {
            Tally::Left(left - 1)
        },
    }
}

// ---- the operator behind an operand, if there is one, and those behind it

fn count_next(operators: &[Position], tally: Tally) -> Tally
    ensures { result ≡ counted (first_if operators.now) tally }
{
    match operators {
        [] => tally,
        [at, ..] => count(*at, tally),
    }
}

fn count_sign(signs: &[RawSign], tally: Tally) -> Tally
    ensures { result ≡ counted (first_if (map sign_at signs.now)) tally }
{
    match signs {
        [] => tally,
        [sign, ..] => count(sign.at, tally),
    }
}

fn count_factor_sign(signs: &[RawFactorSign], tally: Tally) -> Tally
    ensures { result ≡ counted (first_if (map factor_sign_at signs.now)) tally }
{
    match signs {
        [] => tally,
        [sign, ..] => count(sign.at, tally),
    }
}

fn behind<T>(all: &[T]) -> &[T]
    ensures { result.now ≡ others all.now }
{
    match all {
        [] => all,
        [_, rest @ ..] => rest,
    }
}

// ---- rules of the grammar

fn sign_operators(sign: &Option<RawSign>, tally: Tally) -> Tally
    ensures { result ≡ counted (sign_if sign.now) tally }
{
    match sign {
        None => tally,
        Some(sign) => count(sign.at, tally),
    }
}

fn bits_operators(bits: &[RawBits], before: Tally) -> Tally
    ensures { result ≡ counted (map bits_at bits.now) before }
{
    let mut tally = before;
    for one in bits {
        tally = count(one.at, tally);
    }
    tally
}

#[cycle(operators)]
fn expression_operators(e: &RawExpr, before: Tally) -> Tally
    ensures { result ≡ counted (expression_operators e.now) before }
{
    match e {
        RawExpr::Choice(_, test, a, b) => {
            let tested = condition_operators(test.get(), before);
            let tally = expression_operators(a.get(), tested);
            expression_operators(b.get(), tally)
        }
        RawExpr::Sum(e) => sum_operators(e.get(), before),
    }
}

#[cycle(operators)]
fn comparison_operators(c: &RawCmp, before: Tally) -> Tally
    ensures { result ≡ counted (comparison_operators c.now) before }
{
    let left = sum_operators(c.left.get(), before);
    let tally = count(c.operator.at, left);
    sum_operators(c.right.get(), tally)
}

#[cycle(operators)]
fn condition_operators(e: &RawCond, before: Tally) -> Tally
    ensures { result ≡ counted (condition_operators e.now) before }
{
    let mut tally = before;
    let mut rest = e.operators.as_slice();
    for operand in e.operands.as_slice() {
        tally = count_next(rest, conjunction_operators(operand, tally));
        rest = behind(rest);
    }
    tally
}

#[cycle(operators)]
fn conjunction_operators(e: &RawCand, before: Tally) -> Tally
    ensures { result ≡ counted (conjunction_operators e.now) before }
{
    let mut tally = before;
    let mut rest = e.operators.as_slice();
    for operand in e.operands.as_slice() {
        tally = count_next(rest, comparison_operators(operand, tally));
        rest = behind(rest);
    }
    tally
}

#[cycle(operators)]
fn sum_operators(e: &RawSum, before: Tally) -> Tally
    ensures { result ≡ counted (sum_operators e.now) before }
{
    let mut tally = sign_operators(&e.sign, before);
    let mut rest = e.operators.as_slice();
    for operand in e.operands.as_slice() {
        tally = count_sign(rest, term_operators(operand, tally));
        rest = behind(rest);
    }
    tally
}

#[cycle(operators)]
fn term_operators(e: &RawTerm, before: Tally) -> Tally
    ensures { result ≡ counted (term_operators e.now) before }
{
    let mut tally = before;
    let mut rest = e.operators.as_slice();
    for operand in e.operands.as_slice() {
        tally = count_factor_sign(rest, differ_operators(operand, tally));
        rest = behind(rest);
    }
    tally
}

#[cycle(operators)]
fn differ_operators(e: &RawDiffer, before: Tally) -> Tally
    ensures { result ≡ counted (differ_operators e.now) before }
{
    let mut tally = before;
    let mut rest = e.operators.as_slice();
    for operand in e.operands.as_slice() {
        tally = count_next(rest, union_operators(operand, tally));
        rest = behind(rest);
    }
    tally
}

#[cycle(operators)]
fn union_operators(e: &RawUnion, before: Tally) -> Tally
    ensures { result ≡ counted (union_operators e.now) before }
{
    let mut tally = before;
    let mut rest = e.operators.as_slice();
    for operand in e.operands.as_slice() {
        tally = count_next(rest, mask_operators(operand, tally));
        rest = behind(rest);
    }
    tally
}

#[cycle(operators)]
fn mask_operators(e: &RawMask, before: Tally) -> Tally
    ensures { result ≡ counted (mask_operators e.now) before }
{
    let mut tally = before;
    let mut rest = e.operators.as_slice();
    for operand in e.operands.as_slice() {
        tally = count_next(rest, prim_operators(operand, tally));
        rest = behind(rest);
    }
    tally
}

#[cycle(operators)]
fn prim_operators(e: &RawPrim, before: Tally) -> Tally
    ensures { result ≡ counted (prim_operators e.now) before }
{
    let tally = bits_operators(e.bits.as_slice(), before);
    primary_operators(&e.primary, tally)
}

#[cycle(operators)]
fn primary_operators(e: &RawPrimary, before: Tally) -> Tally
    ensures { result ≡ counted (primary_operators e.now) before }
{
    match e {
        RawPrimary::Number(_)
        | RawPrimary::Octal(_)
        | RawPrimary::Literal(_)
        | RawPrimary::Text(..) => before,
        RawPrimary::Location(_, r) => reference_operators(r.get(), before),
        RawPrimary::Forced(_, e) => expression_operators(e.get(), before),
        RawPrimary::Bracket(_, e) => expression_operators(e.get(), before),
        RawPrimary::Ref(r) => reference_operators(r, before),
        RawPrimary::Call(_, arguments) => argument_operators(arguments.as_slice(), before),
    }
}

#[cycle(operators)]
fn argument_operators(arguments: &[RawExpr], before: Tally) -> Tally
    ensures { result ≡ counted (each (map expression_operators arguments.now)) before }
{
    let mut tally = before;
    for argument in arguments {
        tally = expression_operators(argument, tally);
    }
    tally
}

#[cycle(operators)]
fn reference_operators(r: &RawRef, before: Tally) -> Tally
    ensures { result ≡ counted (together (reference_operators r.now)) before }
{
    match r {
        RawRef::Name(_) => before,
        RawRef::One(_, i) => expression_operators(i.get(), before),
        RawRef::Two(_, i, j) => {
            let tally = expression_operators(i.get(), before);
            expression_operators(j.get(), tally)
        }
        RawRef::Bare(_, e) => expression_operators(e.get(), before),
    }
}

// ---- how many there are

fn judge_tally(tally: Tally, first: &mut Option<Fault>)
    ensures { first.new ≡ tally_judged tally first.old }
{
    match tally {
        Tally::Left(_) => {}
        Tally::TooMany(at) => keep(Rule::TooMany, at, first),
    }
}

/// Judges how many operators an expression has.
pub(crate) fn count_expression(e: &RawExpr, first: &mut Option<Fault>)
    ensures { first.new ≡ few_operators (expression_operators e.now) first.old }
{
    judge_tally(expression_operators(e, Tally::Left(LIMIT)), first);
}

/// Judges how many operators a condition has.
pub(crate) fn count_condition(c: &RawCond, first: &mut Option<Fault>)
    ensures { first.new ≡ few_operators (condition_operators c.now) first.old }
{
    judge_tally(condition_operators(c, Tally::Left(LIMIT)), first);
}
