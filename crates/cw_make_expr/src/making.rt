//! Makes the trees of expressions, conditions and references.
ghost use Rattle.std.specs.Prelude.{◌≡◌, ◌++◌, [], map, IfOk, OnOk, option_copied};
ghost use Rattle.cw_scale.specs.Kinds.{signature_of, fraction_of_kind};
ghost use Rattle.cw_make_expr.specs.Nodes.{reference};
ghost use Rattle.cw_make_expr.specs.Parts.{field_of};
ghost use Rattle.cw_make_expr.specs.Made.{expression_made, condition_made, conjunction_made, comparison_made, sum_made, term_made, differ_made};
ghost use Rattle.cw_make_expr.specs.Made.{union_made, mask_made, prim_made, primary_made, reference_made, operand_for, is_alone, signed_term};
ghost use Rattle.cw_make_expr.specs.Made.{bits_around, arguments_for, argument_for, place_of_name, indexed_place, twice_indexed_place, value_of, target};

use crate::handed::expression_handed;
use crate::nodes::{
    added, bits, both, call, choice, comparator, compared, either, force, locate, logic, minus,
    multiplied, no_condition, nothing, place_argument, read, reference, whole_part_if,
};
use crate::parts::{
    Source, field_of, indexed_spot, is_called, item_here, item_in, named_spot, number_of,
    params_of, small, target_of, twice_indexed_spot, word,
};
use cw_amount::amount::{is_negative, octal_word, place_amount};
use cw_facts::fact::Kind;
use cw_number::numbered::Numbered;
use cw_scale::kinds::{fraction_of, fraction_of_kind, kind_of};
use cw_scope::resolve::Named;
use cw_table::table::Table;
use cw_tree::expression::{
    RawBits, RawCand, RawCmp, RawCond, RawDiffer, RawExpr, RawMask, RawPrim, RawPrimary, RawRef,
    RawSum, RawTerm, RawUnion,
};
use cw_tree::leaf::{RawName, RawSign};
use cw_tree::segment::{RawIps, RawPs};
use cw_unit::unit::{Arg, Cond, Expr, LogicOp, Ref, Spot, Target};
use cw_word::{Boxed, List, NoMemory};
use std::alloc::Global;

// ---- names

pub(crate) fn target(named: &Named, numbers: &Table<Numbered>, name: &RawName) -> Target
    ensures { result ≡ target named.now numbers.now name.now }
{
    target_of(kind_of(named, name), &number_of(named, numbers, name))
}

// The reference of a name at a place of it, by its kind.
fn reference_at(kind: Option<&Kind>, at: Spot) -> Ref
    ensures { result ≡ reference at (fraction_of_kind (option_copied kind.entry)) (field_of (option_copied kind.entry)) }
{
    reference(at, fraction_of_kind(kind), field_of(kind))
}

fn place_of_name(named: &Named, numbers: &Table<Numbered>, name: &RawName) -> Ref
    ensures { result ≡ place_of_name named.now numbers.now name.now }
{
    let kind = kind_of(named, name);
    let item = item_in(&number_of(named, numbers, name));
    reference_at(kind, named_spot(kind, item))
}

fn indexed_place(named: &Named, numbers: &Table<Numbered>, name: &RawName, index: Expr) -> Ref
    ensures { result ≡ indexed_place named.now numbers.now name.now index }
{
    let kind = kind_of(named, name);
    let item = item_in(&number_of(named, numbers, name));
    reference_at(kind, indexed_spot(named, numbers, kind, item, index))
}

fn twice_indexed_place(
    named: &Named,
    numbers: &Table<Numbered>,
    name: &RawName,
    first: Boxed<Expr>,
    second: Boxed<Expr>,
) -> Ref
    ensures { result ≡ twice_indexed_place named.now numbers.now name.now first second }
{
    let kind = kind_of(named, name);
    let item = item_in(&number_of(named, numbers, name));
    reference_at(kind, twice_indexed_spot(kind, item, first, second))
}

// What a name by itself reads, or the call of a procedure that takes nothing.
fn value_of(text: Source, name: &RawName) -> Result<Boxed<Expr>, NoMemory>
    ensures { IfOk result (λ t. t ≡ value_of text.entry.named.now text.entry.numbers.now name.now) }
{
    let kind = kind_of(text.named, name);
    let number = number_of(text.named, text.numbers, name);
    if is_called(kind) {
        Boxed::new(
            text.alloc,
            call(target_of(kind, &number), List::new(text.alloc)),
        )
    } else {
        let at = named_spot(kind, item_in(&number));
        read(text.alloc, reference_at(kind, at))
    }
}

// ---- signs and BITS

fn operand_for(alone: bool, operand: bool) -> bool
    ensures { result ≡ operand_for alone operand }
{
    if alone { operand } else { true }
}

fn is_alone(sign: &Option<RawSign>, others: usize) -> bool
    ensures { result ≡ is_alone sign.now others }
{
    sign.is_none() && others == 0
}

fn signed_term(
    alloc: Global,
    sign: &Option<RawSign>,
    e: Boxed<Expr>,
) -> Result<Boxed<Expr>, NoMemory>
    ensures { IfOk result (λ t. t ≡ signed_term sign.now e) }
{
    if is_negative(sign) {
        minus(alloc, e)
    } else {
        Ok(e)
    }
}

fn bits_around(alloc: Global, all: &[RawBits], e: Boxed<Expr>) -> Result<Boxed<Expr>, NoMemory>
    ensures { IfOk result (λ t. t ≡ bits_around all.now e) }
{
    let mut inner = e;
    for i in (0..all.len()).rev() {
        let size = &all[i].size;
        let t = small(&place_amount(&size.first));
        let b = small(&place_amount(&size.second));
        inner = bits(alloc, t, b, inner)?;
    }
    Ok(inner)
}

// ---- rules of the grammar

/// The tree of an expression, as an operand of `*`, `/`, word logic or BITS or elsewhere.
#[cycle(made)]
pub(crate) fn make_expression(
    text: Source,
    e: &RawExpr,
    operand: bool,
) -> Result<Boxed<Expr>, NoMemory>
    ensures { IfOk result (λ t. t ≡ (expression_made text.entry.named.now text.entry.numbers.now e.now).made operand) }
{
    match e {
        RawExpr::Choice(_, test, first, second) => {
            let test = make_condition(text, test.get());
            let first = make_expression(text, first.get(), false);
            let second = make_expression(text, second.get(), false);
            choice(text.alloc, test, first, second)
        }
        RawExpr::Sum(sum) => make_sum(text, sum.get(), operand),
    }
}

/// The tree of a condition.
#[cycle(made)]
pub(crate) fn make_condition(text: Source, c: &RawCond) -> Result<Boxed<Cond>, NoMemory>
    ensures { IfOk result (λ t. t ≡ condition_made text.entry.named.now text.entry.numbers.now c.now) }
{
    match c.operands.as_slice() {
        [] => Boxed::new(text.alloc, no_condition()),
        [first, others @ ..] => {
            let mut so_far = make_conjunction(text, first);
            for operand in others {
                so_far = either(text.alloc, so_far, make_conjunction(text, operand));
            }
            so_far
        }
    }
}

#[cycle(made)]
fn make_conjunction(text: Source, c: &RawCand) -> Result<Boxed<Cond>, NoMemory>
    ensures { IfOk result (λ t. t ≡ conjunction_made text.entry.named.now text.entry.numbers.now c.now) }
{
    match c.operands.as_slice() {
        [] => Boxed::new(text.alloc, no_condition()),
        [first, others @ ..] => {
            let mut so_far = make_comparison(text, first);
            for operand in others {
                so_far = both(text.alloc, so_far, make_comparison(text, operand));
            }
            so_far
        }
    }
}

#[cycle(made)]
fn make_comparison(text: Source, c: &RawCmp) -> Result<Boxed<Cond>, NoMemory>
    ensures { IfOk result (λ t. t ≡ comparison_made text.entry.named.now text.entry.numbers.now c.now) }
{
    let left = make_sum(text, c.left.get(), false);
    let right = make_sum(text, c.right.get(), false);
    compared(text.alloc, comparator(c.operator.op), left, right)
}

#[cycle(made)]
fn make_sum(text: Source, e: &RawSum, operand: bool) -> Result<Boxed<Expr>, NoMemory>
    ensures { IfOk result (λ t. t ≡ (sum_made text.entry.named.now text.entry.numbers.now e.now).made operand) }
{
    match e.operands.as_slice() {
        [] => Boxed::new(text.alloc, nothing()),
        [first, others @ ..] => {
            if is_alone(&e.sign, others.len()) {
                return make_term(text, first, operand);
            }
            let head = make_term(text, first, false)?;
            let mut so_far = signed_term(text.alloc, &e.sign, head)?;
            let mut signs = e.operators.as_slice();
            for other in others {
                match signs {
                    [] => return whole_part_if(text.alloc, operand, so_far),
                    [sign, more @ ..] => {
                        let next = make_term(text, other, false)?;
                        so_far = added(text.alloc, sign.op, so_far, next)?;
                        signs = more;
                    }
                }
            }
            let whole = whole_part_if(text.alloc, operand, so_far)?;
            Ok(whole)
        }
    }
}

#[cycle(made)]
fn make_term(text: Source, e: &RawTerm, operand: bool) -> Result<Boxed<Expr>, NoMemory>
    ensures { IfOk result (λ t. t ≡ (term_made text.entry.named.now text.entry.numbers.now e.now).made operand) }
{
    match e.operands.as_slice() {
        [] => Boxed::new(text.alloc, nothing()),
        [first, others @ ..] => {
            let inside = operand_for(others.len() == 0, operand);
            let mut so_far = make_differ(text, first, inside)?;
            let mut signs = e.operators.as_slice();
            for other in others {
                match signs {
                    [] => return Ok(so_far),
                    [sign, more @ ..] => {
                        let next = make_differ(text, other, true)?;
                        so_far = multiplied(text.alloc, sign.op, so_far, next)?;
                        signs = more;
                    }
                }
            }
            Ok(so_far)
        }
    }
}

#[cycle(made)]
fn make_differ(text: Source, e: &RawDiffer, operand: bool) -> Result<Boxed<Expr>, NoMemory>
    ensures { IfOk result (λ t. t ≡ (differ_made text.entry.named.now text.entry.numbers.now e.now).made operand) }
{
    match e.operands.as_slice() {
        [] => Boxed::new(text.alloc, nothing()),
        [first, others @ ..] => {
            let inside = operand_for(others.len() == 0, operand);
            let mut so_far = make_union(text, first, inside);
            for other in others {
                let next = make_union(text, other, true);
                so_far = logic(text.alloc, LogicOp::Differ, so_far, next);
            }
            so_far
        }
    }
}

#[cycle(made)]
fn make_union(text: Source, e: &RawUnion, operand: bool) -> Result<Boxed<Expr>, NoMemory>
    ensures { IfOk result (λ t. t ≡ (union_made text.entry.named.now text.entry.numbers.now e.now).made operand) }
{
    match e.operands.as_slice() {
        [] => Boxed::new(text.alloc, nothing()),
        [first, others @ ..] => {
            let inside = operand_for(others.len() == 0, operand);
            let mut so_far = make_mask(text, first, inside);
            for other in others {
                let next = make_mask(text, other, true);
                so_far = logic(text.alloc, LogicOp::Union, so_far, next);
            }
            so_far
        }
    }
}

#[cycle(made)]
fn make_mask(text: Source, e: &RawMask, operand: bool) -> Result<Boxed<Expr>, NoMemory>
    ensures { IfOk result (λ t. t ≡ (mask_made text.entry.named.now text.entry.numbers.now e.now).made operand) }
{
    match e.operands.as_slice() {
        [] => Boxed::new(text.alloc, nothing()),
        [first, others @ ..] => {
            let inside = operand_for(others.len() == 0, operand);
            let mut so_far = make_prim(text, first, inside);
            for other in others {
                let next = make_prim(text, other, true);
                so_far = logic(text.alloc, LogicOp::Mask, so_far, next);
            }
            so_far
        }
    }
}

#[cycle(made)]
fn make_prim(text: Source, e: &RawPrim, operand: bool) -> Result<Boxed<Expr>, NoMemory>
    ensures { IfOk result (λ t. t ≡ (prim_made text.entry.named.now text.entry.numbers.now e.now).made operand) }
{
    let all = e.bits.as_slice();
    let inside = operand_for(all.len() == 0, operand);
    let inner = make_primary(text, &e.primary, inside)?;
    bits_around(text.alloc, all, inner)
}

#[cycle(made)]
fn make_primary(text: Source, e: &RawPrimary, operand: bool) -> Result<Boxed<Expr>, NoMemory>
    ensures { IfOk result (λ t. t ≡ (primary_made text.entry.named.now text.entry.numbers.now e.now).made operand) }
{
    match e {
        RawPrimary::Number(n) => Boxed::new(text.alloc, Expr::Num(n.number)),
        RawPrimary::Octal(n) => {
            let word = word(&octal_word(&n.number.number));
            Boxed::new(text.alloc, Expr::Const(word.cast_signed()))
        }
        RawPrimary::Literal(c) => {
            Boxed::new(text.alloc, Expr::Const(u16::from(c.byte).cast_signed()))
        }
        RawPrimary::Text(at, _) => Boxed::new(
            text.alloc,
            Expr::Text(item_here(text.numbers, at.token)),
        ),
        RawPrimary::Location(_, r) => {
            let place = make_reference(text, r.get())?;
            locate(text.alloc, place)
        }
        RawPrimary::Forced(scale, e) => {
            let inner = make_expression(text, e.get(), false)?;
            force(text.alloc, fraction_of(scale.get()), inner)
        }
        RawPrimary::Bracket(_, e) => {
            let inner = make_expression(text, e.get(), false)?;
            whole_part_if(text.alloc, operand, inner)
        }
        RawPrimary::Ref(r) => make_value(text, r),
        RawPrimary::Call(name, arguments) => {
            let name = name.get();
            let params = params_of(text.named, name);
            let arguments = make_arguments(text, params, arguments.as_slice())?;
            Boxed::new(
                text.alloc,
                call(target(text.named, text.numbers, name), arguments),
            )
        }
    }
}

/// The place that a reference names.
#[cycle(made)]
pub(crate) fn make_reference(text: Source, r: &RawRef) -> Result<Ref, NoMemory>
    ensures { IfOk result (λ t. t ≡ (reference_made text.entry.named.now text.entry.numbers.now r.now).place) }
{
    match r {
        RawRef::Name(name) => Ok(place_of_name(text.named, text.numbers, name)),
        RawRef::One(name, index) => {
            let index = make_expression(text, index.get(), false)?;
            Ok(indexed_place(text.named, text.numbers, name, index.into_inner()))
        }
        RawRef::Two(name, first, second) => {
            let first = make_expression(text, first.get(), false)?;
            let second = make_expression(text, second.get(), false)?;
            Ok(twice_indexed_place(text.named, text.numbers, name.get(), first, second))
        }
        RawRef::Bare(_, address) => {
            let address = make_expression(text, address.get(), false)?;
            Ok(reference(Spot::Bare(address.into_inner()), 0, None))
        }
    }
}

// What a reference reads, or the call of a procedure that takes nothing.
#[cycle(made)]
fn make_value(text: Source, r: &RawRef) -> Result<Boxed<Expr>, NoMemory>
    ensures { IfOk result (λ t. t ≡ (reference_made text.entry.named.now text.entry.numbers.now r.now).value) }
{
    match r {
        RawRef::Name(name) => value_of(text, name),
        _ => {
            let place = make_reference(text, r)?;
            read(text.alloc, place)
        }
    }
}

/// Arguments by what the parameters take.
#[cycle(made)]
pub(crate) fn make_arguments(
    text: Source,
    params: &[RawPs],
    arguments: &[RawExpr],
) -> Result<List<Arg>, NoMemory>
    ensures { IfOk result (λ all. all ≡ arguments_for (map (expression_made text.entry.named.now text.entry.numbers.now) arguments.now) params.now) }
{
    let mut all = List::new(text.alloc);
    let mut rest = params;
    for argument in arguments {
        match rest {
            [] => return Ok(all),
            [param, others @ ..] => {
                all.push(make_argument(text, param, argument)?)?;
                rest = others;
            }
        }
    }
    Ok(all)
}

#[cycle(made)]
fn make_argument(text: Source, param: &RawPs, e: &RawExpr) -> Result<Arg, NoMemory>
    ensures { IfOk result (λ a. a ≡ argument_for param.now (expression_made text.entry.named.now text.entry.numbers.now e.now)) }
{
    match param {
        RawPs::Plain(RawIps::Value(_, scale)) => {
            let value = make_expression(text, e, false)?;
            Ok(Arg::Value(value.into_inner(), fraction_of(scale)))
        }
        RawPs::Plain(RawIps::Location(_, scale)) => {
            let value = make_expression(text, e, false)?;
            Ok(place_argument(value.into_inner(), fraction_of(scale)))
        }
        _ => Ok(expression_handed(text.named, text.numbers, e)),
    }
}
