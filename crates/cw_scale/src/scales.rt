//! The scales of expressions.
ghost use Rattle.std.specs.Prelude.{◌≡◌, ◌≤◌, ◌<◌, ◌==◌, ◌&&◌, is_none, max, length, map, option_copied};
ghost use Rattle.cw_tree.specs.declared.expression.RawSum.{out-RawSum};
ghost use Rattle.cw_scale.specs.Kinds.{kind_of, fraction_of_kind};
ghost use Rattle.cw_scale.specs.Arguments.{is_whole_if};
ghost use Rattle.cw_scale.specs.TypeRules.{plain, number_shape, name_shape, place_shape, merged, logic_merged, fits_at, best_within};
ghost use Rattle.cw_scale.specs.TypeRules.{number_operand, expression, sum, term, differ, union, mask, prim, primary, reference};

use crate::kinds::{
    fraction_of, fraction_of_kind, is_whole_if, is_word_item_if, kind_of, name_fraction,
};
use cw_facts::fact::Kind;
use cw_scope::resolve::Named;
use cw_tree::expression::{
    RawDiffer, RawExpr, RawMask, RawPrim, RawPrimary, RawRef, RawSum, RawTerm, RawUnion,
};
use cw_tree::leaf::RawName;
use cw_word::Num;

/// The natural scale of an expression, its scale as an operand of `*`, `/`, word logic or BITS, its name where it is a name by
/// itself, and whether it is a reference of a whole word.
#[derive(Clone, Copy)]
pub struct Shape {
    pub natural: u8,
    pub operand: u8,
    pub bare: Option<RawName>,
    pub whole: bool,
}

fn plain(scale: u8) -> Shape
    ensures { result ≡ plain scale }
{
    Shape {
        natural: scale,
        operand: scale,
        bare: None,
        whole: false,
    }
}

fn number_shape(operand: u8) -> Shape
    ensures { result ≡ number_shape operand }
{
    Shape {
        natural: 0,
        operand,
        bare: None,
        whole: false,
    }
}

fn name_shape(name: &RawName, scale: u8, whole: bool) -> Shape
    ensures { result ≡ name_shape name.now scale whole }
{
    Shape {
        natural: scale,
        operand: scale,
        bare: Some(*name),
        whole,
    }
}

fn place_shape(scale: u8, whole: bool) -> Shape
    ensures { result ≡ place_shape scale whole }
{
    Shape {
        natural: scale,
        operand: scale,
        bare: None,
        whole,
    }
}

fn merged(alone: bool, before: &Shape, next: &Shape) -> Shape
    ensures { result ≡ merged alone before.now next.now }
{
    if alone {
        *next
    } else {
        plain(before.natural.max(next.natural))
    }
}

fn logic_merged(alone: bool, shape: &Shape) -> Shape
    ensures { result ≡ logic_merged alone shape.now }
{
    if alone { *shape } else { plain(0) }
}

/// Whether a number fits a word at a scale, which is at most 15.
pub fn fits_at(number: &Num, scale: u8) -> bool
    ensures { result ≡ fits_at number.now scale }
{
    if scale > 15 {
        return false;
    }
    number.at_scale(scale).is_ok()
}

fn best_within(number: &Num, scale: u8) -> u8
    ensures { result ≡ best_within number.now scale }
{
    if scale == 0 {
        0
    } else if fits_at(number, scale) {
        scale
    } else {
        best_within(number, scale - 1)
    }
}

fn number_operand(number: &Num) -> u8
    ensures { result ≡ number_operand number.now }
{
    if number.places() == 0 {
        0
    } else {
        best_within(number, 15)
    }
}

/// The shape of an expression.
#[cycle(shape)]
pub fn expression_shape(e: &RawExpr, named: &Named) -> Shape
    ensures { result ≡ (expression named.now e.now).shape }
{
    match e {
        RawExpr::Choice(_, _, first, second) => {
            let first = expression_shape(first.get(), named);
            let second = expression_shape(second.get(), named);
            plain(first.natural.max(second.natural))
        }
        RawExpr::Sum(e) => sum_shape(e.get(), named),
    }
}

// Whether one operand is the whole sum: a sign makes a value of it.
fn stands_alone(e: &RawSum) -> bool
    ensures { result ≡ (length (out-RawSum e.now).operands == 1 && is_none (out-RawSum e.now).sign) }
{
    e.operands.as_slice().len() == 1 && e.sign.is_none()
}

#[cycle(shape)]
pub(crate) fn sum_shape(e: &RawSum, named: &Named) -> Shape
    ensures { result ≡ (sum named.now e.now).shape }
{
    let operands = e.operands.as_slice();
    let alone = stands_alone(e);
    let mut shape = plain(0);
    for operand in operands {
        let next = term_shape(operand, named);
        shape = merged(alone, &shape, &next);
    }
    shape
}

#[cycle(shape)]
fn term_shape(e: &RawTerm, named: &Named) -> Shape
    ensures { result ≡ (term named.now e.now).shape }
{
    let operands = e.operands.as_slice();
    let alone = operands.len() == 1;
    let mut shape = plain(0);
    for operand in operands {
        let next = differ_shape(operand, named);
        shape = merged(alone, &shape, &next);
    }
    shape
}

// One operand of word logic stands for the whole, and several come to scale 0.
#[cycle(shape)]
pub(crate) fn differ_shape(e: &RawDiffer, named: &Named) -> Shape
    ensures { result ≡ (differ named.now e.now).shape }
{
    match e.operands.as_slice() {
        [operand] => union_shape(operand, named),
        _ => plain(0),
    }
}

#[cycle(shape)]
pub(crate) fn union_shape(e: &RawUnion, named: &Named) -> Shape
    ensures { result ≡ (union named.now e.now).shape }
{
    match e.operands.as_slice() {
        [operand] => mask_shape(operand, named),
        _ => plain(0),
    }
}

#[cycle(shape)]
pub(crate) fn mask_shape(e: &RawMask, named: &Named) -> Shape
    ensures { result ≡ (mask named.now e.now).shape }
{
    match e.operands.as_slice() {
        [operand] => prim_shape(operand, named),
        _ => plain(0),
    }
}

#[cycle(shape)]
pub(crate) fn prim_shape(e: &RawPrim, named: &Named) -> Shape
    ensures { result ≡ (prim named.now e.now).shape }
{
    let shape = primary_shape(&e.primary, named);
    logic_merged(e.bits.as_slice().len() == 0, &shape)
}

#[cycle(shape)]
pub(crate) fn primary_shape(e: &RawPrimary, named: &Named) -> Shape
    ensures { result ≡ (primary named.now e.now).shape }
{
    match e {
        RawPrimary::Number(n) => number_shape(number_operand(&n.number)),
        RawPrimary::Octal(_)
        | RawPrimary::Literal(_)
        | RawPrimary::Text(..)
        | RawPrimary::Location(..) => plain(0),
        RawPrimary::Forced(scale, _) => plain(fraction_of(scale.get())),
        RawPrimary::Bracket(_, e) => {
            let shape = expression_shape(e.get(), named);
            plain(shape.natural)
        }
        RawPrimary::Ref(r) => reference_shape(r, named),
        RawPrimary::Call(name, _) => plain(name_fraction(named, name.get())),
    }
}

fn indexed_shape(kind: Option<&Kind>) -> Shape
    ensures { let kind = option_copied kind.entry in result ≡ place_shape (fraction_of_kind kind) (is_whole_if kind) }
{
    place_shape(fraction_of_kind(kind), is_whole_if(kind))
}

/// The shape of a reference.
pub fn reference_shape(r: &RawRef, named: &Named) -> Shape
    ensures { result ≡ (reference named.now r.now).shape }
{
    match r {
        RawRef::Name(name) => {
            let kind = kind_of(named, name);
            name_shape(name, fraction_of_kind(kind), is_word_item_if(kind))
        }
        RawRef::One(name, _) => indexed_shape(kind_of(named, name)),
        RawRef::Two(name, _, _) => indexed_shape(kind_of(named, name.get())),
        RawRef::Bare(..) => place_shape(0, true),
    }
}
