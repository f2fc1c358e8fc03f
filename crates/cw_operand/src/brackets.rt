//! Brackets that are not needed: what stands in one, and which rule it is of.
ghost use Rattle.std.specs.Prelude.{◌≡◌, IfOk, is_some, [], ◌∷◌, ◌++◌};
ghost use Rattle.std.specs.Option.{option_copied};
ghost use Rattle.cw_grammar.specs.Trees.{sole, sole_term, ◌>>-◌, as_sum, as_term, as_differ, as_union, as_mask, as_prim, bracket_primary};
ghost use Rattle.cw_grammar.specs.Trees.{bracket_prim, bracket_mask, bracket_union, bracket_differ, bracket_term, bracket_sum, mask_start};
ghost use Rattle.cw_grammar.specs.Trees.{union_start, differ_start, term_start, sum_start, expr_of, prim_of, prim_or, terms_of};

use cw_tree::expression::{
    RawBits, RawDiffer, RawExpr, RawMask, RawPrim, RawPrimary, RawSum, RawTerm, RawUnion,
};
use cw_tree::leaf::{Position, RawFactorSign, RawSign};
use cw_word::{Boxed, List, NoMemory};
use std::alloc::Global;

fn only<T>(list: &List<T>) -> Option<&T>
    ensures { option_copied result ≡ sole list.now }
{
    match list.as_slice() {
        [item] => Some(item),
        _ => None,
    }
}

fn sole<T: Drop>(list: List<T>) -> Option<T>
    ensures { result ≡ sole list }
{
    let mut items = list.into_vec();
    if items.len() != 1 {
        return None;
    }
    items.pop()
}

// ---- without taking apart

fn sum_in(expr: &RawExpr) -> Option<&RawSum>
    ensures { option_copied result ≡ as_sum expr.now }
{
    match expr {
        RawExpr::Choice(..) => None,
        RawExpr::Sum(sum) => Some(sum.get()),
    }
}

fn sole_term_in(sum: &RawSum) -> Option<&RawTerm>
    ensures { option_copied result ≡ sole_term sum.now }
{
    match sum.sign {
        None => only(&sum.operands),
        Some(_) => None,
    }
}

fn term_in(expr: &RawExpr) -> Option<&RawTerm>
    ensures { option_copied result ≡ as_term expr.now }
{
    sole_term_in(sum_in(expr)?)
}

fn differ_in(expr: &RawExpr) -> Option<&RawDiffer>
    ensures { option_copied result ≡ as_differ expr.now }
{
    only(&term_in(expr)?.operands)
}

fn union_in(expr: &RawExpr) -> Option<&RawUnion>
    ensures { option_copied result ≡ as_union expr.now }
{
    only(&differ_in(expr)?.operands)
}

fn mask_in(expr: &RawExpr) -> Option<&RawMask>
    ensures { option_copied result ≡ as_mask expr.now }
{
    only(&union_in(expr)?.operands)
}

fn prim_in(expr: &RawExpr) -> Option<&RawPrim>
    ensures { option_copied result ≡ as_prim expr.now }
{
    only(&mask_in(expr)?.operands)
}

fn bracket_in_primary(primary: &RawPrimary) -> Option<&RawExpr>
    ensures { option_copied result ≡ bracket_primary primary.now }
{
    match primary {
        RawPrimary::Bracket(_, expr) => Some(expr.get()),
        _ => None,
    }
}

fn bracket_in_prim(prim: &RawPrim) -> Option<&RawExpr>
    ensures { option_copied result ≡ bracket_prim prim.now }
{
    if prim.bits.as_slice().is_empty() {
        bracket_in_primary(&prim.primary)
    } else {
        None
    }
}

fn bracket_in_mask(mask: &RawMask) -> Option<&RawExpr>
    ensures { option_copied result ≡ bracket_mask mask.now }
{
    bracket_in_prim(only(&mask.operands)?)
}

fn bracket_in_union(union: &RawUnion) -> Option<&RawExpr>
    ensures { option_copied result ≡ bracket_union union.now }
{
    bracket_in_mask(only(&union.operands)?)
}

fn bracket_in_differ(differ: &RawDiffer) -> Option<&RawExpr>
    ensures { option_copied result ≡ bracket_differ differ.now }
{
    bracket_in_union(only(&differ.operands)?)
}

fn bracket_in_term(term: &RawTerm) -> Option<&RawExpr>
    ensures { option_copied result ≡ bracket_term term.now }
{
    bracket_in_differ(only(&term.operands)?)
}

// ---- taking apart

fn into_sum(expr: RawExpr) -> Option<RawSum>
    ensures { result ≡ as_sum expr }
{
    match expr {
        RawExpr::Choice(..) => None,
        RawExpr::Sum(sum) => Some(sum.into_inner()),
    }
}

fn into_sole_term(sum: RawSum) -> Option<RawTerm>
    ensures { result ≡ sole_term sum }
{
    let RawSum { sign, operands, .. } = sum;
    match sign {
        None => sole(operands),
        Some(_) => None,
    }
}

fn into_term(expr: RawExpr) -> Option<RawTerm>
    ensures { result ≡ as_term expr }
{
    into_sole_term(into_sum(expr)?)
}

fn into_differ(expr: RawExpr) -> Option<RawDiffer>
    ensures { result ≡ as_differ expr }
{
    let RawTerm { operands, .. } = into_term(expr)?;
    sole(operands)
}

fn into_union(expr: RawExpr) -> Option<RawUnion>
    ensures { result ≡ as_union expr }
{
    let RawDiffer { operands, .. } = into_differ(expr)?;
    sole(operands)
}

fn into_mask(expr: RawExpr) -> Option<RawMask>
    ensures { result ≡ as_mask expr }
{
    let RawUnion { operands, .. } = into_union(expr)?;
    sole(operands)
}

fn into_prim(expr: RawExpr) -> Option<RawPrim>
    ensures { result ≡ as_prim expr }
{
    let RawMask { operands, .. } = into_mask(expr)?;
    sole(operands)
}

fn out_of_primary(primary: RawPrimary) -> Option<RawExpr>
    ensures { result ≡ bracket_primary primary }
{
    match primary {
        RawPrimary::Bracket(_, expr) => Some(expr.into_inner()),
        _ => None,
    }
}

fn out_of_prim(prim: RawPrim) -> Option<RawExpr>
    ensures { result ≡ bracket_prim prim }
{
    let RawPrim { bits, primary } = prim;
    if bits.as_slice().is_empty() {
        out_of_primary(primary)
    } else {
        None
    }
}

fn out_of_mask(mask: RawMask) -> Option<RawExpr>
    ensures { result ≡ bracket_mask mask }
{
    let RawMask { operands, .. } = mask;
    out_of_prim(sole(operands)?)
}

fn out_of_union(union: RawUnion) -> Option<RawExpr>
    ensures { result ≡ bracket_union union }
{
    let RawUnion { operands, .. } = union;
    out_of_mask(sole(operands)?)
}

fn out_of_differ(differ: RawDiffer) -> Option<RawExpr>
    ensures { result ≡ bracket_differ differ }
{
    let RawDiffer { operands, .. } = differ;
    out_of_union(sole(operands)?)
}

fn out_of_term(term: RawTerm) -> Option<RawExpr>
    ensures { result ≡ bracket_term term }
{
    let RawTerm { operands, .. } = term;
    out_of_differ(sole(operands)?)
}

// ---- first operands

/// A first operand that brings nothing.
pub fn start<T: Drop, U>(alloc: Global, first: T) -> Result<(List<T>, List<U>), NoMemory>
    ensures { IfOk result (λ x. x ≡ (first ∷ [], [])) }
{
    Ok((List::first(alloc, first)?, List::new(alloc)))
}

fn holds_mask(prim: &RawPrim) -> bool
    ensures { result ≡ is_some (bracket_prim prim.now >>- as_mask) }
{
    match bracket_in_prim(prim) {
        Some(expr) => mask_in(expr).is_some(),
        None => false,
    }
}

fn mask_of(prim: RawPrim) -> Option<RawMask>
    ensures { result ≡ bracket_prim prim >>- as_mask }
{
    into_mask(out_of_prim(prim)?)
}

/// The operands that a first operand brings.
pub fn mask_start(alloc: Global, prim: RawPrim) -> Result<(List<RawPrim>, List<Position>), NoMemory>
    ensures { IfOk result (λ x. x ≡ mask_start prim) }
{
    if holds_mask(&prim) {
        return match mask_of(prim) {
            Some(
                RawMask {
                    operands,
                    operators,
                },
            ) => Ok((operands, operators.into_list(alloc))),
            None => Err(NoMemory),
        };
    }
    Ok((List::first(alloc, prim)?, List::new(alloc)))
}

fn holds_union(mask: &RawMask) -> bool
    ensures { result ≡ is_some (bracket_mask mask.now >>- as_union) }
{
    match bracket_in_mask(mask) {
        Some(expr) => union_in(expr).is_some(),
        None => false,
    }
}

fn union_of(mask: RawMask) -> Option<RawUnion>
    ensures { result ≡ bracket_mask mask >>- as_union }
{
    into_union(out_of_mask(mask)?)
}

/// The operands that a first operand brings.
pub fn union_start(
    alloc: Global,
    mask: RawMask,
) -> Result<(List<RawMask>, List<Position>), NoMemory>
    ensures { IfOk result (λ x. x ≡ union_start mask) }
{
    if holds_union(&mask) {
        return match union_of(mask) {
            Some(
                RawUnion {
                    operands,
                    operators,
                },
            ) => Ok((operands, operators.into_list(alloc))),
            None => Err(NoMemory),
        };
    }
    Ok((List::first(alloc, mask)?, List::new(alloc)))
}

fn holds_differ(union: &RawUnion) -> bool
    ensures { result ≡ is_some (bracket_union union.now >>- as_differ) }
{
    match bracket_in_union(union) {
        Some(expr) => differ_in(expr).is_some(),
        None => false,
    }
}

fn differ_of(union: RawUnion) -> Option<RawDiffer>
    ensures { result ≡ bracket_union union >>- as_differ }
{
    into_differ(out_of_union(union)?)
}

/// The operands that a first operand brings.
pub fn differ_start(
    alloc: Global,
    union: RawUnion,
) -> Result<(List<RawUnion>, List<Position>), NoMemory>
    ensures { IfOk result (λ x. x ≡ differ_start union) }
{
    if holds_differ(&union) {
        return match differ_of(union) {
            Some(
                RawDiffer {
                    operands,
                    operators,
                },
            ) => Ok((operands, operators.into_list(alloc))),
            None => Err(NoMemory),
        };
    }
    Ok((List::first(alloc, union)?, List::new(alloc)))
}

fn holds_term(differ: &RawDiffer) -> bool
    ensures { result ≡ is_some (bracket_differ differ.now >>- as_term) }
{
    match bracket_in_differ(differ) {
        Some(expr) => term_in(expr).is_some(),
        None => false,
    }
}

fn term_of(differ: RawDiffer) -> Option<RawTerm>
    ensures { result ≡ bracket_differ differ >>- as_term }
{
    into_term(out_of_differ(differ)?)
}

/// The operands that a first operand brings.
pub fn term_start(
    alloc: Global,
    differ: RawDiffer,
) -> Result<(List<RawDiffer>, List<RawFactorSign>), NoMemory>
    ensures { IfOk result (λ x. x ≡ term_start differ) }
{
    if holds_term(&differ) {
        return match term_of(differ) {
            Some(
                RawTerm {
                    operands,
                    operators,
                },
            ) => Ok((operands, operators.into_list(alloc))),
            None => Err(NoMemory),
        };
    }
    Ok((List::first(alloc, differ)?, List::new(alloc)))
}

fn holds_sum(term: &RawTerm) -> bool
    ensures { result ≡ is_some (bracket_term term.now >>- as_sum) }
{
    match bracket_in_term(term) {
        Some(expr) => sum_in(expr).is_some(),
        None => false,
    }
}

fn sum_of(term: RawTerm) -> Option<RawSum>
    ensures { result ≡ bracket_term term >>- as_sum }
{
    into_sum(out_of_term(term)?)
}

/// The sign and the terms that a first term brings, behind its sign.
pub fn sum_start(
    alloc: Global,
    sign: Option<RawSign>,
    term: RawTerm,
) -> Result<(Option<RawSign>, (List<RawTerm>, List<RawSign>)), NoMemory>
    ensures { IfOk result (λ x. x ≡ sum_start sign term) }
{
    if sign.is_none() && holds_sum(&term) {
        return match sum_of(term) {
            Some(
                RawSum {
                    sign,
                    operands,
                    operators,
                },
            ) => Ok((sign, (operands, operators.into_list(alloc)))),
            None => Err(NoMemory),
        };
    }
    Ok((sign, (List::first(alloc, term)?, List::new(alloc))))
}

fn bracket_in_sum(sum: &RawSum) -> Option<&RawExpr>
    ensures { option_copied result ≡ bracket_sum sum.now }
{
    bracket_in_term(sole_term_in(sum)?)
}

fn out_of_sum(sum: RawSum) -> Option<RawExpr>
    ensures { result ≡ bracket_sum sum }
{
    out_of_term(into_sole_term(sum)?)
}

/// The expression that a sum is.
pub fn expr_of(alloc: Global, sum: RawSum) -> Result<RawExpr, NoMemory>
    ensures { IfOk result (λ x. x ≡ expr_of sum) }
{
    if bracket_in_sum(&sum).is_some() {
        return match out_of_sum(sum) {
            Some(expr) => Ok(expr),
            None => Err(NoMemory),
        };
    }
    Ok(RawExpr::Sum(Boxed::new(alloc, sum)?))
}

fn holds_prim(primary: &RawPrimary) -> bool
    ensures { result ≡ is_some (bracket_primary primary.now >>- as_prim) }
{
    match bracket_in_primary(primary) {
        Some(expr) => prim_in(expr).is_some(),
        None => false,
    }
}

fn prim_in_bracket(primary: RawPrimary) -> Option<RawPrim>
    ensures { result ≡ bracket_primary primary >>- as_prim }
{
    into_prim(out_of_primary(primary)?)
}

fn joined(bits: List<RawBits>, more: &List<RawBits>) -> Result<List<RawBits>, NoMemory>
    ensures { IfOk result (λ all. all ≡ bits ++ more.now) }
{
    let mut all = bits;
    for item in more.as_slice() {
        all.push(*item)?;
    }
    Ok(all)
}

/// The primary behind its BITS.
pub fn prim_of(bits: List<RawBits>, primary: RawPrimary) -> Result<RawPrim, NoMemory>
    ensures { IfOk result (λ x. x ≡ prim_of bits primary) }
{
    if holds_prim(&primary) {
        return match prim_in_bracket(primary) {
            Some(prim) => {
                let RawPrim {
                    bits: more,
                    primary,
                } = prim;
                let bits = joined(bits, &more)?;
                Ok(RawPrim { bits, primary })
            }
            None => Err(NoMemory),
        };
    }
    Ok(RawPrim { bits, primary })
}
