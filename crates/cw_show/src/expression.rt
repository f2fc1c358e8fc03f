//! Expressions and conditions.
ghost use Rattle.std.specs.Prelude.{map};
ghost use Rattle.cw_show.specs.Adding.{Adds};
ghost use Rattle.cw_show.specs.Canonical.{joined, bracketed, indexed, between, comma};
ghost use Rattle.cw_show.specs.ExpressionTokens.{add_at, multiply_at, bits_tokens, expr_tokens, primary_tokens, ref_tokens, cand_tokens, cmp_tokens};
ghost use Rattle.cw_show.specs.ExpressionTokens.{cond_tokens, differ_tokens, mask_tokens, prim_tokens, sum_tokens, term_tokens, union_tokens};

use crate::leaf::{
    put_add_op, put_compare_op, put_literal, put_mul_op, put_name, put_number, put_octal, put_sign,
    put_size, put_string, put_type,
};
use crate::token::{put_symbol, put_word};
use crate::written::Text;
use cw_lex::{Symbol, Word};
use cw_tree::expression::{
    RawBits, RawCand, RawCmp, RawCond, RawDiffer, RawExpr, RawMask, RawPrim, RawPrimary, RawRef,
    RawSum, RawTerm, RawUnion,
};
use cw_tree::leaf::{RawFactorSign, RawSign};

/// Adds `BITS [ int , int ]`.
pub fn put_bits(out: &mut Text, bits: &RawBits)
    ensures { Adds out.old out.new (bits_tokens bits.now) }
{
    put_word(out, Word::Bits);
    put_size(out, &bits.size);
}

fn put_all_bits(out: &mut Text, bits: &[RawBits])
    ensures { Adds out.old out.new (joined (map bits_tokens bits.now)) }
{
    for one in bits {
        put_bits(out, one);
    }
}

// Adds the operator of this number, where there is one.
fn put_add_at(out: &mut Text, signs: &[RawSign], at: usize)
    ensures { Adds out.old out.new (add_at signs.now at) }
{
    match signs.get(at) {
        Some(sign) => put_add_op(out, sign.op),
        None => {}
    }
}

fn put_mul_at(out: &mut Text, signs: &[RawFactorSign], at: usize)
    ensures { Adds out.old out.new (multiply_at signs.now at) }
{
    match signs.get(at) {
        Some(sign) => put_mul_op(out, sign.op),
        None => {}
    }
}

/// Adds an expression.
#[cycle(expression)]
pub fn put_expr(out: &mut Text, expr: &RawExpr)
    ensures { Adds out.old out.new (expr_tokens expr.now) }
{
    match expr {
        RawExpr::Choice(_, test, first, second) => {
            put_word(out, Word::If);
            put_cond(out, test.get());
            put_word(out, Word::Then);
            put_expr(out, first.get());
            put_word(out, Word::Else);
            put_expr(out, second.get());
        }
        RawExpr::Sum(sum) => put_sum(out, sum.get()),
    }
}

/// Adds a condition.
#[cycle(expression)]
pub fn put_cond(out: &mut Text, cond: &RawCond)
    ensures { Adds out.old out.new (cond_tokens cond.now) }
{
    match cond.operands.as_slice() {
        [] => {}
        [first, rest @ ..] => {
            put_cand(out, first);
            for operand in rest {
                put_word(out, Word::Or);
                put_cand(out, operand);
            }
        }
    }
}

#[cycle(expression)]
fn put_cand(out: &mut Text, cand: &RawCand)
    ensures { Adds out.old out.new (cand_tokens cand.now) }
{
    match cand.operands.as_slice() {
        [] => {}
        [first, rest @ ..] => {
            put_cmp(out, first);
            for operand in rest {
                put_word(out, Word::And);
                put_cmp(out, operand);
            }
        }
    }
}

#[cycle(expression)]
fn put_differ(out: &mut Text, differ: &RawDiffer)
    ensures { Adds out.old out.new (differ_tokens differ.now) }
{
    match differ.operands.as_slice() {
        [] => {}
        [first, rest @ ..] => {
            put_union(out, first);
            for operand in rest {
                put_word(out, Word::Differ);
                put_union(out, operand);
            }
        }
    }
}

#[cycle(expression)]
fn put_union(out: &mut Text, union: &RawUnion)
    ensures { Adds out.old out.new (union_tokens union.now) }
{
    match union.operands.as_slice() {
        [] => {}
        [first, rest @ ..] => {
            put_mask(out, first);
            for operand in rest {
                put_word(out, Word::Union);
                put_mask(out, operand);
            }
        }
    }
}

#[cycle(expression)]
fn put_mask(out: &mut Text, mask: &RawMask)
    ensures { Adds out.old out.new (mask_tokens mask.now) }
{
    match mask.operands.as_slice() {
        [] => {}
        [first, rest @ ..] => {
            put_prim(out, first);
            for operand in rest {
                put_word(out, Word::Mask);
                put_prim(out, operand);
            }
        }
    }
}

#[cycle(expression)]
fn put_cmp(out: &mut Text, cmp: &RawCmp)
    ensures { Adds out.old out.new (cmp_tokens cmp.now) }
{
    put_sum(out, cmp.left.get());
    put_compare_op(out, cmp.operator.op);
    put_sum(out, cmp.right.get());
}

#[cycle(expression)]
fn put_sum(out: &mut Text, sum: &RawSum)
    ensures { Adds out.old out.new (sum_tokens sum.now) }
{
    put_sign(out, &sum.sign);
    let signs = sum.operators.as_slice();
    match sum.operands.as_slice() {
        [] => {}
        [first, rest @ ..] => {
            put_term(out, first);
            for i in 0..rest.len() {
                put_add_at(out, signs, i);
                put_term(out, &rest[i]);
            }
        }
    }
}

#[cycle(expression)]
fn put_term(out: &mut Text, term: &RawTerm)
    ensures { Adds out.old out.new (term_tokens term.now) }
{
    let signs = term.operators.as_slice();
    match term.operands.as_slice() {
        [] => {}
        [first, rest @ ..] => {
            put_differ(out, first);
            for i in 0..rest.len() {
                put_mul_at(out, signs, i);
                put_differ(out, &rest[i]);
            }
        }
    }
}

#[cycle(expression)]
fn put_prim(out: &mut Text, prim: &RawPrim)
    ensures { Adds out.old out.new (prim_tokens prim.now) }
{
    put_all_bits(out, prim.bits.as_slice());
    put_primary(out, &prim.primary);
}

#[cycle(expression)]
fn put_primary(out: &mut Text, primary: &RawPrimary)
    ensures { Adds out.old out.new (primary_tokens primary.now) }
{
    match primary {
        RawPrimary::Number(number) => put_number(out, &number.number),
        RawPrimary::Octal(octal) => put_octal(out, octal),
        RawPrimary::Literal(literal) => put_literal(out, literal.byte),
        RawPrimary::Text(_, characters) => put_string(out, characters.as_slice()),
        RawPrimary::Location(_, place) => {
            put_word(out, Word::Location);
            put_located(out, place.get());
        }
        RawPrimary::Forced(number_type, value) => {
            put_type(out, number_type.get());
            put_bracketed(out, value.get());
        }
        RawPrimary::Bracket(_, value) => put_bracketed(out, value.get()),
        RawPrimary::Ref(place) => put_ref(out, place),
        RawPrimary::Call(name, arguments) => {
            put_name(out, &name.get().name);
            put_arguments(out, arguments.as_slice());
        }
    }
}

/// Adds a reference.
#[cycle(expression)]
pub fn put_ref(out: &mut Text, reference: &RawRef)
    ensures { Adds out.old out.new (ref_tokens reference.now) }
{
    match reference {
        RawRef::Name(name) => put_name(out, &name.name),
        RawRef::One(name, index) => {
            put_name(out, &name.name);
            put_index(out, index.get());
        }
        RawRef::Two(name, first, second) => {
            put_name(out, &name.get().name);
            put_symbol(out, Symbol::OpenSquare);
            put_expr(out, first.get());
            put_symbol(out, Symbol::Comma);
            put_expr(out, second.get());
            put_symbol(out, Symbol::CloseSquare);
        }
        RawRef::Bare(_, index) => put_index(out, index.get()),
    }
}

#[cycle(expression)]
fn put_bracketed(out: &mut Text, expr: &RawExpr)
    ensures { Adds out.old out.new (bracketed (expr_tokens expr.now)) }
{
    put_symbol(out, Symbol::Open);
    put_expr(out, expr);
    put_symbol(out, Symbol::Close);
}

#[cycle(expression)]
fn put_located(out: &mut Text, reference: &RawRef)
    ensures { Adds out.old out.new (bracketed (ref_tokens reference.now)) }
{
    put_symbol(out, Symbol::Open);
    put_ref(out, reference);
    put_symbol(out, Symbol::Close);
}

/// Adds `[ expr ]`.
#[cycle(expression)]
pub fn put_index(out: &mut Text, expr: &RawExpr)
    ensures { Adds out.old out.new (indexed (expr_tokens expr.now)) }
{
    put_symbol(out, Symbol::OpenSquare);
    put_expr(out, expr);
    put_symbol(out, Symbol::CloseSquare);
}

/// Adds `( expr , .. )`.
#[cycle(expression)]
pub fn put_arguments(out: &mut Text, arguments: &[RawExpr])
    ensures { Adds out.old out.new (bracketed (between comma (map expr_tokens arguments.now))) }
{
    put_symbol(out, Symbol::Open);
    put_exprs(out, arguments);
    put_symbol(out, Symbol::Close);
}

#[cycle(expression)]
fn put_exprs(out: &mut Text, exprs: &[RawExpr])
    ensures { Adds out.old out.new (between comma (map expr_tokens exprs.now)) }
{
    match exprs {
        [] => {}
        [first, rest @ ..] => {
            put_expr(out, first);
            for expr in rest {
                put_symbol(out, Symbol::Comma);
                put_expr(out, expr);
            }
        }
    }
}
