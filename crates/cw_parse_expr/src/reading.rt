//! Expressions, conditions and references from left to right.
ghost use Rattle.cw_grammar.specs.Tokens.{behind};
ghost use Rattle.cw_grammar.specs.Grammar.{a_pair, a_list, an_option, a_from, a_name, an_expr, a_cond, a_cand, a_cmp, a_sum, a_term, a_differ, a_union, a_mask};
ghost use Rattle.cw_grammar.specs.Grammar.{a_prim, a_primary, a_type, a_ref, bracketed, subscript, indexed, called, located, conditional};
ghost use Rattle.cw_grammar.specs.Rules.{word as grammar_word, symbol, optional, commas, ◌*>◌, ◌<*◌, reference, worded, enclosed, named};
ghost use Rattle.cw_grammar.specs.Rules.{number_type, primary, prim, mask, union, differ, term, sum, cmp, cand, condition, expr};
ghost use Rattle.cw_grammar.specs.Reading.{Gives, read, inside, applied};
ghost use Rattle.cw_lex.specs.declared.token.Symbol.TheVariants.{Comma, CloseSquare};
ghost use Rattle.cw_operand.specs.Operands.{location, forced, in_brackets, addressed};
ghost use Rattle.cw_parse_expr.specs.References.{element, bare};

use crate::chains::{FactorSign, Sign, read_chained};
use cw_grammar::reading::{read_name, read_optional_sign, read_type};
use cw_grammar::stop::Stop;
use cw_grammar::token::{deep, next_is, position, take_kind};
use cw_lex::{Symbol, Token, TokenKind, Word};
use cw_operand::brackets::{
    differ_start, expr_of, mask_start, prim_of, start, sum_start, term_start, union_start,
};
use cw_operand::operands::{
    choice, indexed_name, is_constant, is_enclosed, is_worded, read_all_bits, read_comparator,
    read_constant,
};
use cw_series::lists::{read_before, read_list};
use cw_tree::expression::{
    RawCand, RawCmp, RawCond, RawDiffer, RawExpr, RawMask, RawPrim, RawPrimary, RawRef, RawSum,
    RawTerm, RawUnion,
};
use cw_tree::leaf::{RawName, RawType};
use cw_word::{Boxed, List};
use std::alloc::Global;

#[tactic(auto, using(cw_grammar::proofs::Levels::inside_opened, cw_grammar::proofs::Levels::inside_full), unfolding(cw_grammar::specs::Table::rule))]
#[cycle(reader)]
fn read_bracketed(
    alloc: Global,
    levels: u8,
    tokens: &[Token],
    at: usize,
) -> Result<(Boxed<RawExpr>, usize), Stop>
    ensures { Gives (λ x. (x.0, behind tokens.now x.1)) result (inside levels an_expr bracketed (behind tokens.now at)) }
{
    if levels == 0 {
        return Err(deep(tokens, at));
    }
    let (inner, at) = read_expr(alloc, levels - 1, tokens, at)?;
    let boxed = Boxed::new(alloc, inner)?;
    read_before(tokens, (boxed, at), TokenKind::Symbol(Symbol::Close))
}

#[tactic(auto, using(cw_grammar::proofs::Levels::inside_opened, cw_grammar::proofs::Levels::inside_full), unfolding(cw_grammar::specs::Table::rule))]
#[cycle(reader)]
pub fn read_subscript(
    alloc: Global,
    levels: u8,
    tokens: &[Token],
    at: usize,
) -> Result<(RawExpr, usize), Stop>
    ensures { Gives (λ x. (x.0, behind tokens.now x.1)) result (inside levels an_expr subscript (behind tokens.now at)) }
{
    if levels == 0 {
        return Err(deep(tokens, at));
    }
    let inner = read_expr(alloc, levels - 1, tokens, at)?;
    read_before(tokens, inner, TokenKind::Symbol(Symbol::CloseSquare))
}

// The second index, if there is one, and the bracket behind.
#[cycle(reader)]
fn read_second(
    alloc: Global,
    levels: u8,
    tokens: &[Token],
    at: usize,
) -> Result<(Option<RawExpr>, usize), Stop>
    ensures { Gives (λ x. (x.0, behind tokens.now x.1)) result (read levels (an_option an_expr) (optional (symbol Comma *> expr) <* symbol CloseSquare) (behind tokens.now at)) }
{
    let close = TokenKind::Symbol(Symbol::CloseSquare);
    if next_is(tokens, at, TokenKind::Symbol(Symbol::Comma)) {
        let (_, at) = take_kind(tokens, at, TokenKind::Symbol(Symbol::Comma))?;
        let (second, at) = read_expr(alloc, levels, tokens, at)?;
        return read_before(tokens, (Some(second), at), close);
    }
    read_before(tokens, (None, at), close)
}

#[tactic(auto, using(cw_grammar::proofs::Levels::inside_opened, cw_grammar::proofs::Levels::inside_full), unfolding(cw_grammar::specs::Table::rule))]
#[cycle(reader)]
pub fn read_indexed(
    alloc: Global,
    levels: u8,
    tokens: &[Token],
    at: usize,
) -> Result<((RawExpr, Option<RawExpr>), usize), Stop>
    ensures { Gives (λ x. (x.0, behind tokens.now x.1)) result (inside levels (a_pair an_expr (an_option an_expr)) indexed (behind tokens.now at)) }
{
    if levels == 0 {
        return Err(deep(tokens, at));
    }
    let (first, at) = read_expr(alloc, levels - 1, tokens, at)?;
    let (second, at) = read_second(alloc, levels - 1, tokens, at)?;
    Ok(((first, second), at))
}

#[cycle(reader)]
fn read_arguments(
    alloc: Global,
    levels: u8,
    tokens: &[Token],
    at: usize,
) -> Result<(List<RawExpr>, usize), Stop>
    ensures { Gives (λ x. (x.0, behind tokens.now x.1)) result (read levels (a_list an_expr) (commas expr) (behind tokens.now at)) }
{
    let item = move |at: usize| -> Result<(RawExpr, usize), Stop>
        ensures { Gives (λ x. (x.0, behind tokens.entry.now x.1)) result (read levels an_expr expr (behind tokens.entry.now at)) }
    { read_expr(alloc, levels, tokens, at) };
    read_list(alloc, tokens, at, TokenKind::Symbol(Symbol::Comma), item)
}

#[tactic(auto, using(cw_grammar::proofs::Levels::inside_opened, cw_grammar::proofs::Levels::inside_full), unfolding(cw_grammar::specs::Table::rule))]
#[cycle(reader)]
pub fn read_called(
    alloc: Global,
    levels: u8,
    tokens: &[Token],
    at: usize,
) -> Result<(List<RawExpr>, usize), Stop>
    ensures { Gives (λ x. (x.0, behind tokens.now x.1)) result (inside levels (a_list an_expr) called (behind tokens.now at)) }
{
    if levels == 0 {
        return Err(deep(tokens, at));
    }
    let inner = read_arguments(alloc, levels - 1, tokens, at)?;
    read_before(tokens, inner, TokenKind::Symbol(Symbol::Close))
}

#[tactic(auto, using(cw_grammar::proofs::Levels::inside_opened, cw_grammar::proofs::Levels::inside_full), unfolding(cw_grammar::specs::Table::rule))]
#[cycle(reader)]
fn read_located(
    alloc: Global,
    levels: u8,
    tokens: &[Token],
    at: usize,
) -> Result<(Boxed<RawRef>, usize), Stop>
    ensures { Gives (λ x. (x.0, behind tokens.now x.1)) result (inside levels a_ref located (behind tokens.now at)) }
{
    if levels == 0 {
        return Err(deep(tokens, at));
    }
    let (reference, at) = read_reference(alloc, levels - 1, tokens, at)?;
    let boxed = Boxed::new(alloc, reference)?;
    read_before(tokens, (boxed, at), TokenKind::Symbol(Symbol::Close))
}

#[cycle(reader)]
fn read_branch(
    alloc: Global,
    levels: u8,
    tokens: &[Token],
    at: usize,
    word: Word,
) -> Result<(RawExpr, usize), Stop>
    ensures { Gives (λ x. (x.0, behind tokens.now x.1)) result (read levels an_expr (grammar_word word *> expr) (behind tokens.now at)) }
{
    let (_, at) = take_kind(tokens, at, TokenKind::Word(word))?;
    read_expr(alloc, levels, tokens, at)
}

#[tactic(auto, using(cw_grammar::proofs::Levels::inside_opened, cw_grammar::proofs::Levels::inside_full), unfolding(cw_grammar::specs::Table::rule))]
#[cycle(reader)]
fn read_conditional(
    alloc: Global,
    levels: u8,
    tokens: &[Token],
    at: usize,
) -> Result<((RawCond, (RawExpr, RawExpr)), usize), Stop>
    ensures { Gives (λ x. (x.0, behind tokens.now x.1)) result (inside levels (a_pair a_cond (a_pair an_expr an_expr)) conditional (behind tokens.now at)) }
{
    if levels == 0 {
        return Err(deep(tokens, at));
    }
    let (test, at) = read_condition(alloc, levels - 1, tokens, at)?;
    let (yes, at) = read_branch(alloc, levels - 1, tokens, at, Word::Then)?;
    let (no, at) = read_branch(alloc, levels - 1, tokens, at, Word::Else)?;
    Ok(((test, (yes, no)), at))
}

// What stands behind the name of an element.
#[cycle(reader)]
fn read_element(
    alloc: Global,
    levels: u8,
    tokens: &[Token],
    at: usize,
    name: RawName,
) -> Result<(RawRef, usize), Stop>
    ensures { Gives (λ x. (x.0, behind tokens.now x.1)) result (applied name (read levels (a_from a_name a_ref) element (behind tokens.now at))) }
{
    let (_, at) = take_kind(tokens, at, TokenKind::Symbol(Symbol::OpenSquare))?;
    let (index, at) = read_indexed(alloc, levels, tokens, at)?;
    let reference = indexed_name(alloc, name, index)?;
    Ok((reference, at))
}

#[cycle(reader)]
fn read_bare(
    alloc: Global,
    levels: u8,
    tokens: &[Token],
    at: usize,
) -> Result<(RawRef, usize), Stop>
    ensures { Gives (λ x. (x.0, behind tokens.now x.1)) result (read levels a_ref bare (behind tokens.now at)) }
{
    let (bracket, at) = take_kind(tokens, at, TokenKind::Symbol(Symbol::OpenSquare))?;
    let (address, at) = read_subscript(alloc, levels, tokens, at)?;
    let address = Boxed::new(alloc, address)?;
    Ok((RawRef::Bare(position(bracket), address), at))
}

#[tactic(auto, unfolding(cw_grammar::specs::Rules::reference))]
#[cycle(reader)]
pub fn read_reference(
    alloc: Global,
    levels: u8,
    tokens: &[Token],
    at: usize,
) -> Result<(RawRef, usize), Stop>
    ensures { Gives (λ x. (x.0, behind tokens.now x.1)) result (read levels a_ref reference (behind tokens.now at)) }
{
    if !next_is(tokens, at, TokenKind::Name) {
        return read_bare(alloc, levels, tokens, at);
    }
    let (name, at) = read_name(tokens, at)?;
    if next_is(tokens, at, TokenKind::Symbol(Symbol::OpenSquare)) {
        return read_element(alloc, levels, tokens, at, name);
    }
    Ok((RawRef::Name(name), at))
}

#[cycle(reader)]
fn read_location(
    alloc: Global,
    levels: u8,
    tokens: &[Token],
    at: usize,
) -> Result<(RawPrimary, usize), Stop>
    ensures { Gives (λ x. (x.0, behind tokens.now x.1)) result (read levels a_primary location (behind tokens.now at)) }
{
    let (word, at) = take_kind(tokens, at, TokenKind::Word(Word::Location))?;
    let (_, at) = take_kind(tokens, at, TokenKind::Symbol(Symbol::Open))?;
    let (reference, at) = read_located(alloc, levels, tokens, at)?;
    Ok((RawPrimary::Location(position(word), reference), at))
}

// A type in a box. It stands in an option first: the prover knows what it holds where a type of the function holds one unboxed.
fn read_boxed_type(
    alloc: Global,
    tokens: &[Token],
    at: usize,
) -> Result<(Boxed<RawType>, usize), Stop>
    ensures { Gives (λ x. (x.0, behind tokens.now x.1)) result (read 0 a_type number_type (behind tokens.now at)) }
{
    let (kind, at) = read_type(tokens, at)?;
    match Some(kind) {
        Some(kind) => Ok((Boxed::new(alloc, kind)?, at)),
        None => Err(Stop::Memory),
    }
}

#[tactic(auto, unfolding(cw_grammar::specs::Rules::number_type, cw_grammar::specs::Rules::int, cw_grammar::specs::Rules::octal, cw_grammar::specs::Rules::sint))]
#[cycle(reader)]
fn read_forced(
    alloc: Global,
    levels: u8,
    tokens: &[Token],
    at: usize,
) -> Result<(RawPrimary, usize), Stop>
    ensures { Gives (λ x. (x.0, behind tokens.now x.1)) result (read levels a_primary forced (behind tokens.now at)) }
{
    let (kind, at) = read_boxed_type(alloc, tokens, at)?;
    let (_, at) = take_kind(tokens, at, TokenKind::Symbol(Symbol::Open))?;
    let (inner, at) = read_bracketed(alloc, levels, tokens, at)?;
    Ok((RawPrimary::Forced(kind, inner), at))
}

#[tactic(auto, unfolding(cw_grammar::specs::Rules::worded))]
#[cycle(reader)]
fn read_worded(
    alloc: Global,
    levels: u8,
    tokens: &[Token],
    at: usize,
) -> Result<(RawPrimary, usize), Stop>
    ensures { Gives (λ x. (x.0, behind tokens.now x.1)) result (read levels a_primary worded (behind tokens.now at)) }
{
    if next_is(tokens, at, TokenKind::Word(Word::Location)) {
        return read_location(alloc, levels, tokens, at);
    }
    read_forced(alloc, levels, tokens, at)
}

#[cycle(reader)]
fn read_in_brackets(
    alloc: Global,
    levels: u8,
    tokens: &[Token],
    at: usize,
) -> Result<(RawPrimary, usize), Stop>
    ensures { Gives (λ x. (x.0, behind tokens.now x.1)) result (read levels a_primary in_brackets (behind tokens.now at)) }
{
    let (bracket, at) = take_kind(tokens, at, TokenKind::Symbol(Symbol::Open))?;
    let (inner, at) = read_bracketed(alloc, levels, tokens, at)?;
    Ok((RawPrimary::Bracket(position(bracket), inner), at))
}

#[cycle(reader)]
fn read_addressed(
    alloc: Global,
    levels: u8,
    tokens: &[Token],
    at: usize,
) -> Result<(RawPrimary, usize), Stop>
    ensures { Gives (λ x. (x.0, behind tokens.now x.1)) result (read levels a_primary addressed (behind tokens.now at)) }
{
    let (reference, at) = read_bare(alloc, levels, tokens, at)?;
    Ok((RawPrimary::Ref(reference), at))
}

#[tactic(auto, unfolding(cw_grammar::specs::Rules::enclosed))]
#[cycle(reader)]
fn read_enclosed(
    alloc: Global,
    levels: u8,
    tokens: &[Token],
    at: usize,
) -> Result<(RawPrimary, usize), Stop>
    ensures { Gives (λ x. (x.0, behind tokens.now x.1)) result (read levels a_primary enclosed (behind tokens.now at)) }
{
    if next_is(tokens, at, TokenKind::Symbol(Symbol::Open)) {
        return read_in_brackets(alloc, levels, tokens, at);
    }
    read_addressed(alloc, levels, tokens, at)
}

#[tactic(auto, unfolding(cw_grammar::specs::Rules::named))]
#[cycle(reader)]
fn read_named(
    alloc: Global,
    levels: u8,
    tokens: &[Token],
    at: usize,
) -> Result<(RawPrimary, usize), Stop>
    ensures { Gives (λ x. (x.0, behind tokens.now x.1)) result (read levels a_primary named (behind tokens.now at)) }
{
    let (name, at) = read_name(tokens, at)?;
    if next_is(tokens, at, TokenKind::Symbol(Symbol::OpenSquare)) {
        let (reference, at) = read_element(alloc, levels, tokens, at, name)?;
        return Ok((RawPrimary::Ref(reference), at));
    }
    if next_is(tokens, at, TokenKind::Symbol(Symbol::Open)) {
        let (_, at) = take_kind(tokens, at, TokenKind::Symbol(Symbol::Open))?;
        let (arguments, at) = read_called(alloc, levels, tokens, at)?;
        return Ok((RawPrimary::Call(Boxed::new(alloc, name)?, arguments), at));
    }
    Ok((RawPrimary::Ref(RawRef::Name(name)), at))
}

#[tactic(auto, unfolding(cw_grammar::specs::Rules::primary))]
#[cycle(reader)]
fn read_primary(
    alloc: Global,
    levels: u8,
    tokens: &[Token],
    at: usize,
) -> Result<(RawPrimary, usize), Stop>
    ensures { Gives (λ x. (x.0, behind tokens.now x.1)) result (read levels a_primary primary (behind tokens.now at)) }
{
    if is_constant(tokens, at) {
        return read_constant(alloc, levels, tokens, at);
    }
    if is_worded(tokens, at) {
        return read_worded(alloc, levels, tokens, at);
    }
    if is_enclosed(tokens, at) {
        return read_enclosed(alloc, levels, tokens, at);
    }
    read_named(alloc, levels, tokens, at)
}

#[tactic(auto, unfolding(cw_grammar::specs::Rules::prim))]
#[cycle(reader)]
fn read_prim(
    alloc: Global,
    levels: u8,
    tokens: &[Token],
    at: usize,
) -> Result<(RawPrim, usize), Stop>
    ensures { Gives (λ x. (x.0, behind tokens.now x.1)) result (read levels a_prim prim (behind tokens.now at)) }
{
    let (bits, at) = read_all_bits(alloc, levels, tokens, at)?;
    let (primary, at) = read_primary(alloc, levels, tokens, at)?;
    Ok((prim_of(bits, primary)?, at))
}

#[tactic(auto, unfolding(cw_grammar::specs::Rules::mask))]
#[cycle(reader)]
fn read_mask(
    alloc: Global,
    levels: u8,
    tokens: &[Token],
    at: usize,
) -> Result<(RawMask, usize), Stop>
    ensures { Gives (λ x. (x.0, behind tokens.now x.1)) result (read levels a_mask mask (behind tokens.now at)) }
{
    let (first, at) = read_prim(alloc, levels, tokens, at)?;
    let start = mask_start(alloc, first)?;
    let operand = move |at: usize| -> Result<(RawPrim, usize), Stop>
        ensures { Gives (λ x. (x.0, behind tokens.entry.now x.1)) result (read levels a_prim prim (behind tokens.entry.now at)) }
    { read_prim(alloc, levels, tokens, at) };
    let (chain, at) = read_chained(alloc, tokens, at, Word::Mask, start, operand)?;
    let (operands, operators) = chain;
    let mask = RawMask {
        operands,
        operators,
    };
    Ok((mask, at))
}

#[tactic(auto, unfolding(cw_grammar::specs::Rules::union))]
#[cycle(reader)]
fn read_union(
    alloc: Global,
    levels: u8,
    tokens: &[Token],
    at: usize,
) -> Result<(RawUnion, usize), Stop>
    ensures { Gives (λ x. (x.0, behind tokens.now x.1)) result (read levels a_union union (behind tokens.now at)) }
{
    let (first, at) = read_mask(alloc, levels, tokens, at)?;
    let start = union_start(alloc, first)?;
    let operand = move |at: usize| -> Result<(RawMask, usize), Stop>
        ensures { Gives (λ x. (x.0, behind tokens.entry.now x.1)) result (read levels a_mask mask (behind tokens.entry.now at)) }
    { read_mask(alloc, levels, tokens, at) };
    let (chain, at) = read_chained(alloc, tokens, at, Word::Union, start, operand)?;
    let (operands, operators) = chain;
    let union = RawUnion {
        operands,
        operators,
    };
    Ok((union, at))
}

#[tactic(auto, unfolding(cw_grammar::specs::Rules::differ))]
#[cycle(reader)]
fn read_differ(
    alloc: Global,
    levels: u8,
    tokens: &[Token],
    at: usize,
) -> Result<(RawDiffer, usize), Stop>
    ensures { Gives (λ x. (x.0, behind tokens.now x.1)) result (read levels a_differ differ (behind tokens.now at)) }
{
    let (first, at) = read_union(alloc, levels, tokens, at)?;
    let start = differ_start(alloc, first)?;
    let operand = move |at: usize| -> Result<(RawUnion, usize), Stop>
        ensures { Gives (λ x. (x.0, behind tokens.entry.now x.1)) result (read levels a_union union (behind tokens.entry.now at)) }
    { read_union(alloc, levels, tokens, at) };
    let (chain, at) = read_chained(alloc, tokens, at, Word::Differ, start, operand)?;
    let (operands, operators) = chain;
    let differ = RawDiffer {
        operands,
        operators,
    };
    Ok((differ, at))
}

#[tactic(auto, unfolding(cw_grammar::specs::Rules::term))]
#[cycle(reader)]
fn read_term(
    alloc: Global,
    levels: u8,
    tokens: &[Token],
    at: usize,
) -> Result<(RawTerm, usize), Stop>
    ensures { Gives (λ x. (x.0, behind tokens.now x.1)) result (read levels a_term term (behind tokens.now at)) }
{
    let (first, at) = read_differ(alloc, levels, tokens, at)?;
    let start = term_start(alloc, first)?;
    let operand = move |at: usize| -> Result<(RawDiffer, usize), Stop>
        ensures { Gives (λ x. (x.0, behind tokens.entry.now x.1)) result (read levels a_differ differ (behind tokens.entry.now at)) }
    { read_differ(alloc, levels, tokens, at) };
    let (chain, at) = read_chained(alloc, tokens, at, FactorSign, start, operand)?;
    let (operands, operators) = chain;
    let term = RawTerm {
        operands,
        operators,
    };
    Ok((term, at))
}

#[tactic(auto, unfolding(cw_grammar::specs::Rules::sum))]
#[cycle(reader)]
fn read_sum(alloc: Global, levels: u8, tokens: &[Token], at: usize) -> Result<(RawSum, usize), Stop>
    ensures { Gives (λ x. (x.0, behind tokens.now x.1)) result (read levels a_sum sum (behind tokens.now at)) }
{
    let (sign, at) = read_optional_sign(tokens, at)?;
    let (first, at) = read_term(alloc, levels, tokens, at)?;
    let (front, start) = sum_start(alloc, sign, first)?;
    let operand = move |at: usize| -> Result<(RawTerm, usize), Stop>
        ensures { Gives (λ x. (x.0, behind tokens.entry.now x.1)) result (read levels a_term term (behind tokens.entry.now at)) }
    { read_term(alloc, levels, tokens, at) };
    let (chain, at) = read_chained(alloc, tokens, at, Sign, start, operand)?;
    let (operands, operators) = chain;
    let sum = RawSum {
        sign: front,
        operands,
        operators,
    };
    Ok((sum, at))
}

#[tactic(auto, unfolding(cw_grammar::specs::Rules::cmp))]
#[cycle(reader)]
fn read_cmp(alloc: Global, levels: u8, tokens: &[Token], at: usize) -> Result<(RawCmp, usize), Stop>
    ensures { Gives (λ x. (x.0, behind tokens.now x.1)) result (read levels a_cmp cmp (behind tokens.now at)) }
{
    let (left, at) = read_sum(alloc, levels, tokens, at)?;
    let left = Boxed::new(alloc, left)?;
    let (operator, at) = read_comparator(tokens, at)?;
    let (right, at) = read_sum(alloc, levels, tokens, at)?;
    let right = Boxed::new(alloc, right)?;
    let cmp = RawCmp {
        left,
        operator,
        right,
    };
    Ok((cmp, at))
}

#[tactic(auto, unfolding(cw_grammar::specs::Rules::cand))]
#[cycle(reader)]
fn read_cand(
    alloc: Global,
    levels: u8,
    tokens: &[Token],
    at: usize,
) -> Result<(RawCand, usize), Stop>
    ensures { Gives (λ x. (x.0, behind tokens.now x.1)) result (read levels a_cand cand (behind tokens.now at)) }
{
    let (first, at) = read_cmp(alloc, levels, tokens, at)?;
    let start = start(alloc, first)?;
    let operand = move |at: usize| -> Result<(RawCmp, usize), Stop>
        ensures { Gives (λ x. (x.0, behind tokens.entry.now x.1)) result (read levels a_cmp cmp (behind tokens.entry.now at)) }
    { read_cmp(alloc, levels, tokens, at) };
    let (chain, at) = read_chained(alloc, tokens, at, Word::And, start, operand)?;
    let (operands, operators) = chain;
    let cand = RawCand {
        operands,
        operators,
    };
    Ok((cand, at))
}

#[tactic(auto, unfolding(cw_grammar::specs::Rules::condition))]
#[cycle(reader)]
pub fn read_condition(
    alloc: Global,
    levels: u8,
    tokens: &[Token],
    at: usize,
) -> Result<(RawCond, usize), Stop>
    ensures { Gives (λ x. (x.0, behind tokens.now x.1)) result (read levels a_cond condition (behind tokens.now at)) }
{
    let (first, at) = read_cand(alloc, levels, tokens, at)?;
    let start = start(alloc, first)?;
    let operand = move |at: usize| -> Result<(RawCand, usize), Stop>
        ensures { Gives (λ x. (x.0, behind tokens.entry.now x.1)) result (read levels a_cand cand (behind tokens.entry.now at)) }
    { read_cand(alloc, levels, tokens, at) };
    let (chain, at) = read_chained(alloc, tokens, at, Word::Or, start, operand)?;
    let (operands, operators) = chain;
    let condition = RawCond {
        operands,
        operators,
    };
    Ok((condition, at))
}

#[tactic(auto, unfolding(cw_grammar::specs::Rules::expr))]
#[cycle(reader)]
pub fn read_expr(
    alloc: Global,
    levels: u8,
    tokens: &[Token],
    at: usize,
) -> Result<(RawExpr, usize), Stop>
    ensures { Gives (λ x. (x.0, behind tokens.now x.1)) result (read levels an_expr expr (behind tokens.now at)) }
{
    if next_is(tokens, at, TokenKind::Word(Word::If)) {
        let (word, at) = take_kind(tokens, at, TokenKind::Word(Word::If))?;
        let (parts, at) = read_conditional(alloc, levels, tokens, at)?;
        return Ok((choice(alloc, word, parts)?, at));
    }
    let (sum, at) = read_sum(alloc, levels, tokens, at)?;
    Ok((expr_of(alloc, sum)?, at))
}
