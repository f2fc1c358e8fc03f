//! Constants, operators and BITS from left to right.
ghost use Rattle.std.specs.Prelude.{◌≡◌, ℕ, [], ◌∷◌, IfOk};
ghost use Rattle.cw_grammar.specs.Tokens.{behind, seen, position};
ghost use Rattle.cw_grammar.specs.Grammar.{starts, first, a_list, a_position, a_bits, a_compare_sign, a_factor_sign, a_primary, one, many, ◌⇒◌};
ghost use Rattle.cw_grammar.specs.Rules.{operator, indexed_name, compared, bits, constant, worded, enclosed, factor_sign, comparator};
ghost use Rattle.cw_grammar.specs.Reading.{Gives, read};
ghost use Rattle.cw_operand.specs.Operands.{literal, quoted};
ghost use Rattle.cw_tree.specs.declared.expression.RawExpr.TheVariants.{Choice};

use cw_grammar::leaf::{characters, literal_byte};
use cw_grammar::reading::{read_number, read_octal, read_size};
use cw_grammar::stop::Stop;
use cw_grammar::token::{Item, next_is, position, take_kind};
use cw_lex::{Symbol, Token, TokenKind, Word};
use cw_tree::expression::{RawBits, RawCond, RawExpr, RawPrimary, RawRef};
use cw_tree::leaf::{
    CompareOp, MulOp, Position, RawCompareSign, RawFactorSign, RawLiteral, RawName,
};
use cw_word::{Boxed, List, NoMemory};
use std::alloc::Global;

/// `BITS size`.
#[tactic(auto, unfolding(cw_grammar::specs::Rules::bits))]
pub fn read_bits(tokens: &[Token], at: usize) -> Result<(RawBits, usize), Stop>
    ensures { Gives (λ x. (x.0, behind tokens.now x.1)) result (read 0 a_bits bits (behind tokens.now at)) }
{
    let (word, at) = take_kind(tokens, at, TokenKind::Word(Word::Bits))?;
    let (size, at) = read_size(tokens, at)?;
    Ok((
        RawBits {
            at: position(word),
            size,
        },
        at,
    ))
}

/// All that stands before a primary.
pub fn read_all_bits(
    alloc: Global,
    levels: u8,
    tokens: &[Token],
    at: usize,
) -> Result<(List<RawBits>, usize), Stop>
    ensures { Gives (λ x. (x.0, behind tokens.now x.1)) result (read levels (a_list a_bits) (many bits) (behind tokens.now at)) }
{
    let mut found = List::new(alloc);
    let mut next = at;
    while next_is(tokens, next, TokenKind::Word(Word::Bits)) {
        let (item, after) = read_bits(tokens, next)?;
        // The size alone shows the prover where the ranges of its numbers are stated.
        let RawBits { at, size } = item;
        found.push(RawBits { at, size })?;
        next = after;
    }
    Ok((found, next))
}

/// A word between operands.
pub fn read_operator(tokens: &[Token], at: usize, kind: Word) -> Result<(Position, usize), Stop>
    ensures { Gives (λ x. (x.0, behind tokens.now x.1)) result (read 0 a_position (operator kind) (behind tokens.now at)) }
{
    let (item, at) = take_kind(tokens, at, TokenKind::Word(kind))?;
    Ok((position(item), at))
}

/// A name with its indexes.
pub fn indexed_name(
    alloc: Global,
    name: RawName,
    index: (RawExpr, Option<RawExpr>),
) -> Result<RawRef, NoMemory>
    ensures { IfOk result (λ x. x ≡ indexed_name name index.0 index.1) }
{
    let (first, second) = index;
    let first = Boxed::new(alloc, first)?;
    match second {
        None => Ok(RawRef::One(name, first)),
        Some(second) => {
            let name = Boxed::new(alloc, name)?;
            Ok(RawRef::Two(name, first, Boxed::new(alloc, second)?))
        }
    }
}

fn read_literal(tokens: &[Token], at: usize) -> Result<(RawPrimary, usize), Stop>
    ensures { Gives (λ x. (x.0, behind tokens.now x.1)) result (read 0 a_primary literal (behind tokens.now at)) }
{
    let (item, at) = take_kind(tokens, at, TokenKind::Literal)?;
    let literal = RawLiteral {
        at: position(item),
        byte: literal_byte(item.text),
    };
    Ok((RawPrimary::Literal(literal), at))
}

fn read_quoted(alloc: Global, tokens: &[Token], at: usize) -> Result<(RawPrimary, usize), Stop>
    ensures { Gives (λ x. (x.0, behind tokens.now x.1)) result (read 0 a_primary quoted (behind tokens.now at)) }
{
    let (item, at) = take_kind(tokens, at, TokenKind::Text)?;
    let text = characters(alloc, item.kind, item.text)?;
    Ok((RawPrimary::Text(position(item), text), at))
}

/// A number, a literal or a string.
#[tactic(auto, unfolding(cw_grammar::specs::Rules::constant, cw_grammar::specs::Rules::octal))]
pub fn read_constant(
    alloc: Global,
    levels: u8,
    tokens: &[Token],
    at: usize,
) -> Result<(RawPrimary, usize), Stop>
    ensures { Gives (λ x. (x.0, behind tokens.now x.1)) result (read levels a_primary constant (behind tokens.now at)) }
{
    if next_is(tokens, at, TokenKind::Number) {
        let (number, at) = read_number(tokens, at)?;
        return Ok((RawPrimary::Number(number), at));
    }
    if next_is(tokens, at, TokenKind::Word(Word::Octal)) {
        let (octal, at) = read_octal(tokens, at)?;
        return Ok((RawPrimary::Octal(octal), at));
    }
    if next_is(tokens, at, TokenKind::Literal) {
        return read_literal(tokens, at);
    }
    read_quoted(alloc, tokens, at)
}

/// Whether a constant comes next.
#[tactic(auto, unfolding(cw_grammar::specs::Rules::constant, cw_grammar::specs::Rules::octal))]
pub fn is_constant(tokens: &[Token], at: usize) -> bool
    ensures { result ≡ starts (behind tokens.now at) (first constant) }
{
    next_is(tokens, at, TokenKind::Number)
        || next_is(tokens, at, TokenKind::Word(Word::Octal))
        || next_is(tokens, at, TokenKind::Literal)
        || next_is(tokens, at, TokenKind::Text)
}

/// Whether LOCATION or a type comes next.
#[tactic(auto, unfolding(cw_grammar::specs::Rules::worded, cw_grammar::specs::Rules::number_type))]
pub fn is_worded(tokens: &[Token], at: usize) -> bool
    ensures { result ≡ starts (behind tokens.now at) (first worded) }
{
    next_is(tokens, at, TokenKind::Word(Word::Location))
        || next_is(tokens, at, TokenKind::Word(Word::Integer))
        || next_is(tokens, at, TokenKind::Word(Word::Fixed))
}

/// Whether a bracket comes next.
#[tactic(auto, unfolding(cw_grammar::specs::Rules::enclosed))]
pub fn is_enclosed(tokens: &[Token], at: usize) -> bool
    ensures { result ≡ starts (behind tokens.now at) (first enclosed) }
{
    next_is(tokens, at, TokenKind::Symbol(Symbol::Open))
        || next_is(tokens, at, TokenKind::Symbol(Symbol::OpenSquare))
}

/// Whether `*` or `/` comes next.
pub fn is_factor_sign(tokens: &[Token], at: usize) -> bool
    ensures { result ≡ starts (behind tokens.now at) (first factor_sign) }
{
    next_is(tokens, at, TokenKind::Symbol(Symbol::Times))
        || next_is(tokens, at, TokenKind::Symbol(Symbol::Divide))
}

/// `*` or `/`.
pub fn read_factor_sign(tokens: &[Token], at: usize) -> Result<(RawFactorSign, usize), Stop>
    ensures { Gives (λ x. (x.0, behind tokens.now x.1)) result (read 0 a_factor_sign factor_sign (behind tokens.now at)) }
{
    if next_is(tokens, at, TokenKind::Symbol(Symbol::Times)) {
        let (item, at) = take_kind(tokens, at, TokenKind::Symbol(Symbol::Times))?;
        let sign = RawFactorSign {
            at: position(item),
            op: MulOp::Times,
        };
        return Ok((sign, at));
    }
    let (item, at) = take_kind(tokens, at, TokenKind::Symbol(Symbol::Divide))?;
    let sign = RawFactorSign {
        at: position(item),
        op: MulOp::Divide,
    };
    Ok((sign, at))
}

fn take_compared(
    tokens: &[Token],
    at: usize,
    kind: TokenKind,
    op: CompareOp,
) -> Result<(RawCompareSign, usize), Stop>
    ensures { Gives (λ x. (x.0, behind tokens.now x.1)) result (read 0 a_compare_sign (one kind ⇒ compared op) (behind tokens.now at)) }
{
    let (item, at) = take_kind(tokens, at, kind)?;
    let sign = RawCompareSign {
        at: position(item),
        op,
    };
    Ok((sign, at))
}

/// A sign between sums that are compared.
pub fn read_comparator(tokens: &[Token], at: usize) -> Result<(RawCompareSign, usize), Stop>
    ensures { Gives (λ x. (x.0, behind tokens.now x.1)) result (read 0 a_compare_sign comparator (behind tokens.now at)) }
{
    let sign = TokenKind::Symbol(Symbol::Less);
    if next_is(tokens, at, sign) {
        return take_compared(tokens, at, sign, CompareOp::Less);
    }
    let sign = TokenKind::Symbol(Symbol::LessOrEqual);
    if next_is(tokens, at, sign) {
        return take_compared(tokens, at, sign, CompareOp::LessOrEqual);
    }
    let sign = TokenKind::Symbol(Symbol::Equal);
    if next_is(tokens, at, sign) {
        return take_compared(tokens, at, sign, CompareOp::Equal);
    }
    let sign = TokenKind::Symbol(Symbol::GreaterOrEqual);
    if next_is(tokens, at, sign) {
        return take_compared(tokens, at, sign, CompareOp::GreaterOrEqual);
    }
    let sign = TokenKind::Symbol(Symbol::Greater);
    if next_is(tokens, at, sign) {
        return take_compared(tokens, at, sign, CompareOp::Greater);
    }
    take_compared(
        tokens,
        at,
        TokenKind::Symbol(Symbol::NotEqual),
        CompareOp::NotEqual,
    )
}

fn boxed_choices(
    alloc: Global,
    yes: RawExpr,
    no: RawExpr,
) -> Result<(Boxed<RawExpr>, Boxed<RawExpr>), NoMemory>
    ensures { IfOk result (λ x. x ≡ (yes, no)) }
{
    let yes = Boxed::new(alloc, yes)?;
    let no = Boxed::new(alloc, no)?;
    Ok((yes, no))
}

/// One expression or another, by a condition.
pub fn choice(
    alloc: Global,
    item: Item,
    parts: (RawCond, (RawExpr, RawExpr)),
) -> Result<RawExpr, NoMemory>
    ensures { IfOk result (λ x. x ≡ Choice (position (seen item.entry)) parts.0 parts.1.0 parts.1.1) }
{
    let (test, (yes, no)) = parts;
    let test = Boxed::new(alloc, test)?;
    let (yes, no) = boxed_choices(alloc, yes, no)?;
    Ok(RawExpr::Choice(position(item), test, yes, no))
}
