//! Names, numbers, types and sizes from left to right.
ghost use Rattle.std.specs.Prelude.{◌≡◌, ℕ, [], ◌∷◌};
ghost use Rattle.cw_grammar.specs.Tokens.{behind};
ghost use Rattle.cw_grammar.specs.Grammar.{starts, first, a_name, a_number, an_octal, an_int, a_sint, a_size, a_type, a_sign, an_option, a_literal};
ghost use Rattle.cw_grammar.specs.Rules.{name, number, octal, int, sign, optional, sint, size, number_type};
ghost use Rattle.cw_grammar.specs.Reading.{Gives, read};

use crate::leaf::{name_of, number_of};
use crate::stop::Stop;
use crate::token::{next_is, position, take_kind};
use cw_lex::{Symbol, Token, TokenKind, Word};
use cw_tree::leaf::{
    AddOp, RawInt, RawName, RawNumber, RawOctal, RawSign, RawSint, RawSize, RawType,
};

/// A name.
pub fn read_name(tokens: &[Token], at: usize) -> Result<(RawName, usize), Stop>
    ensures { Gives (λ x. (x.0, behind tokens.now x.1)) result (read 0 a_name name (behind tokens.now at)) }
{
    let (item, at) = take_kind(tokens, at, TokenKind::Name)?;
    let name = RawName {
        at: position(item),
        name: name_of(item.text),
    };
    Ok((name, at))
}

/// A number.
pub fn read_number(tokens: &[Token], at: usize) -> Result<(RawNumber, usize), Stop>
    ensures { Gives (λ x. (x.0, behind tokens.now x.1)) result (read 0 a_number number (behind tokens.now at)) }
{
    let (item, at) = take_kind(tokens, at, TokenKind::Number)?;
    let number = RawNumber {
        at: position(item),
        number: number_of(item.text),
    };
    Ok((number, at))
}

/// `OCTAL ( number )`.
#[tactic(auto, unfolding(crate::specs::Rules::octal))]
pub fn read_octal(tokens: &[Token], at: usize) -> Result<(RawOctal, usize), Stop>
    ensures { Gives (λ x. (x.0, behind tokens.now x.1)) result (read 0 an_octal octal (behind tokens.now at)) }
{
    let (word, at) = take_kind(tokens, at, TokenKind::Word(Word::Octal))?;
    let (_, at) = take_kind(tokens, at, TokenKind::Symbol(Symbol::Open))?;
    let (number, at) = read_number(tokens, at)?;
    let (_, at) = take_kind(tokens, at, TokenKind::Symbol(Symbol::Close))?;
    let octal = RawOctal {
        at: position(word),
        number,
    };
    Ok((octal, at))
}

/// A number, perhaps octal.
#[tactic(auto, unfolding(crate::specs::Rules::int))]
pub fn read_int(tokens: &[Token], at: usize) -> Result<(RawInt, usize), Stop>
    ensures { Gives (λ x. (x.0, behind tokens.now x.1)) result (read 0 an_int int (behind tokens.now at)) }
{
    if next_is(tokens, at, TokenKind::Number) {
        let (number, at) = read_number(tokens, at)?;
        return Ok((RawInt::Number(number), at));
    }
    let (octal, at) = read_octal(tokens, at)?;
    Ok((RawInt::Octal(octal), at))
}

/// Whether a sign comes next.
pub fn is_sign(tokens: &[Token], at: usize) -> bool
    ensures { result ≡ starts (behind tokens.now at) (first sign) }
{
    next_is(tokens, at, TokenKind::Symbol(Symbol::Plus))
        || next_is(tokens, at, TokenKind::Symbol(Symbol::Minus))
}

/// A sign.
pub fn read_sign(tokens: &[Token], at: usize) -> Result<(RawSign, usize), Stop>
    ensures { Gives (λ x. (x.0, behind tokens.now x.1)) result (read 0 a_sign sign (behind tokens.now at)) }
{
    if next_is(tokens, at, TokenKind::Symbol(Symbol::Plus)) {
        let (item, at) = take_kind(tokens, at, TokenKind::Symbol(Symbol::Plus))?;
        let sign = RawSign {
            at: position(item),
            op: AddOp::Plus,
        };
        return Ok((sign, at));
    }
    let (item, at) = take_kind(tokens, at, TokenKind::Symbol(Symbol::Minus))?;
    let sign = RawSign {
        at: position(item),
        op: AddOp::Minus,
    };
    Ok((sign, at))
}

/// A sign, if one comes next.
pub fn read_optional_sign(tokens: &[Token], at: usize) -> Result<(Option<RawSign>, usize), Stop>
    ensures { Gives (λ x. (x.0, behind tokens.now x.1)) result (read 0 (an_option a_sign) (optional sign) (behind tokens.now at)) }
{
    if is_sign(tokens, at) {
        let (sign, at) = read_sign(tokens, at)?;
        return Ok((Some(sign), at));
    }
    Ok((None, at))
}

/// A number, perhaps octal, perhaps with a sign.
#[tactic(auto, unfolding(crate::specs::Rules::sint))]
pub fn read_sint(tokens: &[Token], at: usize) -> Result<(RawSint, usize), Stop>
    ensures { Gives (λ x. (x.0, behind tokens.now x.1)) result (read 0 a_sint sint (behind tokens.now at)) }
{
    let (sign, at) = read_optional_sign(tokens, at)?;
    let (value, at) = read_int(tokens, at)?;
    Ok((RawSint { sign, value }, at))
}

/// INTEGER or FIXED.
#[tactic(auto, unfolding(crate::specs::Rules::number_type))]
pub fn read_type(tokens: &[Token], at: usize) -> Result<(RawType, usize), Stop>
    ensures { Gives (λ x. (x.0, behind tokens.now x.1)) result (read 0 a_type number_type (behind tokens.now at)) }
{
    if next_is(tokens, at, TokenKind::Word(Word::Integer)) {
        let (item, at) = take_kind(tokens, at, TokenKind::Word(Word::Integer))?;
        return Ok((RawType::Integer(position(item)), at));
    }
    let (item, at) = take_kind(tokens, at, TokenKind::Word(Word::Fixed))?;
    let (_, at) = take_kind(tokens, at, TokenKind::Symbol(Symbol::Open))?;
    let (bits, at) = read_int(tokens, at)?;
    let (_, at) = take_kind(tokens, at, TokenKind::Symbol(Symbol::Comma))?;
    let (scale, at) = read_sint(tokens, at)?;
    let (_, at) = take_kind(tokens, at, TokenKind::Symbol(Symbol::Close))?;
    Ok((RawType::Fixed(position(item), bits, scale), at))
}

/// `[ int , int ]`.
#[tactic(auto, unfolding(crate::specs::Rules::size))]
pub fn read_size(tokens: &[Token], at: usize) -> Result<(RawSize, usize), Stop>
    ensures { Gives (λ x. (x.0, behind tokens.now x.1)) result (read 0 a_size size (behind tokens.now at)) }
{
    let (_, at) = take_kind(tokens, at, TokenKind::Symbol(Symbol::OpenSquare))?;
    let (first, at) = read_int(tokens, at)?;
    let (_, at) = take_kind(tokens, at, TokenKind::Symbol(Symbol::Comma))?;
    let (second, at) = read_int(tokens, at)?;
    let (_, at) = take_kind(tokens, at, TokenKind::Symbol(Symbol::CloseSquare))?;
    Ok((RawSize { first, second }, at))
}
