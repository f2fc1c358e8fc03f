//! Names, numbers, literals, strings, types and signs.
ghost use Rattle.std.specs.Prelude.{◌≡◌, ◌∷◌, [], replicate, decimal};
ghost use Rattle.cw_show.specs.Adding.{Extends, Adds};
ghost use Rattle.cw_show.specs.Spelling.{symbol as symbol_token};
ghost use Rattle.cw_show.specs.Canonical.{name as name_token, fraction, number_text, number as number_token};
ghost use Rattle.cw_show.specs.Canonical.{literal as literal_token, doubled, string, octal_tokens};
ghost use Rattle.cw_show.specs.Canonical.{int_tokens, add_symbol, multiply_symbol, compare_symbol, sign_tokens, sint_tokens, size_tokens, type_tokens};

use crate::token::{end_token, put_symbol, put_token, put_word};
use crate::written::{Text, put};
use cw_lex::{Symbol, TokenKind, Word};
use cw_tree::leaf::{
    AddOp, CompareOp, MulOp, RawInt, RawOctal, RawSign, RawSint, RawSize, RawType,
};
use cw_word::{Name, Num};

/// Adds a name.
pub fn put_name(out: &mut Text, name: &Name)
    ensures { Adds out.old out.new (name_token name.now ∷ []) }
{
    put_token(out, TokenKind::Name, name.bytes());
}

fn put_zeros(out: &mut Text, count: usize)
    ensures { Extends out.old out.new (replicate count 48) }
{
    for _ in 0..count {
        put(out, b"0");
    }
}

fn put_fraction(out: &mut Text, places: u8, digits: u64)
    ensures { Extends out.old out.new (fraction places digits) }
{
    let mut buffer = itoa::Buffer::new();
    let digits = buffer.format(digits).as_bytes();
    put_zeros(out, (places as usize).saturating_sub(digits.len()));
    put(out, digits);
}

fn put_decimal(out: &mut Text, number: u64)
    ensures { Extends out.old out.new (decimal number) }
{
    let mut buffer = itoa::Buffer::new();
    put(out, buffer.format(number).as_bytes());
}

fn put_digits(out: &mut Text, number: &Num)
    ensures { Extends out.old out.new (number_text number.now) }
{
    put_decimal(out, number.whole());
    if number.places() == 0 {
        return;
    }
    put(out, b".");
    put_fraction(out, number.places(), number.digits());
}

/// Adds a number.
pub fn put_number(out: &mut Text, number: &Num)
    ensures { Adds out.old out.new (number_token number.now ∷ []) }
{
    put_digits(out, number);
    end_token(out, TokenKind::Number);
}

/// Adds a literal.
pub fn put_literal(out: &mut Text, byte: u8)
    ensures { Adds out.old out.new (literal_token byte ∷ []) }
{
    put(out, b"LITERAL(");
    put(out, &[byte, b')']);
    end_token(out, TokenKind::Literal);
}

fn put_character(out: &mut Text, byte: u8)
    ensures { Extends out.old out.new (doubled (byte ∷ [])) }
{
    if byte == b'"' {
        put(out, b"\"\"");
        return;
    }
    put(out, &[byte]);
}

fn put_doubled(out: &mut Text, characters: &[u8])
    ensures { Extends out.old out.new (doubled characters.now) }
{
    for byte in characters {
        put_character(out, *byte);
    }
}

/// Adds a string.
pub fn put_string(out: &mut Text, characters: &[u8])
    ensures { Adds out.old out.new (string characters.now ∷ []) }
{
    put(out, b"\"");
    put_doubled(out, characters);
    put(out, b"\"");
    end_token(out, TokenKind::Text);
}

/// Adds `OCTAL ( number )`.
pub fn put_octal(out: &mut Text, octal: &RawOctal)
    ensures { Adds out.old out.new (octal_tokens octal.now) }
{
    put_word(out, Word::Octal);
    put_symbol(out, Symbol::Open);
    put_number(out, &octal.number.number);
    put_symbol(out, Symbol::Close);
}

/// Adds a whole number.
pub fn put_int(out: &mut Text, int: &RawInt)
    ensures { Adds out.old out.new (int_tokens int.now) }
{
    match int {
        RawInt::Number(number) => put_number(out, &number.number),
        RawInt::Octal(octal) => put_octal(out, octal),
    }
}

/// Adds `+` or `-`.
pub fn put_add_op(out: &mut Text, op: AddOp)
    ensures { Adds out.old out.new (add_symbol op ∷ []) }
{
    match op {
        AddOp::Plus => put_symbol(out, Symbol::Plus),
        AddOp::Minus => put_symbol(out, Symbol::Minus),
    }
}

/// Adds `*` or `/`.
pub fn put_mul_op(out: &mut Text, op: MulOp)
    ensures { Adds out.old out.new (multiply_symbol op ∷ []) }
{
    match op {
        MulOp::Times => put_symbol(out, Symbol::Times),
        MulOp::Divide => put_symbol(out, Symbol::Divide),
    }
}

fn compare_symbol(op: CompareOp) -> Symbol
    ensures { symbol_token result ≡ compare_symbol op }
{
    match op {
        CompareOp::Less => Symbol::Less,
        CompareOp::LessOrEqual => Symbol::LessOrEqual,
        CompareOp::Equal => Symbol::Equal,
        CompareOp::GreaterOrEqual => Symbol::GreaterOrEqual,
        CompareOp::Greater => Symbol::Greater,
        CompareOp::NotEqual => Symbol::NotEqual,
    }
}

/// Adds the operator of a comparison.
pub fn put_compare_op(out: &mut Text, op: CompareOp)
    ensures { Adds out.old out.new (compare_symbol op ∷ []) }
{
    put_symbol(out, compare_symbol(op));
}

/// Adds a sign, where there is one.
pub fn put_sign(out: &mut Text, sign: &Option<RawSign>)
    ensures { Adds out.old out.new (sign_tokens sign.now) }
{
    match sign {
        Some(sign) => put_add_op(out, sign.op),
        None => {}
    }
}

/// Adds a whole number with its sign.
pub fn put_sint(out: &mut Text, sint: &RawSint)
    ensures { Adds out.old out.new (sint_tokens sint.now) }
{
    put_sign(out, &sint.sign);
    put_int(out, &sint.value);
}

/// Adds `[ int , int ]`.
pub fn put_size(out: &mut Text, size: &RawSize)
    ensures { Adds out.old out.new (size_tokens size.now) }
{
    put_symbol(out, Symbol::OpenSquare);
    put_int(out, &size.first);
    put_symbol(out, Symbol::Comma);
    put_int(out, &size.second);
    put_symbol(out, Symbol::CloseSquare);
}

/// Adds a number type.
pub fn put_type(out: &mut Text, number_type: &RawType)
    ensures { Adds out.old out.new (type_tokens number_type.now) }
{
    match number_type {
        RawType::Integer(_) => put_word(out, Word::Integer),
        RawType::Fixed(_, bits, places) => {
            put_word(out, Word::Fixed);
            put_symbol(out, Symbol::Open);
            put_int(out, bits);
            put_symbol(out, Symbol::Comma);
            put_sint(out, places);
            put_symbol(out, Symbol::Close);
        }
    }
}
