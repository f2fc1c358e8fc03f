//! Single tokens, added to a text with what stands behind them.
ghost use Rattle.std.specs.Prelude.{◌≡◌, ◌∷◌, []};
ghost use Rattle.cw_show.specs.Adding.{Extends, Adds};
ghost use Rattle.cw_show.specs.Spelling.{word as word_token, symbol as symbol_token, word_text, symbol_text, separator};

use crate::written::{Text, put};
use cw_lex::{Symbol, TokenKind, Word};

fn word_text(word: Word) -> &'static [u8]
    ensures { result.now ≡ word_text word }
{
    match word {
        Word::Absolute => b"ABSOLUTE",
        Word::And => b"AND",
        Word::Answer => b"ANSWER",
        Word::Array => b"ARRAY",
        Word::Begin => b"BEGIN",
        Word::Bits => b"BITS",
        Word::Code => b"CODE",
        Word::Comment => b"COMMENT",
        Word::Common => b"COMMON",
        Word::Define => b"DEFINE",
        Word::Delete => b"DELETE",
        Word::Differ => b"DIFFER",
        Word::Do => b"DO",
        Word::Else => b"ELSE",
        Word::End => b"END",
        Word::External => b"EXTERNAL",
        Word::Finish => b"FINISH",
        Word::Fixed => b"FIXED",
        Word::Floating => b"FLOATING",
        Word::For => b"FOR",
        Word::Goto => b"GOTO",
        Word::If => b"IF",
        Word::Integer => b"INTEGER",
        Word::Label => b"LABEL",
        Word::Library => b"LIBRARY",
        Word::Literal => b"LITERAL",
        Word::Location => b"LOCATION",
        Word::Mask => b"MASK",
        Word::Octal => b"OCTAL",
        Word::Or => b"OR",
        Word::Overlay => b"OVERLAY",
        Word::Preset => b"PRESET",
        Word::Procedure => b"PROCEDURE",
        Word::Recursive => b"RECURSIVE",
        Word::Segment => b"SEGMENT",
        Word::Step => b"STEP",
        Word::Switch => b"SWITCH",
        Word::Table => b"TABLE",
        Word::Then => b"THEN",
        Word::Union => b"UNION",
        Word::Unsigned => b"UNSIGNED",
        Word::Until => b"UNTIL",
        Word::Value => b"VALUE",
        Word::While => b"WHILE",
        Word::With => b"WITH",
    }
}

fn symbol_text(symbol: Symbol) -> &'static [u8]
    ensures { result.now ≡ symbol_text symbol }
{
    match symbol {
        Symbol::Semicolon => b";",
        Symbol::Colon => b":",
        Symbol::Comma => b",",
        Symbol::Open => b"(",
        Symbol::Close => b")",
        Symbol::OpenSquare => b"[",
        Symbol::CloseSquare => b"]",
        Symbol::Plus => b"+",
        Symbol::Minus => b"-",
        Symbol::Times => b"*",
        Symbol::Divide => b"/",
        Symbol::Less => b"<",
        Symbol::LessOrEqual => b"<=",
        Symbol::Equal => b"=",
        Symbol::GreaterOrEqual => b">=",
        Symbol::Greater => b">",
        Symbol::NotEqual => b"<>",
        Symbol::Assign => b":=",
    }
}

fn separator(kind: TokenKind) -> u8
    ensures { result ≡ separator kind }
{
    match kind {
        TokenKind::Symbol(Symbol::Semicolon) => b'\n',
        TokenKind::Word(Word::Begin) => b'\n',
        TokenKind::Word(Word::Finish) => b'\n',
        _ => b' ',
    }
}

/// Adds what stands behind a token of this kind.
pub fn end_token(out: &mut Text, kind: TokenKind)
    ensures { Extends out.old out.new (separator kind ∷ []) }
{
    put(out, &[separator(kind)]);
}

/// Adds a token.
pub fn put_token(out: &mut Text, kind: TokenKind, text: &[u8])
    ensures { Adds out.old out.new (record { kind = kind; text = text.now } ∷ []) }
{
    put(out, text);
    end_token(out, kind);
}

/// Adds a word.
pub fn put_word(out: &mut Text, word: Word)
    ensures { Adds out.old out.new (word_token word ∷ []) }
{
    put_token(out, TokenKind::Word(word), word_text(word));
}

/// Adds a symbol.
pub fn put_symbol(out: &mut Text, symbol: Symbol)
    ensures { Adds out.old out.new (symbol_token symbol ∷ []) }
{
    put_token(out, TokenKind::Symbol(symbol), symbol_text(symbol));
}
