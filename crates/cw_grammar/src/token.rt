//! Single tokens of a list, by their places.
ghost use Rattle.std.specs.Prelude.{◌≡◌, ◌+◌, ◌∷◌, [], length, min};
ghost use Rattle.cw_grammar.specs.Tokens.{behind, seen, symbol_code, word_code, code, same, position};
ghost use Rattle.cw_grammar.specs.Grammar.{starts};
ghost use Rattle.cw_grammar.specs.Reading.{Gives, take_one};
ghost use Rattle.cw_grammar.specs.declared.stop.Stop.TheVariants.{Deep};

use crate::stop::Stop;
use cw_lex::{Symbol, Token, TokenKind, Word};
use cw_tree::leaf::Position;

/// A token with its number, from 1.
#[derive(Clone, Copy)]
pub struct Item<'a> {
    pub kind: TokenKind,
    pub line: u32,
    pub number: u32,
    pub text: &'a [u8],
}

/// Where it stands.
pub fn position(item: Item) -> Position
    ensures { result ≡ position (seen item.entry) }
{
    Position {
        line: item.line,
        token: item.number,
    }
}

fn symbol_code(symbol: Symbol) -> u8
    ensures { result ≡ symbol_code symbol }
{
    match symbol {
        Symbol::Semicolon => 4,
        Symbol::Colon => 5,
        Symbol::Comma => 6,
        Symbol::Open => 7,
        Symbol::Close => 8,
        Symbol::OpenSquare => 9,
        Symbol::CloseSquare => 10,
        Symbol::Plus => 11,
        Symbol::Minus => 12,
        Symbol::Times => 13,
        Symbol::Divide => 14,
        Symbol::Less => 15,
        Symbol::LessOrEqual => 16,
        Symbol::Equal => 17,
        Symbol::GreaterOrEqual => 18,
        Symbol::Greater => 19,
        Symbol::NotEqual => 20,
        Symbol::Assign => 21,
    }
}

fn word_code(word: Word) -> u8
    ensures { result ≡ word_code word }
{
    match word {
        Word::Absolute => 22,
        Word::And => 23,
        Word::Answer => 24,
        Word::Array => 25,
        Word::Begin => 26,
        Word::Bits => 27,
        Word::Code => 28,
        Word::Comment => 29,
        Word::Common => 30,
        Word::Define => 31,
        Word::Delete => 32,
        Word::Differ => 33,
        Word::Do => 34,
        Word::Else => 35,
        Word::End => 36,
        Word::External => 37,
        Word::Finish => 38,
        Word::Fixed => 39,
        Word::Floating => 40,
        Word::For => 41,
        Word::Goto => 42,
        Word::If => 43,
        Word::Integer => 44,
        Word::Label => 45,
        Word::Library => 46,
        Word::Literal => 47,
        Word::Location => 48,
        Word::Mask => 49,
        Word::Octal => 50,
        Word::Or => 51,
        Word::Overlay => 52,
        Word::Preset => 53,
        Word::Procedure => 54,
        Word::Recursive => 55,
        Word::Segment => 56,
        Word::Step => 57,
        Word::Switch => 58,
        Word::Table => 59,
        Word::Then => 60,
        Word::Union => 61,
        Word::Unsigned => 62,
        Word::Until => 63,
        Word::Value => 64,
        Word::While => 65,
        Word::With => 66,
    }
}

fn code(kind: TokenKind) -> u8
    ensures { result ≡ code kind }
{
    match kind {
        TokenKind::Name => 0,
        TokenKind::Number => 1,
        TokenKind::Text => 2,
        TokenKind::BodyText => 2,
        TokenKind::Literal => 3,
        TokenKind::Symbol(symbol) => symbol_code(symbol),
        TokenKind::Word(word) => word_code(word),
    }
}

fn is_same(a: TokenKind, b: TokenKind) -> bool
    ensures { result ≡ same a b }
{
    code(a) == code(b)
}

fn number(at: usize) -> u32
    ensures { result ≡ min (at + 1) 4294967295 }
{
    if at < 4294967295 {
        at as u32 + 1
    } else {
        4294967295
    }
}

/// Whether the token at a place is of this kind.
#[tactic(auto, using(crate::proofs::Behind::behind_at, crate::proofs::Behind::behind_end))]
pub fn next_is(tokens: &[Token], at: usize, kind: TokenKind) -> bool
    ensures { result ≡ starts (behind tokens.now at) (kind ∷ []) }
{
    if at < tokens.len() {
        is_same(tokens[at].kind, kind)
    } else {
        false
    }
}

/// How many tokens are left from a place on.
#[tactic(auto, using(crate::proofs::Behind::left_is))]
pub fn left(tokens: &[Token], at: usize) -> usize
    ensures { result ≡ length (behind tokens.now at) }
{
    tokens.len().saturating_sub(at)
}

/// A level too many, behind the token that opens it.
#[tactic(auto, using(crate::proofs::Behind::left_is))]
pub fn deep(tokens: &[Token], at: usize) -> Stop
    ensures { result ≡ Deep (length (behind tokens.now at) + 1) }
{
    let left = tokens.len().saturating_sub(at);
    Stop::Deep(left + 1)
}

/// The token at a place and the place behind it, if it is of this kind.
#[tactic(auto, using(crate::proofs::Behind::behind_at, crate::proofs::Behind::behind_end))]
pub fn take_kind<'a>(
    tokens: &[Token<'a>],
    at: usize,
    kind: TokenKind,
) -> Result<(Item<'a>, usize), Stop>
    ensures { Gives (λ x. (seen x.0, behind tokens.now x.1)) result (take_one kind (behind tokens.now at)) }
{
    if at < tokens.len() {
        let token = tokens[at];
        if is_same(token.kind, kind) {
            let item = Item {
                kind: token.kind,
                line: token.line,
                number: number(at),
                text: token.text,
            };
            Ok((item, at + 1))
        } else {
            Err(Stop::Syntax(left(tokens, at)))
        }
    } else {
        Err(Stop::Syntax(0))
    }
}
