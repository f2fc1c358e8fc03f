//! Why tokens have no tree.
ghost use Rattle.std.specs.Prelude.{◌≡◌, ◌≤◌, ◌+◌, ◌<◌, length};
ghost use Rattle.cw_grammar.specs.Parsing.{line_at, syntax_fault, deep_fault};

use cw_lex::{Token, TokenKind, Word};

/// The first fault of a list of tokens. Tokens are counted from 1, and the end counts as one.
#[derive(Drop)]
pub enum ParseFault {
    /// The tokens up to this one are no front of a text, or the list ends here and is no text.
    Syntax { token: u32, line: u32 },
    /// The token opens a level too many.
    NestTooDeep { token: u32, line: u32 },
    /// A fault of syntax at FLOATING, CODE or EXTERNAL.
    LeftOut { word: Word, line: u32 },
    NoMemory,
}

fn line_at(tokens: &[Token], at: usize) -> u32
    ensures { result ≡ line_at tokens.now at }
{
    let place = at.min(tokens.len().saturating_sub(1));
    match tokens.get(place) {
        Some(token) => token.line,
        None => 1,
    }
}

/// The fault of syntax at a place.
pub fn syntax_fault(tokens: &[Token], at: usize) -> ParseFault
    requires few { length tokens.now ≤ 65535 }
    requires place { at ≤ length tokens.now }
    ensures { result ≡ syntax_fault tokens.now at }
{
    let line = line_at(tokens, at);
    match tokens.get(at) {
        Some(
            Token {
                kind: TokenKind::Word(Word::Floating),
                ..
            },
        ) => ParseFault::LeftOut {
            word: Word::Floating,
            line,
        },
        Some(
            Token {
                kind: TokenKind::Word(Word::Code),
                ..
            },
        ) => ParseFault::LeftOut {
            word: Word::Code,
            line,
        },
        Some(
            Token {
                kind: TokenKind::Word(Word::External),
                ..
            },
        ) => ParseFault::LeftOut {
            word: Word::External,
            line,
        },
        _ => ParseFault::Syntax {
            token: at as u32 + 1,
            line,
        },
    }
}

/// The fault of a token that opens a level too many.
pub fn deep_fault(tokens: &[Token], at: usize) -> ParseFault
    requires few { length tokens.now ≤ 65535 }
    requires place { at ≤ length tokens.now }
    ensures { result ≡ deep_fault tokens.now at }
{
    ParseFault::NestTooDeep {
        token: at as u32 + 1,
        line: line_at(tokens, at),
    }
}
