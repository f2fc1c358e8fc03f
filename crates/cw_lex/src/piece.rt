//! What stands at the front of a text.

ghost use Rattle.std.specs.Prelude.{◌≡◌, ℕ, ◌+◌, ◌<◌, ◌≤◌, length, drop, IfOk, IfSome};
ghost use Rattle.cw_lex.specs.Items.{opens_string, keeps_limit};
ghost use Rattle.cw_lex.specs.Found.{bracket_end, comment_from, missing, limited, piece_of, piece, found};

use crate::item::{before_semicolon, digits, find_item, is_separator};
use crate::token::{Form, Problem, TokenKind, Word};

// The end of a bracket comment, in the bytes behind its opening bracket.
fn bracket_end(bytes: &[u8]) -> Option<usize>
    ensures value { result ≡ bracket_end 1 0 bytes.now }
    ensures within { IfSome result (λ n. n ≤ length bytes.now) }
{
    let mut depth: usize = 1;
    let mut at = 0;
    while at < bytes.len() {
        let b = bytes[at];
        at += 1;
        if b == b'(' {
            depth += 1;
        } else if b == b')' {
            if depth == 1 {
                return Some(at);
            }
            depth -= 1;
        }
    }
    None
}

fn opens_string(form: Form, bytes: &[u8]) -> bool
    ensures { result ≡ opens_string form bytes.now }
{
    match form {
        Form::Source => true,
        Form::MacroBody => match bytes {
            [b, ..] => *b == b'"',
            [] => false,
        },
    }
}

// What is wrong where no item is.
fn missing(form: Form, bytes: &[u8]) -> Problem
    ensures { result ≡ missing form bytes.now }
{
    match bytes {
        [] => Problem::BadChar,
        [c, rest @ ..] => {
            if *c == b'.' {
                Problem::BadNumber
            } else if *c == b'"' && opens_string(form, rest) {
                Problem::OpenString
            } else {
                Problem::BadChar
            }
        }
    }
}

fn keeps_limit(kind: TokenKind, text: &[u8]) -> bool
    ensures { result ≡ keeps_limit kind text.now }
{
    match kind {
        TokenKind::Name => text.len() <= 31,
        TokenKind::Number => {
            let whole = digits(text);
            whole <= 12 && (whole == text.len() || digits(&text[whole + 1..]) <= 12)
        }
        _ => true,
    }
}

// The rest of a comment behind its word of n bytes.
fn comment(n: usize, bytes: &[u8]) -> Result<(Option<TokenKind>, usize), Problem>
    requires { n ≤ length bytes.now }
    ensures value { result ≡ comment_from n (drop n bytes.now) }
    ensures within { IfOk result (λ x. x.1 ≤ length bytes.now) }
{
    let rest = &bytes[n..];
    let body = before_semicolon(rest);
    if body < rest.len() {
        Ok((None, n + body + 1))
    } else {
        Err(Problem::OpenComment)
    }
}

fn limited(kind: TokenKind, n: usize, keeps: bool) -> Result<(Option<TokenKind>, usize), Problem>
    ensures value { result ≡ limited kind n keeps }
    ensures within { IfOk result (λ x. x.1 ≡ n) }
{
    match (kind, keeps) {
        (TokenKind::Name, false) => Err(Problem::LongName),
        (TokenKind::Number, false) => Err(Problem::BadNumber),
        _ => Ok((Some(kind), n)),
    }
}

fn item_piece(form: Form, bytes: &[u8]) -> Result<(Option<TokenKind>, usize), Problem>
    ensures value { result ≡ piece_of form bytes.now (found form bytes.now) }
    ensures within { IfOk result (λ x. x.1 ≤ length bytes.now) }
{
    match find_item(form, bytes) {
        None => Err(missing(form, bytes)),
        Some((TokenKind::Word(Word::Comment), n)) => comment(n, bytes),
        Some((kind, n)) => limited(kind, n, keeps_limit(kind, &bytes[..n])),
    }
}

/// What stands at the front of a text: a token's kind, or none for what stands between tokens, and the length.
#[tactic(auto, unfolding(crate::specs::Found::piece))]
pub(crate) fn next_piece(
    form: Form,
    after_semicolon: bool,
    bytes: &[u8],
) -> Result<(Option<TokenKind>, usize), Problem>
    requires { 0 < length bytes.now }
    ensures value { result ≡ piece form after_semicolon bytes.now }
    ensures within { IfOk result (λ x. x.1 ≤ length bytes.now) }
{
    match bytes {
        [] => Err(Problem::BadChar),
        [b, rest @ ..] => {
            if is_separator(*b) {
                Ok((None, 1))
            } else if after_semicolon && *b == b'(' {
                match bracket_end(rest) {
                    Some(n) => Ok((None, n + 1)),
                    None => Err(Problem::OpenComment),
                }
            } else {
                item_piece(form, bytes)
            }
        }
    }
}
