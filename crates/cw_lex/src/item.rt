//! The longest item at the front of a text.

ghost use Rattle.std.specs.Prelude.{◌≡◌, ℕ, ◌+◌, ◌<◌, ◌≤◌, Bool, true, length, map, drop, IfSome, count_by, ◌==◌, false, None};
ghost use Rattle.std.specs.List.{prefix_len};
ghost use Rattle.std.specs.Str.{str_eq_ignore_ascii_case};
ghost use Rattle.std.specs.Char.{is_ascii_alphanumeric, is_ascii_digit};
ghost use Rattle.cw_lex.specs.Items.{is_separator, look_up, word_of, one_mark, two_marks, is_literal_byte, is_plain, not_semicolon};
ghost use Rattle.cw_lex.specs.Found.{text_end, is_comment, bare_comment, quoted_comment, comment_word, comment_size, gap_size, body_text_end};
ghost use Rattle.cw_lex.specs.Found.{literal_end, worded, bare_word, quoted_word, fraction, number, string, symbol, found};

use crate::token::{Form, Symbol, TokenKind, WORDS, Word};

pub(crate) fn is_separator(b: u8) -> bool
    ensures { result ≡ is_separator b }
{
    b == b' ' || b == b'\t' || b == b'\r' || b == 12 || b == b'\n'
}

fn same_letters(a: &[u8], b: &[u8]) -> bool
    ensures { result ≡ str_eq_ignore_ascii_case a.now b.now }
{
    a.eq_ignore_ascii_case(b)
}

fn look_up(mut table: &[(&[u8], Word)], text: &[u8]) -> Option<Word>
    ensures { result ≡ look_up (map (λ k. (k.0.now, k.1)) table.entry.now) text.now }
{
    while let [entry, rest @ ..] = table {
        if same_letters(entry.0, text) {
            return Some(entry.1);
        }
        table = rest;
    }
    None
}

#[tactic(auto, unfolding(crate::specs::Items::word_of))]
fn word_of(text: &[u8]) -> Option<Word>
    ensures { result ≡ word_of text.now }
{
    look_up(&WORDS, text)
}

fn one_mark(c: u8) -> Option<Symbol>
    ensures { result ≡ one_mark c }
{
    match c {
        b';' => Some(Symbol::Semicolon),
        b':' => Some(Symbol::Colon),
        b',' => Some(Symbol::Comma),
        b'(' => Some(Symbol::Open),
        b')' => Some(Symbol::Close),
        b'[' => Some(Symbol::OpenSquare),
        b']' => Some(Symbol::CloseSquare),
        b'+' => Some(Symbol::Plus),
        b'-' => Some(Symbol::Minus),
        b'*' => Some(Symbol::Times),
        b'/' => Some(Symbol::Divide),
        b'<' => Some(Symbol::Less),
        b'=' => Some(Symbol::Equal),
        b'>' => Some(Symbol::Greater),
        _ => None,
    }
}

fn two_marks(c: u8, d: u8) -> Option<Symbol>
    ensures { result ≡ two_marks c d }
{
    match (c, d) {
        (b':', b'=') | (b'<', b'-') => Some(Symbol::Assign),
        (b'<', b'=') => Some(Symbol::LessOrEqual),
        (b'>', b'=') => Some(Symbol::GreaterOrEqual),
        (b'<', b'>') => Some(Symbol::NotEqual),
        _ => None,
    }
}

fn letters_and_digits(bytes: &[u8]) -> usize
    ensures value { result ≡ prefix_len is_ascii_alphanumeric bytes.now }
    ensures within { result ≤ length bytes.now }
{
    bytes
        .iter()
        .take_while(|b| b.is_ascii_alphanumeric())
        .count()
}

pub(crate) fn digits(bytes: &[u8]) -> usize
    ensures value { result ≡ prefix_len is_ascii_digit bytes.now }
    ensures within { result ≤ length bytes.now }
{
    bytes.iter().take_while(|b| b.is_ascii_digit()).count()
}

fn plain_bytes(bytes: &[u8]) -> usize
    ensures value { result ≡ prefix_len is_plain bytes.now }
    ensures within { result ≤ length bytes.now }
{
    bytes
        .iter()
        .take_while(|b| **b >= 32 && **b != b'"')
        .count()
}

pub(crate) fn before_semicolon(bytes: &[u8]) -> usize
    ensures value { result ≡ prefix_len not_semicolon bytes.now }
    ensures within { result ≤ length bytes.now }
{
    bytes.iter().take_while(|b| **b != b';').count()
}

pub(crate) fn line_feeds(bytes: &[u8]) -> usize
    ensures { result ≡ count_by (λ b. b == 10) bytes.now }
{
    bytes.iter().filter(|b| **b == b'\n').count()
}

fn is_literal_byte(form: Form, b: u8) -> bool
    ensures { result ≡ is_literal_byte form b }
{
    match form {
        Form::Source => b >= 32 && b <= 126,
        Form::MacroBody => b >= 32 && b <= 126 && b != b'"',
    }
}

fn is_comment(text: &[u8]) -> bool
    ensures { result ≡ is_comment (word_of text.now) }
{
    match word_of(text) {
        Some(Word::Comment) => true,
        _ => false,
    }
}

fn bare_comment(bytes: &[u8]) -> usize
    ensures value { result ≡ bare_comment bytes.now }
    ensures within { result ≤ length bytes.now }
{
    let n = letters_and_digits(bytes);
    if is_comment(&bytes[..n]) { n } else { 0 }
}

fn quoted_comment(bytes: &[u8]) -> usize
    ensures value { result ≡ quoted_comment bytes.now }
    ensures within { result ≤ 1 + length bytes.now }
{
    let n = letters_and_digits(bytes);
    let is_comment = is_comment(&bytes[..n]);
    match &bytes[n..] {
        [b'\'', ..] => { if is_comment { n + 2 } else { 0 } }
        _ => 0,
    }
}

// The length of the word COMMENT at the front, or 0.
fn comment_word(bytes: &[u8]) -> usize
    ensures value { result ≡ comment_word bytes.now }
    ensures within { result ≤ length bytes.now }
{
    match bytes {
        [] => 0,
        [c, rest @ ..] => {
            if *c == b'\'' {
                quoted_comment(rest)
            } else {
                bare_comment(bytes)
            }
        }
    }
}

// The length of the comment at the front, or 0.
fn comment_size(bytes: &[u8]) -> usize
    ensures value { result ≡ comment_size bytes.now }
    ensures within { result ≤ length bytes.now }
{
    let n = comment_word(bytes);
    if n == 0 {
        return 0;
    }
    let rest = &bytes[n..];
    let body = before_semicolon(rest);
    if body < rest.len() { n + body + 1 } else { 0 }
}

// The length of the separators at the front.
fn separators(bytes: &[u8]) -> usize
    ensures value { result ≡ gap_size 0 bytes.now }
    ensures within { result ≤ length bytes.now }
{
    let mut at = 0;
    while at < bytes.len() {
        if is_separator(bytes[at]) {
            at += 1;
        } else {
            let n = comment_size(&bytes[at..]);
            if n == 0 {
                return at;
            }
            at += n;
        }
    }
    at
}

// What follows the word LITERAL: separators, and one byte between brackets.
fn literal_end(form: Form, bytes: &[u8]) -> Option<usize>
    ensures value { result ≡ literal_end form bytes.now }
    ensures within { IfSome result (λ n. n ≤ length bytes.now) }
{
    let gap = separators(bytes);
    match &bytes[gap..] {
        [b'(', b, b')', ..] => {
            if is_literal_byte(form, *b) {
                Some(gap + 3)
            } else {
                None
            }
        }
        _ => None,
    }
}

// The item of a word of n bytes, which may go on as a literal.
fn worded(form: Form, word: Word, n: usize, bytes: &[u8]) -> (TokenKind, usize)
    requires { n ≤ length bytes.now }
    ensures value { result ≡ worded form word n bytes.now }
    ensures within { result.1 ≤ length bytes.now }
    ensures some { n ≤ result.1 }
{
    if let Word::Literal = word {
        if let Some(more) = literal_end(form, &bytes[n..]) {
            return (TokenKind::Literal, n + more);
        }
    }
    (TokenKind::Word(word), n)
}

fn bare_word(form: Form, bytes: &[u8]) -> (TokenKind, usize)
    ensures value { result ≡ bare_word form bytes.now }
    ensures within { result.1 ≤ length bytes.now }
{
    let n = letters_and_digits(bytes);
    match word_of(&bytes[..n]) {
        Some(word) => worded(form, word, n, bytes),
        None => (TokenKind::Name, n),
    }
}

fn quoted_word(form: Form, bytes: &[u8]) -> Option<(TokenKind, usize)>
    ensures value { result ≡ quoted_word form bytes.now }
    ensures within { IfSome result (λ x. x.1 ≤ length bytes.now) }
{
    match bytes {
        [] => None,
        [_, rest @ ..] => {
            let n = letters_and_digits(rest);
            match &rest[n..] {
                [b'\'', ..] => match word_of(&rest[..n]) {
                    Some(word) => Some(worded(form, word, n + 2, bytes)),
                    None => None,
                },
                _ => None,
            }
        }
    }
}

// The point and the digits after it.
fn fraction(bytes: &[u8]) -> usize
    ensures value { result ≡ fraction bytes.now }
    ensures within { result ≤ length bytes.now }
{
    match bytes {
        [b'.', rest @ ..] => {
            let n = digits(rest);
            if n == 0 { 0 } else { n + 1 }
        }
        _ => 0,
    }
}

fn number(bytes: &[u8]) -> Option<(TokenKind, usize)>
    ensures value { result ≡ number bytes.now }
    ensures within { IfSome result (λ x. x.1 ≤ length bytes.now) }
{
    let whole = digits(bytes);
    let n = whole + fraction(&bytes[whole..]);
    if n == 0 {
        None
    } else {
        Some((TokenKind::Number, n))
    }
}

// The end of the longest string of the source, in the bytes behind its first quote.
fn text_end(bytes: &[u8]) -> Option<usize>
    ensures value { result ≡ text_end false 0 None bytes.now }
    ensures within { IfSome result (λ n. n ≤ length bytes.now) }
{
    let mut end = None;
    // The byte before is a quote that ends a string, unless another follows.
    let mut closed = false;
    let mut at = 0;
    while at < bytes.len() {
        let b = bytes[at];
        at += 1;
        if b == b'"' {
            closed = !closed;
            if closed {
                end = Some(at);
            }
        } else if closed || b < 32 {
            return end;
        }
    }
    end
}

// The end of the string of a macro body, in the bytes behind its first two quotes.
fn body_text_end(bytes: &[u8]) -> Option<usize>
    ensures value { result ≡ body_text_end bytes.now }
    ensures within { IfSome result (λ n. n ≤ length bytes.now) }
{
    let n = plain_bytes(bytes);
    match &bytes[n..] {
        [b'"', b'"', ..] => Some(n + 2),
        _ => None,
    }
}

// The string at a quote.
fn string(form: Form, bytes: &[u8]) -> Option<(TokenKind, usize)>
    ensures value { result ≡ string form bytes.now }
    ensures within { IfSome result (λ x. x.1 ≤ length bytes.now) }
{
    match (form, bytes) {
        (Form::Source, [_, rest @ ..]) => match text_end(rest) {
            Some(n) => Some((TokenKind::Text, n + 1)),
            None => None,
        },
        (Form::MacroBody, [_, b'"', rest @ ..]) => match body_text_end(rest) {
            Some(n) => Some((TokenKind::BodyText, n + 2)),
            None => None,
        },
        _ => None,
    }
}

fn symbol(c: u8, rest: &[u8]) -> Option<(TokenKind, usize)>
    ensures value { result ≡ symbol c rest.now }
    ensures within { IfSome result (λ x. x.1 ≤ 1 + length rest.now) }
{
    if let [d, ..] = rest {
        if let Some(symbol) = two_marks(c, *d) {
            return Some((TokenKind::Symbol(symbol), 2));
        }
    }
    match one_mark(c) {
        Some(symbol) => Some((TokenKind::Symbol(symbol), 1)),
        None => None,
    }
}

/// The longest item at the front, and its length.
pub(crate) fn find_item(form: Form, bytes: &[u8]) -> Option<(TokenKind, usize)>
    ensures value { result ≡ found form bytes.now }
    ensures within { IfSome result (λ x. x.1 ≤ length bytes.now) }
{
    match bytes {
        [] => None,
        [c, rest @ ..] => {
            if c.is_ascii_alphabetic() {
                Some(bare_word(form, bytes))
            } else if c.is_ascii_digit() || *c == b'.' {
                number(bytes)
            } else if *c == b'"' {
                string(form, bytes)
            } else if *c == b'\'' {
                quoted_word(form, bytes)
            } else {
                symbol(*c, rest)
            }
        }
    }
}
