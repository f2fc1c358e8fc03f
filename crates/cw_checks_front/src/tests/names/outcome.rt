//! What the names of a text come to, in words.
ghost use Rattle.std.specs.Prelude.{◌≤◌, length, map};
ghost use Rattle.cw_lex.specs.Lexical.{view};
ghost use Rattle.cw_macro.specs.Premises.{AreOfText};

use crate::tests::rows::{Left, text_of, told_of};
use cw_lex::{Token, lex};
use cw_macro::{MOST_BYTES, MOST_TOKENS, expand};
use cw_parse::parse;
use cw_scope::resolve::{Named, ScopeFault, resolve};
use cw_table::table::Row;
use cw_tree::segment::Raw;
use cw_word::Name;
use std::alloc::{AllocError, Global};

// A fault as its rule, its name and its line.
fn takes_fault(left: &mut Left<'_>, fault: &ScopeFault) -> bool {
    let (rule, name, line): (&[u8], &Name, u32) = match fault {
        ScopeFault::Undeclared { name, line } => (b"Undeclared ", name, *line),
        ScopeFault::Twice { name, line } => (b"Twice ", name, *line),
        ScopeFault::WrongKind { name, line } => (b"WrongKind ", name, *line),
        ScopeFault::SpecDiffers { name, line } => (b"SpecDiffers ", name, *line),
        ScopeFault::NoMemory => return false,
    };
    left.takes(rule) && left.takes(name.bytes()) && left.takes(b" ") && left.takes_line(line)
}

// The token of a number, from 1.
fn token_at<'a, 'b>(tokens: &'b [Token<'a>], number: u32) -> Option<&'b Token<'a>> {
    tokens.get((number as usize).saturating_sub(1))
}

fn takes_used(left: &mut Left<'_>, tokens: &[Token<'_>], row: &Row<u32>) -> bool {
    match token_at(tokens, row.token) {
        Some(used) => left.takes(used.text) && left.takes(b" ") && left.takes_line(used.line),
        None => true,
    }
}

fn takes_declared(left: &mut Left<'_>, tokens: &[Token<'_>], row: &Row<u32>) -> bool {
    match token_at(tokens, row.item) {
        Some(declared) => left.takes(b">") && left.takes_line(declared.line),
        None => true,
    }
}

// Each use of a name, with its line and that of its declaration.
fn takes_uses(left: &mut Left<'_>, tokens: &[Token<'_>], named: &Named<'_>) -> bool {
    for row in named.uses.rows() {
        let is_taken = takes_used(left, tokens, row)
            && takes_declared(left, tokens, row)
            && left.takes(b"|");
        if !is_taken {
            return false;
        }
    }
    true
}

fn takes_tree(alloc: Global, left: &mut Left<'_>, tokens: &[Token<'_>], raw: &Raw) -> bool {
    match resolve(alloc, raw) {
        Ok(named) => takes_uses(left, tokens, &named),
        Err(fault) => takes_fault(left, &fault),
    }
}

fn takes_expanded(alloc: Global, left: &mut Left<'_>, tokens: &[Token<'_>]) -> bool {
    if tokens.len() > MOST_TOKENS {
        return left.takes(b"no text");
    }
    match parse(alloc, tokens) {
        Ok(raw) => takes_tree(alloc, left, tokens, &raw),
        Err(_) => left.takes(b"no text"),
    }
}

fn takes_tokens(alloc: Global, left: &mut Left<'_>, tokens: &[Token<'_>]) -> bool
    requires { AreOfText (map view tokens.now) }
{
    match expand(alloc, tokens) {
        Ok(expanded) => takes_expanded(alloc, left, expanded.as_slice()),
        Err(_) => left.takes(b"no text"),
    }
}

fn takes_text(alloc: Global, left: &mut Left<'_>, text: &[u8]) -> bool {
    if text.len() > MOST_BYTES {
        return left.takes(b"no text");
    }
    match lex(alloc, text) {
        Ok(tokens) => takes_tokens(alloc, left, tokens.as_slice()),
        Err(_) => left.takes(b"no text"),
    }
}

/// Whether the names of a row's text come to what is told: its uses, or its fault.
pub fn comes(alloc: Global, row: &str) -> Result<bool, AllocError> {
    let text = text_of(alloc, row)?;
    let mut left = Left::new(told_of(row));
    Ok(takes_text(alloc, &mut left, &text) && left.is_empty())
}
