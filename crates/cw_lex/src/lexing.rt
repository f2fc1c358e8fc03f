//! The tokens of a text.

ghost use Rattle.std.specs.Prelude.{◌≡◌, List as Sequence, ◌++◌, ◌+◌, ◌-◌, ◌<◌, ◌^◌, length, map, count_by, ◌==◌, OnOk};
ghost use Rattle.cw_lex.specs.declared.token.LexFault.TheVariants as faults;
ghost use Rattle.cw_lex.specs.Lexical.{view, lexemes, is_after_semicolon, fault_at, first_place, IsAnswer, Place};

use crate::item::line_feeds;
use crate::piece::next_piece;
use crate::token::{Form, LexFault, Problem, Symbol, Token, TokenKind};
use cw_word::{List, NoMemory};
use std::alloc::Global;

impl From<NoMemory> for LexFault {
    ghost from_gives = { λ _ fault. fault ≡ faults.NoMemory };

    fn from(_: NoMemory) -> LexFault {
        LexFault::NoMemory
    }
}

fn fault_at(problem: Problem, line: u32) -> LexFault
    ensures { result ≡ fault_at problem line }
{
    match problem {
        Problem::BadChar => LexFault::BadChar { line },
        Problem::OpenString => LexFault::OpenString { line },
        Problem::BadNumber => LexFault::BadNumber { line },
        Problem::LongName => LexFault::LongName { line },
        Problem::OpenComment => LexFault::OpenComment { line },
    }
}

fn is_after_semicolon(kind: Option<TokenKind>, after_semicolon: bool) -> bool
    ensures { result ≡ is_after_semicolon kind after_semicolon }
{
    match kind {
        None => after_semicolon,
        Some(TokenKind::Symbol(Symbol::Semicolon)) => true,
        Some(_) => false,
    }
}

fn keep<'a>(
    tokens: &mut List<Token<'a>>,
    kind: Option<TokenKind>,
    line: u32,
    at: usize,
    text: &'a [u8],
) -> Result<(), NoMemory>
    ensures { OnOk result (map view tokens.new ≡ map view tokens.old ++ lexemes kind line at text.now) }
{
    if let Some(kind) = kind {
        tokens.push(Token {
            kind,
            line,
            at,
            text,
        })?;
    }
    Ok(())
}

// The tokens of a text that begins at the line and the place.
fn read<'a>(
    alloc: Global,
    form: Form,
    text: &'a [u8],
    first_at: usize,
    first_line: u32,
) -> Result<List<Token<'a>>, LexFault>
    requires lines { first_line + length text.now < 2 ^ 32 }
    requires places { first_at + length text.now < 2 ^ 64 }
    ensures { IsAnswer form (record { line = first_line; at = first_at }) text.now result }
{
    let mut tokens = List::new(alloc);
    let mut after_semicolon = false;
    let mut line = first_line;
    let mut at = 0;
    while at < text.len() {
        match next_piece(form, after_semicolon, &text[at..]) {
            Err(problem) => return Err(fault_at(problem, line)),
            Ok((kind, length)) => {
                let slice = &text[at..at + length];
                keep(&mut tokens, kind, line, first_at + at, slice)?;
                after_semicolon = is_after_semicolon(kind, after_semicolon);
                line += line_feeds(slice) as u32;
                at += length;
            }
        }
    }
    Ok(tokens)
}

/// The tokens of a source text of less than 2^32 - 1 bytes, in order. Each is a slice of the text.
pub fn lex<'a>(alloc: Global, text: &'a [u8]) -> Result<List<Token<'a>>, LexFault>
    requires { length text.now < 2 ^ 32 - 1 }
    ensures { IsAnswer Form.Source first_place text.now result }
{
    read(alloc, Form::Source, text, 0, 1)
}

/// The tokens of a macro's body, which begins at the place and the line of the source, where `""` is the quote of a string.
pub fn lex_body<'a>(
    alloc: Global,
    body: &'a [u8],
    at: usize,
    line: u32,
) -> Result<List<Token<'a>>, LexFault>
    requires lines { line + length body.now < 2 ^ 32 }
    requires places { at + length body.now < 2 ^ 64 }
    ensures { IsAnswer Form.MacroBody (record { line = line; at = at }) body.now result }
{
    read(alloc, Form::MacroBody, body, at, line)
}
