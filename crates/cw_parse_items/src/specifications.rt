//! Specifications from left to right.
ghost use Rattle.std.specs.Prelude.{◌≡◌};
ghost use Rattle.cw_grammar.specs.Tokens.{behind};
ghost use Rattle.cw_grammar.specs.Grammar.{starts, first, a_list, an_option, a_from, a_token, a_type, a_ptag, an_ips, a_ps, a_spec};
ghost use Rattle.cw_grammar.specs.Statements.{separated, separator, listed, in_round, ptag, worded_ips, ips, ips_list, procedure_ps, ps, spec_behind, spec};
ghost use Rattle.cw_grammar.specs.Reading.{Gives, read, applied};

use crate::data::is_type;
use crate::taking::taken;
use cw_grammar::reading::{read_name, read_size, read_type};
use cw_grammar::stop::Stop;
use cw_grammar::token::{Item, next_is, position, take_kind};
use cw_lex::{Symbol, Token, TokenKind, Word};
use cw_series::lists::{Separator, read_listed};
use cw_tree::leaf::RawType;
use cw_tree::segment::{RawIps, RawPs, RawSpec};
use cw_tree::statement::RawPtag;
use cw_word::List;
use std::alloc::Global;

#[tactic(auto, unfolding(cw_grammar::specs::Statements::ptag))]
pub fn read_ptag(tokens: &[Token], at: usize) -> Result<(RawPtag, usize), Stop>
    ensures { Gives (λ x. (x.0, behind tokens.now x.1)) result (read 0 a_ptag ptag (behind tokens.now at)) }
{
    if next_is(tokens, at, TokenKind::Word(Word::Procedure)) {
        let (word, at) = taken(tokens, at, TokenKind::Word(Word::Procedure));
        return Ok((RawPtag::Procedure(position(word)), at));
    }
    let (word, at) = take_kind(tokens, at, TokenKind::Word(Word::Recursive))?;
    if next_is(tokens, at, TokenKind::Word(Word::Procedure)) {
        let (_, at) = taken(tokens, at, TokenKind::Word(Word::Procedure));
        return Ok((RawPtag::Recursive(position(word)), at));
    }
    Ok((RawPtag::Recursive(position(word)), at))
}

#[tactic(auto, unfolding(cw_grammar::specs::Statements::worded_ips))]
fn read_worded_ips(tokens: &[Token], at: usize) -> Result<(RawIps, usize), Stop>
    ensures { Gives (λ x. (x.0, behind tokens.now x.1)) result (read 0 an_ips worded_ips (behind tokens.now at)) }
{
    if next_is(tokens, at, TokenKind::Word(Word::Value)) {
        let (word, at) = taken(tokens, at, TokenKind::Word(Word::Value));
        let (kind, at) = read_type(tokens, at)?;
        return Ok((RawIps::Value(position(word), kind), at));
    }
    if next_is(tokens, at, TokenKind::Word(Word::Location)) {
        let (word, at) = taken(tokens, at, TokenKind::Word(Word::Location));
        let (kind, at) = read_type(tokens, at)?;
        return Ok((RawIps::Location(position(word), kind), at));
    }
    if next_is(tokens, at, TokenKind::Word(Word::Table)) {
        let (word, at) = taken(tokens, at, TokenKind::Word(Word::Table));
        let (size, at) = read_size(tokens, at)?;
        return Ok((RawIps::Table(position(word), size), at));
    }
    if next_is(tokens, at, TokenKind::Word(Word::Label)) {
        let (word, at) = taken(tokens, at, TokenKind::Word(Word::Label));
        return Ok((RawIps::Label(position(word)), at));
    }
    let (word, at) = take_kind(tokens, at, TokenKind::Word(Word::Switch))?;
    Ok((RawIps::Switch(position(word)), at))
}

#[tactic(auto, unfolding(cw_grammar::specs::Statements::worded_ips))]
fn is_worded_ips(tokens: &[Token], at: usize) -> bool
    ensures { result ≡ starts (behind tokens.now at) (first worded_ips) }
{
    next_is(tokens, at, TokenKind::Word(Word::Value))
        || next_is(tokens, at, TokenKind::Word(Word::Location))
        || next_is(tokens, at, TokenKind::Word(Word::Table))
        || next_is(tokens, at, TokenKind::Word(Word::Label))
        || next_is(tokens, at, TokenKind::Word(Word::Switch))
}

#[tactic(auto, unfolding(cw_grammar::specs::Statements::ips))]
fn read_ips(tokens: &[Token], at: usize) -> Result<(RawIps, usize), Stop>
    ensures { Gives (λ x. (x.0, behind tokens.now x.1)) result (read 0 an_ips ips (behind tokens.now at)) }
{
    if is_worded_ips(tokens, at) {
        return read_worded_ips(tokens, at);
    }
    let (kind, at) = read_type(tokens, at)?;
    let (_, at) = take_kind(tokens, at, TokenKind::Word(Word::Array))?;
    Ok((RawIps::Array(kind), at))
}

#[derive(Clone, Copy)]
struct CommaOrSemicolon;

impl Separator for CommaOrSemicolon {
    ghost begins = { λ _ ts. starts ts (first separator) };

    ghost taken = { λ _ ts. read 0 a_token separator ts };

    fn is_next(self, tokens: &[Token], at: usize) -> bool {
        next_is(tokens, at, TokenKind::Symbol(Symbol::Comma))
            || next_is(tokens, at, TokenKind::Symbol(Symbol::Semicolon))
    }

    fn take<'a>(self, tokens: &[Token<'a>], at: usize) -> Result<(Item<'a>, usize), Stop> {
        if next_is(tokens, at, TokenKind::Symbol(Symbol::Comma)) {
            return take_kind(tokens, at, TokenKind::Symbol(Symbol::Comma));
        }
        take_kind(tokens, at, TokenKind::Symbol(Symbol::Semicolon))
    }
}

pub fn read_ips_list(
    alloc: Global,
    tokens: &[Token],
    at: usize,
) -> Result<(List<RawIps>, usize), Stop>
    ensures { Gives (λ x. (x.0, behind tokens.now x.1)) result (read 0 (a_list an_ips) ips_list (behind tokens.now at)) }
{
    read_listed(
        alloc,
        tokens,
        at,
        CommaOrSemicolon,
        |at| read_ips(tokens, at),
    )
}

#[tactic(auto, unfolding(cw_grammar::specs::Statements::procedure_ps))]
fn read_procedure_ps(
    alloc: Global,
    tokens: &[Token],
    at: usize,
    kind: Option<RawType>,
) -> Result<(RawPs, usize), Stop>
    ensures { Gives (λ x. (x.0, behind tokens.now x.1)) result (applied kind (read 0 (a_from (an_option a_type) a_ps) procedure_ps (behind tokens.now at))) }
{
    let (word, at) = take_kind(tokens, at, TokenKind::Word(Word::Procedure))?;
    let (list, at) = read_ips_list(alloc, tokens, at)?;
    Ok((RawPs::Proc(kind, position(word), list), at))
}

#[tactic(auto, unfolding(cw_grammar::specs::Statements::ps, cw_grammar::specs::Statements::procedure_ps, cw_grammar::specs::Statements::worded_ips, cw_grammar::specs::Rules::number_type))]
fn read_ps(alloc: Global, tokens: &[Token], at: usize) -> Result<(RawPs, usize), Stop>
    ensures { Gives (λ x. (x.0, behind tokens.now x.1)) result (read 0 a_ps ps (behind tokens.now at)) }
{
    if is_type(tokens, at) {
        let (kind, at) = read_type(tokens, at)?;
        if next_is(tokens, at, TokenKind::Word(Word::Array)) {
            let (_, at) = taken(tokens, at, TokenKind::Word(Word::Array));
            return Ok((RawPs::Plain(RawIps::Array(kind)), at));
        }
        return read_procedure_ps(alloc, tokens, at, Some(kind));
    }
    if next_is(tokens, at, TokenKind::Word(Word::Procedure)) {
        return read_procedure_ps(alloc, tokens, at, None);
    }
    let (plain, at) = read_worded_ips(tokens, at)?;
    Ok((RawPs::Plain(plain), at))
}

fn read_ps_list(alloc: Global, tokens: &[Token], at: usize) -> Result<(List<RawPs>, usize), Stop>
    ensures { Gives (λ x. (x.0, behind tokens.now x.1)) result (read 0 (a_list a_ps) (listed (in_round (separated ps))) (behind tokens.now at)) }
{
    read_listed(
        alloc,
        tokens,
        at,
        CommaOrSemicolon,
        |at| read_ps(alloc, tokens, at),
    )
}

#[tactic(auto, unfolding(cw_grammar::specs::Statements::spec_behind))]
pub fn read_spec_behind(
    alloc: Global,
    tokens: &[Token],
    at: usize,
    kind: Option<RawType>,
) -> Result<(RawSpec, usize), Stop>
    ensures { Gives (λ x. (x.0, behind tokens.now x.1)) result (applied kind (read 0 (a_from (an_option a_type) a_spec) spec_behind (behind tokens.now at))) }
{
    let (tag, at) = read_ptag(tokens, at)?;
    let (name, at) = read_name(tokens, at)?;
    let (params, at) = read_ps_list(alloc, tokens, at)?;
    let spec = RawSpec {
        answer: kind,
        tag,
        name,
        params,
    };
    Ok((spec, at))
}

#[tactic(auto, unfolding(cw_grammar::specs::Statements::spec, cw_grammar::specs::Rules::number_type))]
pub fn read_spec(alloc: Global, tokens: &[Token], at: usize) -> Result<(RawSpec, usize), Stop>
    ensures { Gives (λ x. (x.0, behind tokens.now x.1)) result (read 0 a_spec spec (behind tokens.now at)) }
{
    if is_type(tokens, at) {
        let (kind, at) = read_type(tokens, at)?;
        return read_spec_behind(alloc, tokens, at, Some(kind));
    }
    read_spec_behind(alloc, tokens, at, None)
}
