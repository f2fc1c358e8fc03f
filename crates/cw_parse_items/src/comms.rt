//! Communicators from left to right.
ghost use Rattle.std.specs.Prelude.{◌≡◌};
ghost use Rattle.cw_grammar.specs.Tokens.{behind};
ghost use Rattle.cw_grammar.specs.Grammar.{starts, first, many, a_pair, a_list, a_name, a_bounds, an_int, a_citem, an_aitem, a_comm};
ghost use Rattle.cw_grammar.specs.Rules.{symbol, ◌<*◌};
ghost use Rattle.cw_grammar.specs.Statements.{citem, aitem, comm};
ghost use Rattle.cw_grammar.specs.Reading.{Gives, read};
ghost use Rattle.cw_parse_items.specs.Alternatives.{overlay_citem, absolute_address, bounded, common, library, absolute};
ghost use Rattle.cw_lex.specs.declared.token.Symbol.TheVariants.{Semicolon};

use crate::data::{
    is_type, read_arrays, read_data_table, read_names, read_overlay, read_singles,
    read_square_bounds, read_table,
};
use crate::specifications::{read_spec, read_spec_behind};
use crate::taking::taken;
use cw_grammar::reading::{read_int, read_name, read_type};
use cw_grammar::stop::Stop;
use cw_grammar::token::{next_is, position, take_kind};
use cw_lex::{Symbol, Token, TokenKind, Word};
use cw_series::lists::{read_bracketed, read_ended};
use cw_tree::items::RawBounds;
use cw_tree::leaf::{RawInt, RawName};
use cw_tree::segment::{RawAitem, RawCitem, RawComm};
use cw_word::List;
use std::alloc::Global;

fn read_overlay_citem(alloc: Global, tokens: &[Token], at: usize) -> Result<(RawCitem, usize), Stop>
    ensures { Gives (λ x. (x.0, behind tokens.now x.1)) result (read 0 a_citem overlay_citem (behind tokens.now at)) }
{
    let (parts, at) = read_overlay(alloc, tokens, at)?;
    let (word, (base, item)) = parts;
    Ok((RawCitem::Overlay(position(word), base, item), at))
}

#[tactic(auto, unfolding(cw_grammar::specs::Statements::citem, cw_grammar::specs::Statements::singles, cw_grammar::specs::Statements::arrays, cw_grammar::specs::Statements::data_table, cw_grammar::specs::Statements::overlay, cw_grammar::specs::Rules::number_type))]
fn read_citem(alloc: Global, tokens: &[Token], at: usize) -> Result<(RawCitem, usize), Stop>
    ensures { Gives (λ x. (x.0, behind tokens.now x.1)) result (read 0 a_citem citem (behind tokens.now at)) }
{
    if is_type(tokens, at) {
        let (kind, at) = read_type(tokens, at)?;
        if next_is(tokens, at, TokenKind::Name) {
            let (item, at) = read_singles(alloc, tokens, at, kind)?;
            return Ok((RawCitem::Data(item), at));
        }
        if next_is(tokens, at, TokenKind::Word(Word::Array)) {
            let (item, at) = read_arrays(alloc, tokens, at, kind)?;
            return Ok((RawCitem::Data(item), at));
        }
        let (spec, at) = read_spec_behind(alloc, tokens, at, Some(kind))?;
        return Ok((RawCitem::Spec(spec), at));
    }
    if next_is(tokens, at, TokenKind::Word(Word::Table)) {
        let (item, at) = read_data_table(alloc, tokens, at)?;
        return Ok((RawCitem::Data(item), at));
    }
    if next_is(tokens, at, TokenKind::Word(Word::Overlay)) {
        return read_overlay_citem(alloc, tokens, at);
    }
    if next_is(tokens, at, TokenKind::Word(Word::Label)) {
        let (word, at) = taken(tokens, at, TokenKind::Word(Word::Label));
        let (names, at) = read_names(alloc, tokens, at)?;
        return Ok((RawCitem::Label(position(word), names), at));
    }
    if next_is(tokens, at, TokenKind::Word(Word::Switch)) {
        let (word, at) = taken(tokens, at, TokenKind::Word(Word::Switch));
        let (names, at) = read_names(alloc, tokens, at)?;
        return Ok((RawCitem::Switch(position(word), names), at));
    }
    let (spec, at) = read_spec_behind(alloc, tokens, at, None)?;
    Ok((RawCitem::Spec(spec), at))
}

fn read_absolute_address(tokens: &[Token], at: usize) -> Result<(RawInt, usize), Stop>
    ensures { Gives (λ x. (x.0, behind tokens.now x.1)) result (read 0 an_int absolute_address (behind tokens.now at)) }
{
    let (_, at) = take_kind(tokens, at, TokenKind::Symbol(Symbol::Divide))?;
    let (address, at) = read_int(tokens, at)?;
    Ok((address, at))
}

fn read_bounded(tokens: &[Token], at: usize) -> Result<((RawName, RawBounds), usize), Stop>
    ensures { Gives (λ x. (x.0, behind tokens.now x.1)) result (read 0 (a_pair a_name a_bounds) bounded (behind tokens.now at)) }
{
    let (_, at) = take_kind(tokens, at, TokenKind::Word(Word::Array))?;
    let (name, at) = read_name(tokens, at)?;
    let (bounds, at) = read_square_bounds(tokens, at)?;
    Ok(((name, bounds), at))
}

#[tactic(auto, unfolding(cw_grammar::specs::Statements::aitem, cw_grammar::specs::Statements::unplaced_aitem, cw_grammar::specs::Statements::typed_aitem, cw_grammar::specs::Rules::number_type))]
fn read_aitem(alloc: Global, tokens: &[Token], at: usize) -> Result<(RawAitem, usize), Stop>
    ensures { Gives (λ x. (x.0, behind tokens.now x.1)) result (read 0 an_aitem aitem (behind tokens.now at)) }
{
    if is_type(tokens, at) {
        let (kind, at) = read_type(tokens, at)?;
        if next_is(tokens, at, TokenKind::Name) {
            let (name, at) = read_name(tokens, at)?;
            let (address, at) = read_absolute_address(tokens, at)?;
            return Ok((RawAitem::Single(kind, name, address), at));
        }
        let (parts, at) = read_bounded(tokens, at)?;
        let (name, bounds) = parts;
        let (address, at) = read_absolute_address(tokens, at)?;
        return Ok((RawAitem::Array(kind, name, bounds, address), at));
    }
    let (table, at) = read_table(alloc, tokens, at)?;
    let (address, at) = read_absolute_address(tokens, at)?;
    Ok((RawAitem::Table(table, address), at))
}

fn read_common(alloc: Global, tokens: &[Token], at: usize) -> Result<(RawComm, usize), Stop>
    ensures { Gives (λ x. (x.0, behind tokens.now x.1)) result (read 0 a_comm common (behind tokens.now at)) }
{
    let (word, at) = take_kind(tokens, at, TokenKind::Word(Word::Common))?;
    let semicolon = TokenKind::Symbol(Symbol::Semicolon);
    let item = |at: usize| read_citem(alloc, tokens, at);
    let (list, at) = read_bracketed(alloc, tokens, at, semicolon, item)?;
    Ok((RawComm::Common(position(word), list), at))
}

fn read_library(alloc: Global, tokens: &[Token], at: usize) -> Result<(RawComm, usize), Stop>
    ensures { Gives (λ x. (x.0, behind tokens.now x.1)) result (read 0 a_comm library (behind tokens.now at)) }
{
    let (word, at) = take_kind(tokens, at, TokenKind::Word(Word::Library))?;
    let semicolon = TokenKind::Symbol(Symbol::Semicolon);
    let item = |at: usize| read_spec(alloc, tokens, at);
    let (list, at) = read_bracketed(alloc, tokens, at, semicolon, item)?;
    Ok((RawComm::Library(position(word), list), at))
}

fn read_absolute(alloc: Global, tokens: &[Token], at: usize) -> Result<(RawComm, usize), Stop>
    ensures { Gives (λ x. (x.0, behind tokens.now x.1)) result (read 0 a_comm absolute (behind tokens.now at)) }
{
    let (word, at) = take_kind(tokens, at, TokenKind::Word(Word::Absolute))?;
    let semicolon = TokenKind::Symbol(Symbol::Semicolon);
    let item = |at: usize| read_aitem(alloc, tokens, at);
    let (list, at) = read_bracketed(alloc, tokens, at, semicolon, item)?;
    Ok((RawComm::Absolute(position(word), list), at))
}

#[tactic(auto, unfolding(cw_grammar::specs::Statements::comm))]
fn read_comm(alloc: Global, tokens: &[Token], at: usize) -> Result<(RawComm, usize), Stop>
    ensures { Gives (λ x. (x.0, behind tokens.now x.1)) result (read 0 a_comm comm (behind tokens.now at)) }
{
    if next_is(tokens, at, TokenKind::Word(Word::Common)) {
        return read_common(alloc, tokens, at);
    }
    if next_is(tokens, at, TokenKind::Word(Word::Library)) {
        return read_library(alloc, tokens, at);
    }
    read_absolute(alloc, tokens, at)
}

#[tactic(auto, unfolding(cw_grammar::specs::Statements::comm))]
fn is_comm(tokens: &[Token], at: usize) -> bool
    ensures { result ≡ starts (behind tokens.now at) (first comm) }
{
    next_is(tokens, at, TokenKind::Word(Word::Common))
        || next_is(tokens, at, TokenKind::Word(Word::Library))
        || next_is(tokens, at, TokenKind::Word(Word::Absolute))
}

pub fn read_comms(
    alloc: Global,
    tokens: &[Token],
    at: usize,
) -> Result<(List<RawComm>, usize), Stop>
    ensures { Gives (λ x. (x.0, behind tokens.now x.1)) result (read 0 (a_list a_comm) (many (comm <* symbol Semicolon)) (behind tokens.now at)) }
{
    let semicolon = TokenKind::Symbol(Symbol::Semicolon);
    read_ended(
        alloc,
        tokens,
        at,
        semicolon,
        |at| is_comm(tokens, at),
        |at| read_comm(alloc, tokens, at),
    )
}
