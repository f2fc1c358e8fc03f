//! Formal parameters from left to right.
ghost use Rattle.cw_grammar.specs.Tokens.{behind};
ghost use Rattle.cw_grammar.specs.Grammar.{a_pair, a_list, an_option, a_from, a_name, a_type, a_param, ◌·◌};
ghost use Rattle.cw_grammar.specs.Rules.{commas, name, number_type};
ghost use Rattle.cw_grammar.specs.Statements.{semicolons, listed, in_round, procedure_param, param};
ghost use Rattle.cw_grammar.specs.Reading.{Gives, read, applied};

use crate::data::{is_type, read_names, read_table};
use crate::specifications::read_ips_list;
use crate::taking::taken;
use cw_grammar::reading::{read_name, read_type};
use cw_grammar::stop::Stop;
use cw_grammar::token::{next_is, position, take_kind};
use cw_lex::{Symbol, Token, TokenKind, Word};
use cw_series::lists::read_listed;
use cw_tree::leaf::{RawName, RawType};
use cw_tree::statement::RawParam;
use cw_word::List;
use std::alloc::Global;

#[tactic(auto, unfolding(cw_grammar::specs::Statements::procedure_param))]
fn read_procedure_param(
    alloc: Global,
    tokens: &[Token],
    at: usize,
    kind: Option<RawType>,
) -> Result<(RawParam, usize), Stop>
    ensures { Gives (λ x. (x.0, behind tokens.now x.1)) result
        (applied kind (read 0 (a_from (an_option a_type) a_param) procedure_param (behind tokens.now at))) }
{
    let (word, at) = take_kind(tokens, at, TokenKind::Word(Word::Procedure))?;
    let (name, at) = read_name(tokens, at)?;
    let (list, at) = read_ips_list(alloc, tokens, at)?;
    Ok((RawParam::Proc(kind, position(word), name, list), at))
}

fn read_typed_names(
    alloc: Global,
    tokens: &[Token],
    at: usize,
) -> Result<((RawType, List<RawName>), usize), Stop>
    ensures { Gives (λ x. (x.0, behind tokens.now x.1)) result (read 0 (a_pair a_type (a_list a_name)) (number_type · commas name) (behind tokens.now at)) }
{
    let (kind, at) = read_type(tokens, at)?;
    let (names, at) = read_names(alloc, tokens, at)?;
    Ok(((kind, names), at))
}

#[tactic(auto, unfolding(cw_grammar::specs::Statements::param, cw_grammar::specs::Statements::procedure_param, cw_grammar::specs::Statements::table, cw_grammar::specs::Rules::number_type))]
fn read_param(alloc: Global, tokens: &[Token], at: usize) -> Result<(RawParam, usize), Stop>
    ensures { Gives (λ x. (x.0, behind tokens.now x.1)) result (read 0 a_param param (behind tokens.now at)) }
{
    if is_type(tokens, at) {
        let (kind, at) = read_type(tokens, at)?;
        if next_is(tokens, at, TokenKind::Word(Word::Array)) {
            let (_, at) = taken(tokens, at, TokenKind::Word(Word::Array));
            let (names, at) = read_names(alloc, tokens, at)?;
            return Ok((RawParam::Array(kind, names), at));
        }
        return read_procedure_param(alloc, tokens, at, Some(kind));
    }
    if next_is(tokens, at, TokenKind::Word(Word::Procedure)) {
        return read_procedure_param(alloc, tokens, at, None);
    }
    if next_is(tokens, at, TokenKind::Word(Word::Value)) {
        let (word, at) = taken(tokens, at, TokenKind::Word(Word::Value));
        let (parts, at) = read_typed_names(alloc, tokens, at)?;
        let (kind, names) = parts;
        return Ok((RawParam::Value(position(word), kind, names), at));
    }
    if next_is(tokens, at, TokenKind::Word(Word::Location)) {
        let (word, at) = taken(tokens, at, TokenKind::Word(Word::Location));
        let (parts, at) = read_typed_names(alloc, tokens, at)?;
        let (kind, names) = parts;
        return Ok((RawParam::Location(position(word), kind, names), at));
    }
    if next_is(tokens, at, TokenKind::Word(Word::Table)) {
        let (table, at) = read_table(alloc, tokens, at)?;
        return Ok((RawParam::Table(table), at));
    }
    if next_is(tokens, at, TokenKind::Word(Word::Label)) {
        let (word, at) = taken(tokens, at, TokenKind::Word(Word::Label));
        let (names, at) = read_names(alloc, tokens, at)?;
        return Ok((RawParam::Label(position(word), names), at));
    }
    let (word, at) = take_kind(tokens, at, TokenKind::Word(Word::Switch))?;
    let (names, at) = read_names(alloc, tokens, at)?;
    Ok((RawParam::Switch(position(word), names), at))
}

pub fn read_param_list(
    alloc: Global,
    tokens: &[Token],
    at: usize,
) -> Result<(List<RawParam>, usize), Stop>
    ensures { Gives (λ x. (x.0, behind tokens.now x.1)) result (read 0 (a_list a_param) (listed (in_round (semicolons param))) (behind tokens.now at)) }
{
    read_listed(
        alloc,
        tokens,
        at,
        TokenKind::Symbol(Symbol::Semicolon),
        |at| read_param(alloc, tokens, at),
    )
}
