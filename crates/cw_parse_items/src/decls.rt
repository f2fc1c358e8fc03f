//! Declarations that open no level.
ghost use Rattle.std.specs.Prelude.{◌≡◌, true, false};
ghost use Rattle.cw_grammar.specs.Tokens.{behind};
ghost use Rattle.cw_grammar.specs.Grammar.{starts, first, a_decl};
ghost use Rattle.cw_grammar.specs.Statements.{decl, worded_decl};
ghost use Rattle.cw_grammar.specs.Reading.{Gives, read};
ghost use Rattle.cw_parse_items.specs.Alternatives.{overlay_decl, switch_decl};

use crate::data::{is_type, read_arrays, read_data_table, read_names, read_overlay, read_singles};
use cw_grammar::reading::{read_name, read_type};
use cw_grammar::stop::Stop;
use cw_grammar::token::{next_is, position, take_kind};
use cw_lex::{Symbol, Token, TokenKind, Word};
use cw_tree::statement::RawDecl;
use std::alloc::Global;

#[tactic(auto, unfolding(cw_grammar::specs::Statements::worded_decl, cw_grammar::specs::Statements::data_table, cw_grammar::specs::Statements::overlay))]
pub fn is_worded_decl(tokens: &[Token], at: usize) -> bool
    ensures { result ≡ starts (behind tokens.now at) (first worded_decl) }
{
    next_is(tokens, at, TokenKind::Word(Word::Table))
        || next_is(tokens, at, TokenKind::Word(Word::Overlay))
        || next_is(tokens, at, TokenKind::Word(Word::Switch))
}

#[tactic(auto, unfolding(cw_grammar::specs::Statements::decl, cw_grammar::specs::Statements::worded_decl, cw_grammar::specs::Statements::data_table, cw_grammar::specs::Statements::overlay, cw_grammar::specs::Rules::number_type))]
pub fn is_local_decl(tokens: &[Token], at: usize) -> bool
    ensures { result ≡ starts (behind tokens.now at) (first (decl true)) }
{
    next_is(tokens, at, TokenKind::Word(Word::Integer))
        || next_is(tokens, at, TokenKind::Word(Word::Fixed))
        || next_is(tokens, at, TokenKind::Word(Word::Table))
        || next_is(tokens, at, TokenKind::Word(Word::Overlay))
        || next_is(tokens, at, TokenKind::Word(Word::Switch))
}

#[tactic(auto, unfolding(cw_grammar::specs::Statements::decl, cw_grammar::specs::Statements::worded_decl, cw_grammar::specs::Statements::data_table, cw_grammar::specs::Statements::overlay, cw_grammar::specs::Statements::proc_behind, cw_grammar::specs::Statements::ptag, cw_grammar::specs::Rules::number_type))]
pub fn is_outer_decl(tokens: &[Token], at: usize) -> bool
    ensures { result ≡ starts (behind tokens.now at) (first (decl false)) }
{
    next_is(tokens, at, TokenKind::Word(Word::Integer))
        || next_is(tokens, at, TokenKind::Word(Word::Fixed))
        || next_is(tokens, at, TokenKind::Word(Word::Table))
        || next_is(tokens, at, TokenKind::Word(Word::Overlay))
        || next_is(tokens, at, TokenKind::Word(Word::Switch))
        || next_is(tokens, at, TokenKind::Word(Word::Procedure))
        || next_is(tokens, at, TokenKind::Word(Word::Recursive))
}

fn read_overlay_decl(alloc: Global, tokens: &[Token], at: usize) -> Result<(RawDecl, usize), Stop>
    ensures { Gives (λ x. (x.0, behind tokens.now x.1)) result (read 0 a_decl overlay_decl (behind tokens.now at)) }
{
    let (parts, at) = read_overlay(alloc, tokens, at)?;
    let (word, (base, item)) = parts;
    Ok((RawDecl::Overlay(position(word), base, item), at))
}

fn read_switch_decl(alloc: Global, tokens: &[Token], at: usize) -> Result<(RawDecl, usize), Stop>
    ensures { Gives (λ x. (x.0, behind tokens.now x.1)) result (read 0 a_decl switch_decl (behind tokens.now at)) }
{
    let (word, at) = take_kind(tokens, at, TokenKind::Word(Word::Switch))?;
    let (name, at) = read_name(tokens, at)?;
    let (_, at) = take_kind(tokens, at, TokenKind::Symbol(Symbol::Assign))?;
    let (names, at) = read_names(alloc, tokens, at)?;
    Ok((RawDecl::Switch(position(word), name, names), at))
}

/// A table, an overlay or a switch.
#[tactic(auto, unfolding(cw_grammar::specs::Statements::worded_decl, cw_grammar::specs::Statements::data_table, cw_grammar::specs::Statements::overlay))]
pub fn read_worded_decl(
    alloc: Global,
    tokens: &[Token],
    at: usize,
) -> Result<(RawDecl, usize), Stop>
    ensures { Gives (λ x. (x.0, behind tokens.now x.1)) result (read 0 a_decl worded_decl (behind tokens.now at)) }
{
    if next_is(tokens, at, TokenKind::Word(Word::Table)) {
        let (item, at) = read_data_table(alloc, tokens, at)?;
        return Ok((RawDecl::Data(item), at));
    }
    if next_is(tokens, at, TokenKind::Word(Word::Overlay)) {
        return read_overlay_decl(alloc, tokens, at);
    }
    read_switch_decl(alloc, tokens, at)
}

/// A declaration inside a procedure's body.
#[tactic(auto, unfolding(cw_grammar::specs::Statements::decl, cw_grammar::specs::Statements::singles, cw_grammar::specs::Statements::arrays, cw_grammar::specs::Rules::number_type))]
pub fn read_local_decl(alloc: Global, tokens: &[Token], at: usize) -> Result<(RawDecl, usize), Stop>
    ensures { Gives (λ x. (x.0, behind tokens.now x.1)) result (read 0 a_decl (decl true) (behind tokens.now at)) }
{
    if is_type(tokens, at) {
        let (kind, at) = read_type(tokens, at)?;
        if next_is(tokens, at, TokenKind::Name) {
            let (item, at) = read_singles(alloc, tokens, at, kind)?;
            return Ok((RawDecl::Data(item), at));
        }
        let (item, at) = read_arrays(alloc, tokens, at, kind)?;
        return Ok((RawDecl::Data(item), at));
    }
    read_worded_decl(alloc, tokens, at)
}
