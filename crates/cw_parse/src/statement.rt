//! Statements, blocks and procedures from left to right.
ghost use Rattle.std.specs.Prelude.{◌≡◌, ◌∷◌, [], true, false};
ghost use Rattle.cw_lex.specs.declared.token.TokenKind.TheVariants as kinds;
ghost use Rattle.cw_lex.specs.declared.token.Word.TheVariants as words;
ghost use Rattle.cw_grammar.specs.Tokens.{behind, seen};
ghost use Rattle.cw_grammar.specs.Grammar.{starts, first, many, a_token, a_pair, a_list, an_option, a_from, a_name, a_type, a_stmt, a_form, a_simple, a_felem, a_decl};
ghost use Rattle.cw_grammar.specs.Grammar.{a_param, a_cond, a_ref, if_rest, else_rest, for_rest, block_rest, proc_body, labelled, labelled_simple, again, opens, ◌·◌};
ghost use Rattle.cw_grammar.specs.Rules.{symbol, ◌<*◌};
ghost use Rattle.cw_grammar.specs.Statements.{semicolons, listed, in_round, param, unnamed, proc_behind, decl};
ghost use Rattle.cw_grammar.specs.Reading.{Gives, read, inside, applied};
ghost use Rattle.cw_grammar.specs.Labels.{unlabelled, unlabelled_simple};
ghost use Rattle.cw_lex.specs.declared.token.Symbol.TheVariants.{Semicolon};
ghost use Rattle.cw_parse.specs.Alternatives.{block, if_form, for_form, first_stmt, second_stmt, assigned_felems, done};

use crate::simple::{
    for_form, if_form, proc_decl, read_address_assigned, read_answered, read_assigned_felems,
    read_bits_assigned, read_boxed_condition, read_boxed_reference, read_goto, read_labels,
    read_simple_behind,
};
use cw_grammar::reading::{read_name, read_type};
use cw_grammar::stop::Stop;
use cw_grammar::token::{Item, deep, next_is, position, take_kind};
use cw_lex::{Symbol, Token, TokenKind, Word};
use cw_parse_items::data::{is_type, read_arrays, read_singles};
use cw_parse_items::decls::{
    is_local_decl, is_outer_decl, is_worded_decl, read_local_decl, read_worded_decl,
};
use cw_parse_items::params::read_param_list;
use cw_parse_items::specifications::read_ptag;
use cw_parse_items::taking::taken;
use cw_series::lists::{read_ended, read_list};
use cw_tree::expression::{RawCond, RawRef};
use cw_tree::leaf::{RawName, RawType};
use cw_tree::statement::{RawBlock, RawDecl, RawFelem, RawForm, RawParam, RawSimple, RawStmt};
use cw_word::{Boxed, List};
use std::alloc::Global;

#[cycle(statement_reader)]
fn read_block(
    alloc: Global,
    levels: u8,
    in_proc: bool,
    tokens: &[Token],
    at: usize,
) -> Result<(RawSimple, usize), Stop>
    requires { starts (behind tokens.now at) (kinds.Word words.Begin ∷ []) ≡ true }
    ensures { Gives (λ x. (x.0, behind tokens.now x.1)) result (read levels a_simple (block in_proc) (behind tokens.now at)) }
{
    let (word, at) = taken(tokens, at, TokenKind::Word(Word::Begin));
    let (parts, at) = read_block_rest(alloc, levels, in_proc, tokens, at)?;
    let (decls, stmts) = parts;
    let block = RawBlock {
        at: position(word),
        decls,
        stmts,
    };
    Ok((RawSimple::Block(Boxed::new(alloc, block)?), at))
}

#[tactic(auto, unfolding(cw_grammar::specs::Statements::unnamed, cw_grammar::specs::Rules::bits))]
#[cycle(statement_reader)]
fn read_unnamed(
    alloc: Global,
    levels: u8,
    in_proc: bool,
    tokens: &[Token],
    at: usize,
) -> Result<(RawSimple, usize), Stop>
    ensures { Gives (λ x. (x.0, behind tokens.now x.1)) result (read levels a_simple (unnamed in_proc) (behind tokens.now at)) }
{
    if next_is(tokens, at, TokenKind::Symbol(Symbol::OpenSquare)) {
        return read_address_assigned(alloc, levels, tokens, at);
    }
    if next_is(tokens, at, TokenKind::Word(Word::Bits)) {
        return read_bits_assigned(alloc, levels, tokens, at);
    }
    if next_is(tokens, at, TokenKind::Word(Word::Goto)) {
        return read_goto(alloc, levels, tokens, at);
    }
    if next_is(tokens, at, TokenKind::Word(Word::Answer)) {
        return read_answered(alloc, levels, tokens, at);
    }
    if next_is(tokens, at, TokenKind::Word(Word::Begin)) {
        return read_block(alloc, levels, in_proc, tokens, at);
    }
    Ok((RawSimple::Empty, at))
}

#[tactic(auto, unfolding(cw_grammar::specs::Labels::unlabelled_simple))]
#[cycle(statement_reader)]
fn read_simple(
    alloc: Global,
    levels: u8,
    in_proc: bool,
    tokens: &[Token],
    at: usize,
) -> Result<(Boxed<RawSimple>, usize), Stop>
    ensures { Gives (λ x. (x.0, behind tokens.now x.1)) result (read levels a_simple (unlabelled_simple in_proc) (behind tokens.now at)) }
{
    if next_is(tokens, at, TokenKind::Name) {
        let (name, at) = read_name(tokens, at)?;
        let (simple, at) = read_simple_behind(alloc, levels, tokens, at, name)?;
        let boxed = Boxed::new(alloc, simple)?;
        return Ok((boxed, at));
    }
    let (simple, at) = read_unnamed(alloc, levels, in_proc, tokens, at)?;
    let boxed = Boxed::new(alloc, simple)?;
    Ok((boxed, at))
}

#[cycle(statement_reader)]
fn read_labelled_simple(
    alloc: Global,
    levels: u8,
    in_proc: bool,
    tokens: &[Token],
    at: usize,
) -> Result<((List<RawName>, Boxed<RawSimple>), usize), Stop>
    ensures { Gives (λ x. (x.0, behind tokens.now x.1)) result
        (read levels (a_pair (a_list a_name) a_simple) (again (labelled_simple in_proc)) (behind tokens.now at)) }
{
    let (labels, at) = read_labels(alloc, tokens, at)?;
    let (simple, at) = read_simple(alloc, levels, in_proc, tokens, at)?;
    Ok(((labels, simple), at))
}

#[tactic(auto, using(cw_grammar::proofs::Levels::inside_opened, cw_grammar::proofs::Levels::inside_full), unfolding(cw_grammar::specs::Table::rule))]
#[cycle(statement_reader)]
fn read_else_rest(
    alloc: Global,
    levels: u8,
    in_proc: bool,
    tokens: &[Token],
    at: usize,
) -> Result<(RawStmt, usize), Stop>
    ensures { Gives (λ x. (x.0, behind tokens.now x.1)) result (inside levels a_stmt (else_rest in_proc) (behind tokens.now at)) }
{
    if levels == 0 {
        return Err(deep(tokens, at));
    }
    read_stmt(alloc, levels - 1, in_proc, tokens, at)
}

#[cycle(statement_reader)]
fn read_second(
    alloc: Global,
    levels: u8,
    in_proc: bool,
    tokens: &[Token],
    at: usize,
) -> Result<(Option<Boxed<RawStmt>>, usize), Stop>
    ensures { Gives (λ x. (x.0, behind tokens.now x.1)) result (read levels (an_option a_stmt) (second_stmt in_proc) (behind tokens.now at)) }
{
    if next_is(tokens, at, TokenKind::Word(Word::Else)) {
        let (_, at) = taken(tokens, at, TokenKind::Word(Word::Else));
        let (second, at) = read_else_rest(alloc, levels, in_proc, tokens, at)?;
        let second = Boxed::new(alloc, second)?;
        return Ok((Some(second), at));
    }
    Ok((None, at))
}

#[cycle(statement_reader)]
fn read_branches(
    alloc: Global,
    levels: u8,
    in_proc: bool,
    tokens: &[Token],
    at: usize,
) -> Result<
    (
        ((List<RawName>, Boxed<RawSimple>), Option<Boxed<RawStmt>>),
        usize,
    ),
    Stop,
>
    ensures { Gives (λ x. (x.0, behind tokens.now x.1)) result
        (read levels (a_pair (a_pair (a_list a_name) a_simple) (an_option a_stmt)) (first_stmt in_proc · second_stmt in_proc) (behind tokens.now at)) }
{
    let (_, at) = take_kind(tokens, at, TokenKind::Word(Word::Then))?;
    let (first, at) = read_labelled_simple(alloc, levels, in_proc, tokens, at)?;
    let (second, at) = read_second(alloc, levels, in_proc, tokens, at)?;
    Ok(((first, second), at))
}

#[tactic(auto, using(cw_grammar::proofs::Levels::inside_opened, cw_grammar::proofs::Levels::inside_full), unfolding(cw_grammar::specs::Table::rule))]
#[cycle(statement_reader)]
fn read_if_rest(
    alloc: Global,
    levels: u8,
    in_proc: bool,
    tokens: &[Token],
    at: usize,
) -> Result<
    (
        (
            Boxed<RawCond>,
            ((List<RawName>, Boxed<RawSimple>), Option<Boxed<RawStmt>>),
        ),
        usize,
    ),
    Stop,
>
    ensures { Gives (λ x. (x.0, behind tokens.now x.1)) result
        (inside levels (a_pair a_cond (a_pair (a_pair (a_list a_name) a_simple) (an_option a_stmt)))
        (if_rest in_proc) (behind tokens.now at)) }
{
    if levels == 0 {
        return Err(deep(tokens, at));
    }
    let (test, at) = read_boxed_condition(alloc, levels - 1, tokens, at)?;
    let (branches, at) = read_branches(alloc, levels - 1, in_proc, tokens, at)?;
    Ok(((test, branches), at))
}

#[cycle(statement_reader)]
fn read_controlled(
    alloc: Global,
    levels: u8,
    in_proc: bool,
    tokens: &[Token],
    at: usize,
) -> Result<((List<RawFelem>, Boxed<RawStmt>), usize), Stop>
    ensures { Gives (λ x. (x.0, behind tokens.now x.1)) result
        (read levels (a_pair (a_list a_felem) a_stmt) (assigned_felems · done in_proc) (behind tokens.now at)) }
{
    let (elems, at) = read_assigned_felems(alloc, levels, tokens, at)?;
    let (_, at) = take_kind(tokens, at, TokenKind::Word(Word::Do))?;
    let (body, at) = read_stmt(alloc, levels, in_proc, tokens, at)?;
    let body = Boxed::new(alloc, body)?;
    Ok(((elems, body), at))
}

#[tactic(auto, using(cw_grammar::proofs::Levels::inside_opened, cw_grammar::proofs::Levels::inside_full), unfolding(cw_grammar::specs::Table::rule))]
#[cycle(statement_reader)]
fn read_for_rest(
    alloc: Global,
    levels: u8,
    in_proc: bool,
    tokens: &[Token],
    at: usize,
) -> Result<((Boxed<RawRef>, (List<RawFelem>, Boxed<RawStmt>)), usize), Stop>
    ensures { Gives (λ x. (x.0, behind tokens.now x.1)) result
        (inside levels (a_pair a_ref (a_pair (a_list a_felem) a_stmt)) (for_rest in_proc) (behind tokens.now at)) }
{
    if levels == 0 {
        return Err(deep(tokens, at));
    }
    let (variable, at) = read_boxed_reference(alloc, levels - 1, tokens, at)?;
    let (controlled, at) = read_controlled(alloc, levels - 1, in_proc, tokens, at)?;
    Ok(((variable, controlled), at))
}

#[cycle(statement_reader)]
fn read_if(
    alloc: Global,
    levels: u8,
    in_proc: bool,
    tokens: &[Token],
    at: usize,
) -> Result<(RawForm, usize), Stop>
    requires { starts (behind tokens.now at) (kinds.Word words.If ∷ []) ≡ true }
    ensures { Gives (λ x. (x.0, behind tokens.now x.1)) result (read levels a_form (if_form in_proc) (behind tokens.now at)) }
{
    let (word, at) = taken(tokens, at, TokenKind::Word(Word::If));
    let (parts, at) = read_if_rest(alloc, levels, in_proc, tokens, at)?;
    Ok((if_form(word, parts), at))
}

#[cycle(statement_reader)]
fn read_for(
    alloc: Global,
    levels: u8,
    in_proc: bool,
    tokens: &[Token],
    at: usize,
) -> Result<(RawForm, usize), Stop>
    requires { starts (behind tokens.now at) (kinds.Word words.For ∷ []) ≡ true }
    ensures { Gives (λ x. (x.0, behind tokens.now x.1)) result (read levels a_form (for_form in_proc) (behind tokens.now at)) }
{
    let (word, at) = taken(tokens, at, TokenKind::Word(Word::For));
    let (parts, at) = read_for_rest(alloc, levels, in_proc, tokens, at)?;
    Ok((for_form(word, parts), at))
}

#[tactic(auto, unfolding(cw_grammar::specs::Labels::unlabelled))]
#[cycle(statement_reader)]
fn read_form(
    alloc: Global,
    levels: u8,
    in_proc: bool,
    tokens: &[Token],
    at: usize,
) -> Result<(RawForm, usize), Stop>
    ensures { Gives (λ x. (x.0, behind tokens.now x.1)) result (read levels a_form (unlabelled in_proc) (behind tokens.now at)) }
{
    if next_is(tokens, at, TokenKind::Word(Word::If)) {
        return read_if(alloc, levels, in_proc, tokens, at);
    }
    if next_is(tokens, at, TokenKind::Word(Word::For)) {
        return read_for(alloc, levels, in_proc, tokens, at);
    }
    let (simple, at) = read_simple(alloc, levels, in_proc, tokens, at)?;
    Ok((RawForm::Simple(simple), at))
}

#[cycle(statement_reader)]
fn read_stmt(
    alloc: Global,
    levels: u8,
    in_proc: bool,
    tokens: &[Token],
    at: usize,
) -> Result<(RawStmt, usize), Stop>
    ensures { Gives (λ x. (x.0, behind tokens.now x.1)) result (read levels a_stmt (again (labelled in_proc)) (behind tokens.now at)) }
{
    let (labels, at) = read_labels(alloc, tokens, at)?;
    let (form, at) = read_form(alloc, levels, in_proc, tokens, at)?;
    let form = Boxed::new(alloc, form)?;
    Ok((RawStmt { labels, form }, at))
}

#[tactic(auto, using(cw_grammar::proofs::Levels::inside_opened, cw_grammar::proofs::Levels::inside_full), unfolding(cw_grammar::specs::Table::rule))]
#[cycle(statement_reader)]
fn read_proc_body(
    alloc: Global,
    levels: u8,
    tokens: &[Token],
    at: usize,
) -> Result<(RawStmt, usize), Stop>
    ensures { Gives (λ x. (x.0, behind tokens.now x.1)) result (inside levels a_stmt proc_body (behind tokens.now at)) }
{
    if levels == 0 {
        return Err(deep(tokens, at));
    }
    read_stmt(alloc, levels - 1, true, tokens, at)
}

#[cycle(statement_reader)]
fn read_params_and_body<'a>(
    alloc: Global,
    levels: u8,
    tokens: &[Token<'a>],
    at: usize,
) -> Result<((List<RawParam>, (Item<'a>, Boxed<RawStmt>)), usize), Stop>
    ensures { Gives (λ x. ((x.0.0, (seen x.0.1.0, x.0.1.1)), behind tokens.now x.1)) result
        (read levels (a_pair (a_list a_param) (a_pair a_token a_stmt)) (listed (in_round (semicolons param)) · opens (kinds.Symbol Semicolon) proc_body)
        (behind tokens.now at)) }
{
    let (params, at) = read_params(alloc, levels, tokens, at)?;
    let (semicolon, at) = take_kind(tokens, at, TokenKind::Symbol(Symbol::Semicolon))?;
    let (body, at) = read_proc_body(alloc, levels, tokens, at)?;
    let body = Boxed::new(alloc, body)?;
    Ok(((params, (semicolon, body)), at))
}

#[tactic(auto, unfolding(cw_grammar::specs::Statements::proc_behind, cw_grammar::specs::Statements::ptag))]
#[cycle(statement_reader)]
fn read_proc_behind(
    alloc: Global,
    levels: u8,
    tokens: &[Token],
    at: usize,
    kind: Option<RawType>,
) -> Result<(RawDecl, usize), Stop>
    ensures { Gives (λ x. (x.0, behind tokens.now x.1)) result
        (applied kind (read levels (a_from (an_option a_type) a_decl) proc_behind (behind tokens.now at))) }
{
    let (tag, at) = read_ptag(tokens, at)?;
    let (name, at) = read_name(tokens, at)?;
    let (parts, at) = read_params_and_body(alloc, levels, tokens, at)?;
    let (params, (_, body)) = parts;
    let decl = proc_decl(alloc, kind, tag, name, params, body)?;
    Ok((decl, at))
}

// The levels that are left do not matter.
fn read_params(
    alloc: Global,
    at_levels: u8,
    tokens: &[Token],
    at: usize,
) -> Result<(List<RawParam>, usize), Stop>
    ensures { Gives (λ x. (x.0, behind tokens.now x.1)) result (read at_levels (a_list a_param) (listed (in_round (semicolons param))) (behind tokens.now at)) }
{
    read_param_list(alloc, tokens, at)
}

fn is_decl(tokens: &[Token], in_proc: bool, at: usize) -> bool
    ensures { result ≡ starts (behind tokens.now at) (first (decl in_proc)) }
{
    if in_proc {
        is_local_decl(tokens, at)
    } else {
        is_outer_decl(tokens, at)
    }
}

#[tactic(auto, unfolding(cw_grammar::specs::Statements::decl, cw_grammar::specs::Rules::number_type))]
#[cycle(statement_reader)]
fn read_outer_decl(
    alloc: Global,
    levels: u8,
    tokens: &[Token],
    at: usize,
) -> Result<(RawDecl, usize), Stop>
    ensures { Gives (λ x. (x.0, behind tokens.now x.1)) result (read levels a_decl (decl false) (behind tokens.now at)) }
{
    if is_type(tokens, at) {
        let (kind, at) = read_type(tokens, at)?;
        if next_is(tokens, at, TokenKind::Name) {
            let (item, at) = read_singles(alloc, tokens, at, kind)?;
            return Ok((RawDecl::Data(item), at));
        }
        if next_is(tokens, at, TokenKind::Word(Word::Array)) {
            let (item, at) = read_arrays(alloc, tokens, at, kind)?;
            return Ok((RawDecl::Data(item), at));
        }
        return read_proc_behind(alloc, levels, tokens, at, Some(kind));
    }
    if is_worded_decl(tokens, at) {
        return read_worded_decl(alloc, tokens, at);
    }
    read_proc_behind(alloc, levels, tokens, at, None)
}

#[cycle(statement_reader)]
fn read_decl(
    alloc: Global,
    levels: u8,
    in_proc: bool,
    tokens: &[Token],
    at: usize,
) -> Result<(RawDecl, usize), Stop>
    ensures { Gives (λ x. (x.0, behind tokens.now x.1)) result (read levels a_decl (decl in_proc) (behind tokens.now at)) }
{
    if in_proc {
        return read_local_decl(alloc, tokens, at);
    }
    read_outer_decl(alloc, levels, tokens, at)
}

#[cycle(statement_reader)]
fn read_decls(
    alloc: Global,
    levels: u8,
    in_proc: bool,
    tokens: &[Token],
    at: usize,
) -> Result<(List<RawDecl>, usize), Stop>
    ensures { Gives (λ x. (x.0, behind tokens.now x.1)) result (read levels (a_list a_decl) (many (decl in_proc <* symbol Semicolon)) (behind tokens.now at)) }
{
    let begins = move |at: usize| -> bool
        ensures { result ≡ starts (behind tokens.entry.now at) (first (decl in_proc)) }
    { is_decl(tokens, in_proc, at) };
    let item = move |at: usize| -> Result<(RawDecl, usize), Stop>
        ensures { Gives (λ x. (x.0, behind tokens.entry.now x.1)) result (read levels a_decl (decl in_proc) (behind tokens.entry.now at)) }
    { read_decl(alloc, levels, in_proc, tokens, at) };
    let semicolon = TokenKind::Symbol(Symbol::Semicolon);
    read_ended(alloc, tokens, at, semicolon, begins, item)
}

#[tactic(auto, using(cw_grammar::proofs::Levels::inside_opened, cw_grammar::proofs::Levels::inside_full), unfolding(cw_grammar::specs::Table::rule))]
#[cycle(statement_reader)]
pub fn read_block_rest(
    alloc: Global,
    levels: u8,
    in_proc: bool,
    tokens: &[Token],
    at: usize,
) -> Result<((List<RawDecl>, List<RawStmt>), usize), Stop>
    ensures { Gives (λ x. (x.0, behind tokens.now x.1)) result
        (inside levels (a_pair (a_list a_decl) (a_list a_stmt)) (block_rest in_proc) (behind tokens.now at)) }
{
    if levels == 0 {
        return Err(deep(tokens, at));
    }
    let (decls, at) = read_decls(alloc, levels - 1, in_proc, tokens, at)?;
    let (stmts, at) = read_stmts(alloc, levels - 1, in_proc, tokens, at)?;
    let (_, at) = take_kind(tokens, at, TokenKind::Word(Word::End))?;
    if next_is(tokens, at, TokenKind::Name) {
        let (_, at) = taken(tokens, at, TokenKind::Name);
        return Ok(((decls, stmts), at));
    }
    Ok(((decls, stmts), at))
}

#[cycle(statement_reader)]
fn read_stmts(
    alloc: Global,
    levels: u8,
    in_proc: bool,
    tokens: &[Token],
    at: usize,
) -> Result<(List<RawStmt>, usize), Stop>
    ensures { Gives (λ x. (x.0, behind tokens.now x.1)) result (read levels (a_list a_stmt) (semicolons (again (labelled in_proc))) (behind tokens.now at)) }
{
    let item = move |at: usize| -> Result<(RawStmt, usize), Stop>
        ensures { Gives (λ x. (x.0, behind tokens.entry.now x.1)) result (read levels a_stmt (again (labelled in_proc)) (behind tokens.entry.now at)) }
    { read_stmt(alloc, levels, in_proc, tokens, at) };
    read_list(
        alloc,
        tokens,
        at,
        TokenKind::Symbol(Symbol::Semicolon),
        item,
    )
}
