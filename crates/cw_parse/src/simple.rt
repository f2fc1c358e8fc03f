//! Statements that open no block, and the elements of FOR, from left to right.
ghost use Rattle.std.specs.Prelude.{◌≡◌, ◌∷◌, [], true, IfOk};
ghost use Rattle.cw_grammar.specs.Tokens.{behind, seen};
ghost use Rattle.cw_lex.specs.declared.token.TokenKind.TheVariants as kinds;
ghost use Rattle.cw_lex.specs.declared.token.Symbol.TheVariants as symbols;
ghost use Rattle.cw_lex.specs.declared.token.Word.TheVariants as words;
ghost use Rattle.cw_grammar.specs.Grammar.{starts, a_pair, a_list, a_from, a_name, an_expr, a_cond, a_ref, a_simple, a_felem, subscript};
ghost use Rattle.cw_grammar.specs.Rules.{commas, expr, reference, condition, indexed_name};
ghost use Rattle.cw_grammar.specs.Statements.{simple_behind, felem, if_tree, for_tree, proc_tree};
ghost use Rattle.cw_grammar.specs.Labels.{labels};
ghost use Rattle.cw_grammar.specs.Reading.{Gives, read, inside, applied};
ghost use Rattle.cw_parse.specs.Alternatives.{value_behind, name_assigned, element_assigned, call_behind, address_assigned};
ghost use Rattle.cw_parse.specs.Alternatives.{bits_assigned, goto, answered, step_until, assigned_felems};
ghost use Rattle.cw_tree.specs.declared.statement.RawSimple.TheVariants.{AssignBits};
ghost use Rattle.cw_tree.specs.declared.statement.RawFelem.TheVariants.{Step};
ghost use Rattle.cw_tree.specs.declared.statement.RawDecl.TheVariants.{Proc};

use cw_grammar::reading::read_name;
use cw_grammar::stop::Stop;
use cw_grammar::token::{Item, next_is, position, take_kind};
use cw_lex::{Symbol, Token, TokenKind, Word};
use cw_operand::operands::{indexed_name, read_bits};
use cw_parse_expr::reading::{
    read_called, read_condition, read_expr, read_indexed, read_reference, read_subscript,
};
use cw_parse_items::taking::taken;
use cw_series::lists::read_list;
use cw_tree::expression::{RawBits, RawCond, RawExpr, RawRef};
use cw_tree::leaf::{RawName, RawType};
use cw_tree::statement::{
    RawDecl, RawFelem, RawForm, RawParam, RawProc, RawPtag, RawSimple, RawStmt,
};
use cw_word::{Boxed, List, NoMemory};
use std::alloc::Global;

/// Names with a colon behind each.
pub fn read_labels(
    alloc: Global,
    tokens: &[Token],
    at: usize,
) -> Result<(List<RawName>, usize), Stop>
    ensures { Gives (λ x. (x.0, behind tokens.now x.1)) result (labels (behind tokens.now at)) }
{
    let mut labels = List::new(alloc);
    let mut next = at;
    while next_is(tokens, next, TokenKind::Name) {
        let (name, after) = read_name(tokens, next)?;
        if !next_is(tokens, after, TokenKind::Symbol(Symbol::Colon)) {
            return Ok((labels, next));
        }
        let (_, after) = taken(tokens, after, TokenKind::Symbol(Symbol::Colon));
        labels.push(name)?;
        next = after;
    }
    Ok((labels, next))
}

fn read_boxed_expr(
    alloc: Global,
    levels: u8,
    tokens: &[Token],
    at: usize,
) -> Result<(Boxed<RawExpr>, usize), Stop>
    ensures { Gives (λ x. (x.0, behind tokens.now x.1)) result (read levels an_expr expr (behind tokens.now at)) }
{
    let (value, at) = read_expr(alloc, levels, tokens, at)?;
    let boxed = Boxed::new(alloc, value)?;
    Ok((boxed, at))
}

fn read_boxed_subscript(
    alloc: Global,
    levels: u8,
    tokens: &[Token],
    at: usize,
) -> Result<(Boxed<RawExpr>, usize), Stop>
    ensures { Gives (λ x. (x.0, behind tokens.now x.1)) result (inside levels an_expr subscript (behind tokens.now at)) }
{
    let (index, at) = read_subscript(alloc, levels, tokens, at)?;
    let boxed = Boxed::new(alloc, index)?;
    Ok((boxed, at))
}

/// A reference in its box.
pub fn read_boxed_reference(
    alloc: Global,
    levels: u8,
    tokens: &[Token],
    at: usize,
) -> Result<(Boxed<RawRef>, usize), Stop>
    ensures { Gives (λ x. (x.0, behind tokens.now x.1)) result (read levels a_ref reference (behind tokens.now at)) }
{
    let (place, at) = read_reference(alloc, levels, tokens, at)?;
    let boxed = Boxed::new(alloc, place)?;
    Ok((boxed, at))
}

/// A condition in its box.
pub fn read_boxed_condition(
    alloc: Global,
    levels: u8,
    tokens: &[Token],
    at: usize,
) -> Result<(Boxed<RawCond>, usize), Stop>
    ensures { Gives (λ x. (x.0, behind tokens.now x.1)) result (read levels a_cond condition (behind tokens.now at)) }
{
    let (test, at) = read_condition(alloc, levels, tokens, at)?;
    let boxed = Boxed::new(alloc, test)?;
    Ok((boxed, at))
}

fn read_value_behind(
    alloc: Global,
    levels: u8,
    tokens: &[Token],
    at: usize,
) -> Result<(Boxed<RawExpr>, usize), Stop>
    ensures { Gives (λ x. (x.0, behind tokens.now x.1)) result (read levels an_expr value_behind (behind tokens.now at)) }
{
    let (_, at) = take_kind(tokens, at, TokenKind::Symbol(Symbol::Assign))?;
    let (value, at) = read_boxed_expr(alloc, levels, tokens, at)?;
    Ok((value, at))
}

fn read_name_assigned(
    alloc: Global,
    levels: u8,
    tokens: &[Token],
    at: usize,
    name: RawName,
) -> Result<(RawSimple, usize), Stop>
    ensures { Gives (λ x. (x.0, behind tokens.now x.1)) result (applied name (read levels (a_from a_name a_simple) name_assigned (behind tokens.now at))) }
{
    let (value, at) = read_value_behind(alloc, levels, tokens, at)?;
    let target = Boxed::new(alloc, RawRef::Name(name))?;
    Ok((RawSimple::Assign(target, value), at))
}

fn boxed_element(
    alloc: Global,
    name: RawName,
    index: (RawExpr, Option<RawExpr>),
) -> Result<Boxed<RawRef>, NoMemory>
    ensures { IfOk result (λ x. x ≡ indexed_name name index.0 index.1) }
{
    let element = indexed_name(alloc, name, index)?;
    Boxed::new(alloc, element)
}

fn read_element_assigned(
    alloc: Global,
    levels: u8,
    tokens: &[Token],
    at: usize,
    name: RawName,
) -> Result<(RawSimple, usize), Stop>
    requires { starts (behind tokens.now at) (kinds.Symbol symbols.OpenSquare ∷ []) ≡ true }
    ensures { Gives (λ x. (x.0, behind tokens.now x.1)) result (applied name (read levels (a_from a_name a_simple) element_assigned (behind tokens.now at))) }
{
    let (_, at) = taken(tokens, at, TokenKind::Symbol(Symbol::OpenSquare));
    let (index, at) = read_indexed(alloc, levels, tokens, at)?;
    let target = boxed_element(alloc, name, index)?;
    let (value, at) = read_value_behind(alloc, levels, tokens, at)?;
    Ok((RawSimple::Assign(target, value), at))
}

fn read_call_behind(
    alloc: Global,
    levels: u8,
    tokens: &[Token],
    at: usize,
    name: RawName,
) -> Result<(RawSimple, usize), Stop>
    requires { starts (behind tokens.now at) (kinds.Symbol symbols.Open ∷ []) ≡ true }
    ensures { Gives (λ x. (x.0, behind tokens.now x.1)) result (applied name (read levels (a_from a_name a_simple) call_behind (behind tokens.now at))) }
{
    let (_, at) = taken(tokens, at, TokenKind::Symbol(Symbol::Open));
    let (arguments, at) = read_called(alloc, levels, tokens, at)?;
    Ok((RawSimple::Call(Boxed::new(alloc, name)?, arguments), at))
}

/// A statement that begins with a name, behind it.
#[tactic(auto, unfolding(cw_grammar::specs::Statements::simple_behind))]
pub fn read_simple_behind(
    alloc: Global,
    levels: u8,
    tokens: &[Token],
    at: usize,
    name: RawName,
) -> Result<(RawSimple, usize), Stop>
    ensures { Gives (λ x. (x.0, behind tokens.now x.1)) result (applied name (read levels (a_from a_name a_simple) simple_behind (behind tokens.now at))) }
{
    if next_is(tokens, at, TokenKind::Symbol(Symbol::Assign)) {
        return read_name_assigned(alloc, levels, tokens, at, name);
    }
    if next_is(tokens, at, TokenKind::Symbol(Symbol::OpenSquare)) {
        return read_element_assigned(alloc, levels, tokens, at, name);
    }
    if next_is(tokens, at, TokenKind::Symbol(Symbol::Open)) {
        return read_call_behind(alloc, levels, tokens, at, name);
    }
    let name = Boxed::new(alloc, name)?;
    Ok((RawSimple::Call(name, List::new(alloc)), at))
}

/// An assignment by an address.
pub fn read_address_assigned(
    alloc: Global,
    levels: u8,
    tokens: &[Token],
    at: usize,
) -> Result<(RawSimple, usize), Stop>
    requires { starts (behind tokens.now at) (kinds.Symbol symbols.OpenSquare ∷ []) ≡ true }
    ensures { Gives (λ x. (x.0, behind tokens.now x.1)) result (read levels a_simple address_assigned (behind tokens.now at)) }
{
    let (bracket, at) = taken(tokens, at, TokenKind::Symbol(Symbol::OpenSquare));
    let (address, at) = read_boxed_subscript(alloc, levels, tokens, at)?;
    let target = Boxed::new(alloc, RawRef::Bare(position(bracket), address))?;
    let (value, at) = read_value_behind(alloc, levels, tokens, at)?;
    Ok((RawSimple::Assign(target, value), at))
}

fn bits_assignment(
    alloc: Global,
    bits: RawBits,
    target: Boxed<RawRef>,
    value: Boxed<RawExpr>,
) -> Result<RawSimple, NoMemory>
    ensures { IfOk result (λ x. x ≡ AssignBits bits target value) }
{
    // (in an option first: the prover knows what the width holds where a type of the function holds it unboxed)
    let bits = match Some(bits) {
        Some(bits) => Boxed::new(alloc, bits)?,
        None => return Err(NoMemory),
    };
    Ok(RawSimple::AssignBits(bits, target, value))
}

/// An assignment to bits.
#[tactic(auto, unfolding(cw_grammar::specs::Rules::bits, cw_grammar::specs::Rules::size, cw_grammar::specs::Rules::int, cw_grammar::specs::Rules::octal))]
pub fn read_bits_assigned(
    alloc: Global,
    levels: u8,
    tokens: &[Token],
    at: usize,
) -> Result<(RawSimple, usize), Stop>
    ensures { Gives (λ x. (x.0, behind tokens.now x.1)) result (read levels a_simple bits_assigned (behind tokens.now at)) }
{
    let (bits, at) = read_bits(tokens, at)?;
    // The size alone shows the prover where the ranges of its numbers are stated.
    let RawBits { at: word, size } = bits;
    let (target, at) = read_boxed_reference(alloc, levels, tokens, at)?;
    let (value, at) = read_value_behind(alloc, levels, tokens, at)?;
    let bits = RawBits { at: word, size };
    let simple = bits_assignment(alloc, bits, target, value)?;
    Ok((simple, at))
}

/// A jump.
pub fn read_goto(
    alloc: Global,
    levels: u8,
    tokens: &[Token],
    at: usize,
) -> Result<(RawSimple, usize), Stop>
    requires { starts (behind tokens.now at) (kinds.Word words.Goto ∷ []) ≡ true }
    ensures { Gives (λ x. (x.0, behind tokens.now x.1)) result (read levels a_simple goto (behind tokens.now at)) }
{
    let (word, at) = taken(tokens, at, TokenKind::Word(Word::Goto));
    let (name, at) = read_name(tokens, at)?;
    let name = Boxed::new(alloc, name)?;
    if next_is(tokens, at, TokenKind::Symbol(Symbol::OpenSquare)) {
        let (_, at) = taken(tokens, at, TokenKind::Symbol(Symbol::OpenSquare));
        let (index, at) = read_boxed_subscript(alloc, levels, tokens, at)?;
        return Ok((RawSimple::GotoSwitch(position(word), name, index), at));
    }
    Ok((RawSimple::Goto(position(word), name), at))
}

/// An ANSWER statement.
pub fn read_answered(
    alloc: Global,
    levels: u8,
    tokens: &[Token],
    at: usize,
) -> Result<(RawSimple, usize), Stop>
    requires { starts (behind tokens.now at) (kinds.Word words.Answer ∷ []) ≡ true }
    ensures { Gives (λ x. (x.0, behind tokens.now x.1)) result (read levels a_simple answered (behind tokens.now at)) }
{
    let (word, at) = taken(tokens, at, TokenKind::Word(Word::Answer));
    let (value, at) = read_boxed_expr(alloc, levels, tokens, at)?;
    Ok((RawSimple::Answer(position(word), value), at))
}

fn read_step_until(
    alloc: Global,
    levels: u8,
    tokens: &[Token],
    at: usize,
) -> Result<((Boxed<RawExpr>, Boxed<RawExpr>), usize), Stop>
    requires { starts (behind tokens.now at) (kinds.Word words.Step ∷ []) ≡ true }
    ensures { Gives (λ x. (x.0, behind tokens.now x.1)) result (read levels (a_pair an_expr an_expr) step_until (behind tokens.now at)) }
{
    let (_, at) = taken(tokens, at, TokenKind::Word(Word::Step));
    let (step, at) = read_boxed_expr(alloc, levels, tokens, at)?;
    let (_, at) = take_kind(tokens, at, TokenKind::Word(Word::Until))?;
    let (limit, at) = read_boxed_expr(alloc, levels, tokens, at)?;
    Ok(((step, limit), at))
}

fn stepped(first: Boxed<RawExpr>, parts: (Boxed<RawExpr>, Boxed<RawExpr>)) -> RawFelem
    ensures { result ≡ Step first parts.0 parts.1 }
{
    let (step, limit) = parts;
    RawFelem::Step(first, step, limit)
}

#[tactic(auto, unfolding(cw_grammar::specs::Statements::felem))]
fn read_felem(
    alloc: Global,
    levels: u8,
    tokens: &[Token],
    at: usize,
) -> Result<(RawFelem, usize), Stop>
    ensures { Gives (λ x. (x.0, behind tokens.now x.1)) result (read levels a_felem felem (behind tokens.now at)) }
{
    let (first, at) = read_boxed_expr(alloc, levels, tokens, at)?;
    if next_is(tokens, at, TokenKind::Word(Word::While)) {
        let (_, at) = taken(tokens, at, TokenKind::Word(Word::While));
        let (test, at) = read_boxed_condition(alloc, levels, tokens, at)?;
        return Ok((RawFelem::While(first, test), at));
    }
    if next_is(tokens, at, TokenKind::Word(Word::Step)) {
        let (parts, at) = read_step_until(alloc, levels, tokens, at)?;
        return Ok((stepped(first, parts), at));
    }
    Ok((RawFelem::One(first), at))
}

// Elements of FOR between commas.
fn read_felems(
    alloc: Global,
    levels: u8,
    tokens: &[Token],
    at: usize,
) -> Result<(List<RawFelem>, usize), Stop>
    ensures { Gives (λ x. (x.0, behind tokens.now x.1)) result (read levels (a_list a_felem) (commas felem) (behind tokens.now at)) }
{
    read_list(
        alloc,
        tokens,
        at,
        TokenKind::Symbol(Symbol::Comma),
        |at| read_felem(alloc, levels, tokens, at),
    )
}

/// Elements of FOR behind their assignment.
pub fn read_assigned_felems(
    alloc: Global,
    levels: u8,
    tokens: &[Token],
    at: usize,
) -> Result<(List<RawFelem>, usize), Stop>
    ensures { Gives (λ x. (x.0, behind tokens.now x.1)) result (read levels (a_list a_felem) assigned_felems (behind tokens.now at)) }
{
    let (_, at) = take_kind(tokens, at, TokenKind::Symbol(Symbol::Assign))?;
    let (elems, at) = read_felems(alloc, levels, tokens, at)?;
    Ok((elems, at))
}

/// A conditional statement of its parts.
pub fn if_form(
    item: Item,
    parts: (
        Boxed<RawCond>,
        ((List<RawName>, Boxed<RawSimple>), Option<Boxed<RawStmt>>),
    ),
) -> RawForm
    ensures { result ≡ if_tree (seen item.entry) parts }
{
    let (test, (then, second)) = parts;
    let (labels, first) = then;
    RawForm::If {
        at: position(item),
        test,
        labels,
        first,
        second,
    }
}

/// A FOR statement of its parts.
pub fn for_form(item: Item, parts: (Boxed<RawRef>, (List<RawFelem>, Boxed<RawStmt>))) -> RawForm
    ensures { result ≡ for_tree (seen item.entry) parts }
{
    let (variable, (elems, body)) = parts;
    RawForm::For {
        at: position(item),
        variable,
        elems,
        body,
    }
}

/// A procedure of its parts.
pub fn proc_decl(
    alloc: Global,
    answer: Option<RawType>,
    tag: RawPtag,
    name: RawName,
    params: List<RawParam>,
    body: Boxed<RawStmt>,
) -> Result<RawDecl, NoMemory>
    ensures { IfOk result (λ x. x ≡ Proc (proc_tree answer tag name params body)) }
{
    let proc = RawProc {
        answer,
        tag,
        name,
        params,
        body,
    };
    Ok(RawDecl::Proc(Boxed::new(alloc, proc)?))
}
