//! The expansion of a list of tokens.
ghost use Rattle.std.specs.Prelude.{◌≡◌, ◌∷◌, [], ◌++◌, ◌+◌, ◌<◌, ◌≤◌, ◌^◌, slice_get, length, map, OnOk, IfOk, Some};
ghost use Rattle.std.specs.List.{flat_map, list_all};
ghost use Rattle.cw_lex.specs.Lexical.{view};
ghost use Rattle.cw_word.specs.Name.{IsName};
ghost use Rattle.cw_macro.specs.Expansion.{Expansion as ExpansionOf, brought, replacement, tokens_of, Parameter, step_at};
ghost use Rattle.cw_macro.specs.Expansion.{moving, defining, heading_of, deleting, naming, name_of, start, IsExpansion};
ghost use Rattle.cw_macro.specs.Premises.{Each, IsPlaced, AreOfText};
ghost use Rattle.cw_macro.specs.Views.{left_of, leveled, lists_of, picked, parts_at, parts_of, is_nil, within_limit};
ghost use Rattle.cw_macro.specs.Views.{macro_view, table_of, expansion_of, IsMade, IsCounted};

use crate::arguments::read_argument_list;
use crate::definition::{
    Definitions, Macro, Piece, Run, is_name, is_semicolon, read_body, read_heading,
};
use crate::fault::{MOST_LEVELS, MOST_REPLACED, MOST_TOKENS, MacroFault};
use crate::left::{Item, Left};
use cw_lex::{Token, TokenKind, Word};
use cw_word::{List, NoMemory};
use std::alloc::Global;

// A token as a call brings it.
fn brought<'a>(call: Item<'a>, item: Item<'a>) -> Item<'a>
    requires { call.level < MOST_LEVELS }
    ensures { leveled result ≡ brought (leveled call.entry) (leveled item.entry) }
{
    Item {
        token: Token {
            line: call.token.line,
            ..item.token
        },
        level: item.level.max(call.level + 1),
    }
}

// Puts an argument in front of the tokens left, as the call brings it.
fn put_argument<'a>(
    left: &mut Left<'a>,
    call: Item<'a>,
    argument: &[Item<'a>],
) -> Result<(), NoMemory>
    requires { call.level < MOST_LEVELS }
    ensures { OnOk result (left_of left.new ≡ map (brought (leveled call.entry)) (map leveled argument.now) ++ left_of left.old) }
{
    let mut at = argument.len();
    while at > 0 {
        at -= 1;
        left.put(brought(call, argument[at]))?;
    }
    Ok(())
}

// Puts what stands for a parameter in front of the tokens left.
fn put_parameter<'a>(
    left: &mut Left<'a>,
    call: Item<'a>,
    number: usize,
    arguments: &[List<Item<'a>>],
) -> Result<(), NoMemory>
    requires { call.level < MOST_LEVELS }
    ensures { OnOk result (left_of left.new ≡ map (brought (leveled call.entry)) (tokens_of (lists_of arguments.now) (Parameter number)) ++ left_of left.old) }
{
    match arguments.get(number) {
        Some(argument) => put_argument(left, call, argument.as_slice()),
        None => Ok(()),
    }
}

// The same for a parameter of a run.
fn put_pick<'a>(
    left: &mut Left<'a>,
    call: Item<'a>,
    numbers: &[usize],
    pick: usize,
    arguments: &[List<Item<'a>>],
) -> Result<(), NoMemory>
    requires { call.level < MOST_LEVELS }
    ensures { OnOk result (left_of left.new
        ≡ replacement (leveled call.entry) (picked (slice_get numbers.now pick)) (lists_of arguments.now)
        ++ left_of left.old) }
{
    match numbers.get(pick) {
        Some(number) => put_parameter(left, call, *number, arguments),
        None => Ok(()),
    }
}

// The same for a whole run.
fn put_run<'a>(
    left: &mut Left<'a>,
    call: Item<'a>,
    numbers: &[usize],
    picks: &[usize],
    arguments: &[List<Item<'a>>],
) -> Result<(), NoMemory>
    requires { call.level < MOST_LEVELS }
    ensures { OnOk result (left_of left.new ≡ replacement (leveled call.entry) (parts_at numbers.now picks.now) (lists_of arguments.now) ++ left_of left.old) }
{
    let mut at = picks.len();
    while at > 0 {
        at -= 1;
        put_pick(left, call, numbers, picks[at], arguments)?;
    }
    Ok(())
}

fn is_without_tokens(arguments: &[List<Item<'_>>], number: usize) -> bool
    ensures { result ≡ is_nil (tokens_of (lists_of arguments.now) (Parameter number)) }
{
    match arguments.get(number) {
        Some(argument) => argument.as_slice().is_empty(),
        None => true,
    }
}

// Whether all arguments of a run are empty. A run is skipped by this look at its numbers.
fn brings_nothing(run: &Run, arguments: &[List<Item<'_>>]) -> bool
    ensures { result ≡ list_all (λ k. is_nil (tokens_of (lists_of arguments.now) (Parameter k))) run.now.numbers }
{
    let numbers = run.numbers.as_slice();
    numbers
        .iter()
        .all(|number| is_without_tokens(arguments, *number))
}

// The same for a piece of the body.
fn put_piece<'a>(
    left: &mut Left<'a>,
    call: Item<'a>,
    piece: &Piece<'a>,
    arguments: &[List<Item<'a>>],
) -> Result<(), NoMemory>
    requires { call.level < MOST_LEVELS }
    ensures { OnOk result (left_of left.new ≡ replacement (leveled call.entry) (parts_of piece.now) (lists_of arguments.now) ++ left_of left.old) }
{
    match piece {
        Piece::Own(token) => left.put(brought(
            call,
            Item {
                token: *token,
                level: 0,
            },
        )),
        Piece::Parameters(parameters) => {
            if brings_nothing(parameters, arguments) {
                return Ok(());
            }
            put_run(
                left,
                call,
                parameters.numbers.as_slice(),
                parameters.picks.as_slice(),
                arguments,
            )
        }
    }
}

// Puts what stands for a call in front of the tokens left.
fn replace<'a>(
    left: &mut Left<'a>,
    call: Item<'a>,
    body: &[Piece<'a>],
    arguments: &[List<Item<'a>>],
) -> Result<(), NoMemory>
    requires { call.level < MOST_LEVELS }
    ensures { OnOk result (left_of left.new ≡ replacement (leveled call.entry) (flat_map parts_of body.now) (lists_of arguments.now) ++ left_of left.old) }
{
    let mut at = body.len();
    while at > 0 {
        at -= 1;
        put_piece(left, call, &body[at], arguments)?;
    }
    Ok(())
}

// How many tokens stand for a parameter of a run.
fn length_of(numbers: &[usize], pick: usize, arguments: &[List<Item<'_>>]) -> usize
    ensures length { result ≡ length (flat_map (tokens_of (lists_of arguments.now)) (picked (slice_get numbers.now pick))) }
    ensures small { result < 2 ^ 63 }
{
    let Some(number) = numbers.get(pick) else {
        return 0;
    };
    match arguments.get(*number) {
        Some(argument) => argument.as_slice().len(),
        None => 0,
    }
}

// The count behind what stands for a run, within the limit. It stops where the limit is passed.
fn count_run(
    count: usize,
    numbers: &[usize],
    picks: &[usize],
    arguments: &[List<Item<'_>>],
) -> Option<usize>
    requires { count ≤ MOST_REPLACED }
    ensures { result ≡ within_limit (count + length (flat_map (tokens_of (lists_of arguments.now)) (parts_at numbers.now picks.now))) }
{
    let mut count = count;
    for pick in picks {
        count += length_of(numbers, *pick, arguments);
        if count > MOST_REPLACED {
            return None;
        }
    }
    Some(count)
}

// The same for a piece of the body.
fn count_piece(count: usize, piece: &Piece<'_>, arguments: &[List<Item<'_>>]) -> Option<usize>
    requires { count ≤ MOST_REPLACED }
    ensures { result ≡ within_limit (count + length (flat_map (tokens_of (lists_of arguments.now)) (parts_of piece.now))) }
{
    match piece {
        Piece::Own(_) => {
            if count < MOST_REPLACED {
                Some(count + 1)
            } else {
                None
            }
        }
        Piece::Parameters(parameters) => {
            if brings_nothing(parameters, arguments) {
                return Some(count);
            }
            count_run(
                count,
                parameters.numbers.as_slice(),
                parameters.picks.as_slice(),
                arguments,
            )
        }
    }
}

// The count behind a replacement, within the limit.
fn count_behind(count: usize, body: &[Piece<'_>], arguments: &[List<Item<'_>>]) -> Option<usize>
    requires { count < 2 ^ 63 }
    ensures { result ≡ within_limit (count + 1 + length (flat_map (tokens_of (lists_of arguments.now)) (flat_map parts_of body.now))) }
{
    let mut count = count + 1;
    if count > MOST_REPLACED {
        return None;
    }
    for piece in body {
        match count_piece(count, piece, arguments) {
            Some(more) => count = more,
            None => return None,
        }
    }
    Some(count)
}

// Replaces a call, and gives the new count.
fn call<'a>(
    alloc: Global,
    left: &mut Left<'a>,
    count: usize,
    item: Item<'a>,
    definition: &Macro<'a>,
) -> Result<usize, MacroFault>
    requires { count < 2 ^ 63 }
    ensures { (e : ExpansionOf) → e.count ≡ count
        → IsCounted e (naming e (leveled item.entry) (Some (macro_view definition.now)) (left_of left.old)) result
        (left_of left.new) }
{
    let line = item.token.line;
    if item.level >= MOST_LEVELS {
        return Err(MacroFault::TooDeep { line });
    }
    let Some(arguments) = read_argument_list(alloc, definition.parameters, left)? else {
        return Err(MacroFault::BadCall { line });
    };
    let arguments = arguments.as_slice();
    let body = definition.body.as_slice();
    let Some(count) = count_behind(count, body, arguments) else {
        return Err(MacroFault::TooLong { line });
    };
    replace(left, item, body, arguments)?;
    Ok(count)
}

/// The tokens done, the definitions in force, and the tokens left.
#[derive(Drop)]
struct Expansion<'a> {
    done: List<Token<'a>>,
    definitions: Definitions<'a>,
    left: Left<'a>,
    // The tokens of the text, with one and the tokens of its replacement for each replaced call.
    count: usize,
}

impl<'a> Expansion<'a> {
    fn new(alloc: Global, tokens: &[Token<'a>]) -> Result<Expansion<'a>, NoMemory>
        ensures { IfOk result (λ e. expansion_of e ≡ start (map view tokens.now)) }
    {
        // Most texts have few macros, so there is room for their own tokens at once.
        let room = tokens.len().min(MOST_TOKENS);
        let left = Left::of_text(alloc, tokens)?;
        let done = Vec::with_capacity(alloc, room).map_err(|_| NoMemory)?;
        Ok(Expansion {
            done: List::of(done),
            definitions: Definitions::new(alloc),
            left,
            count: tokens.len(),
        })
    }

    // Moves a token to those done.
    fn keep(&mut self, item: Item<'a>) -> Result<(), MacroFault>
        ensures { let e = expansion_of self.old in IsMade e (moving e (leveled item.entry) e.left) result (expansion_of self.new) }
    {
        if self.done.as_slice().len() >= MOST_TOKENS {
            return Err(MacroFault::TooLong {
                line: item.token.line,
            });
        }
        self.done.push(item.token)?;
        Ok(())
    }

    // Takes a definition, behind its DEFINE on the line.
    fn define(&mut self, alloc: Global, line: u32) -> Result<(), MacroFault>
        requires { Each IsPlaced (left_of self.old.left) }
        ensures { let e = expansion_of self.old in IsMade e (defining line (heading_of line e.left)) result (expansion_of self.new) }
    {
        let Some(heading) = read_heading(alloc, &mut self.left)? else {
            return Err(MacroFault::BadDefine { line });
        };
        let Some(body) = read_body(alloc, heading.string, &heading.parameters)? else {
            return Err(MacroFault::BadDefine { line });
        };
        let parameters = heading.parameters.len();
        self.definitions
            .define(heading.name, Macro { parameters, body })?;
        Ok(())
    }

    // Takes the rest of a DELETE on the line.
    fn delete(&mut self, line: u32) -> Result<(), MacroFault>
        requires { Each IsPlaced (left_of self.old.left) }
        ensures { let e = expansion_of self.old in IsMade e (deleting e line e.left) result (expansion_of self.new) }
    {
        let Some((name, mark)) = self.left.take_pair() else {
            return Err(MacroFault::BadDefine { line });
        };
        if !is_name(name.token.kind) || !is_semicolon(mark.token.kind) {
            return Err(MacroFault::BadDefine { line });
        }
        if !self.definitions.remove(name.token.text) {
            return Err(MacroFault::NoSuchMacro { line });
        }
        Ok(())
    }

    // Replaces a call, or moves a name that is none.
    fn name(&mut self, alloc: Global, item: Item<'a>) -> Result<(), MacroFault>
        requires is_name { IsName (name_of (view item.token)) }
        requires small { self.old.count < 2 ^ 63 }
        ensures { let e = expansion_of self.old
            in IsMade e (naming e (leveled item.entry) (e.definitions (name_of (view item.entry.token))) e.left)
            result (expansion_of self.new) }
    {
        match self.definitions.get(item.token.text) {
            Some(definition) => {
                match call(alloc, &mut self.left, self.count, item, definition) {
                    Ok(count) => {
                        self.count = count;
                        Ok(())
                    }
                    Err(fault) => Err(fault),
                }
            }
            None => self.keep(item),
        }
    }

    // Does the step of a token, which is taken from those left.
    fn step(&mut self, alloc: Global, item: Item<'a>) -> Result<(), MacroFault>
        requires item { IsPlaced (leveled item) }
        requires left { Each IsPlaced (left_of self.old.left) }
        requires small { self.old.count < 2 ^ 63 }
        ensures { let e = expansion_of self.old in IsMade e (step_at e (leveled item.entry) e.left item.entry.token.kind) result (expansion_of self.new) }
    {
        match item.token.kind {
            TokenKind::Word(Word::Define) => self.define(alloc, item.token.line),
            TokenKind::Word(Word::Delete) => self.delete(item.token.line),
            TokenKind::Name => self.name(alloc, item),
            _ => self.keep(item),
        }
    }
}

/// The tokens that the tokens of a text of at most 1,048,576 bytes expand to. Each is a slice of the text.
pub fn expand<'a>(alloc: Global, tokens: &[Token<'a>]) -> Result<List<Token<'a>>, MacroFault>
    requires { AreOfText (map view tokens.now) }
    ensures { IsExpansion (map view tokens.now) result }
{
    let mut expansion = Expansion::new(alloc, tokens)?;
    'steps: while let Some(item) = expansion.left.take() {
        expansion.step(alloc, item)?;
    }
    Ok(expansion.done)
}
