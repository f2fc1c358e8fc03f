//! The arguments of a call.
ghost use Rattle.std.specs.Prelude.{◌≡◌, ◌∷◌, [], ◌++◌, ℕ, ◌<◌, map, reverse, length, MatchOption, OnOk, IfOk, Some, None};
ghost use Rattle.cw_macro.specs.Expansion.{role_of, innermost, open_behind, is_open, arguments, argument_list};
ghost use Rattle.cw_macro.specs.Views.{left_of, leveled, lists_of, IsGiven};

use crate::left::{Item, Left};
use cw_lex::{Symbol, TokenKind};
use cw_word::{List, NoMemory};
use std::alloc::Global;
use std::mem;

/// A kind of brackets.
#[derive(Clone, Copy)]
pub(crate) enum Bracket {
    Round,
    Square,
}

/// What a token is inside an argument.
#[derive(Clone, Copy)]
pub(crate) enum Role {
    /// It belongs to the argument.
    Inside,
    /// It is the comma behind the argument.
    Separates,
    /// It is the bracket behind the last argument.
    Ends,
    /// It is a closing bracket without its opening one.
    Mismatched,
}

pub(crate) fn is_open(kind: TokenKind) -> bool
    ensures { result ≡ is_open kind }
{
    matches!(kind, TokenKind::Symbol(Symbol::Open))
}

fn role_of(innermost: Option<Bracket>, kind: TokenKind) -> Role
    ensures { result ≡ role_of innermost kind }
{
    match (innermost, kind) {
        (None, TokenKind::Symbol(Symbol::Comma)) => Role::Separates,
        (None, TokenKind::Symbol(Symbol::Close)) => Role::Ends,
        (None | Some(Bracket::Round), TokenKind::Symbol(Symbol::CloseSquare)) => {
            Role::Mismatched
        }
        (Some(Bracket::Square), TokenKind::Symbol(Symbol::Close)) => Role::Mismatched,
        _ => Role::Inside,
    }
}

// The last of the open brackets.
fn innermost(brackets: &[Bracket]) -> Option<Bracket>
    ensures { result ≡ innermost (reverse brackets.now) }
{
    brackets.last().copied()
}

// Keeps the open brackets, the innermost last.
fn track(brackets: &mut Vec<Bracket>, kind: TokenKind) -> Result<(), NoMemory>
    ensures { OnOk result (reverse brackets.new.items ≡ open_behind kind (reverse brackets.old.items)) }
{
    match kind {
        TokenKind::Symbol(Symbol::Open) => brackets.push(Bracket::Round).map_err(|_| NoMemory),
        TokenKind::Symbol(Symbol::OpenSquare) => {
            brackets.push(Bracket::Square).map_err(|_| NoMemory)
        }
        TokenKind::Symbol(Symbol::Close | Symbol::CloseSquare) => {
            let _ = brackets.pop();
            Ok(())
        }
        _ => Ok(()),
    }
}

// Adds a token to the argument at hand.
fn keep_inside<'a>(
    argument: &mut List<Item<'a>>,
    brackets: &mut Vec<Bracket>,
    item: Item<'a>,
) -> Result<(), NoMemory>
    ensures argument { OnOk result (map leveled argument.new ≡ map leveled argument.old ++ leveled item.entry ∷ []) }
    ensures brackets { OnOk result (reverse brackets.new.items ≡ open_behind item.entry.token.kind (reverse brackets.old.items)) }
{
    track(brackets, item.token.kind)?;
    argument.push(item)
}

// The arguments behind an opening bracket, up to the closing one.
fn read_arguments<'a>(
    alloc: Global,
    left: &mut Left<'a>,
) -> Result<Option<List<List<Item<'a>>>>, NoMemory>
    ensures { IfOk result (λ read. MatchOption read (arguments [] (left_of left.old) ≡ None)
        (λ given. IsGiven (lists_of given) (left_of left.new) (arguments [] (left_of left.old)))) }
{
    let mut given = List::new(alloc);
    let mut argument = List::new(alloc);
    let mut brackets = Vec::new(alloc);
    while let Some(item) = left.take() {
        match role_of(innermost(&brackets), item.token.kind) {
            Role::Inside => keep_inside(&mut argument, &mut brackets, item)?,
            Role::Separates => {
                given.push(mem::replace(&mut argument, List::new(alloc)))?;
            }
            Role::Ends => {
                given.push(argument)?;
                return Ok(Some(given));
            }
            Role::Mismatched => return Ok(None),
        }
    }
    Ok(None)
}

/// The arguments of a call of a macro with so many parameters, where they are of the form.
pub(crate) fn read_argument_list<'a>(
    alloc: Global,
    parameters: usize,
    left: &mut Left<'a>,
) -> Result<Option<List<List<Item<'a>>>>, NoMemory>
    ensures { IfOk result (λ read. MatchOption read (argument_list parameters (left_of left.old) ≡ None)
        (λ given. argument_list parameters (left_of left.old) ≡ Some (lists_of given, left_of left.new))) }
{
    if parameters == 0 {
        return Ok(Some(List::new(alloc)));
    }
    match left.take() {
        Some(item) if is_open(item.token.kind) => {}
        _ => return Ok(None),
    }
    match read_arguments(alloc, left)? {
        Some(given) if given.as_slice().len() == parameters => Ok(Some(given)),
        _ => Ok(None),
    }
}
