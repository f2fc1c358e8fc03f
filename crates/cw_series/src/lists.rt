//! Lists with a separator between any two items.
ghost use Rattle.std.specs.Prelude.{◌≡◌, Bool, [], ◌∷◌, List as Sequence};
ghost use Rattle.cw_grammar.specs.Tokens.{Item, behind, seen};
ghost use Rattle.cw_grammar.specs.Grammar.{starts};
ghost use Rattle.cw_grammar.specs.Reading.{Gives, Read, take_one};
ghost use Rattle.cw_series.specs.Series.{Reads, Tests, with_end, with_separators, in_round, if_bracketed, ended};

use cw_grammar::stop::Stop;
use cw_grammar::token::{Item as Taken, left, next_is, take_kind};
use cw_lex::{Symbol, Token, TokenKind};
use cw_word::List;
use std::alloc::Global;

/// What stands between any two items.
pub trait Separator: Copy {
    ghost begins: { Self → Sequence Item → Bool };

    ghost taken: { Self → Sequence Item → Read Item };

    /// Whether one comes next.
    fn is_next(self, tokens: &[Token], at: usize) -> bool
        ensures { result ≡ begins self (behind tokens.now at) };

    /// The one at a place, and the place behind it.
    fn take<'a>(self, tokens: &[Token<'a>], at: usize) -> Result<(Taken<'a>, usize), Stop>
        ensures { Gives (λ x. (seen x.0, behind tokens.now x.1)) result (taken self (behind tokens.now at)) };
}

impl Separator for TokenKind {
    ghost begins = { λ kind ts. starts ts (kind ∷ []) };

    ghost taken = { take_one };

    fn is_next(self, tokens: &[Token], at: usize) -> bool {
        next_is(tokens, at, self)
    }

    fn take<'a>(self, tokens: &[Token<'a>], at: usize) -> Result<(Taken<'a>, usize), Stop> {
        take_kind(tokens, at, self)
    }
}

/// What was read, where this token stands behind it, and the place behind that.
pub fn read_before<T: Drop>(
    tokens: &[Token],
    found: (T, usize),
    end: TokenKind,
) -> Result<(T, usize), Stop>
    ensures { Gives (λ x. (x.0, behind tokens.now x.1)) result (with_end found.0 end (behind tokens.now found.1)) }
{
    let (item, at) = found;
    let (_, at) = take_kind(tokens, at, end)?;
    Ok((item, at))
}

/// One item and those behind separators, each read by `read`.
pub fn read_list<S: Separator, T: Drop, F: Fn(usize) -> Result<(T, usize), Stop>>(
    alloc: Global,
    tokens: &[Token],
    at: usize,
    separator: S,
    read: F,
) -> Result<(List<T>, usize), Stop>
    requires { F.IsAlwaysCallable read }
    ensures { (item : Sequence Item → Read T) → Reads F.Fn read tokens.now item
        → Gives (λ x. (x.0, behind tokens.now x.1)) result (with_separators (S.begins separator) (S.taken separator) item (behind tokens.now at)) }
{
    let (first, at) = read(at)?;
    let mut found = List::first(alloc, first)?;
    let mut next = at;
    // Each item takes a token.
    let mut most = left(tokens, at);
    'more: while most > 0 {
        if !separator.is_next(tokens, next) {
            return Ok((found, next));
        }
        let (_, after) = separator.take(tokens, next)?;
        let (item, after) = read(after)?;
        found.push(item)?;
        next = after;
        most -= 1;
    }
    Ok((found, next))
}

/// The same in round brackets.
pub fn read_bracketed<S: Separator, T: Drop, F: Fn(usize) -> Result<(T, usize), Stop>>(
    alloc: Global,
    tokens: &[Token],
    at: usize,
    separator: S,
    read: F,
) -> Result<(List<T>, usize), Stop>
    requires { F.IsAlwaysCallable read }
    ensures { (item : Sequence Item → Read T) → Reads F.Fn read tokens.now item
        → Gives (λ x. (x.0, behind tokens.now x.1)) result (in_round (with_separators (S.begins separator) (S.taken separator) item) (behind tokens.now at)) }
{
    let (_, at) = take_kind(tokens, at, TokenKind::Symbol(Symbol::Open))?;
    let (found, at) = read_list(alloc, tokens, at, separator, read)?;
    let (_, at) = take_kind(tokens, at, TokenKind::Symbol(Symbol::Close))?;
    Ok((found, at))
}

/// The same, and no items where no bracket comes next.
pub fn read_listed<S: Separator, T: Drop, F: Fn(usize) -> Result<(T, usize), Stop>>(
    alloc: Global,
    tokens: &[Token],
    at: usize,
    separator: S,
    read: F,
) -> Result<(List<T>, usize), Stop>
    requires { F.IsAlwaysCallable read }
    ensures { (item : Sequence Item → Read T) → Reads F.Fn read tokens.now item
        → Gives (λ x. (x.0, behind tokens.now x.1)) result (if_bracketed (with_separators (S.begins separator) (S.taken separator) item) (behind tokens.now at)) }
{
    if next_is(tokens, at, TokenKind::Symbol(Symbol::Open)) {
        return read_bracketed(alloc, tokens, at, separator, read);
    }
    Ok((List::new(alloc), at))
}

/// Items with a token behind each, as long as one begins.
pub fn read_ended<T: Drop, P: Fn(usize) -> bool, F: Fn(usize) -> Result<(T, usize), Stop>>(
    alloc: Global,
    tokens: &[Token],
    at: usize,
    end: TokenKind,
    is_next: P,
    read: F,
) -> Result<(List<T>, usize), Stop>
    requires test { P.IsAlwaysCallable is_next }
    requires item { F.IsAlwaysCallable read }
    ensures { (begins : Sequence Item → Bool) (item : Sequence Item → Read T) → Tests P.Fn is_next tokens.now begins → Reads F.Fn read tokens.now item
        → Gives (λ x. (x.0, behind tokens.now x.1)) result (ended begins end item (behind tokens.now at)) }
{
    let mut found = List::new(alloc);
    let mut next = at;
    // Each item has a token behind it.
    let mut most = left(tokens, at);
    'more: while most > 0 {
        if !is_next(next) {
            return Ok((found, next));
        }
        let (item, after) = read(next)?;
        let (_, after) = take_kind(tokens, after, end)?;
        found.push(item)?;
        next = after;
        most -= 1;
    }
    Ok((found, next))
}
