//! Parts of a tree that stand in lists.
ghost use Rattle.std.specs.Prelude.{map};
ghost use Rattle.cw_show.specs.Adding.{Adds};
ghost use Rattle.cw_show.specs.Spelling.{symbol as symbol_token};
ghost use Rattle.cw_show.specs.Canonical.{Tokens, between, bracketed, ended, listed};

use crate::token::put_symbol;
use crate::written::Text;
use cw_lex::Symbol;

/// A part of a tree that has canonical tokens of its own.
pub trait Part {
    ghost tokens: { Self → Tokens };

    /// Adds its tokens.
    fn put(&self, out: &mut Text)
        ensures { Adds out.old out.new (tokens self.now) };
}

/// Adds parts with a symbol between any two.
pub fn put_between<T: Part>(out: &mut Text, symbol: Symbol, parts: &[T])
    ensures { Adds out.old out.new (between (symbol_token symbol) (map T.tokens parts.now)) }
{
    match parts {
        [] => {}
        [first, rest @ ..] => {
            first.put(out);
            for part in rest {
                put_symbol(out, symbol);
                part.put(out);
            }
        }
    }
}

/// Adds parts in round brackets with a symbol between any two.
pub fn put_bracketed<T: Part>(out: &mut Text, symbol: Symbol, parts: &[T])
    ensures { Adds out.old out.new (bracketed (between (symbol_token symbol) (map T.tokens parts.now))) }
{
    put_symbol(out, Symbol::Open);
    put_between(out, symbol, parts);
    put_symbol(out, Symbol::Close);
}

/// The same, and nothing where there is no part.
pub fn put_listed<T: Part>(out: &mut Text, symbol: Symbol, parts: &[T])
    ensures { Adds out.old out.new (listed (symbol_token symbol) (map T.tokens parts.now)) }
{
    match parts {
        [] => {}
        [_, ..] => put_bracketed(out, symbol, parts),
    }
}

/// Adds parts with a semicolon behind each.
pub fn put_ended<T: Part>(out: &mut Text, parts: &[T])
    ensures { Adds out.old out.new (ended (map T.tokens parts.now)) }
{
    for part in parts {
        part.put(out);
        put_symbol(out, Symbol::Semicolon);
    }
}
