//! A token that was seen.
ghost use Rattle.std.specs.Prelude.{◌≡◌, ◌∷◌, [], true, Ok};
ghost use Rattle.cw_grammar.specs.Tokens.{behind, seen};
ghost use Rattle.cw_grammar.specs.Grammar.{starts};
ghost use Rattle.cw_grammar.specs.Reading.{take_one};

use cw_grammar::token::Item;
use cw_lex::{Token, TokenKind};

/// The token at a place, where one of this kind stands, and the place behind it.
pub fn taken<'a>(tokens: &[Token<'a>], at: usize, kind: TokenKind) -> (Item<'a>, usize)
    requires { starts (behind tokens.now at) (kind ∷ []) ≡ true }
    ensures { take_one kind (behind tokens.now at) ≡ Ok (seen result.0, behind tokens.now result.1) }
{
    prove!(at < tokens.len());
    let token = tokens[at];
    let item = Item {
        kind: token.kind,
        line: token.line,
        number: (at + 1).min(4294967295) as u32,
        text: token.text,
    };
    (item, at + 1)
}
