//! Laws of the tokens of texts: each is a function without a body, whose contract is the law.
ghost use Rattle.std.specs.Prelude.{ℕ, List, All};
ghost use Rattle.cw_lex.specs.declared.token.Form.TheVariants.{Source};
ghost use Rattle.cw_lex.specs.Lexical.{Lexeme, Tokenizes, first_place};
ghost use Rattle.cw_macro.specs.Expansion.{Expands};
ghost use Rattle.cw_spelled.specs.Proper.{IsProperToken};

/// Each token of what a text expands to is spelled as its kind asks.
pub fn spelled()
    ensures { (text : List ℕ) (tokens expanded : List Lexeme) → Tokenizes Source first_place text tokens
        → Expands tokens expanded → All IsProperToken expanded }
{}
