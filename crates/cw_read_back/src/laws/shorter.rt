//! Laws of the number of tokens of canonical text: each is a function without a body, whose contract is the law.
ghost use Rattle.std.specs.Prelude.{ℕ, ◌≤◌, List, length};
ghost use Rattle.cw_lex.specs.Lexical.{Lexeme};
ghost use Rattle.cw_tree.specs.declared.segment.Raw.{Raw};
ghost use Rattle.cw_tokens.specs.Texts.{IsTreeOf};
ghost use Rattle.cw_show.specs.StatementTokens.{canonical_tokens};

/// The canonical text of a text's tree has no more tokens than the text.
pub fn no_longer()
    ensures { (n : ℕ) (ts : List Lexeme) (raw : Raw) → IsTreeOf n ts raw → length (canonical_tokens raw) ≤ length ts }
{}
