//! Laws of the tokens that a tree is read from: each is a function without a body, whose contract is the law.
ghost use Rattle.std.specs.Prelude.{ℕ, ◌≤◌, List, length};
ghost use Rattle.cw_lex.specs.Lexical.{Lexeme};
ghost use Rattle.cw_tree.specs.declared.segment.Raw.{Raw};
ghost use Rattle.cw_tokens.specs.{Texts.IsTreeOf, TreeTokens.text_tokens};

/// A text has at least as many tokens as its tree counts.
pub fn tokens_counted()
    ensures { (n : ℕ) (ts : List Lexeme) (raw : Raw) → IsTreeOf n ts raw → text_tokens raw ≤ length ts }
{}
