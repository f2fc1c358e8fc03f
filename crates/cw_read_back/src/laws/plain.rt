//! Laws of texts and of macros: each is a function without a body, whose contract is the law.
ghost use Rattle.std.specs.Prelude.{ℕ, ◌≤◌, List, length};
ghost use Rattle.cw_lex.specs.Lexical.{Lexeme};
ghost use Rattle.cw_macro.specs.Expansion.{Expands};
ghost use Rattle.cw_tree.specs.declared.segment.Raw.{Raw};
ghost use Rattle.cw_tokens.specs.Texts.{IsTreeOf};

/// The tokens of a text expand to themselves.
pub fn expands_to_itself()
    ensures { (n : ℕ) (ts : List Lexeme) (x : Raw) → length ts ≤ 65535 → IsTreeOf n ts x → Expands ts ts }
{}
