//! Laws of the canonical text of a text: each is a function without a body, whose contract is the law.
ghost use Rattle.std.specs.Prelude.{ℕ, List, All};
ghost use Rattle.cw_lex.specs.Lexical.{Lexeme};
ghost use Rattle.cw_macro.specs.Expansion.{Expands};
ghost use Rattle.cw_spelled.specs.Proper.{IsProperToken};
ghost use Rattle.cw_tree.specs.declared.segment.Raw.{Raw};
ghost use Rattle.cw_tokens.specs.Texts.{IsTreeOf};
ghost use Rattle.cw_show.specs.StatementTokens.{canonical_tokens};
ghost use Rattle.cw_read_back.specs.Expressions.Leaves.{HasSpelledLeaves};
ghost use Rattle.cw_read_back.specs.Trees.ReadBack.{IsReadBack};
ghost use Rattle.cw_compile.specs.Texts.{HasTree, most_levels};

use crate::laws::shorter::no_longer;
use crate::laws::trees::read_back;
use cw_derived::laws::in_normal_form;
use cw_spelled::laws::spelled;

/// Names, strings and literals of a tree whose tokens are spelled right can be written again.
pub fn leaves_spelled()
    ensures { (n : ℕ) (ts : List Lexeme) (raw : Raw) → All IsProperToken ts
        → IsTreeOf n ts raw → HasSpelledLeaves (canonical_tokens raw) }
{}

/// The canonical text of a text's tree has that tree again, but for its positions, and its tokens expand to themselves.
pub fn texts_read_back()
    ensures { (text : List ℕ) (raw : Raw) → HasTree text raw → (back : IsReadBack most_levels raw) × Expands back.tokens back.tokens }
{
    spelled();
    in_normal_form();
    leaves_spelled();
    read_back();
    no_longer();
}
