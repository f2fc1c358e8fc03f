// From a text to its tree.
ghost use Rattle.std.specs.Prelude.{◌≡◌, ◌≤◌, ℕ, List as Sequence, length, map, IfOk, IfErr};
ghost use Rattle.cw_lex.specs.declared.token.Form.TheVariants.{Source};
ghost use Rattle.cw_lex.specs.Lexical.{view, first_place, Tokenizes};
ghost use Rattle.cw_macro.specs.Premises.{AreOfText};
ghost use Rattle.cw_compile.specs.Texts.{text_limit, ExpandsTo, HasTree, IsFaultOf};

use crate::fault::{Refusal, UnitFault};
use cw_grammar::fault::ParseFault;
use cw_lex::{LexFault, Token, lex};
use cw_macro::{MacroFault, expand};
use cw_parse::parse;
use cw_tree::segment::Raw;
use std::alloc::Global;

// The tree of the tokens that those of a text expand to.
fn tree_of_expanded(alloc: Global, tokens: &[Token<'_>]) -> Result<Raw, UnitFault>
    requires few { length tokens.now ≤ 65535 }
    ensures tree { (text : Sequence ℕ) → ExpandsTo text (map view tokens.now) → IfOk result (λ raw. HasTree text raw) }
    ensures fault { (text : Sequence ℕ) → ExpandsTo text (map view tokens.now) → IfErr result (λ fault. IsFaultOf text fault) }
{
    match parse(alloc, tokens) {
        Ok(raw) => Ok(raw),
        Err(ParseFault::NoMemory) => Err(UnitFault::NoMemory),
        Err(fault) => Err(UnitFault::Refused(Refusal::Parse(fault))),
    }
}

// The tree of the tokens of a text.
fn tree_of_tokens(alloc: Global, tokens: &[Token<'_>]) -> Result<Raw, UnitFault>
    requires { AreOfText (map view tokens.now) }
    ensures tree { (text : Sequence ℕ) → Tokenizes Source first_place text (map view tokens.now) → IfOk result (λ raw. HasTree text raw) }
    ensures fault { (text : Sequence ℕ) → Tokenizes Source first_place text (map view tokens.now) → IfErr result (λ fault. IsFaultOf text fault) }
{
    match expand(alloc, tokens) {
        Ok(expanded) => tree_of_expanded(alloc, expanded.as_slice()),
        Err(MacroFault::NoMemory) => Err(UnitFault::NoMemory),
        Err(fault) => Err(UnitFault::Refused(Refusal::Macro(fault))),
    }
}

/// The tree of a text.
pub(crate) fn tree_of(alloc: Global, text: &[u8]) -> Result<Raw, UnitFault>
    requires { length text.now ≤ text_limit }
    ensures tree { IfOk result (λ raw. HasTree text.now raw) }
    ensures fault { IfErr result (λ fault. IsFaultOf text.now fault) }
{
    match lex(alloc, text) {
        Ok(tokens) => tree_of_tokens(alloc, tokens.as_slice()),
        Err(LexFault::NoMemory) => Err(UnitFault::NoMemory),
        Err(fault) => Err(UnitFault::Refused(Refusal::Lex(fault))),
    }
}
