//! The expression at a place.
ghost use Rattle.std.specs.Prelude.{◌≡◌, ◌≤◌, ◌-◌, List as Sequence, length, IfOk, IfErr};
ghost use Rattle.cw_tree.specs.declared.expression.RawExpr.{RawExpr as Tree};
ghost use Rattle.cw_grammar.specs.Tokens.{Item, behind};
ghost use Rattle.cw_grammar.specs.Grammar.{an_expr};
ghost use Rattle.cw_grammar.specs.Rules.{expr};
ghost use Rattle.cw_grammar.specs.Parsing.{IsLongestText, IsFault, IsReadOrMemory};

use crate::reading::read_expr;
use cw_grammar::fault::{ParseFault, deep_fault, syntax_fault};
use cw_grammar::stop::Stop;
use cw_grammar::token::left;
use cw_lex::Token;
use cw_tree::expression::RawExpr;
use std::alloc::Global;

/// The expression from a place on, as far as the tokens are the front of one, and the place behind it. `level` levels are
/// open there, and 64 may be.
pub fn parse_expr(
    alloc: Global,
    tokens: &[Token],
    from: usize,
    level: u8,
) -> Result<(RawExpr, usize), ParseFault>
    requires few { length tokens.now ≤ 65535 }
    requires place { from ≤ length tokens.now }
    requires levels { level ≤ 64 }
    // The longest front is an expression, and this is its tree.
    ensures read { IfOk result (λ x. IsLongestText (64 - level) an_expr expr (behind tokens.now from) x.0 (behind tokens.now x.1)) }
    ensures place { IfOk result (λ x. x.1 ≤ length tokens.now) }
    // Where the longest front is an expression within the levels, it is read, unless memory runs out.
    ensures all { (x : Tree) (rest : Sequence Item)
        → IsLongestText (64 - level) an_expr expr (behind tokens.now from) x rest
        → IsReadOrMemory x rest tokens.now result }
    // Else the first fault stands behind it, or where a level too many opens.
    ensures fault { IfErr result (λ f. IsFault (64 - level) an_expr expr tokens.now from f) }
{
    match read_expr(alloc, 64 - level, tokens, from) {
        Ok((expr, at)) => Ok((expr, tokens.len() - left(tokens, at))),
        Err(Stop::Memory) => Err(ParseFault::NoMemory),
        Err(Stop::Syntax(left)) => Err(syntax_fault(tokens, tokens.len() - left)),
        Err(Stop::Deep(left)) => Err(deep_fault(tokens, tokens.len() - left)),
    }
}
