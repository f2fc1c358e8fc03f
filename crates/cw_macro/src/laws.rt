//! Laws of the definitions, for whoever proves something about expanded tokens: each is a function that does nothing, whose contract is the law.
ghost use Rattle.cw_macro.specs.Expansion.{HasOneOutcome};

use cw_lex::laws::lexical_structure;

/// Tokens determine what they expand to, or the first fault of their expansion.
pub fn macro_expansion()
    ensures { HasOneOutcome }
{
    lexical_structure();
}
