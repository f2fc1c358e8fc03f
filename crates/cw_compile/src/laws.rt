//! Laws of what comes of a text.
ghost use Rattle.cw_compile.specs.Outcomes.{HasOneUnit, HasOneRefusal, HasNotBoth, HasFewTokens, CountsTokens};

use cw_lex::laws::lexical_structure;
use cw_macro::laws::macro_expansion;

/// A text has one unit or one first fault, and not both; its unit counts the tokens to which it expands, 65,535 at most.
pub fn one_outcome()
    ensures one_unit { HasOneUnit }
    ensures one_refusal { HasOneRefusal }
    ensures not_both { HasNotBoth }
    ensures few { HasFewTokens }
    ensures tokens { CountsTokens }
{
    lexical_structure();
    macro_expansion();
}
