//! What is known of texts and of their units.
ghost use Rattle.cw_actions.specs.Resulting.Texts.{OneOfText, AreCompilable, HasSizes};

use cw_build::laws::linked_units;
use cw_compile::laws::one_outcome;
use cw_texts::laws::compiled_units;

/// What comes of a text is one thing; the units of texts can be compiled, and their code is no longer than their tokens allow.
pub(crate) fn known_texts()
    ensures one { OneOfText }
    ensures compiled { AreCompilable }
    ensures sizes { HasSizes }
{
    one_outcome();
    compiled_units();
    linked_units();
}
