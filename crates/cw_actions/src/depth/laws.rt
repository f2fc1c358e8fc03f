//! Laws of the units of texts.
ghost use Rattle.cw_actions.specs.Telling.{HasFewProcedures, ReportBoundsRuns};

use cw_compile::laws::one_outcome;
use cw_deepest::laws::linked::no_depth_stop;
use cw_sound::laws::expressions::units_fit;
use cw_sound::laws::texts::text_units;
use cw_sound::laws::trees::unit_counted;
use cw_tokens::laws::tokens_counted;

/// The procedures of a text's unit have numbers of two bytes: each takes four tokens of the text.
pub fn few_procedures()
    ensures { HasFewProcedures }
{
    one_outcome();
    tokens_counted();
    unit_counted();
}

/// The depth report of the units of texts is a bound of their runs.
pub fn report_bounds_runs()
    ensures { ReportBoundsRuns }
{
    text_units();
    units_fit();
    no_depth_stop();
}
