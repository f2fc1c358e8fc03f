//! Laws of what is told, each the contract of a function that does nothing.
ghost use Rattle.cw_trace.specs.Statements.{TellsOfBegun};

use cw_cpu86::laws::one_observation;
use cw_dec86::no_instruction_begins_another;

/// What is told of a run tells of the statements that it begins at the watched line.
pub fn reports_of_begun()
    ensures { TellsOfBegun }
{
    no_instruction_begins_another();
    one_observation();
}
