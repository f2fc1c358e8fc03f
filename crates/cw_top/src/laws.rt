//! Laws of what a call of the command promises.
ghost use Rattle.cw_correct.specs.Correct.{HasOneStatus};
ghost use Rattle.cw_top.specs.Quits.{MayQuit};

use cw_actions::exec::laws as executing;
use cw_actions::go::laws as going;
use cw_actions::libraries::laws::{idle_of_libraries, one_status_of_libraries};
use cw_actions::results::laws as results;
use cw_actions::trace::laws as tracing;
use cw_words::laws::copies_told;

/// A call that did nothing for want of memory keeps its promise.
pub(crate) fn quits()
    ensures { MayQuit }
{
    going::idle();
    executing::idle();
    results::idle();
    idle_of_libraries();
    tracing::idle();
    copies_told();
}

/// Two statuses never come of one call, where the store tells its files, which are bytes, no count rose, and memory was found; and
/// where one is TooLong(Input), the source its input.
pub fn one_status()
    ensures { HasOneStatus }
{
    going::one_status_of_texts();
    executing::one_status_of_exec();
    results::one_status_of_results();
    one_status_of_libraries();
    tracing::one_status();
}
