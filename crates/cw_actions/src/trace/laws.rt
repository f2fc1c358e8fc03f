//! What a call of `trace` promises, from how it goes; and that no two statuses come of one call.
ghost use Rattle.cw_actions.specs.Tracing.Laws.{KeepsStopped, KeepsFault, KeepsRun, IsRightIdle, HasOneStatus};

use crate::go::laws::promises;
use crate::texts::known_texts;
use cw_build_laws::laws::images::loaded;
use cw_cpu86::laws::{one_observation, one_start};
use cw_traced::laws::places::reported;
use cw_unit::laws::configurations;

/// A call that goes so up to its closing line, and is closed so, keeps its promise.
pub fn traces()
    ensures stopped { KeepsStopped }
    ensures fault { KeepsFault }
    ensures run { KeepsRun }
    ensures idle { IsRightIdle }
{
    promises();
    known_texts();
    loaded();
    configurations();
    reported();
}

/// A call that did nothing but for its closing line, for want of memory, keeps its promise.
pub fn idle()
    ensures { IsRightIdle }
{
    traces();
}

/// Two statuses never come of one call of `trace`, where the store tells its files, no count rose, and memory was found; and where one is
/// TooLong(Input), the source its input.
pub fn one_status()
    ensures { HasOneStatus }
{
    known_texts();
    one_start();
    one_observation();
}
