//! Laws of the promise.
ghost use Rattle.cw_actions.specs.Executing.Laws.{IsRightIdle, HasOneStatus};

use cw_cpu86::laws::{one_observation, one_start};

/// A call that did nothing for want of memory keeps its promise.
#[tactic(auto, using(crate::proofs::Executing::Right::idle))]
pub fn idle()
    ensures { IsRightIdle }
{}

/// Two statuses never come of one call of `exec`, where all that it needs is told.
pub fn one_status_of_exec()
    ensures { HasOneStatus }
{
    one_start();
    one_observation();
}
