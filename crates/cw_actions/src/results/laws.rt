//! Laws of what the actions promise that run nothing.
ghost use Rattle.cw_actions.specs.Resulting.Idle.{AllowsIdle};
ghost use Rattle.cw_actions.specs.Resulting.OneStatus.{AllowsOneStatus};
ghost use Rattle.cw_actions.specs.Resulting.Laws.{OfResults};

use crate::texts::known_texts;
use cw_view::laws::object_format;

/// Where memory is wanted, a call may do nothing but say so.
pub fn idle()
    ensures { OfResults AllowsIdle }
{
    known_texts();
}

/// Two statuses never come of one call, where the store tells its files, which are bytes, no count rose, and memory was found.
pub fn one_status_of_results()
    ensures { OfResults AllowsOneStatus }
{
    known_texts();
    object_format();
}
