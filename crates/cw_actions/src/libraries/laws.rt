//! Laws of what `lib` and `link` promise.
ghost use Rattle.cw_actions.specs.Resulting.Idle.{AllowsIdle};
ghost use Rattle.cw_actions.specs.Resulting.OneStatus.{AllowsOneStatus};
ghost use Rattle.cw_actions.specs.Resulting.Laws.{OfLibraries};

use cw_lib::laws::library_format;
use cw_link_files::laws::one_link_list;
use cw_view::laws::object_format;

/// Where memory is wanted, a call may do nothing but say so.
pub fn idle_of_libraries()
    ensures { OfLibraries AllowsIdle }
{
    library_format();
    one_link_list();
}

/// Two statuses never come of one call, where the store tells its files, which are bytes, no count rose, and memory was found.
pub fn one_status_of_libraries()
    ensures { OfLibraries AllowsOneStatus }
{
    object_format();
    library_format();
    one_link_list();
}
