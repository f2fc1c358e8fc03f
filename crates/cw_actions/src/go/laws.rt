//! What a call promises that runs texts, from how it goes; and that no two statuses come of one call.
ghost use Rattle.cw_actions.specs.Going.Apart.{LinksWhatRuns, LinksAsMigrated};
ghost use Rattle.cw_actions.specs.Going.Laws.{KeepsPromise, KeepsRun, KeepsListing, IsRightIdle, HasOneStatus};

use crate::texts::known_texts;
use cw_build_laws::laws::images::{loaded, separate_objects};
use cw_cpu86::laws::{one_observation, one_start};
use cw_link_files::laws::one_link_list;
use cw_sim::laws::preservation;
use cw_unit::laws::configurations;

/// A call that goes so up to its closing line, and is closed so, keeps its promise. So does one that did nothing
/// else, for want of memory. Of one whose image ran
/// it is told what the promise tells of.
pub fn promises()
    ensures keeps { KeepsPromise }
    ensures run { KeepsRun }
    ensures listing { KeepsListing }
    ensures idle { IsRightIdle }
{
    known_texts();
    loaded();
    configurations();
    preservation();
    one_observation();
}

/// A call that did nothing but for its closing line, for want of memory, keeps its promise.
pub fn idle()
    ensures { IsRightIdle }
{
    promises();
}

/// Two statuses never come of one call that runs texts, where the store tells its files, no count rose, and memory was found; and where one is
/// TooLong(Input), the source its input.
pub fn one_status_of_texts()
    ensures { HasOneStatus }
{
    known_texts();
    one_start();
    one_observation();
}

/// What is compiled apart and linked is what runs of the texts together, and a migrated list links to the image of the list.
pub fn apart()
    ensures compiled { LinksWhatRuns }
    ensures migrated { LinksAsMigrated }
{
    separate_objects();
    one_link_list();
}
