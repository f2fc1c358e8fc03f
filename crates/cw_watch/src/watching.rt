// The watch that a stop means.
ghost use Rattle.std.specs.Prelude.{◌≤◌, ◌<◌, map as each, nat_eq, All, IfOk};
ghost use Rattle.std.specs.List.{IsDistinct};
ghost use Rattle.cw_view.specs.ObjectFormat.{IsObject};
ghost use Rattle.cw_place.specs.Placement.{IsLimits};
ghost use Rattle.cw_link.specs.LinkedImage.{linked_size};
ghost use Rattle.cw_object.specs.ObjectContents.{contents_in};
ghost use Rattle.cw_watch.specs.{Rising.RisesFrom, Watching.AnswersWatch};

use crate::fault::WatchFault;
use crate::finding::watched_words;
use crate::lines::all_lines;
use crate::places::stop_places;
use cw_stop::Stop;
use cw_trace::Watch;
use cw_unit::layout::{Limits, Map};
use cw_word::List;
use std::alloc::Global;

/// The watch that a stop means in objects that were linked, with their storage map and these limits.
#[tactic(auto, using(crate::proofs::Rising::rising_once))]
pub fn watch_for(
    alloc: Global,
    objects: &[List<u8>],
    map: &Map,
    limits: &Limits,
    stop: &Stop,
) -> Result<Watch, WatchFault>
    requires opened { All IsObject objects.now }
    requires short { linked_size (each contents_in objects.now) ≤ 65536 }
    requires limits { IsLimits limits.now }
    ensures answers { AnswersWatch objects.now map.now limits.now stop.now result }
    ensures rising { IfOk result (λ watch. RisesFrom 0 watch.places 65536) }
    ensures once { IfOk result (λ watch. IsDistinct nat_eq watch.places) }
    ensures within { IfOk result (λ watch. All (λ word. word.address < limits.now.area) watch.words) }
{
    let places = stop_places(alloc, objects, stop)?;
    if places.as_slice().is_empty() {
        return Err(WatchFault::NoPlace);
    }
    let lines = all_lines(alloc, objects, map)?;
    let words = watched_words(
        alloc,
        lines.as_slice(),
        limits.area,
        stop.watched.as_slice(),
    )?;
    Ok(Watch {
        segment: stop.segment,
        line: stop.line,
        places,
        words,
    })
}
