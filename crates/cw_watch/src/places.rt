// The places at which the statements of a line begin.
ghost use Rattle.std.specs.Prelude.{◌≡◌, ◌+◌, ◌++◌, ◌≤◌, map, All, OnOk, IfOk};
ghost use Rattle.cw_view.specs.{ObjectFormat.IsObject, Reading.statement_in};
ghost use Rattle.cw_link.specs.{Contents.records_of, LinkedImage.linked_size};
ghost use Rattle.cw_object.specs.ObjectContents.{contents_in};
ghost use Rattle.cw_watch.specs.{Rising.RisesFrom, Watching.places_at, Watching.segment_places, Watching.stop_places};

use crate::opening::view_of;
use cw_stop::Stop;
use cw_tmpl::base_code;
use cw_view::{View, read_statement};
use cw_word::{List, NoMemory};
use std::alloc::Global;

// Adds those of an object's statements.
fn add_places(places: &mut List<u16>, view: &View, start: u32, line: u16) -> Result<(), NoMemory>
    ensures { OnOk result (places.new ≡ places.old ++ places_at start line (records_of statement_in 10 view.now)) }
{
    for payload in view.records(10) {
        if let Some((place, of)) = read_statement(payload) {
            if of == line {
                places.push(((u64::from(start) + u64::from(place)) % 65536) as u16)?;
            }
        }
    }
    Ok(())
}

// Adds those of an object, if its segment has the stop's name.
fn add_object(places: &mut List<u16>, view: &View, start: u32, stop: &Stop) -> Result<(), NoMemory>
    ensures { OnOk result (places.new ≡ places.old ++ segment_places start stop.now.segment stop.now.line view.now.name (records_of statement_in 10 view.now)) }
{
    if view.name() == stop.segment {
        add_places(places, view, start, stop.line)
    } else {
        Ok(())
    }
}

/// Those of objects that were linked.
pub(crate) fn stop_places(
    alloc: Global,
    objects: &[List<u8>],
    stop: &Stop,
) -> Result<List<u16>, NoMemory>
    requires opened { All IsObject objects.now }
    requires short { linked_size (map contents_in objects.now) ≤ 65536 }
    ensures places { IfOk result (λ places. places ≡ stop_places stop.now objects.now) }
    ensures rising { IfOk result (λ places. RisesFrom 0 places 65536) }
{
    let mut places = List::new(alloc);
    let mut start = base_code().len() as u32;
    for object in objects {
        let view = view_of(object.as_slice());
        add_object(&mut places, &view, start, stop)?;
        start += view.code().len() as u32;
    }
    Ok(places)
}
