//! The action `trace`.
ghost use Rattle.std.specs.Prelude.{◌≡◌, ◌≤◌, ℕ, List as Sequence, [], Some, length, map, slice_index_or, All};
ghost use Rattle.cw_io.specs.File.{Told, AllStay};
ghost use Rattle.cw_place.specs.Placement.{IsLimits};
ghost use Rattle.cw_compile.specs.Texts.{text_limit};
ghost use Rattle.cw_build.specs.Building.{IsLinkedOf};
ghost use Rattle.cw_build.specs.Compiled.{IsCompilable};
ghost use Rattle.cw_files.specs.Texts.{HasUnit};
ghost use Rattle.cw_files.specs.Reading.{counts_at, SameCounts, AllTaken, AreSegmentsOf};
ghost use Rattle.cw_stop.specs.Stopping.{stop_in};
ghost use Rattle.cw_words.specs.declared.action.Action.TheVariants.{Trace};
ghost use Rattle.cw_correct.specs.Calls.{surroundings_of, call_as};
ghost use Rattle.cw_correct.specs.Correct.{IsCorrectCall};
ghost use Rattle.cw_actions.specs.Tracing.Laws.{IsTraced};

use crate::go::{close, compiled_units, link_segments, read_units, storage_text};
use crate::trace::closing::{close_no_item, close_no_place};
use crate::trace::laws::traces;
use crate::trace::running::load_and_watch;
use cw_build::laws::linked_units;
use cw_build_laws::laws::images::separate_objects;
use cw_files::Segments;
use cw_io::{Sink, Source, Store};
use cw_link::Linked;
use cw_say::Status;
use cw_stop::Stop;
use cw_unit::layout::Limits;
use cw_watch::{WatchFault, watch_for};
use std::alloc::Global;

// Finds what the stop means in units that were linked, runs their image, watched, and closes; whatever files they were read from.
fn trace_linked<I: Source, O: Sink, S: Sink>(
    alloc: Global,
    names: &[&str],
    segments: &Segments,
    linked: &Linked,
    limits: &Limits,
    steps: u64,
    stop: &Stop,
    input: &mut I,
    out: &mut O,
    say: &mut S,
) -> Status
    requires limits { IsLimits limits.now }
    requires segments { AreSegmentsOf segments.now.units segments.now }
    requires compiled { All IsCompilable segments.now.units }
    requires linked { IsLinkedOf segments.now.units limits.now linked.now }
    ensures { (told told_after : Sequence ℕ → Told) (faults faults_after absences absences_after : ℕ)
        → 1 ≤ length names.now → length names.now ≤ 200
        → AllTaken text_limit HasUnit (map told (map (λ name. name.now) names.now)) segments.now.units
        → SameCounts (counts_at faults absences) (counts_at faults_after absences_after) → AllStay told told_after
        → IsTraced stop.now (call_as Trace limits.now steps (map (λ name. name.now) names.now)
        (surroundings_of told faults absences (I.left input.old) (I.faults input.old) (O.held out.old)
        (O.faults out.old) (S.held say.old) (S.faults say.old))
        (surroundings_of told_after faults_after absences_after (I.left input.new) (I.faults input.new) (O.held out.new)
        (O.faults out.new) (S.held say.new) (S.faults say.new))) result }
{
    traces();
    separate_objects();
    linked_units();
    match watch_for(
        alloc,
        segments.objects.as_slice(),
        &linked.map,
        limits,
        stop,
    ) {
        Ok(watch) => {
            let text = storage_text(alloc, segments, linked, limits);
            let status = load_and_watch(alloc, text, &linked.image, &watch, steps, input, out, say);
            close(say, names, linked.image.names.as_slice(), status)
        }
        Err(WatchFault::NoPlace) => close_no_place(say, stop),
        Err(WatchFault::NoItem { index }) => close_no_item(say, stop, index),
        Err(WatchFault::NoMemory) => close(say, names, &[], Status::NoMemory),
    }
}

/// Reads and compiles the files in order, whose names stand behind the stop word, links their objects, finds what the
/// stop means in them, writes the storage map
/// to `say`, and runs the image; before each statement that begins at the stop it writes a report to `say`. It closes with the line of the status.
pub fn trace<F: Store, I: Source, O: Sink, S: Sink>(
    alloc: Global,
    names: &[&str],
    limits: &Limits,
    steps: u64,
    stop: &Stop,
    files: &mut F,
    input: &mut I,
    out: &mut O,
    say: &mut S,
) -> Status
    requires few { length names.now ≤ 201 }
    requires some { 2 ≤ length names.now }
    requires limits { IsLimits limits.now }
    requires stop { stop_in (slice_index_or (map (λ name. name.now) names.now) 0 []) ≡ Some stop.now }
    ensures { IsCorrectCall (call_as Trace limits.now steps (map (λ name. name.now) names.now)
        (surroundings_of (F.file files.old) (F.faults files.old) (F.absences files.old) (I.left input.old)
        (I.faults input.old) (O.held out.old) (O.faults out.old) (S.held say.old) (S.faults say.old))
        (surroundings_of (F.file files.new) (F.faults files.new) (F.absences files.new) (I.left input.new)
        (I.faults input.new) (O.held out.new) (O.faults out.new) (S.held say.new) (S.faults say.new)))
        result }
{
    traces();
    compiled_units();
    let texts = &names[1..];
    match read_units(alloc, files, texts) {
        Ok(segments) => match link_segments(alloc, &segments, limits) {
            Ok(linked) => trace_linked(
                alloc, texts, &segments, &linked, limits, steps, stop, input, out, say,
            ),
            Err(status) => close(say, texts, &[], status),
        },
        Err(status) => close(say, texts, &[], status),
    }
}
