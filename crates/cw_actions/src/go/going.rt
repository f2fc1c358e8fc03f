//! The action `go`.
ghost use Rattle.std.specs.Prelude.{◌≤◌, length, map};
ghost use Rattle.cw_place.specs.Placement.{IsLimits};
ghost use Rattle.cw_words.specs.declared.action.Action.TheVariants.{Go};
ghost use Rattle.cw_correct.specs.Calls.{surroundings_of, call_as};
ghost use Rattle.cw_correct.specs.Correct.{IsCorrectCall};

use crate::go::closing::close;
use crate::go::laws::promises;
use crate::go::linking::link_segments;
use crate::go::running::{load_and_run, storage_text};
use cw_build::laws::linked_units;
use cw_io::{Sink, Source, Store};
use cw_say::Status;
use cw_texts::laws::compiled_units;
use cw_texts::read_units;
use cw_unit::layout::Limits;
use std::alloc::Global;

/// Reads and compiles the files in order, links their objects, writes the storage map to `say`, runs the image, and closes with the line of the status.
pub fn go<F: Store, I: Source, O: Sink, S: Sink>(
    alloc: Global,
    names: &[&str],
    limits: &Limits,
    steps: u64,
    files: &mut F,
    input: &mut I,
    out: &mut O,
    say: &mut S,
) -> Status
    requires few { length names.now ≤ 200 }
    requires some { 1 ≤ length names.now }
    requires limits { IsLimits limits.now }
    ensures { IsCorrectCall (call_as Go limits.now steps (map (λ name. name.now) names.now)
        (surroundings_of (F.file files.old) (F.faults files.old) (F.absences files.old) (I.left input.old)
        (I.faults input.old) (O.held out.old) (O.faults out.old) (S.held say.old) (S.faults say.old))
        (surroundings_of (F.file files.new) (F.faults files.new) (F.absences files.new) (I.left input.new)
        (I.faults input.new) (O.held out.new) (O.faults out.new) (S.held say.new) (S.faults say.new)))
        result }
{
    promises();
    compiled_units();
    linked_units();
    match read_units(alloc, files, names) {
        Ok(segments) => match link_segments(alloc, &segments, limits) {
            Ok(linked) => {
                let text = storage_text(alloc, &segments, &linked, limits);
                let status = load_and_run(alloc, text, &linked.image, steps, input, out, say);
                close(say, names, linked.image.names.as_slice(), status)
            }
            Err(status) => close(say, names, &[], status),
        },
        Err(status) => close(say, names, &[], status),
    }
}
