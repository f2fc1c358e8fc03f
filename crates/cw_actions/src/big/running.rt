// The large program made, linked and run.
ghost use Rattle.std.specs.Prelude.{◌≡◌, ◌≤◌, ℕ, List, [], Some, slice_index_or, IfOk};
ghost use Rattle.cw_io.specs.File.{Told};
ghost use Rattle.cw_place.specs.Placement.{IsLimits};
ghost use Rattle.cw_words.specs.Parts.{copies_in};
ghost use Rattle.cw_words.specs.declared.action.Action.TheVariants.{Big};
ghost use Rattle.cw_correct.specs.Calls.{surroundings_of, call_as};
ghost use Rattle.cw_correct.specs.Making.{line_with};
ghost use Rattle.cw_correct.specs.Correct.{IsCorrectCall};

use crate::big::making::make_segments;
use crate::go::laws::promises;
use crate::go::{close, compiled_units, link_segments, load_and_run};
use crate::numbers::put_number;
use cw_big::laws::short_texts;
use cw_build::laws::linked_units;
use cw_fields::put_bytes;
use cw_io::{Sink, Source};
use cw_say::Status;
use cw_unit::layout::Limits;
use cw_word::NoMemory;
use std::alloc::Global;

// The line that is written in place of the storage map, whose last family ends there.
fn line_with(alloc: Global, copies: u8, end: u32) -> Result<Vec<u8>, NoMemory>
    ensures { IfOk result (λ line. line.items ≡ line_with copies end) }
{
    let mut line = Vec::new(alloc);
    put_bytes(&mut line, b"big ")?;
    put_number(&mut line, u64::from(copies))?;
    put_bytes(&mut line, b" words ")?;
    put_number(&mut line, u64::from(end))?;
    put_bytes(&mut line, b"\n")?;
    Ok(line)
}

/// Makes and compiles so many texts, links their objects, writes to `say` how many they are and how many words their items take up, runs the image, and closes
/// with the line of the status. No file is read or written.
pub fn big<I: Source, O: Sink, S: Sink>(
    alloc: Global,
    copies: u8,
    limits: &Limits,
    steps: u64,
    input: &mut I,
    out: &mut O,
    say: &mut S,
) -> Status
    requires some { 1 ≤ copies }
    requires few { copies ≤ 100 }
    requires limits { IsLimits limits.now }
    ensures { (names : List (List ℕ)) (files : List ℕ → Told) (store_faults absences : ℕ)
        → copies_in (slice_index_or names 0 []) ≡ Some copies
        → IsCorrectCall (call_as Big limits.now steps names
        (surroundings_of files store_faults absences (I.left input.old) (I.faults input.old) (O.held out.old)
        (O.faults out.old) (S.held say.old) (S.faults say.old))
        (surroundings_of files store_faults absences (I.left input.new) (I.faults input.new) (O.held out.new)
        (O.faults out.new) (S.held say.new) (S.faults say.new))) result }
{
    promises();
    short_texts();
    compiled_units();
    linked_units();
    match make_segments(alloc, copies) {
        Ok(segments) => match link_segments(alloc, &segments, limits) {
            Ok(linked) => {
                let text = line_with(alloc, copies, linked.map.end);
                let status = load_and_run(alloc, text, &linked.image, steps, input, out, say);
                close(say, &[], linked.image.names.as_slice(), status)
            }
            Err(status) => close(say, &[], &[], status),
        },
        Err(NoMemory) => close(say, &[], &[], Status::NoMemory),
    }
}
