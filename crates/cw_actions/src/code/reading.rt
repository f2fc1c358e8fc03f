//! Source texts that are kept beside what they are compiled to.
ghost use Rattle.std.specs.Prelude.{◌≡◌, ℕ, ◌≤◌, [], ◌∷◌, ◌++◌, length, map, slice_get, Some, OnOk, IfOk, IfErr, List as Sequence};
ghost use Rattle.cw_io.specs.File.{Told, Is, AllStay};
ghost use Rattle.cw_unit.specs.declared.unit.Unit.{Unit as SourceUnit};
ghost use Rattle.cw_compile.specs.Texts.{text_limit};
ghost use Rattle.cw_build.specs.Building.{IsMadeOf};
ghost use Rattle.cw_files.specs.Texts.{HasUnit};
ghost use Rattle.cw_files.specs.Reading.{Counts, counts_at, SameCounts, Stopped, StopsTexts, AreSegmentsOf};
ghost use Rattle.cw_files.specs.Taking.{Takes};
ghost use Rattle.cw_actions.specs.Coding.{AnswersSources};

use cw_files::{Segment, Segments, read_bytes};
use cw_io::Store;
use cw_say::Status;
use cw_texts::{TEXT_LIMIT, compile_text};
use cw_word::List;
use std::alloc::Global;

/// A text, and what it was compiled to.
#[derive(Drop)]
pub struct Source {
    pub text: List<u8>,
    pub segment: Segment,
}

/// Texts in order, and what they were compiled to.
#[derive(Drop)]
pub struct Sources {
    pub texts: List<List<u8>>,
    pub segments: Segments,
}

impl Sources {
    // No texts.
    fn new(alloc: Global) -> Sources
        ensures texts { result.texts ≡ [] }
        ensures segments { AreSegmentsOf [] result.segments }
    {
        Sources {
            texts: List::new(alloc),
            segments: Segments::new(alloc),
        }
    }

    // Adds a text behind the others; or the status where there is no memory for it.
    fn push(&mut self, source: Source) -> Result<(), Status>
        ensures texts { OnOk result (self.new.texts ≡ self.old.texts ++ source.text ∷ []) }
        ensures units { OnOk result (self.new.segments.units ≡ self.old.segments.units ++ source.segment.unit ∷ []) }
        ensures layouts { OnOk result (self.new.segments.layouts ≡ self.old.segments.layouts ++ source.segment.made.layout ∷ []) }
        ensures objects { OnOk result (self.new.segments.objects ≡ self.old.segments.objects ++ source.segment.made.object ∷ []) }
        ensures memory { IfErr result (λ status. status ≡ Status.NoMemory) }
    {
        let Source { text, segment } = source;
        self.segments.push(segment)?;
        match self.texts.push(text) {
            Ok(()) => Ok(()),
            Err(_) => Err(Status::NoMemory),
        }
    }
}

// Compiles a text that was read, which has this number among those of the call, and keeps it.
fn source_of(alloc: Global, text: Vec<u8>, number: u16) -> Result<Source, Status>
    requires { length text.items ≤ text_limit }
    ensures kept { IfOk result (λ source. source.text ≡ text.items) }
    ensures made { IfOk result (λ source. HasUnit text.items source.segment.unit × IsMadeOf source.segment.unit source.segment.made) }
    ensures stops { (told : Sequence Told) (texts : Sequence (Sequence ℕ)) (before after : Counts)
        → slice_get texts number ≡ Some text.items
        → IfErr result (λ status. StopsTexts told texts number before after status) }
{
    match compile_text(alloc, text.as_slice(), number) {
        Ok(segment) => Ok(Source {
            text: List::of(text),
            segment,
        }),
        Err(status) => Err(status),
    }
}

// Reads and compiles the file with this number, and keeps its text.
fn read_source<F: Store>(
    alloc: Global,
    files: &mut F,
    name: &str,
    number: u16,
) -> Result<Source, Status>
    ensures whole { IfOk result (λ source. Is (F.file files.old name.now) source.text) }
    ensures within { IfOk result (λ source. length source.text ≤ text_limit) }
    ensures made { IfOk result (λ source. HasUnit source.text source.segment.unit × IsMadeOf source.segment.unit source.segment.made) }
    ensures same { IfOk result (λ _. SameCounts (counts_at (F.faults files.old) (F.absences files.old))
        (counts_at (F.faults files.new) (F.absences files.new))) }
    ensures stops { (told : Sequence Told) (us : Sequence SourceUnit) → Takes text_limit HasUnit told us
        → length us ≡ number → slice_get told number ≡ Some (F.file files.old name.now)
        → IfErr result (λ status. Stopped text_limit HasUnit
        (λ texts taken. StopsTexts told texts taken (counts_at (F.faults files.old) (F.absences files.old))
        (counts_at (F.faults files.new) (F.absences files.new)) status) told) }
    ensures stay { AllStay (F.file files.old) (F.file files.new) }
{
    match read_bytes(alloc, files, name, number, TEXT_LIMIT) {
        Ok(text) => source_of(alloc, text, number),
        Err(status) => Err(status),
    }
}

/// Reads and compiles files in order, 200 at most, and keeps their texts; or the status of the first that is not read or has no unit.
pub fn read_sources<F: Store>(
    alloc: Global,
    files: &mut F,
    names: &[&str],
) -> Result<Sources, Status>
    requires { length names.now ≤ 200 }
    ensures taken { AnswersSources (map (λ name. F.file files.old name.now) names.now)
        (counts_at (F.faults files.old) (F.absences files.old))
        (counts_at (F.faults files.new) (F.absences files.new)) result }
    ensures stay { AllStay (F.file files.old) (F.file files.new) }
{
    let mut sources = Sources::new(alloc);
    let mut number: u16 = 0;
    for name in names {
        let source = read_source(alloc, files, name, number)?;
        sources.push(source)?;
        number += 1;
    }
    Ok(sources)
}
