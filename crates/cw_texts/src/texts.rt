//! Files that are texts.
ghost use Rattle.std.specs.Prelude.{◌≡◌, ℕ, ◌≤◌, [], ◌∷◌, length, map, slice_get, Some, IfOk, IfErr, List as Sequence};
ghost use Rattle.cw_io.specs.File.{Told, Is, AllStay};
ghost use Rattle.cw_unit.specs.declared.unit.Unit.{Unit as SourceUnit};
ghost use Rattle.cw_compile.specs.Texts.{text_limit};
ghost use Rattle.cw_build.specs.Compiled.{IsCompilable};
ghost use Rattle.cw_build.specs.Building.{IsMadeOf};
ghost use Rattle.cw_files.specs.Texts.{HasUnit};
ghost use Rattle.cw_files.specs.Reading.{Counts, counts_at, SameCounts, IsUnread, StopsTexts, AnswersUnits};
ghost use Rattle.cw_files.specs.Taking.{Takes, AnswersUnit};

use cw_build::compile;
use cw_compile::{UnitFault, unit};
use cw_files::{Segment, Segments, Status, read_bytes};
use cw_io::Store;
use cw_sound::laws::texts::text_units;
use cw_unit::unit::Unit;
use std::alloc::Global;

/// The most bytes of a source text.
pub const TEXT_LIMIT: usize = 1_048_576;

/// Reads a text, the first file of the call; or the status where it is not read.
pub fn read_text<F: Store>(alloc: Global, files: &mut F, name: &str) -> Result<Vec<u8>, Status>
    ensures whole { IfOk result (λ bytes. Is (F.file files.old name.now) bytes.items) }
    ensures within { IfOk result (λ bytes. length bytes.items ≤ text_limit) }
    ensures same { IfOk result (λ _. SameCounts (counts_at (F.faults files.old) (F.absences files.old))
        (counts_at (F.faults files.new) (F.absences files.new))) }
    ensures unread { IfErr result (λ status. IsUnread text_limit (F.file files.old name.now ∷ []) 0
        (counts_at (F.faults files.old) (F.absences files.old))
        (counts_at (F.faults files.new) (F.absences files.new)) status) }
    ensures stay { AllStay (F.file files.old) (F.file files.new) }
{
    read_bytes(alloc, files, name, 0, TEXT_LIMIT)
}

// Compiles a unit that can be compiled.
fn compile_unit(alloc: Global, unit: Unit) -> Result<Segment, Status>
    requires { IsCompilable unit }
    ensures made { IfOk result (λ segment. (segment.unit ≡ unit) × IsMadeOf unit segment.made) }
    ensures memory { IfErr result (λ status. status ≡ Status.NoMemory) }
{
    match compile(alloc, &unit) {
        Ok(made) => Ok(Segment { unit, made }),
        Err(_) => Err(Status::NoMemory),
    }
}

/// Compiles a text, which has this number among those of the call; or the status where it has no unit.
pub fn compile_text(alloc: Global, text: &[u8], number: u16) -> Result<Segment, Status>
    requires { length text.now ≤ text_limit }
    ensures made { IfOk result (λ segment. HasUnit text.now segment.unit × IsMadeOf segment.unit segment.made) }
    ensures stops { (told : Sequence Told) (texts : Sequence (Sequence ℕ)) (before after : Counts)
        → slice_get texts number ≡ Some text.now
        → IfErr result (λ status. StopsTexts told texts number before after status) }
{
    text_units();
    match unit(alloc, text) {
        Ok(unit) => compile_unit(alloc, unit),
        Err(UnitFault::Refused(fault)) => Err(Status::Refused {
            file: number,
            fault,
        }),
        Err(UnitFault::NoMemory) => Err(Status::NoMemory),
    }
}

// Reads and compiles the file with this number, behind those that were compiled.
fn read_unit<F: Store>(
    alloc: Global,
    files: &mut F,
    name: &str,
    number: u16,
) -> Result<Segment, Status>
    ensures taken { (told : Sequence Told) (us : Sequence SourceUnit) → Takes text_limit HasUnit told us
        → length us ≡ number → slice_get told number ≡ Some (F.file files.old name.now)
        → AnswersUnit told us (counts_at (F.faults files.old) (F.absences files.old))
        (counts_at (F.faults files.new) (F.absences files.new)) result }
    ensures stay { AllStay (F.file files.old) (F.file files.new) }
{
    match read_bytes(alloc, files, name, number, TEXT_LIMIT) {
        Ok(text) => compile_text(alloc, text.as_slice(), number),
        Err(status) => Err(status),
    }
}

/// Reads and compiles files in order, 200 at most; or the status of the first that is not read or has no unit.
pub fn read_units<F: Store>(
    alloc: Global,
    files: &mut F,
    names: &[&str],
) -> Result<Segments, Status>
    requires { length names.now ≤ 200 }
    ensures taken { AnswersUnits (map (λ name. F.file files.old name.now) names.now)
        (counts_at (F.faults files.old) (F.absences files.old))
        (counts_at (F.faults files.new) (F.absences files.new)) result }
    ensures stay { AllStay (F.file files.old) (F.file files.new) }
{
    let mut segments = Segments::new(alloc);
    let mut number: u16 = 0;
    for name in names {
        let segment = read_unit(alloc, files, name, number)?;
        segments.push(segment)?;
        number += 1;
    }
    Ok(segments)
}
