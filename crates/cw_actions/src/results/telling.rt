//! The actions that write a text to `out`: `map`, `depth` and `code` one of the units of their files, `list` one of its file.
ghost use Rattle.std.specs.Prelude.{◌≡◌, ◌≤◌, ℕ, List as Sequence, Option, length, map};
ghost use Rattle.cw_unit.specs.declared.unit.Unit.{Unit as SourceUnit};
ghost use Rattle.cw_compile.specs.Texts.{text_limit};
ghost use Rattle.cw_place.specs.Placement.{IsLimits};
ghost use Rattle.cw_words.specs.declared.action.Action.TheVariants.{Map, Depth, Code, List as Show};
ghost use Rattle.cw_correct.specs.Calls.{surroundings_of, call_as};
ghost use Rattle.cw_correct.specs.Results.{MapsRight, DepthsRight, CodesRight, ShowsRight};
ghost use Rattle.cw_actions.specs.Going.Linking.{AreLinkable};
ghost use Rattle.cw_actions.specs.Resulting.Outside.{out_at};
ghost use Rattle.cw_actions.specs.Resulting.Results.{MapsUnits, faulty_status, ShowsText};

use crate::code::{code_units, read_sources};
use crate::depth::depth_units;
use crate::depth::laws::{few_procedures, report_bounds_runs};
use crate::go::{close, link_segments, storage_text};
use crate::results::first::first_name;
use crate::results::output::write_text;
use crate::texts::known_texts;
use cw_compile::{UnitFault, canonical};
use cw_files::Segments;
use cw_io::{Sink, Store};
use cw_say::Status;
use cw_texts::{read_text, read_units};
use cw_unit::layout::Limits;
use std::alloc::Global;

// Links the objects of units, and writes their storage map.
fn map_units<O: Sink>(alloc: Global, segments: &Segments, limits: &Limits, out: &mut O) -> Status
    ghost us: { Sequence SourceUnit }
    requires { AreLinkable us segments.now limits.now }
    ensures { MapsUnits us limits.now (out_at (O.held out.old) (O.faults out.old)) (out_at (O.held out.new) (O.faults out.new)) result }
{
    match link_segments(alloc, segments, limits) {
        Ok(linked) => match storage_text(alloc, segments, &linked, limits) {
            Ok(text) => write_text(out, text.as_slice()),
            Err(_) => Status::NoMemory,
        },
        Err(status) => status,
    }
}

/// Reads and compiles the files in order, links their objects, and writes the storage map to `out`.
pub fn map_files<F: Store, O: Sink, S: Sink>(
    alloc: Global,
    names: &[&str],
    limits: &Limits,
    steps: u64,
    files: &mut F,
    out: &mut O,
    say: &mut S,
) -> Status
    requires few { length names.now ≤ 200 }
    requires some { 1 ≤ length names.now }
    requires limits { IsLimits limits.now }
    ensures { (left : Option (Sequence ℕ)) (input_faults : ℕ)
        → MapsRight (call_as Map limits.now steps (map (λ name. name.now) names.now)
        (surroundings_of (F.file files.old) (F.faults files.old) (F.absences files.old) left input_faults
        (O.held out.old) (O.faults out.old) (S.held say.old) (S.faults say.old))
        (surroundings_of (F.file files.new) (F.faults files.new) (F.absences files.new) left input_faults
        (O.held out.new) (O.faults out.new) (S.held say.new) (S.faults say.new))) result }
{
    known_texts();
    match read_units(alloc, files, names) {
        Ok(segments) => close(say, names, &[], map_units(alloc, &segments, limits, out)),
        Err(status) => close(say, names, &[], status),
    }
}

/// Reads and compiles the files in order, links their objects, and writes the depth report of their units to `out`.
pub fn depth_files<F: Store, O: Sink, S: Sink>(
    alloc: Global,
    names: &[&str],
    limits: &Limits,
    steps: u64,
    files: &mut F,
    out: &mut O,
    say: &mut S,
) -> Status
    requires few { length names.now ≤ 200 }
    requires some { 1 ≤ length names.now }
    requires limits { IsLimits limits.now }
    ensures { (left : Option (Sequence ℕ)) (input_faults : ℕ)
        → DepthsRight (call_as Depth limits.now steps (map (λ name. name.now) names.now)
        (surroundings_of (F.file files.old) (F.faults files.old) (F.absences files.old) left input_faults
        (O.held out.old) (O.faults out.old) (S.held say.old) (S.faults say.old))
        (surroundings_of (F.file files.new) (F.faults files.new) (F.absences files.new) left input_faults
        (O.held out.new) (O.faults out.new) (S.held say.new) (S.faults say.new))) result }
{
    known_texts();
    few_procedures();
    report_bounds_runs();
    match read_units(alloc, files, names) {
        Ok(segments) => close(say, names, &[], depth_units(alloc, &segments, limits, out)),
        Err(status) => close(say, names, &[], status),
    }
}

/// Reads and compiles the files in order, links their objects, and writes the listing of the linked code to `out`.
pub fn code_files<F: Store, O: Sink, S: Sink>(
    alloc: Global,
    names: &[&str],
    limits: &Limits,
    steps: u64,
    files: &mut F,
    out: &mut O,
    say: &mut S,
) -> Status
    requires few { length names.now ≤ 200 }
    requires some { 1 ≤ length names.now }
    requires limits { IsLimits limits.now }
    ensures { (left : Option (Sequence ℕ)) (input_faults : ℕ)
        → CodesRight (call_as Code limits.now steps (map (λ name. name.now) names.now)
        (surroundings_of (F.file files.old) (F.faults files.old) (F.absences files.old) left input_faults
        (O.held out.old) (O.faults out.old) (S.held say.old) (S.faults say.old))
        (surroundings_of (F.file files.new) (F.faults files.new) (F.absences files.new) left input_faults
        (O.held out.new) (O.faults out.new) (S.held say.new) (S.faults say.new))) result }
{
    known_texts();
    match read_sources(alloc, files, names) {
        Ok(sources) => close(say, names, &[], code_units(alloc, &sources, limits, out)),
        Err(status) => close(say, names, &[], status),
    }
}

// The status of a text that has no unit.
fn faulty(fault: UnitFault) -> Status
    ensures { result ≡ faulty_status fault }
{
    match fault {
        UnitFault::Refused(fault) => Status::Refused { file: 0, fault },
        UnitFault::NoMemory => Status::NoMemory,
    }
}

// Writes the canonical text of a text.
fn show_text<O: Sink>(alloc: Global, text: &[u8], out: &mut O) -> Status
    requires { length text.now ≤ text_limit }
    ensures { ShowsText text.now (out_at (O.held out.old) (O.faults out.old)) (out_at (O.held out.new) (O.faults out.new)) result }
{
    match canonical(alloc, text) {
        Ok(shown) => write_text(out, shown.as_slice()),
        Err(fault) => faulty(fault),
    }
}

/// Compiles the file and writes the canonical text of its tree to `out`.
pub fn show<F: Store, O: Sink, S: Sink>(
    alloc: Global,
    names: &[&str],
    limits: &Limits,
    steps: u64,
    files: &mut F,
    out: &mut O,
    say: &mut S,
) -> Status
    requires few { length names.now ≤ 1 }
    requires some { 1 ≤ length names.now }
    requires limits { IsLimits limits.now }
    ensures { (left : Option (Sequence ℕ)) (input_faults : ℕ)
        → ShowsRight (call_as Show limits.now steps (map (λ name. name.now) names.now)
        (surroundings_of (F.file files.old) (F.faults files.old) (F.absences files.old) left input_faults
        (O.held out.old) (O.faults out.old) (S.held say.old) (S.faults say.old))
        (surroundings_of (F.file files.new) (F.faults files.new) (F.absences files.new) left input_faults
        (O.held out.new) (O.faults out.new) (S.held say.new) (S.faults say.new))) result }
{
    known_texts();
    match read_text(alloc, files, first_name(names)) {
        Ok(text) => close(say, names, &[], show_text(alloc, text.as_slice(), out)),
        Err(status) => close(say, names, &[], status),
    }
}
