// The listing of the code of texts that link.
ghost use Rattle.std.specs.Prelude.{◌≤◌, List as Sequence, length, All};
ghost use Rattle.cw_unit.specs.declared.unit.Unit.{Unit as SourceUnit};
ghost use Rattle.cw_unit.specs.declared.layout.Limits.{Limits as SourceLimits};
ghost use Rattle.cw_build.specs.Building.{IsLinkedOf};
ghost use Rattle.cw_build.specs.Compiled.{IsCompilable};
ghost use Rattle.cw_files.specs.Reading.{AreSegmentsOf};
ghost use Rattle.cw_correct.specs.Results.{IsCode};
ghost use Rattle.cw_actions.specs.Going.Linking.{AreLinkable};
ghost use Rattle.cw_actions.specs.Resulting.Outside.{out_at};
ghost use Rattle.cw_actions.specs.Resulting.Results.{TellsUnits};

use crate::code::coding::unit_codes;
use crate::code::reading::Sources;
use crate::go::link_segments;
use crate::results::write_text;
use cw_build::laws::linked_units;
use cw_io::Sink;
use cw_link::Linked;
use cw_listing::code_listing;
use cw_say::Status;
use cw_unit::layout::Limits;
use std::alloc::Global;

// Writes the listing of the code of texts that were linked.
fn write_listing<O: Sink>(alloc: Global, sources: &Sources, linked: &Linked, out: &mut O) -> Status
    requires segments { AreSegmentsOf sources.now.segments.units sources.now.segments }
    requires compiled { All IsCompilable sources.now.segments.units }
    requires few { length linked.now.image.code ≤ 65536 }
    ensures { (limits : SourceLimits) → IsLinkedOf sources.now.segments.units limits linked.now
        → TellsUnits (IsCode sources.now.texts) sources.now.segments.units limits
        (out_at (O.held out.old) (O.faults out.old)) (out_at (O.held out.new) (O.faults out.new)) result }
{
    let units = sources.segments.units.as_slice();
    let layouts = sources.segments.layouts.as_slice();
    let Ok(codes) = unit_codes(alloc, units, layouts) else {
        return Status::NoMemory;
    };
    let code = linked.image.code.as_slice();
    let texts = sources.texts.as_slice();
    match code_listing(alloc, code, units, layouts, codes.as_slice(), texts) {
        Ok(text) => write_text(out, text.as_slice()),
        Err(_) => Status::NoMemory,
    }
}

/// Links the objects of texts, and writes the listing of their code.
pub(crate) fn code_units<O: Sink>(
    alloc: Global,
    sources: &Sources,
    limits: &Limits,
    out: &mut O,
) -> Status
    ghost us: { Sequence SourceUnit }
    requires { AreLinkable us sources.now.segments limits.now }
    ensures { TellsUnits (IsCode sources.now.texts) us limits.now (out_at (O.held out.old) (O.faults out.old))
        (out_at (O.held out.new) (O.faults out.new)) result }
{
    linked_units();
    match link_segments(alloc, &sources.segments, limits) {
        Ok(linked) => write_listing(alloc, sources, &linked, out),
        Err(status) => status,
    }
}
