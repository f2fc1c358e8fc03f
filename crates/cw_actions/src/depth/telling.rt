// The depth report of units that link.
ghost use Rattle.std.specs.Prelude.{OnOk, IfErr, List as Sequence};
ghost use Rattle.cw_unit.specs.declared.unit.Unit.{Unit as SourceUnit};
ghost use Rattle.cw_unit.specs.declared.layout.Limits.{Limits as SourceLimits};
ghost use Rattle.cw_depth.specs.declared.depth_report.Report.{Report as DepthReport};
ghost use Rattle.cw_depth.specs.Numbering.{AreFew};
ghost use Rattle.cw_depth.specs.Told.{IsReport};
ghost use Rattle.cw_build.specs.Linking.{Links};
ghost use Rattle.cw_correct.specs.Results.{BoundsRuns, IsDepth};
ghost use Rattle.cw_actions.specs.Going.Goes.{IsUnlinked};
ghost use Rattle.cw_actions.specs.Going.Linking.{AreLinkable};
ghost use Rattle.cw_actions.specs.Resulting.Outside.{out_at};
ghost use Rattle.cw_actions.specs.Resulting.Results.{TellsUnits};

use crate::depth::text::report_text;
use crate::go::link_segments;
use crate::results::write_text;
use cw_depth::depth;
use cw_files::Segments;
use cw_io::Sink;
use cw_say::Status;
use cw_unit::layout::Limits;
use cw_unit::unit::Unit;
use std::alloc::Global;

// Writes the depth report of units.
fn write_depth<O: Sink>(alloc: Global, units: &[Unit], out: &mut O) -> Status
    requires few { AreFew units.now }
    requires bounds { (report : DepthReport) → IsReport units.now report → BoundsRuns units.now report }
    ensures { (limits : SourceLimits) → Links units.now limits
        → TellsUnits IsDepth units.now limits (out_at (O.held out.old) (O.faults out.old))
        (out_at (O.held out.new) (O.faults out.new)) result }
{
    match depth(alloc, units) {
        Ok(report) => match report_text(alloc, units, &report) {
            Ok(text) => write_text(out, text.as_slice()),
            Err(_) => Status::NoMemory,
        },
        Err(_) => Status::NoMemory,
    }
}

// That units link.
fn linking(alloc: Global, segments: &Segments, limits: &Limits) -> Result<(), Status>
    ghost us: { Sequence SourceUnit }
    requires { AreLinkable us segments.now limits.now }
    ensures links { OnOk result (Links us limits.now) }
    ensures fails { IfErr result (IsUnlinked us limits.now) }
{
    match link_segments(alloc, segments, limits) {
        Ok(linked) => Ok(()),
        Err(status) => Err(status),
    }
}

/// Links the objects of units, and writes their depth report.
pub(crate) fn depth_units<O: Sink>(
    alloc: Global,
    segments: &Segments,
    limits: &Limits,
    out: &mut O,
) -> Status
    ghost us: { Sequence SourceUnit }
    requires linkable { AreLinkable us segments.now limits.now }
    requires few { AreFew us }
    requires bounds { (report : DepthReport) → IsReport us report → BoundsRuns us report }
    ensures { TellsUnits IsDepth us limits.now (out_at (O.held out.old) (O.faults out.old)) (out_at (O.held out.new) (O.faults out.new)) result }
{
    match linking(alloc, segments, limits) {
        Ok(()) => write_depth(alloc, segments.units.as_slice(), out),
        Err(status) => status,
    }
}
