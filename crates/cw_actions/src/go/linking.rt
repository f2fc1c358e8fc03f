// From the units of the files to their image.
ghost use Rattle.std.specs.Prelude.{List as Sequence};
ghost use Rattle.cw_unit.specs.declared.unit.Unit.{Unit as SourceUnit};
ghost use Rattle.cw_actions.specs.Going.Goes.{AnswersLinked};
ghost use Rattle.cw_actions.specs.Going.Linking.{AreLinkable};

use crate::results::unlinked;
use cw_build::link_units;
use cw_files::Segments;
use cw_link::Linked;
use cw_say::Status;
use cw_unit::layout::Limits;
use std::alloc::Global;

/// Links the objects of the units, or answers with the status where they have no image.
pub fn link_segments(alloc: Global, segments: &Segments, limits: &Limits) -> Result<Linked, Status>
    ghost us: { Sequence SourceUnit }
    requires { AreLinkable us segments.now limits.now }
    ensures { AnswersLinked us limits.now result }
{
    match link_units(alloc, segments.objects.as_slice(), limits) {
        Ok(linked) => Ok(linked),
        Err(fault) => Err(unlinked(fault)),
    }
}
