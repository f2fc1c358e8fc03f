//! From the objects of units to their image.
ghost use Rattle.std.specs.Prelude.{◌≡◌, ◌≤◌, length, map, All, List as Sequence};
ghost use Rattle.cw_unit.specs.declared.unit.Unit.{Unit as SourceUnit};
ghost use Rattle.cw_place.specs.Placement.{IsLimits};
ghost use Rattle.cw_build.specs.Compiled.{IsCompilable, object_of};
ghost use Rattle.cw_build.specs.Building.{AnswersLinking};

use cw_link::{LinkFault, Linked};
use cw_object::laws::object_of_unit;
use cw_object::link_objects;
use cw_unit::layout::Limits;
use cw_word::List;
use std::alloc::Global;

/// Links the objects of units that can be compiled, 200 at most: their image and storage map, or the first reason why they have none.
pub fn link_units(alloc: Global, objects: &[List<u8>], limits: &Limits) -> Result<Linked, LinkFault>
    ghost us: { Sequence SourceUnit }
    requires objects { objects.now ≡ map object_of us }
    requires compiled { All IsCompilable us }
    requires few { length us ≤ 200 }
    requires limits { IsLimits limits.now }
    ensures { AnswersLinking us limits.now result }
{
    object_of_unit();
    link_objects(alloc, objects, limits)
}
