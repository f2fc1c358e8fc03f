//! Laws of the objects of units.
ghost use Rattle.std.specs.Prelude.{ℕ, IsTrue};
ghost use Rattle.cw_unit.specs.{declared.unit.Unit.Unit as SourceUnit, declared.layout.Layout.Layout};
ghost use Rattle.cw_tmpl.specs.declared.assembling.Code.{Code};
ghost use Rattle.cw_obj.specs.Writable.{IsWritable};
ghost use Rattle.cw_object.specs.{IsWritable.is_writable, ObjectContents.TellsItsUnit, ObjectImages.LinksToImages};

use cw_link::laws::other_bytes;
use cw_obj::laws::object_written;

/// The object of a unit is in the format, and tells what it was written from.
pub fn object_of_unit()
    ensures { TellsItsUnit }
{
    object_written();
}

/// The image of objects is in the format of images, where its code is not too long.
pub fn image_of_objects()
    ensures { LinksToImages }
{
    other_bytes();
}

/// What passes the test is what the format asks for.
pub fn writable()
    ensures { (u : SourceUnit) (l : Layout) (c : Code) (need : ℕ) → IsTrue (is_writable u l c need) → IsWritable u l c need c.statements }
{}
