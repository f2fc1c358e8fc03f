//! Laws of the storage map.
ghost use Rattle.std.specs.Prelude.{◌≡◌, ℕ, List, map, length, slice_get, Some, Ok};
ghost use Rattle.std.specs.List.{All};
ghost use Rattle.cw_unit.specs.declared.unit.Unit.{Unit as SourceUnit};
ghost use Rattle.cw_unit.specs.declared.layout.Limits.{Limits};
ghost use Rattle.cw_unit.specs.declared.layout.Map.{Map};
ghost use Rattle.cw_unit.specs.Allocation.{storage_of};
ghost use Rattle.cw_unit.specs.ValidStorage.{IsStorable, ValidStorageMap};
ghost use Rattle.cw_comm.specs.declared.face.Agreed.{Agreed};
ghost use Rattle.cw_comm.specs.declared.face.Face.{Face};
ghost use Rattle.cw_comm.specs.Clashes.{agreed_of};
ghost use Rattle.cw_place.specs.declared.space.Space.{Space};
ghost use Rattle.cw_place.specs.Segments.{names_of, segment_storage, AreOf, HaveOwnFamilies};
ghost use Rattle.cw_place.specs.Placement.{AnswersPlace};

use cw_comm::laws::names;
use cw_unit::laws::storage_maps;

/// A map that is given for units is valid: overlaid items share exactly their words, others none but those of absolute
/// families whose numbers meet.
pub fn valid_maps()
    ensures { (agreed : Agreed) (spaces : List Space) (us : List SourceUnit) (limits : Limits) (m : Map)
        → segment_storage agreed spaces ≡ map storage_of us → All IsStorable us
        → AnswersPlace (segment_storage agreed spaces) spaces limits (Ok m) → ValidStorageMap us limits m }
{
    storage_maps();
}

/// What segments agree on serves their spaces, and gives each descriptor its name.
pub fn agreed_segments()
    ensures of { (faces : List Face) (spaces : List Space) → length faces ≡ length spaces → HaveOwnFamilies faces spaces → AreOf (agreed_of faces) spaces }
    ensures names { (faces : List Face) (g : ℕ) (f : Face) → slice_get faces g ≡ Some f → names_of (agreed_of faces) g ≡ map (λ d. d.name) f.descs }
{
    names();
}
