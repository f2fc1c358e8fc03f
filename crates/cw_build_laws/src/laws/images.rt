//! Laws of units that can be compiled.
ghost use Rattle.std.specs.Prelude.{◌≡◌, ◌≢◌, ◌↔◌, ◌<◌, ◌≤◌, ℕ, List, [], length, map, All};
ghost use Rattle.cw_i86.specs.{State.State, MachineRun.IsStart};
ghost use Rattle.cw_unit.specs.{declared.unit.Unit.Unit as SourceUnit, declared.layout.Limits.Limits, Allocation.storage_map, ValidStorage.ValidStorageMap};
ghost use Rattle.cw_place.specs.Placement.{IsLimits};
ghost use Rattle.cw_sim.specs.Preservation.{IsLoaded};
ghost use Rattle.cw_view.specs.ObjectFormat.{IsObject};
ghost use Rattle.cw_link.specs.LinkedImage.{linked_image};
ghost use Rattle.cw_object.specs.ObjectContents.{contents_in};
ghost use Rattle.cw_obj.specs.Migration.{IsMigrated};
ghost use Rattle.cw_build.specs.{Compiled.IsCompilable, Compiled.object_of, Linking.AreLinked, Linking.Links, Linking.image_of};

use crate::laws::built::{built_units, codable};
use cw_build::laws::linked_units;
use cw_object::laws::{object_of_unit, writable};
use cw_place::laws::{agreed_segments, valid_maps};
use cw_tmpl::laws::filling;

/// Units that can be compiled and link, 200 at most: their storage map is valid, and the processor that begins with their image and their first words is loaded
/// with them, at every input of bytes.
pub fn loaded()
    ensures valid_storage { (us : List SourceUnit) (limits : Limits) → All IsCompilable us → Links us limits → ValidStorageMap us limits (storage_map us) }
    ensures started { (us : List SourceUnit) (limits : Limits) (input : List ℕ) (s : State) → us ≢ []
        → length us ≤ 200 → All IsCompilable us → IsLimits limits → Links us limits → All (λ b. b < 256) input →
        IsStart (image_of us limits).code (image_of us limits).words s → IsLoaded us (storage_map us) limits input s }
{
    built_units();
    codable();
    writable();
    valid_maps();
    agreed_segments();
    filling();
    linked_units();
}

/// Segments that are compiled apart are linked as those that are compiled together: the objects of units that can be compiled are objects, link to the image of
/// the units, and exactly where these link. An object of an older version tells what it tells as one of the newer.
pub fn separate_objects()
    ensures opened { (us : List SourceUnit) → All IsCompilable us → All IsObject (map object_of us) }
    ensures linked { (us : List SourceUnit) (limits : Limits) → All IsCompilable us → AreLinked (map contents_in (map object_of us)) limits ↔ Links us limits }
    ensures image { (us : List SourceUnit) (limits : Limits) → All IsCompilable us
        → linked_image (map contents_in (map object_of us)) limits ≡ image_of us limits }
    ensures migrated { (object migrated : List ℕ) → IsMigrated object migrated → contents_in migrated ≡ contents_in object }
{
    object_of_unit();
}
