//! Laws of what an object has before its code: each is a function without a body, whose contract is the law.
ghost use Rattle.std.specs.Prelude.{◌≡◌, true, IsTrue, length};
ghost use Rattle.std.specs.List.{list_all};
ghost use Rattle.cw_unit.specs.declared.unit.Unit.{Unit as SourceUnit};
ghost use Rattle.cw_unit.specs.Storage.{layout_of};
ghost use Rattle.cw_fields.specs.Names.{is_name};
ghost use Rattle.cw_object.specs.IsWritable.{are_listed, is_kept, are_entries, is_set, is_front};
ghost use Rattle.cw_writable.specs.Front.Front.{ItemsFit, HomesFit, PresetsFit, ItemsNamed};

/// The families of a unit are in the format: each has an extent that an area may have, is of a descriptor of the unit if of any, and has its place
/// in a frame.
pub fn families_kept()
    ensures { (u : SourceUnit) → ItemsFit u → HomesFit u → IsTrue (list_all (is_kept (length u.descs)) (layout_of u).families) }
{}

/// The words that a unit's items hold at the start are in the format: each is a word of a family that is in no frame.
pub fn presets_set()
    ensures { (u : SourceUnit) → ItemsFit u → PresetsFit u → IsTrue (list_all (is_set (layout_of u).families) (layout_of u).words) }
{}

/// The items of a unit are in the format: each has words of its family, and a name or a line.
pub fn entries_stand()
    ensures { (u : SourceUnit) → ItemsFit u → ItemsNamed u → IsTrue (are_entries 0 u (layout_of u) u.items) }
{}

/// What stands before the code is in the format, where its name and descriptors are, and its items fit.
pub fn front_of_parts()
    ensures { (u : SourceUnit) → IsTrue (is_name u.name) → IsTrue (are_listed 0 u.descs) → ItemsFit u → HomesFit u
        → PresetsFit u → ItemsNamed u → IsTrue (is_front u (layout_of u)) }
{
    families_kept();
    presets_set();
    entries_stand();
}
