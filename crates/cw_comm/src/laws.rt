//! Laws of the definitions.
ghost use Rattle.std.specs.Prelude.{◌≡◌, ◌≢◌, ◌<◌, ℕ, List, [], Some, length, map, slice_get, slice_index_or};
ghost use Rattle.cw_unit.specs.declared.descriptor.Desc.{Desc};
ghost use Rattle.cw_unit.specs.Allocation.{name_at};
ghost use Rattle.cw_comm.specs.declared.face.Face.{Face};
ghost use Rattle.cw_comm.specs.Agreement.{Name, Listing};
ghost use Rattle.cw_comm.specs.Numbered.{IsOnce, IsNumberOf};
ghost use Rattle.cw_comm.specs.Clashes.{Names, Lists, IsDifference, IsFirst, NoneBefore, IsFirstLister, agreed_of};

/// Where none was found before, a descriptor that differs from the first listing of its name is the first difference.
#[tactic(auto, using(crate::proofs::Differences::differences))]
pub fn first_difference()
    ensures { (faces : List Face) (j d first : ℕ) (name : Name) (here told : Listing) → Names faces j d name
        → IsFirstLister faces name first told → first < j → Lists faces j name here → here ≢ told
        → NoneBefore (IsDifference faces) j d → IsFirst (IsDifference faces) j d first name }
{}

/// What segments agree on has each name once, and the number of each descriptor is that of its name.
#[tactic(auto, using(crate::proofs::Naming::naming))]
pub fn names()
    ensures once { (faces : List Face) → IsOnce (agreed_of faces).names }
    ensures segments { (faces : List Face) → length (agreed_of faces).of ≡ length faces }
    ensures descriptors { (faces : List Face) (g : ℕ) (f : Face) → slice_get faces g ≡ Some f
        → length (slice_index_or (agreed_of faces).of g []) ≡ length f.descs }
    ensures numbers { (faces : List Face) (g n : ℕ) (f : Face) (d : Desc) → slice_get faces g ≡ Some f
        → slice_get f.descs n ≡ Some d → IsNumberOf (agreed_of faces) g n d.name }
    ensures told { (faces : List Face) (g : ℕ) (f : Face) → slice_get faces g ≡ Some f
        → map (name_at (agreed_of faces).names) (slice_index_or (agreed_of faces).of g [])
        ≡ map (λ d. d.name) f.descs }
{}
