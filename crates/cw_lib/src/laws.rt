//! Laws of the definitions.
ghost use Rattle.std.specs.Prelude.{List, length};
ghost use Rattle.std.specs.List.{AllByRecursion};
ghost use Rattle.cw_lib.specs.LibraryFormat.{Bytes, IsNumber, IsMember, library_bytes, IsLibrary};
ghost use Rattle.cw_lib.specs.Uniqueness.{HasNotBoth, HasOneFault, HasOneLibrary};

/// Bytes are a library of at most one list of members, they have at most one first fault, and not both; what is written
/// of members is the library of just these.
#[tactic(auto, using(crate::proofs::Unique::laws))]
pub fn library_format()
    ensures one { HasOneLibrary }
    ensures fault { HasOneFault }
    ensures not_both { HasNotBoth }
    ensures written { (members : List Bytes) → IsNumber (length members) → AllByRecursion IsMember members → IsLibrary (library_bytes members) members }
{}
