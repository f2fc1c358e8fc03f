//! Laws of the linked image.
ghost use Rattle.std.specs.Prelude.{◌≡◌, ◌++◌, ℕ, List, length, slice_index};
ghost use Rattle.cw_unit.specs.declared.layout.Limits.{Limits};
ghost use Rattle.cw_tmpl.specs.Library.{library_bytes};
ghost use Rattle.cw_link.specs.Contents.{Contents};
ghost use Rattle.cw_link.specs.LinkedImage.{joined_code, linked_size, linked_code};
ghost use Rattle.cw_link.specs.OtherBytes.{IsInNoWord};

/// The linked code is as long as the library's and the objects' code, and each byte that is in no relocated word is theirs.
pub fn other_bytes()
    ensures size { (cs : List Contents) (limits : Limits) → length (linked_code cs limits) ≡ linked_size cs }
    ensures bytes { (cs : List Contents) (limits : Limits) (k : ℕ) → IsInNoWord (length library_bytes) cs k
        → slice_index (linked_code cs limits) k ≡ slice_index (library_bytes ++ joined_code cs) k }
{}
