//! Laws of units that are compiled and linked.
ghost use Rattle.std.specs.Prelude.{◌≡◌, ◌+◌, ◌*◌, ◌≤◌, List, map, sum, length, All};
ghost use Rattle.cw_unit.specs.declared.unit.Unit.{Unit as SourceUnit};
ghost use Rattle.cw_unit.specs.declared.layout.Limits.{Limits as RunLimits};
ghost use Rattle.cw_unit.specs.Allocation.{storage_map};
ghost use Rattle.cw_link.specs.LinkedImage.{linked_map, linked_size};
ghost use Rattle.cw_build.specs.Compiled.{IsCompilable, contents_of_units};
ghost use Rattle.cw_build.specs.Linking.{image_of};

use cw_link::laws::other_bytes;
use cw_tmpl::laws::sizes;

/// The image of units that can be compiled has at most 32 bytes of code for each token of their texts, and 4,096 for the library. So it is too long only where
/// the texts are. And the storage map of their objects is that of the units.
pub fn linked_units()
    ensures size { (us : List SourceUnit) (limits : RunLimits) → All IsCompilable us
        → linked_size (contents_of_units us) ≤ 32 * sum (map (λ u. u.tokens) us) + 4096 }
    ensures code { (us : List SourceUnit) (limits : RunLimits) → length (image_of us limits).code ≡ linked_size (contents_of_units us) }
    ensures map { (us : List SourceUnit) → linked_map (contents_of_units us) ≡ storage_map us }
{
    other_bytes();
    sizes();
}
