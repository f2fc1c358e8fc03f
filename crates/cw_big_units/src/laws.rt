//! Laws of the texts of a large program: each is a function without a body, whose contract is the law.
ghost use Rattle.std.specs.Prelude.{ℕ, ◌≤◌, Bool};
ghost use Rattle.cw_tree.specs.declared.segment.Raw.{Raw};
ghost use Rattle.cw_scope.specs.declared.resolve.Named.{Named};
ghost use Rattle.cw_unit.specs.declared.unit.Unit.{Unit as SourceUnit};
ghost use Rattle.cw_compile.specs.Texts.{HasTree, HasNames, IsUnitOf};
ghost use Rattle.cw_big.specs.LargeProgram.{large_text};

use cw_read_back::laws::plain::expands_to_itself;

/// Each text of a large program is a text of the grammar.
pub fn large_trees()
    ensures { (i : ℕ) (is_last : Bool) → 1 ≤ i → i ≤ 100 → (raw : Raw) × HasTree (large_text i is_last) raw }
{
    expands_to_itself();
}

/// Each text of a large program breaks no rule of names.
pub fn large_names()
    ensures { (i : ℕ) (is_last : Bool) → 1 ≤ i → i ≤ 100 → (named : Named) × HasNames (large_text i is_last) named }
{
    expands_to_itself();
}

/// Each text of a large program has a unit: none of its passes finds a fault.
pub fn large_units()
    ensures { (i : ℕ) (is_last : Bool) → 1 ≤ i → i ≤ 100 → (unit : SourceUnit) × IsUnitOf (large_text i is_last) unit }
{
    expands_to_itself();
}
