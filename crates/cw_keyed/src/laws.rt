//! The law of the numbers: a function without a body, whose contract is the law.
ghost use Rattle.std.specs.Prelude.{◌≡◌, ℕ, Some};
ghost use Rattle.cw_unit.specs.declared.descriptor.Spec.{Spec as Specification};
ghost use Rattle.cw_keyed.specs.declared.specifications.Specifications.{Specifications as Table};
ghost use Rattle.cw_keyed.specs.Numbered.{number_of};

/// No two specifications have the same number.
pub fn one_specification()
    ensures { (table : Table) (one other : Specification) (n : ℕ) → number_of table one ≡ Some n → number_of table other ≡ Some n → one ≡ other }
{}
