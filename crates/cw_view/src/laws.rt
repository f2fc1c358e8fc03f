//! Laws of the definitions.
ghost use Rattle.cw_view.specs.Uniqueness.{HasNotBoth, HasOneFault, HasOneObject};

/// Bytes are at most one object, they have at most one first fault, and not both.
#[tactic(auto, using(crate::proofs::Unique::laws))]
pub fn object_format()
    ensures one { HasOneObject }
    ensures fault { HasOneFault }
    ensures not_both { HasNotBoth }
{}
