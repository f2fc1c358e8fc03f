//! Laws of the definitions.
ghost use Rattle.cw_obj.specs.Writable.{TellsUnits, WritesObjects};

/// What is written is in the format, and tells the unit.
#[tactic(auto, using(crate::proofs::Written::written, crate::proofs::Telling::telling))]
pub fn object_written()
    ensures format { WritesObjects }
    ensures tells { TellsUnits }
{}
