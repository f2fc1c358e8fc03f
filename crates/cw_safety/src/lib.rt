//! Well-formed units: no step is stuck, and the operand stack stays within the depth of the body at work.
#![tactic(auto)]

ghost use Rattle.std.specs.Prelude.{◌≢◌, ℕ, ◌+◌, ◌≤◌, List, IsTrue};
ghost use Rattle.cw_unit.specs.Program.{Program};
ghost use Rattle.cw_unit.specs.Stop.{Stuck};
ghost use Rattle.cw_unit.specs.Configuration.{words_of};
ghost use Rattle.cw_unit.specs.StackBound.{control_need};
ghost use Rattle.cw_unit.specs.Behaviour.{configuration_after, observed};
ghost use Rattle.cw_safety.specs.WellFormed.{WellFormed, is_well_formed};
ghost use Rattle.cw_safety.specs.Depth.{operands_held, depth_in};
ghost use Rattle.cw_safety.specs.Coherent.{words_held, IsCoherent};

use cw_unit::laws::configurations;

/// The run of a program of well-formed units is never stuck.
pub fn never_stuck()
    ensures { (p : Program) (input : List ℕ) (m : ℕ) → WellFormed p → (observed p input m).end ≢ Stuck }
{}

/// In each configuration that such a run reaches, the operand stack holds no more than the depth of the body at work, where a control
/// argument counts two.
pub fn operands_within_depth()
    ensures { (p : Program) (input : List ℕ) (m : ℕ) → WellFormed p
        → operands_held (words_of (configuration_after p input m)).operands
        ≤ depth_in p (configuration_after p input m) }
{}

/// In each configuration that such a run reaches, a call finds its arguments, labels have their owners at work, a jump to a label and the
/// end of a body find nothing in hand, and a jump through a switch of the unit its index alone; two indexes that were compared with their
/// bounds lie between them where their address is formed.
pub fn coherent()
    ensures { (p : Program) (input : List ℕ) (m : ℕ) → WellFormed p → IsCoherent p (configuration_after p input m) }
{}

/// The words of the control stack in such a configuration, with room for 72 more, are no more than the need of its units.
pub fn words_within_need()
    ensures { (p : Program) (input : List ℕ) (m : ℕ) → WellFormed p → words_held p (configuration_after p input m) + 72 ≤ control_need p.units p.limits.depth }
{
    configurations();
}

/// The test tells well-formed units.
pub fn tested()
    ensures { (p : Program) → IsTrue (is_well_formed p) → WellFormed p }
{}
