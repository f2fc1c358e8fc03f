//! Laws of units that are linked: each is a function without a body, whose contract is the law.
ghost use Rattle.std.specs.Prelude.{◌≢◌, ◌≤◌, ℕ, List, [], length, All, IsTrue};
ghost use Rattle.cw_unit.specs.{declared.unit.Unit.Unit as SourceUnit, declared.layout.Limits.Limits, Program.program_of, Stop.Stopped, Stop.DepthReached, Behaviour.observed};
ghost use Rattle.cw_comm.specs.Clashes.{Agree};
ghost use Rattle.cw_built.specs.{Built.is_built, Shared.faces_of};
ghost use Rattle.cw_depth.specs.{declared.depth_report.Report.TheVariants.Bound, Told.IsReport};
ghost use Rattle.cw_deepest.specs.Linked.UnitFits.{UnitFits};

/// Where units are built and agree, and the calls of each fit by what its descriptors say: if their depth report tells a longest chain, no run at a
/// limit of that many calls or more is stopped by the depth of its calls.
pub fn no_depth_stop()
    ensures { (units : List SourceUnit) (limits : Limits) (chain : List (ℕ × ℕ)) (input : List ℕ)
        (m segment line : ℕ) → units ≢ [] → All (λ u. IsTrue (is_built u)) units → Agree (faces_of units)
        → All UnitFits units → IsReport units (Bound chain) → length chain ≤ limits.depth →
        (observed (program_of units limits) input m).end ≢ Stopped DepthReached segment line }
{}
