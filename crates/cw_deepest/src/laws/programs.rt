//! Laws of the definitions: each is a function without a body, whose contract is the law.
ghost use Rattle.std.specs.Prelude.{◌≢◌, ◌≤◌, ℕ, List, length};
ghost use Rattle.cw_unit.specs.{declared.unit.Unit.Unit as SourceUnit, declared.layout.Limits.Limits, Program.program_of, Stop.Stopped, Stop.DepthReached, Behaviour.observed};
ghost use Rattle.cw_safety.specs.WellFormed.{WellFormed};
ghost use Rattle.cw_depth.specs.{declared.depth_report.Report.TheVariants.Bound, Told.IsReport};
ghost use Rattle.cw_deepest.specs.Programs.Fitting.{CallsFit};

/// Where the depth report of well-formed units whose calls fit tells a longest chain, no run at a limit of that many calls or more is stopped by
/// the depth of its calls.
pub fn no_depth_stop()
    ensures { (units : List SourceUnit) (limits : Limits) (chain : List (ℕ × ℕ)) (input : List ℕ)
        (m segment line : ℕ) → WellFormed (program_of units limits) → CallsFit units → IsReport units (Bound chain)
        → length chain ≤ limits.depth →
        (observed (program_of units limits) input m).end ≢ Stopped DepthReached segment line }
{}
