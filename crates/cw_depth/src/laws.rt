//! Laws of the definitions: each is a function without a body, whose contract is the law.
ghost use Rattle.std.specs.Prelude.{◌≡◌, List};
ghost use Rattle.cw_unit.specs.declared.unit.Unit.{Unit as SourceUnit};
ghost use Rattle.cw_depth.specs.declared.depth_report.Report.{Report as Told};
ghost use Rattle.cw_depth.specs.Told.{IsReport};

/// A program has at most one report.
pub fn one_report()
    ensures { (units : List SourceUnit) (one other : Told) → IsReport units one → IsReport units other → one ≡ other }
{}
