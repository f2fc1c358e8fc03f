//! Laws of the lines of statements, each the contract of a function that does nothing.
ghost use Rattle.std.specs.Prelude.{◌≡◌, ◌++◌, map, flat_map};
ghost use Rattle.cw_unit.specs.declared.unit.Unit.{Unit as SourceUnit};
ghost use Rattle.cw_unit.specs.declared.unit.Stmt.{Stmt, out-Stmt};
ghost use Rattle.cw_unit.specs.Begun.{line_of};
ghost use Rattle.cw_gen_unit.specs.ReferenceUnits.{unit_orders};
ghost use Rattle.cw_tmpl.specs.ReferenceCode.{orders_code};
ghost use Rattle.cw_traced.specs.Lines.Lines.{parts_of, lines_in, unit_lines};

/// The code of a unit tells the line of each statement that is begun as a whole, in the order in which their code stands: that of the segment's body, then
/// those of its procedures.
pub fn lines_of_code()
    ensures { (u : SourceUnit) → map (λ s. s.1) (orders_code (unit_orders u)).statements ≡ unit_lines u }
{}

/// The lines of a statement are its own, if it is begun as a whole, and behind it those of its parts in the order of the text.
pub fn lines_by_parts()
    ensures { (t : Stmt) → lines_in t ≡ line_of (out-Stmt t) ++ flat_map lines_in (parts_of (out-Stmt t)) }
{}
