//! The code of a unit and the records behind it in its object are in the format of objects: each law is a function without a body, whose
//! contract is the law.
ghost use Rattle.std.specs.Prelude.{ℕ, ◌<◌, ◌≤◌, length, IsTrue};
ghost use Rattle.cw_unit.specs.declared.unit.Unit.{Unit as SourceUnit};
ghost use Rattle.cw_unit.specs.Storage.{layout_of};
ghost use Rattle.cw_unit.specs.StackBound.{unit_need};
ghost use Rattle.cw_gen_unit.specs.ReferenceUnits.{unit_orders};
ghost use Rattle.cw_built.specs.Built.{is_built};
ghost use Rattle.cw_built.specs.Coded.{have_code};
ghost use Rattle.cw_object.specs.IsWritable.{is_coded, are_filled, are_defined, are_begun, is_back};
ghost use Rattle.cw_writable.specs.Back.Ready.{code_of, IsReady};

/// The code and the facts of the body fit their fields.
pub fn body_fits()
    ensures { (u : SourceUnit) → IsReady u → length (code_of u).bytes ≤ 2097120 → unit_need u < 65536 → IsTrue (is_coded u (code_of u) (unit_need u)) }
{}

/// Relocations stand on blank words of the code, one behind another, each with an index that exists.
pub fn relocations_filled()
    ensures { (u : SourceUnit) → IsTrue (is_built u) → IsReady u → length (code_of u).bytes ≤ 2097120 →
        IsTrue (are_filled (length u.descs) (layout_of u).families (code_of u).bytes 0 (code_of u).relocs) }
{}

/// What is defined stands by rising descriptor, and has a place in the code.
pub fn definitions_placed()
    ensures { (u : SourceUnit) → IsTrue (is_built u) → IsTrue (have_code (unit_orders u)) → IsReady u → length (code_of u).bytes ≤ 2097120 →
        IsTrue (are_defined (length u.descs) (code_of u) 0 u.defined) }
{}

/// Statements begin at rising places of the code, and have lines.
pub fn statements_begun()
    ensures { (u : SourceUnit) → IsTrue (is_built u) → IsTrue (have_code (unit_orders u)) → IsReady u → length (code_of u).bytes ≤ 2097120 →
        IsTrue (are_begun (length (code_of u).bytes) 0 (code_of u).statements) }
{}

/// The code of a unit and the records behind it are in the format of objects.
pub fn back_writable()
    ensures { (u : SourceUnit) → IsTrue (is_built u) → IsTrue (have_code (unit_orders u))
        → length (code_of u).bytes ≤ 2097120 → unit_need u < 65536 → IsReady u →
        IsTrue (is_back u (layout_of u) (code_of u) (unit_need u)) }
{
    body_fits();
    relocations_filled();
    definitions_placed();
    statements_begun();
}
