//! The orders of a unit that is built, stored and in range have code: each law is a function without a body, whose contract is the law.
ghost use Rattle.std.specs.Prelude.{ℕ, ◌<◌, List, ◌∷◌, [], Option, IsTrue};
ghost use Rattle.std.specs.List.{list_all};
ghost use Rattle.cw_unit.specs.declared.unit.Unit.{Unit as SourceUnit};
ghost use Rattle.cw_unit.specs.declared.unit.Expr.{Expr};
ghost use Rattle.cw_unit.specs.declared.unit.Stmt.{Stmt};
ghost use Rattle.cw_gen_expr.specs.ReferenceExpressions.{Scope, argument_words, expression_piece};
ghost use Rattle.cw_gen_unit.specs.BuiltUnits.{are_built};
ghost use Rattle.cw_gen_unit.specs.ReferenceStatements.{statement_piece};
ghost use Rattle.cw_gen_unit.specs.ReferenceUnits.{unit_orders};
ghost use Rattle.cw_built.specs.Stored.{is_stored};
ghost use Rattle.cw_built.specs.Coded.{has_code, is_mark, has_few, is_entry, have_code};
ghost use Rattle.cw_writable.specs.Coded.RangedExpressions.{is_ranged_expression};
ghost use Rattle.cw_writable.specs.Coded.RangedUnits.{is_ranged_statement, is_ranged};

use cw_unit::laws::storage_maps;

/// The orders of an expression whose numbers are in range have code, where the line that they name is a word.
pub fn expressions()
    ensures { (s : Scope) → argument_words s.parameters < 256 → s.line < 65536 → (e : Expr) (f : ℕ)
        → IsTrue (is_ranged_expression s.unit e f) → (place next : ℕ)
        → IsTrue (list_all has_code (expression_piece s e f place next).orders) }
{}

/// The orders of a statement whose numbers are in range have code.
pub fn statements()
    ensures { (s : Scope) (who : Option ℕ) → argument_words s.parameters < 256 → (answer : ℕ) (t : Stmt)
        → IsTrue (is_ranged_statement s.unit answer t) → (place next : ℕ)
        → IsTrue (list_all has_code (statement_piece s who answer t place next).orders) }
{}

/// The orders of a unit have code.
pub fn coded()
    ensures { (u : SourceUnit) → IsTrue (is_stored u) → IsTrue (are_built (u ∷ [])) → IsTrue (is_ranged u) → IsTrue (have_code (unit_orders u)) }
{
    storage_maps();
}

/// The procedures of a unit begin where an activation is entered.
pub fn entries()
    ensures { (u : SourceUnit) → IsTrue (list_all (is_entry (unit_orders u).list (unit_orders u).marks) (unit_orders u).procedures) }
{}
