//! Laws of the orders of expressions.
ghost use Rattle.std.specs.Prelude.{◌≡◌, ℕ};
ghost use Rattle.cw_unit.specs.declared.unit.Expr.{Expr};
ghost use Rattle.cw_unit.specs.Scales.{natural_scale, operand_scale};
ghost use Rattle.cw_gen_expr.specs.ReferenceExpressions.{Scope, value_of};

/// The scales by which orders are made are those of the source semantics.
pub fn scales()
    ensures natural { (s : Scope) (e : Expr) → (value_of s e).natural ≡ natural_scale s.unit e }
    ensures operand { (s : Scope) (e : Expr) → (value_of s e).operand ≡ operand_scale s.unit e }
{}
