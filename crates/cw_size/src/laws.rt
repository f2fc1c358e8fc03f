//! The code of a unit is short by the tokens that a text of it has at least: each law is a function without a body, whose contract is the law.
ghost use Rattle.std.specs.Prelude.{ℕ, ◌+◌, ◌*◌, ◌≤◌, Option, length};
ghost use Rattle.cw_unit.specs.{declared.unit.Unit.Unit as SourceUnit, declared.unit.Expr.Expr, declared.unit.Stmt.Stmt};
ghost use Rattle.cw_tokens.specs.{LeastTokens.expression_tokens, LeastTokens.statement_tokens, LeastTokens.least_tokens, SetLabels.set_labels, SetLabels.LabelsStand};
ghost use Rattle.cw_tmpl.specs.{Sizes.listed_sizes, ReferenceCode.orders_code, ReferenceCode.switch_sizes};
ghost use Rattle.cw_gen_expr.specs.ReferenceExpressions.{Scope, expression_piece};
ghost use Rattle.cw_gen_unit.specs.{ReferenceStatements.statement_piece, ReferenceUnits.unit_orders};

use cw_tmpl::laws::sizes;

/// The orders of an expression, at whatever scale, have at most 32 bytes for each of its tokens, and 5 more.
pub fn short_expressions()
    ensures { (s : Scope) (e : Expr) (f place next : ℕ) → listed_sizes (expression_piece s e f place next).orders ≤ 32 * expression_tokens e + 5 }
{}

/// The orders of a statement, with the landings of the labels that it sets, have at most 32 bytes for each of its tokens.
pub fn short_statements()
    ensures { (s : Scope) (who : Option ℕ) (answer : ℕ) (t : Stmt) (place next : ℕ)
        → listed_sizes (statement_piece s who answer t place next).orders + 15 * set_labels t
        ≤ 32 * statement_tokens t }
{}

/// The code of a unit whose labels stand in its bodies has at most 32 bytes for each token that a text of it has at least.
pub fn short_code()
    ensures { (u : SourceUnit) → LabelsStand u → length (orders_code (unit_orders u)).bytes ≤ 32 * least_tokens u }
{
    sizes();
}
