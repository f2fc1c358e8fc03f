//! Laws of canonical text and the grammar: each is a function without a body, whose contract is the law.
ghost use Rattle.std.specs.Prelude.{Bool};
ghost use Rattle.cw_grammar.specs.Grammar.{an_expr, a_cond, a_ref};
ghost use Rattle.cw_grammar.specs.Rules.{expr, condition, reference};
ghost use Rattle.cw_show.specs.ExpressionTokens.{expr_tokens, cond_tokens, ref_tokens};
ghost use Rattle.cw_read_back.specs.Expressions.ReadingBack.{ReadsBack};
ghost use Rattle.cw_read_back.specs.Expressions.Unplaced.{unplaced_expr, unplaced_cond, unplaced_ref};

/// The canonical tokens of an expression, a condition or a reference derive it again, but for positions.
pub fn expressions()
    ensures expression { (p : Bool) → ReadsBack p an_expr expr expr_tokens unplaced_expr }
    ensures condition { (p : Bool) → ReadsBack p a_cond condition cond_tokens unplaced_cond }
    ensures reference { (p : Bool) → ReadsBack p a_ref reference ref_tokens unplaced_ref }
{}
