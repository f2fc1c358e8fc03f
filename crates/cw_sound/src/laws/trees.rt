//! Laws of the trees of texts, their lines and their tokens: each is a function without a body, whose contract is the law.
ghost use Rattle.std.specs.Prelude.{ℕ, ◌≤◌, List, length, All, IsTrue, suc, ◌+◌, Bool, map, Option};
ghost use Rattle.cw_lex.specs.{Lexical.Lexeme, Lexical.Tokenizes, Lexical.first_place, declared.token.Form.TheVariants.Source};
ghost use Rattle.cw_tree.specs.{declared.segment.Raw.Raw, declared.leaf.RawName.RawName, declared.expression.RawExpr.RawExpr, declared.expression.RawCond.RawCond};
ghost use Rattle.cw_tree.specs.{declared.expression.RawRef.RawRef, declared.statement.RawBlock.RawBlock, declared.statement.RawStmt.RawStmt};
ghost use Rattle.cw_tokens.specs.{Texts.IsTreeOf, TreeTokens.text_tokens, TreeTokens.expr_tokens, TreeTokens.cond_tokens, TreeTokens.ref_tokens, TreeTokens.stmt_tokens};
ghost use Rattle.cw_tokens.specs.{TreeTokens.block_tokens, LeastTokens.arguments, LeastTokens.each_argument, LeastTokens.expression_tokens, LeastTokens.condition_tokens};
ghost use Rattle.cw_tokens.specs.LeastTokens.{reference_tokens, statement_tokens, procedures_tokens, switches_tokens, least_tokens};
ghost use Rattle.cw_grammar.specs.Grammar.{a_list, an_expr, a_cond, a_ref, a_stmt, a_block};
ghost use Rattle.cw_sound.specs.{Statements.Levels.block_levels, Names.Placed.Placed, Items.Derived.HasRisingTokens, Items.Derived.HasNames, Items.Derived.HasPlainProcedures};
ghost use Rattle.cw_sound.specs.{Statements.Bodies.block_bodies, Statements.Regular.is_regular_block, Statements.Counted.BodiesFit, Ready.Lined.PositionsFit};
ghost use Rattle.cw_sound.specs.Lines.Counted.{HasLine};
ghost use Rattle.cw_spelled.specs.Proper.{IsProperToken};
ghost use Rattle.cw_gen_expr.specs.BuiltExpressions.{most_levels};
ghost use Rattle.cw_macro.specs.Expansion.{Expands};
ghost use Rattle.cw_derived.specs.NormalForm.{IsNormal};
ghost use Rattle.cw_scope.specs.declared.resolve.Named.{Named};
ghost use Rattle.cw_make_expr.specs.{Parts.Numbers, Made.expression_of, Made.condition_of, Made.reference_of, Made.call_of};
ghost use Rattle.cw_make_stmt.specs.Made.{statement_of, block_of};
ghost use Rattle.cw_make.specs.{Made.unit_of, Procedures.statement_procs, Procedures.block_procs, Switches.statement_switches, Switches.block_switches};

use cw_derived::laws::in_normal_form;

/// The tokens of the facts of a text rise, its names have characters, and no procedure stands in another.
pub fn items_derived()
    ensures rising { (n : ℕ) (ts : List Lexeme) (raw : Raw) → length ts ≤ 65535 → IsTreeOf n ts raw → HasRisingTokens raw }
    ensures named { (n : ℕ) (ts : List Lexeme) (raw : Raw) → IsTreeOf n ts raw → HasNames raw }
    ensures plain { (n : ℕ) (ts : List Lexeme) (raw : Raw) → IsTreeOf n ts raw → HasPlainProcedures raw }
{}

/// A text needs as many levels as its tokens open inside one another, at most.
pub fn within_levels()
    ensures { (n : ℕ) (ts : List Lexeme) (raw : Raw) → IsTreeOf n ts raw → block_levels raw.block ≤ n }
{}

/// The names of a text stand at tokens of their own, those of communicators before those of the outermost block.
pub fn placed()
    ensures { (n : ℕ) (ts : List Lexeme) (raw : Raw) → length ts ≤ 65535 → IsTreeOf n ts raw → Placed raw }
{}

/// The trees of a text are as the grammar gives them: its literals are bytes, no FOR has too many elements, and procedures' bodies are so too.
pub fn regular()
    ensures block { (n : ℕ) (ts : List Lexeme) (raw : Raw) → All IsProperToken ts → length ts ≤ 65535
        → IsTreeOf n ts raw → text_tokens raw ≤ length ts
        → IsTrue (is_regular_block raw.block) }
    ensures bodies { (n : ℕ) (ts : List Lexeme) (raw : Raw) → All IsProperToken ts → length ts ≤ 65535
        → IsTreeOf n ts raw → text_tokens raw ≤ length ts → n ≤ most_levels
        → BodiesFit (block_bodies raw.block) }
{}

/// The statements of a text have lines, which are numbered from 1.
pub fn positions_fit()
    ensures { (n : ℕ) (ts : List Lexeme) (raw : Raw) → All HasLine ts → length ts ≤ 65535 → IsTreeOf n ts raw → PositionsFit raw }
{}

/// Each token of what a text expands to has a line, counted from 1.
pub fn lines_counted()
    ensures { (text : List ℕ) (tokens expanded : List Lexeme) → Tokenizes Source first_place text tokens → Expands tokens expanded → All HasLine expanded }
{}

/// What is made of an expression, a condition, a reference or the arguments of a call in normal form has no more tokens than it.
pub fn expressions_counted()
    ensures expression { (named : Named) (numbers : Numbers) (n : ℕ) (p : Bool) (e : RawExpr) (a : List ℕ)
        → IsNormal n p an_expr e a → expression_tokens (expression_of named numbers e) ≤ expr_tokens e }
    ensures condition { (named : Named) (numbers : Numbers) (n : ℕ) (p : Bool) (c : RawCond) (a : List ℕ)
        → IsNormal n p a_cond c a → condition_tokens (condition_of named numbers c) ≤ cond_tokens c }
    ensures reference { (named : Named) (numbers : Numbers) (n : ℕ) (p : Bool) (r : RawRef) (a : List ℕ)
        → IsNormal n p a_ref r a → reference_tokens (reference_of named numbers r) ≤ ref_tokens r }
    ensures call { (named : Named) (numbers : Numbers) (n : ℕ) (p : Bool) (f : RawName) (es : List RawExpr)
        (a : List ℕ) → IsNormal n p (a_list an_expr) es a
        → arguments (each_argument (call_of named numbers f es).1) ≤ arguments (map expr_tokens es) }
{}

/// What is made of a statement or a block in normal form, with the procedures and switches that are declared in it, has no more tokens than it;
/// the BEGIN of the block counts beside.
pub fn statements_counted()
    ensures statement { (named : Named) (numbers : Numbers) (n : ℕ) (p : Bool) (s : RawStmt) (a : List ℕ)
        (q : Option ℕ) → IsNormal n p a_stmt s a
        → statement_tokens (statement_of named numbers s) +
        (procedures_tokens (statement_procs named numbers s) + switches_tokens
        (statement_switches named numbers s q)) ≤ stmt_tokens s }
    ensures block { (named : Named) (numbers : Numbers) (n : ℕ) (p : Bool) (b : RawBlock) (a : List ℕ) (q : Option ℕ)
        → IsNormal n p a_block b a
        → suc (statement_tokens (block_of named numbers b) +
        (procedures_tokens (block_procs named numbers b) + switches_tokens (block_switches named numbers b q)))
        ≤ block_tokens b }
{}

/// A text's unit has no more tokens than its tree.
pub fn unit_counted()
    ensures { (n : ℕ) (ts : List Lexeme) (named : Named) → IsTreeOf n ts named.raw.now
        → least_tokens (unit_of named) ≤ text_tokens named.raw.now }
{
    in_normal_form();
}
