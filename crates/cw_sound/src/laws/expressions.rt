//! Laws of the expressions, conditions, references and calls of a text: each is a function without a body, whose contract is the law.
//!
//! In the body of the segment, or of one of its procedures, the names that are used stand for right things of a unit, no type has a fault, and,
//! where a law speaks of ranges, the declarations are in range.
ghost use Rattle.std.specs.Prelude.{◌≡◌, ℕ, ◌≤◌, List, map, ◌++◌, Bool, true, false, IsTrue, Option, Some, None};
ghost use Rattle.cw_tree.specs.declared.leaf.RawName.{RawName};
ghost use Rattle.cw_tree.specs.declared.expression.RawExpr.{RawExpr};
ghost use Rattle.cw_tree.specs.declared.expression.RawCond.{RawCond};
ghost use Rattle.cw_tree.specs.declared.expression.RawRef.{RawRef};
ghost use Rattle.cw_facts.specs.declared.fact.Form.TheVariants as form;
ghost use Rattle.cw_facts.specs.declared.fact.Reading.{Reading};
ghost use Rattle.cw_facts.specs.Uses.{expression_uses, condition_uses, reference_uses, argument_uses, uses_of};
ghost use Rattle.cw_scope.specs.declared.resolve.Named.{Named};
ghost use Rattle.cw_scale.specs.Kinds.{signature_of};
ghost use Rattle.cw_scale.specs.TypeRules.{expression, condition, reference, call_faults};
ghost use Rattle.cw_make_expr.specs.Parts.{Numbers};
ghost use Rattle.cw_make_expr.specs.Made.{expression_of, condition_of, reference_of, call_of};
ghost use Rattle.cw_unit.specs.declared.unit.Unit.{Unit as SourceUnit};
ghost use Rattle.cw_safety.specs.WellFormed as formed;
ghost use Rattle.cw_gen_expr.specs.NamedItems.{has_words};
ghost use Rattle.cw_gen_expr.specs.BuiltExpressions.{most_levels, all_built, is_expression, is_condition, is_argument, built_reference};
ghost use Rattle.cw_built.specs.Built.{alone, at_work};
ghost use Rattle.cw_sound.specs.Uses.Stands.{FactsStand};
ghost use Rattle.cw_sound.specs.Expressions.Readings.{is_evaluated, is_placed};
ghost use Rattle.cw_sound.specs.Expressions.Levels.{largest, then_levels, condition_levels, reference_levels};
ghost use Rattle.cw_sound.specs.Expressions.Regular.{all, is_regular, is_regular_condition, is_regular_reference};
ghost use Rattle.std.specs.declared.result.Result.TheVariants.{Ok};
ghost use Rattle.cw_scope.specs.Outcome.{Resolves};
ghost use Rattle.cw_judge.specs.Judged.{first_type_fault};
ghost use Rattle.cw_number.specs.Numbers.{numbers_of};
ghost use Rattle.cw_make.specs.Made.{unit_of};
ghost use Rattle.cw_deepest.specs.Linked.UnitFits.{UnitFits};
ghost use Rattle.cw_compile.specs.Texts.{IsUnitOf};
ghost use Rattle.cw_sound.specs.Names.Placed.{Placed};
ghost use Rattle.cw_sound.specs.Names.Standing.{ItemsStand};
ghost use Rattle.cw_sound.specs.Statements.Bodies.{block_bodies};
ghost use Rattle.cw_sound.specs.Statements.Counted.{Counted};
ghost use Rattle.cw_writable.specs.Coded.RangedExpressions.{all_ranged, is_ranged_expression, is_ranged_condition, is_ranged_argument, ranged_reference};
ghost use Rattle.cw_sound.specs.Ranges.Declared.{DeclarationsInRange};

use crate::laws::names::{all_stand, counts, descriptors_named, few_parameters, uses_found};
use crate::laws::statements::bodies;
use crate::laws::storage::{items_stand, parts_free};
use crate::laws::texts::text_trees;
use crate::laws::units::{bodies_counted, items_declared};

/// The trees have orders that do what they mean: each with no more conditional expressions in one another's THEN parts than there are levels.
pub fn built()
    ensures expression { (named : Named) (numbers : Numbers) (u : SourceUnit) (who : Option ℕ) (r : Reading)
        (e : RawExpr) (f levels : ℕ) → IsTrue (is_regular e) → IsTrue (is_evaluated r)
        → FactsStand named numbers u (expression_uses e r) who → (expression named e).faults f None ≡ None → f ≤ 15
        → then_levels e ≤ levels → levels ≤ most_levels
        → IsTrue (is_expression u (has_words u who) (expression_of named numbers e) f levels) }
    ensures condition { (named : Named) (numbers : Numbers) (u : SourceUnit) (who : Option ℕ) (r : Reading)
        (c : RawCond) (f : ℕ) → IsTrue (is_regular_condition c) → FactsStand named numbers u (condition_uses c r) who
        → (condition named c).faults f None ≡ None → condition_levels c ≤ most_levels
        → IsTrue (is_condition u (has_words u who) (condition_of named numbers c)) }
    ensures reference { (named : Named) (numbers : Numbers) (u : SourceUnit) (who : Option ℕ) (r : Reading)
        (x : RawRef) (f : ℕ) → IsTrue (is_regular_reference x) → IsTrue (is_placed r)
        → FactsStand named numbers u (reference_uses x r) who → (reference named x).faults f None ≡ None
        → reference_levels x ≤ most_levels → IsTrue
        (built_reference u (has_words u who) (reference_of named numbers x)).good }
    ensures scale { (named : Named) (numbers : Numbers) (u : SourceUnit) (who : Option ℕ) (x : RawRef)
        → IsTrue (is_regular_reference x)
        → (built_reference u (has_words u who) (reference_of named numbers x)).scale
        ≡ (reference named x).shape.natural }
    ensures call { (named : Named) (numbers : Numbers) (u : SourceUnit) (who : Option ℕ) (n : RawName)
        (es : List RawExpr) → IsTrue (all (map is_regular es))
        → FactsStand named numbers u (uses_of n form.Call ++ argument_uses es) who
        → call_faults named (signature_of named n) n (map (expression named) es) None ≡ None
        → largest (map then_levels es) ≤ most_levels
        → IsTrue (all_built (map (is_argument u (has_words u who)) (call_of named numbers n es).1)) }
{}

/// The trees are well formed.
pub fn well_formed()
    ensures expression { (named : Named) (numbers : Numbers) (u : SourceUnit) (who : Option ℕ) (r : Reading)
        (e : RawExpr) (f : ℕ) → IsTrue (is_regular e) → IsTrue (is_evaluated r)
        → FactsStand named numbers u (expression_uses e r) who → (expression named e).faults f None ≡ None → f ≤ 15
        → then_levels e ≤ most_levels
        → IsTrue (formed.is_expression (alone u) 0 (at_work who) (expression_of named numbers e)) }
    ensures condition { (named : Named) (numbers : Numbers) (u : SourceUnit) (who : Option ℕ) (r : Reading)
        (c : RawCond) (f : ℕ) → IsTrue (is_regular_condition c) → FactsStand named numbers u (condition_uses c r) who
        → (condition named c).faults f None ≡ None → condition_levels c ≤ most_levels
        → IsTrue (formed.is_condition (alone u) 0 (at_work who) (condition_of named numbers c)) }
    ensures reference { (named : Named) (numbers : Numbers) (u : SourceUnit) (who : Option ℕ) (r : Reading)
        (x : RawRef) (f : ℕ) → IsTrue (is_regular_reference x) → IsTrue (is_placed r)
        → FactsStand named numbers u (reference_uses x r) who → (reference named x).faults f None ≡ None
        → reference_levels x ≤ most_levels → IsTrue
        (formed.is_reference (alone u) 0 (at_work who) (reference_of named numbers x)) }
    ensures call { (named : Named) (numbers : Numbers) (u : SourceUnit) (who : Option ℕ) (n : RawName)
        (es : List RawExpr) → IsTrue (all (map is_regular es))
        → FactsStand named numbers u (uses_of n form.Call ++ argument_uses es) who
        → call_faults named (signature_of named n) n (map (expression named) es) None ≡ None
        → largest (map then_levels es) ≤ most_levels
        → IsTrue (formed.is_call (alone u) 0 (at_work who) false (call_of named numbers n es).0
        (formed.kinds_of (map (formed.kind_of (alone u) 0 (at_work who)) (call_of named numbers n es).1))) }
{}

/// The unit of what is named fits, where it has no fault, its items stand, and its bodies are those of the procedures from 0 on.
pub fn named_units_fit()
    ensures { (named : Named) → Resolves named.raw.now (Ok named) → first_type_fault named ≡ None
        → Placed named.raw.now → ItemsStand named (numbers_of named) (unit_of named)
        → Counted (numbers_of named) 0 (block_bodies named.raw.now.block) → UnitFits (unit_of named) }
{
    all_stand();
    bodies();
    counts();
    descriptors_named();
    few_parameters();
    parts_free();
    uses_found();
}

/// The calls of each text's unit fit.
pub fn units_fit()
    ensures { (text : List ℕ) (u : SourceUnit) → IsUnitOf text u → UnitFits u }
{
    text_trees();
    items_stand();
    items_declared();
    bodies_counted();
    named_units_fit();
}

/// The numbers of the trees are in range.
pub fn expressions()
    ensures expression { (named : Named) (numbers : Numbers) (u : SourceUnit) (who : Option ℕ) (r : Reading)
        (e : RawExpr) (f : ℕ) → DeclarationsInRange named → IsTrue (is_regular e) → IsTrue (is_evaluated r)
        → FactsStand named numbers u (expression_uses e r) who → (expression named e).faults f None ≡ None → f ≤ 15
        → then_levels e ≤ most_levels → IsTrue (is_ranged_expression u (expression_of named numbers e) f) }
    ensures condition { (named : Named) (numbers : Numbers) (u : SourceUnit) (who : Option ℕ) (r : Reading)
        (c : RawCond) (f : ℕ) → DeclarationsInRange named → IsTrue (is_regular_condition c)
        → FactsStand named numbers u (condition_uses c r) who → (condition named c).faults f None ≡ None
        → condition_levels c ≤ most_levels → IsTrue (is_ranged_condition u (condition_of named numbers c)) }
    ensures reference { (named : Named) (numbers : Numbers) (u : SourceUnit) (who : Option ℕ) (r : Reading)
        (x : RawRef) (f : ℕ) → DeclarationsInRange named → IsTrue (is_regular_reference x) → IsTrue (is_placed r)
        → FactsStand named numbers u (reference_uses x r) who → (reference named x).faults f None ≡ None
        → reference_levels x ≤ most_levels → IsTrue (ranged_reference u (reference_of named numbers x)).good }
    ensures call { (named : Named) (numbers : Numbers) (u : SourceUnit) (who : Option ℕ) (n : RawName)
        (es : List RawExpr) → DeclarationsInRange named → IsTrue (all (map is_regular es))
        → FactsStand named numbers u (uses_of n form.Call ++ argument_uses es) who
        → call_faults named (signature_of named n) n (map (expression named) es) None ≡ None
        → largest (map then_levels es) ≤ most_levels
        → IsTrue (all_ranged (map (is_ranged_argument u) (call_of named numbers n es).1)) }
{}
