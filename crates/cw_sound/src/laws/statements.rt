//! Laws of the statements of a text, and of the numbers of its unit: each is a function without a body, whose contract is the law.
//!
//! In the body of the segment, or of one of its procedures, the names that are used stand for right things of a unit, ANSWER too, and no type has
//! a fault.
ghost use Rattle.std.specs.Prelude.{◌≡◌, ℕ, ◌≤◌, Bool, true, IsTrue, List, map, Option, Some, None};
ghost use Rattle.cw_table.specs.declared.table.Row.{Row};
ghost use Rattle.cw_tree.specs.{declared.statement.RawBlock.RawBlock, declared.statement.RawStmt.RawStmt, declared.segment.Raw.Raw};
ghost use Rattle.cw_facts.specs.Facts.{statement_facts, block_facts};
ghost use Rattle.cw_scope.specs.{declared.resolve.Named.Named, Outcome.Resolves};
ghost use Rattle.cw_items.specs.declared.families.Site.{Site};
ghost use Rattle.cw_judge.specs.Judged.{statement_judged, block_judged, first_type_fault};
ghost use Rattle.cw_make_expr.specs.Parts.{Numbers};
ghost use Rattle.cw_make_stmt.specs.Made.{statement_of, block_of};
ghost use Rattle.cw_unit.specs.{declared.unit.Unit.Unit as SourceUnit, declared.unit.Proc.Proc, declared.unit.Switch.Switch};
ghost use Rattle.cw_safety.specs.WellFormed as formed;
ghost use Rattle.cw_gen_expr.specs.{NamedItems.has_words, BuiltExpressions.most_levels};
ghost use Rattle.cw_gen_unit.specs.{BuiltStatements.is_statement, ReferenceUnits.answer_of};
ghost use Rattle.cw_built.specs.{Built.alone, Built.is_formed, Built.at_work, Coded.has_few};
ghost use Rattle.cw_sound.specs.{Uses.Stands.FactsStand, Uses.Mentions.In, Statements.Answers.AnswersStand, Statements.Bodies.Body, Statements.Bodies.block_bodies};
ghost use Rattle.cw_sound.specs.{Statements.Counted.Counted, Statements.Counted.BodiesFit, Statements.Counted.BodiesBuilt, Statements.Levels.statement_levels};
ghost use Rattle.cw_sound.specs.{Statements.Levels.block_levels, Statements.Regular.is_regular_statement, Statements.Regular.is_regular_block, Ranges.Declared.DeclarationsInRange};
ghost use Rattle.cw_sound.specs.{Storage.Frames.FramesFit, Units.TreeFits.TreeFits};
ghost use Rattle.cw_make.specs.{Labels.proc_within, Procedures.block_procs, Made.unit_of};
ghost use Rattle.std.specs.List.{list_all};
ghost use Rattle.std.specs.declared.result.Result.TheVariants.{Ok};
ghost use Rattle.cw_writable.specs.Coded.RangedUnits.{is_ranged_statement, are_ranged_procedures, is_ranged};

use crate::laws::storage::{frames_fit, parts_free};
use crate::laws::units::parts_stand;

/// The trees have orders that do what they mean, within the levels that they need.
pub fn built()
    ensures statement { (named : Named) (sites : List (Row Site)) (numbers : Numbers) (u : SourceUnit)
        (who : Option ℕ) (s : RawStmt) (levels : ℕ) → IsTrue (is_regular_statement s)
        → FactsStand named numbers u (statement_facts s) who → AnswersStand named numbers u (statement_facts s) who
        → statement_judged named sites s None ≡ None → statement_levels s ≤ levels → levels ≤ most_levels
        → IsTrue (is_statement u (has_words u who) who (answer_of u who) (statement_of named numbers s) levels) }
    ensures block { (named : Named) (sites : List (Row Site)) (numbers : Numbers) (u : SourceUnit) (who : Option ℕ)
        (outermost : Bool) (b : RawBlock) (levels : ℕ) → IsTrue (is_regular_block b)
        → FactsStand named numbers u (block_facts b outermost) who
        → AnswersStand named numbers u (block_facts b outermost) who → block_judged named sites b None ≡ None
        → block_levels b ≤ levels → levels ≤ most_levels
        → IsTrue (is_statement u (has_words u who) who (answer_of u who) (block_of named numbers b) levels) }
{}

/// The trees are well formed.
pub fn well_formed()
    ensures statement { (named : Named) (sites : List (Row Site)) (numbers : Numbers) (u : SourceUnit)
        (who : Option ℕ) (s : RawStmt) → IsTrue (is_regular_statement s)
        → FactsStand named numbers u (statement_facts s) who → AnswersStand named numbers u (statement_facts s) who
        → statement_judged named sites s None ≡ None → statement_levels s ≤ most_levels
        → IsTrue (formed.is_statement (alone u) 0 (at_work who) (statement_of named numbers s)) }
    ensures block { (named : Named) (sites : List (Row Site)) (numbers : Numbers) (u : SourceUnit) (who : Option ℕ)
        (outermost : Bool) (b : RawBlock) → IsTrue (is_regular_block b)
        → FactsStand named numbers u (block_facts b outermost) who
        → AnswersStand named numbers u (block_facts b outermost) who → block_judged named sites b None ≡ None
        → block_levels b ≤ most_levels → IsTrue
        (formed.is_statement (alone u) 0 (at_work who) (block_of named numbers b)) }
{}

/// What stands in a block stands in the bodies of its procedures, each in its own procedure, and where the block has no fault none of them has one.
/// Its bodies are those of the unit's procedures, in order.
pub fn bodies()
    ensures stand { (named : Named) (sites : List (Row Site)) (numbers : Numbers) (u : SourceUnit) (who : Option ℕ)
        (outermost : Bool) (b : RawBlock) (x : Body) → FactsStand named numbers u (block_facts b outermost) who
        → AnswersStand named numbers u (block_facts b outermost) who → block_judged named sites b None ≡ None
        → In x (block_bodies b) → FactsStand named numbers u (statement_facts x.statement)
        (proc_within numbers (Some x.token) None)
        × AnswersStand named numbers u (statement_facts x.statement) (proc_within numbers (Some x.token) None)
        × (statement_judged named sites x.statement None ≡ None) }
    ensures same { (named : Named) (numbers : Numbers) (b : RawBlock)
        → map (λ (q : Proc). q.body) (block_procs named numbers b)
        ≡ map (λ (x : Body). statement_of named numbers x.statement) (block_bodies b) }
{}

/// The bodies of a unit that is made of a text's outermost block are well formed, and have orders that do what they mean, where its procedures
/// have the numbers from 0 on.
pub fn unit_bodies()
    ensures well_formed { (named : Named) (sites : List (Row Site)) (numbers : Numbers) (u : SourceUnit)
        (b : RawBlock) → u.body ≡ block_of named numbers b → u.procs ≡ block_procs named numbers b
        → IsTrue (is_regular_block b) → block_levels b ≤ most_levels → BodiesFit (block_bodies b)
        → Counted numbers 0 (block_bodies b) → FactsStand named numbers u (block_facts b true) None
        → AnswersStand named numbers u (block_facts b true) None → block_judged named sites b None ≡ None
        → IsTrue (is_formed u) }
    ensures built { (named : Named) (sites : List (Row Site)) (numbers : Numbers) (u : SourceUnit) (b : RawBlock)
        → u.body ≡ block_of named numbers b → u.procs ≡ block_procs named numbers b → IsTrue (is_regular_block b)
        → block_levels b ≤ most_levels → BodiesFit (block_bodies b) → Counted numbers 0 (block_bodies b)
        → FactsStand named numbers u (block_facts b true) None
        → AnswersStand named numbers u (block_facts b true) None → block_judged named sites b None ≡ None
        → BodiesBuilt u }
{}

/// The numbers of what a text declares are in range.
pub fn declarations()
    ensures { (named : Named) → Resolves named.raw.now (Ok named) → first_type_fault named ≡ None → DeclarationsInRange named }
{
    parts_free();
}

/// Each switch has few labels.
pub fn switches()
    ensures { (named : Named) → first_type_fault named ≡ None → IsTrue (list_all (λ (s : Switch). has_few s.list) (unit_of named).switches) }
{
    parts_free();
}

/// The numbers of the trees are in range, where those of declarations are.
pub fn statements()
    ensures statement { (named : Named) (sites : List (Row Site)) (numbers : Numbers) (u : SourceUnit)
        (who : Option ℕ) (s : RawStmt) → DeclarationsInRange named → IsTrue (is_regular_statement s)
        → FactsStand named numbers u (statement_facts s) who → AnswersStand named numbers u (statement_facts s) who
        → statement_judged named sites s None ≡ None → statement_levels s ≤ most_levels
        → IsTrue (is_ranged_statement u (answer_of u who) (statement_of named numbers s)) }
    ensures block { (named : Named) (sites : List (Row Site)) (numbers : Numbers) (u : SourceUnit) (who : Option ℕ)
        (outermost : Bool) (b : RawBlock) → DeclarationsInRange named → IsTrue (is_regular_block b)
        → FactsStand named numbers u (block_facts b outermost) who
        → AnswersStand named numbers u (block_facts b outermost) who → block_judged named sites b None ≡ None
        → block_levels b ≤ most_levels → IsTrue (is_ranged_statement u (answer_of u who) (block_of named numbers b)) }
{}

/// The numbers of the procedures of a text's outermost block are in range, where they have the numbers from 0 on and their frames have room.
pub fn procedures()
    ensures { (named : Named) (sites : List (Row Site)) (numbers : Numbers) (u : SourceUnit) (b : RawBlock)
        → DeclarationsInRange named → u.procs ≡ block_procs named numbers b → BodiesFit (block_bodies b)
        → Counted numbers 0 (block_bodies b) → FactsStand named numbers u (block_facts b true) None
        → AnswersStand named numbers u (block_facts b true) None → block_judged named sites b None ≡ None
        → FramesFit u → IsTrue (are_ranged_procedures u 0 u.procs) }
{}

/// The numbers of a text's unit are in the ranges of the language.
pub fn unit_ranged()
    ensures { (raw : Raw) (named : Named) → Resolves raw (Ok named) → first_type_fault named ≡ None → TreeFits raw → IsTrue (is_ranged (unit_of named)) }
{
    parts_stand();
    frames_fit();
    declarations();
    switches();
    statements();
    procedures();
}
