//! Laws of the unit of a text whose names resolve and whose types have no fault: each is a function without a body, whose contract is the law.
//!
//! It is built; its control stack is small; and what stands before and behind its code in its object can be written.
ghost use Rattle.std.specs.Prelude.{◌≡◌, [], ◌∷◌, true, IsTrue, None, ℕ, ◌≤◌, length, ◌+◌, ◌*◌, ◌<◌, List, Some, slice_get};
ghost use Rattle.std.specs.declared.result.Result.TheVariants.{Ok};
ghost use Rattle.cw_tree.specs.declared.segment.Raw.{Raw};
ghost use Rattle.cw_facts.specs.Facts.{block_facts};
ghost use Rattle.cw_scope.specs.{declared.resolve.Named.Named, Outcome.Resolves};
ghost use Rattle.cw_judge.specs.Judged.{first_type_fault};
ghost use Rattle.cw_number.specs.Numbers.{numbers_of};
ghost use Rattle.cw_make.specs.Made.{unit_of};
ghost use Rattle.cw_gen_unit.specs.BuiltUnits.{are_built};
ghost use Rattle.cw_built.specs.Built.{is_formed};
ghost use Rattle.cw_sound.specs.{Statements.Answers.AnswersStand, Statements.Bodies.block_bodies, Statements.Bodies.Body, Statements.Counted.Counted, Names.Placed.Placed};
ghost use Rattle.cw_sound.specs.{Names.Standing.ItemsStand, Names.Standing.FewParameters, Items.Items.ItemsStand as StoredItemsStand, Units.TreeFits.TreeFits};
ghost use Rattle.cw_sound.specs.{Units.PartsStand.PartsStand, Items.Derived.HasRisingTokens, Items.Derived.HasPlainProcedures, Ready.Lined.PositionsFit, Uses.Mentions.In};
ghost use Rattle.cw_sound.specs.{Written.Counts.CountsFit, Written.Identified.HasIdentifiers};
ghost use Rattle.std.specs.List.{list_all};
ghost use Rattle.cw_unit.specs.{declared.unit.Proc.Proc, declared.unit.Switch.Switch, StackBound.body_depth, StackBound.unit_need, declared.unit.Item.Item};
ghost use Rattle.cw_writable.specs.{Back.Ready.has_lines, Back.Ready.is_goal, Back.Ready.are_rising, Back.Ready.IsReady, Front.Front.ItemsFit, Front.Front.HomesFit};
ghost use Rattle.cw_writable.specs.Front.Front.{is_titled};
ghost use Rattle.cw_lex.specs.Lexical.{Lexeme};
ghost use Rattle.cw_tokens.specs.Texts.{IsTreeOf};
ghost use Rattle.cw_make_expr.specs.Parts.{Numbers};
ghost use Rattle.cw_make_stmt.specs.Made.{statement_of, block_of};
ghost use Rattle.std.specs.declared.result.Result.TheVariants as results;
ghost use Rattle.cw_fields.specs.Names.{is_name};
ghost use Rattle.cw_object.specs.{Fits.fits_descriptor, IsWritable.are_listed};
ghost use Rattle.cw_obj.specs.ReferenceObject.{entry_of};
ghost use Rattle.cw_view.specs.ObjectFormat.{is_named};

use crate::laws::names::{
    all_stand, answers_fit, counts, descriptors_named, few_parameters, labels, listed, uses_found,
};
use crate::laws::statements::{bodies, unit_bodies};
use crate::laws::storage::{frames_fit, frames_owned, items_stand, parts_free, unit_storable};

/// Where what a text stores stands in its unit, its declarations of items stand for them, and its other declarations for no item.
pub fn items_declared()
    ensures { (named : Named) → Resolves named.raw.now (Ok named) → StoredItemsStand named → ItemsStand named (numbers_of named) (unit_of named) }
{}

/// The bodies of a text are those of the procedures that have the numbers from 0 on.
pub fn bodies_counted()
    ensures { (named : Named) → Resolves named.raw.now (Ok named) → Placed named.raw.now
        → ItemsStand named (numbers_of named) (unit_of named)
        → Counted (numbers_of named) 0 (block_bodies named.raw.now.block) }
{
    counts();
}

/// ANSWER stands in the body of a procedure, and has the scale of its answer.
pub fn answers_stand()
    ensures { (named : Named) → Resolves named.raw.now (Ok named) → Placed named.raw.now
        → ItemsStand named (numbers_of named) (unit_of named)
        → AnswersStand named (numbers_of named) (unit_of named) (block_facts named.raw.now.block true) None }
{
    answers_fit();
}

/// What stands in the outermost block of a text without faults is right.
pub fn parts_stand()
    ensures { (raw : Raw) (named : Named) → Resolves raw (Ok named) → first_type_fault named ≡ None → TreeFits raw → PartsStand named }
{
    items_stand();
    parts_free();
    items_declared();
    bodies_counted();
    answers_stand();
    all_stand();
}

/// The bodies of the unit are well formed.
pub fn unit_formed()
    ensures { (raw : Raw) (named : Named) → Resolves raw (Ok named) → first_type_fault named ≡ None → TreeFits raw → IsTrue (is_formed (unit_of named)) }
{
    parts_stand();
    unit_bodies();
}

/// The bodies of the unit have orders that do what they mean, no procedure has more than 32 parameters, and those that take words are items of its own.
pub fn unit_built()
    ensures { (raw : Raw) (named : Named) → Resolves raw (Ok named) → first_type_fault named ≡ None → TreeFits raw → IsTrue (are_built (unit_of named ∷ [])) }
{
    parts_stand();
    unit_bodies();
    counts();
    few_parameters();
}

/// Each statement of the unit has a line.
pub fn lines()
    ensures body { (named : Named) → PositionsFit named.raw.now → IsTrue (has_lines (unit_of named).body) }
    ensures procedures { (named : Named) → PositionsFit named.raw.now → IsTrue (list_all (λ (q : Proc). has_lines q.body) (unit_of named).procs) }
{
    crate::laws::statements::bodies();
}

/// The descriptors of the unit are few, and what it defines of them stands in their order.
pub fn definitions()
    ensures few { (named : Named) → HasRisingTokens named.raw.now → length (unit_of named).descs ≤ 65535 }
    ensures rising { (named : Named) → HasRisingTokens named.raw.now → IsTrue (are_rising 0 (unit_of named).defined) }
{}

/// The goals of the unit's switches that are labels of descriptors have one.
pub fn goals()
    ensures { (named : Named) → Resolves named.raw.now (Ok named) → Placed named.raw.now → ItemsStand named (numbers_of named) (unit_of named) →
        IsTrue (list_all (λ (s : Switch). list_all (is_goal (length (unit_of named).descs)) s.list) (unit_of named).switches) }
{
    counts();
    uses_found();
    labels();
    listed();
    descriptors_named();
}

/// The unit is ready.
pub fn unit_ready()
    ensures { (raw : Raw) (named : Named) → Resolves raw (Ok named) → first_type_fault named ≡ None → TreeFits raw
        → PositionsFit raw → IsReady (unit_of named) }
{
    lines();
    definitions();
    goals();
    items_stand();
    items_declared();
}

/// The bodies of a text have at most 72 words in hand for each level that its tokens open, and 7, where its procedures have at most 32 parameters.
pub fn words_in_hand()
    ensures block { (n : ℕ) (ts : List Lexeme) (raw : Raw) (named : Named) (numbers : Numbers)
        → IsTreeOf n ts raw → FewParameters named
        → body_depth (block_of named numbers raw.block) ≤ 72 * n + 7 }
    ensures procedures { (n : ℕ) (ts : List Lexeme) (raw : Raw) (named : Named) (numbers : Numbers) (x : Body)
        → IsTreeOf n ts raw → FewParameters named → In x (block_bodies raw.block)
        → body_depth (statement_of named numbers x.statement) ≤ 72 * n + 7 }
{}

/// The records of a text's bodies on the control stack have fewer than 65,536 words, where its tokens open at most 64 levels inside one another.
pub fn need_fits()
    ensures { (n : ℕ) (ts : List Lexeme) (raw : Raw) (named : Named) → n ≤ 64
        → IsTreeOf n ts raw → Resolves raw (Ok named) → first_type_fault named ≡ None
        → TreeFits raw → unit_need (unit_of named) < 65536 }
{
    words_in_hand();
    few_parameters();
    bodies();
}

/// The name of a text's segment is a name of the format.
pub fn segment_named()
    ensures { (n : ℕ) (ts : List Lexeme) (raw : Raw) (named : Named) → IsTreeOf n ts raw
        → Resolves raw (results.Ok named) → IsTrue (is_name (unit_of named).name) }
{}

/// The descriptors of a text's unit fit the fields of the format, where no procedure that is specified has more than 255 parameters and no table
/// 65,536 elements.
pub fn descriptors_fit()
    ensures { (n : ℕ) (ts : List Lexeme) (raw : Raw) (named : Named) → IsTreeOf n ts raw
        → Resolves raw (results.Ok named) → CountsFit raw.comms
        → IsTrue (list_all fits_descriptor (unit_of named).descs) }
{}

/// The items of a text's unit are few, and each ends within the words that an area may have.
pub fn items_fit()
    ensures { (named : Named) → Resolves named.raw.now (results.Ok named) → first_type_fault named ≡ None
        → HasRisingTokens named.raw.now → HasPlainProcedures named.raw.now → ItemsFit (unit_of named) }
{
    unit_storable();
}

/// Each item of a text's unit has a name or a line, and so has the procedure to which it belongs, where declared names are identifiers.
pub fn items_titled()
    ensures { (named : Named) → Resolves named.raw.now (results.Ok named) → HasIdentifiers named.raw.now
        → (i : ℕ) (x : Item) → slice_get (unit_of named).items i ≡ Some x
        → IsTrue (is_titled (entry_of (unit_of named) (0, 0) x)) }
{}

/// Where the items of a text's unit stand is in the format: a descriptor of the unit, an address that is a word, a frame that is no larger than an area.
pub fn homes_fit()
    ensures { (named : Named) → Resolves named.raw.now (results.Ok named) → first_type_fault named ≡ None
        → Placed named.raw.now → HasRisingTokens named.raw.now → HasPlainProcedures named.raw.now
        → ItemsStand named (numbers_of named) (unit_of named) → HomesFit (unit_of named) }
{
    frames_owned();
    frames_fit();
}

/// What the communicators of a text without faults list has few enough parts for the format: parameters, and elements of tables.
pub fn counts_fit()
    ensures { (n : ℕ) (ts : List Lexeme) (raw : Raw) (named : Named) → length ts ≤ 65535
        → IsTreeOf n ts raw → Resolves raw (results.Ok named) → first_type_fault named ≡ None
        → CountsFit raw.comms }
{
    crate::laws::trees::placed();
    crate::laws::storage::parts_free();
}

/// Each name that a text declares is an identifier.
pub fn names_identified()
    ensures { (n : ℕ) (ts : List Lexeme) (raw : Raw) → IsTreeOf n ts raw → HasIdentifiers raw }
{}

/// Each item of a text's unit has a name, but for its strings and the words of its FORs, which no COMMON list has.
pub fn items_called()
    ensures { (n : ℕ) (ts : List Lexeme) (raw : Raw) (named : Named) → length ts ≤ 65535
        → IsTreeOf n ts raw → Resolves raw (results.Ok named) → (i : ℕ) (x : Item)
        → slice_get (unit_of named).items i ≡ Some x → IsTrue (is_named (entry_of (unit_of named) (0, 0) x)) }
{
    names_identified();
    crate::laws::trees::items_derived();
}

/// The descriptors of the unit of a text without faults are in the format, and each that is overlaid has its base before it.
pub fn bases_listed()
    ensures { (n : ℕ) (ts : List Lexeme) (raw : Raw) (named : Named) → length ts ≤ 65535
        → IsTreeOf n ts raw → Resolves raw (results.Ok named) → first_type_fault named ≡ None
        → IsTrue (are_listed 0 (unit_of named).descs) }
{
    counts_fit();
    crate::laws::units::descriptors_fit();
    crate::laws::trees::items_derived();
    crate::laws::storage::bases_stand();
}
