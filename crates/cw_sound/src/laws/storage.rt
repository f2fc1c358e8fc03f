//! Laws of the items of a text's unit and of what they hold at the start: each is a function without a body, whose contract is the law.
ghost use Rattle.std.specs.Prelude.{◌≡◌, IsTrue, None, ℕ, List, All};
ghost use Rattle.std.specs.declared.result.Result.TheVariants as results;
ghost use Rattle.cw_scope.specs.declared.resolve.Named.{Named};
ghost use Rattle.cw_scope.specs.Outcome.{Resolves};
ghost use Rattle.cw_judge.specs.Judged.{first_type_fault};
ghost use Rattle.cw_number.specs.Numbers.{numbers_of};
ghost use Rattle.cw_unit.specs.declared.unit.Unit.{Unit as SourceUnit};
ghost use Rattle.cw_make.specs.Made.{unit_of};
ghost use Rattle.cw_built.specs.Stored.{is_stored};
ghost use Rattle.cw_built.specs.Built.{are_met};
ghost use Rattle.cw_sound.specs.Names.Placed.{Placed};
ghost use Rattle.cw_sound.specs.Names.Standing.{ItemsStand};
ghost use Rattle.cw_sound.specs.Items.Derived.{HasRisingTokens, HasPlainProcedures, HasNames};
ghost use Rattle.cw_sound.specs.Items.Items.{StorageStands, things_of, ItemsStand as StoredItemsStand};
ghost use Rattle.cw_sound.specs.Storage.Frames.{FramesOwned, FramesFit};
ghost use Rattle.std.specs.declared.result.Result.TheVariants.{Ok};
ghost use Rattle.cw_tree.specs.declared.segment.Raw.{Raw};
ghost use Rattle.cw_number.specs.Listed.{listed_of};
ghost use Rattle.cw_built.specs.Listed.{are_named};
ghost use Rattle.cw_sound.specs.Items.Bases.{BasesStand};
ghost use Rattle.cw_sound.specs.Items.Free.{PartsFree};
ghost use Rattle.cw_lex.specs.declared.token.Form.TheVariants.{Source};
ghost use Rattle.cw_lex.specs.Lexical.{Lexeme, Tokenizes, first_place};
ghost use Rattle.cw_macro.specs.Expansion.{Expands};
ghost use Rattle.cw_tokens.specs.Texts.{IsTreeOf};
ghost use Rattle.cw_writable.specs.Front.Front.{PresetsFit};
ghost use Rattle.cw_sound.specs.Presets.Bytes.{AreBytes, HasBytes};

/// Each definition is of what its descriptor says.
pub fn definitions_met()
    ensures { (named : Named) → Resolves named.raw.now (results.Ok named) → first_type_fault named ≡ None
        → Placed named.raw.now → ItemsStand named (numbers_of named) (unit_of named)
        → IsTrue (are_met (unit_of named)) }
{
    crate::laws::names::counts();
    crate::laws::names::all_stand();
}

/// What passes the test of a unit's storage: its items and bases stand, each item of a frame belongs to a procedure, and each frame has room.
pub fn storage_passes()
    ensures { (u : SourceUnit) → StorageStands u → FramesOwned u → FramesFit u → IsTrue (is_stored u) }
{}

/// Each item of a frame belongs to a procedure of the unit.
pub fn frames_owned()
    ensures { (named : Named) → Resolves named.raw.now (results.Ok named) → first_type_fault named ≡ None
        → Placed named.raw.now → HasRisingTokens named.raw.now → HasPlainProcedures named.raw.now
        → ItemsStand named (numbers_of named) (unit_of named) → FramesOwned (unit_of named) }
{
    crate::laws::names::counts();
}

/// A frame has no more words than an area may have.
pub fn frames_fit()
    ensures { (named : Named) → Resolves named.raw.now (results.Ok named) → first_type_fault named ≡ None
        → Placed named.raw.now → HasRisingTokens named.raw.now → HasPlainProcedures named.raw.now
        → ItemsStand named (numbers_of named) (unit_of named) → FramesFit (unit_of named) }
{
    crate::laws::names::counts();
    crate::laws::storage::bases_stand();
}

/// The unit of a text passes the test of its storage.
pub fn stored()
    ensures { (named : Named) → Resolves named.raw.now (results.Ok named) → first_type_fault named ≡ None
        → Placed named.raw.now → HasRisingTokens named.raw.now → HasPlainProcedures named.raw.now
        → ItemsStand named (numbers_of named) (unit_of named) → IsTrue (is_stored (unit_of named)) }
{
    crate::laws::storage::unit_storable();
    storage_passes();
    frames_owned();
    frames_fit();
}

/// No judgement takes a fault away: where a text has no fault of its types, none of its parts has one.
pub fn parts_free()
    ensures { (named : Named) → first_type_fault named ≡ None → PartsFree named }
{}

/// What is overlaid stands on a thing before it, which the same bodies may name.
pub fn bases_stand()
    ensures { (raw : Raw) (named : Named) → Resolves raw (Ok named) → first_type_fault named ≡ None
        → HasRisingTokens raw → HasPlainProcedures raw
        → BasesStand (numbers_of named) (listed_of named.raw.now) (things_of named) }
{}

/// Each thing that a text stores is an item of its unit with its words, which the bodies that see it may name.
pub fn items_stand()
    ensures { (raw : Raw) (named : Named) → Resolves raw (Ok named) → first_type_fault named ≡ None
        → HasRisingTokens raw → HasPlainProcedures raw → StoredItemsStand named }
{
    bases_stand();
}

/// No two descriptors of a unit have the same name.
pub fn descriptors_named()
    ensures { (raw : Raw) (named : Named) → Resolves raw (Ok named) → HasRisingTokens raw → HasNames raw → IsTrue (are_named (unit_of named).descs) }
{}

/// Of the storage of a unit: its items are few, bases stand before what is overlaid on them, items of frames have owners, each item ends within
/// the words that an area may have and holds its presets, and what COMMON lists is overlaid on what a list has.
pub fn unit_storable()
    ensures { (raw : Raw) (named : Named) → Resolves raw (Ok named) → first_type_fault named ≡ None
        → HasRisingTokens raw → HasPlainProcedures raw → StorageStands (unit_of named) }
{
    bases_stand();
}

/// The items of a text's unit hold words at offsets of their own words, and what stands in a frame holds none, where the text is of bytes.
pub fn presets_fit()
    ensures { (n : ℕ) (ts : List Lexeme) (named : Named) → IsTreeOf n ts named.raw.now
        → All HasBytes ts → Resolves named.raw.now (results.Ok named) → first_type_fault named ≡ None
        → HasRisingTokens named.raw.now → HasPlainProcedures named.raw.now → PresetsFit (unit_of named) }
{
    parts_free();
    bases_stand();
    unit_storable();
}

/// The tokens that a text of bytes expands to are of bytes: they are those of the text, of macros' bodies and of arguments.
pub fn bytes_kept()
    ensures { (text : List ℕ) (tokens expanded : List Lexeme) → AreBytes text
        → Tokenizes Source first_place text tokens → Expands tokens expanded → All HasBytes expanded }
{}
