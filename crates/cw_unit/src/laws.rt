//! Laws of the definitions.
ghost use Rattle.std.specs.Prelude.{◌≡◌, ◌≢◌, ℕ, ◌+◌, ◌<◌, ◌≤◌, pos, List, [], ◌∷◌, ◌++◌, length, replicate, Some, None, slice_get, IsFalse};
ghost use Rattle.std.specs.List.{All};
ghost use Rattle.cw_unit.specs.declared.unit.Unit.{Unit as SourceUnit};
ghost use Rattle.cw_unit.specs.declared.unit.Item.{Item};
ghost use Rattle.cw_unit.specs.declared.layout.Limits.{Limits};
ghost use Rattle.cw_unit.specs.declared.layout.Map.{Map};
ghost use Rattle.cw_unit.specs.Storage.{base_of, root_of, family_offset, family_extent, layout_of};
ghost use Rattle.cw_unit.specs.Allocation.{Range, meets, first_fit, storage_map};
ghost use Rattle.cw_unit.specs.ValidStorage.{IsStorable, FitsArea, ValidStorageMap};
ghost use Rattle.cw_unit.specs.InitialMemory.{filled_words, initial_word, initial_memory};
ghost use Rattle.cw_unit.specs.Program.{Program, item_address, program_of};
ghost use Rattle.cw_unit.specs.Stop.{Running};
ghost use Rattle.cw_unit.specs.Words.{Words, word_at};
ghost use Rattle.cw_unit.specs.declared.unit.Stmt.{Stmt};
ghost use Rattle.cw_unit.specs.declared.unit.Stmt.TheVariants as stmt;
ghost use Rattle.cw_unit.specs.declared.unit.Cond.{Cond};
ghost use Rattle.cw_unit.specs.declared.unit.Ref.{Ref};
ghost use Rattle.cw_unit.specs.declared.unit.Felem.{Felem};
ghost use Rattle.cw_unit.specs.Work.{Work, Run, On, loop_of};
ghost use Rattle.cw_unit.specs.LabelContinuation.{label_continuation, list_continuation, first_work, work_if, has_label};
ghost use Rattle.cw_unit.specs.Configuration.{FramesApart, activations_of, words_of};
ghost use Rattle.cw_unit.specs.Behaviour.{configuration_after, observed};
ghost use Rattle.cw_unit.specs.OwnSingles.{IsOwnSingle, own_layout, own_map};

/// How items stand in their families: a root has no base and stands at 0, an item is in the family of its base, and an extent reaches to
/// the ends of the items and no further.
pub fn families()
    ensures roots { (u : SourceUnit) (n : ℕ) → IsStorable u → base_of u (root_of u n) ≡ None }
    ensures alone { (u : SourceUnit) (n : ℕ) → base_of u n ≡ None → (root_of u n ≡ n) × (family_offset u n ≡ 0) }
    ensures bases { (u : SourceUnit) (n : ℕ) (b : ℕ × ℕ) → IsStorable u → base_of u n ≡ Some b
        → (root_of u n ≡ root_of u b.0) × (family_offset u n ≡ b.1 + family_offset u b.0) }
    ensures reaches { (u : SourceUnit) (n : ℕ) (i : Item) → slice_get u.items n ≡ Some i → family_offset u n + i.words ≤ family_extent u (root_of u n) }
    ensures least { (u : SourceUnit) (r m : ℕ)
        → ((n : ℕ) (i : Item) → slice_get u.items n ≡ Some i → root_of u n ≡ r → family_offset u n + i.words ≤ m)
        → family_extent u r ≤ m }
{}

/// A first fit is the least address that is not below the given one and at which the words meet no range.
pub fn fits_first()
    ensures after { (rs : List Range) (extent a : ℕ) → a ≤ first_fit rs extent a }
    ensures clear { (rs : List Range) (extent a : ℕ) → All (λ r. IsFalse (meets (first_fit rs extent a) extent r)) rs }
    ensures least { (rs : List Range) (extent a b : ℕ) → a ≤ b → All (λ r. IsFalse (meets b extent r)) rs → first_fit rs extent a ≤ b }
{}

/// The storage map of units that fit the data area is valid: items share exactly the words that OVERLAY tells.
pub fn storage_maps()
    ensures { (us : List SourceUnit) (limits : Limits) → All IsStorable us → FitsArea us limits → ValidStorageMap us limits (storage_map us) }
{}

/// Each word of the initial memory is the one that is filled there, or 0.
pub fn initial_words()
    ensures { (us : List SourceUnit) (m : Map) (area a : ℕ) → a < area → word_at (initial_memory us m area) a ≡ initial_word (filled_words us m) a }
{}

/// The storage of a unit whose items are single words of its own, none with a preset: item k stands at address k.
pub fn own_singles()
    ensures layout { (u : SourceUnit) → All IsOwnSingle u.items → layout_of u ≡ own_layout (length u.items) (length u.procs) }
    ensures map { (u : SourceUnit) → All IsOwnSingle u.items → storage_map (u ∷ []) ≡ own_map (length u.items) }
    ensures addresses { (u : SourceUnit) (limits : Limits) (n base : ℕ) → All IsOwnSingle u.items
        → n < length u.items → item_address (program_of (u ∷ []) limits) 0 n base ≡ n }
    ensures memory { (u : SourceUnit) (m : Map) (area : ℕ) → All IsOwnSingle u.items → initial_memory (u ∷ []) m area ≡ replicate area (pos 0) }
    ensures valid { (u : SourceUnit) (limits : Limits) → All IsOwnSingle u.items
        → length u.items + limits.frames ≤ limits.area → ValidStorageMap (u ∷ []) limits (storage_map (u ∷ [])) }
{}

/// The continuation of a label in each kind of statement that holds others.
pub fn continuations()
    ensures lists { (l : ℕ) (ss : List Stmt) (k : Work) → label_continuation l (stmt.Seq ss) k ≡ list_continuation l ss k }
    ensures choices { (l line : ℕ) (c : Cond) (a b : Stmt) (k : Work)
        → label_continuation l (stmt.If line c a b) k
        ≡ first_work (label_continuation l a k) (label_continuation l b k) }
    ensures loops { (l line item : ℕ) (r : Ref) (es : List Felem) (s : Stmt) (k : Work)
        → label_continuation l (stmt.For line item r es s) k
        ≡ label_continuation l s (On (loop_of line item r es s) k) }
    ensures labelled { (l : ℕ) (ls : List ℕ) (s : Stmt) (k : Work)
        → label_continuation l (stmt.Mark ls s) k ≡ work_if (has_label l ls) (Run s k) (label_continuation l s k) }
{}

/// What a run of the source shows: after an end or a stop always the same, and the output only grows.
pub fn runs()
    ensures over { (p : Program) (input : List ℕ) (m n : ℕ) → (observed p input m).end ≢ Running → observed p input (m + n) ≡ observed p input m }
    ensures grows { (p : Program) (input : List ℕ) (m n : ℕ) → (piece : List ℕ) × ((observed p input (m + n)).output ≡ (observed p input m).output ++ piece) }
{}

/// What each configuration of a run keeps: the data area has its length, no more calls are active than are allowed, and the frames of
/// active calls are apart and in the frame area.
pub fn configurations()
    ensures memory { (p : Program) (input : List ℕ) (m : ℕ) → length (words_of (configuration_after p input m)).memory ≡ p.limits.area }
    ensures calls { (p : Program) (input : List ℕ) (m : ℕ) → length (activations_of (configuration_after p input m)) ≤ p.limits.depth }
    ensures frames { (p : Program) (input : List ℕ) (m : ℕ) → FramesApart p (activations_of (configuration_after p input m)) }
{}
