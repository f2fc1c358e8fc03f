//! Laws of the definitions.
ghost use Rattle.std.specs.Prelude.{◌≡◌, ℕ, ◌+◌, ◌*◌, ◌≤◌, Bool, true, false, List, [], ◌∷◌, ◌++◌, length, drop, Some, slice_get, slice_index, All};
ghost use Rattle.cw_i86.specs.State.{sign_extended};
ghost use Rattle.cw_tmpl.specs.declared.blocks.Block.{Block};
ghost use Rattle.cw_order.specs.declared.order.Order.{Order};
ghost use Rattle.cw_order.specs.declared.order.Orders.{Orders};
ghost use Rattle.cw_tmpl.specs.declared.pieces.Coded.{Coded};
ghost use Rattle.cw_tmpl.specs.Names.{Names, landing_size};
ghost use Rattle.cw_tmpl.specs.declared.pieces.Limit.TheVariants as limit;
ghost use Rattle.cw_tmpl.specs.declared.pieces.Target.TheVariants as target;
ghost use Rattle.cw_tmpl.specs.Pieces.{blanks, relocations, relocation_of, Filling, filled, fill};
ghost use Rattle.cw_tmpl.specs.Blanks.{FillsBlank, Rise};
ghost use Rattle.cw_tmpl.specs.Library.{library_bytes};
ghost use Rattle.cw_tmpl.specs.Blocks.{block_at, left_at};
ghost use Rattle.cw_tmpl.specs.Templates.{distance, short_distance, is_close};
ghost use Rattle.cw_tmpl.specs.ShortForms.{jump_of, check_of, saved, is_short};
ghost use Rattle.cw_tmpl.specs.Templates.{block_pieces, block_size, order_size, entry_pieces, segment_word};
ghost use Rattle.cw_tmpl.specs.Sizes.{listed_size, listed_sizes};
ghost use Rattle.cw_tmpl.specs.ReferenceCode.{templates, entry_size, places_by, reach_of, order_places, mark_starts};
ghost use Rattle.cw_tmpl.specs.ReferenceCode.{pieces_of, switch_sizes, StandsAt, GoesBack};

/// The linker's filling of an object's relocations, one after another, gives the code with its words filled. That is as
/// long as the object's, and goes on behind the first pieces with the rest.
pub fn filling()
    ensures gives { (value : Filling) (pieces : List Coded) (before behind : List ℕ)
        → fill value (length before) (relocations 0 pieces) (before ++ (blanks pieces ++ behind))
        ≡ before ++ (filled value (length before) pieces ++ behind) }
    ensures long { (value : Filling) (at : ℕ) (pieces : List Coded) → length (filled value at pieces) ≡ length (blanks pieces) }
    ensures joins { (value : Filling) (at : ℕ) (first rest : List Coded)
        → filled value at (first ++ rest) ≡ filled value at first ++ filled value (at + length (blanks first)) rest }
{}

/// The relocations are as an object has them.
pub fn relocating()
    ensures blank { (pieces : List Coded) → All (FillsBlank (blanks pieces)) (relocations 0 pieces) }
    ensures rise { (pieces : List Coded) → Rise 0 (relocations 0 pieces) }
{}

/// The word of a segment's code that an activation takes its segment's number from is the one that the linker fills with it.
pub fn numbering()
    ensures { drop 4 (relocations 0 entry_pieces) ≡ relocation_of segment_word (target.Limit limit.Segment) ∷ [] }
{}

/// The sizes of the code. A list has at most the bytes that its orders are listed with, one behind another, and the places of the orders' code
/// are where it stands. A short jump saves bytes.
/// The code of a segment has its entry, the code of its orders, and that of its labels and its switches.
pub fn sizes()
    ensures each { (o : Order) → order_size o ≡ listed_size o }
    ensures everywhere { (names : Names) (place number : ℕ) (short : Bool) (b : Block) (o : Order)
        → length (blanks (block_pieces names place number short b o)) ≡ block_size short b o }
    ensures saves { (b : Block) (o : Order) → block_size true b o + saved b o ≡ block_size false b o }
    ensures whole { (names : Names) (place number : ℕ) (orders : List Order) → length (blanks (templates names place number 0 orders)) ≤ listed_sizes orders }
    ensures segment { (o : Orders) → length (blanks (pieces_of o))
        ≤ entry_size + (listed_sizes o.list + (landing_size * length o.labels + switch_sizes o.switches)) }
    ensures library { length library_bytes ≤ 4096 }
    ensures places { (names : Names) (orders : List Order) (k : ℕ) (o : Order) → slice_get orders k ≡ Some o →
        StandsAt (templates names entry_size 0 0 orders) (slice_index (places_by (is_short names.reach) orders) k)
        (let b = block_at (left_at 0 orders k) (drop k orders) in block_pieces names (slice_index (places_by (is_short names.reach) orders) k) k (is_short names.reach k b o) b o) }
{}

/// A short jump reaches its mark, as far from its end in the code with short jumps as the near one goes: the block that begins with the order ends
/// with it. A check that jumps back reaches a CALL of the overflow stop with its line behind it.
pub fn reaching()
    ensures close { (o : Orders) (k m : ℕ) (x : Order) → slice_get o.list k ≡ Some x →
        (let b = block_at (left_at 0 o.list k) (drop k o.list) in jump_of b x ≡ Some m
        → is_short (reach_of o) k b x ≡ true → is_close (slice_index (order_places o) (k + 1))
        (mark_starts o m) ≡ true) }
    ensures back { (o : Orders) (k line : ℕ) (x : Order) → slice_get o.list k ≡ Some x →
        (let b = block_at (left_at 0 o.list k) (drop k o.list) in check_of b x ≡ Some line → is_short (reach_of o) k b x ≡ true → GoesBack o k line) }
    ensures as_far { (from to : ℕ) → is_close from to ≡ true → sign_extended (short_distance from to) ≡ distance from to }
{}
