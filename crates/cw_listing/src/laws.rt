//! Laws of listings.
ghost use Rattle.std.specs.Prelude.{◌≡◌, ℕ, List, flat_map, Some, slice_get};
ghost use Rattle.cw_i86.specs.declared.instr.Instr.{Instr};
ghost use Rattle.cw_i86.specs.Encoding.{bytes_of};
ghost use Rattle.cw_unit.specs.declared.unit.Unit.{Unit as SourceUnit};
ghost use Rattle.cw_unit.specs.Storage.{layout_of};
ghost use Rattle.cw_tmpl.specs.declared.assembling.Code.{Code};
ghost use Rattle.cw_listing.specs.declared.line.Line.{Line};
ghost use Rattle.cw_listing.specs.declared.line.Shown.TheVariants.{Instruction};
ghost use Rattle.cw_listing.specs.Lines.{IsLineAt, AreLines};
ghost use Rattle.cw_listing.specs.Listing.{line_bytes};
ghost use Rattle.cw_listing.specs.Remarks.{roots_of};
ghost use Rattle.cw_listing.specs.CodeListing.{IsCodeListing};

/// The bytes of the lines, one after another, are the whole code.
pub fn whole_code()
    ensures { (code words : List ℕ) (lines : List Line) → AreLines code words lines → flat_map (line_bytes code) lines ≡ code }
{}

/// The bytes that stand beside an instruction are its own.
pub fn own_bytes()
    ensures { (code words : List ℕ) (place : ℕ) (line : Line) (i : Instr) → IsLineAt code words place line
        → line.shown ≡ Instruction i → line_bytes code line ≡ bytes_of i }
{}

/// The item by which the words of a family are named is one of this family.
pub fn named_by_own()
    ensures { (u : SourceUnit) (family item : ℕ) → slice_get (roots_of u) family ≡ Some item
        → (home : ℕ × ℕ) × (slice_get (layout_of u).homes item ≡ Some home) × (home.0 ≡ family) }
{}

/// At most one text is the listing of given code, of units with the code and the source text of each.
pub fn one_listing()
    ensures { (code : List ℕ) (us : List SourceUnit) (cs : List Code) (sources : List (List ℕ)) (text other : List ℕ)
        → IsCodeListing code us cs sources text → IsCodeListing code us cs sources other → text ≡ other }
{}
