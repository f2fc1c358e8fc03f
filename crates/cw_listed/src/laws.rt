//! The laws: each is a function without a body, whose contract is the law.
ghost use Rattle.std.specs.Prelude.{ℕ, ◌≡◌, ◌+◌, ◌<◌, ◌≤◌, Bool, false, List, length, map, flat_map};
ghost use Rattle.cw_unit.specs.declared.unit.Unit.{Unit as SourceUnit};
ghost use Rattle.cw_unit.specs.declared.unit.Goal.{Goal};
ghost use Rattle.cw_order.specs.declared.order.Order.{Order};
ghost use Rattle.cw_order.specs.declared.order.Orders.{Orders};
ghost use Rattle.cw_order.specs.declared.order.LabelMark.{LabelMark};
ghost use Rattle.cw_order.specs.OrderProgram.{OrderProgram};
ghost use Rattle.cw_tmpl.specs.declared.pieces.Coded.{Coded};
ghost use Rattle.cw_tmpl.specs.declared.blocks.Block.{Block};
ghost use Rattle.cw_tmpl.specs.Library.{library_bytes};
ghost use Rattle.cw_tmpl.specs.Names.{Names};
ghost use Rattle.cw_tmpl.specs.Pieces.{Filling};
ghost use Rattle.cw_tmpl.specs.Templates.{block_pieces, entry_pieces, landing_pieces, switch_pieces};
ghost use Rattle.cw_tmpl.specs.ReferenceCode.{pieces_of, orders_code};
ghost use Rattle.cw_follow.specs.Placing.{IsImage, Codable};
ghost use Rattle.cw_listing.specs.declared.line.Line.{Line};
ghost use Rattle.cw_listing.specs.Lines.{is_among, AreLines};
ghost use Rattle.cw_listing.specs.Listing.{listing};
ghost use Rattle.cw_listing.specs.CodeListing.{IsCodeListing, notes_of, words_of};
ghost use Rattle.cw_listed.specs.Behind.{is_word, known_places, Stands, IsListed};
ghost use Rattle.cw_listed.specs.ProgramLines.{AreCoded, program_code, program_lines};
ghost use Rattle.cw_listed.specs.Shown.{ShowsPieces};

use cw_routines::laws::standing;

/// Where a piece of the code of a block begins, the listing knows a word exactly if the piece is one. Words of data
/// stand behind calls of the library at all places at which it takes them to be, and the entries that are called have
/// names. So it is with the entry of a segment, the landing of a label, the routine of a switch, and with the whole
/// code of a segment.
pub fn pieces_listed()
    ensures blocks { (names : Names) (place number : ℕ) (short : Bool) (b : Block) (o : Order) → IsListed (block_pieces names place number short b o) }
    ensures entry { IsListed entry_pieces }
    ensures landings { (names : Names) (place : ℕ) (m : LabelMark) → IsListed (landing_pieces names place m) }
    ensures switches { (names : Names) (place : ℕ) (goals : List Goal) → IsListed (switch_pieces names place goals) }
    ensures segments { (o : Orders) → IsListed (pieces_of o) }
{}

/// In the code of the segments of a program, one behind another, words are known exactly where they stand, and none in
/// the library.
pub fn program_known()
    ensures words { (us : List SourceUnit) (os : List Orders) → length os ≤ length us → (offset : ℕ) (piece : Coded)
        → Stands (flat_map pieces_of os) offset piece →
        is_among (known_places us (map orders_code os)) (length library_bytes + offset) ≡ is_word piece }
    ensures library { (us : List SourceUnit) (os : List Orders) → length os ≤ length us → (place : ℕ) → place < length library_bytes →
        is_among (known_places us (map orders_code os)) place ≡ false }
{}

/// So the lines of linked code are the instructions of the library and the pieces of the segments, whatever the linker
/// fills in: each piece has a line of its own, as an instruction or as a word. A listing of this code is the text of
/// these lines.
pub fn program_shown()
    ensures lines { (us : List SourceUnit) (os : List Orders) (values : List Filling) (lines : List Line)
        → length os ≤ length us → length values ≡ length os → AreCoded os →
        AreLines (program_code values os) (known_places us (map orders_code os)) lines → lines ≡ program_lines values os }
    ensures text { (us : List SourceUnit) (os : List Orders) (values : List Filling) (sources : List (List ℕ))
        (text : List ℕ) → length os ≤ length us → length values ≡ length os → AreCoded os →
        IsCodeListing (program_code values os) us (map orders_code os) sources text →
        text ≡ listing (program_code values os) (program_lines values os) (notes_of us (map orders_code os) sources) (words_of us (map orders_code os)) }
{
    standing();
}

/// A listing of the image of a program that code can carry out shows each piece of its code, as an instruction or as
/// a word, and each instruction of the library.
pub fn image_shown()
    ensures { (p : OrderProgram) (image : List ℕ) (us : List SourceUnit) (sources : List (List ℕ)) (text : List ℕ) → IsImage p image → Codable p →
        length p.units ≤ length us → IsCodeListing image us (map orders_code p.units) sources text → ShowsPieces p.units image us sources text }
{
    program_shown();
}
