//! What the parts of a command tell of its words.
ghost use Rattle.cw_words.specs.Copies.{TellsCopies, TellsStop};

/// How many texts `big` makes, and where `trace` reports, is what the first WORD tells.
pub fn copies_told()
    ensures copies { TellsCopies }
    ensures stop { TellsStop }
{}
