//! Laws of canonical text, for whoever reads it back: each is a function without a body, whose contract is the law.
ghost use Rattle.cw_show.specs.Lexing.{TokenizesAsWritten};

/// A text that is written token by token has these tokens.
pub fn text_tokenizes()
    ensures { TokenizesAsWritten }
{}
