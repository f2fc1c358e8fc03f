//! Laws of the definitions, for whoever proves something about tokens: each is a function without a body, whose contract is the law.
ghost use Rattle.cw_lex.specs.Lexical.{HasOneList, HasOneFault, HasNotBoth};

/// A text determines its tokens, or its first fault.
pub fn lexical_structure()
    ensures one_list { HasOneList }
    ensures one_fault { HasOneFault }
    ensures not_both { HasNotBoth }
{}
