//! Why a text has no unit.
use cw_grammar::fault::ParseFault;
use cw_lex::LexFault;
use cw_macro::MacroFault;
use cw_scope::resolve::ScopeFault;
use cw_type::check::TypeFault;

/// The first fault of a text, by the pass that finds it; never for want of memory.
#[derive(Drop)]
pub enum Refusal {
    /// The text has no tokens.
    Lex(LexFault),
    /// Its tokens do not expand.
    Macro(MacroFault),
    /// What they expand to is no text of the grammar.
    Parse(ParseFault),
    /// A rule of names is broken.
    Scope(ScopeFault),
    /// A rule of types is broken.
    Typing(TypeFault),
}

/// Why no unit was made.
#[derive(Drop)]
pub enum UnitFault {
    Refused(Refusal),
    NoMemory,
}
