//! The limits, and the faults.
use cw_word::NoMemory;
use std::alloc::AllocError;
use std::fmt;
use thiserror::Error;

/// A call at this level is refused; the tokens of the text have level 0.
pub const MOST_LEVELS: u8 = 32;

/// An expanded text has at most so many tokens.
pub const MOST_TOKENS: usize = 65_535;

/// The tokens of the text, with one and the tokens of its replacement for each replaced call, are at most so many.
pub const MOST_REPLACED: usize = 1_048_576;

/// A source text has at most so many bytes.
pub const MOST_BYTES: usize = 1_048_576;

/// Why tokens have no expansion: the first fault, with the line of the first token that is left where it comes.
#[derive(Debug, Drop, Error)]
pub enum MacroFault {
    /// A DEFINE or DELETE that is not of its form, two parameters of one name, or a body with a fault of the lexer, or with DEFINE or DELETE in it.
    #[error("BadDefine")]
    BadDefine { line: u32 },
    /// A call without its list of arguments, with another number of them, with brackets that do not match, or without the end of the list.
    #[error("BadCall")]
    BadCall { line: u32 },
    /// A call at level 32.
    #[error("TooDeep")]
    TooDeep { line: u32 },
    /// Over 65,535 tokens of the result, or over 1,048,576 of the text and the replacements.
    #[error("TooLong")]
    TooLong { line: u32 },
    /// A DELETE of a name that is no macro.
    #[error("NoSuchMacro")]
    NoSuchMacro { line: u32 },
    #[error("NoMemory")]
    NoMemory,
}

ghost use Rattle.std.specs.Prelude.{◌≡◌};
ghost use Rattle.cw_macro.specs.declared.fault.MacroFault.TheVariants as faults;

impl From<NoMemory> for MacroFault {
    ghost from_gives = { λ _ fault. fault ≡ faults.NoMemory };

    fn from(_: NoMemory) -> MacroFault {
        MacroFault::NoMemory
    }
}

impl From<AllocError> for MacroFault {
    ghost from_gives = { λ _ fault. fault ≡ faults.NoMemory };

    fn from(_: AllocError) -> MacroFault {
        MacroFault::NoMemory
    }
}
