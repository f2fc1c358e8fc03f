//! Why a text is no HEX text.
use std::fmt;
use thiserror::Error;

/// The first thing that is wrong with a text, with the number of its line, from 1.
#[derive(Clone, Copy, Debug, PartialEq, Eq, Error)]
pub enum HexFault {
    /// The line is no record.
    #[error("BadLine")]
    BadLine { line: u64 },
    /// The bytes of the record do not sum to 0.
    #[error("BadSum")]
    BadSum { line: u64 },
    /// The type is over 3, or one that asks for another length.
    #[error("BadType")]
    BadType { line: u64 },
    /// A record follows the end.
    #[error("AfterEnd")]
    AfterEnd { line: u64 },
    /// The text ends, and no record has ended it. The line is the one after its last.
    #[error("NoEnd")]
    NoEnd { line: u64 },
    #[error("NoMemory")]
    NoMemory,
}
