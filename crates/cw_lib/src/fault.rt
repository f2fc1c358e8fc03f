//! Why bytes are no library.
use cw_view::ObjFault;
use std::fmt;
use thiserror::Error;

/// The first thing that is wrong with the bytes of a library, with its place in them where it has one.
#[derive(Clone, Copy, Debug, PartialEq, Eq, Error)]
pub enum LibFault {
    /// They do not begin with the mark of a library.
    #[error("NotLibrary")]
    NotLibrary,
    /// The version is not 1.
    #[error("BadVersion")]
    BadVersion,
    /// They end too early.
    #[error("Truncated")]
    Truncated { at: u64 },
    /// The number of members is not 1 to 200.
    #[error("BadField")]
    BadField { at: u64 },
    /// This member, counted from 1, is no object, and this is its first fault.
    #[error("BadMember")]
    BadMember { member: u16, fault: ObjFault },
    /// Bytes follow the last member.
    #[error("Trailing")]
    Trailing { at: u64 },
}
