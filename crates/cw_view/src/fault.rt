//! Why bytes are no object.
use std::fmt;
use thiserror::Error;

/// The first thing that is wrong with the bytes of an object, with its place in them where it has one.
#[derive(Clone, Copy, Debug, PartialEq, Eq, Error)]
pub enum ObjFault {
    /// They do not begin with the mark of an object.
    #[error("NotObject")]
    NotObject,
    /// The version is neither 1 nor 2.
    #[error("BadVersion")]
    BadVersion,
    /// They end too early.
    #[error("Truncated")]
    Truncated { at: u64 },
    /// A record cannot stand there.
    #[error("BadRecord")]
    BadRecord { at: u64 },
    /// Bytes follow the last record.
    #[error("Trailing")]
    Trailing { at: u64 },
}
