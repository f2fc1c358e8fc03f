//! Why bytes are no image.
ghost use Rattle.cw_image.specs.declared.fault.ImageFault.TheVariants as faults;
ghost use Rattle.std.specs.Prelude.{◌≡◌};

use cw_word::NoMemory;
use std::fmt;
use thiserror::Error;

/// The first thing that is wrong with the bytes of an image, with its place in them where it has one.
#[derive(Clone, Copy, Debug, PartialEq, Eq, Error)]
pub enum ImageFault {
    /// They do not begin with the mark of an image.
    #[error("NotImage")]
    NotImage,
    /// The version is not 1.
    #[error("BadVersion")]
    BadVersion,
    /// They end too early.
    #[error("Truncated")]
    Truncated { at: u64 },
    /// A field is out of its range.
    #[error("BadField")]
    BadField { at: u64 },
    /// Bytes follow the last field.
    #[error("Trailing")]
    Trailing { at: u64 },
    #[error("NoMemory")]
    NoMemory,
}

impl From<NoMemory> for ImageFault {
    ghost from_gives = { λ _ fault. fault ≡ faults.NoMemory };

    fn from(_: NoMemory) -> ImageFault {
        ImageFault::NoMemory
    }
}
