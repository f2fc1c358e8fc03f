//! The mark and the version with which a file begins.
ghost use Rattle.std.specs.Prelude.{◌≡◌, length};
ghost use Rattle.cw_view.specs.Headers.{AnswersHeader};

use byteorder::{ByteOrder, LittleEndian};

/// The bytes of the mark and the version.
pub const HEADER: usize = 6;

/// Why bytes do not begin with a mark and a version.
#[derive(Clone, Copy, Debug, PartialEq, Eq)]
pub enum HeaderFault {
    /// They begin with another mark.
    OtherMark,
    /// They end before the end of the version.
    Short,
}

/// The version that stands behind a mark of four bytes.
pub fn version_behind(mark: [u8; 4], bytes: &[u8]) -> Result<u16, HeaderFault>
    requires { length mark ≡ 4 }
    ensures { AnswersHeader mark bytes.now result }
{
    let size = bytes.len().min(4);
    if bytes[..size] != mark[..size] {
        return Err(HeaderFault::OtherMark);
    }
    if bytes.len() < HEADER {
        return Err(HeaderFault::Short);
    }
    Ok(LittleEndian::read_u16(&bytes[4..]))
}
