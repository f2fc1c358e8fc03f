//! Libraries as they are read: their members as slices of their bytes.
ghost use Rattle.std.specs.Prelude.{◌≡◌, ◌++◌, ◌<◌, drop, slice_get, IfOk, IfErr};
ghost use Rattle.cw_fields.specs.Fields.{Gives};
ghost use Rattle.cw_lib.specs.LibraryFormat.{header};
ghost use Rattle.cw_lib.specs.Reading.{first_member, members_of, AnswersHeader, AnswersNumber, IsBehindMember, FailsMember, AnswersOpen};

use crate::fault::LibFault;
use cw_fields::{bytes_in, long_in, word_in};
use cw_view::{HEADER, HeaderFault, View, version_behind};

/// How a library begins.
const MARK: [u8; 4] = *b"C66L";

/// The place of the first member.
const START: usize = 8;

/// The members of a library, as slices of its bytes.
#[derive(Clone, Copy)]
pub struct Lib<'a> {
    pub(crate) count: u16,
    pub(crate) rest: &'a [u8],
}

// That mark and version are those of a library.
fn header_of(bytes: &[u8]) -> Result<(), LibFault>
    ensures { AnswersHeader bytes.now result }
{
    match version_behind(MARK, bytes) {
        Ok(1) => Ok(()),
        Ok(_) => Err(LibFault::BadVersion),
        Err(HeaderFault::OtherMark) => Err(LibFault::NotLibrary),
        Err(HeaderFault::Short) => Err(LibFault::Truncated {
            at: bytes.len() as u64,
        }),
    }
}

// The number of members.
fn number_of(bytes: &[u8]) -> Result<u16, LibFault>
    requires { bytes.now ≡ header 1 ++ drop 6 bytes.now }
    ensures { AnswersNumber bytes.now result }
{
    match word_in(&bytes[HEADER..]) {
        None => Err(LibFault::Truncated {
            at: bytes.len() as u64,
        }),
        Some((number, _)) => {
            if 1 <= number && number <= 200 {
                Ok(number)
            } else {
                Err(LibFault::BadField { at: HEADER as u64 })
            }
        }
    }
}

// The first member, and what follows it.
#[tactic(auto, unfolding(crate::specs::Reading::first_member))]
fn first_member(rest: &[u8]) -> Option<(&[u8], &[u8])>
    ensures { Gives (λ x. (x.0.now, x.1.now)) result (first_member rest.now) }
{
    let (size, rest) = long_in(rest)?;
    bytes_in(size as usize, rest)
}

// What follows the first member, which has this number in bytes of this length, where it is an object.
fn behind_member(len: usize, number: u16, rest: &[u8]) -> Result<&[u8], LibFault>
    ensures there { IfOk result (λ after. IsBehindMember rest.now after.now) }
    ensures fault { IfErr result (FailsMember len number rest.now) }
{
    match first_member(rest) {
        None => Err(LibFault::Truncated { at: len as u64 }),
        Some((member, after)) => match View::open(member) {
            Ok(_) => Ok(after),
            Err(fault) => Err(LibFault::BadMember {
                member: number,
                fault,
            }),
        },
    }
}

/// The library that these bytes are, or the first thing that is wrong with them. It takes no memory.
pub fn open_lib<'a>(bytes: &'a [u8]) -> Result<Lib<'a>, LibFault>
    ensures { AnswersOpen bytes.now result }
{
    header_of(bytes)?;
    let count = number_of(bytes)?;
    let members = &bytes[START..];
    let mut rest = members;
    for k in 0..count {
        rest = behind_member(bytes.len(), k + 1, rest)?;
    }
    if !rest.is_empty() {
        return Err(LibFault::Trailing {
            at: bytes.len().saturating_sub(rest.len()) as u64,
        });
    }
    Ok(Lib {
        count,
        rest: members,
    })
}

impl<'a> Lib<'a> {
    /// How many members there are, 1 to 200.
    pub fn count(&self) -> u16
        ensures { result ≡ self.now.count }
    {
        self.count
    }

    /// The member of a number, from 0. None exactly where there are not so many.
    pub fn member(&self, k: u16) -> Option<&'a [u8]>
        ensures { Gives (λ m. m.now) result (slice_get (members_of self.now) k) }
    {
        if self.count <= k {
            return None;
        }
        let mut rest = self.rest;
        for _ in 0..k {
            match first_member(rest) {
                None => return None,
                Some((_, after)) => rest = after,
            }
        }
        match first_member(rest) {
            None => None,
            Some((member, _)) => Some(member),
        }
    }
}
