//! A view of an object: its records as slices of its bytes.
ghost use Rattle.std.specs.Prelude.{◌≡◌, ◌≤◌, ◌≢◌, ◌++◌, length, drop};
ghost use Rattle.cw_fields.specs.Fields.{Gives};
ghost use Rattle.cw_view.specs.ObjectFormat.{IsVersion, header};
ghost use Rattle.cw_view.specs.Splitting.{payloads_in, payloads_left};
ghost use Rattle.cw_view.specs.Fronts.{AnswersVersion, AnswersRecord, AnswersRecords, AnswersOpen, first_name};

use crate::fault::ObjFault;
use crate::front::{END, Front, HEAD, can_follow};
use crate::header::{HEADER, HeaderFault, version_behind};
use crate::records::Records;
use byteorder::{ByteOrder, LittleEndian};
use cw_fields::{named, text_in};
use cw_word::Name;

/// How an object begins.
const MARK: [u8; 4] = *b"C66O";

/// The records of an object, as slices of its bytes.
#[derive(Clone, Copy)]
pub struct View<'a> {
    pub(crate) bytes: &'a [u8],
    pub(crate) version: u16,
    pub(crate) name: Name,
    pub(crate) code: &'a [u8],
}

fn version_of(bytes: &[u8]) -> Result<u16, ObjFault>
    ensures { AnswersVersion bytes.now result }
{
    match version_behind(MARK, bytes) {
        Ok(version) => {
            if version != 1 && version != 2 {
                return Err(ObjFault::BadVersion);
            }
            Ok(version)
        }
        Err(HeaderFault::OtherMark) => Err(ObjFault::NotObject),
        Err(HeaderFault::Short) => Err(ObjFault::Truncated {
            at: bytes.len() as u64,
        }),
    }
}

// The kind of the record at a place, behind one of another kind, and the size of its payload.
fn record_at(version: u16, last: u8, bytes: &[u8], at: usize) -> Result<(u8, usize), ObjFault>
    requires within { at ≤ length bytes.now }
    requires goes_on { last ≢ 255 }
    ensures { AnswersRecord version last bytes.now at result }
{
    let left = bytes.len() - at;
    if left == 0 {
        return Err(ObjFault::Truncated {
            at: bytes.len() as u64,
        });
    }
    let kind = bytes[at];
    if !can_follow(version, last, kind) {
        return Err(ObjFault::BadRecord { at: at as u64 });
    }
    if left < HEAD {
        return Err(ObjFault::Truncated {
            at: bytes.len() as u64,
        });
    }
    let size = LittleEndian::read_u32(&bytes[at + 1..]) as usize;
    if left - HEAD < size {
        return Err(ObjFault::Truncated {
            at: bytes.len() as u64,
        });
    }
    Ok((kind, size))
}

// What the records tell, and the place behind the last one.
fn read_records(version: u16, bytes: &[u8]) -> Result<(Front, usize), ObjFault>
    requires version { IsVersion version }
    requires header { bytes.now ≡ header version ++ drop 6 bytes.now }
    ensures { AnswersRecords version bytes.now result }
{
    let mut front = Front::new();
    let mut at = HEADER;
    while front.kind != END {
        let (kind, size) = record_at(version, front.kind, bytes, at)?;
        let start = at + HEAD;
        match front.next(bytes, kind, &bytes[start..start + size]) {
            None => return Err(ObjFault::BadRecord { at: at as u64 }),
            Some(number) => {
                front = front.with(at, kind, size, number);
                at = start + size;
            }
        }
    }
    Ok((front, at))
}

// The name in the first record.
fn segment_name(bytes: &[u8]) -> Option<Name>
    requires { 11 ≤ length bytes.now }
    ensures { Gives (λ n. n) result (first_name bytes.now) }
{
    let (text, _) = text_in(&bytes[11..])?;
    named(text)
}

impl<'a> View<'a> {
    /// The view of the object that these bytes are, or the first thing that is wrong with them.
    pub fn open(bytes: &'a [u8]) -> Result<View<'a>, ObjFault>
        ensures { AnswersOpen bytes.now result }
    {
        let version = version_of(bytes)?;
        let (front, at) = read_records(version, bytes)?;
        if at < bytes.len() {
            return Err(ObjFault::Trailing { at: at as u64 });
        }
        match segment_name(bytes) {
            Some(name) => Ok(View {
                bytes,
                version,
                name,
                code: front.code(bytes),
            }),
            None => unreachable!(),
        }
    }

    /// The version of the object, 1 or 2.
    pub fn version(&self) -> u16
        ensures { result ≡ self.now.version }
    {
        self.version
    }

    /// The name of the segment.
    pub fn name(&self) -> Name
        ensures { result ≡ self.now.name }
    {
        self.name
    }

    /// The code of the segment, where the words that the linker fills are 0.
    pub fn code(&self) -> &'a [u8]
        ensures { result.now ≡ self.now.code.now }
    {
        self.code
    }

    /// The payloads of the records of a kind, in order.
    pub fn records(&self, kind: u8) -> Records<'a>
        ensures { payloads_left result ≡ payloads_in kind (drop 6 self.now.bytes.now) }
    {
        let rest = match self.bytes.get(HEADER..) {
            Some(rest) => rest,
            None => &[],
        };
        Records { kind, rest }
    }
}
