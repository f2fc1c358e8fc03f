//! The files of a store in memory.
ghost use Rattle.std.specs.Prelude.{◌≡◌, option_map};
ghost use Rattle.cw_io.specs.Written.{part_of, written_file, given_file};

use cw_word::List;

/// A file with its name.
#[derive(Drop)]
pub struct MemFile {
    pub name: List<u8>,
    pub bytes: List<u8>,
}

/// Where a file that was written stands in the text of all that were written: its name, and then its bytes.
#[derive(Clone, Copy)]
pub(crate) struct Place {
    pub(crate) name_at: usize,
    pub(crate) bytes_at: usize,
    pub(crate) end: usize,
}

/// The file of a name among those given, the first where there are more.
pub(crate) fn given<'a>(files: &'a [MemFile], name: &[u8]) -> Option<&'a [u8]>
    ensures { option_map (λ bytes. bytes.now) result ≡ given_file files.now name.now }
{
    for file in files {
        if file.name.as_slice() == name {
            return Some(file.bytes.as_slice());
        }
    }
    None
}

/// The file that was written last under a name, or else the one given.
pub(crate) fn written<'a>(
    places: &[Place],
    text: &'a [u8],
    name: &[u8],
    given: Option<&'a [u8]>,
) -> Option<&'a [u8]>
    ensures { option_map (λ bytes. bytes.now) result ≡ written_file places.now text.now name.now (option_map (λ bytes. bytes.now) given.entry) }
{
    let mut found = given;
    for place in places {
        if part(text, place.name_at, place.bytes_at) == name {
            found = Some(part(text, place.bytes_at, place.end));
        }
    }
    found
}

fn part(text: &[u8], from: usize, to: usize) -> &[u8]
    ensures { result.now ≡ part_of text.now from to }
{
    let (_, rest) = text.split_at(from.min(text.len()));
    let (part, _) = rest.split_at(to.saturating_sub(from).min(rest.len()));
    part
}
