//! What the tables and the descriptors tell, each at one place.
ghost use Rattle.std.specs.Prelude.{◌≡◌, ◌↔◌, [], slice_get, slice_index_or, Some, None, IsTrue};
ghost use Rattle.cw_comm.specs.Agreement.{wants_definition};
ghost use Rattle.cw_comm.specs.Tables.{AreAlike, TellsWanted};

use crate::face::Face;
use crate::listing::same_listing;
use crate::tables::Tables;
use cw_unit::descriptor::DescBody;
use cw_word::List;

/// The segment that lists a name, with its descriptor, if there is one.
pub(crate) fn entry(tables: &Tables, name: usize) -> Option<(u8, usize)>
    ensures { result ≡ slice_index_or tables.now.listings.items name None }
{
    match tables.listings.get(name) {
        Some(entry) => *entry,
        None => None,
    }
}

/// The segment that defines a name, if there is one.
pub(crate) fn definer(tables: &Tables, name: usize) -> Option<u8>
    ensures { result ≡ slice_index_or tables.now.definers.items name None }
{
    match tables.definers.get(name) {
        Some(entry) => *entry,
        None => None,
    }
}

/// Whether it is this segment that defines a name.
pub(crate) fn is_definer(tables: &Tables, name: usize, segment: usize) -> bool
    ensures { IsTrue result ↔ (slice_index_or tables.now.definers.items name None ≡ Some segment) }
{
    match definer(tables, name) {
        Some(definer) => definer as usize == segment,
        None => false,
    }
}

/// The number of a descriptor's name, where these are those of its segment.
pub(crate) fn own_number(numbers: &[usize], descriptor: usize) -> Option<usize>
    ensures { result ≡ slice_get numbers.now descriptor }
{
    numbers.get(descriptor).copied()
}

/// The numbers of the names of a segment's descriptors.
pub(crate) fn row(numbers: &[List<usize>], segment: usize) -> &[usize]
    ensures { result.now ≡ slice_index_or numbers.now segment [] }
{
    match numbers.get(segment) {
        Some(numbers) => numbers.as_slice(),
        None => &[],
    }
}

/// The number of a descriptor's name.
pub(crate) fn number(numbers: &[List<usize>], segment: usize, descriptor: usize) -> usize
    ensures { result ≡ slice_index_or (slice_index_or numbers.now segment []) descriptor 0 }
{
    match numbers.get(segment) {
        Some(numbers) => match numbers.as_slice().get(descriptor) {
            Some(number) => *number,
            None => 0,
        },
        None => 0,
    }
}

/// Whether the descriptors at two places tell the same. Where one is not there, nothing differs.
pub(crate) fn tells_same(
    segments: &[Face],
    segment: usize,
    descriptor: usize,
    other: usize,
    place: usize,
) -> bool
    ensures { IsTrue result ↔ AreAlike segments.now segment descriptor other place }
{
    match (segments.get(segment), segments.get(other)) {
        (Some(face), Some(first)) => match (
            face.descs.as_slice().get(descriptor),
            first.descs.as_slice().get(place),
        ) {
            (Some(here), Some(there)) => same_listing(
                face.descs.as_slice(),
                here,
                first.descs.as_slice(),
                there,
            ),
            _ => true,
        },
        _ => true,
    }
}

/// Whether the body of a descriptor wants a definition.
pub fn wants_definition(body: &DescBody) -> bool
    ensures { result ≡ wants_definition body.now }
{
    match body {
        DescBody::Word(_) => false,
        DescBody::Array { .. } => false,
        DescBody::Table { .. } => false,
        DescBody::Label => true,
        DescBody::Switch => true,
        DescBody::Proc(_) => true,
    }
}

/// Whether the descriptor at a place wants a definition, if it is there.
pub(crate) fn is_wanted(segments: &[Face], segment: usize, descriptor: usize) -> bool
    ensures { TellsWanted segments.now segment descriptor result }
{
    match segments.get(segment) {
        Some(face) => match face.descs.as_slice().get(descriptor) {
            Some(descriptor) => wants_definition(&descriptor.body),
            None => false,
        },
        None => false,
    }
}
