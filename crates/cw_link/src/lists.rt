//! Lists of segments.
ghost use Rattle.std.specs.Prelude.{◌≡◌, [], slice_index_or};

use cw_word::List;

/// The list of a segment, or an empty one where there is none.
pub(crate) fn list_at<T>(lists: &[List<T>], segment: usize) -> &[T]
    ensures { result.now ≡ slice_index_or lists.now segment [] }
{
    match lists.get(segment) {
        Some(list) => list.as_slice(),
        None => &[],
    }
}
