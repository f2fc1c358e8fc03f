// The one file of a call, and its object.
ghost use Rattle.std.specs.Prelude.{◌≡◌, ◌≤◌, [], length, map, slice_index_or};

use cw_word::List;

/// The name of the first file.
pub(crate) fn first_name<'a>(names: &[&'a str]) -> &'a str
    requires { 1 ≤ length names.now }
    ensures { result.now ≡ slice_index_or (map (λ name. name.now) names.now) 0 [] }
{
    names[0]
}

/// The bytes of the first object.
pub(crate) fn first_object(objects: &[List<u8>]) -> &[u8]
    requires { 1 ≤ length objects.now }
    ensures { result.now ≡ slice_index_or objects.now 0 [] }
{
    objects[0].as_slice()
}
