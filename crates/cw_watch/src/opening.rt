// Objects that are opened again.
ghost use Rattle.std.specs.Prelude.{◌≡◌, length, map};
ghost use Rattle.cw_view.specs.ObjectFormat.{IsObject};
ghost use Rattle.cw_view.specs.Reading.{statement_in};
ghost use Rattle.cw_link.specs.Contents.{contents_of, records_of};
ghost use Rattle.cw_object.specs.ObjectContents.{contents_in};
ghost use Rattle.cw_watch.specs.Rising.{RisesFrom};

use cw_view::View;
use cw_view::laws::object_format;

/// The view of an object, which tells what its bytes tell.
pub(crate) fn view_of(object: &[u8]) -> View
    requires { IsObject object.now }
    ensures bytes { result.bytes.now ≡ object.now }
    ensures contents { contents_of result ≡ contents_in object.now }
    ensures rises { RisesFrom 0 (map (λ s. s.0) (records_of statement_in 10 result)) (length result.code.now) }
{
    object_format();
    match View::open(object) {
        Ok(view) => view,
        Err(_) => unreachable!(),
    }
}
