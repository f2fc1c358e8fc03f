//! Linking objects by their bytes.
ghost use Rattle.std.specs.Prelude.{◌≡◌, ◌≤◌, length, map, All, IfOk};
ghost use Rattle.cw_view.specs.ObjectFormat.{IsObject};
ghost use Rattle.cw_place.specs.Placement.{IsLimits};
ghost use Rattle.cw_link.specs.{Contents.contents_of, LinkFaults.AnswersLink, Views.IsOpened};
ghost use Rattle.cw_object.specs.ObjectContents.{contents_in};

use cw_link::{LinkFault, Linked, link};
use cw_unit::layout::Limits;
use cw_view::View;
use cw_view::laws::object_format;
use cw_word::{List, NoMemory};
use std::alloc::Global;

// The view of an object, which tells what its bytes tell.
fn view_of(object: &[u8]) -> View
    requires { IsObject object.now }
    ensures opened { IsOpened result }
    ensures contents { contents_of result ≡ contents_in object.now }
{
    object_format();
    match View::open(object) {
        Ok(view) => view,
        Err(_) => unreachable!(),
    }
}

// The views of objects, in order.
fn views_of(alloc: Global, objects: &[List<u8>]) -> Result<List<View>, NoMemory>
    requires { All IsObject objects.now }
    ensures opened { IfOk result (λ views. All IsOpened views) }
    ensures contents { IfOk result (λ views. map contents_of views ≡ map contents_in objects.now) }
{
    let mut views = List::new(alloc);
    for object in objects {
        views.push(view_of(object.as_slice()))?;
    }
    Ok(views)
}

/// The image of objects and their storage map, or the first reason why they do not link.
pub fn link_objects(
    alloc: Global,
    objects: &[List<u8>],
    limits: &Limits,
) -> Result<Linked, LinkFault>
    requires few { length objects.now ≤ 200 }
    requires opened { All IsObject objects.now }
    requires limits { IsLimits limits.now }
    ensures { AnswersLink (map contents_in objects.now) limits.now result }
{
    let views = views_of(alloc, objects)?;
    link(alloc, views.as_slice(), limits)
}
