//! What the linker takes from objects.
ghost use Rattle.std.specs.Prelude.{◌≡◌, map, IfOk};
ghost use Rattle.cw_view.specs.Reading.{family_in, definition_in, body_facts_in};
ghost use Rattle.cw_link.specs.Contents.{records_of, contents_of, first_body};
ghost use Rattle.cw_link.specs.LinkedImage.{face_of, faces_of, space_of, spaces_of};

use cw_comm::Face;
use cw_place::Space;
use cw_unit::layout::{Body, Family};
use cw_view::{View, descriptors_of, read_body, read_definition, read_family};
use cw_word::{List, Name, NoMemory};
use std::alloc::Global;

/// The families of an object.
pub fn families_of(alloc: Global, view: &View) -> Result<List<Family>, NoMemory>
    ensures { IfOk result (λ families. families ≡ records_of family_in 3 view.now) }
{
    let mut families = List::new(alloc);
    for payload in view.records(3) {
        if let Some(family) = read_family(payload) {
            families.push(family)?;
        }
    }
    Ok(families)
}

// The descriptors that an object defines.
fn defined_by(alloc: Global, view: &View) -> Result<List<u16>, NoMemory>
    ensures { IfOk result (λ defined. defined ≡ map (λ d. d.0) (records_of definition_in 8 view.now)) }
{
    let mut defined = List::new(alloc);
    for payload in view.records(8) {
        if let Some((descriptor, _)) = read_definition(payload) {
            defined.push(descriptor)?;
        }
    }
    Ok(defined)
}

/// The facts of an object's body.
pub(crate) fn body_of(view: &View) -> Body
    ensures { result ≡ first_body (records_of body_facts_in 9 view.now) }
{
    for payload in view.records(9) {
        if let Some(body) = read_body(payload) {
            return body;
        }
    }
    Body {
        entry: 0,
        need: 0,
        tokens: 0,
    }
}

fn face_of(alloc: Global, view: &View) -> Result<Face, NoMemory>
    ensures { IfOk result (λ face. face ≡ face_of (contents_of view.now)) }
{
    let descs = descriptors_of(alloc, view)?;
    let defined = defined_by(alloc, view)?;
    Ok(Face {
        name: view.name(),
        descs,
        defined,
    })
}

fn space_of(alloc: Global, view: &View) -> Result<Space, NoMemory>
    ensures { IfOk result (λ space. space ≡ space_of (contents_of view.now)) }
{
    let families = families_of(alloc, view)?;
    Ok(Space {
        families,
        need: body_of(view).need,
    })
}

/// What objects show to each other.
pub(crate) fn faces_of(alloc: Global, views: &[View]) -> Result<List<Face>, NoMemory>
    ensures { IfOk result (λ faces. faces ≡ faces_of (map contents_of views.now)) }
{
    let mut faces = List::new(alloc);
    for view in views {
        faces.push(face_of(alloc, view)?)?;
    }
    Ok(faces)
}

/// The storage that objects take.
pub(crate) fn spaces_of(alloc: Global, views: &[View]) -> Result<List<Space>, NoMemory>
    ensures { IfOk result (λ spaces. spaces ≡ spaces_of (map contents_of views.now)) }
{
    let mut spaces = List::new(alloc);
    for view in views {
        spaces.push(space_of(alloc, view)?)?;
    }
    Ok(spaces)
}

/// The names of the segments.
pub(crate) fn names_of(alloc: Global, views: &[View]) -> Result<List<Name>, NoMemory>
    ensures { IfOk result (λ names. names ≡ map (λ c. c.name) (map contents_of views.now)) }
{
    let mut names = List::new(alloc);
    for view in views {
        names.push(view.name())?;
    }
    Ok(names)
}
