//! The offers of objects, read from their bytes.
ghost use Rattle.std.specs.Prelude.{◌≡◌, map, drop, slice_get, All, IfOk};
ghost use Rattle.cw_view.specs.ObjectFormat.{IsObject};
ghost use Rattle.cw_view.specs.Reading.{definition_in};
ghost use Rattle.cw_view.specs.Splitting.{payloads_in};
ghost use Rattle.cw_pick.specs.Selection.{values_in};
ghost use Rattle.cw_pick.specs.Offers.{wanting, name_of, defined, offer_of};

use crate::offer::Offer;
use cw_comm::wants_definition;
use cw_unit::descriptor::Desc;
use cw_view::laws::object_format;
use cw_view::{View, descriptors_of, read_definition};
use cw_word::{List, Name, NoMemory};
use std::alloc::Global;

fn view_of(object: &[u8]) -> View
    requires { IsObject object.now }
    ensures { result.bytes.now ≡ object.now }
{
    object_format();
    match View::open(object) {
        Ok(view) => view,
        Err(_) => unreachable!(),
    }
}

// The numbers of the descriptors that an object defines.
fn definitions_of(alloc: Global, view: &View) -> Result<List<u16>, NoMemory>
    ensures { IfOk result (λ numbers. numbers ≡ map (λ d. d.0) (values_in definition_in (payloads_in 8 (drop 6 view.now.bytes.now)))) }
{
    let mut numbers = List::new(alloc);
    for payload in view.records(8) {
        if let Some((descriptor, _)) = read_definition(payload) {
            numbers.push(descriptor)?;
        }
    }
    Ok(numbers)
}

// The names of the descriptors that want a definition.
fn wanting(alloc: Global, descriptors: &[Desc]) -> Result<List<Name>, NoMemory>
    ensures { IfOk result (λ names. names ≡ wanting descriptors.now) }
{
    let mut names = List::new(alloc);
    for descriptor in descriptors {
        if wants_definition(&descriptor.body) {
            names.push(descriptor.name)?;
        }
    }
    Ok(names)
}

fn name_of(descriptors: &[Desc], number: u16) -> Option<Name>
    ensures { result ≡ name_of (slice_get descriptors.now number) }
{
    match descriptors.get(number as usize) {
        Some(descriptor) => Some(descriptor.name),
        None => None,
    }
}

// The names of the descriptors of these numbers.
fn defined(alloc: Global, descriptors: &[Desc], numbers: &[u16]) -> Result<List<Name>, NoMemory>
    ensures { IfOk result (λ names. names ≡ defined descriptors.now numbers.now) }
{
    let mut names = List::new(alloc);
    for number in numbers {
        if let Some(name) = name_of(descriptors, *number) {
            names.push(name)?;
        }
    }
    Ok(names)
}

fn offer_of(alloc: Global, object: &[u8]) -> Result<Offer, NoMemory>
    requires { IsObject object.now }
    ensures { IfOk result (λ offer. offer ≡ offer_of object.now) }
{
    let view = view_of(object);
    let descriptors = descriptors_of(alloc, &view)?;
    let numbers = definitions_of(alloc, &view)?;
    Ok(Offer {
        lists: wanting(alloc, descriptors.as_slice())?,
        defines: defined(alloc, descriptors.as_slice(), numbers.as_slice())?,
    })
}

/// What objects offer, in order.
pub(crate) fn offers_of(alloc: Global, objects: &[List<u8>]) -> Result<List<Offer>, NoMemory>
    requires { All IsObject objects.now }
    ensures { IfOk result (λ offers. offers ≡ map offer_of objects.now) }
{
    let mut offers = List::new(alloc);
    for object in objects {
        offers.push(offer_of(alloc, object.as_slice())?)?;
    }
    Ok(offers)
}
