//! Descriptors as they are read.
ghost use Rattle.std.specs.Prelude.{◌≡◌, drop, IfOk};
ghost use Rattle.cw_fields.specs.Fields.{Gives, counted, optional_in, whole};
ghost use Rattle.cw_fields.specs.Names.{name_in};
ghost use Rattle.cw_view.specs.Reading.{scale_in, plain_parameter_in, parameter_in, spec_in, bounds_in};
ghost use Rattle.cw_view.specs.Reading.{dimensions_in, element_in, body_in, listed_in, descriptor_in};
ghost use Rattle.cw_view.specs.Splitting.{payloads_in};
ghost use Rattle.cw_view.specs.Values.{values_in};
ghost use Rattle.cw_view.specs.Views.{proc_of, Builds};
ghost use Rattle.cw_view.specs.declared.building.DescFault.TheVariants as faults;

use crate::descriptor::overlay_in;
use crate::view::View;
use cw_fields::{byte_in, flag_in, name_in, named, signed_in, word_in};
use cw_unit::descriptor::{Desc, DescBody, ElemDesc, Scale, Spec, SpecParam};
use cw_word::{List, NoMemory};
use std::alloc::Global;

/// Why a payload gave no descriptor.
#[derive(Clone, Copy, Debug, PartialEq, Eq)]
pub enum DescFault {
    /// It is not of the form.
    NotDesc,
    NoMemory,
}

impl From<NoMemory> for DescFault {
    ghost from_gives = { λ _ fault. fault ≡ faults.NoMemory };

    fn from(_: NoMemory) -> DescFault {
        DescFault::NoMemory
    }
}

#[tactic(auto, unfolding(crate::specs::Reading::scale_in))]
pub(crate) fn scale_in(bytes: &[u8]) -> Option<(Scale, &[u8])>
    ensures { Gives (λ x. (x.0, x.1.now)) result (scale_in bytes.now) }
{
    let (t, rest) = byte_in(bytes)?;
    let (f, rest) = byte_in(rest)?;
    Some((Scale { t, f }, rest))
}

pub(crate) fn plain_parameter_in(bytes: &[u8]) -> Option<(SpecParam, &[u8])>
    ensures { Gives (λ x. (x.0, x.1.now)) result (plain_parameter_in bytes.now) }
{
    let (number, rest) = byte_in(bytes)?;
    match number {
        0 => {
            let (scale, rest) = scale_in(rest)?;
            Some((SpecParam::Value(scale), rest))
        }
        1 => {
            let (scale, rest) = scale_in(rest)?;
            Some((SpecParam::Location(scale), rest))
        }
        2 => {
            let (scale, rest) = scale_in(rest)?;
            Some((SpecParam::Array(scale), rest))
        }
        3 => {
            let (width, rest) = word_in(rest)?;
            Some((SpecParam::Table(width), rest))
        }
        4 => Some((SpecParam::Label, rest)),
        5 => Some((SpecParam::Switch, rest)),
        _ => None,
    }
}

pub(crate) fn proc_of(spec: Spec) -> SpecParam
    ensures { result ≡ proc_of spec }
{
    SpecParam::Proc(spec)
}

#[tactic(auto, unfolding(cw_fields::specs::Fields::flag_in))]
fn answer_in(bytes: &[u8]) -> Option<(Option<Scale>, &[u8])>
    ensures { Gives (λ x. (x.0, x.1.now)) result (optional_in scale_in bytes.now) }
{
    match flag_in(bytes)? {
        (false, rest) => Some((None, rest)),
        (true, rest) => {
            let (scale, rest) = scale_in(rest)?;
            Some((Some(scale), rest))
        }
    }
}

#[tactic(auto, using(crate::proofs::Gathering::gathering))]
fn plain_parameters(
    alloc: Global,
    count: u8,
    bytes: &[u8],
) -> Result<(List<SpecParam>, &[u8]), DescFault>
    ensures { Builds (λ x. (x.0, x.1.now)) result (counted count plain_parameter_in bytes.now) }
{
    let mut items = List::new(alloc);
    let mut rest = bytes;
    for _ in 0..count {
        let (item, after) = plain_parameter_in(rest).ok_or(DescFault::NotDesc)?;
        items.push(item)?;
        rest = after;
    }
    Ok((items, rest))
}

fn plain_spec_in(alloc: Global, bytes: &[u8]) -> Result<(Spec, &[u8]), DescFault>
    ensures { Builds (λ x. (x.0, x.1.now)) result (spec_in plain_parameter_in bytes.now) }
{
    let (answer, rest) = answer_in(bytes).ok_or(DescFault::NotDesc)?;
    let (count, rest) = byte_in(rest).ok_or(DescFault::NotDesc)?;
    let (params, rest) = plain_parameters(alloc, count, rest)?;
    Ok((Spec { answer, params }, rest))
}

fn parameter_in(alloc: Global, bytes: &[u8]) -> Result<(SpecParam, &[u8]), DescFault>
    ensures { Builds (λ x. (x.0, x.1.now)) result (parameter_in bytes.now) }
{
    let (number, rest) = byte_in(bytes).ok_or(DescFault::NotDesc)?;
    if number == 6 {
        let (spec, rest) = plain_spec_in(alloc, rest)?;
        return Ok((proc_of(spec), rest));
    }
    plain_parameter_in(bytes).ok_or(DescFault::NotDesc)
}

#[tactic(auto, using(crate::proofs::Gathering::gathering))]
fn parameters(alloc: Global, count: u8, bytes: &[u8]) -> Result<(List<SpecParam>, &[u8]), DescFault>
    ensures { Builds (λ x. (x.0, x.1.now)) result (counted count parameter_in bytes.now) }
{
    let mut items = List::new(alloc);
    let mut rest = bytes;
    for _ in 0..count {
        let (item, after) = parameter_in(alloc, rest)?;
        items.push(item)?;
        rest = after;
    }
    Ok((items, rest))
}

fn spec_in(alloc: Global, bytes: &[u8]) -> Result<(Spec, &[u8]), DescFault>
    ensures { Builds (λ x. (x.0, x.1.now)) result (spec_in parameter_in bytes.now) }
{
    let (answer, rest) = answer_in(bytes).ok_or(DescFault::NotDesc)?;
    let (count, rest) = byte_in(rest).ok_or(DescFault::NotDesc)?;
    let (params, rest) = parameters(alloc, count, rest)?;
    Ok((Spec { answer, params }, rest))
}

pub(crate) fn bounds_in(bytes: &[u8]) -> Option<((i16, i16), &[u8])>
    ensures { Gives (λ x. (x.0, x.1.now)) result (bounds_in bytes.now) }
{
    let (lower, rest) = signed_in(bytes)?;
    let (upper, rest) = signed_in(rest)?;
    Some(((lower, upper), rest))
}

#[tactic(auto, using(crate::proofs::Gathering::gathering))]
fn counted_bounds(
    alloc: Global,
    count: u8,
    bytes: &[u8],
) -> Result<(List<(i16, i16)>, &[u8]), DescFault>
    ensures { Builds (λ x. (x.0, x.1.now)) result (counted count bounds_in bytes.now) }
{
    let mut items = List::new(alloc);
    let mut rest = bytes;
    for _ in 0..count {
        let (item, after) = bounds_in(rest).ok_or(DescFault::NotDesc)?;
        items.push(item)?;
        rest = after;
    }
    Ok((items, rest))
}

fn dimensions_in(alloc: Global, bytes: &[u8]) -> Result<(List<(i16, i16)>, &[u8]), DescFault>
    ensures { Builds (λ x. (x.0, x.1.now)) result (dimensions_in bytes.now) }
{
    let (count, rest) = byte_in(bytes).ok_or(DescFault::NotDesc)?;
    if count != 1 && count != 2 {
        return Err(DescFault::NotDesc);
    }
    counted_bounds(alloc, count, rest)
}

fn array_in(alloc: Global, bytes: &[u8]) -> Result<(DescBody, &[u8]), DescFault>
    ensures { Builds (λ x. (x.0, x.1.now)) result (body_in 1 bytes.now) }
{
    let (scale, rest) = scale_in(bytes).ok_or(DescFault::NotDesc)?;
    let (dims, rest) = dimensions_in(alloc, rest)?;
    Ok((DescBody::Array { scale, dims }, rest))
}

pub(crate) fn element_in(bytes: &[u8]) -> Option<(ElemDesc, &[u8])>
    ensures { Gives (λ x. (x.0, x.1.now)) result (element_in bytes.now) }
{
    let (text, rest) = name_in(bytes)?;
    let (form, rest) = byte_in(rest)?;
    let (t, rest) = byte_in(rest)?;
    let (f, rest) = byte_in(rest)?;
    let (word, rest) = word_in(rest)?;
    let (bit, rest) = byte_in(rest)?;
    if form > 2 {
        return None;
    }
    match named(text) {
        Some(name) => Some((
            ElemDesc {
                name,
                form,
                t,
                f,
                word,
                bit,
            },
            rest,
        )),
        None => unreachable!(),
    }
}

#[tactic(auto, using(crate::proofs::Gathering::gathering))]
fn counted_elements(
    alloc: Global,
    count: u16,
    bytes: &[u8],
) -> Result<(List<ElemDesc>, &[u8]), DescFault>
    ensures { Builds (λ x. (x.0, x.1.now)) result (counted count element_in bytes.now) }
{
    let mut items = List::new(alloc);
    let mut rest = bytes;
    for _ in 0..count {
        match element_in(rest) {
            Some((item, after)) => {
                items.push(item)?;
                rest = after;
            }
            None => return Err(DescFault::NotDesc),
        }
    }
    Ok((items, rest))
}

fn table_in(alloc: Global, bytes: &[u8]) -> Result<(DescBody, &[u8]), DescFault>
    ensures { Builds (λ x. (x.0, x.1.now)) result (body_in 2 bytes.now) }
{
    let (width, rest) = word_in(bytes).ok_or(DescFault::NotDesc)?;
    let (length, rest) = word_in(rest).ok_or(DescFault::NotDesc)?;
    let (count, rest) = word_in(rest).ok_or(DescFault::NotDesc)?;
    let (elems, rest) = counted_elements(alloc, count, rest)?;
    Ok((
        DescBody::Table {
            width,
            length,
            elems,
        },
        rest,
    ))
}

fn body_in(alloc: Global, number: u8, bytes: &[u8]) -> Result<(DescBody, &[u8]), DescFault>
    ensures { Builds (λ x. (x.0, x.1.now)) result (body_in number bytes.now) }
{
    match number {
        0 => {
            let (scale, rest) = scale_in(bytes).ok_or(DescFault::NotDesc)?;
            Ok((DescBody::Word(scale), rest))
        }
        1 => array_in(alloc, bytes),
        2 => table_in(alloc, bytes),
        3 => Ok((DescBody::Label, bytes)),
        4 => Ok((DescBody::Switch, bytes)),
        5 => {
            let (spec, rest) = spec_in(alloc, bytes)?;
            Ok((DescBody::Proc(spec), rest))
        }
        _ => Err(DescFault::NotDesc),
    }
}

// What a descriptor tells behind its name and the number of its body's form.
#[derive(Drop)]
struct Listed {
    library: bool,
    over: Option<(u16, u16)>,
    body: DescBody,
}

fn listed_in(alloc: Global, number: u8, bytes: &[u8]) -> Result<(Listed, &[u8]), DescFault>
    ensures { Builds (λ x. ((x.0.library, (x.0.over, x.0.body)), x.1.now)) result (listed_in number bytes.now) }
{
    let (library, rest) = flag_in(bytes).ok_or(DescFault::NotDesc)?;
    let (over, rest) = overlay_in(rest).ok_or(DescFault::NotDesc)?;
    let (body, rest) = body_in(alloc, number, rest)?;
    Ok((
        Listed {
            library,
            over,
            body,
        },
        rest,
    ))
}

fn name_of(bytes: &[u8]) -> Result<(&[u8], &[u8]), DescFault>
    ensures { Builds (λ x. (x.0.now, x.1.now)) result (name_in bytes.now) }
{
    name_in(bytes).ok_or(DescFault::NotDesc)
}

/// The descriptor of a payload. `NotDesc` exactly where it is not of the form.
pub fn read_desc(alloc: Global, payload: &[u8]) -> Result<Desc, DescFault>
    ensures { Builds (λ d. d) result (whole descriptor_in payload.now) }
{
    let (text, rest) = name_of(payload)?;
    let (number, rest) = byte_in(rest).ok_or(DescFault::NotDesc)?;
    let (listed, rest) = listed_in(alloc, number, rest)?;
    if !rest.is_empty() {
        return Err(DescFault::NotDesc);
    }
    match named(text) {
        Some(name) => Ok(Desc {
            name,
            library: listed.library,
            over: listed.over,
            body: listed.body,
        }),
        None => unreachable!(),
    }
}

/// The descriptors that an object lists.
pub fn descriptors_of(alloc: Global, view: &View) -> Result<List<Desc>, NoMemory>
    ensures { IfOk result (λ descs. descs ≡ values_in descriptor_in (payloads_in 2 (drop 6 view.now.bytes.now))) }
{
    let mut descs = List::new(alloc);
    for payload in view.records(2) {
        match read_desc(alloc, payload) {
            Ok(desc) => descs.push(desc)?,
            Err(DescFault::NotDesc) => {}
            Err(DescFault::NoMemory) => return Err(NoMemory),
        }
    }
    Ok(descs)
}
