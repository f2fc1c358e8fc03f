//! Descriptors at the end of bytes.
ghost use Rattle.std.specs.Prelude.{◌≡◌, ◌++◌, ◌∷◌, [], OnOk, IfOk, length, map};
ghost use Rattle.cw_fields.specs.Fields.{each, signed_bytes, optional_bytes, word_bytes};
ghost use Rattle.cw_view.specs.Payloads.{scale_bytes, plain_parameter_bytes, parameter_bytes, spec_bytes, bound_bytes};
ghost use Rattle.cw_view.specs.Payloads.{element_bytes, body_number, body_bytes, overlay_bytes, descriptor_bytes};
ghost use Rattle.cw_view.specs.ObjectFormat.{Descriptor};
ghost use Rattle.cw_obj.specs.ReferenceObject.{records_bytes};

use crate::records::put_record;
use cw_fields::{put_byte, put_count, put_short_count, put_signed, put_text, put_word};
use cw_unit::descriptor::{Desc, DescBody, ElemDesc, Scale, Spec, SpecParam};
use cw_word::NoMemory;
use std::alloc::Global;

fn put_scale(out: &mut Vec<u8>, scale: Scale) -> Result<(), NoMemory>
    ensures { OnOk result (out.new.items ≡ out.old.items ++ scale_bytes scale) }
{
    put_byte(out, scale.t)?;
    put_byte(out, scale.f)
}

fn put_answer(out: &mut Vec<u8>, answer: Option<Scale>) -> Result<(), NoMemory>
    ensures { OnOk result (out.new.items ≡ out.old.items ++ optional_bytes scale_bytes answer) }
{
    match answer {
        None => put_byte(out, 0),
        Some(scale) => {
            put_byte(out, 1)?;
            put_scale(out, scale)
        }
    }
}

fn put_numbered_scale(out: &mut Vec<u8>, number: u8, scale: Scale) -> Result<(), NoMemory>
    ensures { OnOk result (out.new.items ≡ out.old.items ++ number ∷ scale_bytes scale) }
{
    put_byte(out, number)?;
    put_scale(out, scale)
}

fn put_table(out: &mut Vec<u8>, width: u16) -> Result<(), NoMemory>
    ensures { OnOk result (out.new.items ≡ out.old.items ++ 3 ∷ word_bytes width) }
{
    put_byte(out, 3)?;
    put_word(out, width)
}

// A parameter that is no procedure.
fn put_plain_parameter(out: &mut Vec<u8>, parameter: &SpecParam) -> Result<(), NoMemory>
    ensures { OnOk result (out.new.items ≡ out.old.items ++ plain_parameter_bytes parameter.now) }
{
    match parameter {
        SpecParam::Value(scale) => put_numbered_scale(out, 0, *scale),
        SpecParam::Location(scale) => put_numbered_scale(out, 1, *scale),
        SpecParam::Array(scale) => put_numbered_scale(out, 2, *scale),
        SpecParam::Table(width) => put_table(out, *width),
        SpecParam::Label => put_byte(out, 4),
        SpecParam::Switch => put_byte(out, 5),
        SpecParam::Proc(_) => Ok(()),
    }
}

fn put_plain_parameters(out: &mut Vec<u8>, parameters: &[SpecParam]) -> Result<(), NoMemory>
    ensures { OnOk result (out.new.items ≡ out.old.items ++ each plain_parameter_bytes parameters.now) }
{
    for parameter in parameters {
        put_plain_parameter(out, parameter)?;
    }
    Ok(())
}

fn put_plain_spec(out: &mut Vec<u8>, spec: &Spec) -> Result<(), NoMemory>
    ensures { OnOk result (out.new.items ≡ out.old.items ++ spec_bytes plain_parameter_bytes spec.now) }
{
    put_answer(out, spec.answer)?;
    put_short_count(out, spec.params.as_slice().len())?;
    put_plain_parameters(out, spec.params.as_slice())
}

fn put_parameter(out: &mut Vec<u8>, parameter: &SpecParam) -> Result<(), NoMemory>
    ensures { OnOk result (out.new.items ≡ out.old.items ++ parameter_bytes parameter.now) }
{
    match parameter {
        SpecParam::Value(scale) => put_numbered_scale(out, 0, *scale),
        SpecParam::Location(scale) => put_numbered_scale(out, 1, *scale),
        SpecParam::Array(scale) => put_numbered_scale(out, 2, *scale),
        SpecParam::Table(width) => put_table(out, *width),
        SpecParam::Label => put_byte(out, 4),
        SpecParam::Switch => put_byte(out, 5),
        SpecParam::Proc(spec) => {
            put_byte(out, 6)?;
            put_plain_spec(out, spec)
        }
    }
}

fn put_parameters(out: &mut Vec<u8>, parameters: &[SpecParam]) -> Result<(), NoMemory>
    ensures { OnOk result (out.new.items ≡ out.old.items ++ each parameter_bytes parameters.now) }
{
    for parameter in parameters {
        put_parameter(out, parameter)?;
    }
    Ok(())
}

fn put_spec(out: &mut Vec<u8>, spec: &Spec) -> Result<(), NoMemory>
    ensures { OnOk result (out.new.items ≡ out.old.items ++ spec_bytes parameter_bytes spec.now) }
{
    put_answer(out, spec.answer)?;
    put_short_count(out, spec.params.as_slice().len())?;
    put_parameters(out, spec.params.as_slice())
}

fn put_bound(out: &mut Vec<u8>, bound: (i16, i16)) -> Result<(), NoMemory>
    ensures { OnOk result (out.new.items ≡ out.old.items ++ bound_bytes bound) }
{
    put_signed(out, bound.0)?;
    put_signed(out, bound.1)
}

fn put_bounds(out: &mut Vec<u8>, bounds: &[(i16, i16)]) -> Result<(), NoMemory>
    ensures { OnOk result (out.new.items ≡ out.old.items ++ each bound_bytes bounds.now) }
{
    for bound in bounds {
        put_bound(out, *bound)?;
    }
    Ok(())
}

fn put_element(out: &mut Vec<u8>, element: &ElemDesc) -> Result<(), NoMemory>
    ensures { OnOk result (out.new.items ≡ out.old.items ++ element_bytes element.now) }
{
    put_text(out, element.name.bytes())?;
    put_byte(out, element.form)?;
    put_byte(out, element.t)?;
    put_byte(out, element.f)?;
    put_word(out, element.word)?;
    put_byte(out, element.bit)
}

fn put_elements(out: &mut Vec<u8>, elements: &[ElemDesc]) -> Result<(), NoMemory>
    ensures { OnOk result (out.new.items ≡ out.old.items ++ each element_bytes elements.now) }
{
    for element in elements {
        put_element(out, element)?;
    }
    Ok(())
}

fn body_number(body: &DescBody) -> u8
    ensures { result ≡ body_number body.now }
{
    match body {
        DescBody::Word(_) => 0,
        DescBody::Array { .. } => 1,
        DescBody::Table { .. } => 2,
        DescBody::Label => 3,
        DescBody::Switch => 4,
        DescBody::Proc(_) => 5,
    }
}

fn put_body(out: &mut Vec<u8>, body: &DescBody) -> Result<(), NoMemory>
    ensures { OnOk result (out.new.items ≡ out.old.items ++ body_bytes body.now) }
{
    match body {
        DescBody::Word(scale) => put_scale(out, *scale),
        DescBody::Array { scale, dims } => {
            put_scale(out, *scale)?;
            put_short_count(out, dims.as_slice().len())?;
            put_bounds(out, dims.as_slice())
        }
        DescBody::Table {
            width,
            length,
            elems,
        } => {
            put_word(out, *width)?;
            put_word(out, *length)?;
            put_count(out, elems.as_slice().len())?;
            put_elements(out, elems.as_slice())
        }
        DescBody::Label => Ok(()),
        DescBody::Switch => Ok(()),
        DescBody::Proc(spec) => put_spec(out, spec),
    }
}

fn put_overlay(out: &mut Vec<u8>, over: Option<(u16, u16)>) -> Result<(), NoMemory>
    ensures { OnOk result (out.new.items ≡ out.old.items ++ optional_bytes overlay_bytes over) }
{
    match over {
        None => put_byte(out, 0),
        Some((base, offset)) => {
            put_byte(out, 1)?;
            put_word(out, base)?;
            put_word(out, offset)
        }
    }
}

fn put_descriptor_payload(out: &mut Vec<u8>, descriptor: &Desc) -> Result<(), NoMemory>
    ensures { OnOk result (out.new.items ≡ out.old.items ++ descriptor_bytes descriptor.now) }
{
    put_text(out, descriptor.name.bytes())?;
    put_byte(out, body_number(&descriptor.body))?;
    put_byte(out, u8::from(descriptor.library))?;
    put_overlay(out, descriptor.over)?;
    put_body(out, &descriptor.body)
}

fn descriptor_payload(alloc: Global, descriptor: &Desc) -> Result<Vec<u8>, NoMemory>
    ensures { IfOk result (λ payload. payload.items ≡ descriptor_bytes descriptor.now) }
{
    let mut payload = Vec::new(alloc);
    put_descriptor_payload(&mut payload, descriptor)?;
    Ok(payload)
}

/// The records of descriptors, in order.
pub(crate) fn put_descriptors(
    alloc: Global,
    out: &mut Vec<u8>,
    descriptors: &[Desc],
) -> Result<(), NoMemory>
    ensures { OnOk result (out.new.items ≡ out.old.items ++ records_bytes (map Descriptor descriptors.now)) }
{
    for descriptor in descriptors {
        let payload = descriptor_payload(alloc, descriptor)?;
        put_record(out, 2, payload.as_slice())?;
    }
    Ok(())
}
