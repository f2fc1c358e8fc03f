//! The payloads of descriptors, passed over without memory.
ghost use Rattle.std.specs.Prelude.{◌≡◌};
ghost use Rattle.cw_fields.specs.Fields.{Gives, GivesRest, skipped, whole, counted, optional_in};
ghost use Rattle.cw_view.specs.Reading.{scale_in, plain_parameter_of, plain_parameter_in, parameters_in, spec_in, parameter_of, parameter_in};
ghost use Rattle.cw_view.specs.Reading.{bounds_in, dimensions_in, element_in, elements_in, body_in, overlay_in, descriptor_in};
ghost use Rattle.cw_view.specs.Views.{base_of};

use crate::building::{bounds_in, element_in, scale_in};
use cw_fields::{byte_in, flag_in, name_in, word_in};

fn after_scale(bytes: &[u8]) -> Option<&[u8]>
    ensures { GivesRest (λ r. r.now) result (scale_in bytes.now) }
{
    let (_, rest) = scale_in(bytes)?;
    Some(rest)
}

#[tactic(auto, unfolding(cw_fields::specs::Fields::flag_in))]
fn after_optional_scale(bytes: &[u8]) -> Option<&[u8]>
    ensures { GivesRest (λ r. r.now) result (optional_in scale_in bytes.now) }
{
    match flag_in(bytes)? {
        (false, rest) => Some(rest),
        (true, rest) => after_scale(rest),
    }
}

fn after_plain_parameter_of(number: u8, bytes: &[u8]) -> Option<&[u8]>
    ensures { GivesRest (λ r. r.now) result (plain_parameter_of number bytes.now) }
{
    match number {
        0..=2 => after_scale(bytes),
        3 => {
            let (_, rest) = word_in(bytes)?;
            Some(rest)
        }
        4 | 5 => Some(bytes),
        _ => None,
    }
}

fn after_plain_parameter(bytes: &[u8]) -> Option<&[u8]>
    ensures { GivesRest (λ r. r.now) result (plain_parameter_in bytes.now) }
{
    let (number, rest) = byte_in(bytes)?;
    after_plain_parameter_of(number, rest)
}

#[tactic(auto, using(crate::proofs::Counting::counting))]
fn after_plain_parameters(count: u8, bytes: &[u8]) -> Option<&[u8]>
    ensures { GivesRest (λ r. r.now) result (counted count plain_parameter_in bytes.now) }
{
    let mut rest = bytes;
    for _ in 0..count {
        rest = after_plain_parameter(rest)?;
    }
    Some(rest)
}

fn after_plain_spec(bytes: &[u8]) -> Option<&[u8]>
    ensures { GivesRest (λ r. r.now) result (spec_in plain_parameter_in bytes.now) }
{
    let rest = after_optional_scale(bytes)?;
    let (count, rest) = byte_in(rest)?;
    after_plain_parameters(count, rest)
}

fn after_parameter(bytes: &[u8]) -> Option<&[u8]>
    ensures { GivesRest (λ r. r.now) result (parameter_in bytes.now) }
{
    let (number, rest) = byte_in(bytes)?;
    if number == 6 {
        return after_plain_spec(rest);
    }
    after_plain_parameter_of(number, rest)
}

#[tactic(auto, using(crate::proofs::Counting::counting))]
fn after_parameters(count: u8, bytes: &[u8]) -> Option<&[u8]>
    ensures { GivesRest (λ r. r.now) result (counted count parameter_in bytes.now) }
{
    let mut rest = bytes;
    for _ in 0..count {
        rest = after_parameter(rest)?;
    }
    Some(rest)
}

fn after_spec(bytes: &[u8]) -> Option<&[u8]>
    ensures { GivesRest (λ r. r.now) result (spec_in parameter_in bytes.now) }
{
    let rest = after_optional_scale(bytes)?;
    let (count, rest) = byte_in(rest)?;
    after_parameters(count, rest)
}

fn after_bounds(bytes: &[u8]) -> Option<&[u8]>
    ensures { GivesRest (λ r. r.now) result (bounds_in bytes.now) }
{
    let (_, rest) = bounds_in(bytes)?;
    Some(rest)
}

#[tactic(auto, using(crate::proofs::Counting::counting))]
fn after_counted_bounds(count: u8, bytes: &[u8]) -> Option<&[u8]>
    ensures { GivesRest (λ r. r.now) result (counted count bounds_in bytes.now) }
{
    let mut rest = bytes;
    for _ in 0..count {
        rest = after_bounds(rest)?;
    }
    Some(rest)
}

fn after_dimensions(bytes: &[u8]) -> Option<&[u8]>
    ensures { GivesRest (λ r. r.now) result (dimensions_in bytes.now) }
{
    let (count, rest) = byte_in(bytes)?;
    if count != 1 && count != 2 {
        return None;
    }
    after_counted_bounds(count, rest)
}

fn after_element(bytes: &[u8]) -> Option<&[u8]>
    ensures { GivesRest (λ r. r.now) result (element_in bytes.now) }
{
    match element_in(bytes) {
        Some((_, rest)) => Some(rest),
        None => None,
    }
}

#[tactic(auto, using(crate::proofs::Counting::counting))]
fn after_elements(count: u16, bytes: &[u8]) -> Option<&[u8]>
    ensures { GivesRest (λ r. r.now) result (counted count element_in bytes.now) }
{
    let mut rest = bytes;
    for _ in 0..count {
        rest = after_element(rest)?;
    }
    Some(rest)
}

fn after_array(bytes: &[u8]) -> Option<&[u8]>
    ensures { GivesRest (λ r. r.now) result (body_in 1 bytes.now) }
{
    let rest = after_scale(bytes)?;
    after_dimensions(rest)
}

fn after_table(bytes: &[u8]) -> Option<&[u8]>
    ensures { GivesRest (λ r. r.now) result (body_in 2 bytes.now) }
{
    let (_, rest) = word_in(bytes)?;
    let (_, rest) = word_in(rest)?;
    let (count, rest) = word_in(rest)?;
    after_elements(count, rest)
}

fn after_body(number: u8, bytes: &[u8]) -> Option<&[u8]>
    ensures { GivesRest (λ r. r.now) result (body_in number bytes.now) }
{
    match number {
        0 => after_scale(bytes),
        1 => after_array(bytes),
        2 => after_table(bytes),
        3 | 4 => Some(bytes),
        5 => after_spec(bytes),
        _ => None,
    }
}

#[tactic(auto, unfolding(cw_fields::specs::Fields::flag_in))]
pub(crate) fn overlay_in(bytes: &[u8]) -> Option<(Option<(u16, u16)>, &[u8])>
    ensures { Gives (λ x. (x.0, x.1.now)) result (optional_in overlay_in bytes.now) }
{
    match flag_in(bytes)? {
        (false, rest) => Some((None, rest)),
        (true, rest) => {
            let (base, rest) = word_in(rest)?;
            let (offset, rest) = word_in(rest)?;
            Some((Some((base, offset)), rest))
        }
    }
}

fn after_descriptor(bytes: &[u8]) -> Option<(Option<(u16, u16)>, &[u8])>
    ensures { Gives (λ x. (x.0, x.1.now)) result (skipped (λ d. d.over) (descriptor_in bytes.now)) }
{
    let (_, rest) = name_in(bytes)?;
    let (number, rest) = byte_in(rest)?;
    let (_, rest) = flag_in(rest)?;
    let (over, rest) = overlay_in(rest)?;
    let rest = after_body(number, rest)?;
    Some((over, rest))
}

/// The overlay's base of the descriptor of a payload, exactly where it is of the form.
pub(crate) fn descriptor_base(payload: &[u8]) -> Option<Option<(u16, u16)>>
    ensures { Gives (λ base. base) result (base_of (whole descriptor_in payload.now)) }
{
    let (over, rest) = after_descriptor(payload)?;
    if !rest.is_empty() {
        return None;
    }
    Some(over)
}
