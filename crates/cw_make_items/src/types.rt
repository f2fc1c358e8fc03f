//! Scales, bounds and specifications.
ghost use Rattle.std.specs.Prelude.{◌≡◌, ◌++◌, ◌∷◌, [], IfOk, OnOk};
ghost use Rattle.cw_make_items.specs.Types.{within, bound_in, bound, scale_of, answer_of, width_of, plain_taken};
ghost use Rattle.cw_make_items.specs.Types.{each_plain_taken, taken, each_taken, plain_spec, spec_of};

use cw_amount::amount::{place_amount, place_sint};
use cw_scale::kinds::fraction_of_sint;
use cw_tree::leaf::{RawSint, RawSize, RawType};
use cw_tree::segment::{RawIps, RawPs};
use cw_unit::descriptor::{Scale, Spec, SpecParam};
use cw_word::{List, NoMemory};
use std::alloc::Global;

/// A number of a byte. One that is refused counts as 0.
pub fn byte_within(amount: &Option<u64>) -> u8
    ensures { result ≡ within 255 amount.now }
{
    match amount {
        None => 0,
        Some(n) => if *n <= 255 { *n as u8 } else { 0 },
    }
}

/// A number of two bytes. One that is refused counts as 0.
pub fn short_within(amount: &Option<u64>) -> u16
    ensures { result ≡ within 65535 amount.now }
{
    match amount {
        None => 0,
        Some(n) => if *n <= 65535 { *n as u16 } else { 0 },
    }
}

fn bound_in(amount: &Option<i64>) -> i16
    ensures { result ≡ bound_in amount.now }
{
    match amount {
        None => 0,
        Some(z) => {
            if -32768 <= *z && *z <= 32767 {
                *z as i16
            } else {
                0
            }
        }
    }
}

/// A bound of an array. One that is refused counts as 0.
pub fn bound(number: &RawSint) -> i16
    ensures { result ≡ bound number.now }
{
    bound_in(&place_sint(number))
}

/// The scale of a type.
pub fn scale_of(scale: &RawType) -> Scale
    ensures { result ≡ scale_of scale.now }
{
    match scale {
        RawType::Integer(_) => Scale { t: 16, f: 0 },
        RawType::Fixed(_, t, f) => Scale {
            t: byte_within(&place_amount(t)),
            f: fraction_of_sint(f),
        },
    }
}

/// The scale of an answer.
pub fn answer_of(answer: &Option<RawType>) -> Option<Scale>
    ensures { result ≡ answer_of answer.now }
{
    match answer {
        None => None,
        Some(scale) => Some(scale_of(scale)),
    }
}

/// The width of a table.
pub fn width_of(size: &RawSize) -> u16
    ensures { result ≡ width_of size.now }
{
    short_within(&place_amount(&size.first))
}

fn plain_taken(param: &RawIps) -> SpecParam
    ensures { result ≡ plain_taken param.now }
{
    match param {
        RawIps::Value(_, scale) => SpecParam::Value(scale_of(scale)),
        RawIps::Location(_, scale) => SpecParam::Location(scale_of(scale)),
        RawIps::Array(scale) => SpecParam::Array(scale_of(scale)),
        RawIps::Table(_, size) => SpecParam::Table(width_of(size)),
        RawIps::Label(_) => SpecParam::Label,
        RawIps::Switch(_) => SpecParam::Switch,
    }
}

fn each_plain_taken(alloc: Global, params: &[RawIps]) -> Result<List<SpecParam>, NoMemory>
    ensures { IfOk result (λ all. all ≡ each_plain_taken params.now) }
{
    let mut all = List::new(alloc);
    for param in params {
        all.push(plain_taken(param))?;
    }
    Ok(all)
}

/// What a procedure parameter is specified as.
pub fn plain_spec(
    alloc: Global,
    answer: &Option<RawType>,
    params: &[RawIps],
) -> Result<Spec, NoMemory>
    ensures { IfOk result (λ s. s ≡ plain_spec answer.now params.now) }
{
    let params = each_plain_taken(alloc, params)?;
    Ok(Spec {
        answer: answer_of(answer),
        params,
    })
}

fn taken(alloc: Global, param: &RawPs) -> Result<SpecParam, NoMemory>
    ensures { IfOk result (λ t. t ≡ taken param.now) }
{
    match param {
        RawPs::Plain(one) => Ok(plain_taken(one)),
        RawPs::Proc(answer, _, params) => {
            let inner = plain_spec(alloc, answer, params.as_slice())?;
            Ok(SpecParam::Proc(inner))
        }
    }
}

fn each_taken(alloc: Global, params: &[RawPs]) -> Result<List<SpecParam>, NoMemory>
    ensures { IfOk result (λ all. all ≡ each_taken params.now) }
{
    let mut all = List::new(alloc);
    for param in params {
        let one = taken(alloc, param)?;
        all.push(one)?;
    }
    Ok(all)
}

/// What a procedure is specified as.
pub fn spec_of(alloc: Global, answer: &Option<RawType>, params: &[RawPs]) -> Result<Spec, NoMemory>
    ensures { IfOk result (λ s. s ≡ spec_of answer.now params.now) }
{
    let params = each_taken(alloc, params)?;
    Ok(Spec {
        answer: answer_of(answer),
        params,
    })
}
