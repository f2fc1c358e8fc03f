//! Which parameters take which arguments.
ghost use Rattle.std.specs.Prelude.{◌≡◌, map, option_copied};
ghost use Rattle.cw_scale.specs.Arguments.{takes_none, answers_alone, is_array, is_table, is_passed, takes_these, specified_so};
ghost use Rattle.cw_scale.specs.Arguments.{kind_fits, takes_value, takes_name, takes_plain, is_passed_if, takes_procedure, takes};
ghost use Rattle.cw_scale.specs.TypeRules.{all_taken, expression};

use crate::kinds::{fraction_of, is_word_item_if, kind_of, signature_of};
use crate::scales::{Shape, expression_shape};
use cw_facts::fact::{Kind, Signature};
use cw_scope::judge::{dimensions, is_label, is_switch};
use cw_scope::resolve::Named;
use cw_scope::same::{same_answer, same_int, same_plain};
use cw_tree::expression::RawExpr;
use cw_tree::leaf::{RawName, RawSize, RawType};
use cw_tree::segment::{RawIps, RawPs};

fn takes_none(params: &[RawPs]) -> bool
    ensures { result ≡ takes_none params.now }
{
    params.is_empty()
}

fn answers_alone(signature: Option<&Signature>) -> bool
    ensures { result ≡ answers_alone (option_copied signature.entry) }
{
    match signature {
        None => false,
        Some(signature) => signature.answer.is_some() && takes_none(signature.params.as_slice()),
    }
}

fn is_array(scale: &RawType, kind: &Kind) -> bool
    ensures { result ≡ is_array scale.now kind.now }
{
    match kind {
        Kind::Array(other, bounds) => {
            dimensions(bounds) == 1 && fraction_of(other) == fraction_of(scale)
        }
        Kind::ArrayParam(other) => fraction_of(other) == fraction_of(scale),
        _ => false,
    }
}

fn is_table(size: &RawSize, kind: &Kind) -> bool
    ensures { result ≡ is_table size.now kind.now }
{
    match kind {
        Kind::Table(other) => same_int(&other.first, &size.first),
        Kind::TableParam(other) => same_int(&other.first, &size.first),
        _ => false,
    }
}

fn is_passed(kind: &Kind) -> bool
    ensures { result ≡ is_passed kind.now }
{
    match kind {
        Kind::Proc(_) | Kind::ProcParam(_) => true,
        _ => false,
    }
}

fn takes_these(params: &[RawPs], these: &[RawIps]) -> bool
    ensures { result ≡ takes_these params.now these.now }
{
    let mut rest = these;
    for param in params {
        match rest {
            [] => return false,
            [one, others @ ..] => {
                let same = match param {
                    RawPs::Plain(plain) => same_plain(plain, one),
                    RawPs::Proc(..) => false,
                };
                if !same {
                    return false;
                }
                rest = others;
            }
        }
    }
    rest.is_empty()
}

fn kind_fits(param: &RawIps, kind: &Kind) -> bool
    ensures { result ≡ kind_fits param.now kind.now }
{
    match param {
        RawIps::Value(..) | RawIps::Location(..) => false,
        RawIps::Array(scale) => is_array(scale, kind),
        RawIps::Table(_, size) => is_table(size, kind),
        RawIps::Label(_) => is_label(kind),
        RawIps::Switch(_) => is_switch(kind),
    }
}

fn takes_name(param: &RawIps, bare: &Option<RawName>, named: &Named) -> bool
    ensures { result ≡ takes_name named.now param.now bare.now }
{
    match bare {
        None => false,
        Some(name) => match kind_of(named, name) {
            None => false,
            Some(kind) => kind_fits(param, kind),
        },
    }
}

fn takes_value(bare: &Option<RawName>, named: &Named) -> bool
    ensures { result ≡ takes_value named.now bare.now }
{
    match bare {
        None => true,
        Some(name) => {
            is_word_item_if(kind_of(named, name)) || answers_alone(signature_of(named, name))
        }
    }
}

fn takes_plain(param: &RawIps, shape: &Shape, named: &Named) -> bool
    ensures { result ≡ takes_plain named.now param.now shape.now }
{
    match param {
        RawIps::Value(..) => takes_value(&shape.bare, named),
        RawIps::Location(_, scale) => shape.whole && shape.natural == fraction_of(scale),
        _ => takes_name(param, &shape.bare, named),
    }
}

fn specified_so(signature: Option<&Signature>, answer: &Option<RawType>, params: &[RawIps]) -> bool
    ensures { result ≡ specified_so (option_copied signature.entry) answer.now params.now }
{
    match signature {
        None => false,
        Some(signature) => {
            same_answer(&signature.answer, answer)
                && takes_these(signature.params.as_slice(), params)
        }
    }
}

fn is_passed_if(kind: Option<&Kind>) -> bool
    ensures { result ≡ is_passed_if (option_copied kind.entry) }
{
    match kind {
        None => false,
        Some(kind) => is_passed(kind),
    }
}

fn takes_procedure(
    answer: &Option<RawType>,
    params: &[RawIps],
    bare: &Option<RawName>,
    named: &Named,
) -> bool
    ensures { result ≡ takes_procedure named.now answer.now params.now bare.now }
{
    match bare {
        None => false,
        Some(name) => {
            is_passed_if(kind_of(named, name))
                && specified_so(signature_of(named, name), answer, params)
        }
    }
}

fn takes(param: &RawPs, shape: &Shape, named: &Named) -> bool
    ensures { result ≡ takes named.now param.now shape.now }
{
    match param {
        RawPs::Plain(one) => takes_plain(one, shape, named),
        RawPs::Proc(answer, _, params) => {
            takes_procedure(answer, params.as_slice(), &shape.bare, named)
        }
    }
}

/// Whether parameters take arguments, one each.
pub(crate) fn all_taken(params: &[RawPs], arguments: &[RawExpr], named: &Named) -> bool
    ensures { result ≡ all_taken named.now params.now (map (expression named.now) arguments.now) }
{
    let mut rest = arguments;
    for param in params {
        match rest {
            [] => return false,
            [argument, others @ ..] => {
                if !takes(param, &expression_shape(argument, named), named) {
                    return false;
                }
                rest = others;
            }
        }
    }
    rest.is_empty()
}
