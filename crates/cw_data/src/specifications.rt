//! Specifications, parameters, switches, and what stands at an address.
ghost use Rattle.std.specs.Prelude.{◌≡◌, length};
ghost use Rattle.cw_table.specs.Rows.{item_at};
ghost use Rattle.cw_data.specs.Specifications.{plain_judged, plains_judged, procedure_judged, specified_judged, each_specified_judged};
ghost use Rattle.cw_data.specs.Specifications.{spec_judged, specs_judged, param_judged, params_judged, few_if, heading_judged, switch_judged};
ghost use Rattle.cw_data.specs.Specifications.{is_address, address_judged, bounds_judged, aitem_judged, aitems_judged};

use crate::data::{good_bounds, judge_range, judge_second, judge_size, judge_table};
use cw_amount::amount::place_amount;
use cw_scale::Named;
use cw_scale::fault::{Fault, Rule, keep_unless};
use cw_scale::types::{judge_answer, judge_int, judge_type};
use cw_tree::items::RawBounds;
use cw_tree::leaf::{RawInt, RawName, RawType};
use cw_tree::segment::{RawAitem, RawIps, RawPs, RawSpec};
use cw_tree::statement::RawParam;

fn judge_plain(name: &RawName, param: &RawIps, first: &mut Option<Fault>)
    ensures { first.new ≡ plain_judged name.now param.now first.old }
{
    match param {
        RawIps::Value(_, scale) => judge_type(scale, first),
        RawIps::Location(_, scale) => judge_type(scale, first),
        RawIps::Array(scale) => judge_type(scale, first),
        RawIps::Table(_, size) => judge_size(name, size, first),
        RawIps::Label(_) | RawIps::Switch(_) => {}
    }
}

fn judge_plains(name: &RawName, params: &[RawIps], first: &mut Option<Fault>)
    ensures { first.new ≡ plains_judged name.now params.now first.old }
{
    for param in params {
        judge_plain(name, param, first);
    }
}

// A procedure that is a parameter.
fn judge_procedure(
    answer: &Option<RawType>,
    name: &RawName,
    params: &[RawIps],
    first: &mut Option<Fault>,
)
    ensures { first.new ≡ procedure_judged answer.now name.now params.now first.old }
{
    judge_answer(answer, first);
    keep_unless(params.len() <= 32, Rule::TooMany, name.at, first);
    judge_plains(name, params, first);
}

fn judge_specified(name: &RawName, param: &RawPs, first: &mut Option<Fault>)
    ensures { first.new ≡ specified_judged name.now param.now first.old }
{
    match param {
        RawPs::Plain(one) => judge_plain(name, one, first),
        RawPs::Proc(answer, _, params) => judge_procedure(answer, name, params.as_slice(), first),
    }
}

fn judge_each_specified(name: &RawName, params: &[RawPs], first: &mut Option<Fault>)
    ensures { first.new ≡ each_specified_judged name.now params.now first.old }
{
    for param in params {
        judge_specified(name, param, first);
    }
}

/// Judges a specification.
pub fn judge_spec(spec: &RawSpec, first: &mut Option<Fault>)
    ensures { first.new ≡ spec_judged spec.now first.old }
{
    let params = spec.params.as_slice();
    judge_answer(&spec.answer, first);
    keep_unless(params.len() <= 32, Rule::TooMany, spec.name.at, first);
    judge_each_specified(&spec.name, params, first);
}

/// Judges the specifications of a LIBRARY list.
pub fn judge_specs(specs: &[RawSpec], first: &mut Option<Fault>)
    ensures { first.new ≡ specs_judged specs.now first.old }
{
    for spec in specs {
        judge_spec(spec, first);
    }
}

// ---- parameters

fn judge_param(param: &RawParam, first: &mut Option<Fault>)
    ensures { first.new ≡ param_judged param.now first.old }
{
    match param {
        RawParam::Value(_, scale, _) => judge_type(scale, first),
        RawParam::Location(_, scale, _) => judge_type(scale, first),
        RawParam::Array(scale, _) => judge_type(scale, first),
        RawParam::Table(table) => judge_table(table, first),
        RawParam::Label(..) | RawParam::Switch(..) => {}
        RawParam::Proc(answer, _, name, params) => {
            judge_procedure(answer, name, params.as_slice(), first);
        }
    }
}

fn judge_params(params: &[RawParam], first: &mut Option<Fault>)
    ensures { first.new ≡ params_judged params.now first.old }
{
    for param in params {
        judge_param(param, first);
    }
}

fn few_params(named: &Named, name: &RawName) -> bool
    ensures { result ≡ few_if (item_at named.now.signatures name.now.at.token) }
{
    match named.signatures.find(name.at.token) {
        None => true,
        Some(signature) => signature.params.as_slice().len() <= 32,
    }
}

/// Judges what stands before a procedure's body.
pub fn judge_heading(
    named: &Named,
    answer: &Option<RawType>,
    name: &RawName,
    params: &[RawParam],
    first: &mut Option<Fault>,
)
    ensures { first.new ≡ heading_judged named.now answer.now name.now params.now first.old }
{
    judge_answer(answer, first);
    keep_unless(few_params(named, name), Rule::TooMany, name.at, first);
    judge_params(params, first);
}

/// Judges a switch.
pub fn judge_switch(name: &RawName, labels: &[RawName], first: &mut Option<Fault>)
    ensures { first.new ≡ switch_judged name.now labels.now first.old }
{
    keep_unless(labels.len() <= 255, Rule::TooMany, name.at, first);
}

// ---- what stands at an address

fn is_address(address: &Option<u64>) -> bool
    ensures { result ≡ is_address address.now }
{
    match address {
        None => true,
        Some(a) => *a <= 32767,
    }
}

fn judge_address(name: &RawName, address: &RawInt, first: &mut Option<Fault>)
    ensures { first.new ≡ address_judged name.now address.now first.old }
{
    judge_int(address, first);
    let holds = is_address(&place_amount(address));
    keep_unless(holds, Rule::BadBounds, name.at, first);
}

fn judge_bounds(name: &RawName, bounds: &RawBounds, first: &mut Option<Fault>)
    ensures { first.new ≡ bounds_judged name.now bounds.now first.old }
{
    judge_range(&bounds.first, first);
    judge_second(&bounds.second, first);
    let holds = good_bounds(&bounds.first, &bounds.second);
    keep_unless(holds, Rule::BadBounds, name.at, first);
}

fn judge_aitem(item: &RawAitem, first: &mut Option<Fault>)
    ensures { first.new ≡ aitem_judged item.now first.old }
{
    match item {
        RawAitem::Single(scale, name, address) => {
            judge_type(scale, first);
            judge_address(name, address, first);
        }
        RawAitem::Array(scale, name, bounds, address) => {
            judge_type(scale, first);
            judge_bounds(name, bounds, first);
            judge_address(name, address, first);
        }
        RawAitem::Table(table, address) => {
            judge_table(table, first);
            judge_address(&table.name, address, first);
        }
    }
}

/// Judges what stands at an address.
pub fn judge_aitems(items: &[RawAitem], first: &mut Option<Fault>)
    ensures { first.new ≡ aitems_judged items.now first.old }
{
    for item in items {
        judge_aitem(item, first);
    }
}
