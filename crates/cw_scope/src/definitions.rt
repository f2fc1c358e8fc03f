//! Definitions of what the communicators list.
ghost use Rattle.std.specs.Prelude.{◌≡◌, map, option_copied};
ghost use Rattle.cw_table.specs.Rows.{item_at};
ghost use Rattle.cw_scope.specs.Definitions.{takes_nothing, takes_integer, is_integer_value, answers_integer, answers_nothing, fits_built_in, fits_built_in_if, is_own_procedure};
ghost use Rattle.cw_scope.specs.Definitions.{rule_unless, broken_rule, same_specified, definition_faults, listed_faults, each_own, each_listed, defined};

use crate::fault::{Fault, Rule, keep, keep_unless};
use crate::judge::{is_own_label, is_own_switch};
use crate::names::Names;
use crate::same::{is_integer, same_signature};
use cw_facts::fact::{Declaration, Fact, Kind, Signature};
use cw_table::table::Table;
use cw_tree::leaf::RawType;
use cw_tree::segment::{RawIps, RawPs};

// ---- READBYTE, WRITEBYTE and BOUNDS

fn takes_nothing(params: &[RawPs]) -> bool
    ensures { result ≡ takes_nothing params.now }
{
    params.is_empty()
}

fn is_integer_value(param: &RawIps) -> bool
    ensures { result ≡ is_integer_value param.now }
{
    match param {
        RawIps::Value(_, scale) => is_integer(scale),
        _ => false,
    }
}

fn takes_integer(params: &[RawPs]) -> bool
    ensures { result ≡ takes_integer params.now }
{
    match params {
        [RawPs::Plain(param)] => is_integer_value(param),
        _ => false,
    }
}

fn answers_integer(answer: &Option<RawType>) -> bool
    ensures { result ≡ answers_integer answer.now }
{
    match answer {
        Some(scale) => is_integer(scale),
        None => false,
    }
}

fn answers_nothing(answer: &Option<RawType>) -> bool
    ensures { result ≡ answers_nothing answer.now }
{
    answer.is_none()
}

fn fits_built_in(kind: &Kind, signature: &Signature) -> bool
    ensures { result ≡ fits_built_in kind.now signature.now }
{
    let params = signature.params.as_slice();
    match kind {
        Kind::ReadByte => answers_integer(&signature.answer) && takes_nothing(params),
        Kind::WriteByte => answers_nothing(&signature.answer) && takes_integer(params),
        Kind::Bounds => answers_nothing(&signature.answer) && takes_nothing(params),
        _ => true,
    }
}

fn fits_own(declaration: &Declaration, signatures: &Table<Signature>) -> bool
    ensures { result ≡ fits_built_in_if declaration.now.kind (item_at signatures.now declaration.now.name.at.token) }
{
    match signatures.find(declaration.name.at.token) {
        None => true,
        Some(signature) => fits_built_in(&declaration.kind, signature),
    }
}

// ---- definitions

fn is_own_procedure(kind: &Kind) -> bool
    ensures { result ≡ is_own_procedure kind.now }
{
    match kind {
        Kind::Proc(_) => true,
        _ => false,
    }
}

fn rule_unless(holds: bool, rule: Rule) -> Option<Rule>
    ensures { result ≡ rule_unless holds rule }
{
    if holds { None } else { Some(rule) }
}

fn broken_rule(listed: &Kind, declared: &Kind, same: bool) -> Option<Rule>
    ensures { result ≡ broken_rule listed.now declared.now same }
{
    match listed {
        Kind::ReadByte | Kind::WriteByte | Kind::Bounds => Some(Rule::Twice),
        Kind::Label => rule_unless(is_own_label(declared), Rule::SpecDiffers),
        Kind::Switch => rule_unless(is_own_switch(declared), Rule::SpecDiffers),
        Kind::Proc(_) => rule_unless(is_own_procedure(declared) && same, Rule::SpecDiffers),
        _ => None,
    }
}

fn same_specified(signatures: &Table<Signature>, a: u32, b: u32) -> bool
    ensures { result ≡ same_specified signatures.now a b }
{
    match signatures.find(a) {
        None => false,
        Some(x) => match signatures.find(b) {
            None => false,
            Some(y) => same_signature(x, y),
        },
    }
}

fn judge_definition(
    signatures: &Table<Signature>,
    listed: Option<&Declaration>,
    declaration: &Declaration,
    first: &mut Option<Fault>,
)
    ensures { first.new ≡ definition_faults signatures.now (option_copied listed.entry) declaration.now first.old }
{
    match listed {
        None => {}
        Some(listed) => {
            let same = same_specified(signatures, listed.name.at.token, declaration.name.at.token);
            match broken_rule(&listed.kind, &declaration.kind, same) {
                None => {}
                Some(rule) => keep(rule, &declaration.name, first),
            }
        }
    }
}

fn judge_own(
    fact: &Fact,
    communicators: &Names,
    signatures: &Table<Signature>,
    first: &mut Option<Fault>,
)
    ensures { first.new ≡ (defined signatures.now fact.now).own communicators.now first.old }
{
    match fact {
        Fact::Declares(declaration) => {
            let declaration = declaration.get();
            let listed = communicators.find(&declaration.name.name);
            judge_definition(signatures, listed, declaration, first);
        }
        _ => {}
    }
}

fn judge_each_own(
    facts: &[Fact],
    communicators: &Names,
    signatures: &Table<Signature>,
    first: &mut Option<Fault>,
)
    ensures { first.new ≡ each_own signatures.now communicators.now (map (defined signatures.now) facts.now) first.old }
{
    for fact in facts {
        judge_own(fact, communicators, signatures, first);
    }
}

fn judge_listed(
    fact: &Fact,
    communicators: &Names,
    signatures: &Table<Signature>,
    first: &mut Option<Fault>,
)
    ensures { first.new ≡ (defined signatures.now fact.now).listed communicators.now first.old }
{
    match fact {
        Fact::Declares(declaration) => {
            let declaration = declaration.get();
            let fits = fits_own(declaration, signatures);
            keep_unless(fits, Rule::SpecDiffers, &declaration.name, first);
        }
        Fact::Block(_, facts) => judge_each_own(facts.as_slice(), communicators, signatures, first),
        _ => {}
    }
}

/// Judges the definitions of what the communicators list, by the facts of a whole text.
pub(crate) fn judge_definitions(
    facts: &[Fact],
    communicators: &Names,
    signatures: &Table<Signature>,
    first: &mut Option<Fault>,
)
    ensures { first.new ≡ each_listed signatures.now communicators.now (map (defined signatures.now) facts.now) first.old }
{
    for fact in facts {
        judge_listed(fact, communicators, signatures, first);
    }
}
