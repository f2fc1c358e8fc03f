//! The faults of types, and the first of them.
ghost use Rattle.std.specs.Prelude.{◌≡◌};
ghost use Rattle.cw_scale.specs.Faults.{rule_number, comes_before, earlier, wrong, unless};

use cw_tree::leaf::Position;

/// A rule of types.
#[derive(Clone, Copy)]
pub enum Rule {
    WrongArgs,
    ScaleRange,
    FieldRange,
    BadBounds,
    BadOverlay,
    BadPreset,
    TooMany,
    NumberRange,
}

/// A token at which a rule is broken.
#[derive(Clone, Copy)]
pub struct Fault {
    pub rule: Rule,
    pub at: Position,
}

fn rule_number(rule: &Rule) -> u8
    ensures { result ≡ rule_number rule.now }
{
    match rule {
        Rule::WrongArgs => 1,
        Rule::ScaleRange => 2,
        Rule::FieldRange => 3,
        Rule::BadBounds => 4,
        Rule::BadOverlay => 5,
        Rule::BadPreset => 6,
        Rule::TooMany => 7,
        Rule::NumberRange => 8,
    }
}

fn comes_before(a: &Fault, b: &Fault) -> bool
    ensures { result ≡ comes_before a.now b.now }
{
    a.at.token < b.at.token
        || (a.at.token == b.at.token && rule_number(&a.rule) < rule_number(&b.rule))
}

/// Keeps the earlier of a fault and the one before.
pub fn keep(rule: Rule, at: Position, first: &mut Option<Fault>)
    ensures { first.new ≡ wrong rule at first.old }
{
    let fault = Fault { rule, at };
    match first {
        None => *first = Some(fault),
        Some(other) => {
            if comes_before(&fault, other) {
                *first = Some(fault);
            }
        }
    }
}

pub fn keep_unless(holds: bool, rule: Rule, at: Position, first: &mut Option<Fault>)
    ensures { first.new ≡ unless holds rule at first.old }
{
    if !holds {
        keep(rule, at, first);
    }
}
