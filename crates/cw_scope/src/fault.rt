//! The faults of names, and the first of them.
ghost use Rattle.std.specs.Prelude.{◌≡◌};
ghost use Rattle.cw_scope.specs.Faults.{rule_number, comes_before, earlier, wrong, unless};

use cw_tree::leaf::RawName;

/// A rule of names.
#[derive(Clone, Copy)]
pub enum Rule {
    Undeclared,
    Twice,
    WrongKind,
    SpecDiffers,
}

/// A name that breaks a rule.
#[derive(Clone, Copy)]
pub struct Fault {
    pub rule: Rule,
    pub name: RawName,
}

fn rule_number(rule: &Rule) -> u8
    ensures { result ≡ rule_number rule.now }
{
    match rule {
        Rule::Undeclared => 1,
        Rule::Twice => 2,
        Rule::WrongKind => 3,
        Rule::SpecDiffers => 4,
    }
}

fn comes_before(a: &Fault, b: &Fault) -> bool
    ensures { result ≡ comes_before a.now b.now }
{
    a.name.at.token < b.name.at.token
        || (a.name.at.token == b.name.at.token && rule_number(&a.rule) < rule_number(&b.rule))
}

/// Keeps the earlier of a fault and the one before.
pub(crate) fn keep(rule: Rule, name: &RawName, first: &mut Option<Fault>)
    ensures { first.new ≡ wrong rule name.now first.old }
{
    let fault = Fault { rule, name: *name };
    match first {
        None => *first = Some(fault),
        Some(other) => {
            if comes_before(&fault, other) {
                *first = Some(fault);
            }
        }
    }
}

pub(crate) fn keep_unless(holds: bool, rule: Rule, name: &RawName, first: &mut Option<Fault>)
    ensures { first.new ≡ unless holds rule name.now first.old }
{
    if !holds {
        keep(rule, name, first);
    }
}
