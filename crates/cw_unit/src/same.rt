//! Equality of descriptors and specifications, by which segments agree on a shared name.
ghost use Rattle.std.specs.Prelude.{◌≡◌, ◌↔◌, IsTrue};

use crate::descriptor::{DescBody, ElemDesc, Spec, SpecParam};
use cw_word::List;

/// Whether two tables have the same elements.
#[tactic(auto, using(crate::proofs::Equality::equalities))]
pub fn same_elements(a: &List<ElemDesc>, b: &List<ElemDesc>) -> bool
    ensures { IsTrue result ↔ (a.now ≡ b.now) }
{
    a == b
}

/// Whether two specifications are the same.
#[cycle(same)]
pub fn same_spec(a: &Spec, b: &Spec) -> bool
    ensures { IsTrue result ↔ (a.now ≡ b.now) }
{
    a.answer == b.answer && same_params(a.params.as_slice(), b.params.as_slice())
}

#[cycle(same)]
fn same_params(a: &[SpecParam], b: &[SpecParam]) -> bool
    ensures { IsTrue result ↔ (a.now ≡ b.now) }
{
    if a.len() != b.len() {
        return false;
    }
    for i in 0..a.len() {
        if !same_param(&a[i], &b[i]) {
            return false;
        }
    }
    true
}

#[cycle(same)]
fn same_param(a: &SpecParam, b: &SpecParam) -> bool
    ensures { IsTrue result ↔ (a.now ≡ b.now) }
{
    match (a, b) {
        (SpecParam::Value(s), SpecParam::Value(t)) => s == t,
        (SpecParam::Location(s), SpecParam::Location(t)) => s == t,
        (SpecParam::Array(s), SpecParam::Array(t)) => s == t,
        (SpecParam::Table(n), SpecParam::Table(m)) => n == m,
        (SpecParam::Label, SpecParam::Label) => true,
        (SpecParam::Switch, SpecParam::Switch) => true,
        (SpecParam::Proc(s), SpecParam::Proc(t)) => same_spec(s, t),
        _ => false,
    }
}

/// Whether two arrays have the same bounds.
fn same_bounds(a: &[(i16, i16)], b: &[(i16, i16)]) -> bool
    ensures { IsTrue result ↔ (a.now ≡ b.now) }
{
    if b.len() != a.len() {
        return false;
    }
    for i in 0..a.len() {
        if !same_bound(a[i], b[i]) {
            return false;
        }
    }
    true
}

fn same_bound(a: (i16, i16), b: (i16, i16)) -> bool
    ensures { IsTrue result ↔ (a ≡ b) }
{
    a.0 == b.0 && a.1 == b.1
}

/// Whether two descriptors stand for the same.
#[tactic(auto, using(crate::proofs::Equality::equalities))]
pub fn same_body(a: &DescBody, b: &DescBody) -> bool
    ensures { IsTrue result ↔ (a.now ≡ b.now) }
{
    match (a, b) {
        (DescBody::Word(s), DescBody::Word(t)) => s == t,
        (
            DescBody::Array {
                scale: s,
                dims: some,
            },
            DescBody::Array {
                scale: t,
                dims: others,
            },
        ) => s == t && same_bounds(some.as_slice(), others.as_slice()),
        (
            DescBody::Table {
                width: w,
                length: n,
                elems: some,
            },
            DescBody::Table {
                width: v,
                length: m,
                elems: others,
            },
        ) => w == v && n == m && same_elements(some, others),
        (DescBody::Label, DescBody::Label) => true,
        (DescBody::Switch, DescBody::Switch) => true,
        (DescBody::Proc(s), DescBody::Proc(t)) => same_spec(s, t),
        _ => false,
    }
}
