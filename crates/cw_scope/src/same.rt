//! Whether specifications are the same.
ghost use Rattle.std.specs.Prelude.{◌≡◌};
ghost use Rattle.cw_scope.specs.Same.{same_number, spelled_alike, same_int, same_sign, same_sint, is_word, same_type, is_integer};
ghost use Rattle.cw_scope.specs.Same.{same_answer, same_plain, each_same_plain, same_param, each_same, same_signature};

use cw_amount::amount::{int_amount, sint_amount};
use cw_facts::fact::Signature;
use cw_tree::leaf::{RawInt, RawSign, RawSint, RawType};
use cw_tree::segment::{RawIps, RawPs};
use cw_word::Num;

fn same_number(a: &Num, b: &Num) -> bool
    ensures { result ≡ same_number a.now b.now }
{
    a.whole() == b.whole() && (a.digits() == b.digits() && a.places() == b.places())
}

fn spelled_alike(a: &RawInt, b: &RawInt) -> bool
    ensures { result ≡ spelled_alike a.now b.now }
{
    match a {
        RawInt::Number(x) => match b {
            RawInt::Number(y) => same_number(&x.number, &y.number),
            RawInt::Octal(_) => false,
        },
        RawInt::Octal(x) => match b {
            RawInt::Number(_) => false,
            RawInt::Octal(y) => same_number(&x.number.number, &y.number.number),
        },
    }
}

/// Whether numbers amount to the same.
pub fn same_int(a: &RawInt, b: &RawInt) -> bool
    ensures { result ≡ same_int a.now b.now }
{
    match int_amount(a) {
        Some(x) => match int_amount(b) {
            Some(y) => x == y,
            None => false,
        },
        None => match int_amount(b) {
            Some(_) => false,
            None => spelled_alike(a, b),
        },
    }
}

fn same_sign(a: &Option<RawSign>, b: &Option<RawSign>) -> bool
    ensures { result ≡ same_sign a.now b.now }
{
    match a {
        Some(x) => match b {
            Some(y) => x.op == y.op,
            None => false,
        },
        None => b.is_none(),
    }
}

fn same_sint(a: &RawSint, b: &RawSint) -> bool
    ensures { result ≡ same_sint a.now b.now }
{
    match sint_amount(a) {
        Some(x) => match sint_amount(b) {
            Some(y) => x <= y && y <= x,
            None => false,
        },
        None => match sint_amount(b) {
            Some(_) => false,
            None => same_sign(&a.sign, &b.sign) && spelled_alike(&a.value, &b.value),
        },
    }
}

fn is_word(t: &RawInt, f: &RawSint) -> bool
    ensures { result ≡ is_word t.now f.now }
{
    let size = match int_amount(t) {
        Some(n) => n == 16,
        None => false,
    };
    let point = match sint_amount(f) {
        Some(n) => n <= 0 && 0 <= n,
        None => false,
    };
    size && point
}

fn same_type(a: &RawType, b: &RawType) -> bool
    ensures { result ≡ same_type a.now b.now }
{
    match a {
        RawType::Integer(_) => is_integer(b),
        RawType::Fixed(_, t, f) => match b {
            RawType::Integer(_) => is_word(t, f),
            RawType::Fixed(_, u, g) => same_int(t, u) && same_sint(f, g),
        },
    }
}

/// Whether a type is INTEGER, or FIXED(16,0).
pub(crate) fn is_integer(scale: &RawType) -> bool
    ensures { result ≡ is_integer scale.now }
{
    match scale {
        RawType::Integer(_) => true,
        RawType::Fixed(_, t, f) => is_word(t, f),
    }
}

pub fn same_answer(a: &Option<RawType>, b: &Option<RawType>) -> bool
    ensures { result ≡ same_answer a.now b.now }
{
    match a {
        Some(x) => match b {
            Some(y) => same_type(x, y),
            None => false,
        },
        None => b.is_none(),
    }
}

pub fn same_plain(a: &RawIps, b: &RawIps) -> bool
    ensures { result ≡ same_plain a.now b.now }
{
    match a {
        RawIps::Value(_, t) => match b {
            RawIps::Value(_, u) => same_type(t, u),
            _ => false,
        },
        RawIps::Location(_, t) => match b {
            RawIps::Location(_, u) => same_type(t, u),
            _ => false,
        },
        RawIps::Array(t) => match b {
            RawIps::Array(u) => same_type(t, u),
            _ => false,
        },
        RawIps::Table(_, s) => match b {
            RawIps::Table(_, z) => same_int(&s.first, &z.first),
            _ => false,
        },
        RawIps::Label(_) => match b {
            RawIps::Label(_) => true,
            _ => false,
        },
        RawIps::Switch(_) => match b {
            RawIps::Switch(_) => true,
            _ => false,
        },
    }
}

fn each_same_plain(a: &[RawIps], b: &[RawIps]) -> bool
    ensures { result ≡ each_same_plain a.now b.now }
{
    let mut rest = b;
    for x in a {
        match rest {
            [] => return false,
            [y, others @ ..] => {
                if !same_plain(x, y) {
                    return false;
                }
                rest = others;
            }
        }
    }
    rest.is_empty()
}

fn same_param(a: &RawPs, b: &RawPs) -> bool
    ensures { result ≡ same_param a.now b.now }
{
    match a {
        RawPs::Plain(x) => match b {
            RawPs::Plain(y) => same_plain(x, y),
            RawPs::Proc(..) => false,
        },
        RawPs::Proc(t, _, xs) => match b {
            RawPs::Plain(_) => false,
            RawPs::Proc(u, _, ys) => {
                same_answer(t, u) && each_same_plain(xs.as_slice(), ys.as_slice())
            }
        },
    }
}

fn each_same(a: &[RawPs], b: &[RawPs]) -> bool
    ensures { result ≡ each_same a.now b.now }
{
    let mut rest = b;
    for x in a {
        match rest {
            [] => return false,
            [y, others @ ..] => {
                if !same_param(x, y) {
                    return false;
                }
                rest = others;
            }
        }
    }
    rest.is_empty()
}

/// Whether specifications are the same.
pub fn same_signature(a: &Signature, b: &Signature) -> bool
    ensures { result ≡ same_signature a.now b.now }
{
    same_answer(&a.answer, &b.answer) && each_same(a.params.as_slice(), b.params.as_slice())
}
