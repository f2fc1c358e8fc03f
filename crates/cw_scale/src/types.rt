//! The rules of number types and of fields.
ghost use Rattle.std.specs.Prelude.{◌≡◌, ◌<◌, ◌^◌, IfSome};
ghost use Rattle.cw_scale.specs.Types.{int_judged, in_range, range_judged, scale_judged, type_judged, answer_judged};
ghost use Rattle.cw_scale.specs.Types.{ends_within, is_field, bits_judged, each_bits_judged};

use crate::fault::{Fault, Rule, keep_unless};
use cw_amount::amount::{int_position, is_negative, number_position, place_amount};
use cw_tree::expression::RawBits;
use cw_tree::leaf::{RawInt, RawSint, RawType};

/// Judges whether an int is one.
pub fn judge_int(number: &RawInt, first: &mut Option<Fault>)
    ensures { first.new ≡ int_judged number.now first.old }
{
    let whole = place_amount(number).is_some();
    keep_unless(whole, Rule::NumberRange, number_position(number), first);
}

fn in_range(low: u64, high: u64, negative: bool, amount: &Option<u64>) -> bool
    ensures { result ≡ in_range low high negative amount.now }
{
    match amount {
        None => true,
        Some(n) => low <= *n && (*n <= high && !(negative && 1 <= *n)),
    }
}

fn judge_range(low: u64, high: u64, negative: bool, number: &RawInt, first: &mut Option<Fault>)
    ensures { first.new ≡ range_judged low high negative number.now first.old }
{
    judge_int(number, first);
    let holds = in_range(low, high, negative, &place_amount(number));
    keep_unless(holds, Rule::ScaleRange, int_position(number), first);
}

/// Judges the bits after a point.
pub fn judge_scale(scale: &RawSint, first: &mut Option<Fault>)
    ensures { first.new ≡ scale_judged scale.now first.old }
{
    judge_range(0, 15, is_negative(&scale.sign), &scale.value, first);
}

/// Judges a number type.
pub fn judge_type(scale: &RawType, first: &mut Option<Fault>)
    ensures { first.new ≡ type_judged scale.now first.old }
{
    match scale {
        RawType::Integer(_) => {}
        RawType::Fixed(_, t, f) => {
            judge_range(1, 16, false, t, first);
            judge_scale(f, first);
        }
    }
}

/// Judges the type of an answer.
pub fn judge_answer(answer: &Option<RawType>, first: &mut Option<Fault>)
    ensures { first.new ≡ answer_judged answer.now first.old }
{
    match answer {
        None => {}
        Some(scale) => judge_type(scale, first),
    }
}

fn ends_within(t: u64, b: &Option<u64>) -> bool
    requires t_fits { t < 10 ^ 12 }
    requires b_fits { IfSome b.now (λ n. n < 10 ^ 12) }
    ensures { result ≡ ends_within t b.now }
{
    match b {
        None => true,
        Some(b) => t + *b <= 16,
    }
}

/// Whether so many bits from a bit are those of a word.
pub fn is_field(t: &Option<u64>, b: &Option<u64>) -> bool
    requires t_fits { IfSome t.now (λ n. n < 10 ^ 12) }
    requires b_fits { IfSome b.now (λ n. n < 10 ^ 12) }
    ensures { result ≡ is_field t.now b.now }
{
    match t {
        None => true,
        Some(t) => 1 <= *t && (*t <= 16 && ends_within(*t, b)),
    }
}

pub fn judge_bits(bits: &RawBits, first: &mut Option<Fault>)
    ensures { first.new ≡ bits_judged bits.now first.old }
{
    judge_int(&bits.size.first, first);
    judge_int(&bits.size.second, first);
    let holds = is_field(
        &place_amount(&bits.size.first),
        &place_amount(&bits.size.second),
    );
    keep_unless(holds, Rule::FieldRange, bits.at, first);
}

pub fn judge_each_bits(all: &[RawBits], first: &mut Option<Fault>)
    ensures { first.new ≡ each_bits_judged all.now first.old }
{
    for bits in all {
        judge_bits(bits, first);
    }
}
