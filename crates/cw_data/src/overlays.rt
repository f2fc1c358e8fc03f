//! What an OVERLAY is laid on.
ghost use Rattle.std.specs.Prelude.{◌≡◌, option_copied};
ghost use Rattle.cw_table.specs.Rows.{item_at};
ghost use Rattle.cw_facts.specs.Facts.{base_name};
ghost use Rattle.cw_amount.specs.Amounts.{place_sint};
ghost use Rattle.cw_scale.specs.Kinds.{kind_of};
ghost use Rattle.cw_data.specs.Overlays.{indexes_judged, not_above, within_range, array_index, word_within, table_index};
ghost use Rattle.cw_data.specs.Overlays.{no_index, can_be_laid_on, stands_before, base_judged};

use crate::presets::table_words;
use cw_amount::amount::{place_amount, place_sint};
use cw_facts::fact::Kind;
use cw_scale::Named;
use cw_scale::fault::{Fault, Rule, keep_unless};
use cw_scale::kinds::kind_of;
use cw_scale::types::judge_int;
use cw_tree::items::{RawBase, RawRange};
use cw_tree::leaf::{RawName, RawSint, RawSize};

fn judge_indexes(base: &RawBase, first: &mut Option<Fault>)
    ensures { first.new ≡ indexes_judged base.now first.old }
{
    match base {
        RawBase::Name(_) => {}
        RawBase::One(_, i) => judge_int(&i.value, first),
        RawBase::Two(_, i, j) => {
            judge_int(&i.value, first);
            judge_int(&j.value, first);
        }
    }
}

fn not_above(a: &RawSint, b: &RawSint) -> bool
    ensures { result ≡ not_above (place_sint a.now) (place_sint b.now) }
{
    match place_sint(a) {
        None => true,
        Some(x) => match place_sint(b) {
            None => true,
            Some(y) => x <= y,
        },
    }
}

fn within_range(range: &RawRange, index: &RawSint) -> bool
    ensures { result ≡ within_range range.now index.now }
{
    not_above(&range.lower, index) && not_above(index, &range.upper)
}

fn array_index(range: &RawRange, second: &Option<RawRange>, base: &RawBase) -> bool
    ensures { result ≡ array_index range.now second.now base.now }
{
    match base {
        RawBase::Name(_) => false,
        RawBase::One(_, i) => match second {
            None => within_range(range, i),
            Some(_) => false,
        },
        RawBase::Two(_, i, j) => match second {
            None => false,
            Some(other) => within_range(range, i) && within_range(other, j),
        },
    }
}

fn word_within(words: usize, index: &Option<i64>) -> bool
    ensures { result ≡ word_within words index.now }
{
    match index {
        None => true,
        Some(z) => 0 <= *z && (*z as u64) < words as u64,
    }
}

fn table_index(size: &RawSize, base: &RawBase) -> bool
    ensures { result ≡ table_index size.now base.now }
{
    match base {
        RawBase::One(_, i) => {
            let words = table_words(&place_amount(&size.first), &place_amount(&size.second));
            word_within(words, &place_sint(i))
        }
        _ => false,
    }
}

fn no_index(base: &RawBase) -> bool
    ensures { result ≡ no_index base.now }
{
    match base {
        RawBase::Name(_) => true,
        _ => false,
    }
}

pub fn can_be_laid_on(kind: Option<&Kind>, base: &RawBase) -> bool
    ensures { result ≡ can_be_laid_on (option_copied kind.entry) base.now }
{
    match kind {
        None => true,
        Some(kind) => match kind {
            Kind::Single(_) => no_index(base),
            Kind::Array(_, bounds) => array_index(&bounds.first, &bounds.second, base),
            Kind::Table(size) => table_index(size, base),
            _ => true,
        },
    }
}

pub fn name_of(base: &RawBase) -> RawName
    ensures { result ≡ base_name base.now }
{
    match base {
        RawBase::Name(name) => *name,
        RawBase::One(name, _) => *name,
        RawBase::Two(name, _, _) => *name,
    }
}

fn stands_before(named: &Named, token: u32) -> bool
    ensures { result ≡ stands_before (item_at named.now.uses token) token }
{
    match named.uses.find(token) {
        None => true,
        Some(declared) => *declared < token,
    }
}

/// Judges the base of an OVERLAY. One in COMMON has to be in a COMMON list too, which is not judged here.
pub fn judge_base(named: &Named, base: &RawBase, first: &mut Option<Fault>)
    ensures { first.new ≡ base_judged named.now base.now first.old }
{
    judge_indexes(base, first);
    let name = name_of(base);
    let holds = stands_before(named, name.at.token) && can_be_laid_on(kind_of(named, &name), base);
    keep_unless(holds, Rule::BadOverlay, name.at, first);
}
