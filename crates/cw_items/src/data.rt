//! Declared things.
ghost use Rattle.std.specs.Prelude.{◌≡◌, ◌+◌, ◌*◌, ◌++◌, ◌∷◌, [], OnOk, option_copied};
ghost use Rattle.cw_table.specs.Rows.{item_at};
ghost use Rattle.cw_items.specs.Things.{capped, thing, steps_to, array_word, table_word, word_of_base};
ghost use Rattle.cw_items.specs.Things.{base_at, amount_or_none, moved, moved_past, named_things};
ghost use Rattle.cw_items.specs.Things.{group_words, groups_things, words_of_table, data_things, parameter_things, parameters_things};

use crate::thing::{Base, Owner, Sort, Thing, capped};
use cw_amount::amount::place_amount;
use cw_data::data::range_span;
use cw_data::kind_of;
use cw_data::overlays::{can_be_laid_on, name_of};
use cw_data::presets::{array_words, table_words};
use cw_facts::fact::Kind;
use cw_scope::resolve::Named;
use cw_tree::items::{RawBase, RawData, RawGroup, RawRange, RawTable};
use cw_tree::leaf::{Position, RawName, RawSint};
use cw_tree::statement::RawParam;
use cw_word::{List, NoMemory};

pub(crate) fn store(
    sort: Sort,
    at: Position,
    owner: &Option<Owner>,
    base: &Option<Base>,
    words: u32,
    out: &mut List<Thing>,
) -> Result<(), NoMemory>
    ensures { OnOk result (out.new ≡ out.old ++ thing sort at owner.now base.now words ∷ []) }
{
    out.push(Thing {
        sort,
        at,
        owner: *owner,
        base: *base,
        words,
    })
}

// ---- overlays

fn steps_to(lower: &RawSint, index: &RawSint) -> u64
    ensures { result ≡ steps_to lower.now index.now }
{
    let range = RawRange {
        lower: *lower,
        upper: *index,
    };
    range_span(&range).saturating_sub(1)
}

fn across(steps: u64, row: u64, more: u64) -> u32
    ensures { result ≡ capped (steps * row + more) }
{
    match steps.checked_mul(row) {
        None => 32769,
        Some(n) => match n.checked_add(more) {
            None => 32769,
            Some(n) => capped(n),
        },
    }
}

fn array_word(range: &RawRange, second: &Option<RawRange>, base: &RawBase) -> u32
    ensures { result ≡ capped (array_word range.now second.now base.now) }
{
    match base {
        RawBase::Name(_) => 0,
        RawBase::One(_, i) => match second {
            None => capped(steps_to(&range.lower, i)),
            Some(_) => 0,
        },
        RawBase::Two(_, i, j) => match second {
            None => 0,
            Some(other) => across(
                steps_to(&range.lower, i),
                range_span(other),
                steps_to(&other.lower, j),
            ),
        },
    }
}

fn table_word(base: &RawBase) -> u32
    ensures { result ≡ capped (table_word base.now) }
{
    match base {
        RawBase::One(_, i) => match place_amount(&i.value) {
            None => 0,
            Some(n) => capped(n),
        },
        _ => 0,
    }
}

fn word_of_base(kind: Option<&Kind>, base: &RawBase) -> u32
    ensures { result ≡ capped (word_of_base (option_copied kind.entry) base.now) }
{
    match kind {
        None => 0,
        Some(kind) => match kind {
            Kind::Array(_, bounds) => array_word(&bounds.first, &bounds.second, base),
            Kind::Table(_) => table_word(base),
            _ => 0,
        },
    }
}

fn declared_at(named: &Named, token: u32) -> u32
    ensures { result ≡ amount_or_none (item_at named.now.uses token) }
{
    match named.uses.find(token) {
        None => 0,
        Some(declared) => *declared,
    }
}

/// What an OVERLAY is laid on. A base that is refused counts as the first word.
pub fn base_at(named: &Named, base: &RawBase) -> Base
    ensures { result ≡ base_at named.now base.now }
{
    let name = name_of(base);
    let kind = kind_of(named, &name);
    let token = declared_at(named, name.at.token);
    if can_be_laid_on(kind, base) {
        Base {
            token,
            word: word_of_base(kind, base),
        }
    } else {
        Base { token, word: 0 }
    }
}

fn moved(words: u32, base: &Option<Base>) -> Option<Base>
    ensures { result ≡ moved words base.now }
{
    match base {
        None => None,
        Some(base) => Some(Base {
            token: base.token,
            word: capped(u64::from(base.word) + u64::from(words)),
        }),
    }
}

fn moved_past(words: u32, names: &[RawName], base: &Option<Base>) -> Option<Base>
    ensures { result ≡ moved_past words names.now base.now }
{
    let mut next = *base;
    for name in names {
        let _ = name;
        next = moved(words, &next);
    }
    next
}

// ---- data

fn named_things(
    owner: &Option<Owner>,
    words: u32,
    base: &Option<Base>,
    names: &[RawName],
    out: &mut List<Thing>,
) -> Result<(), NoMemory>
    ensures { OnOk result (out.new ≡ out.old ++ named_things owner.now words base.now names.now) }
{
    let mut next = *base;
    for name in names {
        store(Sort::Named, name.at, owner, &next, words, out)?;
        next = moved(words, &next);
    }
    Ok(())
}

fn group_words(group: &RawGroup) -> u32
    ensures { result ≡ group_words group.now }
{
    array_words(&group.bounds.first, &group.bounds.second) as u32
}

fn groups_things(
    owner: &Option<Owner>,
    base: &Option<Base>,
    groups: &[RawGroup],
    out: &mut List<Thing>,
) -> Result<(), NoMemory>
    ensures { OnOk result (out.new ≡ out.old ++ groups_things owner.now base.now groups.now) }
{
    let mut next = *base;
    for group in groups {
        let words = group_words(group);
        named_things(owner, words, &next, group.names.as_slice(), out)?;
        next = moved_past(words, group.names.as_slice(), &next);
    }
    Ok(())
}

pub(crate) fn words_of_table(table: &RawTable) -> u32
    ensures { result ≡ words_of_table table.now }
{
    table_words(
        &place_amount(&table.size.first),
        &place_amount(&table.size.second),
    ) as u32
}

/// Adds the items of a declaration of data.
pub(crate) fn data_things(
    owner: &Option<Owner>,
    base: &Option<Base>,
    items: &RawData,
    out: &mut List<Thing>,
) -> Result<(), NoMemory>
    ensures { OnOk result (out.new ≡ out.old ++ data_things owner.now base.now items.now) }
{
    match items {
        RawData::Singles(_, names, _) => named_things(owner, 1, base, names.as_slice(), out),
        RawData::Arrays(_, groups, _) => groups_things(owner, base, groups.as_slice(), out),
        RawData::Table(table, _, _) => {
            store(
                Sort::Named,
                table.name.at,
                owner,
                base,
                words_of_table(table),
                out,
            )
        }
    }
}

// ---- parameters

fn parameter_things(
    owner: &Option<Owner>,
    parameter: &RawParam,
    out: &mut List<Thing>,
) -> Result<(), NoMemory>
    ensures { OnOk result (out.new ≡ out.old ++ parameter_things owner.now parameter.now) }
{
    match parameter {
        RawParam::Value(_, _, names) => named_things(owner, 1, &None, names.as_slice(), out),
        RawParam::Location(_, _, names) => named_things(owner, 1, &None, names.as_slice(), out),
        RawParam::Array(_, names) => named_things(owner, 1, &None, names.as_slice(), out),
        RawParam::Table(table) => store(Sort::Named, table.name.at, owner, &None, 1, out),
        RawParam::Label(..) | RawParam::Switch(..) | RawParam::Proc(..) => Ok(()),
    }
}

pub(crate) fn parameters_things(
    owner: &Option<Owner>,
    parameters: &[RawParam],
    out: &mut List<Thing>,
) -> Result<(), NoMemory>
    ensures { OnOk result (out.new ≡ out.old ++ parameters_things owner.now parameters.now) }
{
    for parameter in parameters {
        parameter_things(owner, parameter, out)?;
    }
    Ok(())
}
