//! What the names of a text give to the trees of its unit.
ghost use Rattle.std.specs.Prelude.{◌≡◌, option_copied};
ghost use Rattle.cw_amount.specs.Amounts.{place_amount, place_sint};
ghost use Rattle.cw_scale.specs.Kinds.{signature_of};
ghost use Rattle.cw_make_expr.specs.Parts.{within, bound, scale_of, item_in, item_here, number_of, params_of, is_called, answer_of, target_of, handed_item};
ghost use Rattle.cw_make_expr.specs.Parts.{no_argument, handed, named_spot, words_of, width_of, entries_of, element_word, element_field, field_of};
ghost use Rattle.cw_make_expr.specs.Parts.{element_spot, row_length, double_spot, twice_indexed_spot, kind_here, indexed_spot};

use cw_amount::amount::{place_amount, place_sint};
use cw_data::data::range_span;
use cw_data::presets::table_words;
use cw_facts::fact::Kind;
use cw_number::numbered::Numbered;
use cw_scale::kinds::{fraction_of_sint, signature_of};
use cw_scope::resolve::Named;
use cw_table::table::Table;
use cw_tree::items::{RawElem, RawRange};
use cw_tree::leaf::{RawName, RawSint, RawSize, RawType};
use cw_tree::segment::RawPs;
use cw_unit::descriptor::Scale;
use cw_unit::unit::{Arg, Expr, Field, Goal, Spot, Target};
use cw_word::Boxed;
use std::alloc::Global;

/// A named text with the numbers of its names, and where its trees are put.
#[derive(Clone, Copy)]
pub struct Source<'a> {
    pub alloc: Global,
    pub named: &'a Named<'a>,
    pub numbers: &'a Table<Numbered>,
}

// ---- numbers

pub fn small(amount: &Option<u64>) -> u8
    ensures { result ≡ within 255 amount.now }
{
    match amount {
        None => 0,
        Some(n) => { if *n <= 255 { *n as u8 } else { 0 } }
    }
}

pub(crate) fn word(amount: &Option<u64>) -> u16
    ensures { result ≡ within 65535 amount.now }
{
    match amount {
        None => 0,
        Some(n) => { if *n <= 65535 { *n as u16 } else { 0 } }
    }
}

fn bound(number: &RawSint) -> i16
    ensures { result ≡ bound number.now }
{
    match place_sint(number) {
        None => 0,
        Some(z) => {
            if -32768 <= z && z <= 32767 {
                z as i16
            } else {
                0
            }
        }
    }
}

/// The scale of a type.
pub fn scale_of(scale: &RawType) -> Scale
    ensures { result ≡ scale_of scale.now }
{
    match scale {
        RawType::Integer(_) => Scale { t: 16, f: 0 },
        RawType::Fixed(_, t, f) => Scale {
            t: small(&place_amount(t)),
            f: fraction_of_sint(f),
        },
    }
}

// ---- what a name is in the unit

/// The number of what a use of a name names.
pub fn number_of(named: &Named, numbers: &Table<Numbered>, name: &RawName) -> Option<Numbered>
    ensures { result ≡ number_of named.now numbers.now name.now }
{
    match named.uses.find(name.at.token) {
        None => None,
        Some(token) => numbers.find(*token).copied(),
    }
}

pub(crate) fn item_in(number: &Option<Numbered>) -> u32
    ensures { result ≡ item_in number.now }
{
    match number {
        Some(Numbered::Item(i)) => *i,
        _ => 0,
    }
}

/// The item of a string, a FOR or a declared name, by its own token.
pub fn item_here(numbers: &Table<Numbered>, token: u32) -> u32
    ensures { result ≡ item_here numbers.now token }
{
    item_in(&numbers.find(token).copied())
}

/// What a procedure takes that a name names.
pub(crate) fn params_of<'a>(named: &'a Named, name: &RawName) -> &'a [RawPs]
    ensures { result.now ≡ params_of (signature_of named.now name.now) }
{
    match signature_of(named, name) {
        None => &[],
        Some(signature) => signature.params.as_slice(),
    }
}

// ---- procedures

pub(crate) fn is_called(kind: Option<&Kind>) -> bool
    ensures { result ≡ is_called (option_copied kind.entry) }
{
    match kind {
        Some(Kind::Proc(_) | Kind::ProcParam(_) | Kind::ReadByte | Kind::WriteByte) => true,
        _ => false,
    }
}

fn answer_of(kind: Option<&Kind>) -> Option<Scale>
    ensures { result ≡ answer_of (option_copied kind.entry) }
{
    match kind {
        Some(Kind::ProcParam(Some(scale))) => Some(scale_of(scale)),
        _ => None,
    }
}

pub(crate) fn target_of(kind: Option<&Kind>, number: &Option<Numbered>) -> Target
    ensures { result ≡ target_of (option_copied kind.entry) number.now }
{
    match number {
        Some(Numbered::Proc(p)) => Target::Own(*p),
        Some(Numbered::CommonProc(d)) => Target::Common(*d),
        Some(Numbered::Control(c)) => Target::Special(*c, answer_of(kind)),
        Some(Numbered::ReadByte) => Target::Read,
        Some(Numbered::WriteByte) => Target::Write,
        _ => Target::Own(0),
    }
}

// ---- a name that is a whole argument, and no value and no place

fn handed_item(kind: Option<&Kind>, item: u32) -> Arg
    ensures { result ≡ handed_item (option_copied kind.entry) item }
{
    match kind {
        Some(Kind::Array(_, bounds)) => Arg::Array(item, bound(&bounds.first.lower)),
        Some(Kind::Table(_)) => Arg::Base(item),
        _ => Arg::Same(item),
    }
}

/// What stands for an argument that is not there.
pub(crate) fn no_argument() -> Arg
    ensures { result ≡ no_argument }
{
    Arg::Special(0)
}

fn handed_number(kind: Option<&Kind>, number: &Numbered) -> Arg
    ensures { result ≡ handed (option_copied kind.entry) (Some number.now) }
{
    match number {
        Numbered::Item(i) => handed_item(kind, *i),
        Numbered::Label(l) => Arg::Goal(Goal::Own(*l)),
        Numbered::CommonLabel(d) => Arg::Goal(Goal::Common(*d)),
        Numbered::Switch(s) => Arg::Switch(*s),
        Numbered::CommonSwitch(d) => Arg::CommonSwitch(*d),
        Numbered::Proc(p) => Arg::Proc(*p),
        Numbered::CommonProc(d) => Arg::CommonProc(*d),
        Numbered::Control(c) => Arg::Special(*c),
        Numbered::ReadByte | Numbered::WriteByte => no_argument(),
    }
}

pub(crate) fn handed(kind: Option<&Kind>, number: &Option<Numbered>) -> Arg
    ensures { result ≡ handed (option_copied kind.entry) number.now }
{
    match number {
        None => no_argument(),
        Some(number) => handed_number(kind, number),
    }
}

// ---- where a word is

pub(crate) fn named_spot(kind: Option<&Kind>, item: u32) -> Spot
    ensures { result ≡ named_spot (option_copied kind.entry) item }
{
    match kind {
        Some(Kind::Location(_)) => Spot::Through(item),
        _ => Spot::Direct(item),
    }
}

fn words_of(size: &RawSize) -> u32
    ensures { result ≡ words_of size.now }
{
    table_words(&place_amount(&size.first), &place_amount(&size.second)) as u32
}

fn width_of(size: &RawSize) -> u16
    ensures { result ≡ width_of size.now }
{
    word(&place_amount(&size.first))
}

fn entries_of(size: &RawSize) -> u16
    ensures { result ≡ entries_of size.now }
{
    word(&place_amount(&size.second))
}

fn element_word(element: &RawElem) -> u16
    ensures { result ≡ element_word element.now }
{
    match element {
        RawElem::Word(_, _, at) => word(&place_amount(at)),
        RawElem::Part { word: at, .. } => word(&place_amount(at)),
    }
}

fn element_field(element: &RawElem) -> Option<Field>
    ensures { result ≡ element_field element.now }
{
    match element {
        RawElem::Word(..) => None,
        RawElem::Part {
            unsigned,
            bits,
            bit,
            ..
        } => Some(Field {
            t: small(&place_amount(bits)),
            b: small(&place_amount(bit)),
            unsigned: *unsigned,
        }),
    }
}

pub(crate) fn field_of(kind: Option<&Kind>) -> Option<Field>
    ensures { result ≡ field_of (option_copied kind.entry) }
{
    match kind {
        Some(Kind::Element(_, element)) => element_field(element),
        _ => None,
    }
}

fn element_spot(table: Option<&Kind>, item: u32, place: u16, e: Expr) -> Spot
    ensures { result ≡ element_spot (option_copied table.entry) item place e }
{
    match table {
        Some(Kind::Table(size)) => {
            Spot::Elem(item, false, width_of(size), entries_of(size), place, e)
        }
        Some(Kind::TableParam(size)) => {
            Spot::Elem(item, true, width_of(size), entries_of(size), place, e)
        }
        _ => Spot::Bare(e),
    }
}

fn row_length(range: &RawRange) -> u16
    ensures { result ≡ row_length range.now }
{
    word(&Some(range_span(range)))
}

fn double_spot(
    range: &RawRange,
    second: &Option<RawRange>,
    item: u32,
    e: Boxed<Expr>,
    other: Boxed<Expr>,
) -> Spot
    ensures { result ≡ double_spot range.now second.now item e other }
{
    match second {
        None => Spot::Bare(e.into_inner()),
        Some(across) => Spot::Two(
            item,
            bound(&range.lower),
            bound(&range.upper),
            bound(&across.lower),
            bound(&across.upper),
            row_length(across),
            e.into_inner(),
            other.into_inner(),
        ),
    }
}

pub(crate) fn twice_indexed_spot(
    kind: Option<&Kind>,
    item: u32,
    e: Boxed<Expr>,
    other: Boxed<Expr>,
) -> Spot
    ensures { result ≡ twice_indexed_spot (option_copied kind.entry) item e other }
{
    match kind {
        Some(Kind::Array(_, bounds)) => {
            double_spot(&bounds.first, &bounds.second, item, e, other)
        }
        _ => Spot::Bare(e.into_inner()),
    }
}

fn kind_here<'a>(named: &'a Named, token: u32) -> Option<&'a Kind>
    ensures { option_copied result ≡ kind_here named.now token }
{
    match named.declarations.find(token) {
        None => None,
        Some(declaration) => Some(&declaration.kind),
    }
}

fn element_of(
    named: &Named,
    numbers: &Table<Numbered>,
    table: &RawName,
    element: &RawElem,
    e: Expr,
) -> Spot
    ensures { result ≡ element_spot (kind_here named.now table.now.at.token) (item_here numbers.now table.now.at.token) (element_word element.now) e }
{
    let kind = kind_here(named, table.at.token);
    let item = item_here(numbers, table.at.token);
    element_spot(kind, item, element_word(element), e)
}

pub(crate) fn indexed_spot(
    named: &Named,
    numbers: &Table<Numbered>,
    kind: Option<&Kind>,
    item: u32,
    e: Expr,
) -> Spot
    ensures { result ≡ indexed_spot named.now numbers.now (option_copied kind.entry) item e }
{
    match kind {
        Some(Kind::Array(_, bounds)) => Spot::One(
            item,
            bound(&bounds.first.lower),
            bound(&bounds.first.upper),
            e,
        ),
        Some(Kind::ArrayParam(_)) => Spot::ParamArray(item, e),
        Some(Kind::Table(size)) => Spot::Word(item, false, words_of(size), e),
        Some(Kind::TableParam(size)) => Spot::Word(item, true, words_of(size), e),
        Some(Kind::Element(table, element)) => element_of(named, numbers, table, element, e),
        _ => Spot::Bare(e),
    }
}
