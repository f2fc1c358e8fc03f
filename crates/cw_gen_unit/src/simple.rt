//! A FOR that begins without the library.
ghost use Rattle.std.specs.Prelude.{◌≡◌, Some, None, slice_get, IfOk, MatchOption};
ghost use Rattle.cw_unit.specs.declared.unit.Expr.{out-Expr};
ghost use Rattle.cw_unit.specs.declared.unit.Spot.{out-Spot};
ghost use Rattle.cw_gen_unit.specs.ReferenceStatements.{only_step as spec_only_step};
ghost use Rattle.cw_gen_unit.specs.SimpleLoops.{is_own as spec_is_own, is_static as spec_is_static, are_apart as spec_are_apart, direct_item, variable_if};
ghost use Rattle.cw_gen_unit.specs.SimpleLoops.{whole_item, item_read as spec_item_read, unsigned_number as spec_unsigned_number};
ghost use Rattle.cw_gen_unit.specs.SimpleLoops.{known_number as spec_known_number};
ghost use Rattle.cw_gen_unit.specs.SimpleLoops.{item_layer, simple_of as spec_simple_of, simple_parts, simple_step as spec_simple_step};

use cw_gen_expr::known::{negative_of, rescaled_to};
use cw_gen_expr::orders::{home, number_word};
use cw_unit::layout::{Layout, Sort};
use cw_unit::unit::{Expr, Felem, Field, Ref, Spot};
use cw_word::NoMemory;

/// A value that is put by one or two orders, and never stops.
#[derive(Clone, Copy)]
pub enum Simple {
    Number(i16),
    /// The word of an item.
    Item(u32),
}

/// A loop of one STEP element: the item of its control variable, the first value, the step and the limit.
#[derive(Clone, Copy)]
pub struct SimpleStep {
    pub variable: u32,
    pub first: Simple,
    pub step: i16,
    pub limit: Simple,
}

/// A family of the unit's own.
fn is_own(layout: &Layout, family: u16) -> bool
    ensures { result ≡ spec_is_own (slice_get layout.now.families family) }
{
    match layout.families.as_slice().get(family as usize) {
        Some(found) => match found.sort {
            Sort::Own => true,
            _ => false,
        },
        None => false,
    }
}

/// A family that stands in no frame.
fn is_static(layout: &Layout, family: u16) -> bool
    ensures { result ≡ spec_is_static (slice_get layout.now.families family) }
{
    match layout.families.as_slice().get(family as usize) {
        Some(found) => match found.sort {
            Sort::Frame(_) => false,
            _ => true,
        },
        None => true,
    }
}

/// Whether the words of a loop and a variable are different ones in every valid storage map.
fn are_apart(layout: &Layout, looped: u32, variable: u32) -> bool
    ensures { result ≡ spec_are_apart layout.now looped variable }
{
    let (own, _) = home(layout, looped);
    let (other, _) = home(layout, variable);
    is_own(layout, own) && (is_static(layout, other) && own != other)
}

/// The item that a reference names directly.
fn direct(spot: &Spot) -> Option<u32>
    ensures { result ≡ direct_item (out-Spot spot.now) }
{
    match spot {
        Spot::Direct(i) => Some(*i),
        _ => None,
    }
}

/// The item of the control variable, where it shares no word with the loop.
fn variable_of(layout: &Layout, looped: u32, spot: &Spot) -> Option<u32>
    ensures { result ≡ variable_if layout.now looped (direct_item (out-Spot spot.now)) }
{
    let variable = direct(spot)?;
    if are_apart(layout, looped, variable) {
        Some(variable)
    } else {
        None
    }
}

/// An item of which no part is named.
fn whole(field: &Option<Field>, named: Option<u32>) -> Option<u32>
    ensures { result ≡ whole_item field.now named }
{
    match field {
        None => named,
        Some(_) => None,
    }
}

/// The item whose whole word a reference names directly, at this scale.
fn item_read(reference: &Ref, scale: u8) -> Option<u32>
    ensures { result ≡ spec_item_read reference.now scale }
{
    if reference.f == scale {
        whole(&reference.field, direct(&reference.at))
    } else {
        None
    }
}

/// The word of a number without a sign. NoMemory comes for numbers that no unit has.
fn unsigned_number(e: &Expr, scale: u8) -> Result<Option<i16>, NoMemory>
    ensures { IfOk result (λ known. known ≡ spec_unsigned_number (out-Expr e.now) scale) }
{
    match e {
        Expr::Num(number) => {
            let word = number_word(number, scale)?;
            Ok(Some(word.cast_signed()))
        }
        Expr::Const(z) => Ok(rescaled_to(Some(*z), 0, scale)),
        _ => Ok(None),
    }
}

/// The word of a number.
fn known_number(e: &Expr, scale: u8) -> Result<Option<i16>, NoMemory>
    ensures { IfOk result (λ known. known ≡ spec_known_number e.now scale) }
{
    match e {
        Expr::Minus(a) => {
            let known = unsigned_number(a.get(), scale)?;
            Ok(negative_of(known))
        }
        _ => unsigned_number(e, scale),
    }
}

/// The item whose word an expression is.
fn read_of(e: &Expr, scale: u8) -> Option<Simple>
    ensures { result ≡ item_layer (out-Expr e.now) scale }
{
    match e {
        Expr::Read(reference) => {
            let item = item_read(reference.get(), scale)?;
            Some(Simple::Item(item))
        }
        _ => None,
    }
}

/// A number, or the word of an item.
fn simple_of(e: &Expr, scale: u8) -> Result<Option<Simple>, NoMemory>
    ensures { IfOk result (λ value. value ≡ spec_simple_of e.now scale) }
{
    match known_number(e, scale)? {
        Some(z) => Ok(Some(Simple::Number(z))),
        None => Ok(read_of(e, scale)),
    }
}

/// A loop whose parts are all simple.
fn joined(
    variable: Option<u32>,
    first: Option<Simple>,
    step: Option<i16>,
    limit: Option<Simple>,
) -> Option<SimpleStep>
    ensures { result ≡ simple_parts variable first step limit }
{
    Some(SimpleStep {
        variable: variable?,
        first: first?,
        step: step?,
        limit: limit?,
    })
}

fn step_of(
    variable: Option<u32>,
    scale: u8,
    first: &Expr,
    step: &Expr,
    limit: &Expr,
) -> Result<Option<SimpleStep>, NoMemory>
    ensures { IfOk result (λ simple. simple
        ≡ simple_parts variable (spec_simple_of first.now scale) (spec_known_number step.now scale)
        (spec_simple_of limit.now scale)) }
{
    let first = simple_of(first, scale)?;
    let step = known_number(step, scale)?;
    let limit = simple_of(limit, scale)?;
    Ok(joined(variable, first, step, limit))
}

/// The one STEP element of a FOR that has no other.
pub fn only_step(elements: &[Felem]) -> Option<(&Expr, &Expr, &Expr)>
    ensures { MatchOption result (spec_only_step elements.now ≡ None) (λ e. spec_only_step elements.now ≡ Some (e.0.now, e.1.now, e.2.now)) }
{
    match elements {
        [only] => match only {
            Felem::Step(first, step, limit) => Some((first, step, limit)),
            _ => None,
        },
        _ => None,
    }
}

/// The parts of a FOR that begins without the library. NoMemory comes for numbers that no unit has.
pub fn simple_step(
    layout: &Layout,
    looped: u32,
    reference: &Ref,
    elements: &[Felem],
) -> Result<Option<SimpleStep>, NoMemory>
    ensures { IfOk result (λ simple. simple ≡ spec_simple_step layout.now looped reference.now elements.now) }
{
    match only_step(elements) {
        Some((first, step, limit)) => step_of(
            variable_of(layout, looped, &reference.at),
            reference.f,
            first,
            step,
            limit,
        ),
        None => Ok(None),
    }
}
