//! What an expression, a reference or a condition puts behind its parts. Nothing here answers a Result: an output that has failed stays so.
ghost use Rattle.std.specs.Prelude.{◌≡◌, ◌+◌, pos, ◌-ℤ◌, ◌∷◌, [], ◌++◌, ◌%◌, Some, false};
ghost use Rattle.cw_word.specs.Word.{signed};
ghost use Rattle.cw_word.specs.Decimal.{decimal_floor};
ghost use Rattle.cw_unit.specs.declared.unit.Spot.{out-Spot};
ghost use Rattle.cw_order.specs.declared.order.Order.TheVariants as order;
ghost use Rattle.cw_gen_expr.specs.Pieces.{plain};
ghost use Rattle.cw_gen_expr.specs.Output.{Adds};
ghost use Rattle.cw_gen_expr.specs.ReferenceExpressions.{scope_with, at_line, bounds_orders, comparator_for, number_order, pick_mark, rescale_orders};
ghost use Rattle.cw_gen_expr.specs.ReferenceExpressions.{load_orders, table_orders, row_order, form_orders, logic_order, narrow, call_order};
ghost use Rattle.cw_gen_expr.specs.KnownValues as known;

use crate::known::all_inside;
use crate::orders::{item, number_word, place_of_control, span, span_of_table};
use crate::output::Output;
use cw_order::{Comparator, Order};
use cw_unit::layout::Layout;
use cw_unit::unit::{CompareOp, Field, LogicOp, Param, Spot, Target, Unit};
use cw_word::Num;

/// The comparison that holds where the truth of this one is `when`.
pub fn comparator(op: CompareOp, when: bool) -> Comparator
    ensures { result ≡ comparator_for when op }
{
    match (op, when) {
        (CompareOp::Less, true) | (CompareOp::GreaterEq, false) => Comparator::Less,
        (CompareOp::LessEq, true) | (CompareOp::Greater, false) => Comparator::LessEqual,
        (CompareOp::Equal, true) | (CompareOp::Unequal, false) => Comparator::Equal,
        (CompareOp::GreaterEq, true) | (CompareOp::Less, false) => Comparator::GreaterEqual,
        (CompareOp::Greater, true) | (CompareOp::LessEq, false) => Comparator::Greater,
        (CompareOp::Unequal, true) | (CompareOp::Equal, false) => Comparator::Unequal,
    }
}

pub fn pick(first: bool, m: u32, n: u32) -> u32
    ensures { result ≡ pick_mark first m n }
{
    if first { m } else { n }
}

/// Adds what takes a word from one scale to another.
pub fn put_rescale(out: &mut Output, line: u16, from: u8, to: u8)
    ensures { Adds (plain (rescale_orders line from to)) out.old out.new }
{
    if from != to {
        out.put(Order::Rescale { from, to, line });
    }
}

/// Adds the order that puts the word at an address, or a part of it.
pub fn put_load(out: &mut Output, field: &Option<Field>)
    ensures { Adds (plain (load_orders field.now)) out.old out.new }
{
    match field {
        None => out.put(Order::Load),
        Some(part) => out.put(Order::LoadPart {
            t: part.t,
            b: part.b,
            signed: !part.unsigned,
        }),
    }
}

/// Adds the order of a number, and tells its word at a scale. It fails at numbers that no unit has.
pub fn put_number(out: &mut Output, number: &Num, scale: u8) -> Option<i16>
    ensures orders { Adds (plain (number_order (decimal_floor number.now.whole number.now.digits number.now.places scale) ∷ [])) out.old out.new }
    ensures known { out.new.failed ≡ false
        → result ≡ Some (signed (decimal_floor number.now.whole number.now.digits number.now.places scale % 65536)) }
{
    match number_word(number, scale) {
        Ok(word) => {
            out.put(Order::Const(word));
            Some(word.cast_signed())
        }
        Err(_) => {
            out.fail();
            None
        }
    }
}

pub fn logic(op: LogicOp) -> Order
    ensures { result ≡ logic_order op }
{
    match op {
        LogicOp::Mask => Order::And,
        LogicOp::Union => Order::Or,
        LogicOp::Differ => Order::Xor,
    }
}

/// Adds the base of a table: its address, or the word of a table parameter.
fn put_table(out: &mut Output, layout: &Layout, parameter: bool, table: u32)
    ensures { Adds (plain (table_orders layout.now parameter table)) out.old out.new }
{
    if parameter {
        out.put_two(item(layout, table, 0), Order::Load)
    } else {
        out.put(item(layout, table, 0))
    }
}

/// The order that makes an address of two indexes.
fn order_of_two(
    compared: bool,
    lower: i16,
    upper: i16,
    second: i16,
    last: i16,
    width: u16,
    span: u16,
    line: u16,
) -> Order
    ensures { result ≡ row_order (known.all_inside compared span lower upper second last width) lower second width span line }
{
    if all_inside(compared, span, lower, upper, second, last, width) {
        Order::ElementInside {
            lower,
            second,
            width,
            span,
        }
    } else {
        Order::ElementOfTwo {
            lower,
            second,
            width,
            line,
        }
    }
}

/// Adds the base of an array or a table below its index, and the order that takes both. The base is the item's word where the item is a
/// parameter.
fn put_element(out: &mut Output, layout: &Layout, parameter: bool, base: u32, last: Order)
    ensures { Adds (plain (order.Save ∷ (table_orders layout.now parameter base ++ last ∷ []))) out.old out.new }
{
    out.put(Order::Save);
    put_table(out, layout, parameter, base);
    out.put(last);
}

/// Adds the orders that make an address of a reference's indexes, which have been compared with their bounds or not.
pub fn put_form(out: &mut Output, compared: bool, layout: &Layout, line: u16, spot: &Spot)
    ensures { Adds (plain (form_orders layout.now compared line (out-Spot spot.now))) out.old out.new }
{
    match spot {
        Spot::Direct(i) => out.put(item(layout, *i, 0)),
        Spot::Through(i) => { out.put_three(item(layout, *i, 0), Order::Load, Order::InArea(line)) }
        Spot::One(i, lower, _, _) => {
            let order = Order::Element {
                lower: *lower,
                span: span(layout, *i),
                line,
            };
            put_element(out, layout, false, *i, order)
        }
        Spot::Two(i, lower, upper, second, last, width, _, _) => {
            let order = order_of_two(
                compared,
                *lower,
                *upper,
                *second,
                *last,
                *width,
                span(layout, *i),
                line,
            );
            put_element(out, layout, false, *i, order)
        }
        Spot::ParamArray(i, _) => {
            let order = Order::Element {
                lower: 0,
                span: 0,
                line,
            };
            put_element(out, layout, true, *i, order)
        }
        Spot::Word(i, parameter, _, _) => {
            let order = Order::Element {
                lower: 0,
                span: span_of_table(layout, *parameter, *i),
                line,
            };
            put_element(out, layout, *parameter, *i, order)
        }
        Spot::Elem(i, parameter, width, _, word, _) => {
            let order = Order::Entry {
                width: *width,
                word: *word,
                span: span_of_table(layout, *parameter, *i),
                line,
            };
            put_element(out, layout, *parameter, *i, order)
        }
        Spot::Bare(_) => out.put(Order::InArea(line)),
    }
}

/// Adds the comparison of an index with its bounds, where the unit asks for it. It fails at tables that no unit has, of over 32,768 words.
pub fn put_bounds(out: &mut Output, unit: &Unit, line: u16, lower: i16, upper: i64)
    ensures { Adds (plain (bounds_orders unit.now.bounds line lower upper)) out.old out.new }
{
    if unit.bounds {
        match i16::try_from(upper) {
            Ok(upper) => out.put(Order::InBounds { lower, upper, line }),
            Err(_) => out.fail(),
        }
    }
}

/// A power of two of a product or a quotient, in the range that an order can hold.
fn power(power: i32) -> i8
    ensures { result ≡ narrow power }
{
    match i8::try_from(power) {
        Ok(power) => power,
        Err(_) => 0,
    }
}

/// The power of two of a product at scale `to`, whose operands have the scales `f` and `g`.
pub fn power_of_product(to: u8, f: u8, g: u8) -> i8
    ensures { result ≡ narrow (pos to -ℤ pos (f + g)) }
{
    power(i32::from(to) - i32::from(u16::from(f) + u16::from(g)))
}

/// The power of two of a quotient at scale `to`, whose operands have the scales `f` and `g`.
pub fn power_of_quotient(to: u8, f: u8, g: u8) -> i8
    ensures { result ≡ narrow (pos (to + g) -ℤ pos f) }
{
    power(i32::from(u16::from(to) + u16::from(g)) - i32::from(f))
}

/// Adds the order that calls.
pub fn put_call(
    out: &mut Output,
    unit: &Unit,
    layout: &Layout,
    parameters: &[Param],
    line: u16,
    target: &Target,
)
    ensures { Adds (plain (call_order (at_line line (scope_with unit.now layout.now parameters.now)) target.now ∷ [])) out.old out.new }
{
    match target {
        Target::Own(procedure) => out.put(Order::CallProc {
            procedure: *procedure,
            line,
        }),
        Target::Common(descriptor) => out.put(Order::CallCommon {
            descriptor: *descriptor,
            line,
        }),
        Target::Special(control, _) => match place_of_control(parameters, *control) {
            Ok(place) => out.put(Order::CallSpecial { place, line }),
            Err(_) => out.fail(),
        },
        Target::Read => out.put(Order::ReadByte),
        Target::Write => out.put(Order::WriteByte),
    }
}
