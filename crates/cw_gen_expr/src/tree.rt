//! Expressions, conditions, references and arguments by their parts. Nothing here answers a Result: an output that has failed stays so.
ghost use Rattle.std.specs.Prelude.{◌≡◌, pos, ◌-ℤ◌, map, false};
ghost use Rattle.cw_gen_expr.specs.Pieces.{plain, followed_by, sequence};
ghost use Rattle.cw_gen_expr.specs.Output.{Adds};
ghost use Rattle.cw_gen_expr.specs.ReferenceExpressions.{Scope, scope_with, at_line, value_of, expression_piece, computed_piece, condition_piece};
ghost use Rattle.cw_gen_expr.specs.ReferenceExpressions.{argument_piece, label_order, spot_piece, bounds_orders, known_item, known_word, pieces_of, indexes_of};
ghost use Rattle.cw_gen_expr.specs.KnownValues.{from_lower};

use crate::forms::{
    comparator, logic, pick, power_of_product, power_of_quotient, put_bounds, put_call, put_form,
    put_load, put_number, put_rescale,
};
use crate::known::{
    above, bits_of, combined, difference_of, negative_of, product_of, quotient_of, rescaled_to,
    sum_of, word_of_element, word_of_entry, word_of_two,
};
use crate::orders::{item, place_of_control, scale_of_operand, span, span_of_table};
use crate::output::Output;
use cw_order::Order;
use cw_unit::layout::Layout;
use cw_unit::scales::{answer_scale, natural_scale};
use cw_unit::unit::{Arg, Cond, Expr, Goal, Param, Spot, Unit};

/// A value that is put at the scale that it has as an operand: that scale, and the value where it is known.
#[derive(Clone, Copy)]
pub struct Operand {
    pub scale: u8,
    pub known: Option<i16>,
}

/// Adds the orders that put the value of an expression at a scale, one where the value is known, and tells it.
#[cycle(tree)]
pub fn put_expression(
    out: &mut Output,
    unit: &Unit,
    layout: &Layout,
    parameters: &[Param],
    line: u16,
    e: &Expr,
    scale: u8,
) -> Option<i16>
    ensures orders { Adds (expression_piece (at_line line (scope_with unit.now layout.now parameters.now)) e.now scale) out.old out.new }
    ensures known { out.new.failed ≡ false → result ≡ (value_of (at_line line (scope_with unit.now layout.now parameters.now)) e.now).known scale }
{
    let extent = out.extent();
    match put_computed(out, unit, layout, parameters, line, e, scale) {
        Some(word) => {
            out.retract(extent);
            out.put(Order::Const(word.cast_unsigned()));
            Some(word)
        }
        None => None,
    }
}

/// Adds the orders of an operand of a product, a quotient or an operation on bits. It fails at numbers that no unit has.
#[cycle(tree)]
fn put_operand(
    out: &mut Output,
    unit: &Unit,
    layout: &Layout,
    parameters: &[Param],
    line: u16,
    e: &Expr,
) -> Operand
    ensures orders { Adds (expression_piece (at_line line (scope_with unit.now layout.now parameters.now)) e.now
        (value_of (at_line line (scope_with unit.now layout.now parameters.now)) e.now).operand) out.old out.new }
    ensures scale { out.new.failed ≡ false → result.scale ≡ (value_of (at_line line (scope_with unit.now layout.now parameters.now)) e.now).operand }
    ensures known { out.new.failed ≡ false → result.known ≡ (value_of (at_line line (scope_with unit.now layout.now parameters.now)) e.now).known
        (value_of (at_line line (scope_with unit.now layout.now parameters.now)) e.now).operand }
{
    match scale_of_operand(unit, e) {
        Ok(scale) => {
            let known = put_expression(out, unit, layout, parameters, line, e, scale);
            Operand { scale, known }
        }
        Err(_) => {
            out.fail();
            Operand {
                scale: 0,
                known: None,
            }
        }
    }
}

/// Adds the orders that compute an expression from its parts, and tells its value where it is known.
#[cycle(tree)]
fn put_computed(
    out: &mut Output,
    unit: &Unit,
    layout: &Layout,
    parameters: &[Param],
    line: u16,
    e: &Expr,
    scale: u8,
) -> Option<i16>
    ensures orders { Adds (computed_piece (at_line line (scope_with unit.now layout.now parameters.now)) e.now scale) out.old out.new }
    ensures known { out.new.failed ≡ false → result ≡ (value_of (at_line line (scope_with unit.now layout.now parameters.now)) e.now).known scale }
{
    match e {
        Expr::Num(number) => put_number(out, number, scale),
        Expr::Const(z) => {
            out.put(Order::Const(z.cast_unsigned()));
            put_rescale(out, line, 0, scale);
            rescaled_to(Some(*z), 0, scale)
        }
        Expr::Text(i) => {
            out.put(item(layout, *i, 0));
            put_rescale(out, line, 0, scale);
            None
        }
        Expr::Read(reference) => {
            let reference = reference.get();
            put_address(out, unit, layout, parameters, line, &reference.at);
            put_load(out, &reference.field);
            put_rescale(out, line, reference.f, scale);
            None
        }
        Expr::Call(target, arguments) => {
            put_arguments(out, unit, layout, parameters, line, arguments.as_slice());
            put_call(out, unit, layout, parameters, line, target);
            put_rescale(out, line, answer_scale(unit, target), scale);
            None
        }
        Expr::Force(forced, a) => {
            let x = put_expression(out, unit, layout, parameters, line, a.get(), *forced);
            put_rescale(out, line, *forced, scale);
            rescaled_to(x, *forced, scale)
        }
        Expr::Locate(reference) => {
            put_address(out, unit, layout, parameters, line, &reference.get().at);
            put_rescale(out, line, 0, scale);
            None
        }
        Expr::Bits(t, b, a) => {
            let x = put_operand(out, unit, layout, parameters, line, a.get());
            out.put(Order::Take { t: *t, b: *b });
            put_rescale(out, line, 0, scale);
            rescaled_to(bits_of(x.known, *t, *b), 0, scale)
        }
        Expr::Logic(op, a, b) => {
            let x = put_operand(out, unit, layout, parameters, line, a.get());
            out.put(Order::Save);
            let y = put_operand(out, unit, layout, parameters, line, b.get());
            out.put(logic(*op));
            put_rescale(out, line, 0, scale);
            rescaled_to(combined(*op, x.known, y.known), 0, scale)
        }
        Expr::Sum(a, b) => {
            let x = put_expression(out, unit, layout, parameters, line, a.get(), scale);
            out.put(Order::Save);
            let y = put_expression(out, unit, layout, parameters, line, b.get(), scale);
            out.put(Order::Add(line));
            sum_of(x, y)
        }
        Expr::Less(a, b) => {
            let x = put_expression(out, unit, layout, parameters, line, a.get(), scale);
            out.put(Order::Save);
            let y = put_expression(out, unit, layout, parameters, line, b.get(), scale);
            out.put(Order::Sub(line));
            difference_of(x, y)
        }
        Expr::Minus(a) => {
            let x = put_expression(out, unit, layout, parameters, line, a.get(), scale);
            out.put(Order::Neg(line));
            negative_of(x)
        }
        Expr::Times(a, b) => {
            let x = put_operand(out, unit, layout, parameters, line, a.get());
            out.put(Order::Save);
            let y = put_operand(out, unit, layout, parameters, line, b.get());
            let power = power_of_product(scale, x.scale, y.scale);
            out.put(Order::Mul { power, line });
            product_of(x.known, y.known, power)
        }
        Expr::Over(a, b) => {
            let x = put_operand(out, unit, layout, parameters, line, a.get());
            out.put(Order::Save);
            let y = put_operand(out, unit, layout, parameters, line, b.get());
            let power = power_of_quotient(scale, x.scale, y.scale);
            out.put(Order::Div { power, line });
            quotient_of(x.known, y.known, power)
        }
        Expr::Choice(condition, a, b) => {
            let end = out.reserve();
            let other = out.reserve();
            put_condition(
                out,
                unit,
                layout,
                parameters,
                line,
                condition.get(),
                false,
                other,
            );
            put_expression(out, unit, layout, parameters, line, a.get(), scale);
            out.put(Order::Jump(end));
            out.put_mark(other);
            put_expression(out, unit, layout, parameters, line, b.get(), scale);
            out.put_mark(end);
            None
        }
    }
}

/// Adds the orders that jump to the mark where the condition's truth is `when`.
#[cycle(tree)]
pub fn put_condition(
    out: &mut Output,
    unit: &Unit,
    layout: &Layout,
    parameters: &[Param],
    line: u16,
    condition: &Cond,
    when: bool,
    mark: u32,
)
    ensures { Adds (condition_piece (at_line line (scope_with unit.now layout.now parameters.now)) condition.now when mark) out.old out.new }
{
    match condition {
        Cond::Cmp(op, a, b) => {
            let f = natural_scale(unit, a).max(natural_scale(unit, b));
            put_expression(out, unit, layout, parameters, line, a, f);
            out.put(Order::Save);
            put_expression(out, unit, layout, parameters, line, b, f);
            out.put(Order::JumpIf {
                comparator: comparator(*op, when),
                mark,
            });
        }
        Cond::And(first, second) => {
            let end = out.reserve();
            put_condition(
                out,
                unit,
                layout,
                parameters,
                line,
                first.get(),
                false,
                pick(when, end, mark),
            );
            put_condition(
                out,
                unit,
                layout,
                parameters,
                line,
                second.get(),
                when,
                mark,
            );
            out.put_mark(end);
        }
        Cond::Or(first, second) => {
            let end = out.reserve();
            put_condition(
                out,
                unit,
                layout,
                parameters,
                line,
                first.get(),
                true,
                pick(when, mark, end),
            );
            put_condition(
                out,
                unit,
                layout,
                parameters,
                line,
                second.get(),
                when,
                mark,
            );
            out.put_mark(end);
        }
    }
}

/// The item of a reference with indexes; 0 for others.
fn item_of(spot: &Spot) -> u32
    ensures { (s : Scope) → result ≡ known_item s (pieces_of s spot.now) }
{
    match spot {
        Spot::One(i, ..) | Spot::Two(i, ..) | Spot::Word(i, ..) | Spot::Elem(i, ..) => *i,
        Spot::Direct(_) | Spot::Through(_) | Spot::ParamArray(..) | Spot::Bare(_) => 0,
    }
}

/// Adds the orders that put the address of a reference, one where its word is known.
#[cycle(tree)]
pub fn put_address(
    out: &mut Output,
    unit: &Unit,
    layout: &Layout,
    parameters: &[Param],
    line: u16,
    spot: &Spot,
)
    ensures { Adds (spot_piece (at_line line (scope_with unit.now layout.now parameters.now)) spot.now) out.old out.new }
{
    let extent = out.extent();
    match put_indexes(out, unit, layout, parameters, line, spot) {
        Some(word) => {
            out.retract(extent);
            out.put(item(layout, item_of(spot), word));
        }
        None => put_form(out, unit.bounds, layout, line, spot),
    }
}

/// Adds the orders of an index and of its comparison with its bounds, and tells how far it is above the lower one where that is known.
#[cycle(tree)]
fn put_index(
    out: &mut Output,
    unit: &Unit,
    layout: &Layout,
    parameters: &[Param],
    line: u16,
    e: &Expr,
    lower: i16,
    upper: i64,
) -> Option<u16>
    ensures orders { Adds (followed_by (expression_piece (at_line line (scope_with unit.now layout.now parameters.now)) e.now 0)
        (plain (bounds_orders unit.now.bounds line lower upper))) out.old out.new }
    ensures known { out.new.failed ≡ false → result ≡ from_lower unit.now.bounds lower upper
        ((value_of (at_line line (scope_with unit.now layout.now parameters.now)) e.now).known 0) }
{
    let index = put_expression(out, unit, layout, parameters, line, e, 0);
    put_bounds(out, unit, line, lower, upper);
    above(unit.bounds, lower, upper, index)
}

/// The last of so many that are counted from 0.
fn last_of(count: u32) -> i64
    ensures { result ≡ pos count -ℤ pos 1 }
{
    i64::from(count) - 1
}

/// Adds the orders that put the indexes of a reference, and tells the word of its item where that is known.
#[cycle(tree)]
fn put_indexes(
    out: &mut Output,
    unit: &Unit,
    layout: &Layout,
    parameters: &[Param],
    line: u16,
    spot: &Spot,
) -> Option<u16>
    ensures orders { Adds (indexes_of (at_line line (scope_with unit.now layout.now parameters.now)) spot.now) out.old out.new }
    ensures known { out.new.failed ≡ false → result ≡ known_word (at_line line (scope_with unit.now layout.now parameters.now))
        (pieces_of (at_line line (scope_with unit.now layout.now parameters.now)) spot.now) }
{
    match spot {
        Spot::Direct(_) | Spot::Through(_) => None,
        Spot::One(i, lower, upper, e) => {
            let upper = i64::from(*upper);
            let index = put_index(out, unit, layout, parameters, line, e, *lower, upper);
            word_of_element(span(layout, *i), index)
        }
        Spot::Two(i, l1, u1, l2, u2, width, a, b) => {
            let (u1, u2) = (i64::from(*u1), i64::from(*u2));
            let row = put_index(out, unit, layout, parameters, line, a, *l1, u1);
            out.put(Order::Save);
            let column = put_index(out, unit, layout, parameters, line, b, *l2, u2);
            word_of_two(span(layout, *i), *width, row, column)
        }
        Spot::Word(i, parameter, words, e) => {
            let last = last_of(*words);
            let index = put_index(out, unit, layout, parameters, line, e, 0, last);
            word_of_element(span_of_table(layout, *parameter, *i), index)
        }
        Spot::Elem(i, parameter, width, entries, word, e) => {
            let count = u32::from(*entries);
            let last = last_of(count);
            let entry = put_index(out, unit, layout, parameters, line, e, 0, last);
            let span = span_of_table(layout, *parameter, *i);
            word_of_entry(span, *width, *word, entry)
        }
        Spot::ParamArray(_, e) | Spot::Bare(e) => {
            put_expression(out, unit, layout, parameters, line, e, 0);
            None
        }
    }
}

/// The order that puts a label on the stack.
fn label_out(goal: Goal) -> Order
    ensures { (s : Scope) → result ≡ label_order s goal }
{
    match goal {
        Goal::Own(label) => Order::LabelOut(label),
        Goal::Common(descriptor) => Order::LabelCommon(descriptor),
    }
}

/// Adds the orders that put an argument on the stack.
#[cycle(tree)]
pub fn put_argument(
    out: &mut Output,
    unit: &Unit,
    layout: &Layout,
    parameters: &[Param],
    line: u16,
    argument: &Arg,
)
    ensures { Adds (argument_piece (at_line line (scope_with unit.now layout.now parameters.now)) argument.now) out.old out.new }
{
    match argument {
        Arg::Value(e, scale) => {
            put_expression(out, unit, layout, parameters, line, e, *scale);
            out.put(Order::Save);
        }
        Arg::Place(reference) => {
            put_address(out, unit, layout, parameters, line, &reference.at);
            out.put(Order::Save);
        }
        Arg::Array(i, lower) => {
            let less = Order::IndexLess {
                lower: *lower,
                line,
            };
            out.put_three(item(layout, *i, 0), less, Order::Save);
        }
        Arg::Same(i) => out.put_three(item(layout, *i, 0), Order::Load, Order::Save),
        Arg::Base(i) => out.put_two(item(layout, *i, 0), Order::Save),
        Arg::Goal(goal) => out.put(label_out(*goal)),
        Arg::Switch(switch) => out.put(Order::SwitchOut(*switch)),
        Arg::CommonSwitch(descriptor) => out.put(Order::SwitchCommon(*descriptor)),
        Arg::Proc(procedure) => out.put(Order::ProcOut(*procedure)),
        Arg::CommonProc(descriptor) => out.put(Order::ProcCommon(*descriptor)),
        Arg::Special(control) => match place_of_control(parameters, *control) {
            Ok(place) => out.put(Order::SpecialOut(place)),
            Err(_) => out.fail(),
        },
    }
}

/// Adds the orders that put the arguments of a call, the first one first.
#[cycle(tree)]
pub fn put_arguments(
    out: &mut Output,
    unit: &Unit,
    layout: &Layout,
    parameters: &[Param],
    line: u16,
    arguments: &[Arg],
)
    ensures { Adds (sequence (map (argument_piece (at_line line (scope_with unit.now layout.now parameters.now))) arguments.now)) out.old out.new }
{
    for argument in arguments {
        put_argument(out, unit, layout, parameters, line, argument);
    }
}
