//! The orders of a FOR that begins without the library.
ghost use Rattle.std.specs.Prelude.{◌≡◌, ◌∷◌, []};
ghost use Rattle.cw_word.specs.Word.{unsigned};
ghost use Rattle.cw_order.specs.declared.order.Order.TheVariants as order;
ghost use Rattle.cw_unit.specs.Operation.{is_past as spec_is_past};
ghost use Rattle.cw_gen_expr.specs.Pieces.{plain};
ghost use Rattle.cw_gen_expr.specs.Output.{Adds};
ghost use Rattle.cw_gen_expr.specs.ReferenceExpressions.{number_order};
ghost use Rattle.cw_gen_unit.specs.ReferenceStatements.{value_orders, limit_orders, past_orders, turn_orders, simple_orders, simple_beginning};

use crate::loops::{put_keep, put_number};
use crate::simple::{Simple, SimpleStep};
use cw_gen_expr::orders::item;
use cw_gen_expr::output::Output;
use cw_order::{Comparator, Order};
use cw_unit::layout::Layout;

/// Puts a number.
fn put_word(out: &mut Output, word: i16)
    ensures { Adds (plain (number_order (unsigned word) ∷ [])) out.old out.new }
{
    out.put(Order::Const(word.cast_unsigned()));
}

/// Puts the step.
fn put_step(out: &mut Output, x: SimpleStep)
    ensures { Adds (plain (number_order (unsigned x.step) ∷ [])) out.old out.new }
{
    put_word(out, x.step);
}

/// Puts a simple value.
fn put_value(out: &mut Output, layout: &Layout, value: Simple)
    ensures { Adds (plain (value_orders layout.now value)) out.old out.new }
{
    match value {
        Simple::Number(word) => put_word(out, word),
        Simple::Item(read) => out.put_two(item(layout, read, 0), Order::Load),
    }
}

/// Whether the control variable is past its limit.
fn is_past(step: i16, variable: i16, limit: i16) -> bool
    ensures { result ≡ spec_is_past step variable limit }
{
    if step > 0 {
        limit < variable
    } else if step < 0 {
        variable < limit
    } else {
        false
    }
}

/// Compares the control variable with the limit, and goes to the end where it is past it.
fn put_limit(
    out: &mut Output,
    layout: &Layout,
    looped: u32,
    variable: u32,
    comparator: Comparator,
    end: u32,
)
    ensures { Adds (plain (limit_orders layout.now looped variable (order.JumpIf comparator end))) out.old out.new }
{
    let jump = Order::JumpIf {
        comparator,
        mark: end,
    };
    out.put_three(item(layout, variable, 0), Order::Load, Order::Save);
    out.put_three(item(layout, looped, 2), Order::Load, jump);
}

/// The same by the sign of the step.
fn put_past(out: &mut Output, layout: &Layout, looped: u32, variable: u32, step: i16, end: u32)
    ensures { Adds (plain (past_orders layout.now looped variable step end)) out.old out.new }
{
    if step > 0 {
        put_limit(out, layout, looped, variable, Comparator::Greater, end)
    } else if step < 0 {
        put_limit(out, layout, looped, variable, Comparator::Less, end)
    }
}

/// The first turn, which goes to the end where the first value is past the limit.
fn put_simple_turn(out: &mut Output, layout: &Layout, looped: u32, x: SimpleStep, end: u32)
    ensures { Adds (plain (turn_orders layout.now looped x.variable x.first x.step x.limit end)) out.old out.new }
{
    match x.first {
        Simple::Number(first) => match x.limit {
            Simple::Number(limit) => {
                if is_past(x.step, first, limit) {
                    out.put(Order::Jump(end))
                }
            }
            Simple::Item(_) => put_past(out, layout, looped, x.variable, x.step, end),
        },
        Simple::Item(_) => put_past(out, layout, looped, x.variable, x.step, end),
    }
}

/// The words of the loop and the control variable before the first turn.
fn put_simple_words(out: &mut Output, layout: &Layout, looped: u32, x: SimpleStep)
    ensures { Adds (plain (simple_orders layout.now looped x)) out.old out.new }
{
    out.put(item(layout, x.variable, 0));
    put_keep(out, layout, looped, 0);
    put_number(out, layout, looped, 1);
    put_value(out, layout, x.first);
    put_keep(out, layout, x.variable, 0);
    put_step(out, x);
    put_keep(out, layout, looped, 1);
    put_value(out, layout, x.limit);
    put_keep(out, layout, looped, 2);
}

/// The beginning of the loop.
pub fn put_simple_beginning(out: &mut Output, layout: &Layout, looped: u32, x: SimpleStep, end: u32)
    ensures { Adds (plain (simple_beginning layout.now looped x end)) out.old out.new }
{
    put_simple_words(out, layout, looped, x);
    put_simple_turn(out, layout, looped, x, end);
}
