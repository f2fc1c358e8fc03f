//! The elements of a FOR.
ghost use Rattle.std.specs.Prelude.{◌≡◌, length, false, OnOk, IfOk, List as Sequence};
ghost use Rattle.cw_order.specs.declared.order.Order.{Order as OrderModel};
ghost use Rattle.cw_gen_expr.specs.Pieces.{plain};
ghost use Rattle.cw_gen_expr.specs.declared.output.Output.{Output as OutputModel};
ghost use Rattle.cw_gen_expr.specs.Output.{Adds};
ghost use Rattle.cw_gen_expr.specs.ReferenceExpressions.{scope_with, at_line};
ghost use Rattle.cw_gen_unit.specs.ReferenceStatements.{while_values, step_values, first_turn, way_mark, element_piece, elements_piece, element_ways};
ghost use Rattle.cw_gen_unit.specs.BegunLoops.{values_with};

use crate::loops::{put_bump, put_keep, put_number, put_set, put_test, put_turn};
use cw_gen_expr::output::Output;
use cw_gen_expr::tree::{put_condition, put_expression};
use cw_order::Order;
use cw_unit::layout::Layout;
use cw_unit::unit::{Cond, Expr, Felem, Param, Unit};
use cw_word::{List, NoMemory};
use std::alloc::Global;

/// The value of a WHILE element and its test.
fn put_while(
    out: &mut Output,
    unit: &Unit,
    layout: &Layout,
    parameters: &[Param],
    line: u16,
    looped: u32,
    scale: u8,
    body: u32,
    next: u32,
    number: u16,
    e: &Expr,
    condition: &Cond,
)
    ensures { Adds (while_values (at_line line (scope_with unit.now layout.now parameters.now)) looped scale body next
        number e.now condition.now) out.old out.new }
{
    put_number(out, layout, looped, number);
    put_expression(out, unit, layout, parameters, line, e, scale);
    put_set(out, layout, line, looped);
    put_condition(out, unit, layout, parameters, line, condition, false, next);
    out.put(Order::Jump(body));
}

/// The three values of a STEP element, up to what follows the limit.
fn put_values(
    out: &mut Output,
    unit: &Unit,
    layout: &Layout,
    parameters: &[Param],
    line: u16,
    looped: u32,
    scale: u8,
    number: u16,
    first: &Expr,
    step: &Expr,
    limit: &Expr,
)
    ensures { (os : Sequence OrderModel) → (z : OutputModel) → Adds (plain os) out.new z
        → Adds (values_with (at_line line (scope_with unit.now layout.now parameters.now)) looped scale number first.now step.now limit.now os) out.old z }
{
    put_number(out, layout, looped, number);
    put_expression(out, unit, layout, parameters, line, first, scale);
    put_set(out, layout, line, looped);
    put_expression(out, unit, layout, parameters, line, step, scale);
    put_keep(out, layout, looped, 1);
    put_expression(out, unit, layout, parameters, line, limit, scale);
    put_keep(out, layout, looped, 2);
}

/// The values of a STEP element of several elements, and the jump to its turn.
fn put_step(
    out: &mut Output,
    unit: &Unit,
    layout: &Layout,
    parameters: &[Param],
    line: u16,
    looped: u32,
    scale: u8,
    turn: u32,
    number: u16,
    first: &Expr,
    step: &Expr,
    limit: &Expr,
)
    ensures { Adds (step_values (at_line line (scope_with unit.now layout.now parameters.now)) looped scale turn number
        first.now step.now limit.now) out.old out.new }
{
    put_values(
        out, unit, layout, parameters, line, looped, scale, number, first, step, limit,
    );
    out.put(Order::Jump(turn));
}

/// The values of the one STEP element of a FOR, and its first turn, which goes to the end where the first value is past the limit.
pub fn put_first_turn(
    out: &mut Output,
    unit: &Unit,
    layout: &Layout,
    parameters: &[Param],
    line: u16,
    looped: u32,
    scale: u8,
    end: u32,
    first: &Expr,
    step: &Expr,
    limit: &Expr,
)
    ensures { Adds (first_turn (at_line line (scope_with unit.now layout.now parameters.now)) looped scale first.now
        step.now limit.now end) out.old out.new }
{
    put_values(
        out, unit, layout, parameters, line, looped, scale, 1, first, step, limit,
    );
    put_test(out, layout, line, looped, end);
}

/// Adds the orders of an element, and answers the mark where the body's end goes on with it.
fn put_element(
    out: &mut Output,
    unit: &Unit,
    layout: &Layout,
    parameters: &[Param],
    line: u16,
    looped: u32,
    scale: u8,
    set: u32,
    body: u32,
    number: u16,
    element: &Felem,
) -> u32
    ensures way { out.new.failed ≡ false → result ≡ way_mark element.now (length out.old.marks.items) }
    ensures orders { Adds (element_piece (at_line line (scope_with unit.now layout.now parameters.now)) looped scale set body number element.now) out.old out.new }
{
    match element {
        Felem::One(e) => {
            let next = out.reserve();
            put_number(out, layout, looped, number);
            put_expression(out, unit, layout, parameters, line, e, scale);
            out.put(Order::Jump(set));
            out.put_mark(next);
            next
        }
        Felem::While(e, condition) => {
            let own = out.reserve();
            out.put_mark(own);
            let next = out.reserve();
            put_while(
                out, unit, layout, parameters, line, looped, scale, body, next, number, e,
                condition,
            );
            out.put_mark(next);
            own
        }
        Felem::Step(first, step, limit) => {
            let turn = out.reserve();
            let bump = out.reserve();
            put_step(
                out, unit, layout, parameters, line, looped, scale, turn, number, first, step,
                limit,
            );
            out.put_mark(bump);
            put_bump(out, layout, line, looped);
            out.put_mark(turn);
            put_turn(out, layout, line, looped, body);
            bump
        }
    }
}

/// Adds the orders of the elements of a FOR, the first one first, and answers the marks where the body's end goes on with them.
/// NoMemory comes where there are over 65,535.
pub fn put_elements(
    alloc: Global,
    out: &mut Output,
    unit: &Unit,
    layout: &Layout,
    parameters: &[Param],
    line: u16,
    looped: u32,
    scale: u8,
    set: u32,
    body: u32,
    elements: &[Felem],
) -> Result<List<u32>, NoMemory>
    ensures ways { IfOk result (λ ways. out.new.failed ≡ false
        → ways ≡ element_ways (at_line line (scope_with unit.now layout.now parameters.now)) looped scale set body 1
        elements.now (length out.old.orders) (length out.old.marks.items)) }
    ensures orders { OnOk result (Adds (elements_piece (at_line line (scope_with unit.now layout.now parameters.now)) looped scale set body 1 elements.now) out.old out.new) }
{
    let mut ways = List::new(alloc);
    let mut number: u16 = 0;
    for element in elements {
        number = number.checked_add(1).ok_or(NoMemory)?;
        let way = put_element(
            out, unit, layout, parameters, line, looped, scale, set, body, number, element,
        );
        ways.push(way)?;
    }
    Ok(ways)
}
