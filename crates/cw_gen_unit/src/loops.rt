//! The orders of the words of a loop.
ghost use Rattle.std.specs.Prelude.{◌∷◌, []};
ghost use Rattle.cw_order.specs.declared.order.Order.TheVariants as order;
ghost use Rattle.cw_gen_expr.specs.Pieces.{plain};
ghost use Rattle.cw_gen_expr.specs.Output.{Adds};
ghost use Rattle.cw_gen_expr.specs.ReferenceExpressions.{item_order};
ghost use Rattle.cw_gen_unit.specs.ReferenceStatements.{keep_orders, number_orders, set_orders, bump_orders, turn_piece};

use cw_gen_expr::orders::item;
use cw_gen_expr::output::Output;
use cw_order::Order;
use cw_unit::layout::Layout;

/// Keeps the top operand in a word of a loop.
pub fn put_keep(out: &mut Output, layout: &Layout, looped: u32, word: u16)
    ensures { Adds (plain (keep_orders layout.now looped word)) out.old out.new }
{
    out.put_three(Order::Save, item(layout, looped, word), Order::Store);
}

/// Writes the number of an element.
pub fn put_number(out: &mut Output, layout: &Layout, looped: u32, number: u16)
    ensures { Adds (plain (number_orders layout.now looped number)) out.old out.new }
{
    out.put(Order::Const(number));
    put_keep(out, layout, looped, 3);
}

/// Sets the control variable through the first word of the loop.
pub fn put_set(out: &mut Output, layout: &Layout, line: u16, looped: u32)
    ensures { Adds (plain (set_orders layout.now line looped)) out.old out.new }
{
    out.put_three(
        Order::Save,
        item(layout, looped, 0),
        Order::SetVariable(line),
    );
}

/// Adds the step to the control variable.
pub fn put_bump(out: &mut Output, layout: &Layout, line: u16, looped: u32)
    ensures { Adds (plain (bump_orders layout.now line looped)) out.old out.new }
{
    out.put_two(item(layout, looped, 0), Order::AddStep(line));
}

/// The test of the control variable, which goes on at a mark where it is past the limit.
pub fn put_test(out: &mut Output, layout: &Layout, line: u16, looped: u32, mark: u32)
    ensures { Adds (plain (item_order layout.now looped 0 ∷ order.PutVariable line ∷ order.Exhausted mark ∷ [])) out.old out.new }
{
    out.put_three(
        item(layout, looped, 0),
        Order::PutVariable(line),
        Order::Exhausted(mark),
    );
}

/// The test of a STEP element, which jumps to the body or goes on behind it.
pub fn put_turn(out: &mut Output, layout: &Layout, line: u16, looped: u32, body: u32)
    ensures { Adds (turn_piece layout.now line looped body) out.old out.new }
{
    let next = out.reserve();
    put_test(out, layout, line, looped, next);
    out.put(Order::Jump(body));
    out.put_mark(next);
}
