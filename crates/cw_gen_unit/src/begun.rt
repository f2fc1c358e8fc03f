//! A FOR up to the mark of its body, and behind its body.
ghost use Rattle.std.specs.Prelude.{◌≡◌, IfOk};
ghost use Rattle.cw_gen_expr.specs.Pieces.{plain};
ghost use Rattle.cw_gen_expr.specs.Output.{Adds};
ghost use Rattle.cw_gen_expr.specs.ReferenceExpressions.{Scope, scope_with, at_line};
ghost use Rattle.cw_gen_unit.specs.ReferenceStatements.{loop_place as spec_loop_place, simple_beginning, first_turn, stepped_piece};
ghost use Rattle.cw_gen_unit.specs.ReferenceStatements.{ring_piece, elements_loop, only_step as spec_only_step, begun_loop};
ghost use Rattle.cw_gen_unit.specs.SimpleLoops.{simple_step as spec_simple_step};
ghost use Rattle.cw_gen_unit.specs.BegunLoops.{way_orders, Begins, Ends};

use crate::elements::{put_elements, put_first_turn};
use crate::loops::{put_keep, put_set};
use crate::simple::{SimpleStep, only_step, simple_step};
use crate::simple_orders::put_simple_beginning;
use cw_gen_expr::orders::{home, item};
use cw_gen_expr::output::Output;
use cw_gen_expr::tree::put_address;
use cw_order::{Order, Place};
use cw_unit::layout::{Layout, Sort};
use cw_unit::unit::{Expr, Felem, Param, Ref, Unit};
use cw_word::{List, NoMemory};
use std::alloc::Global;

/// The way on behind the body.
#[derive(Drop)]
pub enum WayOn {
    /// To the mark of the element at work.
    Ring(List<u32>),
    /// By the step of the one element, to the mark of the body.
    Step(u32),
}

/// A loop whose beginning is made: the mark of its end, and the way on behind its body.
#[derive(Drop)]
pub struct Begun {
    pub end: u32,
    pub way: WayOn,
}

/// The place of the words of a loop.
fn loop_place(layout: &Layout, looped: u32) -> Place
    ensures { result ≡ spec_loop_place layout.now looped }
{
    let (family, offset) = home(layout, looped);
    match layout.families.as_slice().get(family as usize) {
        Some(found) => match found.sort {
            Sort::Frame(base) => Place::Frame(base.wrapping_add(offset)),
            _ => Place::Word { family, offset },
        },
        None => Place::Word { family, offset },
    }
}

/// Begins a loop without the library.
fn begin_simple(out: &mut Output, layout: &Layout, line: u16, looped: u32, x: SimpleStep) -> Begun
    ensures { (s : Scope) → s.layout ≡ layout.now → s.line ≡ line
        → Begins layout.now line looped (stepped_piece s looped (λ end. plain (simple_beginning layout.now looped x end))) result out.old out.new }
{
    let end = out.reserve();
    let start = out.reserve();
    put_simple_beginning(out, layout, looped, x, end);
    out.put_mark(start);
    Begun {
        end,
        way: WayOn::Step(start),
    }
}

/// Begins a loop of one STEP element, whose address is kept.
fn begin_step(
    out: &mut Output,
    unit: &Unit,
    layout: &Layout,
    parameters: &[Param],
    line: u16,
    looped: u32,
    scale: u8,
    first: &Expr,
    step: &Expr,
    limit: &Expr,
) -> Begun
    ensures { Begins layout.now line looped
        (stepped_piece (at_line line (scope_with unit.now layout.now parameters.now)) looped
        (first_turn (at_line line (scope_with unit.now layout.now parameters.now)) looped scale first.now
        step.now limit.now)) result out.old out.new }
{
    let end = out.reserve();
    let start = out.reserve();
    put_first_turn(
        out, unit, layout, parameters, line, looped, scale, end, first, step, limit,
    );
    out.put_mark(start);
    Begun {
        end,
        way: WayOn::Step(start),
    }
}

/// Begins a loop of other elements.
fn begin_ring(
    alloc: Global,
    out: &mut Output,
    unit: &Unit,
    layout: &Layout,
    parameters: &[Param],
    line: u16,
    looped: u32,
    scale: u8,
    elements: &[Felem],
) -> Result<Begun, NoMemory>
    ensures { IfOk result (λ begun. Begins layout.now line looped
        (ring_piece (at_line line (scope_with unit.now layout.now parameters.now)) looped scale elements.now) begun out.old out.new) }
{
    let end = out.reserve();
    let start = out.reserve();
    let set = out.reserve();
    let ways = put_elements(
        alloc, out, unit, layout, parameters, line, looped, scale, set, start, elements,
    )?;
    out.put(Order::Jump(end));
    out.put_mark(set);
    put_set(out, layout, line, looped);
    out.put_mark(start);
    Ok(Begun {
        end,
        way: WayOn::Ring(ways),
    })
}

/// Begins a loop by its elements.
fn begin_elements(
    alloc: Global,
    out: &mut Output,
    unit: &Unit,
    layout: &Layout,
    parameters: &[Param],
    line: u16,
    looped: u32,
    scale: u8,
    elements: &[Felem],
) -> Result<Begun, NoMemory>
    ensures { IfOk result (λ begun. Begins layout.now line looped
        (elements_loop (at_line line (scope_with unit.now layout.now parameters.now))
        (spec_only_step elements.now) looped scale elements.now) begun out.old out.new) }
{
    match only_step(elements) {
        Some((first, step, limit)) => Ok(begin_step(
            out, unit, layout, parameters, line, looped, scale, first, step, limit,
        )),
        None => begin_ring(
            alloc, out, unit, layout, parameters, line, looped, scale, elements,
        ),
    }
}

/// Begins a loop behind the start of its statement, up to the mark of its body.
pub fn begin_loop(
    alloc: Global,
    out: &mut Output,
    unit: &Unit,
    layout: &Layout,
    parameters: &[Param],
    line: u16,
    looped: u32,
    reference: &Ref,
    elements: &[Felem],
) -> Result<Begun, NoMemory>
    ensures { IfOk result (λ begun. Begins layout.now line looped
        (begun_loop (at_line line (scope_with unit.now layout.now parameters.now))
        (spec_simple_step layout.now looped reference.now elements.now) looped reference.now elements.now) begun out.old out.new) }
{
    match simple_step(layout, looped, reference, elements)? {
        Some(x) => Ok(begin_simple(out, layout, line, looped, x)),
        None => {
            put_address(out, unit, layout, parameters, line, &reference.at);
            put_keep(out, layout, looped, 0);
            begin_elements(
                alloc,
                out,
                unit,
                layout,
                parameters,
                line,
                looped,
                reference.f,
                elements,
            )
        }
    }
}

/// Adds the orders behind the body.
fn put_way(out: &mut Output, layout: &Layout, line: u16, looped: u32, way: WayOn)
    ensures { Adds (plain (way_orders layout.now line looped way)) out.old out.new }
{
    match way {
        WayOn::Ring(ways) => {
            out.put_three(item(layout, looped, 3), Order::Load, Order::LoopWay(ways))
        }
        WayOn::Step(start) => out.put(Order::NextStep {
            looped: loop_place(layout, looped),
            line,
            mark: start,
        }),
    }
}

/// Ends a loop behind its body.
pub fn end_loop(out: &mut Output, layout: &Layout, line: u16, looped: u32, begun: Begun)
    ensures { Ends layout.now line looped begun out.old out.new }
{
    let end = begun.end;
    put_way(out, layout, line, looped, begun.way);
    out.put_mark(end);
}
