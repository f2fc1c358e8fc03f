//! Expressions, conditions, references and arguments.
ghost use Rattle.std.specs.Prelude.{◌≡◌, ◌∷◌, [], ◌++◌, map, OnOk, OnErr, IfOk};
ghost use Rattle.cw_gen_expr.specs.Pieces.{plain, sequence};
ghost use Rattle.cw_gen_expr.specs.Output.{made, added};
ghost use Rattle.cw_gen_expr.specs.UnitTables.{first_mark};
ghost use Rattle.cw_gen_expr.specs.ReferenceExpressions.{scope_with, at_line, value_of, expression_piece, condition_piece, argument_piece};
ghost use Rattle.cw_gen_expr.specs.ReferenceExpressions.{spot_piece, rescale_orders, load_orders, call_order};

use crate::forms::{put_call, put_load, put_rescale};
use crate::output::Output;
use crate::tree::{put_address, put_argument, put_arguments, put_condition, put_expression};
use cw_order::Order;
use cw_unit::layout::Layout;
use cw_unit::unit::{Arg, Cond, Expr, Field, Param, Spot, Target, Unit};
use cw_word::{List, NoMemory};
use std::alloc::Global;
use std::mem;

/// Adds what takes a word from one scale to another.
pub fn emit_rescale(out: &mut Output, line: u16, from: u8, to: u8) -> Result<(), NoMemory>
    ensures { OnOk result (made out.new ≡ added (plain (rescale_orders line from to)) (made out.old)) }
{
    put_rescale(out, line, from, to);
    out.outcome()
}

/// Adds the order that puts the word at an address, or a part of it.
pub fn emit_load(out: &mut Output, field: &Option<Field>) -> Result<(), NoMemory>
    ensures { OnOk result (made out.new ≡ added (plain (load_orders field.now)) (made out.old)) }
{
    put_load(out, field);
    out.outcome()
}

/// Adds the order that calls.
pub fn emit_call(
    out: &mut Output,
    unit: &Unit,
    layout: &Layout,
    parameters: &[Param],
    line: u16,
    target: &Target,
) -> Result<(), NoMemory>
    ensures { OnOk result (made out.new ≡ added
        (plain (call_order (at_line line (scope_with unit.now layout.now parameters.now)) target.now ∷ []))
        (made out.old)) }
{
    put_call(out, unit, layout, parameters, line, target);
    out.outcome()
}

/// Adds the orders that put the value of an expression at a scale, one where the value is known, and tells it.
pub fn emit_expression(
    out: &mut Output,
    unit: &Unit,
    layout: &Layout,
    parameters: &[Param],
    line: u16,
    e: &Expr,
    scale: u8,
) -> Result<Option<i16>, NoMemory>
    ensures orders { OnOk result (made out.new
        ≡ added (expression_piece (at_line line (scope_with unit.now layout.now parameters.now)) e.now scale)
        (made out.old)) }
    ensures known { IfOk result (λ k. k ≡ (value_of (at_line line (scope_with unit.now layout.now parameters.now)) e.now).known scale) }
{
    let known = put_expression(out, unit, layout, parameters, line, e, scale);
    out.outcome()?;
    Ok(known)
}

/// Adds the orders that jump to the mark where the condition's truth is `when`.
pub fn emit_condition(
    out: &mut Output,
    unit: &Unit,
    layout: &Layout,
    parameters: &[Param],
    line: u16,
    condition: &Cond,
    when: bool,
    mark: u32,
) -> Result<(), NoMemory>
    ensures { OnOk result (made out.new ≡ added
        (condition_piece (at_line line (scope_with unit.now layout.now parameters.now)) condition.now when mark)
        (made out.old)) }
{
    put_condition(out, unit, layout, parameters, line, condition, when, mark);
    out.outcome()
}

/// Adds the orders that put the address of a reference, one where its word is known.
pub fn emit_address(
    out: &mut Output,
    unit: &Unit,
    layout: &Layout,
    parameters: &[Param],
    line: u16,
    spot: &Spot,
) -> Result<(), NoMemory>
    ensures { OnOk result (made out.new ≡ added (spot_piece (at_line line (scope_with unit.now layout.now parameters.now)) spot.now) (made out.old)) }
{
    put_address(out, unit, layout, parameters, line, spot);
    out.outcome()
}

/// Adds the orders that put an argument on the stack.
pub fn emit_argument(
    out: &mut Output,
    unit: &Unit,
    layout: &Layout,
    parameters: &[Param],
    line: u16,
    argument: &Arg,
) -> Result<(), NoMemory>
    ensures { OnOk result (made out.new ≡ added (argument_piece (at_line line (scope_with unit.now layout.now parameters.now)) argument.now) (made out.old)) }
{
    put_argument(out, unit, layout, parameters, line, argument);
    out.outcome()
}

/// Adds the orders that put the arguments of a call, the first one first.
pub fn emit_arguments(
    out: &mut Output,
    unit: &Unit,
    layout: &Layout,
    parameters: &[Param],
    line: u16,
    arguments: &[Arg],
) -> Result<(), NoMemory>
    ensures { OnOk result (made out.new ≡ added
        (sequence (map (argument_piece (at_line line (scope_with unit.now layout.now parameters.now)))
        arguments.now)) (made out.old)) }
{
    put_arguments(out, unit, layout, parameters, line, arguments);
    out.outcome()
}

/// How many marks of a unit have numbers before its expressions are reached: those of its definitions, labels and procedures.
pub fn numbered_marks(unit: &Unit) -> Result<usize, NoMemory>
    ensures { IfOk result (λ n. n ≡ first_mark unit.now) }
{
    let defined = unit.defined.as_slice().len();
    let labels = unit.labels.as_slice().len();
    let procedures = unit.procs.as_slice().len();
    let named = labels.checked_add(procedures).ok_or(NoMemory)?;
    defined.checked_add(named).ok_or(NoMemory)
}

/// Appends the orders that put the value of an expression of the segment's body at a scale, in a unit with its storage layout. Their
/// marks have the first numbers behind those of the unit's definitions, labels and procedures. On NoMemory `out` is as it was.
pub fn expr_orders(
    alloc: Global,
    unit: &Unit,
    layout: &Layout,
    e: &Expr,
    scale: u8,
    out: &mut List<Order>,
) -> Result<(), NoMemory>
    ensures ok { OnOk result (out.new ≡ out.old ++ (expression_piece (scope_with unit.now layout.now []) e.now scale 0 (first_mark unit.now)).orders) }
    ensures err { OnErr result (out.new ≡ out.old) }
{
    let mut made = Output::new(alloc, numbered_marks(unit)?)?;
    emit_expression(&mut made, unit, layout, &[], 0, e, scale)?;
    let mut orders = made.orders.into_vec();
    let mut all = mem::replace(out, List::new(alloc)).into_vec();
    let appended = all.append(&mut orders).map_err(|_| NoMemory);
    *out = List::of(all);
    appended
}
