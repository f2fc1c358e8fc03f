//! Procedures.
ghost use Rattle.std.specs.Prelude.{◌≡◌, ◌∷◌, [], Some, OnOk, slice_get, slice_index};
ghost use Rattle.cw_unit.specs.Scales.{fraction_of};
ghost use Rattle.cw_unit.specs.Storage.{layout_of};
ghost use Rattle.cw_order.specs.declared.order.Order.TheVariants as order;
ghost use Rattle.cw_gen_expr.specs.Pieces.{plain};
ghost use Rattle.cw_gen_expr.specs.Output.{made, added};
ghost use Rattle.cw_gen_expr.specs.ReferenceEntries.{bound_order, parameter_orders, bind_orders};
ghost use Rattle.cw_gen_unit.specs.ReferenceUnits.{leave_with, procedure_piece};

use crate::statements::emit_statement;
use cw_gen_expr::orders::{all_words, home};
use cw_gen_expr::output::Output;
use cw_order::Order;
use cw_unit::descriptor::Scale;
use cw_unit::layout::{Layout, Sort};
use cw_unit::unit::{Param, Proc, Unit};
use cw_word::NoMemory;
use std::alloc::Global;

/// The order that binds a word argument to an item.
fn bound(layout: &Layout, argument: u8, item: u32) -> Order
    ensures { result ≡ bound_order layout.now argument item }
{
    let (family, offset) = home(layout, item);
    match layout.families.as_slice().get(family as usize) {
        Some(found) => match found.sort {
            Sort::Frame(base) => Order::BindFrame {
                argument,
                offset: base.wrapping_add(offset),
            },
            _ => Order::Bind {
                argument,
                family,
                offset,
            },
        },
        None => Order::Bind {
            argument,
            family,
            offset,
        },
    }
}

/// Binds an argument to a parameter. Control arguments stay where they are.
fn emit_parameter(
    out: &mut Output,
    layout: &Layout,
    parameter: &Param,
    argument: u8,
) -> Result<(), NoMemory>
    ensures { OnOk result (made out.new ≡ added (plain (parameter_orders layout.now parameter.now argument)) (made out.old)) }
{
    match parameter {
        Param::Value(item, _) => out.push(bound(layout, argument, *item)),
        Param::Location(item, _) => out.push(bound(layout, argument, *item)),
        Param::Array(item, _) => out.push(bound(layout, argument, *item)),
        Param::Table(item, _) => out.push(bound(layout, argument, *item)),
        Param::Label(_) | Param::Switch(_) | Param::Proc(..) => Ok(()),
    }
}

/// Binds the arguments of a call to the parameters of its procedure.
fn emit_bind(out: &mut Output, layout: &Layout, parameters: &[Param]) -> Result<(), NoMemory>
    ensures { OnOk result (made out.new ≡ added (plain (bind_orders layout.now parameters.now)) (made out.old)) }
{
    for i in 0..parameters.len() {
        let argument = all_words(&parameters[i + 1..])?;
        emit_parameter(out, layout, &parameters[i], argument)?;
    }
    Ok(())
}

/// The words of the frame of a procedure.
fn frame(layout: &Layout, procedure: u16) -> u16
    ensures { result ≡ slice_index layout.now.frames procedure }
{
    match layout.frames.as_slice().get(procedure as usize) {
        Some(words) => *words,
        None => 0,
    }
}

/// Adds the entry of a procedure with these parameters.
fn emit_entry(
    out: &mut Output,
    layout: &Layout,
    number: u16,
    parameters: &[Param],
) -> Result<(), NoMemory>
    ensures { OnOk result (made out.new ≡ added (plain (order.Enter (slice_index layout.now.frames number) ∷ bind_orders layout.now parameters.now)) (made out.old)) }
{
    out.push(Order::Enter(frame(layout, number)))?;
    emit_bind(out, layout, parameters)
}

/// Adds the return at the end of a procedure, which answers 0, where a run may come to that end.
fn emit_leave(out: &mut Output, parameters: &[Param], ends: bool) -> Result<(), NoMemory>
    ensures { OnOk result (made out.new ≡ added (plain (leave_with ends parameters.now)) (made out.old)) }
{
    if !ends {
        return Ok(());
    }
    let arguments = all_words(parameters)?;
    out.push(Order::Const(0))?;
    out.push(Order::Return {
        arguments,
        answers: true,
    })
}

/// The scale of the answer of a procedure, 0 where it has none.
fn answer_scale(answer: Option<Scale>) -> u8
    ensures { result ≡ fraction_of answer }
{
    match answer {
        Some(scale) => scale.f,
        None => 0,
    }
}

/// Adds the orders of a procedure of the unit.
pub fn emit_procedure(
    alloc: Global,
    out: &mut Output,
    unit: &Unit,
    layout: &Layout,
    number: u16,
    procedure: &Proc,
) -> Result<(), NoMemory>
    requires of_unit { layout.now ≡ layout_of unit.now }
    requires numbered { slice_get unit.now.procs number ≡ Some procedure.now }
    ensures { OnOk result (made out.new ≡ added (procedure_piece unit.now number procedure.now) (made out.old)) }
{
    let parameters = procedure.params.as_slice();
    emit_entry(out, layout, number, parameters)?;
    let ends = emit_statement(
        alloc,
        out,
        unit,
        layout,
        parameters,
        Some(number),
        answer_scale(procedure.answer),
        &procedure.body,
    )?;
    emit_leave(out, parameters, ends)
}
