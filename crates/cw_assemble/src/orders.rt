//! Code of orders.
ghost use Rattle.std.specs.Prelude.{◌≡◌, ◌+◌, ◌++◌, ◌∷◌, [], length};
ghost use Rattle.cw_order.specs.HasCode.{HasCode};
ghost use Rattle.cw_order.specs.declared.order.Order.TheVariants as order;
ghost use Rattle.cw_assemble.specs.Growing.{Adds};
ghost use Rattle.cw_tmpl.specs.Names.{no_names};
ghost use Rattle.cw_tmpl.specs.Templates.{template, short_template};

use crate::arithmetic::{
    put_less, put_on_both, put_product, put_quotient, put_rescale, put_with_word,
};
use crate::calling::{
    put_bind, put_bind_frame, put_call, put_call_common, put_call_special, put_control, put_enter,
    put_frame_home, put_read_byte, put_return, put_special_out,
};
use crate::checks::{put_add, put_neg, put_sub};
use crate::draft::Draft;
use crate::indexes::{
    put_call_at_line, put_element, put_element_inside, put_element_of_two, put_entry, put_in_area,
    put_in_bounds,
};
use crate::jumping::{
    put_base_jump, put_go_special, put_go_switch, put_go_switch_common, put_go_switch_special,
    put_jump, put_jump_if, put_past_limit, put_short_jump, put_switch_way,
};
use crate::loops::{put_loop_ways, put_next_step, put_short_way};
use crate::parts::{put_load_part, put_store_part, put_take};
use cw_i86::Instr;
use cw_order::Order;
use cw_tmpl::instructions::{
    AT_BX, AX, BX, both, copy, double, either, exchange, jump_to, load, one_of, set_ax, store,
    subtract, with_number,
};
use cw_tmpl::library::{ADD_STEP, ADDRESS, PUT_VARIABLE, SET_VARIABLE};
use cw_tmpl::{Coded, Names, Target, own};

fn put_const(code: &mut Draft, word: u16)
    ensures { Adds code.old (template no_names 0 (order.Const word)) code.new }
{
    code.put_all(&[Coded::Whole(set_ax(word))]);
}

fn put_home(code: &mut Draft, family: u16, offset: u16)
    ensures { Adds code.old (template no_names 0 (order.Home family offset)) code.new }
{
    code.put_all(&[Coded::Move {
        reg: AX,
        target: Target::Word { family, offset },
    }])
}

fn put_load(code: &mut Draft)
    ensures { Adds code.old (template no_names 0 order.Load) code.new }
{
    code.put_all(&[
        Coded::Whole(exchange()),
        Coded::Whole(double(BX)),
        Coded::Whole(load(AX, AT_BX)),
    ]);
}

fn put_store(code: &mut Draft)
    ensures { Adds code.old (template no_names 0 order.Store) code.new }
{
    code.put_all(&[
        Coded::Whole(copy(BX, AX)),
        Coded::Whole(double(BX)),
        Coded::Whole(Instr::Pop(AX)),
        Coded::Whole(store(AT_BX, AX)),
    ]);
}

fn put_write_byte(code: &mut Draft)
    ensures { Adds code.old (template no_names 0 order.WriteByte) code.new }
{
    code.put_all(&[Coded::Whole(Instr::Pop(AX)), Coded::Whole(Instr::Out(0x12))]);
}

fn put_next_body(code: &mut Draft)
    ensures { Adds code.old (template no_names 0 order.NextBody) code.new }
{
    code.put_all(&[
        Coded::Move {
            reg: AX,
            target: Target::NextSegment,
        },
        Coded::Whole(jump_to(AX)),
    ]);
}

fn put_go_common(code: &mut Draft, descriptor: u16)
    ensures { Adds code.old (template no_names 0 (order.GoCommon descriptor)) code.new }
{
    code.put_all(&[Coded::Jump(Target::DefinitionAhead(descriptor))]);
}

/// Adds the code of an order alone.
pub(crate) fn put_order(code: &mut Draft, order: &Order, names: &Names)
    requires { HasCode order.now }
    ensures { Adds code.old (template names.now (length code.old.assembly.bytes) order.now) code.new }
{
    match order {
        Order::Save => code.put_all(&[Coded::Whole(Instr::Push(AX))]),
        Order::Const(word) => put_const(code, *word),
        Order::Home { family, offset } => put_home(code, *family, *offset),
        Order::FrameHome(offset) => put_frame_home(code, *offset),
        Order::Load => put_load(code),
        Order::Store => put_store(code),
        Order::LoadPart { t, b, signed } => put_load_part(code, *t, *b, *signed),
        Order::StorePart { t, b } => put_store_part(code, *t, *b),
        Order::Rescale { from, to, line } => put_rescale(code, false, *line, *from, *to, 0),
        Order::Add(line) => put_add(code, false, *line, 0),
        Order::Sub(line) => put_sub(code, false, *line, 0),
        Order::Neg(line) => put_neg(code, false, *line, 0),
        Order::Mul { power, line } => put_product(code, false, *line, *power, 0),
        Order::Div { power, line } => put_quotient(code, false, *line, *power, 0),
        Order::And => put_on_both(code, both(AX, BX)),
        Order::Or => put_on_both(code, either(AX, BX)),
        Order::Xor => put_on_both(code, one_of(AX, BX)),
        Order::Take { t, b } => put_take(code, *t, *b),
        Order::IndexLess { lower, line } => put_with_word(
            code,
            ADDRESS,
            *line,
            lower.cast_unsigned(),
            subtract(AX, BX),
        ),
        Order::Element { lower, line, .. } => put_element(code, *line, *lower),
        Order::ElementOfTwo {
            lower,
            second,
            width,
            line,
        } => put_element_of_two(code, *line, *lower, *second, *width),
        Order::ElementInside {
            lower,
            second,
            width,
            ..
        } => put_element_inside(code, *lower, *second, *width),
        Order::Entry {
            width,
            word,
            line,
            ..
        } => put_entry(code, *line, *width, *word),
        Order::InArea(line) => put_in_area(code, *line),
        Order::InBounds { lower, upper, line } => put_in_bounds(code, *line, *lower, *upper),
        Order::Less => put_less(code),
        Order::Jump(mark) => put_jump(code, names.mark(*mark)),
        Order::JumpIf { comparator, mark } => {
            put_jump_if(code, false, *comparator, names.mark(*mark))
        }
        Order::Exhausted(mark) => put_past_limit(code, names.mark(*mark)),
        Order::SetVariable(line) => put_call_at_line(code, SET_VARIABLE, *line),
        Order::AddStep(line) => put_call_at_line(code, ADD_STEP, *line),
        Order::PutVariable(line) => put_call_at_line(code, PUT_VARIABLE, *line),
        Order::NextStep { looped, line, mark } => {
            put_next_step(code, *looped, *line, names.mark(*mark))
        }
        Order::LoopWay(marks) => put_loop_ways(code, marks.as_slice(), names),
        Order::SwitchWay { marks, line } => put_switch_way(code, *line, marks.as_slice(), names),
        Order::LabelOut(label) => put_control(code, own(u64::from(names.label(*label)))),
        Order::SwitchOut(switch) => put_control(code, own(u64::from(names.switch(*switch)))),
        Order::ProcOut(procedure) => {
            put_control(code, own(u64::from(names.procedure(*procedure))))
        }
        Order::LabelCommon(descriptor)
        | Order::SwitchCommon(descriptor)
        | Order::ProcCommon(descriptor) => put_control(code, Target::Definition(*descriptor)),
        Order::SpecialOut(words) => put_special_out(code, *words),
        Order::GoSpecial(words) => put_go_special(code, *words),
        Order::GoSwitch { switch, line } => { put_go_switch(code, *line, names.switch(*switch)) }
        Order::GoSwitchCommon { descriptor, line } => {
            put_go_switch_common(code, *line, *descriptor)
        }
        Order::GoSwitchSpecial { place, line } => put_go_switch_special(code, *line, *place),
        Order::GoMain(mark) => put_base_jump(code, names.mark(*mark)),
        Order::GoCommon(descriptor) => put_go_common(code, *descriptor),
        Order::CallProc { procedure, line } => {
            put_call(code, *line, names.procedure(*procedure))
        }
        Order::CallCommon { descriptor, line } => put_call_common(code, *line, *descriptor),
        Order::CallSpecial { place, line } => put_call_special(code, *line, *place),
        Order::Enter(size) => put_enter(code, *size),
        Order::Bind {
            argument,
            family,
            offset,
        } => put_bind(code, *argument, *family, *offset),
        Order::BindFrame { argument, offset } => put_bind_frame(code, *argument, *offset),
        Order::Return { arguments, .. } => put_return(code, *arguments),
        Order::ReadByte => put_read_byte(code),
        Order::WriteByte => put_write_byte(code),
        Order::NextBody => put_next_body(code),
        Order::Drop | Order::Mark | Order::Start(_) => code.put_nothing(),
    }
}

/// The same where the jump of the order is short, if it has one that can be, or where its check jumps back, if that can. The order has this number.
pub(crate) fn put_short_order(code: &mut Draft, order: &Order, number: usize, names: &Names)
    requires { HasCode order.now }
    ensures { Adds code.old (short_template names.now (length code.old.assembly.bytes) number order.now) code.new }
{
    let call = names.call(number);
    match order {
        Order::Add(line) => put_add(code, true, *line, call),
        Order::Sub(line) => put_sub(code, true, *line, call),
        Order::Neg(line) => put_neg(code, true, *line, call),
        Order::Rescale { from, to, line } => put_rescale(code, true, *line, *from, *to, call),
        Order::Mul { power, line } => put_product(code, true, *line, *power, call),
        Order::Div { power, line } => put_quotient(code, true, *line, *power, call),
        Order::Jump(mark) => put_short_jump(code, names.mark(*mark)),
        Order::JumpIf { comparator, mark } => {
            put_jump_if(code, true, *comparator, names.mark(*mark))
        }
        Order::LoopWay(marks) => match marks.as_slice() {
            [mark] => put_short_way(code, *mark, names),
            _ => put_order(code, order, names),
        },
        _ => put_order(code, order, names),
    }
}
