//! Code of jumps, and of the words of loops and switches.
ghost use Rattle.std.specs.Prelude.{◌≡◌, ◌<◌, ◌++◌, ◌+◌, ◌∷◌, [], length};
ghost use Rattle.cw_run86.specs.Views.{condition_of};
ghost use Rattle.cw_order.specs.declared.order.Order.TheVariants as order;
ghost use Rattle.cw_assemble.specs.Growing.{Adds};
ghost use Rattle.cw_tmpl.specs.Names.{no_names};
ghost use Rattle.cw_tmpl.specs.Pieces.{IsCoded};
ghost use Rattle.cw_tmpl.specs.Templates.{template, past_limit, number_compared, mark_words, goal_word, goal_words, loop_way};
ghost use Rattle.cw_tmpl.specs.Templates.{switch_tested, switch_way, switch_pieces, base_jump};
ghost use Rattle.cw_tmpl.specs.Templates.{switch_near, branch_by, jump_near, jump_short, distance, short_distance, comparison_of, opposite_of};
ghost use Rattle.cw_tmpl.specs.ReferenceCode.{landing_where, switch_where};
ghost use Rattle.cw_assemble.specs.Forms.{where_by};

use crate::draft::Draft;
use cw_i86::Instr;
use cw_order::{Comparator, LabelMark};
use cw_tmpl::instructions::{
    AX, BASE_OPERANDS, BASE_RECORD, BP, BX, DX, RECORD_DEPTH, SEGMENT, SI, SP, argument, compare,
    copy, decrease, double, exchange, jump_if_below, jump_to, load, set_word, store, subtract,
    with_number,
};
use cw_tmpl::library::{EXHAUSTED, SWITCH};
use cw_tmpl::{Coded, Limit, Names, Target, own};
use cw_unit::unit::Goal;
use cw_word::List;

/// How far it is from the end of an instruction to a place of the same code, modulo 65,536.
pub(crate) fn distance(from: usize, to: usize) -> u16
    ensures { result ≡ distance from to }
{
    let from = (from % 65_536) as u16;
    let to = (to % 65_536) as u16;
    to.wrapping_sub(from)
}

/// The same as a byte.
pub(crate) fn short_distance(from: usize, to: usize) -> u8
    ensures { result ≡ short_distance from to }
{
    let from = (from % 256) as u8;
    let to = (to % 256) as u8;
    to.wrapping_sub(from)
}

/// The number of the condition that holds where the comparison does.
fn condition(comparator: Comparator) -> u8
    ensures { result ≡ condition_of (comparison_of comparator) }
{
    match comparator {
        Comparator::Less => 12,
        Comparator::LessEqual => 14,
        Comparator::Equal => 4,
        Comparator::GreaterEqual => 13,
        Comparator::Greater => 15,
        Comparator::Unequal => 5,
    }
}

/// The number of the condition that holds where the comparison does not.
pub(crate) fn opposite(comparator: Comparator) -> u8
    ensures { result ≡ condition_of (opposite_of comparator) }
{
    match comparator {
        Comparator::Less => 13,
        Comparator::LessEqual => 15,
        Comparator::Equal => 5,
        Comparator::GreaterEqual => 12,
        Comparator::Greater => 14,
        Comparator::Unequal => 4,
    }
}

/// Adds a jump to a place of the segment.
pub(crate) fn put_jump(code: &mut Draft, to: u32)
    ensures { Adds code.old (jump_near (length code.old.assembly.bytes + 3) to ∷ []) code.new }
{
    let end = code.assembly.bytes.as_slice().len() + 3;
    code.put_all(&[Coded::Whole(Instr::Jump(distance(end, to as usize)))]);
}

/// Adds a jump to a place of the segment that is close by.
pub(crate) fn put_short_jump(code: &mut Draft, to: u32)
    ensures { Adds code.old (jump_short (length code.old.assembly.bytes + 2) to ∷ []) code.new }
{
    let end = code.assembly.bytes.as_slice().len() + 2;
    code.put_all(&[Coded::Whole(Instr::JumpShort(short_distance(end, to as usize)))]);
}

/// Adds a jump behind a comparison, where that holds.
pub(crate) fn put_branch(code: &mut Draft, short: bool, comparator: Comparator, to: u32)
    ensures { Adds code.old (branch_by short comparator (length code.old.assembly.bytes) to) code.new }
{
    let place = code.assembly.bytes.as_slice().len();
    if short {
        code.put_all(&[Coded::Whole(Instr::JumpIf {
            cond: condition(comparator),
            by: short_distance(place + 2, to as usize),
        })]);
    } else {
        code.put_all(&[
            Coded::Whole(Instr::JumpIf {
                cond: opposite(comparator),
                by: 3,
            }),
            Coded::Whole(Instr::Jump(distance(place + 5, to as usize))),
        ]);
    }
}

/// Adds a jump to a place where a comparison of the two operands on top holds.
pub(crate) fn put_jump_if(code: &mut Draft, short: bool, comparator: Comparator, to: u32)
    ensures { Adds code.old (where_by short comparator (length code.old.assembly.bytes) to) code.new }
{
    code.put_all(&[Coded::Whole(Instr::Pop(BX)), Coded::Whole(compare(BX, AX))]);
    put_branch(code, short, comparator, to);
}

/// Adds a jump to a place where a loop is exhausted.
pub(crate) fn put_past_limit(code: &mut Draft, to: u32)
    ensures { Adds code.old (past_limit (length code.old.assembly.bytes) to) code.new }
{
    let end = code.assembly.bytes.as_slice().len() + 6;
    code.put_all(&[
        Coded::Call(Target::LibraryAhead(EXHAUSTED)),
        Coded::Whole(Instr::Jump(distance(end, to as usize))),
    ]);
}

/// Adds what makes the base record the one at work, without operands, for this segment, and a jump to a place.
pub(crate) fn put_base_jump(code: &mut Draft, to: u32)
    ensures { Adds code.old (base_jump (length code.old.assembly.bytes) to) code.new }
{
    let end = code.assembly.bytes.as_slice().len() + 15;
    code.put_all(&[
        Coded::Whole(set_word(BP, BASE_RECORD)),
        Coded::Whole(set_word(SP, BASE_OPERANDS)),
        Coded::Move {
            reg: AX,
            target: Target::Limit(Limit::Segment),
        },
        Coded::Whole(store(SEGMENT, AX)),
        Coded::Whole(Instr::Jump(distance(end, to as usize))),
    ]);
}

/// Adds a jump to a label parameter.
pub(crate) fn put_go_special(code: &mut Draft, words: u8)
    ensures { Adds code.old (template no_names 0 (order.GoSpecial words)) code.new }
{
    code.put_all(&[
        Coded::Whole(load(BX, argument(u16::from(words)))),
        Coded::Whole(load(BP, argument(u16::from(words) + 1))),
        Coded::Whole(copy(SP, BP)),
        Coded::Whole(set_word(AX, RECORD_DEPTH)),
        Coded::Whole(subtract(SP, AX)),
        Coded::Whole(jump_to(BX)),
    ]);
}

/// Adds the way to the routine of a switch of this segment.
pub(crate) fn put_go_switch(code: &mut Draft, line: u16, to: u32)
    ensures { Adds code.old (switch_near line (length code.old.assembly.bytes) to) code.new }
{
    let end = code.assembly.bytes.as_slice().len() + 8;
    code.put_all(&[
        Coded::Whole(set_word(DX, line)),
        Coded::Whole(copy(SI, BP)),
        Coded::Whole(Instr::Jump(distance(end, to as usize))),
    ]);
}

/// Adds the way to the switch of a descriptor.
pub(crate) fn put_go_switch_common(code: &mut Draft, line: u16, descriptor: u16)
    ensures { Adds code.old (template no_names 0 (order.GoSwitchCommon descriptor line)) code.new }
{
    code.put_all(&[
        Coded::Whole(set_word(DX, line)),
        Coded::Whole(copy(SI, BP)),
        Coded::Jump(Target::DefinitionAhead(descriptor)),
    ]);
}

/// Adds the way to a switch parameter.
pub(crate) fn put_go_switch_special(code: &mut Draft, line: u16, words: u8)
    ensures { Adds code.old (template no_names 0 (order.GoSwitchSpecial words line)) code.new }
{
    code.put_all(&[
        Coded::Whole(set_word(DX, line)),
        Coded::Whole(load(SI, argument(u16::from(words) + 1))),
        Coded::Whole(load(BX, argument(u16::from(words)))),
        Coded::Whole(jump_to(BX)),
    ]);
}

/// Adds the landing of a label, where it has one.
pub(crate) fn put_landing(code: &mut Draft, has: bool, label: &LabelMark, names: &Names)
    ensures { Adds code.old (landing_where has names.now (length code.old.assembly.bytes) label.now) code.new }
{
    if has {
        put_base_jump(code, names.mark(label.mark));
    } else {
        code.put_nothing();
    }
}

/// Adds the comparison of a number in AX, counted from 1, which BX then has counted from 0.
fn put_number_compared(code: &mut Draft, number: u16)
    ensures { Adds code.old (number_compared number) code.new }
{
    code.put_all(&[
        Coded::Whole(with_number(5, 1)),
        Coded::Whole(copy(BX, AX)),
        Coded::Whole(with_number(7, number)),
    ]);
}

/// Adds a table of the places of marks.
fn put_mark_words(code: &mut Draft, marks: &[u32], names: &Names)
    ensures { Adds code.old (mark_words names.now marks.now) code.new }
{
    for mark in marks {
        code.put_all(&[Coded::Word(own(u64::from(names.mark(*mark))))]);
    }
}

/// A word of a table of places of labels.
fn goal_word(names: &Names, goal: Goal) -> Coded
    ensures value { result ≡ goal_word names.now goal }
    ensures coded { IsCoded result }
{
    match goal {
        Goal::Own(label) => Coded::Word(own(u64::from(names.label(label)))),
        Goal::Common(descriptor) => Coded::Word(Target::Definition(descriptor)),
    }
}

/// Adds a table of the places of labels.
fn put_goal_words(code: &mut Draft, goals: &[Goal], names: &Names)
    ensures { Adds code.old (goal_words names.now goals.now) code.new }
{
    for goal in goals {
        code.put_all(&[goal_word(names, *goal)]);
    }
}

/// Adds the routine of a switch, where it has one.
pub(crate) fn put_switch(code: &mut Draft, has: bool, goals: &List<Goal>, names: &Names)
    ensures { Adds code.old (switch_where has names.now (length code.old.assembly.bytes) goals.now) code.new }
{
    if has {
        put_routine(code, goals.as_slice(), names);
    } else {
        code.put_nothing();
    }
}

fn put_routine(code: &mut Draft, goals: &[Goal], names: &Names)
    ensures { Adds code.old (switch_pieces names.now (length code.old.assembly.bytes) goals.now) code.new }
{
    let place = code.assembly.bytes.as_slice().len() as u64;
    match u16::try_from(goals.len()) {
        Ok(number) => {
            put_number_compared(code, number);
            code.put_all(&[
                Coded::Whole(jump_if_below(3)),
                Coded::Call(Target::LibraryAhead(SWITCH)),
                Coded::Whole(double(BX)),
                Coded::Whole(copy(BP, SI)),
                Coded::Whole(copy(SP, BP)),
                Coded::Whole(set_word(AX, RECORD_DEPTH)),
                Coded::Whole(subtract(SP, AX)),
                Coded::Way(own(place + 29)),
            ]);
            put_goal_words(code, goals, names);
        }
        Err(_) => code.fail(),
    }
}

/// Adds the way of a loop by a table.
pub(crate) fn put_loop_way(code: &mut Draft, marks: &[u32], names: &Names)
    ensures { Adds code.old (loop_way names.now (length code.old.assembly.bytes) marks.now) code.new }
{
    let place = code.assembly.bytes.as_slice().len() as u64;
    let end = code.assembly.bytes.as_slice().len() + 13;
    match u16::try_from(marks.len()) {
        Ok(number) => {
            put_number_compared(code, number);
            let past = end + 7 + 2 * marks.len();
            code.put_all(&[
                Coded::Whole(jump_if_below(3)),
                Coded::Whole(Instr::Jump(distance(end, past))),
                Coded::Whole(double(BX)),
                Coded::Way(own(place + 20)),
            ]);
            put_mark_words(code, marks, names);
        }
        Err(_) => code.fail(),
    }
}

/// Adds the test of the index of a switch with so many labels, counted from 1, which AX then has counted from 0.
fn put_switch_tested(code: &mut Draft, labels: u16, line: u16)
    ensures { Adds code.old (switch_tested labels line) code.new }
{
    code.put_all(&[
        Coded::Whole(decrease(AX)),
        Coded::Whole(with_number(7, labels)),
        Coded::Whole(jump_if_below(6)),
        Coded::Whole(set_word(DX, line)),
        Coded::Call(Target::LibraryAhead(SWITCH)),
    ]);
}

/// Adds the way of a switch whose labels stand in the body at work.
pub(crate) fn put_switch_way(code: &mut Draft, line: u16, marks: &[u32], names: &Names)
    ensures { Adds code.old (switch_way names.now line (length code.old.assembly.bytes) marks.now) code.new }
{
    let place = code.assembly.bytes.as_slice().len() as u64;
    match u16::try_from(marks.len()) {
        Ok(labels) => {
            put_switch_tested(code, labels, line);
            code.put_all(&[
                Coded::Whole(exchange()),
                Coded::Whole(double(BX)),
                Coded::Way(own(place + 20)),
            ]);
            put_mark_words(code, marks, names);
        }
        Err(_) => code.fail(),
    }
}
