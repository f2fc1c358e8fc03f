//! Which jumps are short, and which checks jump back.
ghost use Rattle.std.specs.Prelude.{◌≡◌, ◌<◌, slice_index};
ghost use Rattle.cw_tmpl.specs.Backward.{call_for, call_after};
ghost use Rattle.cw_tmpl.specs.declared.blocks.Block.TheVariants as block;
ghost use Rattle.cw_tmpl.specs.Templates.{is_close, is_checked};
ghost use Rattle.cw_tmpl.specs.ShortForms.{jump_of, check_of, has_call, is_short};

use crate::blocks::{Block, Use};
use cw_order::Order;
use std::marker::Model;

/// What tells how far a jump goes: the marks, each by the number of its order, and the places of the orders' code where it is longest,
/// with no short jump and none back. And for each order with which a block begins whose check jumps back the number of the order behind that
/// with which the block begins that calls the stop; 0 for the others.
#[derive(Drop)]
pub struct Reach<'a> {
    pub marks: &'a [u32],
    pub longest: &'a [u32],
    pub calls: &'a [u32],
}

impl<'a> Model for Reach<'a> {
    ghost use Rattle.cw_tmpl.specs.Names.{Reach as Meaning};

    ghost Value = { Meaning };

    ghost view = { λ t. record {
      marks = t.marks.now;
      longest = t.longest.now;
      calls = t.calls.now;
    } };
}

/// A block with a CALL of the overflow stop of its own: the line behind it, and the number of the order behind the block's first one.
#[derive(Clone, Copy)]
pub struct Call {
    pub line: u16,
    pub behind: u32,
}

/// An entry of a table, 0 past its end.
pub(crate) fn entry(table: &[u32], number: usize) -> u32
    ensures { result ≡ slice_index table.now number }
{
    table.get(number).copied().unwrap_or(0)
}

/// The mark of the jump of an order alone that can be short.
fn jump_alone(order: &Order) -> Option<u32>
    ensures { result ≡ jump_of block.Single order.now }
{
    match order {
        Order::Jump(mark) | Order::JumpIf { mark, .. } => Some(*mark),
        Order::LoopWay(marks) => match marks.as_slice() {
            [mark] => Some(*mark),
            _ => None,
        },
        _ => None,
    }
}

/// The mark of a block's jump that can be short.
fn jump_of(block: Block, order: &Order) -> Option<u32>
    ensures { result ≡ jump_of block order.now }
{
    match block {
        Block::Single => jump_alone(order),
        Block::Operate {
            with: Use::Compare { mark, .. },
            ..
        } => Some(mark),
        Block::CompareWord { mark, .. } => Some(mark),
        _ => None,
    }
}

/// Whether a product ends with a check: one that is scaled far down always fits.
pub fn is_checked(power: i8) -> bool
    ensures { result ≡ is_checked power }
{
    power >= -15
}

/// The line of the check with which the code of an order alone ends.
fn check_alone(order: &Order) -> Option<u16>
    ensures { result ≡ check_of block.Single order.now }
{
    match order {
        Order::Add(line) | Order::Sub(line) | Order::Neg(line) => Some(*line),
        Order::Rescale { from, to, line } => { if from <= to { Some(*line) } else { None } }
        Order::Mul { power, line } => {
            if is_checked(*power) {
                Some(*line)
            } else {
                None
            }
        }
        Order::Div { line, .. } => Some(*line),
        _ => None,
    }
}

/// The line of the check with which a block ends that can jump back.
pub fn check_of(block: Block, order: &Order) -> Option<u16>
    ensures { result ≡ check_of block order.now }
{
    match block {
        Block::Single => check_alone(order),
        Block::Operate {
            with: Use::Add(line) | Use::Subtract(line) | Use::Multiply(line),
            ..
        } => Some(line),
        Block::Count { line, .. } => Some(line),
        _ => None,
    }
}

/// Whether a short jump reaches from its end to a place.
fn is_close(from: u32, to: u32) -> bool
    ensures { result ≡ is_close from to }
{
    from.abs_diff(to) <= 127
}

/// The CALL for the check of a block whose first order has this number, where the last block with a CALL of its own is given; 0 where none serves.
pub fn call_for(longest: &[u32], last: Option<Call>, number: usize, check: Option<u16>) -> u32
    requires { number < 18446744073709551615 }
    ensures { result ≡ call_for longest.now last number check }
{
    match (last, check) {
        (Some(call), Some(line)) => {
            if call.line == line
                && is_close(
                    entry(longest, number + 1),
                    entry(longest, call.behind as usize),
                )
            {
                call.behind
            } else {
                0
            }
        }
        _ => 0,
    }
}

/// The last block with a CALL of its own behind one with a check, or without, and with this CALL for it.
pub fn call_after(last: Option<Call>, behind: u32, call: u32, check: Option<u16>) -> Option<Call>
    ensures { result ≡ call_after last behind call check }
{
    match (call, check) {
        (0, Some(line)) => Some(Call { line, behind }),
        _ => last,
    }
}

/// Whether the check of a block jumps back.
fn has_call(reach: &Reach, number: usize, check: Option<u16>) -> bool
    ensures { result ≡ has_call reach.now number check }
{
    match check {
        None => false,
        Some(_) => 0 < entry(reach.calls, number),
    }
}

impl<'a> Reach<'a> {
    /// Whether the jump of a block is short, or its check jumps back, by the number of the block's first order.
    pub fn is_short(&self, number: usize, block: Block, order: &Order) -> bool
        requires { number < 18446744073709551615 }
        ensures { result ≡ is_short self.now number block order.now }
    {
        match jump_of(block, order) {
            None => has_call(self, number, check_of(block, order)),
            Some(mark) => {
                let to = entry(self.marks, mark as usize);
                is_close(
                    entry(self.longest, number + 1),
                    entry(self.longest, to as usize),
                )
            }
        }
    }
}
