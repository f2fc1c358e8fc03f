//! Code of sums, products, quotients and scales. The check that ends it is whole, or jumps back to a CALL of the stop.
ghost use Rattle.std.specs.Prelude.{◌≡◌, ◌<◌, ◌≤◌, ◌-◌, ◌+◌, ◌^◌, ◌++◌, ◌==◌, pos, negsuc, true, false, nat_le, length};
ghost use Rattle.cw_i86.specs.Encoding.{IsInstr};
ghost use Rattle.cw_order.specs.HasCode.{HasCode};
ghost use Rattle.cw_order.specs.declared.order.Order.TheVariants as order;
ghost use Rattle.cw_assemble.specs.Growing.{Adds};
ghost use Rattle.cw_tmpl.specs.Names.{no_names};
ghost use Rattle.cw_tmpl.specs.Templates.{template, checked, checked_by, unless_overflow, on_both, with_word, times_before, times, rescale_if, rescale, rescale_before};
ghost use Rattle.cw_tmpl.specs.Templates.{routine_before, product_start, product_down, product, product_before, is_checked, divisor_tested, quotient, quotient_before, pieces_size};
ghost use Rattle.cw_assemble.specs.Forms.{ended_by};

use crate::checks::put_check;
use crate::draft::Draft;
use crate::words::power;
use cw_i86::{Instr, Rm};
use cw_tmpl::instructions::{
    AX, BX, CX, DX, copy, divide_signed, either, jump_if_no_overflow, jump_if_unequal, load,
    multiply, negate, set_word, shift_down_signed, subtract,
};
use cw_tmpl::library::{OVERFLOW, PRODUCT, QUOTIENT_DOWN, QUOTIENT_UP, ZERO_DIVISOR};
use cw_tmpl::{Coded, Target, is_checked};

/// Adds what follows an operation on AX that may overflow.
pub(crate) fn put_checked(code: &mut Draft, line: u16)
    ensures { Adds code.old (checked line) code.new }
{
    put_unless_overflow(code, OVERFLOW, line);
}

/// Adds a call of a stop, by its entry, where the overflow flag is set.
pub(crate) fn put_unless_overflow(code: &mut Draft, stop: u16, line: u16)
    ensures { Adds code.old (unless_overflow stop line) code.new }
{
    code.put_all(&[
        Coded::Whole(jump_if_no_overflow(5)),
        Coded::Call(Target::LibraryAhead(stop)),
        Coded::Data(line),
    ]);
}

/// Adds the code of an operation on the two operands on top that is the same either way round.
pub(crate) fn put_on_both(code: &mut Draft, operation: Instr)
    requires { IsInstr operation }
    ensures { Adds code.old (on_both operation) code.new }
{
    code.put_all(&[Coded::Whole(Instr::Pop(BX)), Coded::Whole(operation)]);
}

pub(crate) fn put_less(code: &mut Draft)
    ensures { Adds code.old (template no_names 0 order.Less) code.new }
{
    code.put_all(&[
        Coded::Whole(copy(BX, AX)),
        Coded::Whole(Instr::Pop(AX)),
        Coded::Whole(subtract(AX, BX)),
    ]);
}

/// Adds the code of an operation on AX and a word in BX.
pub(crate) fn put_with_word(code: &mut Draft, stop: u16, line: u16, word: u16, operation: Instr)
    requires { IsInstr operation }
    ensures { Adds code.old (with_word stop line word operation) code.new }
{
    code.put_all(&[
        Coded::Whole(set_word(BX, word)),
        Coded::Whole(operation),
        Coded::Whole(jump_if_no_overflow(5)),
        Coded::Call(Target::LibraryAhead(stop)),
        Coded::Data(line),
    ]);
}

/// Adds a multiplication of AX by a number up to 32,768.
fn put_times_before(code: &mut Draft, number: u16)
    ensures { Adds code.old (times_before (number == 32768) number) code.new }
{
    if number == 0x8000 {
        code.put_all(&[
            Coded::Whole(negate(AX)),
            Coded::Whole(set_word(BX, number)),
            Coded::Whole(multiply(BX)),
        ]);
    } else {
        code.put_all(&[
            Coded::Whole(set_word(BX, number)),
            Coded::Whole(multiply(BX)),
        ]);
    }
}

/// Adds the same, and a call of a stop, by its entry, where the product fits no word.
pub(crate) fn put_times(code: &mut Draft, stop: u16, line: u16, number: u16)
    ensures { Adds code.old (times stop line number) code.new }
{
    put_times_before(code, number);
    put_unless_overflow(code, stop, line);
}

/// Adds a rescaling up.
fn put_rescale_before(code: &mut Draft, from: u8, to: u8)
    requires order { from ≤ to }
    requires scale { to ≤ 15 }
    ensures { Adds code.old (rescale_before from to) code.new }
{
    put_times_before(code, power(to - from));
}

/// Adds a rescaling up, and its check.
fn put_rescale_up(code: &mut Draft, short: bool, line: u16, from: u8, to: u8, call: u32)
    requires order { from ≤ to }
    requires scale { to ≤ 15 }
    ensures { Adds code.old (rescale_before from to ++ checked_by short line
        (length code.old.assembly.bytes + pieces_size (rescale_before from to)) call) code.new }
{
    put_rescale_before(code, from, to);
    put_check(code, short, line, call);
}

/// Adds the code of a rescaling down.
fn put_rescale_down(code: &mut Draft, line: u16, from: u8, to: u8)
    requires { to ≤ from }
    ensures { Adds code.old (rescale_if false (2 ^ (to - from) == 32768) line from to) code.new }
{
    code.put_all(&[
        Coded::Whole(set_word(CX, u16::from(from - to))),
        Coded::Whole(shift_down_signed(AX)),
    ]);
}

/// Adds a rescaling, and its check, where it has one.
pub(crate) fn put_rescale(code: &mut Draft, short: bool, line: u16, from: u8, to: u8, call: u32)
    requires { to ≤ 15 }
    ensures { Adds code.old (ended_by short (nat_le from to) (rescale line from to) (rescale_before from to) line
        (length code.old.assembly.bytes) call) code.new }
{
    if from <= to {
        put_rescale_up(code, short, line, from, to, call);
    } else {
        put_rescale_down(code, line, from, to);
    }
}

/// Adds a call of a routine on AX and BX and a count.
fn put_routine_before(code: &mut Draft, entry: u16, count: u8)
    ensures { Adds code.old (routine_before entry count) code.new }
{
    code.put_all(&[
        Coded::Whole(set_word(CX, u16::from(count))),
        Coded::Call(Target::LibraryAhead(entry)),
    ]);
}

fn put_product_start(code: &mut Draft, line: u16)
    ensures { Adds code.old (product_start line) code.new }
{
    code.put_all(&[
        Coded::Whole(Instr::Pop(BX)),
        Coded::Whole(multiply(BX)),
        Coded::Whole(jump_if_no_overflow(5)),
        Coded::Call(Target::LibraryAhead(OVERFLOW)),
        Coded::Data(line),
    ]);
}

/// Adds a product that is scaled up by at least one place, the last multiplication of which has no check.
fn put_product_scaled_before(code: &mut Draft, line: u16, places: u8)
    requires some { 0 < places }
    requires few { places ≤ 15 }
    ensures { Adds code.old (product_before line (pos places)) code.new }
{
    put_product_start(code, line);
    put_times_before(code, power(places));
}

/// The same by so many places.
fn put_product_up_before(code: &mut Draft, line: u16, places: u8)
    requires { places ≤ 15 }
    ensures { Adds code.old (product_before line (pos places)) code.new }
{
    if places == 0 {
        code.put_all(&[Coded::Whole(Instr::Pop(BX)), Coded::Whole(multiply(BX))]);
    } else {
        put_product_scaled_before(code, line, places);
    }
}

/// Adds a product that is scaled down by so many places and one more.
fn put_product_down_before(code: &mut Draft, line: u16, places: u8)
    requires { places < 30 }
    ensures { Adds code.old (product_before line (negsuc places)) code.new }
{
    code.put_all(&[Coded::Whole(Instr::Pop(BX))]);
    put_routine_before(code, PRODUCT, places + 1);
}

/// Adds a product times a power of two, without its last check.
fn put_product_before(code: &mut Draft, line: u16, scale: i8)
    requires { HasCode (order.Mul scale line) }
    ensures { Adds code.old (product_before line scale) code.new }
{
    if scale >= 0 {
        put_product_up_before(code, line, scale.unsigned_abs());
    } else {
        put_product_down_before(code, line, scale.unsigned_abs() - 1);
    }
}

/// Adds a product and its check.
fn put_product_checked(code: &mut Draft, short: bool, line: u16, scale: i8, call: u32)
    requires { HasCode (order.Mul scale line) }
    ensures { Adds code.old (product_before line scale
        ++ checked_by short line (length code.old.assembly.bytes + pieces_size (product_before line scale)) call)
        code.new }
{
    put_product_before(code, line, scale);
    put_check(code, short, line, call);
}

/// Adds a product that is scaled down by so many places and one more, and always fits.
fn put_product_far(code: &mut Draft, places: u8)
    requires { 15 ≤ places }
    ensures { Adds code.old (product_down 0 false places) code.new }
{
    code.put_all(&[
        Coded::Whole(Instr::Pop(BX)),
        Coded::Whole(multiply(BX)),
        Coded::Whole(load(AX, Rm::Reg(DX))),
        Coded::Whole(set_word(CX, u16::from(places - 15))),
        Coded::Whole(shift_down_signed(AX)),
    ]);
}

/// Adds a product times a power of two, and its check, where it has one.
pub(crate) fn put_product(code: &mut Draft, short: bool, line: u16, scale: i8, call: u32)
    requires { HasCode (order.Mul scale line) }
    ensures { Adds code.old (ended_by short (is_checked scale) (product line scale) (product_before line scale) line
        (length code.old.assembly.bytes) call) code.new }
{
    if is_checked(scale) {
        put_product_checked(code, short, line, scale, call);
    } else {
        let places = scale.unsigned_abs() - 1;
        put_product_far(code, places);
    }
}

/// Adds the code that takes a divisor to BX and tests it, with the dividend in AX.
fn put_divisor_tested(code: &mut Draft, line: u16)
    ensures { Adds code.old (divisor_tested line) code.new }
{
    code.put_all(&[
        Coded::Whole(copy(BX, AX)),
        Coded::Whole(Instr::Pop(AX)),
        Coded::Whole(either(BX, BX)),
        Coded::Whole(jump_if_unequal(5)),
        Coded::Call(Target::LibraryAhead(ZERO_DIVISOR)),
        Coded::Data(line),
    ]);
}

/// Adds a quotient times a power of two, without its last check.
fn put_quotient_before(code: &mut Draft, line: u16, scale: i8)
    ensures { Adds code.old (quotient_before line scale) code.new }
{
    put_divisor_tested(code, line);
    if scale >= 0 {
        put_routine_before(code, QUOTIENT_UP, scale.unsigned_abs());
    } else {
        put_routine_before(code, QUOTIENT_DOWN, scale.unsigned_abs());
    }
}

/// Adds a quotient times a power of two, and its check.
pub(crate) fn put_quotient(code: &mut Draft, short: bool, line: u16, scale: i8, call: u32)
    ensures { Adds code.old (ended_by short true (quotient line scale) (quotient_before line scale) line
        (length code.old.assembly.bytes) call) code.new }
{
    put_quotient_before(code, line, scale);
    put_check(code, short, line, call);
}
