//! Code of shifts and of parts of words.
ghost use Rattle.std.specs.Prelude.{◌≡◌, ◌≤◌, ◌+◌, ◌==◌};
ghost use Rattle.cw_i86.specs.Encoding.{IsInstr};
ghost use Rattle.cw_assemble.specs.Growing.{Adds};
ghost use Rattle.cw_tmpl.specs.Templates.{shifted, shifted_up, shifted_down, shifted_down_signed, lowest_if};
ghost use Rattle.cw_tmpl.specs.Templates.{taken, taken_signed, part_taken, load_part, store_part};

use crate::draft::Draft;
use crate::words::{mask, ones};
use cw_i86::Instr;
use cw_tmpl::Coded;
use cw_tmpl::instructions::{
    AT_BX, AX, BX, CX, change, copy, double, exchange, load, operate, set_word, shift_down,
    shift_down_once, shift_down_signed, shift_down_signed_once, shift_up, shift_up_once,
    with_number,
};

/// Adds a shift of AX by a number of places, by one place or by as many as CL says; by none there is no code.
fn put_shifted(code: &mut Draft, once: Instr, by_count: Instr, places: u8)
    requires once { IsInstr once }
    requires by_count { IsInstr by_count }
    ensures { Adds code.old (shifted once by_count places) code.new }
{
    match places {
        0 => code.put_nothing(),
        1 => code.put_all(&[Coded::Whole(once)]),
        _ => code.put_all(&[
            Coded::Whole(set_word(CX, u16::from(places))),
            Coded::Whole(by_count),
        ]),
    }
}

/// Adds a shift up.
pub(crate) fn put_shifted_up(code: &mut Draft, places: u8)
    ensures { Adds code.old (shifted_up places) code.new }
{
    put_shifted(code, shift_up_once(AX), shift_up(AX), places);
}

/// Adds a shift down that brings zeros in.
fn put_shifted_down(code: &mut Draft, places: u8)
    ensures { Adds code.old (shifted_down places) code.new }
{
    put_shifted(code, shift_down_once(AX), shift_down(AX), places);
}

/// Adds a shift down that keeps the sign.
pub(crate) fn put_shifted_down_signed(code: &mut Draft, places: u8)
    ensures { Adds code.old (shifted_down_signed places) code.new }
{
    put_shifted(
        code,
        shift_down_signed_once(AX),
        shift_down_signed(AX),
        places,
    );
}

/// Adds the code that leaves the lowest bits of AX, where it has others.
fn put_lowest(code: &mut Draft, t: u8, b: u8)
    requires { t + b ≤ 16 }
    ensures { Adds code.old (lowest_if (t + b == 16) t) code.new }
{
    if t + b == 16 {
        code.put_nothing();
    } else {
        code.put_all(&[Coded::Whole(with_number(4, ones(t)))]);
    }
}

/// Adds the code that takes an operand and puts a part of it.
pub(crate) fn put_take(code: &mut Draft, t: u8, b: u8)
    requires { t + b ≤ 16 }
    ensures { Adds code.old (taken t b) code.new }
{
    put_shifted_down(code, b);
    put_lowest(code, t, b);
}

/// The same of a part with a sign.
fn put_take_signed(code: &mut Draft, t: u8, b: u8)
    requires { t + b ≤ 16 }
    ensures { Adds code.old (taken_signed t b) code.new }
{
    put_shifted_up(code, 16 - (t + b));
    put_shifted_down_signed(code, 16 - t);
}

/// Adds the code that takes an operand and puts a part of it, with a sign or without one.
pub(crate) fn put_part_taken(code: &mut Draft, t: u8, b: u8, signed: bool)
    requires { t + b ≤ 16 }
    ensures { Adds code.old (part_taken t b signed) code.new }
{
    if signed {
        put_take_signed(code, t, b);
    } else {
        put_take(code, t, b);
    }
}

/// Adds the code that takes an address and puts a part of the word there.
pub(crate) fn put_load_part(code: &mut Draft, t: u8, b: u8, signed: bool)
    requires { t + b ≤ 16 }
    ensures { Adds code.old (load_part t b signed) code.new }
{
    code.put_all(&[
        Coded::Whole(exchange()),
        Coded::Whole(double(BX)),
        Coded::Whole(load(AX, AT_BX)),
    ]);
    put_part_taken(code, t, b, signed);
}

/// Adds the code that takes an address, and below it a value, which it stores in a part of the word there.
pub(crate) fn put_store_part(code: &mut Draft, t: u8, b: u8)
    requires some { 1 ≤ t }
    requires within { t + b ≤ 16 }
    ensures { Adds code.old (store_part t b) code.new }
{
    code.put_all(&[
        Coded::Whole(copy(BX, AX)),
        Coded::Whole(Instr::Pop(AX)),
        Coded::Whole(double(BX)),
    ]);
    put_shifted_up(code, b);
    code.put_all(&[
        Coded::Whole(operate(6, AX, AT_BX)),
        Coded::Whole(with_number(4, mask(t, b))),
        Coded::Whole(change(6, AT_BX, AX)),
    ]);
}
