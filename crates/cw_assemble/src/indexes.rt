//! Code of indexes and addresses.
ghost use Rattle.std.specs.Prelude.{◌≡◌, ◌<◌, ◌++◌, ◌∷◌, []};
ghost use Rattle.cw_i86.specs.declared.instr.Instr.TheVariants as i86;
ghost use Rattle.cw_tmpl.specs.declared.pieces.Coded.TheVariants as coded;
ghost use Rattle.cw_assemble.specs.Growing.{Adds};
ghost use Rattle.cw_tmpl.specs.Library.{address_entry};
ghost use Rattle.cw_tmpl.specs.Mnemonics.{move, add};
ghost use Rattle.cw_tmpl.specs.Templates.{index_by, less_bound, plus_word, times, times_width, base_kept, based, element, in_row, element_of_two, element_inside};
ghost use Rattle.cw_tmpl.specs.Templates.{top_from_lower, times_entry, entry, in_area, call_at_line, indexes_between, top_below, with_both_bounds, in_bounds};

use crate::arithmetic::put_times;
use crate::draft::Draft;
use cw_i86::Instr;
use cw_tmpl::instructions::{
    AX, BX, CX, DI, DX, SI, add, compare, copy, jump_if_at_most, jump_if_below,
    jump_if_no_overflow, jump_if_not_less, multiply, set_word, with_number,
};
use cw_tmpl::library::{ADDRESS, BOUNDS};
use cw_tmpl::{Coded, Target};

/// Adds an operation of the arithmetic unit on AX and a number, on the way to an address.
fn put_index_by(code: &mut Draft, operation: u8, line: u16, word: u16)
    requires { operation < 8 }
    ensures { Adds code.old (index_by operation line word) code.new }
{
    code.put_all(&[
        Coded::Whole(with_number(operation, word)),
        Coded::Whole(jump_if_no_overflow(5)),
        Coded::Call(Target::LibraryAhead(ADDRESS)),
        Coded::Data(line),
    ]);
}

/// Adds the code of an index less the lower bound.
fn put_less_bound(code: &mut Draft, line: u16, lower: i16)
    ensures { Adds code.old (less_bound line lower) code.new }
{
    if lower == 0 {
        code.put_nothing();
    } else {
        put_index_by(code, 5, line, lower.cast_unsigned());
    }
}

/// Adds the code that adds the place of a word in its entry.
fn put_plus_word(code: &mut Draft, line: u16, word: u16)
    ensures { Adds code.old (plus_word line word) code.new }
{
    if word == 0 {
        code.put_nothing();
    } else {
        put_index_by(code, 0, line, word);
    }
}

/// Adds the code of the number of an entry times its words.
fn put_times_width(code: &mut Draft, line: u16, width: u16)
    ensures { Adds code.old (times_width line width) code.new }
{
    if width == 1 {
        code.put_nothing();
    } else {
        put_times(code, ADDRESS, line, width);
    }
}

/// Adds the code that takes the base to SI.
fn put_base_kept(code: &mut Draft)
    ensures { Adds code.old base_kept code.new }
{
    code.put_all(&[Coded::Whole(copy(SI, AX)), Coded::Whole(Instr::Pop(AX))]);
}

/// Adds the code that adds the base, and tests the address.
fn put_based(code: &mut Draft, line: u16)
    ensures { Adds code.old (based line) code.new }
{
    code.put_all(&[
        Coded::Whole(add(AX, SI)),
        Coded::Whole(jump_if_no_overflow(5)),
        Coded::Call(Target::LibraryAhead(ADDRESS)),
        Coded::Data(line),
        Coded::Whole(compare(AX, DI)),
        Coded::Whole(jump_if_below(5)),
        Coded::Call(Target::LibraryAhead(ADDRESS)),
        Coded::Data(line),
    ]);
}

pub(crate) fn put_element(code: &mut Draft, line: u16, lower: i16)
    ensures { Adds code.old (element line lower) code.new }
{
    put_base_kept(code);
    put_less_bound(code, line, lower);
    put_based(code, line);
}

/// Adds the code that adds the place in the row.
fn put_in_row(code: &mut Draft, line: u16)
    ensures { Adds code.old (in_row line) code.new }
{
    code.put_all(&[
        Coded::Whole(add(AX, CX)),
        Coded::Whole(jump_if_no_overflow(5)),
        Coded::Call(Target::LibraryAhead(ADDRESS)),
        Coded::Data(line),
    ]);
}

/// Adds the code from the index of the row on.
fn put_row(code: &mut Draft, line: u16, lower: i16, width: u16)
    ensures { Adds code.old (less_bound line lower ++ (times address_entry line width ++ (in_row line ++ based line))) code.new }
{
    put_less_bound(code, line, lower);
    put_times(code, ADDRESS, line, width);
    put_in_row(code, line);
    put_based(code, line);
}

/// Adds the code that takes the place in the row to CX.
fn put_place_kept(code: &mut Draft)
    ensures { Adds code.old (coded.Whole (move 1 0) ∷ coded.Whole (i86.Pop 0) ∷ []) code.new }
{
    code.put_all(&[Coded::Whole(copy(CX, AX)), Coded::Whole(Instr::Pop(AX))]);
}

pub(crate) fn put_element_of_two(code: &mut Draft, line: u16, lower: i16, second: i16, width: u16)
    ensures { Adds code.old (element_of_two line lower second width) code.new }
{
    put_base_kept(code);
    put_less_bound(code, line, second);
    put_place_kept(code);
    put_row(code, line, lower, width);
}

/// Adds AX less a lower bound.
pub(crate) fn put_top_from_lower(code: &mut Draft, lower: i16)
    ensures { Adds code.old (top_from_lower lower) code.new }
{
    if lower == 0 {
        code.put_nothing();
    } else {
        code.put_all(&[Coded::Whole(with_number(5, lower.cast_unsigned()))]);
    }
}

/// Adds AX, which counts entries or rows, times their words.
pub(crate) fn put_times_entry(code: &mut Draft, width: u16)
    ensures { Adds code.old (times_entry width) code.new }
{
    if width == 1 {
        code.put_nothing();
    } else {
        code.put_all(&[
            Coded::Whole(set_word(BX, width)),
            Coded::Whole(multiply(BX)),
        ]);
    }
}

/// Adds the sums of the row, the place in it and the base.
fn put_sums(code: &mut Draft)
    ensures { Adds code.old (coded.Whole (add 0 1) ∷ coded.Whole (add 0 6) ∷ []) code.new }
{
    code.put_all(&[Coded::Whole(add(AX, CX)), Coded::Whole(add(AX, SI))]);
}

/// Adds the code from the index of the row on, where all numbers fit.
fn put_row_inside(code: &mut Draft, lower: i16, width: u16)
    ensures { Adds code.old (top_from_lower lower ++ (times_entry width ++ coded.Whole (add 0 1) ∷ coded.Whole (add 0 6) ∷ [])) code.new }
{
    put_top_from_lower(code, lower);
    put_times_entry(code, width);
    put_sums(code);
}

pub(crate) fn put_element_inside(code: &mut Draft, lower: i16, second: i16, width: u16)
    ensures { Adds code.old (element_inside lower second width) code.new }
{
    put_base_kept(code);
    put_top_from_lower(code, second);
    put_place_kept(code);
    put_row_inside(code, lower, width);
}

pub(crate) fn put_entry(code: &mut Draft, line: u16, width: u16, word: u16)
    ensures { Adds code.old (entry line width word) code.new }
{
    put_base_kept(code);
    put_times_width(code, line, width);
    put_plus_word(code, line, word);
    put_based(code, line);
}

/// Adds the test of an address.
pub(crate) fn put_in_area(code: &mut Draft, line: u16)
    ensures { Adds code.old (in_area line) code.new }
{
    code.put_all(&[
        Coded::Whole(compare(AX, DI)),
        Coded::Whole(jump_if_below(5)),
        Coded::Call(Target::LibraryAhead(ADDRESS)),
        Coded::Data(line),
    ]);
}

/// Adds a call of a routine of the library that takes the line in DX.
pub(crate) fn put_call_at_line(code: &mut Draft, entry: u16, line: u16)
    ensures { Adds code.old (call_at_line entry line) code.new }
{
    code.put_all(&[
        Coded::Whole(set_word(DX, line)),
        Coded::Call(Target::LibraryAhead(entry)),
    ]);
}

/// Adds the comparison of the top operand with so many indexes from 0 on.
pub(crate) fn put_top_below(code: &mut Draft, line: u16, count: u16)
    ensures { Adds code.old (top_below line count) code.new }
{
    code.put_all(&[
        Coded::Whole(with_number(7, count)),
        Coded::Whole(jump_if_below(5)),
        Coded::Call(Target::LibraryAhead(BOUNDS)),
        Coded::Data(line),
    ]);
}

/// How many indexes there are from 0 to an upper bound.
pub(crate) fn indexes_to(upper: i16) -> u16
    ensures { result ≡ indexes_between upper }
{
    if upper < 0 {
        0
    } else {
        upper.unsigned_abs() + 1
    }
}

/// Adds the comparison of the top operand with both bounds.
pub(crate) fn put_in_bounds(code: &mut Draft, line: u16, lower: i16, upper: i16)
    ensures { Adds code.old (in_bounds line lower upper) code.new }
{
    if lower == 0 {
        put_top_below(code, line, indexes_to(upper));
    } else {
        put_with_both_bounds(code, line, lower, upper);
    }
}

/// The same with each of them.
fn put_with_both_bounds(code: &mut Draft, line: u16, lower: i16, upper: i16)
    ensures { Adds code.old (with_both_bounds line lower upper) code.new }
{
    code.put_all(&[
        Coded::Whole(with_number(7, lower.cast_unsigned())),
        Coded::Whole(jump_if_not_less(5)),
        Coded::Call(Target::LibraryAhead(BOUNDS)),
        Coded::Data(line),
        Coded::Whole(with_number(7, upper.cast_unsigned())),
        Coded::Whole(jump_if_at_most(5)),
        Coded::Call(Target::LibraryAhead(BOUNDS)),
        Coded::Data(line),
    ]);
}
