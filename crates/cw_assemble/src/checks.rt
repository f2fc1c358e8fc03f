//! Code that ends with a check for an overflow: the check is whole, or jumps back to a CALL of the stop.
ghost use Rattle.std.specs.Prelude.{◌≡◌, ◌+◌, ◌∷◌, length};
ghost use Rattle.cw_i86.specs.Encoding.{IsInstr};
ghost use Rattle.cw_i86.specs.declared.instr.Instr.TheVariants as i86;
ghost use Rattle.cw_assemble.specs.Growing.{Adds};
ghost use Rattle.cw_tmpl.specs.declared.pieces.Coded.TheVariants as coded;
ghost use Rattle.cw_tmpl.specs.Mnemonics as mnemonics;
ghost use Rattle.cw_tmpl.specs.Templates.{checked_by, counted};

use crate::arithmetic::{put_checked, put_less};
use crate::draft::Draft;
use crate::jumping::short_distance;
use cw_i86::Instr;
use cw_tmpl::Coded;
use cw_tmpl::instructions::{AX, BX, add, decrease, increase, jump_if_overflow, negate};

/// Adds the check that ends a block: whole, or a jump to a place where the stop is called.
pub(crate) fn put_check(code: &mut Draft, short: bool, line: u16, to: u32)
    ensures { Adds code.old (checked_by short line (length code.old.assembly.bytes) to) code.new }
{
    if short {
        let end = code.assembly.bytes.as_slice().len() + 2;
        code.put_all(&[Coded::Whole(jump_if_overflow(short_distance(end, to as usize)))]);
    } else {
        put_checked(code, line);
    }
}

/// One less, or more, in AX.
fn counted(down: bool) -> Instr
    ensures value { result ≡ counted down }
    ensures coded { IsInstr result }
{
    if down { decrease(AX) } else { increase(AX) }
}

/// Adds one more, or less, in AX, and the check.
pub(crate) fn put_count(code: &mut Draft, short: bool, down: bool, line: u16, to: u32)
    ensures { Adds code.old (coded.Whole (counted down) ∷ checked_by short line (length code.old.assembly.bytes + 1) to) code.new }
{
    code.put_all(&[Coded::Whole(counted(down))]);
    put_check(code, short, line, to);
}

/// Adds a sum of the two operands on top, and its check.
pub(crate) fn put_add(code: &mut Draft, short: bool, line: u16, to: u32)
    ensures { Adds code.old (coded.Whole (i86.Pop 3) ∷ coded.Whole (mnemonics.add 0 3)
        ∷ checked_by short line (length code.old.assembly.bytes + 3) to) code.new }
{
    code.put_all(&[Coded::Whole(Instr::Pop(BX)), Coded::Whole(add(AX, BX))]);
    put_check(code, short, line, to);
}

/// Adds a difference, and its check.
pub(crate) fn put_sub(code: &mut Draft, short: bool, line: u16, to: u32)
    ensures { Adds code.old (coded.Whole (mnemonics.move 3 0) ∷ coded.Whole (i86.Pop 0)
        ∷ coded.Whole (mnemonics.subtract 0 3) ∷ checked_by short line (length code.old.assembly.bytes + 5) to)
        code.new }
{
    put_less(code);
    put_check(code, short, line, to);
}

/// Adds a negative, and its check.
pub(crate) fn put_neg(code: &mut Draft, short: bool, line: u16, to: u32)
    ensures { Adds code.old (coded.Whole (mnemonics.negate 0) ∷ checked_by short line (length code.old.assembly.bytes + 2) to) code.new }
{
    code.put_all(&[Coded::Whole(negate(AX))]);
    put_check(code, short, line, to);
}
