//! Registers, and short words for the instructions that the templates use.
ghost use Rattle.std.specs.Prelude.{◌≡◌, ◌≤◌, ◌<◌};
ghost use Rattle.cw_run86.specs.Views.{with_number};
ghost use Rattle.cw_i86.specs.Encoding.{IsRm};
ghost use Rattle.cw_tmpl.specs.Mnemonics as mnemonics;

use cw_i86::{Imm, Instr, Mem, Place, Rm};

pub const AX: u8 = 0;

pub const CX: u8 = 1;

pub const DX: u8 = 2;

pub const BX: u8 = 3;

pub const SP: u8 = 4;

pub const BP: u8 = 5;

pub const SI: u8 = 6;

pub const DI: u8 = 7;

/// What BP holds where the base record is at work, and what SP then holds where there are no operands.
pub const BASE_RECORD: u16 = 0;

pub const BASE_OPERANDS: u16 = 0xFFF8;

/// How far the last word of a record is below its BP.
pub const RECORD_DEPTH: u16 = 8;

/// The word of the activation record that holds the number of the segment, at BP - 2.
pub const SEGMENT: Rm = Rm::Mem(Mem {
    cs: false,
    place: Place::Near(6, 0xFE),
});

/// The word that holds the calls that are left, at BP - 4.
pub const CALLS: Rm = Rm::Mem(Mem {
    cs: false,
    place: Place::Near(6, 0xFC),
});

/// The word that holds how many words of the data area are behind the frame, at BP - 8.
pub const REST: Rm = Rm::Mem(Mem {
    cs: false,
    place: Place::Near(6, 0xF8),
});

/// The word that holds twice the frame base, at BP - 6.
pub const BASE: Rm = Rm::Mem(Mem {
    cs: false,
    place: Place::Near(6, 0xFA),
});

/// The word of the data segment at BX.
pub const AT_BX: Rm = Rm::Mem(Mem {
    cs: false,
    place: Place::Plain(7),
});

/// The word of the data segment at SI.
pub const AT_SI: Rm = Rm::Mem(Mem {
    cs: false,
    place: Place::Plain(4),
});

/// The word of the data segment at 0.
pub const AT_ZERO: Rm = Rm::Mem(Mem {
    cs: false,
    place: Place::Direct(0),
});

/// The word of the code at 0.
pub const CODE_AT_ZERO: Rm = Rm::Mem(Mem {
    cs: true,
    place: Place::Direct(0),
});

/// An operation of the arithmetic unit on a register and a number.
pub fn operate_number(operation: u8, reg: u8, word: u16) -> Instr
    ensures { result ≡ mnemonics.operate_number operation reg word }
{
    Instr::AluImm {
        op: operation,
        rm: Rm::Reg(reg),
        imm: Imm::Word(word),
    }
}

/// CMP of a word of memory and a number.
pub fn compare_number(rm: Rm, word: u16) -> Instr
    ensures { result ≡ mnemonics.compare_number rm word }
{
    Instr::AluImm {
        op: 7,
        rm,
        imm: Imm::Word(word),
    }
}

/// MOV of a word into a register.
pub fn set_word(reg: u8, word: u16) -> Instr
    ensures { result ≡ mnemonics.set_word reg word }
{
    Instr::MovImm {
        reg,
        imm: Imm::Word(word),
    }
}

/// MOV of an operand into a register.
pub fn load(reg: u8, rm: Rm) -> Instr
    ensures { result ≡ mnemonics.load reg rm }
{
    Instr::Mov {
        wide: true,
        to_reg: true,
        reg,
        rm,
    }
}

/// MOV of a register into an operand.
pub fn store(rm: Rm, reg: u8) -> Instr
    ensures { result ≡ mnemonics.store rm reg }
{
    Instr::Mov {
        wide: true,
        to_reg: false,
        reg,
        rm,
    }
}

/// MOV of registers.
pub fn copy(to: u8, from: u8) -> Instr
    ensures { result ≡ mnemonics.move to from }
{
    load(to, Rm::Reg(from))
}

/// ADD of registers.
pub fn add(to: u8, from: u8) -> Instr
    ensures { result ≡ mnemonics.add to from }
{
    Instr::AluRm {
        op: 0,
        wide: true,
        to_reg: true,
        reg: to,
        rm: Rm::Reg(from),
    }
}

/// SUB of registers.
pub fn subtract(to: u8, from: u8) -> Instr
    ensures { result ≡ mnemonics.subtract to from }
{
    Instr::AluRm {
        op: 5,
        wide: true,
        to_reg: true,
        reg: to,
        rm: Rm::Reg(from),
    }
}

/// CMP of registers.
pub fn compare(left: u8, right: u8) -> Instr
    ensures { result ≡ mnemonics.compare left right }
{
    Instr::AluRm {
        op: 7,
        wide: true,
        to_reg: true,
        reg: left,
        rm: Rm::Reg(right),
    }
}

/// NEG of a register.
pub fn negate(reg: u8) -> Instr
    ensures { result ≡ mnemonics.negate reg }
{
    Instr::Unary {
        op: 3,
        wide: true,
        rm: Rm::Reg(reg),
    }
}

/// SHL of a register by one.
pub fn double(reg: u8) -> Instr
    ensures { result ≡ mnemonics.double reg }
{
    Instr::Shift {
        op: 4,
        wide: true,
        by_cl: false,
        rm: Rm::Reg(reg),
    }
}

/// JO.
pub fn jump_if_overflow(by: u8) -> Instr
    ensures { result ≡ mnemonics.jump_if_overflow by }
{
    Instr::JumpIf { cond: 0, by }
}

/// JNO.
pub fn jump_if_no_overflow(by: u8) -> Instr
    ensures { result ≡ mnemonics.jump_if_no_overflow by }
{
    Instr::JumpIf { cond: 1, by }
}

/// AND of registers.
pub fn both(to: u8, from: u8) -> Instr
    ensures { result ≡ mnemonics.both to from }
{
    Instr::AluRm {
        op: 4,
        wide: true,
        to_reg: true,
        reg: to,
        rm: Rm::Reg(from),
    }
}

/// OR of registers.
pub fn either(to: u8, from: u8) -> Instr
    ensures { result ≡ mnemonics.either to from }
{
    Instr::AluRm {
        op: 1,
        wide: true,
        to_reg: true,
        reg: to,
        rm: Rm::Reg(from),
    }
}

/// A number in AX: 0 by XOR, which is shorter.
pub fn set_ax(word: u16) -> Instr
    ensures { result ≡ mnemonics.set_ax word }
{
    match word {
        0 => one_of(AX, AX),
        _ => set_word(AX, word),
    }
}

/// XOR of registers.
pub fn one_of(to: u8, from: u8) -> Instr
    ensures { result ≡ mnemonics.one_of to from }
{
    Instr::AluRm {
        op: 6,
        wide: true,
        to_reg: true,
        reg: to,
        rm: Rm::Reg(from),
    }
}

/// SHL of a register by CL.
pub fn shift_up(reg: u8) -> Instr
    ensures { result ≡ mnemonics.shift_up reg }
{
    Instr::Shift {
        op: 4,
        wide: true,
        by_cl: true,
        rm: Rm::Reg(reg),
    }
}

/// SHR of a register by CL.
pub fn shift_down(reg: u8) -> Instr
    ensures { result ≡ mnemonics.shift_down reg }
{
    Instr::Shift {
        op: 5,
        wide: true,
        by_cl: true,
        rm: Rm::Reg(reg),
    }
}

/// SAR of a register by CL.
pub fn shift_down_signed(reg: u8) -> Instr
    ensures { result ≡ mnemonics.shift_down_signed reg }
{
    Instr::Shift {
        op: 7,
        wide: true,
        by_cl: true,
        rm: Rm::Reg(reg),
    }
}

/// SHL of a register by one place.
pub fn shift_up_once(reg: u8) -> Instr
    ensures { result ≡ mnemonics.shift_up_once reg }
{
    Instr::Shift {
        op: 4,
        wide: true,
        by_cl: false,
        rm: Rm::Reg(reg),
    }
}

/// SHR of a register by one place.
pub fn shift_down_once(reg: u8) -> Instr
    ensures { result ≡ mnemonics.shift_down_once reg }
{
    Instr::Shift {
        op: 5,
        wide: true,
        by_cl: false,
        rm: Rm::Reg(reg),
    }
}

/// SAR of a register by one place.
pub fn shift_down_signed_once(reg: u8) -> Instr
    ensures { result ≡ mnemonics.shift_down_signed_once reg }
{
    Instr::Shift {
        op: 7,
        wide: true,
        by_cl: false,
        rm: Rm::Reg(reg),
    }
}

/// INC of a register.
pub fn increase(reg: u8) -> Instr
    ensures { result ≡ mnemonics.increase reg }
{
    Instr::Inc(reg)
}

/// DEC of a register.
pub fn decrease(reg: u8) -> Instr
    ensures { result ≡ mnemonics.decrease reg }
{
    Instr::Dec(reg)
}

/// An operation of the arithmetic unit, by its number, on a register, which changes, and an operand.
pub fn operate(operation: u8, reg: u8, rm: Rm) -> Instr
    ensures { result ≡ mnemonics.operate operation reg rm }
{
    Instr::AluRm {
        op: operation,
        wide: true,
        to_reg: true,
        reg,
        rm,
    }
}

/// The same on an operand, which changes, and a register.
pub fn change(operation: u8, rm: Rm, reg: u8) -> Instr
    ensures { result ≡ mnemonics.change operation rm reg }
{
    Instr::AluRm {
        op: operation,
        wide: true,
        to_reg: false,
        reg,
        rm,
    }
}

/// IMUL by a register.
pub fn multiply(reg: u8) -> Instr
    ensures { result ≡ mnemonics.multiply reg }
{
    Instr::Unary {
        op: 5,
        wide: true,
        rm: Rm::Reg(reg),
    }
}

/// IDIV by a register.
pub fn divide_signed(reg: u8) -> Instr
    ensures { result ≡ mnemonics.divide_signed reg }
{
    Instr::Unary {
        op: 7,
        wide: true,
        rm: Rm::Reg(reg),
    }
}

/// JB.
pub fn jump_if_below(by: u8) -> Instr
    ensures { result ≡ mnemonics.jump_if_below by }
{
    Instr::JumpIf { cond: 2, by }
}

/// JZ.
pub fn jump_if_equal(by: u8) -> Instr
    ensures { result ≡ mnemonics.jump_if_equal by }
{
    Instr::JumpIf { cond: 4, by }
}

/// JNZ.
pub fn jump_if_unequal(by: u8) -> Instr
    ensures { result ≡ mnemonics.jump_if_unequal by }
{
    Instr::JumpIf { cond: 5, by }
}

/// JNB.
pub fn jump_if_not_below(by: u8) -> Instr
    ensures { result ≡ mnemonics.jump_if_not_below by }
{
    Instr::JumpIf { cond: 3, by }
}

/// JCXZ.
pub fn jump_if_cx_zero(by: u8) -> Instr
    ensures { result ≡ mnemonics.jump_if_cx_zero by }
{
    Instr::Loop { kind: 3, by }
}

/// JNL.
pub fn jump_if_not_less(by: u8) -> Instr
    ensures { result ≡ mnemonics.jump_if_not_less by }
{
    Instr::JumpIf { cond: 13, by }
}

/// JLE.
pub fn jump_if_at_most(by: u8) -> Instr
    ensures { result ≡ mnemonics.jump_if_at_most by }
{
    Instr::JumpIf { cond: 14, by }
}

/// XCHG of AX and BX.
pub fn exchange() -> Instr
    ensures { result ≡ mnemonics.exchange }
{
    Instr::XchgAx(BX)
}

/// JMP to the place in a register.
pub fn jump_to(reg: u8) -> Instr
    ensures { result ≡ mnemonics.jump_to reg }
{
    Instr::JumpRm(Rm::Reg(reg))
}

/// An operation of the arithmetic unit, by its number, on AX and a word.
pub fn with_number(operation: u8, word: u16) -> Instr
    requires { operation < 8 }
    ensures { result ≡ with_number operation word }
{
    Instr::AluAcc {
        op: operation,
        imm: Imm::Word(word),
    }
}

/// The argument that so many words of arguments follow.
pub fn argument(words: u16) -> Rm
    requires { words ≤ 256 }
    ensures value { result ≡ mnemonics.argument words }
    ensures operand { IsRm result }
{
    let by = 4 + 2 * words;
    if by < 128 {
        Rm::Mem(Mem {
            cs: false,
            place: Place::Near(6, by as u8),
        })
    } else {
        Rm::Mem(Mem {
            cs: false,
            place: Place::Far(6, by),
        })
    }
}

/// The word of the data segment so many bytes behind BX, with no more bytes for its displacement than it needs.
pub fn field(by: u16) -> Rm
    ensures value { result ≡ mnemonics.field by }
    ensures operand { IsRm result }
{
    if by == 0 {
        AT_BX
    } else if by < 128 {
        Rm::Mem(Mem {
            cs: false,
            place: Place::Near(7, by as u8),
        })
    } else {
        Rm::Mem(Mem {
            cs: false,
            place: Place::Far(7, by),
        })
    }
}

/// The word of a table of the code that begins at a place, by BX.
pub fn entry_of_table(place: u16) -> Rm
    ensures { result ≡ mnemonics.entry_of_table place }
{
    Rm::Mem(Mem {
        cs: true,
        place: Place::Far(7, place),
    })
}
