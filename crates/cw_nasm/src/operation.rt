//! The name and the operands of an instruction in NASM's syntax, and whether NASM gives back its bytes.
ghost use Rattle.std.specs.Prelude.{◌≡◌, ◌<◌};
ghost use Rattle.cw_i86.specs.State.{sign_extended};
ghost use Rattle.cw_nasm.specs.Operations.{mnemonic_of, width_of, operand_of, sized, number_of, whole_number_of};
ghost use Rattle.cw_nasm.specs.Operations.{direct, in_order, target, short_target, near_target};
ghost use Rattle.cw_nasm.specs.Operations.{shift_count, operands_of, named_place, is_register, is_accumulator, is_direct, stays_within, is_given_back};

use crate::names::{condition, loop_name, shift, sum, unary};
use cw_i86::{Imm, Instr, Mem, Place, Rm};

/// How wide an operand in memory is, where that is said.
#[derive(Clone, Copy)]
pub enum Width {
    Unsaid,
    Byte,
    Word,
}

/// An operand as it is written.
#[derive(Clone, Copy)]
pub enum Operand {
    Nothing,
    Register { wide: bool, reg: u8 },
    Memory { width: Width, mem: Mem },
    Number(u16),
    /// A word, also where NASM would take a byte that is sign-extended.
    StrictWord(u16),
    /// A byte that is sign-extended.
    Signed(u8),
    /// The label of a place.
    Label(u16),
}

/// The name of an instruction.
pub(crate) fn mnemonic(instr: &Instr) -> &'static [u8]
    ensures { result.now ≡ mnemonic_of instr.now }
{
    match *instr {
        Instr::AluRm { op, .. }
        | Instr::AluAcc { op, .. }
        | Instr::AluImm { op, .. }
        | Instr::AluShort { op, .. } => sum(op),
        Instr::Inc(_) => b"inc",
        Instr::Dec(_) => b"dec",
        Instr::Push(_) | Instr::PushRm(_) => b"push",
        Instr::Pop(_) => b"pop",
        Instr::JumpIf { cond, .. } => condition(cond),
        Instr::TestRm { .. } | Instr::TestAcc(_) | Instr::TestImm { .. } => b"test",
        Instr::XchgRm { .. } => b"xchg",
        Instr::Mov { .. } | Instr::MovAcc { .. } | Instr::MovImm { .. } | Instr::MovRm { .. } => {
            b"mov"
        }
        Instr::Lea { .. } => b"lea",
        Instr::XchgAx(reg) => if reg == 0 { b"nop" } else { b"xchg" },
        Instr::Cbw => b"cbw",
        Instr::Cwd => b"cwd",
        Instr::PushF => b"pushf",
        Instr::PopF => b"popf",
        Instr::Sahf => b"sahf",
        Instr::Lahf => b"lahf",
        Instr::RetAdd(_) | Instr::Ret => b"ret",
        Instr::Shift { op, .. } => shift(op),
        Instr::Loop { kind, .. } => loop_name(kind),
        Instr::In(_) => b"in",
        Instr::Out(_) => b"out",
        Instr::Call(_) | Instr::CallRm(_) => b"call",
        Instr::Jump(_) => b"jmp near",
        Instr::JumpShort(_) => b"jmp short",
        Instr::JumpRm(_) => b"jmp",
        Instr::Hlt => b"hlt",
        Instr::Cmc => b"cmc",
        Instr::Clc => b"clc",
        Instr::Stc => b"stc",
        Instr::Unary { op, .. } => unary(op),
        Instr::IncDec { down, .. } => if down { b"dec" } else { b"inc" },
    }
}

fn width_of(wide: bool) -> Width
    ensures { result ≡ width_of wide }
{
    if wide { Width::Word } else { Width::Byte }
}

// An operand beside a register, which tells the width.
fn operand_of(wide: bool, rm: Rm) -> Operand
    ensures { result ≡ operand_of wide rm }
{
    match rm {
        Rm::Reg(reg) => Operand::Register { wide, reg },
        Rm::Mem(mem) => Operand::Memory {
            width: Width::Unsaid,
            mem,
        },
    }
}

// An operand that tells its width itself.
fn sized(wide: bool, rm: Rm) -> Operand
    ensures { result ≡ sized wide rm }
{
    match rm {
        Rm::Reg(reg) => Operand::Register { wide, reg },
        Rm::Mem(mem) => Operand::Memory {
            width: width_of(wide),
            mem,
        },
    }
}

fn number_of(imm: Imm) -> Operand
    ensures { result ≡ number_of imm }
{
    match imm {
        Imm::Byte(byte) => Operand::Number(u16::from(byte)),
        Imm::Word(word) => Operand::Number(word),
    }
}

fn whole_number_of(imm: Imm) -> Operand
    ensures { result ≡ whole_number_of imm }
{
    match imm {
        Imm::Byte(byte) => Operand::Number(u16::from(byte)),
        Imm::Word(word) => Operand::StrictWord(word),
    }
}

fn direct(cs: bool, at: u16) -> Operand
    ensures { result ≡ direct cs at }
{
    Operand::Memory {
        width: Width::Unsaid,
        mem: Mem {
            cs,
            place: Place::Direct(at),
        },
    }
}

fn in_order(first: Operand, second: Operand, as_said: bool) -> (Operand, Operand)
    ensures { result ≡ in_order first second as_said }
{
    if as_said {
        (first, second)
    } else {
        (second, first)
    }
}

// Where an instruction goes on by a displacement.
fn target(place: u16, size: u32, ahead: u16) -> u16
    requires { size < 8 }
    ensures { result ≡ target place size ahead }
{
    ((u32::from(place) + size + u32::from(ahead)) % 65536) as u16
}

fn sign_extended(byte: u8) -> u16
    ensures { result ≡ sign_extended byte }
{
    if byte < 128 {
        u16::from(byte)
    } else {
        u16::from(byte) + 65280
    }
}

// Where a jump of two bytes at a place goes on by its displacement.
fn short_target(place: u16, by: u8) -> u16
    ensures { result ≡ short_target place by }
{
    target(place, 2, sign_extended(by))
}

// Where a call or jump of three bytes at a place goes on.
fn near_target(place: u16, by: u16) -> u16
    ensures { result ≡ near_target place by }
{
    target(place, 3, by)
}

fn one(operand: Operand) -> (Operand, Operand)
    ensures { result ≡ (operand, Operand.Nothing) }
{
    (operand, Operand::Nothing)
}

fn register(wide: bool, reg: u8) -> Operand
    ensures { result ≡ Operand.Register wide reg }
{
    Operand::Register { wide, reg }
}

fn shift_count(by_cl: bool) -> Operand
    ensures { result ≡ shift_count by_cl }
{
    if by_cl {
        register(false, 1)
    } else {
        Operand::Number(1)
    }
}

/// The operands of an instruction at a place.
pub(crate) fn operands(instr: &Instr, place: u16) -> (Operand, Operand)
    ensures { result ≡ operands_of instr.now place }
{
    match *instr {
        Instr::AluRm {
            wide,
            to_reg,
            reg,
            rm,
            ..
        } => in_order(register(wide, reg), operand_of(wide, rm), to_reg),
        Instr::AluAcc { imm, .. } => (register(imm.is_word(), 0), whole_number_of(imm)),
        Instr::Inc(reg) => one(register(true, reg)),
        Instr::Dec(reg) => one(register(true, reg)),
        Instr::Push(reg) => one(register(true, reg)),
        Instr::Pop(reg) => one(register(true, reg)),
        Instr::JumpIf { by, .. } => one(Operand::Label(short_target(place, by))),
        Instr::AluImm { rm, imm, .. } => (sized(imm.is_word(), rm), whole_number_of(imm)),
        Instr::AluShort { rm, imm, .. } => (sized(true, rm), Operand::Signed(imm)),
        Instr::TestRm { wide, reg, rm } => (operand_of(wide, rm), register(wide, reg)),
        Instr::XchgRm { wide, reg, rm } => (register(wide, reg), operand_of(wide, rm)),
        Instr::Mov {
            wide,
            to_reg,
            reg,
            rm,
        } => in_order(register(wide, reg), operand_of(wide, rm), to_reg),
        Instr::Lea { reg, mem } => (
            register(true, reg),
            Operand::Memory {
                width: Width::Unsaid,
                mem,
            },
        ),
        Instr::XchgAx(reg) => if reg == 0 {
            one(Operand::Nothing)
        } else {
            (register(true, 0), register(true, reg))
        },
        Instr::MovAcc {
            cs,
            wide,
            store,
            at,
        } => in_order(direct(cs, at), register(wide, 0), store),
        Instr::TestAcc(imm) => (register(imm.is_word(), 0), number_of(imm)),
        Instr::MovImm { reg, imm } => (register(imm.is_word(), reg), number_of(imm)),
        Instr::RetAdd(words) => one(Operand::Number(words)),
        Instr::MovRm { rm, imm } => (sized(imm.is_word(), rm), number_of(imm)),
        Instr::Shift {
            wide,
            by_cl,
            rm,
            ..
        } => (sized(wide, rm), shift_count(by_cl)),
        Instr::Loop { by, .. } => one(Operand::Label(short_target(place, by))),
        Instr::In(port) => (register(false, 0), Operand::Number(u16::from(port))),
        Instr::Out(port) => (Operand::Number(u16::from(port)), register(false, 0)),
        Instr::Call(by) => one(Operand::Label(near_target(place, by))),
        Instr::Jump(by) => one(Operand::Label(near_target(place, by))),
        Instr::JumpShort(by) => one(Operand::Label(short_target(place, by))),
        Instr::TestImm { rm, imm } => (sized(imm.is_word(), rm), number_of(imm)),
        Instr::Unary { wide, rm, .. } => one(sized(wide, rm)),
        Instr::IncDec { wide, rm, .. } => one(sized(wide, rm)),
        Instr::CallRm(rm) => one(sized(true, rm)),
        Instr::JumpRm(rm) => one(sized(true, rm)),
        Instr::PushRm(rm) => one(sized(true, rm)),
        _ => one(Operand::Nothing),
    }
}

/// The place that a call or jump names in its operand.
pub fn named_place(instr: &Instr, place: u16) -> Option<u16>
    ensures { result ≡ named_place instr.now place }
{
    match *instr {
        Instr::JumpIf { by, .. } => Some(short_target(place, by)),
        Instr::Loop { by, .. } => Some(short_target(place, by)),
        Instr::Call(by) => Some(near_target(place, by)),
        Instr::Jump(by) => Some(near_target(place, by)),
        Instr::JumpShort(by) => Some(short_target(place, by)),
        _ => None,
    }
}

fn is_register(rm: Rm) -> bool
    ensures { result ≡ is_register rm }
{
    match rm {
        Rm::Reg(_) => true,
        Rm::Mem(_) => false,
    }
}

// AL or AX.
fn is_accumulator(rm: Rm) -> bool
    ensures { result ≡ is_accumulator rm }
{
    match rm {
        Rm::Reg(reg) => reg == 0,
        Rm::Mem(_) => false,
    }
}

fn is_direct(rm: Rm) -> bool
    ensures { result ≡ is_direct rm }
{
    match rm {
        Rm::Mem(mem) => match mem.place {
            Place::Direct(_) => true,
            _ => false,
        },
        Rm::Reg(_) => false,
    }
}

// Whether the way of a short jump passes neither end of the segment.
fn stays_within(place: u16, by: u8) -> bool
    ensures { result ≡ stays_within place by }
{
    let ahead = u32::from(place) + 2 + u32::from(by);
    if by < 128 {
        ahead < 65536
    } else {
        ahead >= 256
    }
}

/// Whether NASM, given the text of an instruction, gives just its bytes.
pub(crate) fn is_given_back(instr: &Instr, place: u16) -> bool
    ensures { result ≡ is_given_back instr.now place }
{
    match *instr {
        Instr::AluRm { to_reg, rm, .. } => !(to_reg && is_register(rm)),
        Instr::JumpIf { by, .. } => stays_within(place, by),
        Instr::AluImm { rm, .. } => !is_accumulator(rm),
        Instr::XchgRm { wide, reg, rm } => !(wide
            && is_register(rm)
            && (reg == 0 || is_accumulator(rm))),
        Instr::Mov {
            to_reg,
            reg,
            rm,
            ..
        } => !(to_reg && is_register(rm)) && !(reg == 0 && is_direct(rm)),
        Instr::MovRm { rm, .. } => !is_register(rm),
        Instr::Loop { by, .. } => stays_within(place, by),
        Instr::JumpShort(by) => stays_within(place, by),
        Instr::TestImm { rm, .. } => !is_accumulator(rm),
        Instr::IncDec { wide, rm, .. } => !(wide && is_register(rm)),
        Instr::PushRm(rm) => !is_register(rm),
        _ => true,
    }
}
