// Instructions as assembly text, in the form that nasm reads.

ghost use Rattle.std.specs.Prelude.{◌≤◌};

use cw_i86::{Imm, Instr, Mem, Place, Rm};

/// Whether a text is that of an instruction.
pub fn is_assembly(i: &Instr, text: &str) -> bool {
    let Line(mnemonic, first, second) = line_of(i);
    let mut out = Text {
        bytes: [0; SIZE],
        length: 0,
    };
    out.push(mnemonic);
    if !matches!(first, Operand::Absent) {
        out.push(" ");
        out.push_operand(first);
    }
    if !matches!(second, Operand::Absent) {
        out.push(",");
        out.push_operand(second);
    }
    out.is(text)
}

/// A mnemonic and its operands.
#[derive(Drop)]
struct Line(&'static str, Operand, Operand);

#[derive(Clone, Copy)]
enum Operand {
    Absent,
    Text(&'static str),
    /// A register: whether it is of words, and its number.
    Reg(bool, u8),
    /// An operand of this width.
    Rm(bool, Rm),
    /// A place in memory, with no width.
    At(Mem),
    Number(u16),
    /// An immediate word, where one byte would do.
    Strict(u16),
    /// An immediate byte that is sign-extended.
    Byte(u8),
    /// The offset from where the instruction stands, in two's complement.
    Target(u16),
}

fn line_of(i: &Instr) -> Line {
    match *i {
        Instr::AluRm {
            op,
            wide,
            to_reg: false,
            reg,
            rm,
        } => Line(alu(op), Operand::Rm(wide, rm), Operand::Reg(wide, reg)),
        Instr::AluRm {
            op,
            wide,
            to_reg: true,
            reg,
            rm,
        } => Line(alu(op), Operand::Reg(wide, reg), Operand::Rm(wide, rm)),
        Instr::AluAcc { op, imm } => Line(alu(op), Operand::Reg(imm.is_word(), 0), strict(imm)),
        Instr::AluImm { op, rm, imm } => Line(alu(op), Operand::Rm(imm.is_word(), rm), strict(imm)),
        Instr::AluShort { op, rm, imm } => Line(alu(op), Operand::Rm(true, rm), Operand::Byte(imm)),
        Instr::Inc(reg) => with("inc", Operand::Reg(true, reg)),
        Instr::Dec(reg) => with("dec", Operand::Reg(true, reg)),
        Instr::IncDec {
            down: false,
            wide,
            rm,
        } => with("inc", Operand::Rm(wide, rm)),
        Instr::IncDec {
            down: true,
            wide,
            rm,
        } => with("dec", Operand::Rm(wide, rm)),
        Instr::TestRm { wide, reg, rm } => Line(
            "test",
            Operand::Rm(wide, rm),
            Operand::Reg(wide, reg),
        ),
        Instr::TestAcc(imm) => Line("test", Operand::Reg(imm.is_word(), 0), number(imm)),
        Instr::TestImm { rm, imm } => Line("test", Operand::Rm(imm.is_word(), rm), number(imm)),
        Instr::Shift {
            op,
            wide,
            by_cl: false,
            rm,
        } => Line(shift(op), Operand::Rm(wide, rm), Operand::Text("1")),
        Instr::Shift {
            op,
            wide,
            by_cl: true,
            rm,
        } => Line(shift(op), Operand::Rm(wide, rm), Operand::Text("cl")),
        Instr::Unary { op, wide, rm } => with(unary(op), Operand::Rm(wide, rm)),
        _ => transfer(i),
    }
}

fn transfer(i: &Instr) -> Line {
    match *i {
        Instr::Mov {
            wide,
            to_reg: false,
            reg,
            rm,
        } => Line("mov", Operand::Rm(wide, rm), Operand::Reg(wide, reg)),
        Instr::Mov {
            wide,
            to_reg: true,
            reg,
            rm,
        } => Line("mov", Operand::Reg(wide, reg), Operand::Rm(wide, rm)),
        Instr::MovAcc {
            cs,
            wide,
            store: false,
            at,
        } => Line("mov", Operand::Reg(wide, 0), offset(cs, at)),
        Instr::MovAcc {
            cs,
            wide,
            store: true,
            at,
        } => Line("mov", offset(cs, at), Operand::Reg(wide, 0)),
        Instr::MovImm { reg, imm } => Line("mov", Operand::Reg(imm.is_word(), reg), number(imm)),
        Instr::MovRm { rm, imm } => Line("mov", Operand::Rm(imm.is_word(), rm), number(imm)),
        Instr::Lea { reg, mem } => Line("lea", Operand::Reg(true, reg), Operand::At(mem)),
        Instr::XchgRm { wide, reg, rm } => Line(
            "xchg",
            Operand::Reg(wide, reg),
            Operand::Rm(wide, rm),
        ),
        Instr::XchgAx(reg) => Line("xchg", Operand::Reg(true, 0), Operand::Reg(true, reg)),
        Instr::Push(reg) => with("push", Operand::Reg(true, reg)),
        Instr::Pop(reg) => with("pop", Operand::Reg(true, reg)),
        Instr::PushRm(rm) => with("push", Operand::Rm(true, rm)),
        Instr::In(port) => Line("in", Operand::Text("al"), Operand::Number(u16::from(port))),
        Instr::Out(port) => Line("out", Operand::Number(u16::from(port)), Operand::Text("al")),
        _ => control(i),
    }
}

fn control(i: &Instr) -> Line {
    match *i {
        Instr::JumpIf { cond, by } => with(condition(cond), near_target(by)),
        Instr::Loop { kind, by } => with(loop_kind(kind), near_target(by)),
        Instr::RetAdd(n) => with("ret", Operand::Number(n)),
        Instr::Ret => plain("ret"),
        Instr::Call(by) => with("call", Operand::Target(by.wrapping_add(3))),
        Instr::Jump(by) => with("jmp near", Operand::Target(by.wrapping_add(3))),
        Instr::JumpShort(by) => with("jmp short", near_target(by)),
        Instr::CallRm(rm) => with("call", Operand::Rm(true, rm)),
        Instr::JumpRm(rm) => with("jmp", Operand::Rm(true, rm)),
        _ => plain(one_byte(i)),
    }
}

fn one_byte(i: &Instr) -> &'static str {
    match i {
        Instr::Cbw => "cbw",
        Instr::Cwd => "cwd",
        Instr::PushF => "pushf",
        Instr::PopF => "popf",
        Instr::Sahf => "sahf",
        Instr::Lahf => "lahf",
        Instr::Hlt => "hlt",
        Instr::Cmc => "cmc",
        Instr::Clc => "clc",
        Instr::Stc => "stc",
        _ => "?",
    }
}

fn plain(mnemonic: &'static str) -> Line {
    Line(mnemonic, Operand::Absent, Operand::Absent)
}

fn with(mnemonic: &'static str, operand: Operand) -> Line {
    Line(mnemonic, operand, Operand::Absent)
}

fn offset(cs: bool, at: u16) -> Operand {
    Operand::At(Mem {
        cs,
        place: Place::Direct(at),
    })
}

fn number(imm: Imm) -> Operand {
    match imm {
        Imm::Byte(byte) => Operand::Number(u16::from(byte)),
        Imm::Word(word) => Operand::Number(word),
    }
}

fn strict(imm: Imm) -> Operand {
    match imm {
        Imm::Byte(byte) => Operand::Number(u16::from(byte)),
        Imm::Word(word) => Operand::Strict(word),
    }
}

/// To where a displacement of one byte goes, which counts from the next instruction.
fn near_target(by: u8) -> Operand {
    Operand::Target(extended(by).wrapping_add(2))
}

/// The byte, sign-extended.
fn extended(byte: u8) -> u16 {
    i16::from(byte.cast_signed()).cast_unsigned()
}

fn alu(op: u8) -> &'static str {
    match op {
        0 => "add",
        1 => "or",
        2 => "adc",
        3 => "sbb",
        4 => "and",
        5 => "sub",
        6 => "xor",
        _ => "cmp",
    }
}

fn shift(op: u8) -> &'static str {
    match op {
        0 => "rol",
        1 => "ror",
        2 => "rcl",
        3 => "rcr",
        4 => "shl",
        5 => "shr",
        _ => "sar",
    }
}

fn unary(op: u8) -> &'static str {
    match op {
        2 => "not",
        3 => "neg",
        4 => "mul",
        5 => "imul",
        6 => "div",
        _ => "idiv",
    }
}

fn loop_kind(kind: u8) -> &'static str {
    match kind {
        0 => "loopnz",
        1 => "loopz",
        2 => "loop",
        _ => "jcxz",
    }
}

fn condition(cond: u8) -> &'static str {
    match cond {
        0 => "jo",
        1 => "jno",
        2 => "jb",
        3 => "jnb",
        4 => "jz",
        5 => "jnz",
        6 => "jbe",
        7 => "jnbe",
        8 => "js",
        9 => "jns",
        10 => "jp",
        11 => "jnp",
        12 => "jl",
        13 => "jnl",
        14 => "jle",
        _ => "jnle",
    }
}

fn word_register(number: u8) -> &'static str {
    match number {
        0 => "ax",
        1 => "cx",
        2 => "dx",
        3 => "bx",
        4 => "sp",
        5 => "bp",
        6 => "si",
        _ => "di",
    }
}

fn byte_register(number: u8) -> &'static str {
    match number {
        0 => "al",
        1 => "cl",
        2 => "dl",
        3 => "bl",
        4 => "ah",
        5 => "ch",
        6 => "dh",
        _ => "bh",
    }
}

fn form(rm: u8) -> &'static str {
    match rm {
        0 => "bx+si",
        1 => "bx+di",
        2 => "bp+si",
        3 => "bp+di",
        4 => "si",
        5 => "di",
        6 => "bp",
        _ => "bx",
    }
}

const SIZE: usize = 48;

/// A text of at most so many bytes; more are dropped.
#[derive(Drop)]
struct Text {
    bytes: [u8; SIZE],
    length: usize,
    ghost fits: { length ≤ 48 },
}

impl Text {
    fn is(&self, text: &str) -> bool {
        &self.bytes[..self.length] == text.as_bytes()
    }

    fn push_byte(&mut self, byte: u8) {
        if self.length < SIZE {
            self.bytes[self.length] = byte;
            self.length += 1;
        }
    }

    fn push(&mut self, text: &str) {
        for &byte in text.as_bytes() {
            self.push_byte(byte);
        }
    }

    fn push_number(&mut self, number: u16) {
        self.push("0x");
        if number >= 0x1000 {
            self.push_digit(number / 0x1000);
        }
        if number >= 0x100 {
            self.push_digit(number / 0x100);
        }
        if number >= 0x10 {
            self.push_digit(number / 0x10);
        }
        self.push_digit(number);
    }

    /// The last digit of a number.
    fn push_digit(&mut self, number: u16) {
        let digit = (number % 16) as u8;
        self.push_byte(if digit < 10 {
            b'0' + digit
        } else {
            b'a' + digit - 10
        });
    }

    /// A number in two's complement, with its sign.
    fn push_signed(&mut self, number: u16) {
        if number < 0x8000 {
            self.push("+");
            self.push_number(number);
        } else {
            self.push("-");
            self.push_number(number.wrapping_neg());
        }
    }

    fn push_register(&mut self, wide: bool, number: u8) {
        if wide {
            self.push(word_register(number));
        } else {
            self.push(byte_register(number));
        }
    }

    fn push_memory(&mut self, mem: Mem) {
        self.push(if mem.cs { "[cs:" } else { "[" });
        match mem.place {
            Place::Direct(at) => self.push_number(at),
            Place::Plain(rm) => self.push(form(rm)),
            Place::Near(rm, by) => {
                self.push("byte ");
                self.push(form(rm));
                self.push_signed(extended(by));
            }
            Place::Far(rm, by) => {
                self.push("word ");
                self.push(form(rm));
                self.push("+");
                self.push_number(by);
            }
        }
        self.push("]");
    }

    fn push_operand(&mut self, operand: Operand) {
        match operand {
            Operand::Absent => {}
            Operand::Text(text) => self.push(text),
            Operand::Reg(wide, number) => self.push_register(wide, number),
            Operand::Rm(wide, Rm::Reg(number)) => self.push_register(wide, number),
            Operand::Rm(wide, Rm::Mem(mem)) => {
                self.push(if wide { "word " } else { "byte " });
                self.push_memory(mem);
            }
            Operand::At(mem) => self.push_memory(mem),
            Operand::Number(number) => self.push_number(number),
            Operand::Strict(number) => {
                self.push("strict word ");
                self.push_number(number);
            }
            Operand::Byte(byte) => {
                self.push("byte ");
                self.push_signed(extended(byte));
            }
            Operand::Target(by) => {
                self.push("$");
                self.push_signed(by);
            }
        }
    }
}
