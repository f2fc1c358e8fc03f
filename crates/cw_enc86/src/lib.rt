//! 8086 instruction encoder.
#![tactic(auto)]

ghost use Rattle.std.specs.Prelude.{ℕ, ◌≡◌, ◌<◌, drop, ◌≤◌, ◌+◌, ◌*◌, length, ◌∷◌, [], ◌++◌};
ghost use Rattle.std.specs.Int.{w16, to_le_bytes};
ghost use Rattle.cw_i86.specs.Encoding.{bit, imm_bytes, prefixed, place_bytes, with_mem, with_rm, bytes_of, IsPlace, IsRm, IsImm, IsInstr};
ghost use Rattle.cw_enc86.specs.Writing.{Puts};

use cw_i86::{Imm, Instr, Mem, Place, Rm};

/// Writes the bytes of an instruction at the front of `out`, and answers how many they are: 1 to 7.
/// The rest of `out` stays. The instruction's numbers are those that its row has (`IsInstr`).
pub fn encode(i: &Instr, out: &mut [u8; 7]) -> usize
    requires { IsInstr i.now }
    ensures length { result ≡ length (bytes_of i.now) }
    ensures fits { result ≤ 7 }
    ensures bytes { out.new ≡ bytes_of i.now ++ drop result out.old }
{
    put_instr(i, out)
}

fn put_instr(i: &Instr, out: &mut [u8]) -> usize
    requires room { 7 ≤ length out.old }
    requires instr { IsInstr i.now }
    ensures { Puts out.old (bytes_of i.now) out.new result }
{
    match *i {
        Instr::AluRm {
            op,
            wide,
            to_reg,
            reg,
            rm,
        } => { put_rm(out, 8 * op + 2 * u8::from(to_reg) + u8::from(wide), reg, rm) }
        Instr::AluAcc { op, imm } => {
            put_opcode_imm(out, 8 * op + 4 + u8::from(imm.is_word()), imm)
        }
        Instr::Inc(reg) => put(out, &[0x40 + reg]),
        Instr::Dec(reg) => put(out, &[0x48 + reg]),
        Instr::Push(reg) => put(out, &[0x50 + reg]),
        Instr::Pop(reg) => put(out, &[0x58 + reg]),
        Instr::JumpIf { cond, by } => put(out, &[0x70 + cond, by]),
        Instr::AluImm { op, rm, imm } => put_rm_imm(
            out,
            0x80 + u8::from(imm.is_word()),
            op,
            rm,
            imm,
        ),
        Instr::AluShort { op, rm, imm } => put_rm_imm(out, 0x83, op, rm, Imm::Byte(imm)),
        Instr::TestRm { wide, reg, rm } => put_rm(out, 0x84 + u8::from(wide), reg, rm),
        Instr::XchgRm { wide, reg, rm } => put_rm(out, 0x86 + u8::from(wide), reg, rm),
        Instr::Mov {
            wide,
            to_reg,
            reg,
            rm,
        } => { put_rm(out, 0x88 + 2 * u8::from(to_reg) + u8::from(wide), reg, rm) }
        Instr::Lea { reg, mem } => put_mem(out, 0x8D, reg, mem),
        Instr::XchgAx(reg) => put(out, &[0x90 + reg]),
        Instr::Cbw => put(out, &[0x98]),
        Instr::Cwd => put(out, &[0x99]),
        Instr::PushF => put(out, &[0x9C]),
        Instr::PopF => put(out, &[0x9D]),
        Instr::Sahf => put(out, &[0x9E]),
        Instr::Lahf => put(out, &[0x9F]),
        Instr::MovAcc {
            cs,
            wide,
            store,
            at,
        } => { put_offset(out, cs, 0xA0 + 2 * u8::from(store) + u8::from(wide), at) }
        Instr::TestAcc(imm) => put_opcode_imm(out, 0xA8 + u8::from(imm.is_word()), imm),
        Instr::MovImm { reg, imm } => put_opcode_imm(
            out,
            0xB0 + 8 * u8::from(imm.is_word()) + reg,
            imm,
        ),
        Instr::RetAdd(n) => put_word(out, 0xC2, n),
        Instr::Ret => put(out, &[0xC3]),
        Instr::MovRm { rm, imm } => put_rm_imm(out, 0xC6 + u8::from(imm.is_word()), 0, rm, imm),
        Instr::Shift {
            op,
            wide,
            by_cl,
            rm,
        } => { put_rm(out, 0xD0 + 2 * u8::from(by_cl) + u8::from(wide), op, rm) }
        Instr::Loop { kind, by } => put(out, &[0xE0 + kind, by]),
        Instr::In(port) => put(out, &[0xE4, port]),
        Instr::Out(port) => put(out, &[0xE6, port]),
        Instr::Call(by) => put_word(out, 0xE8, by),
        Instr::Jump(by) => put_word(out, 0xE9, by),
        Instr::JumpShort(by) => put(out, &[0xEB, by]),
        Instr::Hlt => put(out, &[0xF4]),
        Instr::Cmc => put(out, &[0xF5]),
        Instr::Clc => put(out, &[0xF8]),
        Instr::Stc => put(out, &[0xF9]),
        Instr::TestImm { rm, imm } => put_rm_imm(out, 0xF6 + u8::from(imm.is_word()), 0, rm, imm),
        Instr::Unary { op, wide, rm } => put_rm(out, 0xF6 + u8::from(wide), op, rm),
        Instr::IncDec { down, wide, rm } => put_rm(out, 0xFE + u8::from(wide), u8::from(down), rm),
        Instr::CallRm(rm) => put_rm(out, 0xFF, 2, rm),
        Instr::JumpRm(rm) => put_rm(out, 0xFF, 4, rm),
        Instr::PushRm(rm) => put_rm(out, 0xFF, 6, rm),
    }
}

// Each of these writes at the front of a buffer, and answers how many bytes it wrote.

fn put(out: &mut [u8], bytes: &[u8]) -> usize
    requires { length bytes.now ≤ length out.old }
    ensures { Puts out.old bytes.now out.new result }
{
    out[..bytes.len()].copy_from_slice(bytes);
    bytes.len()
}

fn put_imm(out: &mut [u8], imm: Imm) -> usize
    requires { 2 ≤ length out.old }
    ensures { Puts out.old (imm_bytes imm) out.new result }
{
    match imm {
        Imm::Byte(byte) => put(out, &[byte]),
        Imm::Word(word) => put(out, &word.to_le_bytes()),
    }
}

fn put_word(out: &mut [u8], opcode: u8, word: u16) -> usize
    requires { 3 ≤ length out.old }
    ensures { Puts out.old (opcode ∷ to_le_bytes w16 word) out.new result }
{
    let [low, high] = word.to_le_bytes();
    put(out, &[opcode, low, high])
}

fn put_opcode_imm(out: &mut [u8], opcode: u8, imm: Imm) -> usize
    requires { 3 ≤ length out.old }
    ensures { Puts out.old (opcode ∷ imm_bytes imm) out.new result }
{
    match imm {
        Imm::Byte(byte) => put(out, &[opcode, byte]),
        Imm::Word(word) => put_word(out, opcode, word),
    }
}

fn mod_reg_rm(mode: u8, reg: u8, rm: u8) -> u8
    requires mode { mode < 4 }
    requires reg { reg < 8 }
    requires rm { rm < 8 }
    ensures { result ≡ 64 * mode + 8 * reg + rm }
{
    64 * mode + 8 * reg + rm
}

fn put_place(out: &mut [u8], opcode: u8, reg: u8, place: Place) -> usize
    requires room { 4 ≤ length out.old }
    requires reg { reg < 8 }
    requires place { IsPlace place }
    ensures { Puts out.old (opcode ∷ place_bytes reg place) out.new result }
{
    match place {
        Place::Direct(at) => {
            let [low, high] = at.to_le_bytes();
            put(out, &[opcode, mod_reg_rm(0, reg, 6), low, high])
        }
        Place::Plain(rm) => put(out, &[opcode, mod_reg_rm(0, reg, rm)]),
        Place::Near(rm, by) => put(out, &[opcode, mod_reg_rm(1, reg, rm), by]),
        Place::Far(rm, by) => {
            let [low, high] = by.to_le_bytes();
            put(out, &[opcode, mod_reg_rm(2, reg, rm), low, high])
        }
    }
}

fn put_mem(out: &mut [u8], opcode: u8, reg: u8, mem: Mem) -> usize
    requires room { 5 ≤ length out.old }
    requires reg { reg < 8 }
    requires place { IsPlace mem.place }
    ensures { Puts out.old (with_mem opcode reg mem) out.new result }
{
    if mem.cs {
        let n = put(out, &[0x2E]);
        n + put_place(&mut out[n..], opcode, reg, mem.place)
    } else {
        put_place(out, opcode, reg, mem.place)
    }
}

fn put_offset(out: &mut [u8], cs: bool, opcode: u8, at: u16) -> usize
    requires { 4 ≤ length out.old }
    ensures { Puts out.old (prefixed cs (opcode ∷ to_le_bytes w16 at)) out.new result }
{
    if cs {
        let [low, high] = at.to_le_bytes();
        put(out, &[0x2E, opcode, low, high])
    } else {
        put_word(out, opcode, at)
    }
}

fn put_rm(out: &mut [u8], opcode: u8, reg: u8, rm: Rm) -> usize
    requires room { 5 ≤ length out.old }
    requires reg { reg < 8 }
    requires rm { IsRm rm }
    ensures { Puts out.old (with_rm opcode reg rm) out.new result }
{
    match rm {
        Rm::Reg(register) => put(out, &[opcode, mod_reg_rm(3, reg, register)]),
        Rm::Mem(mem) => put_mem(out, opcode, reg, mem),
    }
}

fn put_rm_imm(out: &mut [u8], opcode: u8, reg: u8, rm: Rm, imm: Imm) -> usize
    requires room { 7 ≤ length out.old }
    requires reg { reg < 8 }
    requires rm { IsRm rm }
    ensures { Puts out.old (with_rm opcode reg rm ++ imm_bytes imm) out.new result }
{
    let n = put_rm(out, opcode, reg, rm);
    n + put_imm(&mut out[n..], imm)
}
