//! The rows of the table, by opcode.

ghost use Rattle.std.specs.Prelude.{ℕ, ◌≡◌, ◌<◌, ◌≤◌, ◌+◌, ◌*◌, ◌/◌, ◌%◌, ◌∷◌, [], ◌++◌, drop, slice_index, IfSome, IsTrue, MatchOption, Some, None};
ghost use Rattle.std.specs.Int.{w16, to_le_bytes};
ghost use Rattle.cw_i86.specs.Encoding.{IsRm, IsInstr, with_rm, prefixed, bytes_of};
ghost use Rattle.cw_dec86.specs.Rows.{word_at, imm_at, operand_at, place_size, rm_size, has_operand, operand_row};
ghost use Rattle.cw_dec86.specs.Rows.{low_row, middle_row, high_row, plain_row, row, instr_at, front, imm_size};

use cw_i86::{Imm, Instr, Mem, Place, Rm};

/// The byte at a place, or 0 past the end.
#[inline(always)]
fn byte_at(bytes: &[u8], at: usize) -> u8
    ensures { result ≡ slice_index bytes.now at }
{
    if at < bytes.len() { bytes[at] } else { 0 }
}

/// The word at a place, where the bytes go on with zeros.
#[inline(always)]
fn word(bytes: &[u8], at: usize) -> u16
    requires { at < 8 }
    ensures value { result ≡ word_at bytes.now at }
    ensures back { to_le_bytes w16 result ≡ slice_index bytes.now at ∷ slice_index bytes.now (at + 1) ∷ [] }
{
    u16::from_le_bytes([byte_at(bytes, at), byte_at(bytes, at + 1)])
}

#[inline(always)]
fn imm(wide: bool, bytes: &[u8]) -> Imm
    ensures { result ≡ imm_at wide bytes.now }
{
    if wide {
        Imm::Word(word(bytes, 0))
    } else {
        Imm::Byte(byte_at(bytes, 0))
    }
}

#[inline(always)]
fn behind(bytes: &[u8], count: usize) -> &[u8]
    ensures { result.now ≡ drop count bytes.now }
{
    if count < bytes.len() {
        &bytes[count..]
    } else {
        &[]
    }
}

#[tactic(auto, unfolding(crate::specs::Rows::operand_at))]
#[inline(always)]
fn operand(cs: bool, bytes: &[u8]) -> Option<Rm>
    ensures row { result ≡ operand_at cs bytes.now }
    ensures valid { IfSome result IsRm }
    ensures bytes { (opcode : ℕ) → IfSome result
        (λ rm. with_rm opcode (slice_index bytes.now 0 / 8 % 8) rm
        ≡ prefixed cs (opcode ∷ front (rm_size rm) bytes.now)) }
{
    let modrm = byte_at(bytes, 0);
    let rm = modrm % 8;
    match modrm / 64 {
        0 if rm == 6 => Some(Rm::Mem(Mem {
            cs,
            place: Place::Direct(word(bytes, 1)),
        })),
        0 => Some(Rm::Mem(Mem {
            cs,
            place: Place::Plain(rm),
        })),
        1 => Some(Rm::Mem(Mem {
            cs,
            place: Place::Near(rm, byte_at(bytes, 1)),
        })),
        2 => Some(Rm::Mem(Mem {
            cs,
            place: Place::Far(rm, word(bytes, 1)),
        })),
        _ if cs => None,
        _ => Some(Rm::Reg(rm)),
    }
}

#[inline(always)]
fn size(rm: &Rm) -> usize
    ensures value { result ≡ rm_size rm.now }
    ensures bound { result ≤ 3 }
{
    match rm {
        Rm::Reg(_) => 1,
        Rm::Mem(mem) => match mem.place {
            Place::Plain(_) => 1,
            Place::Near(_, _) => 2,
            Place::Direct(_) | Place::Far(_, _) => 3,
        },
    }
}

#[inline(always)]
fn has_operand(opcode: u8) -> bool
    ensures { result ≡ has_operand opcode }
{
    match opcode {
        0x00..=0x3F => opcode % 8 < 4,
        0x80..=0x81 | 0x83..=0x8B | 0x8D | 0xC6..=0xC7 | 0xD0..=0xD3 | 0xF6..=0xF7 | 0xFE..=0xFF =>
            true,
        _ => false,
    }
}

/// The row of an opcode that an operand follows, and how many of the bytes behind the operand it has.
#[tactic(auto, unfolding(crate::specs::Rows::operand_row))]
#[inline(always)]
fn operand_row(opcode: u8, reg: u8, rm: Rm, bytes: &[u8]) -> Option<(Instr, usize)>
    requires reg { reg < 8 }
    requires rm { IsRm rm }
    requires has { IsTrue (has_operand opcode) }
    ensures row { MatchOption result (operand_row opcode reg rm bytes.now ≡ None) (λ found. operand_row opcode reg rm bytes.now ≡ Some found.0) }
    ensures valid { IfSome result (λ found. IsInstr found.0) }
    ensures bytes { IfSome result (λ found. bytes_of found.0 ≡ with_rm opcode reg rm ++ front found.1 bytes.now) }
    ensures size { IfSome result (λ found. found.1 ≤ 2) }
{
    let wide = opcode % 2 == 1;
    match opcode {
        0x00..=0x3F => Some((
            Instr::AluRm {
                op: opcode / 8,
                wide,
                to_reg: opcode / 2 % 2 == 1,
                reg,
                rm,
            },
            0,
        )),
        0x80..=0x81 => Some((
            Instr::AluImm {
                op: reg,
                rm,
                imm: imm(wide, bytes),
            },
            imm_size(wide),
        )),
        0x83 => match reg {
            1 | 4 | 6 => None,
            _ => Some((
                Instr::AluShort {
                    op: reg,
                    rm,
                    imm: byte_at(bytes, 0),
                },
                1,
            )),
        },
        0x84..=0x85 => Some((Instr::TestRm { wide, reg, rm }, 0)),
        0x86..=0x87 => Some((Instr::XchgRm { wide, reg, rm }, 0)),
        0x88..=0x8B => Some((
            Instr::Mov {
                wide,
                to_reg: opcode / 2 % 2 == 1,
                reg,
                rm,
            },
            0,
        )),
        0x8D => match rm {
            Rm::Reg(_) => None,
            Rm::Mem(mem) => Some((Instr::Lea { reg, mem }, 0)),
        },
        0xC6..=0xC7 if reg == 0 => Some((
            Instr::MovRm {
                rm,
                imm: imm(wide, bytes),
            },
            imm_size(wide),
        )),
        0xD0..=0xD3 if reg != 6 => Some((
            Instr::Shift {
                op: reg,
                wide,
                by_cl: opcode / 2 % 2 == 1,
                rm,
            },
            0,
        )),
        0xF6..=0xF7 => match reg {
            0 => Some((
                Instr::TestImm {
                    rm,
                    imm: imm(wide, bytes),
                },
                imm_size(wide),
            )),
            1 => None,
            _ => Some((Instr::Unary { op: reg, wide, rm }, 0)),
        },
        0xFE..=0xFF if reg < 2 => Some((
            Instr::IncDec {
                down: reg == 1,
                wide,
                rm,
            },
            0,
        )),
        0xFF => match (reg, rm) {
            (2, _) => Some((Instr::CallRm(rm), 0)),
            (4, _) => Some((Instr::JumpRm(rm), 0)),
            (6, Rm::Reg(4)) => None,
            (6, _) => Some((Instr::PushRm(rm), 0)),
            _ => None,
        },
        _ => None,
    }
}

#[tactic(auto, unfolding(crate::specs::Rows::low_row))]
#[inline(always)]
fn low_row(opcode: u8, bytes: &[u8]) -> Option<(Instr, usize)>
    ensures row { MatchOption result (low_row opcode bytes.now ≡ None) (λ found. low_row opcode bytes.now ≡ Some found.0) }
    ensures valid { IfSome result (λ found. IsInstr found.0) }
    ensures bytes { IfSome result (λ found. bytes_of found.0 ≡ opcode ∷ front found.1 bytes.now) }
    ensures size { IfSome result (λ found. found.1 ≤ 2) }
{
    match opcode {
        0x00..=0x3F => match opcode % 8 {
            4 | 5 => Some((
                Instr::AluAcc {
                    op: opcode / 8,
                    imm: imm(opcode % 2 == 1, bytes),
                },
                imm_size(opcode % 2 == 1),
            )),
            _ => None,
        },
        0x40..=0x47 => Some((Instr::Inc(opcode - 0x40), 0)),
        0x48..=0x4F => Some((Instr::Dec(opcode - 0x48), 0)),
        0x54 | 0x5C => None,
        0x50..=0x57 => Some((Instr::Push(opcode - 0x50), 0)),
        0x58..=0x5F => Some((Instr::Pop(opcode - 0x58), 0)),
        0x70..=0x7F => Some((
            Instr::JumpIf {
                cond: opcode - 0x70,
                by: byte_at(bytes, 0),
            },
            1,
        )),
        _ => None,
    }
}

#[tactic(auto, unfolding(crate::specs::Rows::middle_row))]
#[inline(always)]
fn middle_row(opcode: u8, bytes: &[u8]) -> Option<(Instr, usize)>
    ensures row { MatchOption result (middle_row opcode bytes.now ≡ None) (λ found. middle_row opcode bytes.now ≡ Some found.0) }
    ensures valid { IfSome result (λ found. IsInstr found.0) }
    ensures bytes { IfSome result (λ found. bytes_of found.0 ≡ opcode ∷ front found.1 bytes.now) }
    ensures size { IfSome result (λ found. found.1 ≤ 2) }
{
    match opcode {
        0x90..=0x97 => Some((Instr::XchgAx(opcode - 0x90), 0)),
        0x98 => Some((Instr::Cbw, 0)),
        0x99 => Some((Instr::Cwd, 0)),
        0x9C => Some((Instr::PushF, 0)),
        0x9D => Some((Instr::PopF, 0)),
        0x9E => Some((Instr::Sahf, 0)),
        0x9F => Some((Instr::Lahf, 0)),
        0xA8..=0xA9 => Some((
            Instr::TestAcc(imm(opcode % 2 == 1, bytes)),
            imm_size(opcode % 2 == 1),
        )),
        0xB0..=0xB7 => Some((
            Instr::MovImm {
                reg: opcode - 0xB0,
                imm: imm(false, bytes),
            },
            1,
        )),
        0xB8..=0xBF => Some((
            Instr::MovImm {
                reg: opcode - 0xB8,
                imm: imm(true, bytes),
            },
            2,
        )),
        0xC2 => Some((Instr::RetAdd(word(bytes, 0)), 2)),
        0xC3 => Some((Instr::Ret, 0)),
        _ => None,
    }
}

#[tactic(auto, unfolding(crate::specs::Rows::high_row))]
#[inline(always)]
fn high_row(opcode: u8, bytes: &[u8]) -> Option<(Instr, usize)>
    ensures row { MatchOption result (high_row opcode bytes.now ≡ None) (λ found. high_row opcode bytes.now ≡ Some found.0) }
    ensures valid { IfSome result (λ found. IsInstr found.0) }
    ensures bytes { IfSome result (λ found. bytes_of found.0 ≡ opcode ∷ front found.1 bytes.now) }
    ensures size { IfSome result (λ found. found.1 ≤ 2) }
{
    match opcode {
        0xE0..=0xE3 => Some((
            Instr::Loop {
                kind: opcode - 0xE0,
                by: byte_at(bytes, 0),
            },
            1,
        )),
        0xE4 => Some((Instr::In(byte_at(bytes, 0)), 1)),
        0xE6 => Some((Instr::Out(byte_at(bytes, 0)), 1)),
        0xE8 => Some((Instr::Call(word(bytes, 0)), 2)),
        0xE9 => Some((Instr::Jump(word(bytes, 0)), 2)),
        0xEB => Some((Instr::JumpShort(byte_at(bytes, 0)), 1)),
        0xF4 => Some((Instr::Hlt, 0)),
        0xF5 => Some((Instr::Cmc, 0)),
        0xF8 => Some((Instr::Clc, 0)),
        0xF9 => Some((Instr::Stc, 0)),
        _ => None,
    }
}

/// The row of an opcode that no operand follows, and how many of the bytes behind the opcode it has.
#[tactic(auto, unfolding(crate::specs::Rows::plain_row))]
#[inline(always)]
fn plain_row(opcode: u8, bytes: &[u8]) -> Option<(Instr, usize)>
    ensures row { MatchOption result (plain_row opcode bytes.now ≡ None) (λ found. plain_row opcode bytes.now ≡ Some found.0) }
    ensures valid { IfSome result (λ found. IsInstr found.0) }
    ensures bytes { IfSome result (λ found. bytes_of found.0 ≡ opcode ∷ front found.1 bytes.now) }
    ensures size { IfSome result (λ found. found.1 ≤ 2) }
{
    match opcode {
        0x00..=0x8F => low_row(opcode, bytes),
        0x90..=0xCF => middle_row(opcode, bytes),
        0xD0..=0xFF => high_row(opcode, bytes),
    }
}

/// How many bytes an immediate has.
#[inline(always)]
fn imm_size(wide: bool) -> usize
    ensures value { result ≡ imm_size wide }
    ensures bound { result ≤ 2 }
{
    if wide { 2 } else { 1 }
}

/// The instruction behind the prefix, and how many bytes it has there.
#[tactic(auto, unfolding(crate::specs::Rows::row))]
#[inline(always)]
fn row(cs: bool, bytes: &[u8]) -> Option<(Instr, usize)>
    ensures row { MatchOption result (row cs bytes.now ≡ None) (λ found. row cs bytes.now ≡ Some found.0) }
    ensures valid { IfSome result (λ found. IsInstr found.0) }
    ensures bytes { IfSome result (λ found. bytes_of found.0 ≡ prefixed cs (front found.1 bytes.now)) }
    ensures size { IfSome result (λ found. found.1 ≤ 6) }
{
    let opcode = byte_at(bytes, 0);
    if has_operand(opcode) {
        let rm = operand(cs, behind(bytes, 1))?;
        let next = 1 + size(&rm);
        let (instr, tail) = operand_row(
            opcode,
            byte_at(bytes, 1) / 8 % 8,
            rm,
            behind(bytes, next),
        )?;
        return Some((instr, next + tail));
    }
    if let 0xA0..=0xA3 = opcode {
        let instr = Instr::MovAcc {
            cs,
            wide: opcode % 2 == 1,
            store: opcode / 2 % 2 == 1,
            at: word(bytes, 1),
        };
        return Some((instr, 3));
    }
    if cs {
        return None;
    }
    let (instr, tail) = plain_row(opcode, behind(bytes, 1))?;
    Some((instr, 1 + tail))
}

/// The instruction that the bytes begin, where zeros follow them without end, and how many bytes it has.
#[tactic(auto, unfolding(crate::specs::Rows::instr_at))]
#[inline(always)]
pub(crate) fn instr_at(bytes: &[u8]) -> Option<(Instr, usize)>
    ensures row { MatchOption result (instr_at bytes.now ≡ None) (λ found. instr_at bytes.now ≡ Some found.0) }
    ensures valid { IfSome result (λ found. IsInstr found.0) }
    ensures bytes { IfSome result (λ found. bytes_of found.0 ≡ front found.1 bytes.now) }
    ensures size { IfSome result (λ found. found.1 ≤ 7) }
{
    if byte_at(bytes, 0) != 0x2E {
        return row(false, bytes);
    }
    let (instr, size) = row(true, behind(bytes, 1))?;
    Some((instr, size + 1))
}
