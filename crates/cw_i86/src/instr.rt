// The instructions of the 8086 Family User's Manual, chapter 4, tables "8086 Instruction Encoding" and
// "Machine Instruction Decoding Guide", with the numbers that stand in their bytes.
//
// `wide` is the bit w: words, otherwise bytes. `to_reg` is the bit d: the register is the destination,
// otherwise the operand in `rm`. An `Imm` is as wide as its instruction. Registers are numbered
// AX CX DX BX SP BP SI DI, and those of bytes AL CL DL BL AH CH DH BH. Displacements are kept as their
// bytes. Which numbers a row has, `IsInstr` in specs/Encoding says.

/// Where an operand in memory lies. The first number of the last three is r/m, the address form:
/// 0 to 7 for BX+SI, BX+DI, BP+SI, BP+DI, SI, DI, BP, BX.
#[derive(Clone, Copy)]
pub enum Place {
    /// mod 0 with r/m 6: at this offset.
    Direct(u16),
    /// mod 0 with another r/m: no displacement.
    Plain(u8),
    /// mod 1: a displacement of one byte, which is sign-extended.
    Near(u8, u8),
    /// mod 2: a displacement of one word.
    Far(u8, u16),
}

/// An operand in memory.
#[derive(Clone, Copy)]
pub struct Mem {
    /// The prefix 2E stands before the instruction, and selects the code segment.
    pub cs: bool,
    pub place: Place,
}

/// An operand that the fields mod and r/m name.
#[derive(Clone, Copy)]
pub enum Rm {
    /// mod 3: the register of this number.
    Reg(u8),
    Mem(Mem),
}

/// An immediate operand.
#[derive(Clone, Copy)]
pub enum Imm {
    Byte(u8),
    Word(u16),
}

/// An instruction.
#[derive(Clone, Copy)]
pub enum Instr {
    /// ADD OR ADC SBB AND SUB XOR CMP, by `op` from 0: a register and an operand.
    AluRm {
        op: u8,
        wide: bool,
        to_reg: bool,
        reg: u8,
        rm: Rm,
    },
    /// The same eight: AL or AX, and an immediate.
    AluAcc {
        op: u8,
        imm: Imm,
    },
    /// INC of a register of words.
    Inc(u8),
    /// DEC of a register of words.
    Dec(u8),
    /// PUSH of a register other than SP.
    Push(u8),
    /// POP of a register other than SP.
    Pop(u8),
    /// JO JNO JB JNB JZ JNZ JBE JNBE JS JNS JP JNP JL JNL JLE JNLE, by `cond` from 0.
    JumpIf {
        cond: u8,
        by: u8,
    },
    /// The eight of `AluRm`: an operand and an immediate of its width.
    AluImm {
        op: u8,
        rm: Rm,
        imm: Imm,
    },
    /// ADD ADC SBB SUB CMP, by `op` as above: a word and a byte, which is sign-extended.
    AluShort {
        op: u8,
        rm: Rm,
        imm: u8,
    },
    /// TEST of a register and an operand.
    TestRm {
        wide: bool,
        reg: u8,
        rm: Rm,
    },
    /// XCHG of a register and an operand.
    XchgRm {
        wide: bool,
        reg: u8,
        rm: Rm,
    },
    /// MOV between a register and an operand.
    Mov {
        wide: bool,
        to_reg: bool,
        reg: u8,
        rm: Rm,
    },
    /// LEA.
    Lea {
        reg: u8,
        mem: Mem,
    },
    /// XCHG of AX and a register; NOP is that of AX and AX.
    XchgAx(u8),
    /// CBW, CWD: the sign of AL into AH, of AX into DX.
    Cbw,
    Cwd,
    /// PUSHF, POPF, SAHF, LAHF: the flags and the stack, the flags and AH.
    PushF,
    PopF,
    Sahf,
    Lahf,
    /// MOV between AL or AX and a place in memory: to memory where `store`.
    MovAcc {
        cs: bool,
        wide: bool,
        store: bool,
        at: u16,
    },
    /// TEST of AL or AX and an immediate.
    TestAcc(Imm),
    /// MOV of an immediate to a register.
    MovImm {
        reg: u8,
        imm: Imm,
    },
    /// RET within the segment, which then adds the number to SP.
    RetAdd(u16),
    /// RET within the segment.
    Ret,
    /// MOV of an immediate to an operand.
    MovRm {
        rm: Rm,
        imm: Imm,
    },
    /// ROL ROR RCL RCR SHL SHR and, by 7, SAR, by `op` from 0: by 1, or by CL.
    Shift {
        op: u8,
        wide: bool,
        by_cl: bool,
        rm: Rm,
    },
    /// LOOPNZ LOOPZ LOOP JCXZ, by `kind` from 0.
    Loop {
        kind: u8,
        by: u8,
    },
    /// IN to AL from a port.
    In(u8),
    /// OUT of AL to a port.
    Out(u8),
    /// CALL and JMP within the segment, by a displacement of one word; JMP by one of a byte.
    Call(u16),
    Jump(u16),
    JumpShort(u8),
    /// HLT.
    Hlt,
    /// CMC, CLC, STC: the carry flag changed, cleared, set.
    Cmc,
    Clc,
    Stc,
    /// TEST of an operand and an immediate.
    TestImm {
        rm: Rm,
        imm: Imm,
    },
    /// NOT NEG MUL IMUL DIV IDIV, by `op` from 2.
    Unary {
        op: u8,
        wide: bool,
        rm: Rm,
    },
    /// INC of an operand, or DEC where `down`.
    IncDec {
        down: bool,
        wide: bool,
        rm: Rm,
    },
    /// CALL, JMP within the segment to the offset in an operand; PUSH of an operand other than SP.
    CallRm(Rm),
    JumpRm(Rm),
    PushRm(Rm),
}

impl Imm {
    ghost use Rattle.std.specs.Prelude.{◌≡◌};
    ghost use Rattle.cw_i86.specs.Encoding.{is_word};

    /// Whether this is a word.
    pub fn is_word(self) -> bool
        ensures { result ≡ is_word self }
    {
        matches!(self, Imm::Word(_))
    }
}
