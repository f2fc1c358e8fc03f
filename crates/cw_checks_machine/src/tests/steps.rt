//! Short programs on the processor.
ghost use Rattle.std.specs.Prelude.{⊤, true, false, [], None, Some};

use crate::tests::arithmetic::flags_of;
use cw_cpu86::RunEnd::{BadCode, Divide, Halted};
use cw_cpu86::{Cpu, Ports, RunEnd};
use cw_io::Failed;
use std::test::*;

/// The last bytes by which a program tells how it stopped.
#[derive(Clone, Copy)]
struct Told {
    kind: u8,
    segment: u8,
    line_low: u8,
    line_high: u8,
}

/// Ports whose input is at its end, which remember the last byte given to each.
#[derive(Drop)]
struct Tape {
    output: u8,
    told: Told,
}

impl Ports for Tape {
    ghost device = { λ t. record {
      left = Some [];
      at_end = Some true;
      is_used = true;
      is_cut = false;
      held = None;
      kind = t.told.kind;
      segment = t.told.segment;
      line_low = t.told.line_low;
      line_high = t.told.line_high;
    } };

    ghost faults = { λ _. 0 };

    ghost becomes = { λ _ _. ⊤ };

    fn take(&mut self, port: u8) -> Result<u8, Failed> {
        match port {
            0x11 => Ok(1),
            _ => Ok(0),
        }
    }

    fn give(&mut self, port: u8, value: u8) -> Result<(), Failed> {
        match port {
            0x12 => self.output = value,
            0x13 => self.told.kind = value,
            0x14 => self.told.segment = value,
            0x15 => self.told.line_low = value,
            0x16 => self.told.line_high = value,
            _ => {}
        }
        Ok(())
    }

    ghost stays = { λ _. tt };

    ghost goes_on = { λ _ _ _ _ _. tt };
}

fn blank() -> Tape {
    Tape {
        output: 0,
        told: Told {
            kind: 0,
            segment: 0,
            line_low: 0,
            line_high: 0,
        },
    }
}

/// The code, the end, what AX, CX, DX, BX, SP, BP, SI and DI are then, the place of the next instruction, and the flags.
type Row = (&'static [u8], RunEnd, [u16; 8], u16, u32);

const ROWS: &[Row] = &[
    // MOV AX,0; ADD AX,-1; HLT
    (
        &[0xB8, 0, 0, 0x83, 0xC0, 0xFF, 0xF4],
        Halted { steps: 3 },
        [0xFFFF, 0, 0, 0, 0, 0, 0, 0],
        7,
        0x84,
    ),
    // MOV AX,8000h; MOV CL,16; SHR AX,CL; HLT
    (
        &[0xB8, 0, 0x80, 0xB1, 16, 0xD3, 0xE8, 0xF4],
        Halted { steps: 4 },
        [0, 16, 0, 0, 0, 0, 0, 0],
        8,
        0x45,
    ),
    // MOV AX,8000h; MOV CL,17; SHR AX,CL; HLT
    (
        &[0xB8, 0, 0x80, 0xB1, 17, 0xD3, 0xE8, 0xF4],
        Halted { steps: 4 },
        [0, 17, 0, 0, 0, 0, 0, 0],
        8,
        0x44,
    ),
    // MOV DX,-1; MOV AX,8000h; MOV CX,1; IDIV CX
    (
        &[0xBA, 0xFF, 0xFF, 0xB8, 0, 0x80, 0xB9, 1, 0, 0xF7, 0xF9],
        Divide {
            offset: 9,
            steps: 3,
        },
        [0x8000, 1, 0xFFFF, 0, 0, 0, 0, 0],
        9,
        0,
    ),
    // MOV DX,1; MOV AX,0; MOV CX,1; DIV CX
    (
        &[0xBA, 1, 0, 0xB8, 0, 0, 0xB9, 1, 0, 0xF7, 0xF1],
        Divide {
            offset: 9,
            steps: 3,
        },
        [0, 1, 1, 0, 0, 0, 0, 0],
        9,
        0,
    ),
    // MOV DX,0; MOV AX,-1; MOV CX,1; DIV CX; HLT
    (
        &[0xBA, 0, 0, 0xB8, 0xFF, 0xFF, 0xB9, 1, 0, 0xF7, 0xF1, 0xF4],
        Halted { steps: 5 },
        [0xFFFF, 1, 0, 0, 0, 0, 0, 0],
        12,
        0,
    ),
    // MOV BP,200h; MOV [BP+2],1234h; PUSH [BP+2]; POP CX; MOV [10h],CX; CALL +1; HLT; MOV DL,[11h]; RET 2
    (
        &[
            0xBD, 0, 2, 0xC7, 0x46, 2, 0x34, 0x12, 0xFF, 0x76, 2, 0x59, 0x89, 0x0E, 0x10, 0, 0xE8,
            1, 0, 0xF4, 0x8A, 0x16, 0x11, 0, 0xC2, 2, 0,
        ],
        Halted { steps: 9 },
        [0, 0x1234, 0x12, 0, 2, 0x200, 0, 0],
        20,
        0,
    ),
    // MOV AX,1234h; MOV [FFFFh],AX; MOV BX,[0]; MOV AX,[FFFFh]; HLT
    (
        &[
            0xB8, 0x34, 0x12, 0xA3, 0xFF, 0xFF, 0x8B, 0x1E, 0, 0, 0xA1, 0xFF, 0xFF, 0xF4,
        ],
        Halted { steps: 5 },
        [0x1234, 0, 0, 0x12, 0, 0, 0, 0],
        14,
        0,
    ),
    // MOV CX,3; again: INC AX; LOOP again; HLT
    (
        &[0xB9, 3, 0, 0x40, 0xE2, 0xFD, 0xF4],
        Halted { steps: 8 },
        [3, 0, 0, 0, 0, 0, 0, 0],
        7,
        0x04,
    ),
    // XCHG AX,AX; no instruction
    (
        &[0x90, 0x0F],
        BadCode {
            offset: 1,
            steps: 1,
        },
        [0, 0, 0, 0, 0, 0, 0, 0],
        1,
        0,
    ),
    // MOV AL,CS:[0]; HLT
    (
        &[0x2E, 0xA0, 0, 0, 0xF4],
        Halted { steps: 2 },
        [0x2E, 0, 0, 0, 0, 0, 0, 0],
        5,
        0,
    ),
    // MOV AX,4241h; IN AL,10h; OUT 12h,AL; MOV BX,AX; IN AL,11h; OUT 13h,AL; HLT
    (
        &[
            0xB8, 0x41, 0x42, 0xE4, 0x10, 0xE6, 0x12, 0x8B, 0xD8, 0xE4, 0x11, 0xE6, 0x13, 0xF4,
        ],
        Halted { steps: 7 },
        [0x4201, 0, 0, 0x4200, 0, 0, 0, 0],
        14,
        0,
    ),
    // STC; PUSHF; POP AX; HLT
    (
        &[0xF9, 0x9C, 0x58, 0xF4],
        Halted { steps: 4 },
        [1, 0, 0, 0, 0, 0, 0, 0],
        4,
        1,
    ),
    // MOV AH,D5h; SAHF; MOV AL,80h; CBW; CWD; LAHF; HLT
    (
        &[0xB4, 0xD5, 0x9E, 0xB0, 0x80, 0x98, 0x99, 0x9F, 0xF4],
        Halted { steps: 7 },
        [0xD580, 0, 0xFFFF, 0, 0, 0, 0, 0],
        9,
        0xD5,
    ),
    // MOV AX,8000h; NEG AX; HLT
    (
        &[0xB8, 0, 0x80, 0xF7, 0xD8, 0xF4],
        Halted { steps: 3 },
        [0x8000, 0, 0, 0, 0, 0, 0, 0],
        6,
        0x885,
    ),
];

#[test]
fn short_programs(rt: HostRuntime) {
    for &(code, end, general, ip, flags) in ROWS {
        assert!(rt; !code.is_empty() && code.len() <= 65536);
        let mut cpu = Cpu::start(rt.alloc(), code, &[]).expect(&rt, "memory");
        let mut ports = blank();
        let found = cpu.run(&mut ports, 100);
        let regs = cpu.regs();
        assert_eq!(rt; found, end, "{code:?}");
        assert_eq!(rt; regs.general, general, "{code:?}");
        assert_eq!(rt; regs.ip, ip, "{code:?}");
        assert_eq!(rt; regs.flags, flags_of(flags), "{code:?}");
    }
}

#[test]
fn places_and_bytes(rt: HostRuntime) {
    // MOV AX,[FFFFh]; OUT 12h,AL; OUT 15h,AL; HLT
    let code = [0xA1, 0xFF, 0xFF, 0xE6, 0x12, 0xE6, 0x15, 0xF4];
    let mut cpu = Cpu::start(rt.alloc(), &code, &[0x0201]).expect(&rt, "memory");
    let mut ports = blank();
    cpu.put_byte(0x2_FFFF, 0x7F);
    assert!(rt; cpu.run(&mut ports, 3) == RunEnd::Limit);
    assert!(rt; cpu.run(&mut ports, 3) == Halted { steps: 1 });
    assert!(rt; cpu.regs().general[0] == 0x017F);
    assert!(rt; ports.output == 0x7F && ports.told.line_low == 0x7F);
    let regs = cpu.regs();
    assert!(rt; regs.cs == 0x1000 && regs.ds == 0x2000 && regs.es == 0x2000 && regs.ss == 0x3000);
    assert!(rt; cpu.byte_at(0x2_0001) == 2);
    // FFFF:0010 is address 0, and the byte behind FFFFh is at offset 0: INC BX; JMP -3
    cpu.put_byte(0, 0x43);
    cpu.put_byte(1, 0xEB);
    cpu.put_byte(2, 0xFD);
    cpu.set_place(0xFFFF, 0x10);
    assert!(rt; cpu.run(&mut ports, 5) == RunEnd::Limit);
    assert!(rt; cpu.regs().general[3] == 3 && cpu.regs().ip == 0x11);
    // INC BX at FFFFh, and HLT at 0
    cpu.put_byte(0x1_FFFF, 0x43);
    cpu.put_byte(0x1_0000, 0xF4);
    cpu.set_place(0x1000, 0xFFFF);
    assert!(rt; cpu.run(&mut ports, 5) == Halted { steps: 2 });
    assert!(rt; cpu.regs().general[3] == 4 && cpu.regs().ip == 1);
}
