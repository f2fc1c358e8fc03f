//! Benchmark of the simulator: instructions a second of a loop by hand, of one as an earlier generator made it and of the same as it is made
//! now, and how long an image takes that copies its input.
#![tactic(auto)]

ghost use Rattle.std.specs.Prelude.{⊤, ◌^◌, ◌<◌, ◌≤◌, length, true, None};

use cw_cpu86::{Cpu, Ports, RunEnd};
use cw_io::{Failed, MemSink, MemSource};
use cw_ports::{ImageEnd, run_image};
use cw_word::{List, NoMemory};
use std::alloc::Global;
use std::io;
use std::rt::Clock;
use std::time::Instant;

/// How many instructions are timed.
const INSTRUCTIONS: u64 = 50_000_000;

/// Ports that fail, since the loop uses none.
#[derive(Drop)]
struct Closed;

impl Ports for Closed {
    ghost device = { λ _. record {
      left = None;
      at_end = None;
      is_used = true;
      is_cut = true;
      held = None;
      kind = 0;
      segment = 0;
      line_low = 0;
      line_high = 0;
    } };

    ghost faults = { λ _. 2 ^ 64 };

    ghost becomes = { λ _ _. ⊤ };

    fn take(&mut self, _port: u8) -> Result<u8, Failed> {
        Err(Failed)
    }

    fn give(&mut self, _port: u8, _value: u8) -> Result<(), Failed> {
        Err(Failed)
    }

    ghost stays = { λ _. tt };

    ghost goes_on = { λ _ _ _ _ _. tt };
}

/// By hand, eleven instructions a turn:
/// again: MOV AX,[100h]; ADD AX,CX; MOV [100h],AX; MOV BX,[102h]; ADD BX,AX; MOV [102h],BX; CALL add; DEC CX; JNZ again;
/// JMP again; NOP; add: ADD AX,1; RET
const BY_HAND: [u8; 31] = [
    0xA1, 0x00, 0x01, 0x01, 0xC8, 0xA3, 0x00, 0x01, 0x8B, 0x1E, 0x02, 0x01, 0x01, 0xC3, 0x89, 0x1E,
    0x02, 0x01, 0xE8, 0x06, 0x00, 0x49, 0x75, 0xE8, 0xEB, 0xE6, 0x90, 0x05, 0x01, 0x00, 0xC3,
];

/// As an earlier generator of the compiler made it, 39 instructions a turn and five more in every tenth one: after MOV word [102h],1, which is Y,
/// the code of LOOP: X := Y - X; A[I] := X; I := I + 1; IF I < 10 THEN GOTO LOOP; I := 0; GOTO LOOP
/// with the line of each statement and the tests for overflow, and behind it the routine that tests the element's address.
const COMPILED: [u8; 129] = [
    0xC7, 0x06, 0x02, 0x01, 0x01, 0x00, 0xC7, 0x46, 0xFE, 0x01, 0x00, 0x50, 0xA1, 0x02, 0x01, 0x2B,
    0x06, 0x00, 0x01, 0x71, 0x03, 0xE8, 0x68, 0x00, 0xA3, 0x00, 0x01, 0x58, 0xC7, 0x46, 0xFE, 0x02,
    0x00, 0x50, 0xA1, 0x00, 0x01, 0x50, 0xA1, 0x04, 0x01, 0xBB, 0x90, 0x00, 0x03, 0xC3, 0x71, 0x03,
    0xE8, 0x4D, 0x00, 0xBA, 0x00, 0x01, 0xE8, 0x3F, 0x00, 0x8B, 0xD8, 0xD1, 0xE3, 0x58, 0x89, 0x07,
    0x58, 0xC7, 0x46, 0xFE, 0x03, 0x00, 0x50, 0xA1, 0x04, 0x01, 0x05, 0x01, 0x00, 0x71, 0x03, 0xE8,
    0x2E, 0x00, 0xA3, 0x04, 0x01, 0x58, 0xC7, 0x46, 0xFE, 0x04, 0x00, 0x50, 0xA1, 0x04, 0x01, 0x3D,
    0x0A, 0x00, 0x58, 0x7D, 0x03, 0xE9, 0x9E, 0xFF, 0xC7, 0x46, 0xFE, 0x05, 0x00, 0x50, 0xB8, 0x00,
    0x00, 0xA3, 0x04, 0x01, 0x58, 0xE9, 0x8E, 0xFF, 0x3B, 0xC2, 0x72, 0x03, 0xE8, 0x01, 0x00, 0xC3,
    0xF4,
];

/// The same text as the compiler makes it now, 19 instructions a turn and two more in every tenth one, after MOV word [102h],1 and MOV DI,8000h,
/// the size of the data area. Each stop is a CALL of the last instruction, with its line behind it.
const COMPILED_NOW: [u8; 81] = [
    0xC7, 0x06, 0x02, 0x01, 0x01, 0x00, 0xBF, 0x00, 0x80, 0xA1, 0x02, 0x01, 0x2B, 0x06, 0x00, 0x01,
    0x71, 0x05, 0xE8, 0x3B, 0x00, 0x01, 0x00, 0xA3, 0x00, 0x01, 0xA1, 0x00, 0x01, 0xBE, 0x90, 0x00,
    0x03, 0x36, 0x04, 0x01, 0x3B, 0xF7, 0x72, 0x05, 0xE8, 0x25, 0x00, 0x02, 0x00, 0xD1, 0xE6, 0x89,
    0x04, 0xA1, 0x04, 0x01, 0x40, 0x71, 0x05, 0xE8, 0x16, 0x00, 0x03, 0x00, 0xA3, 0x04, 0x01, 0xA1,
    0x04, 0x01, 0x3D, 0x0A, 0x00, 0x7D, 0x02, 0xEB, 0xC0, 0x33, 0xC0, 0xA3, 0x04, 0x01, 0xEB, 0xB9,
    0xF4,
];

/// again: IN AL,11h; CMP AL,1; JZ end; IN AL,10h; OUT 12h,AL; JMP again; end: HLT
const COPY: [u8; 13] = [
    0xE4, 0x11, 0x3C, 0x01, 0x74, 0x06, 0xE4, 0x10, 0xE6, 0x12, 0xEB, 0xF4, 0xF4,
];

/// Times so many instructions of a loop, which is the whole code.
fn time(
    rt: &(impl Print + Eprint + Clock),
    alloc: Global,
    name: &str,
    code: &[u8],
) -> anyhow::Result<()>
    requires some { 0 < length code.now }
    requires fits { length code.now ≤ 65536 }
{
    let Ok(mut cpu) = Cpu::start(alloc, code, &[]) else {
        println!(rt; "no memory")?;
        return Ok(());
    };
    let start = Instant::now(rt)?;
    let end = cpu.run(&mut Closed, INSTRUCTIONS);
    let took = start.elapsed(rt)?.as_micros();
    if end == RunEnd::Limit {
        println!(rt;
            "{name}: ran {INSTRUCTIONS} instructions, AX {}",
            cpu.regs().general[0]
        )?;
    }
    if took > 0 {
        eprintln!(rt;
            "{name}: {} million instructions a second",
            u128::from(INSTRUCTIONS) / took
        )?;
    }
    Ok(())
}

fn main(rt: HostRuntime) -> anyhow::Result<()> {
    time(&rt, rt.alloc(), "by hand", &BY_HAND)?;
    time(&rt, rt.alloc(), "compiled before", &COMPILED)?;
    time(&rt, rt.alloc(), "compiled", &COMPILED_NOW)?;
    let mut bytes = Vec::with_capacity(rt.alloc(), 16_777_216)?;
    bytes.resize(16_777_216, 7u8)?;
    let mut source = MemSource::new(List::of(bytes), 65_536, List::new(rt.alloc()));
    let Ok(mut sink) = MemSink::new(rt.alloc(), 16_777_216, 65_536, List::new(rt.alloc())) else {
        println!(rt; "no memory")?;
        return Ok(());
    };
    let Ok(mut copier) = Cpu::start(rt.alloc(), &COPY, &[]) else {
        println!(rt; "no memory")?;
        return Ok(());
    };
    let start = Instant::now(&rt)?;
    let end = run_image(&mut copier, &mut source, &mut sink, 200_000_000);
    let took = start.elapsed(&rt)?.as_micros();
    println!(rt;
        "copied {} bytes, {}",
        sink.held().len(),
        end == ImageEnd::Ended
    )?;
    eprintln!(rt; "16 MiB in {} milliseconds", took / 1000)?;
    Ok(())
}
