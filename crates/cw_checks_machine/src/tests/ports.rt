//! Runs of images over sources and sinks in memory.
ghost use Rattle.std.specs.Prelude.{◌<◌, ◌≤◌, length};

use cw_cpu86::Cpu;
use cw_io::{MemSink, MemSource};
use cw_ports::ImageEnd::{BadCode, Ended, InputFault, OutFault, Unfinished};
use cw_ports::{ImageEnd, run_image};
use cw_word::List;
use std::alloc::{AllocError, Global};
use std::process::Abort;
use std::test::*;

/// again: IN AL,11h; CMP AL,1; JZ end; IN AL,10h; OUT 12h,AL; JMP again; end: HLT
const COPY: [u8; 13] = [
    0xE4, 0x11, 0x3C, 0x01, 0x74, 0x06, 0xE4, 0x10, 0xE6, 0x12, 0xEB, 0xF4, 0xF4,
];

/// MOV AL,43h; OUT 12h,AL; HLT
const WRITE: [u8; 5] = [0xB0, 0x43, 0xE6, 0x12, 0xF4];

// The code, the input, the bytes that a call moves, the calls for input and for output that fail, the end and what is written.
type Run = (
    &'static [u8],
    &'static [u8],
    usize,
    &'static [u64],
    &'static [u64],
    ImageEnd,
    &'static [u8],
);

const RUNS: &[Run] = &[
    (&COPY, b"", 4096, &[], &[], Ended, b""),
    (&COPY, b"ABC", 4096, &[], &[], Ended, b"ABC"),
    (&COPY, b"ABC", 1, &[], &[], Ended, b"ABC"),
    (&COPY, b"ABC", 4096, &[2], &[], InputFault, b"ABC"),
    (&COPY, b"ABC", 1, &[3], &[], InputFault, b"AB"),
    (&COPY, b"ABC", 4096, &[], &[1], OutFault, b""),
    (&COPY, b"ABC", 1, &[], &[2], OutFault, b"A"),
    (&WRITE, b"ABC", 4096, &[1], &[], Ended, b"C"),
    (&WRITE, b"ABC", 4096, &[], &[1], OutFault, b""),
    (&[0x0F], b"", 1, &[], &[], BadCode { offset: 0 }, b""),
    (&[0xEB, 0xFE], b"", 1, &[], &[], Unfinished, b""),
];

fn bytes(alloc: Global, from: &[u8]) -> Result<List<u8>, AllocError> {
    Ok(List::of(from.to_vec(alloc)?))
}

fn calls(alloc: Global, from: &[u64]) -> Result<List<u64>, AllocError> {
    Ok(List::of(from.to_vec(alloc)?))
}

// The end of a run over an input and a sink that move `piece` bytes a call, and what was written.
fn check_run(
    rt: &impl Abort,
    alloc: Global,
    code: &[u8],
    input: &[u8],
    piece: usize,
    input_fails: &[u64],
    out_fails: &[u64],
    end: ImageEnd,
    output: &[u8],
) -> Result<(), Fail>
    requires piece { 1 ≤ piece }
    requires some_code { 0 < length code.now }
    requires code_fits { length code.now ≤ 65536 }
{
    let mut source = MemSource::new(bytes(alloc, input)?, piece, calls(alloc, input_fails)?);
    let Ok(mut sink) = MemSink::new(alloc, 16_384, piece, calls(alloc, out_fails)?) else {
        return Err(AllocError.into());
    };
    let Ok(mut cpu) = Cpu::start(alloc, code, &[]) else {
        return Err(AllocError.into());
    };
    assert_eq!(rt; run_image(&mut cpu, &mut source, &mut sink, 200_000), end);
    assert_eq!(rt; sink.held(), output);
    Ok(())
}

#[test]
fn runs_in_pieces(rt: HostRuntime) -> Result<(), Fail> {
    let alloc = rt.alloc();
    let mut long = [0u8; 5000];
    for (k, byte) in long.iter_mut().enumerate() {
        *byte = (k % 251) as u8;
    }
    for piece in [1usize, 10_000] {
        check_run(&rt, alloc, &COPY, &long, piece, &[], &[], Ended, &long)?;
    }
    for &(code, input, piece, input_fails, out_fails, end, output) in RUNS {
        assert!(rt; 1 <= piece && !code.is_empty() && code.len() <= 65536);
        check_run(
            &rt,
            alloc,
            code,
            input,
            piece,
            input_fails,
            out_fails,
            end,
            output,
        )?;
    }
    Ok(())
}
