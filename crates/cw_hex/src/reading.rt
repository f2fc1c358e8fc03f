//! The loader.
ghost use Rattle.std.specs.Prelude.{◌≡◌, ◌≤◌, ◌<◌, ◌+◌, ◌*◌, ◌%◌, ◌^◌, true, take, drop, length, slice_index};
ghost use Rattle.cw_hex.specs.HexFormat.{bytes_of, put_bytes, place_of};
ghost use Rattle.cw_hex.specs.HexTold.{AnswersHex};

use crate::fault::HexFault;
use crate::line::{byte, first_line, line_fault};
use cw_cpu86::Cpu;
use std::alloc::Global;

const MEMORY: u32 = 0x10_0000;

// The processor as the records have made it, the base of their addresses, and whether the end has come.
#[derive(Drop)]
struct Reading {
    cpu: Cpu,
    base: u16,
    is_ended: bool,
}

// The word of two bytes, the high one first.
fn word(digits: &[u8], k: usize) -> u16
    requires { 2 * k + 3 < length digits.now }
    ensures { result ≡ 256 * slice_index (bytes_of digits.now) k + slice_index (bytes_of digits.now) (k + 1) }
{
    256 * u16::from(byte(digits, k)) + u16::from(byte(digits, k + 1))
}

fn place(base: u16, address: u32) -> u32
    requires { address < 2 ^ 20 }
    ensures is { result ≡ place_of base address }
    ensures within { result < 2 ^ 20 }
{
    (u32::from(base) * 16 + address % 65_536) % MEMORY
}

// Puts the data of a record into memory.
fn put_data(cpu: &mut Cpu, base: u16, digits: &[u8])
    requires { length digits.now ≡ 2 * (5 + slice_index (bytes_of digits.now) 0) }
    ensures { cpu.new ≡ record cpu.old {
      memory = put_bytes base
          (256 * slice_index (bytes_of digits.now) 1 + slice_index (bytes_of digits.now) 2)
          (take (slice_index (bytes_of digits.now) 0) (drop 4 (bytes_of digits.now))) cpu.old.memory;
    } }
{
    let first = u32::from(word(digits, 1));
    for i in 0..byte(digits, 0) {
        let address = place(base, first + u32::from(i));
        cpu.put_byte(address, byte(digits, 4 + usize::from(i)));
    }
}

impl Reading {
    ghost use Rattle.cw_hex.specs.HexFormat.{fits_type, after_record};

    fn take_record(&mut self, digits: &[u8])
        requires form { length digits.now ≡ 2 * (5 + slice_index (bytes_of digits.now) 0) }
        requires fits { fits_type (slice_index (bytes_of digits.now) 3) (slice_index (bytes_of digits.now) 0) ≡ true }
        ensures { self.new ≡ after_record (bytes_of digits.now) self.old }
    {
        match byte(digits, 3) {
            0 => put_data(&mut self.cpu, self.base, digits),
            1 => self.is_ended = true,
            2 => self.base = word(digits, 4),
            _ => self.cpu.set_place(word(digits, 4), word(digits, 6)),
        }
    }
}

/// The processor as a HEX text tells it, or what is wrong with the text first. Takes no memory but the processor's.
pub fn load_hex(alloc: Global, text: &[u8]) -> Result<Cpu, HexFault>
    ensures { AnswersHex text.now result }
{
    let Ok(cpu) = Cpu::start(alloc, &[0], &[]) else {
        return Err(HexFault::NoMemory);
    };
    let mut reading = Reading {
        cpu,
        base: 0,
        is_ended: false,
    };
    let mut rest = text;
    let mut number: u64 = 1;
    while !rest.is_empty() {
        let (line, after) = first_line(rest);
        if let Some(fault) = line_fault(reading.is_ended, number, line) {
            return Err(fault);
        }
        if let [_, digits @ ..] = line {
            reading.take_record(digits);
        }
        rest = after;
        number += 1;
    }
    if reading.is_ended {
        Ok(reading.cpu)
    } else {
        Err(HexFault::NoEnd { line: number })
    }
}
