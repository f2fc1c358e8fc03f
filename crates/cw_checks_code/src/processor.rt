//! Programs of orders on the processor.
use crate::codes::have_numbers;
use cw_assemble::assemble;
use cw_cpu86::Cpu;
use cw_interpreter::Program;
use cw_io::{MemSink, MemSource};
use cw_link::{Links, fill};
use cw_order::Orders;
use cw_ports::{ImageEnd, run_image};
use cw_tmpl::{Code, base_code, base_entry};
use cw_unit::layout::Limits;
use cw_unit::unit::Def;
use cw_word::List;
use std::alloc::Global;

// The code of orders; none where one has none.
fn code_of(alloc: Global, orders: &Orders) -> Option<Code> {
    if have_numbers(orders.list.as_slice()) {
        assemble(alloc, orders).ok()
    } else {
        None
    }
}

// The codes of the segments.
fn codes_of(alloc: Global, program: &Program) -> Option<Vec<Code>> {
    let mut codes = Vec::new(alloc);
    for segment in program.segments.iter() {
        codes.push(code_of(alloc, &segment.orders)?).ok()?;
    }
    Some(codes)
}

// Where the code behind a segment's begins.
fn behind(at: u32, code: &Code) -> Option<u32> {
    at.checked_add(u32::try_from(code.bytes.as_slice().len()).ok()?)
}

// Where the code of each segment begins, behind the library.
fn starts_of(alloc: Global, codes: &[Code]) -> Option<Vec<u32>> {
    let mut at = u32::try_from(base_code().len()).ok()?;
    let mut starts = Vec::new(alloc);
    for code in codes {
        starts.push(at).ok()?;
        at = behind(at, code)?;
    }
    Some(starts)
}

fn place_in(code: &Code, definition: Def) -> Option<u32> {
    let place = match definition {
        Def::Proc(number) => code.procedures.as_slice().get(number as usize),
        Def::Label(number) => code.labels.as_slice().get(number as usize),
        Def::Switch(number) => code.switches.as_slice().get(number as usize),
    };
    place.copied()
}

// The place of a definition in the image.
fn place_of(codes: &[Code], starts: &[u32], segment: usize, definition: Def) -> Option<u16> {
    let place = place_in(codes.get(segment)?, definition)?;
    u16::try_from(starts.get(segment)?.checked_add(place)?).ok()
}

// The places of what the descriptors of a segment name.
fn definitions_of(
    alloc: Global,
    defined: &[(u16, usize, Def)],
    codes: &[Code],
    starts: &[u32],
) -> Option<Vec<u16>> {
    let mut places = vec![in alloc; 0_u16; 16].ok()?;
    for (descriptor, segment, definition) in defined {
        *places.get_mut(*descriptor as usize)? = place_of(codes, starts, *segment, *definition)?;
    }
    Some(places)
}

// Where the code behind a segment of this number begins, or what ends the program.
fn next_of(starts: &[u32], number: usize) -> Option<u16> {
    match starts.get(number) {
        Some(place) => u16::try_from(*place).ok(),
        None => base_entry(0),
    }
}

// Fills in the code of the segment at this place.
fn fill_segment(
    alloc: Global,
    image: &mut [u8],
    program: &Program,
    codes: &[Code],
    starts: &[u32],
    place: usize,
) -> Option<()> {
    let segment = program.segments.get(place)?;
    let code = codes.get(place)?;
    let start = *starts.get(place)?;
    let number = place.wrapping_add(1);
    let next = next_of(starts, number)?;
    let number = u16::try_from(number).ok()?;
    let definitions = definitions_of(alloc, &segment.defined, codes, starts)?;
    let links = Links {
        homes: &segment.homes,
        definitions: &definitions,
        start,
        number,
        next,
    };
    fill(image, code.relocs.as_slice(), &links, &program.limits);
    Some(())
}

// The library, and the codes behind it.
fn joined(alloc: Global, codes: &[Code]) -> Option<Vec<u8>> {
    let mut image = base_code().to_vec(alloc).ok()?;
    for code in codes {
        image.extend_from_slice(code.bytes.as_slice()).ok()?;
    }
    Some(image)
}

fn linked_at(alloc: Global, program: &Program, codes: &[Code], starts: &[u32]) -> Option<Vec<u8>> {
    let mut image = joined(alloc, codes)?;
    for place in 0..codes.len() {
        fill_segment(alloc, image.as_mut_slice(), program, codes, starts, place)?;
    }
    Some(image)
}

fn linked(alloc: Global, program: &Program, codes: &[Code]) -> Option<Vec<u8>> {
    let starts = starts_of(alloc, codes)?;
    linked_at(alloc, program, codes, &starts)
}

/// The code of a program's image: the library, and the code of the segments, linked.
pub fn image_of(alloc: Global, program: &Program) -> Option<Vec<u8>> {
    let codes = codes_of(alloc, program)?;
    linked(alloc, program, &codes)
}

/// How many bytes are written at most.
const MOST: usize = 4096;

/// A run on the processor: what was written, and its end.
#[derive(Drop)]
pub struct Run {
    cpu: Cpu,
    input: MemSource,
    out: MemSink,
}

fn source(alloc: Global, input: &[u8]) -> Option<MemSource> {
    let bytes = List::of(input.to_vec(alloc).ok()?);
    Some(MemSource::new(bytes, MOST, List::new(alloc)))
}

impl Run {
    /// A run over this input that begins with these words of the data area.
    pub fn new(alloc: Global, code: &[u8], words: &[u16], input: &[u8]) -> Option<Run> {
        if code.is_empty() || code.len() > 65_536 || words.len() > 32_768 {
            return None;
        }
        let input = source(alloc, input)?;
        let out = MemSink::new(alloc, MOST, MOST, List::new(alloc)).ok()?;
        Some(Run {
            cpu: Cpu::start(alloc, code, words).ok()?,
            input,
            out,
        })
    }

    /// Goes on for so many instructions at most.
    pub fn go_on(&mut self, steps: u64) -> ImageEnd {
        run_image(&mut self.cpu, &mut self.input, &mut self.out, steps)
    }

    pub fn output(&self) -> &[u8] {
        self.out.held()
    }

    /// IP.
    pub fn place(&self) -> u16 {
        self.cpu.regs().ip
    }

    /// A word of the data area.
    pub fn word(&self, number: u16) -> i16 {
        let at = u32::from(number).wrapping_mul(2).wrapping_add(0x2_0000);
        i16::from_le_bytes([self.cpu.byte_at(at), self.cpu.byte_at(at.wrapping_add(1))])
    }

    /// Goes on by so many instructions at a time until so many bytes are written.
    pub fn go_until(&mut self, count: usize, stride: u64) {
        for _ in 0..100_000 {
            if self.out.held().len() >= count {
                return;
            }
            self.go_on(stride);
        }
    }
}
