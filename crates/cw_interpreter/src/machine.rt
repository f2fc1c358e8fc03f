//! The machine of orders: its state, and the parts of its steps.
use crate::accumulator::{line_of, loaded_after};
use crate::segments::Program;
use std::alloc::Global;

/// The words of the control stack for operands and activations.
const ROOM: usize = 32_000;

// The kinds of stops that the machine itself tells.
pub(crate) const OVERFLOW: u8 = 1;

pub(crate) const ZERO_DIVISOR: u8 = 2;

pub(crate) const SWITCH: u8 = 3;

pub(crate) const ADDRESS: u8 = 4;

pub(crate) const FRAMES: u8 = 5;

pub(crate) const DEPTH: u8 = 6;

pub(crate) const BOUNDS: u8 = 7;

/// A label or a switch with the number of activations where it was named, or a procedure.
#[derive(Clone, Copy)]
pub(crate) enum Control {
    Label(usize, u32, usize),
    Switch(usize, u32, usize),
    Procedure(usize, u16),
}

#[derive(Clone, Copy)]
pub(crate) enum Operand {
    Word(i16),
    Held(Control),
}

pub(crate) fn size(operand: Operand) -> usize {
    match operand {
        Operand::Word(_) => 1,
        Operand::Held(_) => 2,
    }
}

pub(crate) fn sizes(operands: &[Operand]) -> usize {
    let mut words = 0_usize;
    for operand in operands {
        words = words.wrapping_add(size(*operand));
    }
    words
}

/// A call at work: where its caller goes on, with the line of the call; how many operands stand below its arguments, and below its own
/// operands; the words of the control stack below those; whether Enter has begun it; and its frame.
#[derive(Clone, Copy)]
pub(crate) struct Activation {
    pub segment: usize,
    pub place: usize,
    pub line: u16,
    pub arguments: usize,
    pub floor: usize,
    pub below: usize,
    pub is_entered: bool,
    pub base: u32,
    pub top: u32,
}

/// How a run ends: at the end of the last segment, at a stop of this kind, segment (from 1) and line, where an order cannot be carried
/// out or the stack has no room, after so many orders as it may have, or for want of memory.
#[derive(Clone, Copy)]
pub enum End {
    Ended,
    Stopped(u8, usize, u16),
    Stuck,
    Unfinished,
    NoMemory,
}

/// A run: the segment at work, the place of the next order, the line of the order at work, whether the top operand is
/// in the accumulator, the activations, the arguments and operands of all of them, last
/// one last, the words of the data area, the bytes that are left to read, those that were written, and the end once it is there. From
/// then on nothing is written.
#[derive(Drop)]
pub struct Machine<'a> {
    pub(crate) program: &'a Program,
    pub(crate) segment: usize,
    pub(crate) place: usize,
    pub(crate) line: u16,
    pub(crate) loaded: bool,
    pub(crate) activations: Vec<Activation>,
    pub(crate) operands: Vec<Operand>,
    pub(crate) memory: Vec<i16>,
    pub(crate) input: &'a [u8],
    pub(crate) output: Vec<u8>,
    pub(crate) end: Option<End>,
}

impl<'a> Machine<'a> {
    /// A run that begins with these words of the data area.
    pub fn new(alloc: Global, program: &'a Program, memory: Vec<i16>, input: &'a [u8]) -> Self {
        let place = match program.segments.first() {
            Some(segment) => segment.orders.entry as usize,
            None => 0,
        };
        Machine {
            program,
            segment: 0,
            place,
            line: 0,
            loaded: false,
            activations: Vec::new(alloc),
            operands: Vec::new(alloc),
            memory,
            input,
            output: Vec::new(alloc),
            end: None,
        }
    }

    /// Carries out so many orders at most.
    pub fn run(&mut self, limit: u32) -> End {
        for _ in 0..limit {
            self.step();
            if let Some(end) = self.end {
                return end;
            }
        }
        End::Unfinished
    }

    /// The bytes that were written so far.
    pub fn output(&self) -> &[u8] {
        self.output.as_slice()
    }

    fn step(&mut self) {
        let program = self.program;
        match program.order(self.segment, self.place) {
            Some(order) => {
                self.place = self.place.wrapping_add(1);
                self.line = line_of(order);
                match loaded_after(order, self.loaded) {
                    Some(loaded) => self.loaded = loaded,
                    None => self.end_with(End::Stuck),
                }
                self.carry_out(order);
            }
            None => self.end_with(End::Stuck),
        }
        if self.stack_words() > ROOM {
            self.end_with(End::Stuck);
        }
    }

    // Ends the run, if it has no end yet.
    pub(crate) fn end_with(&mut self, end: End) {
        if self.end.is_none() {
            self.end = Some(end);
        }
    }

    pub(crate) fn stop(&mut self, kind: u8) {
        self.end_with(End::Stopped(kind, self.segment.wrapping_add(1), self.line));
    }

    // How many operands stand below those of the activation at work.
    pub(crate) fn floor(&self) -> usize {
        match self.activations.last() {
            Some(last) => last.floor,
            None => 0,
        }
    }

    pub(crate) fn stack_words(&self) -> usize {
        let own = self.operands.get(self.floor()..).unwrap_or(&[]);
        match self.activations.last() {
            Some(last) => sizes(own).wrapping_add(last.below),
            None => sizes(own),
        }
    }

    pub(crate) fn push(&mut self, operand: Operand) {
        if self.operands.push(operand).is_err() {
            self.end_with(End::NoMemory);
        }
    }

    pub(crate) fn put(&mut self, word: i16) {
        self.push(Operand::Word(word));
    }

    // Puts a number that must fit a word, or stops.
    pub(crate) fn put_number(&mut self, number: i64, kind: u8) {
        match i16::try_from(number) {
            Ok(word) => self.put(word),
            Err(_) => self.stop(kind),
        }
    }

    // A number that must fit a word.
    pub(crate) fn fitting(&mut self, number: i64, kind: u8) -> i64 {
        if i16::try_from(number).is_err() {
            self.stop(kind);
        }
        number
    }

    // The top operand; 0, and the run ends, where that is no word.
    pub(crate) fn take(&mut self) -> i16 {
        if self.operands.len() > self.floor()
            && let Some(Operand::Word(word)) = self.operands.pop()
        {
            return word;
        }
        self.end_with(End::Stuck);
        0
    }

    pub(crate) fn take_number(&mut self) -> i64 {
        i64::from(self.take())
    }

    // The word at an address; 0, and the run ends, where there is none.
    pub(crate) fn word_at(&mut self, address: i64) -> i16 {
        if let Ok(index) = usize::try_from(address)
            && let Some(word) = self.memory.get(index)
        {
            return *word;
        }
        self.end_with(End::Stuck);
        0
    }

    pub(crate) fn store(&mut self, address: i64, word: i16) {
        if let Ok(index) = usize::try_from(address)
            && let Some(place) = self.memory.get_mut(index)
        {
            *place = word;
        } else {
            self.end_with(End::Stuck);
        }
    }

    // An address that must be one of the data area.
    pub(crate) fn in_area(&mut self, address: i16) -> i64 {
        let address = i64::from(address);
        if address < 0 || address >= i64::from(self.program.limits.area) {
            self.stop(ADDRESS);
        }
        address
    }

    // The address of a word of a storage family.
    pub(crate) fn home(&self, family: u16, offset: u16) -> i16 {
        let homes = match self.program.segments.get(self.segment) {
            Some(segment) => segment.homes.as_slice(),
            None => &[],
        };
        let base = homes.get(family as usize).copied().unwrap_or(0);
        base.wrapping_add(offset).cast_signed()
    }

    // The address of a word of the frame at work; 0, and the run ends, where there is no frame or the word is not in the data area.
    pub(crate) fn frame_home(&mut self, offset: u16) -> i16 {
        if let Some(last) = self.activations.last() {
            let address = last.base.wrapping_add(u32::from(offset));
            if address < self.program.limits.area {
                return ((address % 65_536) as u16).cast_signed();
            }
        }
        self.end_with(End::Stuck);
        0
    }
}
