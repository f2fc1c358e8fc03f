// The processor.
ghost use Rattle.std.specs.Prelude.{◌≡◌, true, false, ◌≤◌, ◌<◌, ◌^◌, length, slice_index, slice_set, IfOk};
ghost use Rattle.cw_i86.specs.State.{State, data_segment, stack_segment};
ghost use Rattle.cw_i86.specs.MachineRun.{IsStart, Steps, GoesOn, Silent};
ghost use Rattle.cw_cpu86.specs.Answers.{StepAnswers, StepCounts, RunAnswers, RunCounts};

use crate::fetch::fetch;
use crate::memory::MEMORY;
use crate::ports::Ports;
use crate::start::{put_code, put_words, zeros};
use cw_i86::{Flags, Instr};
use cw_word::NoMemory;
use std::alloc::Global;
use std::marker::Model;

const CODE_SEGMENT: u16 = 0x1000;

/// What DS and ES hold, since no instruction loads them.
pub(crate) const DATA_SEGMENT: u16 = 0x2000;

/// What SS holds, since no instruction loads it.
pub(crate) const STACK_SEGMENT: u16 = 0x3000;

/// What a step did.
#[derive(Clone, Copy, PartialEq, Eq, Debug)]
pub enum Step {
    /// The instruction at CS:IP.
    Ran,
    /// HLT. IP is past it.
    Halted,
    /// Nothing: no instruction stands at CS:IP, where IP is the offset.
    BadCode { offset: u16 },
    /// Nothing: the quotient of the division at CS:IP does not fit, or the divisor is 0.
    Divide { offset: u16 },
    /// Nothing: the port of the IN or OUT at CS:IP failed.
    PortFault,
}

/// How a run ended. The steps are those that ran, HLT among them.
#[derive(Clone, Copy, PartialEq, Eq, Debug)]
pub enum RunEnd {
    /// HLT was the last of so many steps.
    Halted { steps: u64 },
    /// As many steps as were allowed ran, and none halted.
    Limit,
    /// After so many steps no instruction stands at CS:IP.
    BadCode { offset: u16, steps: u64 },
    /// After so many steps the division at CS:IP cannot be done.
    Divide { offset: u16, steps: u64 },
    /// After so many steps the port of the IN or OUT at CS:IP failed.
    PortFault { steps: u64 },
}

/// A processor 8086 with its memory of one mebibyte.
#[derive(Drop)]
pub struct Cpu {
    pub(crate) memory: Vec<u8>,
    pub(crate) registers: [u16; 8],
    pub(crate) code_segment: u16,
    pub(crate) instruction_pointer: u16,
    pub(crate) flags: Flags,
}

impl Model for Cpu {
    ghost Value = { State };

    ghost view = { λ c. record {
      memory = c.memory.items;
      registers = c.registers;
      code_segment = c.code_segment;
      instruction_pointer = c.instruction_pointer;
      flags = c.flags;
    } };

    ghost invariant = { λ c. length c.memory.items ≡ 2 ^ 20 };
}

/// The registers and the flags.
#[derive(Clone, Copy)]
pub struct Regs {
    /// AX, CX, DX, BX, SP, BP, SI and DI.
    pub general: [u16; 8],
    pub cs: u16,
    pub ds: u16,
    pub es: u16,
    pub ss: u16,
    pub ip: u16,
    pub flags: Flags,
}

impl Cpu {
    /// The instruction that stands at CS:IP, if one does. IN takes one byte from its port and OUT gives one to it, and
    /// no other instruction uses the ports.
    ///
    /// BadCode, Divide and PortFault leave the processor as it was. A halted processor goes on where it is stepped again.
    #[inline(always)]
    pub fn step<P: Ports>(&mut self, ports: &mut P) -> Step
        ensures answers { StepAnswers result self.old (P.device ports.old) self.new (P.device ports.new) }
        ensures counts { StepCounts result (P.faults ports.old) (P.faults ports.new) }
        ensures becomes { P.becomes ports.old ports.new }
    {
        if self.step_common() {
            Step::Ran
        } else {
            self.step_decoded(ports)
        }
    }

    // The same by the decoded instruction, whichever it is.
    #[inline(always)]
    fn step_decoded<P: Ports>(&mut self, ports: &mut P) -> Step
        ensures answers { StepAnswers result self.old (P.device ports.old) self.new (P.device ports.new) }
        ensures counts { StepCounts result (P.faults ports.old) (P.faults ports.new) }
        ensures becomes { P.becomes ports.old ports.new }
    {
        let offset = self.instruction_pointer;
        let Some((instr, length)) = fetch(&self.memory, self.code_segment, offset) else {
            return Step::BadCode { offset };
        };
        match instr {
            Instr::In(port) => match ports.take(port) {
                Ok(value) => {
                    self.advance(u16::from(length));
                    self.set_byte_register(0, value);
                    Step::Ran
                }
                Err(_) => Step::PortFault,
            },
            Instr::Out(port) => {
                let value = (self.register(0) % 256) as u8;
                match ports.give(port, value) {
                    Ok(()) => {
                        self.advance(u16::from(length));
                        Step::Ran
                    }
                    Err(_) => Step::PortFault,
                }
            }
            Instr::Hlt => {
                self.advance(u16::from(length));
                Step::Halted
            }
            _ => {
                self.advance(u16::from(length));
                if self.execute(instr) {
                    Step::Ran
                } else {
                    self.instruction_pointer = offset;
                    Step::Divide { offset }
                }
            }
        }
    }

    /// Steps until one doesn't go on, and at most so many. Allocates nothing.
    pub fn run<P: Ports>(&mut self, ports: &mut P, limit: u64) -> RunEnd
        ensures answers { RunAnswers result limit self.old (P.device ports.old) self.new (P.device ports.new) }
        ensures counts { RunCounts result (P.faults ports.old) (P.faults ports.new) }
        ensures becomes { P.becomes ports.old ports.new }
    {
        for steps in 0..limit {
            match self.step(ports) {
                Step::Ran => {}
                Step::Halted => return RunEnd::Halted { steps: steps + 1 },
                Step::BadCode { offset } => return RunEnd::BadCode { offset, steps },
                Step::Divide { offset } => return RunEnd::Divide { offset, steps },
                Step::PortFault => return RunEnd::PortFault { steps },
            }
        }
        RunEnd::Limit
    }

    /// The byte at a physical address.
    pub fn byte_at(&self, address: u32) -> u8
        requires { address < 2 ^ 20 }
        ensures { result ≡ slice_index self.now.memory address }
    {
        self.memory[address as usize]
    }

    /// Puts a byte at a physical address.
    pub fn put_byte(&mut self, address: u32, value: u8)
        requires { address < 2 ^ 20 }
        ensures { self.new ≡ record self.old { memory = slice_set self.old.memory address value } }
    {
        self.memory[address as usize] = value;
    }

    /// Sets CS and IP, so that the next step is at that place.
    pub fn set_place(&mut self, cs: u16, ip: u16)
        ensures { self.new ≡ record self.old { code_segment = cs; instruction_pointer = ip } }
    {
        self.code_segment = cs;
        self.instruction_pointer = ip;
    }

    /// The registers and the flags.
    pub fn regs(&self) -> Regs
        ensures general { result.general ≡ self.now.registers }
        ensures cs { result.cs ≡ self.now.code_segment }
        ensures ds { result.ds ≡ data_segment }
        ensures es { result.es ≡ data_segment }
        ensures ss { result.ss ≡ stack_segment }
        ensures ip { result.ip ≡ self.now.instruction_pointer }
        ensures flags { result.flags ≡ self.now.flags }
    {
        Regs {
            general: self.registers,
            cs: self.code_segment,
            ds: DATA_SEGMENT,
            es: DATA_SEGMENT,
            ss: STACK_SEGMENT,
            ip: self.instruction_pointer,
            flags: self.flags,
        }
    }

    /// The state in which a program begins: its code stands from 10000h and its words from 20000h, CS is 1000h, DS and
    /// ES are 2000h, SS is 3000h, and all else is 0.
    pub fn start(alloc: Global, code: &[u8], words: &[u16]) -> Result<Cpu, NoMemory>
        requires some { 0 < length code.now }
        requires code { length code.now ≤ 65536 }
        requires words { length words.now ≤ 32768 }
        ensures { IfOk result (λ cpu. IsStart code.now words.now cpu) }
    {
        let mut memory = zeros(alloc, MEMORY)?;
        put_code(&mut memory, code);
        put_words(&mut memory, words);
        Ok(Cpu {
            memory,
            registers: [0; 8],
            code_segment: CODE_SEGMENT,
            instruction_pointer: 0,
            flags: Flags {
                cf: false,
                pf: false,
                af: false,
                zf: false,
                sf: false,
                of: false,
            },
        })
    }
}
