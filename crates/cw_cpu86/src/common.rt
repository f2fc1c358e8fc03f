// The instructions that compiled code is made of, by their first byte and without a decoded instruction.
ghost use Rattle.std.specs.Prelude.{◌≡◌, ◌≢◌, ◌<◌, ◌+◌, ◌*◌, ◌/◌, ◌%◌, if◌then◌else◌, true, false, IfSome};
ghost use Rattle.cw_i86.specs.State.{operand, offset_of, default_segment};
ghost use Rattle.cw_i86.specs.Effect.{operated, shifted};
ghost use Rattle.cw_i86.specs.MachineRun.{Steps, GoesOn, Silent};
ghost use Rattle.cw_i86.specs.declared.instr.Rm.{Rm};
ghost use Rattle.cw_i86.specs.declared.instr.Place.{Place};
ghost use Rattle.cw_cpu86.specs.Bytes.{opcode_at, byte_behind, IsWordBehind, NamesOperand};

use crate::cpu::{Cpu, DATA_SEGMENT, STACK_SEGMENT};
use crate::memory::{read_byte, read_word};
use crate::operands::sign_extended;
use cw_alu86::{alu16, holds, shl16};

// ADD, OR, SUB, XOR and CMP, by number among the eight operations.
const ADD: u8 = 0;

const OR: u8 = 1;

const SUB: u8 = 5;

const XOR: u8 = 6;

const CMP: u8 = 7;

/// Where a word in memory lies. The length is that of the opcode and the bytes that name the place.
#[derive(Clone, Copy)]
struct Located {
    segment: u16,
    offset: u16,
    length: u16,
}

/// A word operand. The length is that of the opcode and the bytes that name it.
#[derive(Clone, Copy)]
struct Named {
    value: u16,
    length: u16,
}

impl Cpu {
    // Carries out the instruction at CS:IP and answers true, or changes nothing and answers false where it is none of these.
    // The commonest come first, since a range becomes comparisons, in their order.
    #[inline(always)]
    pub(crate) fn step_common(&mut self) -> bool
        ensures goes { result ≡ true → Steps self.old (GoesOn self.new Silent) }
        ensures same { result ≡ false → self.new ≡ self.old }
    {
        let opcode = self.opcode();
        match opcode {
            // PUSH and POP of AX to BX
            0x50..=0x53 => {
                self.push_register(opcode - 0x50);
                true
            }
            0x58..=0x5B => {
                self.pop_register(opcode - 0x58);
                true
            }
            // MOV
            0xB8..=0xBF => {
                self.set_number(opcode - 0xB8);
                true
            }
            0xA1 => {
                self.load_ax();
                true
            }
            0xA3 => {
                self.store_ax();
                true
            }
            0x8B => self.load_operand(),
            0x89 => self.store_register(),
            0xC7 => self.store_number(),
            // the conditional jumps
            0x70..=0x7F => {
                self.jump_where(opcode - 0x70);
                true
            }
            // ADD, SUB, CMP, XOR and OR of a register and an operand
            0x03 => self.operate_operand(ADD),
            0x2B => self.operate_operand(SUB),
            0x3B => self.operate_operand(CMP),
            0x33 => self.operate_operand(XOR),
            0x0B => self.operate_operand(OR),
            // of AX and a number
            0x05 => {
                self.operate_number(ADD);
                true
            }
            0x2D => {
                self.operate_number(SUB);
                true
            }
            0x3D => {
                self.operate_number(CMP);
                true
            }
            // SHL by 1
            0xD1 => self.double_register(),
            // XCHG of AX and BX
            0x93 => {
                self.exchange_with_bx();
                true
            }
            // JMP, CALL and RET
            0xEB => {
                self.jump_short();
                true
            }
            0xE9 => {
                self.jump_near();
                true
            }
            0xE8 => {
                self.call_near();
                true
            }
            0xC3 => {
                self.return_near();
                true
            }
            0xC2 => {
                self.return_dropping();
                true
            }
            // PUSH and POP of BP, SI and DI
            0x55..=0x57 => {
                self.push_register(opcode - 0x50);
                true
            }
            0x5D..=0x5F => {
                self.pop_register(opcode - 0x58);
                true
            }
            // ADD, SUB and CMP of an operand and a register, where both are registers
            0x01 => self.operate_register_by(ADD),
            0x29 => self.operate_register_by(SUB),
            0x39 => self.operate_register_by(CMP),
            // INC and DEC
            0x40..=0x47 => {
                self.count_named(false, opcode - 0x40);
                true
            }
            0x48..=0x4F => {
                self.count_named(true, opcode - 0x48);
                true
            }
            _ => false,
        }
    }

    #[inline(always)]
    fn opcode(&self) -> u8
        ensures { result ≡ opcode_at self.now }
    {
        read_byte(&self.memory, self.code_segment, self.instruction_pointer)
    }

    // The byte so many bytes behind the opcode.
    #[inline(always)]
    fn byte_behind(&self, by: u16) -> u8
        ensures { result ≡ byte_behind self.now by }
    {
        read_byte(
            &self.memory,
            self.code_segment,
            self.instruction_pointer.wrapping_add(by),
        )
    }

    // The word of that byte and the next one.
    #[inline(always)]
    fn word_behind(&self, by: u16) -> u16
        requires { by < 6 }
        ensures { IsWordBehind self.now by result }
    {
        u16::from_le_bytes([self.byte_behind(by), self.byte_behind(by + 1)])
    }

    // A word in memory that the bytes behind the opcode name: [BX], [SI], [BX+byte], [BP+byte] or [offset].
    #[inline(always)]
    fn place_behind(&self, mode: u8) -> Option<Located>
        requires { mode ≡ byte_behind self.now 1 }
        ensures { IfSome result (λ at. (place : Place) × NamesOperand self.now (mode / 8 % 8) (Rm.Mem (record { cs = false; place = place })) at.length
            × (at.segment ≡ default_segment place) × (at.offset ≡ offset_of self.now place)) }
    {
        let form = mode % 8;
        if mode < 64 {
            if form == 7 {
                Some(Located {
                    segment: DATA_SEGMENT,
                    offset: self.registers[3],
                    length: 2,
                })
            } else if form == 6 {
                Some(Located {
                    segment: DATA_SEGMENT,
                    offset: self.word_behind(2),
                    length: 4,
                })
            } else if form == 4 {
                Some(Located {
                    segment: DATA_SEGMENT,
                    offset: self.registers[6],
                    length: 2,
                })
            } else {
                None
            }
        } else if mode < 128 {
            if form == 6 {
                let by = self.byte_behind(2);
                Some(Located {
                    segment: STACK_SEGMENT,
                    offset: self.registers[5].wrapping_add(sign_extended(by)),
                    length: 3,
                })
            } else if form == 7 {
                let by = self.byte_behind(2);
                Some(Located {
                    segment: DATA_SEGMENT,
                    offset: self.registers[3].wrapping_add(sign_extended(by)),
                    length: 3,
                })
            } else {
                None
            }
        } else {
            None
        }
    }

    // A word operand that the bytes behind the opcode name: a register, or a word in memory.
    #[inline(always)]
    fn operand_behind(&self, mode: u8) -> Option<Named>
        requires { mode ≡ byte_behind self.now 1 }
        ensures { IfSome result (λ named. (rm : Rm) × NamesOperand self.now (mode / 8 % 8) rm named.length × (named.value ≡ operand self.now true rm)) }
    {
        if mode >= 0xC0 {
            return Some(Named {
                value: self.register(mode % 8),
                length: 2,
            });
        }
        let Some(at) = self.place_behind(mode) else {
            return None;
        };
        Some(Named {
            value: read_word(&self.memory, at.segment, at.offset),
            length: at.length,
        })
    }

    #[inline(always)]
    fn push_register(&mut self, r: u8)
        requires r { r < 8 }
        requires not_sp { r ≢ 4 }
        requires stands { opcode_at self.old ≡ 0x50 + r }
        ensures { Steps self.old (GoesOn self.new Silent) }
    {
        self.advance(1);
        let word = self.register(r);
        self.push(word);
    }

    #[inline(always)]
    fn pop_register(&mut self, r: u8)
        requires r { r < 8 }
        requires not_sp { r ≢ 4 }
        requires stands { opcode_at self.old ≡ 0x58 + r }
        ensures { Steps self.old (GoesOn self.new Silent) }
    {
        self.advance(1);
        self.pop_to(r);
    }

    #[inline(always)]
    fn count_named(&mut self, down: bool, r: u8)
        requires r { r < 8 }
        requires stands { opcode_at self.old ≡ (if down then 0x48 else 0x40) + r }
        ensures { Steps self.old (GoesOn self.new Silent) }
    {
        self.advance(1);
        self.count_register(down, r);
    }

    #[inline(always)]
    fn set_number(&mut self, r: u8)
        requires r { r < 8 }
        requires stands { opcode_at self.old ≡ 0xB8 + r }
        ensures { Steps self.old (GoesOn self.new Silent) }
    {
        let word = self.word_behind(1);
        self.advance(3);
        self.set_register(r, word);
    }

    #[inline(always)]
    fn load_ax(&mut self)
        requires { opcode_at self.old ≡ 0xA1 }
        ensures { Steps self.old (GoesOn self.new Silent) }
    {
        let at = self.word_behind(1);
        self.advance(3);
        let word = read_word(&self.memory, DATA_SEGMENT, at);
        self.set_register(0, word);
    }

    #[inline(always)]
    fn store_ax(&mut self)
        requires { opcode_at self.old ≡ 0xA3 }
        ensures { Steps self.old (GoesOn self.new Silent) }
    {
        let at = self.word_behind(1);
        self.advance(3);
        let word = self.register(0);
        self.set_value_at(true, DATA_SEGMENT, at, word);
    }

    #[inline(always)]
    fn load_operand(&mut self) -> bool
        requires { opcode_at self.old ≡ 0x8B }
        ensures goes { result ≡ true → Steps self.old (GoesOn self.new Silent) }
        ensures same { result ≡ false → self.new ≡ self.old }
    {
        let mode = self.byte_behind(1);
        let Some(named) = self.operand_behind(mode) else {
            return false;
        };
        self.advance(named.length);
        self.set_register(mode / 8 % 8, named.value);
        true
    }

    #[inline(always)]
    fn store_register(&mut self) -> bool
        requires { opcode_at self.old ≡ 0x89 }
        ensures goes { result ≡ true → Steps self.old (GoesOn self.new Silent) }
        ensures same { result ≡ false → self.new ≡ self.old }
    {
        let mode = self.byte_behind(1);
        let Some(at) = self.place_behind(mode) else {
            return false;
        };
        self.advance(at.length);
        let word = self.register(mode / 8 % 8);
        self.set_value_at(true, at.segment, at.offset, word);
        true
    }

    // MOV of a number to [BP+byte] or [offset].
    #[inline(always)]
    fn store_number(&mut self) -> bool
        requires { opcode_at self.old ≡ 0xC7 }
        ensures goes { result ≡ true → Steps self.old (GoesOn self.new Silent) }
        ensures same { result ≡ false → self.new ≡ self.old }
    {
        let mode = self.byte_behind(1);
        if mode == 0x46 {
            let by = self.byte_behind(2);
            let word = self.word_behind(3);
            self.advance(5);
            let offset = self.registers[5].wrapping_add(sign_extended(by));
            self.set_value_at(true, STACK_SEGMENT, offset, word);
            true
        } else if mode == 0x06 {
            let at = self.word_behind(2);
            let word = self.word_behind(4);
            self.advance(6);
            self.set_value_at(true, DATA_SEGMENT, at, word);
            true
        } else {
            false
        }
    }

    // One of the eight operations on a register and a word.
    #[inline(always)]
    #[tactic(auto, unfolding(cw_i86::specs::Effect::operated, cw_i86::specs::State::operand, cw_i86::specs::State::sized_register, cw_i86::specs::State::with_operand, cw_i86::specs::State::with_sized_register))]
    fn operate_word(&mut self, op: u8, r: u8, word: u16)
        requires op { op < 8 }
        requires r { r < 8 }
        ensures { self.new ≡ operated self.old op true (Rm.Reg r) word }
    {
        let (value, flags) = alu16(op, self.flags, self.register(r), word);
        self.flags = flags;
        if op != CMP {
            self.set_register(r, value);
        }
    }

    #[inline(always)]
    fn operate_operand(&mut self, op: u8) -> bool
        requires op { op < 8 }
        requires stands { opcode_at self.old ≡ 8 * op + 3 }
        ensures goes { result ≡ true → Steps self.old (GoesOn self.new Silent) }
        ensures same { result ≡ false → self.new ≡ self.old }
    {
        let mode = self.byte_behind(1);
        let Some(named) = self.operand_behind(mode) else {
            return false;
        };
        self.advance(named.length);
        self.operate_word(op, mode / 8 % 8, named.value);
        true
    }

    // Of registers alone.
    #[inline(always)]
    fn operate_register_by(&mut self, op: u8) -> bool
        requires op { op < 8 }
        requires stands { opcode_at self.old ≡ 8 * op + 1 }
        ensures goes { result ≡ true → Steps self.old (GoesOn self.new Silent) }
        ensures same { result ≡ false → self.new ≡ self.old }
    {
        let mode = self.byte_behind(1);
        if mode < 0xC0 {
            return false;
        }
        self.advance(2);
        let word = self.register(mode / 8 % 8);
        self.operate_word(op, mode % 8, word);
        true
    }

    #[inline(always)]
    fn operate_number(&mut self, op: u8)
        requires op { op < 8 }
        requires stands { opcode_at self.old ≡ 8 * op + 5 }
        ensures { Steps self.old (GoesOn self.new Silent) }
    {
        let word = self.word_behind(1);
        self.advance(3);
        self.operate_word(op, 0, word);
    }

    #[inline(always)]
    fn double_register(&mut self) -> bool
        requires { opcode_at self.old ≡ 0xD1 }
        ensures goes { result ≡ true → Steps self.old (GoesOn self.new Silent) }
        ensures same { result ≡ false → self.new ≡ self.old }
    {
        let mode = self.byte_behind(1);
        if mode / 8 != 0xE0 / 8 {
            return false;
        }
        self.advance(2);
        self.double(mode % 8);
        true
    }

    // SHL by 1.
    #[inline(always)]
    #[tactic(auto, unfolding(cw_i86::specs::Effect::shifted, cw_i86::specs::State::operand, cw_i86::specs::State::sized_register, cw_i86::specs::State::with_operand, cw_i86::specs::State::with_sized_register))]
    fn double(&mut self, r: u8)
        requires r { r < 8 }
        ensures { self.new ≡ shifted self.old 4 true false (Rm.Reg r) }
    {
        let (value, flags) = shl16(self.flags, self.register(r), 1);
        self.flags = flags;
        self.set_register(r, value);
    }

    #[inline(always)]
    fn jump_where(&mut self, cond: u8)
        requires cond { cond < 16 }
        requires stands { opcode_at self.old ≡ 0x70 + cond }
        ensures { Steps self.old (GoesOn self.new Silent) }
    {
        let by = self.byte_behind(1);
        self.advance(2);
        let is_so = holds(self.flags, cond);
        self.jump_if(is_so, by);
    }

    #[inline(always)]
    fn jump_near(&mut self)
        requires { opcode_at self.old ≡ 0xE9 }
        ensures { Steps self.old (GoesOn self.new Silent) }
    {
        let by = self.word_behind(1);
        self.advance(3);
        self.advance(by);
    }

    #[inline(always)]
    fn jump_short(&mut self)
        requires { opcode_at self.old ≡ 0xEB }
        ensures { Steps self.old (GoesOn self.new Silent) }
    {
        let by = self.byte_behind(1);
        self.advance(2);
        self.advance(sign_extended(by));
    }

    #[inline(always)]
    fn call_near(&mut self)
        requires { opcode_at self.old ≡ 0xE8 }
        ensures { Steps self.old (GoesOn self.new Silent) }
    {
        let by = self.word_behind(1);
        self.advance(3);
        let place = self.instruction_pointer.wrapping_add(by);
        self.call(place);
    }

    #[inline(always)]
    fn return_near(&mut self)
        requires { opcode_at self.old ≡ 0xC3 }
        ensures { Steps self.old (GoesOn self.new Silent) }
    {
        self.advance(1);
        self.return_past(0);
    }

    // RET that drops so many bytes of the stack.
    #[inline(always)]
    fn return_dropping(&mut self)
        requires { opcode_at self.old ≡ 0xC2 }
        ensures { Steps self.old (GoesOn self.new Silent) }
    {
        let bytes = self.word_behind(1);
        self.advance(3);
        self.return_past(bytes);
    }

    // XCHG of AX and BX.
    #[inline(always)]
    fn exchange_with_bx(&mut self)
        requires { opcode_at self.old ≡ 0x93 }
        ensures { Steps self.old (GoesOn self.new Silent) }
    {
        self.advance(1);
        self.exchange_ax(3);
    }
}
