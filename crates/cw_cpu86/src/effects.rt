// What each instruction does.
ghost use Rattle.std.specs.Prelude.{◌≡◌, ◌<◌, ◌+◌, ◌*◌, ◌&&◌, not, true, false, if◌then◌else◌, Some, None};
ghost use Rattle.cw_i86.specs.declared.instr.Instr.TheVariants.{Lahf, Sahf, PopF};
ghost use Rattle.cw_i86.specs.Encoding.{IsRm, IsInstr, is_word};
ghost use Rattle.cw_i86.specs.State.{limit_of, with_flags, register};
ghost use Rattle.cw_i86.specs.Effect.{operated, tested, counted, holds, jumped_if, looped, at_place, returned, called, shifted, complemented};
ghost use Rattle.cw_i86.specs.Effect.{negated, double_word, with_double_word, multiplied, signed_multiplied, divided, signed_divided};
ghost use Rattle.cw_i86.specs.Effect.{unary, moved, exchanged, moved_acc, byte_extended, word_extended, pop_to, executed};

use crate::cpu::{Cpu, DATA_SEGMENT};
use crate::operands::{flags_of_word, flags_word, imm_value, low_flags, sign_extended};
use cw_alu86::*;
use cw_i86::{Imm, Instr, Rm};

impl Cpu {
    fn set_flags(&mut self, flags: Flags)
        ensures { self.new ≡ with_flags self.old flags }
    {
        self.flags = flags;
    }

    #[tactic(auto, unfolding(cw_i86::specs::Effect::operated))]
    fn operate(&mut self, op: u8, wide: bool, rm: Rm, b: u16)
        requires rm { IsRm rm }
        requires b { b < limit_of wide }
        ensures { self.new ≡ operated self.old op wide rm b }
    {
        let a = self.operand(wide, rm);
        let (value, flags) = alu(op, wide, self.flags, a, b);
        self.set_flags(flags);
        if op != 7 {
            self.set_operand(wide, rm, value);
        }
    }

    // The same at a register. The operand is made here and not in `execute`, where each operand of its own costs a store
    // in every step.
    #[inline(never)]
    fn operate_register(&mut self, op: u8, wide: bool, reg: u8, b: u16)
        requires reg { reg < 8 }
        requires b { b < limit_of wide }
        ensures { self.new ≡ operated self.old op wide (Rm.Reg reg) b }
    {
        self.operate(op, wide, Rm::Reg(reg), b);
    }

    #[tactic(auto, unfolding(cw_i86::specs::Effect::tested))]
    fn test(&mut self, wide: bool, a: u16, b: u16)
        requires a { a < limit_of wide }
        requires b { b < limit_of wide }
        ensures { self.new ≡ tested self.old wide a b }
    {
        let flags = if wide {
            and16(self.flags, a, b).1
        } else {
            and8(self.flags, a as u8, b as u8).1
        };
        self.set_flags(flags);
    }

    #[tactic(auto, unfolding(cw_i86::specs::Effect::counted))]
    fn count(&mut self, down: bool, wide: bool, rm: Rm)
        requires { IsRm rm }
        ensures { self.new ≡ counted self.old down wide rm }
    {
        let a = self.operand(wide, rm);
        let (value, flags) = stepped(down, wide, self.flags, a);
        self.set_flags(flags);
        self.set_operand(wide, rm, value);
    }

    // The same at a register of a word.
    #[inline(never)]
    pub(crate) fn count_register(&mut self, down: bool, reg: u8)
        requires { reg < 8 }
        ensures { self.new ≡ counted self.old down true (Rm.Reg reg) }
    {
        self.count(down, true, Rm::Reg(reg));
    }

    pub(crate) fn jump_if(&mut self, holds: bool, by: u8)
        ensures { self.new ≡ jumped_if self.old holds by }
    {
        if holds {
            self.advance(sign_extended(by));
        }
    }

    #[tactic(auto, unfolding(cw_i86::specs::Effect::looped))]
    fn repeat(&mut self, kind: u8, by: u8)
        ensures { self.new ≡ looped self.old kind by }
    {
        if kind == 3 {
            let is_done = self.registers[1] == 0;
            self.jump_if(is_done, by);
        } else {
            let count = self.registers[1].wrapping_add(65535);
            self.set_register(1, count);
            let goes_on = match kind {
                0 => !self.flags.zf,
                1 => self.flags.zf,
                _ => true,
            };
            self.jump_if(count != 0 && goes_on, by);
        }
    }

    fn go_to(&mut self, place: u16)
        ensures { self.new ≡ at_place self.old place }
    {
        self.instruction_pointer = place;
    }

    #[tactic(auto, unfolding(cw_i86::specs::Effect::returned))]
    pub(crate) fn return_past(&mut self, n: u16)
        ensures { self.new ≡ returned self.old n }
    {
        let place = self.top_word();
        self.go_to(place);
        self.pop(n.wrapping_add(2));
    }

    #[tactic(auto, unfolding(cw_i86::specs::Effect::called))]
    pub(crate) fn call(&mut self, place: u16)
        ensures { self.new ≡ called self.old place }
    {
        let back = self.instruction_pointer;
        self.push(back);
        self.go_to(place);
    }

    #[tactic(auto, unfolding(cw_i86::specs::Effect::shifted))]
    fn shift(&mut self, op: u8, wide: bool, by_cl: bool, rm: Rm)
        requires { IsRm rm }
        ensures { self.new ≡ shifted self.old op wide by_cl rm }
    {
        let a = self.operand(wide, rm);
        let count = if by_cl {
            (self.registers[1] % 256) as u8
        } else {
            1
        };
        let (value, flags) = shift(op, wide, self.flags, a, count);
        self.set_flags(flags);
        self.set_operand(wide, rm, value);
    }

    #[tactic(auto, unfolding(cw_i86::specs::Effect::complemented))]
    fn complement(&mut self, wide: bool, rm: Rm)
        requires { IsRm rm }
        ensures { self.new ≡ complemented self.old wide rm }
    {
        let a = self.operand(wide, rm);
        let value = if wide { 65535 - a } else { 255 - a };
        self.set_operand(wide, rm, value);
    }

    #[tactic(auto, unfolding(cw_i86::specs::Effect::negated))]
    fn negate(&mut self, wide: bool, rm: Rm)
        requires { IsRm rm }
        ensures { self.new ≡ negated self.old wide rm }
    {
        let a = self.operand(wide, rm);
        let (value, flags) = negative(wide, self.flags, a);
        self.set_flags(flags);
        self.set_operand(wide, rm, value);
    }

    fn double_word(&self) -> u32
        ensures { result ≡ double_word self.now }
    {
        65536 * u32::from(self.registers[2]) + u32::from(self.registers[0])
    }

    fn set_double_word(&mut self, n: u32)
        ensures { self.new ≡ with_double_word self.old n }
    {
        self.registers[0] = (n % 65536) as u16;
        self.registers[2] = (n / 65536) as u16;
    }

    #[tactic(auto, unfolding(cw_i86::specs::Effect::multiplied))]
    fn multiply(&mut self, wide: bool, b: u16)
        requires { b < limit_of wide }
        ensures { self.new ≡ multiplied self.old wide b }
    {
        if wide {
            let (product, flags) = mul16(self.flags, self.registers[0], b);
            self.set_flags(flags);
            self.set_double_word(product);
        } else {
            let (product, flags) = mul8(self.flags, self.byte_register(0), b as u8);
            self.set_flags(flags);
            self.set_register(0, product);
        }
    }

    #[tactic(auto, unfolding(cw_i86::specs::Effect::signed_multiplied))]
    fn multiply_signed(&mut self, wide: bool, b: u16)
        requires { b < limit_of wide }
        ensures { self.new ≡ signed_multiplied self.old wide b }
    {
        if wide {
            let (product, flags) = imul16(self.flags, self.registers[0], b);
            self.set_flags(flags);
            self.set_double_word(product);
        } else {
            let (product, flags) = imul8(self.flags, self.byte_register(0), b as u8);
            self.set_flags(flags);
            self.set_register(0, product);
        }
    }

    // Answers whether the division is possible; where not, nothing changes.
    #[tactic(auto, unfolding(cw_i86::specs::Effect::divided))]
    fn divide(&mut self, wide: bool, b: u16) -> bool
        requires { b < limit_of wide }
        ensures effect { divided self.old wide b ≡ (if result then Some self.new else None) }
        ensures same { result ≡ false → self.new ≡ self.old }
    {
        if wide {
            let Some((quotient, remainder)) = div16(self.double_word(), b) else {
                return false;
            };
            self.registers[0] = quotient;
            self.registers[2] = remainder;
        } else {
            let Some((quotient, remainder)) = div8(self.registers[0], b as u8) else {
                return false;
            };
            self.registers[0] = 256 * u16::from(remainder) + u16::from(quotient);
        }
        true
    }

    #[tactic(auto, unfolding(cw_i86::specs::Effect::signed_divided))]
    fn divide_signed(&mut self, wide: bool, b: u16) -> bool
        requires { b < limit_of wide }
        ensures effect { signed_divided self.old wide b ≡ (if result then Some self.new else None) }
        ensures same { result ≡ false → self.new ≡ self.old }
    {
        if wide {
            let Some((quotient, remainder)) = idiv16(self.double_word(), b) else {
                return false;
            };
            self.registers[0] = quotient;
            self.registers[2] = remainder;
        } else {
            let Some((quotient, remainder)) = idiv8(self.registers[0], b as u8) else {
                return false;
            };
            self.registers[0] = 256 * u16::from(remainder) + u16::from(quotient);
        }
        true
    }

    #[tactic(auto, unfolding(cw_i86::specs::Effect::unary))]
    fn unary(&mut self, op: u8, wide: bool, rm: Rm) -> bool
        requires rm { IsRm rm }
        requires op { 1 < op }
        ensures effect { unary self.old op wide rm ≡ (if result then Some self.new else None) }
        ensures same { result ≡ false → self.new ≡ self.old }
    {
        match op {
            2 => self.complement(wide, rm),
            3 => self.negate(wide, rm),
            4 => {
                let b = self.operand(wide, rm);
                self.multiply(wide, b);
            }
            5 => {
                let b = self.operand(wide, rm);
                self.multiply_signed(wide, b);
            }
            6 => {
                let b = self.operand(wide, rm);
                return self.divide(wide, b);
            }
            _ => {
                let b = self.operand(wide, rm);
                return self.divide_signed(wide, b);
            }
        }
        true
    }

    #[tactic(auto, unfolding(cw_i86::specs::Effect::moved))]
    fn move_operand(&mut self, wide: bool, to_reg: bool, reg: u8, rm: Rm)
        requires reg { reg < 8 }
        requires rm { IsRm rm }
        ensures { self.new ≡ moved self.old wide to_reg reg rm }
    {
        if to_reg {
            let value = self.operand(wide, rm);
            self.set_sized_register(wide, reg, value);
        } else {
            let value = self.sized_register(wide, reg);
            self.set_operand(wide, rm, value);
        }
    }

    #[tactic(auto, unfolding(cw_i86::specs::Effect::exchanged))]
    fn exchange(&mut self, wide: bool, reg: u8, rm: Rm)
        requires reg { reg < 8 }
        requires rm { IsRm rm }
        ensures { self.new ≡ exchanged self.old wide reg rm }
    {
        let a = self.sized_register(wide, reg);
        let b = self.operand(wide, rm);
        self.set_operand(wide, rm, a);
        self.set_sized_register(wide, reg, b);
    }

    // The same of AX and a register.
    #[inline(never)]
    pub(crate) fn exchange_ax(&mut self, reg: u8)
        requires { reg < 8 }
        ensures { self.new ≡ exchanged self.old true 0 (Rm.Reg reg) }
    {
        self.exchange(true, 0, Rm::Reg(reg));
    }

    #[tactic(auto, unfolding(cw_i86::specs::Effect::moved_acc))]
    fn move_acc(&mut self, cs: bool, wide: bool, store: bool, at: u16)
        ensures { self.new ≡ moved_acc self.old cs wide store at }
    {
        let segment = if cs { self.code_segment } else { DATA_SEGMENT };
        if store {
            let value = self.sized_register(wide, 0);
            self.set_value_at(wide, segment, at, value);
        } else {
            let value = self.value_at(wide, segment, at);
            self.set_sized_register(wide, 0, value);
        }
    }

    #[tactic(auto, unfolding(cw_i86::specs::Effect::byte_extended))]
    fn extend_byte(&mut self)
        ensures { self.new ≡ byte_extended self.old }
    {
        let byte = self.byte_register(0);
        self.set_register(0, sign_extended(byte));
    }

    #[tactic(auto, unfolding(cw_i86::specs::Effect::word_extended))]
    fn extend_word(&mut self)
        ensures { self.new ≡ word_extended self.old }
    {
        let high = if self.registers[0] < 32768 { 0 } else { 65535 };
        self.set_register(2, high);
    }

    #[tactic(auto, unfolding(cw_i86::specs::Effect::pop_to))]
    pub(crate) fn pop_to(&mut self, r: u8)
        requires { r < 8 }
        ensures { self.new ≡ pop_to self.old r }
    {
        let word = self.top_word();
        self.pop(2);
        self.set_register(r, word);
    }

    fn store_flags(&mut self)
        ensures { executed Lahf self.old ≡ Some self.new }
    {
        let byte = (flags_word(self.flags) % 256) as u8;
        self.set_byte_register(4, byte);
    }

    fn load_flags(&mut self)
        ensures { executed Sahf self.old ≡ Some self.new }
    {
        self.flags = low_flags(self.registers[0] / 256, self.flags.of);
    }

    fn pop_flags(&mut self)
        ensures { executed PopF self.old ≡ Some self.new }
    {
        let word = self.top_word();
        self.flags = flags_of_word(word);
        self.pop(2);
    }

    // What an instruction does that uses no port and does not halt, in a state that is past it. Answers whether its
    // division is possible; where not, nothing changes.
    #[inline(always)]
    pub(crate) fn execute(&mut self, instr: Instr) -> bool
        requires { IsInstr instr }
        ensures effect { executed instr self.old ≡ (if result then Some self.new else None) }
        ensures same { result ≡ false → self.new ≡ self.old }
    {
        match instr {
            Instr::AluRm {
                op,
                wide,
                to_reg,
                reg,
                rm,
            } => {
                if to_reg {
                    let b = self.operand(wide, rm);
                    self.operate_register(op, wide, reg, b);
                } else {
                    let b = self.sized_register(wide, reg);
                    self.operate(op, wide, rm, b);
                }
            }
            Instr::AluAcc { op, imm } => {
                self.operate_register(op, imm.is_word(), 0, imm_value(imm))
            }
            Instr::Inc(reg) => self.count_register(false, reg),
            Instr::Dec(reg) => self.count_register(true, reg),
            Instr::Push(reg) => {
                let word = self.register(reg);
                self.push(word);
            }
            Instr::Pop(reg) => self.pop_to(reg),
            Instr::JumpIf { cond, by } => {
                let holds = holds(self.flags, cond);
                self.jump_if(holds, by);
            }
            Instr::AluImm { op, rm, imm } => self.operate(op, imm.is_word(), rm, imm_value(imm)),
            Instr::AluShort { op, rm, imm } => self.operate(op, true, rm, sign_extended(imm)),
            Instr::TestRm { wide, reg, rm } => {
                let a = self.operand(wide, rm);
                let b = self.sized_register(wide, reg);
                self.test(wide, a, b);
            }
            Instr::XchgRm { wide, reg, rm } => self.exchange(wide, reg, rm),
            Instr::Mov {
                wide,
                to_reg,
                reg,
                rm,
            } => self.move_operand(wide, to_reg, reg, rm),
            Instr::Lea { reg, mem } => {
                let offset = self.offset_of(mem.place);
                self.set_register(reg, offset);
            }
            Instr::XchgAx(reg) => self.exchange_ax(reg),
            Instr::Cbw => self.extend_byte(),
            Instr::Cwd => self.extend_word(),
            Instr::PushF => {
                let word = flags_word(self.flags);
                self.push(word);
            }
            Instr::PopF => self.pop_flags(),
            Instr::Sahf => self.load_flags(),
            Instr::Lahf => self.store_flags(),
            Instr::MovAcc {
                cs,
                wide,
                store,
                at,
            } => self.move_acc(cs, wide, store, at),
            Instr::TestAcc(imm) => {
                let wide = imm.is_word();
                let a = self.sized_register(wide, 0);
                self.test(wide, a, imm_value(imm));
            }
            Instr::MovImm { reg, imm } => {
                self.set_sized_register(imm.is_word(), reg, imm_value(imm))
            }
            Instr::RetAdd(n) => self.return_past(n),
            Instr::Ret => self.return_past(0),
            Instr::MovRm { rm, imm } => self.set_operand(imm.is_word(), rm, imm_value(imm)),
            Instr::Shift {
                op,
                wide,
                by_cl,
                rm,
            } => self.shift(op, wide, by_cl, rm),
            Instr::Loop { kind, by } => self.repeat(kind, by),
            Instr::In(_) | Instr::Out(_) | Instr::Hlt => {}
            Instr::Call(by) => {
                let place = self.instruction_pointer.wrapping_add(by);
                self.call(place);
            }
            Instr::Jump(by) => self.advance(by),
            Instr::JumpShort(by) => self.advance(sign_extended(by)),
            Instr::Cmc => self.flags.cf = !self.flags.cf,
            Instr::Clc => self.flags.cf = false,
            Instr::Stc => self.flags.cf = true,
            Instr::TestImm { rm, imm } => {
                let wide = imm.is_word();
                let a = self.operand(wide, rm);
                self.test(wide, a, imm_value(imm));
            }
            Instr::Unary { op, wide, rm } => return self.unary(op, wide, rm),
            Instr::IncDec { down, wide, rm } => self.count(down, wide, rm),
            Instr::CallRm(rm) => {
                let place = self.operand(true, rm);
                self.call(place);
            }
            Instr::JumpRm(rm) => {
                let place = self.operand(true, rm);
                self.go_to(place);
            }
            Instr::PushRm(rm) => {
                let word = self.operand(true, rm);
                self.push(word);
            }
        }
        true
    }
}
