// Registers, operands, flags and the stack.
ghost use Rattle.std.specs.Prelude.{◌≡◌, ◌<◌, ◌+◌, ◌*◌, ◌^◌, if◌then◌else◌};
ghost use Rattle.cw_i86.specs.Sums.{bit};
ghost use Rattle.cw_i86.specs.Encoding.{IsRm, IsPlace};
ghost use Rattle.cw_i86.specs.State.{sign_extended, limit_of, imm_value, register, with_register, byte_register, with_byte_register, sized_register};
ghost use Rattle.cw_i86.specs.State.{with_sized_register, past, with_flags, form_base, offset_of, is_stack_form, default_segment, segment_of, value_at};
ghost use Rattle.cw_i86.specs.State.{with_value_at, operand, with_operand, push, top_word, popped, flags_word, low_flags, flags_of_word};

use crate::cpu::{Cpu, DATA_SEGMENT, STACK_SEGMENT};
use crate::memory::{read_byte, read_word, write_byte, write_word};
use cw_i86::{Flags, Imm, Mem, Place, Rm};

/// A byte as a word with its sign.
pub(crate) fn sign_extended(by: u8) -> u16
    ensures { result ≡ sign_extended by }
{
    if by < 128 {
        u16::from(by)
    } else {
        u16::from(by) + 0xFF00
    }
}

pub(crate) fn imm_value(imm: Imm) -> u16
    ensures { result ≡ imm_value imm }
{
    match imm {
        Imm::Byte(byte) => u16::from(byte),
        Imm::Word(word) => word,
    }
}

fn is_stack_form(form: u8) -> bool
    ensures { result ≡ is_stack_form form }
{
    form == 2 || form == 3 || form == 6
}

fn form_segment(form: u8) -> u16
    ensures { result ≡ (if is_stack_form form then 0x3000 else 0x2000) }
{
    if is_stack_form(form) {
        STACK_SEGMENT
    } else {
        DATA_SEGMENT
    }
}

fn default_segment(place: Place) -> u16
    ensures { result ≡ default_segment place }
{
    match place {
        Place::Direct(_) => DATA_SEGMENT,
        Place::Plain(form) | Place::Near(form, _) | Place::Far(form, _) => form_segment(form),
    }
}

#[tactic(auto, unfolding(cw_i86::specs::State::flags_word))]
pub(crate) fn flags_word(flags: Flags) -> u16
    ensures value { result ≡ flags_word flags }
{
    u16::from(flags.cf)
        + 4 * u16::from(flags.pf)
        + 16 * u16::from(flags.af)
        + 64 * u16::from(flags.zf)
        + 128 * u16::from(flags.sf)
        + 2048 * u16::from(flags.of)
}

#[tactic(auto, unfolding(cw_i86::specs::State::low_flags))]
pub(crate) fn low_flags(n: u16, overflow: bool) -> Flags
    ensures { result ≡ low_flags n overflow }
{
    Flags {
        cf: n % 2 == 1,
        pf: n / 4 % 2 == 1,
        af: n / 16 % 2 == 1,
        zf: n / 64 % 2 == 1,
        sf: n / 128 % 2 == 1,
        of: overflow,
    }
}

#[tactic(auto, unfolding(cw_i86::specs::State::flags_of_word))]
pub(crate) fn flags_of_word(n: u16) -> Flags
    ensures { result ≡ flags_of_word n }
{
    low_flags(n, n / 2048 % 2 == 1)
}

impl Cpu {
    pub(crate) fn register(&self, r: u8) -> u16
        requires { r < 8 }
        ensures { result ≡ register self.now r }
    {
        self.registers[usize::from(r)]
    }

    pub(crate) fn set_register(&mut self, r: u8, word: u16)
        requires { r < 8 }
        ensures { self.new ≡ with_register self.old r word }
    {
        self.registers[usize::from(r)] = word;
    }

    pub(crate) fn byte_register(&self, r: u8) -> u8
        requires { r < 8 }
        ensures { result ≡ byte_register self.now r }
    {
        if r < 4 {
            (self.register(r) % 256) as u8
        } else {
            (self.register(r - 4) / 256) as u8
        }
    }

    pub(crate) fn set_byte_register(&mut self, r: u8, byte: u8)
        requires { r < 8 }
        ensures { self.new ≡ with_byte_register self.old r byte }
    {
        if r < 4 {
            let old = self.register(r);
            self.set_register(r, old / 256 * 256 + u16::from(byte));
        } else {
            let old = self.register(r - 4);
            self.set_register(r - 4, u16::from(byte) * 256 + old % 256);
        }
    }

    #[tactic(auto, unfolding(cw_i86::specs::State::sized_register))]
    pub(crate) fn sized_register(&self, wide: bool, r: u8) -> u16
        requires { r < 8 }
        ensures value { result ≡ sized_register self.now wide r }
        ensures fits { result < limit_of wide }
    {
        if wide {
            self.register(r)
        } else {
            u16::from(self.byte_register(r))
        }
    }

    #[tactic(auto, unfolding(cw_i86::specs::State::with_sized_register))]
    pub(crate) fn set_sized_register(&mut self, wide: bool, r: u8, value: u16)
        requires r { r < 8 }
        requires fits { value < limit_of wide }
        ensures { self.new ≡ with_sized_register self.old wide r value }
    {
        if wide {
            self.set_register(r, value);
        } else {
            self.set_byte_register(r, value as u8);
        }
    }

    pub(crate) fn advance(&mut self, by: u16)
        ensures { self.new ≡ past self.old by }
    {
        self.instruction_pointer = self.instruction_pointer.wrapping_add(by);
    }

    #[tactic(auto, unfolding(cw_i86::specs::State::form_base))]
    fn form_base(&self, form: u8) -> u16
        ensures { result ≡ form_base self.now form }
    {
        match form {
            0 => self.registers[3].wrapping_add(self.registers[6]),
            1 => self.registers[3].wrapping_add(self.registers[7]),
            2 => self.registers[5].wrapping_add(self.registers[6]),
            3 => self.registers[5].wrapping_add(self.registers[7]),
            4 => self.registers[6],
            5 => self.registers[7],
            6 => self.registers[5],
            _ => self.registers[3],
        }
    }

    #[tactic(auto, unfolding(cw_i86::specs::State::offset_of))]
    pub(crate) fn offset_of(&self, place: Place) -> u16
        ensures { result ≡ offset_of self.now place }
    {
        match place {
            Place::Direct(at) => at,
            Place::Plain(form) => self.form_base(form),
            Place::Near(form, by) => self.form_base(form).wrapping_add(sign_extended(by)),
            Place::Far(form, by) => self.form_base(form).wrapping_add(by),
        }
    }

    #[tactic(auto, unfolding(cw_i86::specs::State::segment_of))]
    fn segment_of(&self, mem: Mem) -> u16
        ensures { result ≡ segment_of self.now mem }
    {
        if mem.cs {
            self.code_segment
        } else {
            default_segment(mem.place)
        }
    }

    #[tactic(auto, unfolding(cw_i86::specs::State::value_at))]
    pub(crate) fn value_at(&self, wide: bool, segment: u16, offset: u16) -> u16
        ensures value { result ≡ value_at self.now wide segment offset }
        ensures fits { result < limit_of wide }
    {
        if wide {
            read_word(&self.memory, segment, offset)
        } else {
            u16::from(read_byte(&self.memory, segment, offset))
        }
    }

    #[tactic(auto, unfolding(cw_i86::specs::State::with_value_at))]
    pub(crate) fn set_value_at(&mut self, wide: bool, segment: u16, offset: u16, value: u16)
        requires { value < limit_of wide }
        ensures { self.new ≡ with_value_at self.old wide segment offset value }
    {
        if wide {
            write_word(&mut self.memory, segment, offset, value);
        } else {
            write_byte(&mut self.memory, segment, offset, value as u8);
        }
    }

    #[tactic(auto, unfolding(cw_i86::specs::State::operand))]
    pub(crate) fn operand(&self, wide: bool, rm: Rm) -> u16
        requires { IsRm rm }
        ensures value { result ≡ operand self.now wide rm }
        ensures fits { result < limit_of wide }
    {
        match rm {
            Rm::Reg(r) => self.sized_register(wide, r),
            Rm::Mem(mem) => self.value_at(wide, self.segment_of(mem), self.offset_of(mem.place)),
        }
    }

    #[tactic(auto, unfolding(cw_i86::specs::State::with_operand))]
    pub(crate) fn set_operand(&mut self, wide: bool, rm: Rm, value: u16)
        requires rm { IsRm rm }
        requires fits { value < limit_of wide }
        ensures { self.new ≡ with_operand self.old wide rm value }
    {
        match rm {
            Rm::Reg(r) => self.set_sized_register(wide, r, value),
            Rm::Mem(mem) => {
                let segment = self.segment_of(mem);
                let offset = self.offset_of(mem.place);
                self.set_value_at(wide, segment, offset, value);
            }
        }
    }

    #[tactic(auto, unfolding(cw_i86::specs::State::push))]
    pub(crate) fn push(&mut self, word: u16)
        ensures { self.new ≡ push self.old word }
    {
        let top = self.registers[4].wrapping_add(65534);
        write_word(&mut self.memory, STACK_SEGMENT, top, word);
        self.registers[4] = top;
    }

    pub(crate) fn top_word(&self) -> u16
        ensures { result ≡ top_word self.now }
    {
        read_word(&self.memory, STACK_SEGMENT, self.registers[4])
    }

    pub(crate) fn pop(&mut self, n: u16)
        ensures { self.new ≡ popped self.old n }
    {
        self.registers[4] = self.registers[4].wrapping_add(n);
    }
}
