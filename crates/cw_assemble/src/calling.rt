//! Code of calls, of control arguments, and of the words of an activation.
ghost use Rattle.std.specs.Prelude.{◌≡◌, ◌*◌, ◌%◌, length};
ghost use Rattle.cw_order.specs.declared.order.Order.TheVariants as order;
ghost use Rattle.cw_assemble.specs.Growing.{Adds};
ghost use Rattle.cw_i86.specs.Encoding.{IsRm};
ghost use Rattle.cw_tmpl.specs.Mnemonics.{field};
ghost use Rattle.cw_tmpl.specs.Names.{no_names};
ghost use Rattle.cw_tmpl.specs.Templates.{template, call_near, back_jump, frame_entered, control_out, return_with};

use crate::draft::Draft;
use crate::jumping::distance;
use crate::sizes::call_special_size;
use cw_i86::{Instr, Rm};
use cw_tmpl::instructions::{
    AX, BASE, BP, BX, CALLS, CX, DI, DX, REST, SP, argument, copy, decrease, double, field,
    jump_if_cx_zero, jump_if_not_below, jump_to, load, set_word, shift_down_once, store, subtract,
    with_number,
};
use cw_tmpl::library::{ENTER, ENTER_STOP, READ};
use cw_tmpl::{Coded, Limit, SEGMENT_WORD, Target, own};

/// Adds a call of a procedure of this segment.
pub(crate) fn put_call(code: &mut Draft, line: u16, to: u32)
    ensures { Adds code.old (call_near line (length code.old.assembly.bytes) to) code.new }
{
    let behind = code.assembly.bytes.as_slice().len() + 6;
    code.put_all(&[
        Coded::Whole(set_word(DX, line)),
        Coded::Whole(Instr::Call(distance(behind, to as usize))),
    ]);
}

/// Adds a call of the procedure of a descriptor.
pub(crate) fn put_call_common(code: &mut Draft, line: u16, descriptor: u16)
    ensures { Adds code.old (template no_names 0 (order.CallCommon descriptor line)) code.new }
{
    code.put_all(&[
        Coded::Whole(set_word(DX, line)),
        Coded::Call(Target::DefinitionAhead(descriptor)),
    ]);
}

/// Adds a call of a procedure parameter.
pub(crate) fn put_call_special(code: &mut Draft, line: u16, words: u8)
    ensures { Adds code.old (template no_names (length code.old.assembly.bytes) (order.CallSpecial words line)) code.new }
{
    let behind = own(
        code.assembly.bytes.as_slice().len() as u64 + u64::from(call_special_size(words)),
    );
    code.put_all(&[
        Coded::Whole(set_word(DX, line)),
        Coded::Whole(load(AX, argument(u16::from(words)))),
    ]);
    put_back_jump(code, behind);
}

/// Adds a jump to the place in AX, with the place to come back to on the stack.
fn put_back_jump(code: &mut Draft, behind: Target)
    ensures { Adds code.old (back_jump behind) code.new }
{
    code.put_all(&[
        Coded::Move {
            reg: BX,
            target: behind,
        },
        Coded::Whole(Instr::Push(BX)),
        Coded::Whole(jump_to(AX)),
    ]);
}

/// Adds the beginning of an activation.
pub(crate) fn put_enter(code: &mut Draft, size: u16)
    ensures { Adds code.old (template no_names 0 (order.Enter size)) code.new }
{
    if size == 0 {
        code.put_all(&[
            Coded::Call(Target::LibraryAhead(ENTER)),
            Coded::Data(0),
            Coded::Word(Target::Limit(Limit::Segment)),
        ]);
    } else {
        put_frame_entered(code, size);
    }
}

/// Adds the beginning of an activation with a frame of so many words.
fn put_frame_entered(code: &mut Draft, size: u16)
    ensures { Adds code.old (frame_entered size) code.new }
{
    code.put_all(&[
        Coded::Whole(load(CX, CALLS)),
        Coded::Whole(jump_if_cx_zero(14)),
        Coded::Whole(load(AX, REST)),
        Coded::Whole(copy(BX, DI)),
        Coded::Whole(subtract(BX, AX)),
        Coded::Whole(double(BX)),
        Coded::Whole(with_number(5, size)),
        Coded::Whole(jump_if_not_below(3)),
        Coded::Jump(Target::LibraryAhead(ENTER_STOP)),
        Coded::Whole(decrease(CX)),
        Coded::Whole(Instr::Push(BP)),
        Coded::Whole(copy(BP, SP)),
        Coded::PushCode(own(SEGMENT_WORD)),
        Coded::Whole(Instr::Push(CX)),
        Coded::Whole(Instr::Push(BX)),
        Coded::Whole(Instr::Push(AX)),
    ]);
}

/// Adds what stores an argument in a word of a storage family.
pub(crate) fn put_bind(code: &mut Draft, words: u8, family: u16, offset: u16)
    ensures { Adds code.old (template no_names 0 (order.Bind words family offset)) code.new }
{
    code.put_all(&[
        Coded::Whole(load(AX, argument(u16::from(words)))),
        Coded::Store(Target::Bytes { family, offset }),
    ]);
}

/// The bytes of so many words, modulo 65,536.
pub(crate) fn bytes_of_words(words: u16) -> u16
    ensures { result ≡ 2 * words % 65536 }
{
    (2 * u32::from(words) % 65_536) as u16
}

/// A word of the frame, where BX has the bytes of its base.
pub(crate) fn frame_field(offset: u16) -> Rm
    ensures value { result ≡ field (2 * offset % 65536) }
    ensures operand { IsRm result }
{
    field(bytes_of_words(offset))
}

/// Adds what stores an argument in a word of the frame.
pub(crate) fn put_bind_frame(code: &mut Draft, words: u8, offset: u16)
    ensures { Adds code.old (template no_names 0 (order.BindFrame words offset)) code.new }
{
    code.put_all(&[
        Coded::Whole(load(CX, argument(u16::from(words)))),
        Coded::Whole(load(BX, BASE)),
        Coded::Whole(store(frame_field(offset), CX)),
    ]);
}

/// Adds the way back to the caller.
pub(crate) fn put_return(code: &mut Draft, arguments: u8)
    ensures { Adds code.old (return_with arguments) code.new }
{
    code.put_all(&[
        Coded::Whole(copy(SP, BP)),
        Coded::Whole(Instr::Pop(BP)),
        Coded::Whole(Instr::RetAdd(2 * u16::from(arguments))),
    ]);
}

/// Adds a control argument: the record at work, and a place.
pub(crate) fn put_control(code: &mut Draft, target: Target)
    ensures { Adds code.old (control_out target) code.new }
{
    code.put_all(&[
        Coded::Whole(Instr::Push(BP)),
        Coded::Move { reg: AX, target },
        Coded::Whole(Instr::Push(AX)),
    ]);
}

/// Adds a control parameter as an argument.
pub(crate) fn put_special_out(code: &mut Draft, words: u8)
    ensures { Adds code.old (template no_names 0 (order.SpecialOut words)) code.new }
{
    code.put_all(&[
        Coded::Whole(load(AX, argument(u16::from(words) + 1))),
        Coded::Whole(Instr::Push(AX)),
        Coded::Whole(load(AX, argument(u16::from(words)))),
        Coded::Whole(Instr::Push(AX)),
    ]);
}

/// Adds the address of a word of the frame.
pub(crate) fn put_frame_home(code: &mut Draft, offset: u16)
    ensures { Adds code.old (template no_names 0 (order.FrameHome offset)) code.new }
{
    code.put_all(&[
        Coded::Whole(load(AX, BASE)),
        Coded::Whole(shift_down_once(AX)),
        Coded::Whole(with_number(0, offset)),
    ]);
}

/// Adds the next byte of the input.
pub(crate) fn put_read_byte(code: &mut Draft)
    ensures { Adds code.old (template no_names 0 order.ReadByte) code.new }
{
    code.put_all(&[Coded::Call(Target::LibraryAhead(READ))]);
}
