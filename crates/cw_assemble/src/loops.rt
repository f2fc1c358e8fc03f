//! Code of the step of a loop, and of the way of its elements.
ghost use Rattle.std.specs.Prelude.{◌≡◌, ◌+◌, ◌∷◌, [], length};
ghost use Rattle.cw_i86.specs.declared.instr.Instr.TheVariants as i86;
ghost use Rattle.cw_run86.specs.Views.{condition_of, Greater};
ghost use Rattle.cw_assemble.specs.Growing.{Adds};
ghost use Rattle.cw_tmpl.specs.declared.pieces.Coded.TheVariants as coded;
ghost use Rattle.cw_tmpl.specs.Library.{next_step_entry};
ghost use Rattle.cw_tmpl.specs.Templates.{place_doubled, step_taken, one_way, short_way, loop_ways, call_library, jump_near};

use crate::calling::bytes_of_words;
use crate::draft::Draft;
use crate::jumping::{distance, opposite, put_loop_way, short_distance};
use cw_i86::Instr;
use cw_order::{Comparator, Place};
use cw_tmpl::instructions::{
    AX, BASE, BX, decrease, jump_if_equal, jump_if_unequal, load, operate_number,
};
use cw_tmpl::library::NEXT_STEP;
use cw_tmpl::{Coded, Names, Target};

/// Adds twice the address of a place, in BX.
fn put_place_doubled(code: &mut Draft, place: Place)
    ensures { Adds code.old (place_doubled place) code.new }
{
    match place {
        Place::Word { family, offset } => code.put_all(&[Coded::Move {
            reg: BX,
            target: Target::Bytes { family, offset },
        }]),
        Place::Frame(offset) => code.put_all(&[
            Coded::Whole(load(BX, BASE)),
            Coded::Whole(operate_number(0, BX, bytes_of_words(offset))),
        ]),
    }
}

/// Adds the step of the loop whose words BX tells, and a jump to a place where its body follows, past which it goes on behind the line.
fn put_step(code: &mut Draft, line: u16, to: u32)
    ensures { Adds code.old (call_library next_step_entry ∷ coded.Whole (i86.JumpIf (condition_of Greater) 5)
        ∷ jump_near (length code.old.assembly.bytes + 8) to ∷ coded.Data line ∷ []) code.new }
{
    let end = code.assembly.bytes.as_slice().len() + 8;
    code.put_all(&[
        Coded::Call(Target::LibraryAhead(NEXT_STEP)),
        Coded::Whole(Instr::JumpIf {
            cond: opposite(Comparator::LessEqual),
            by: 5,
        }),
        Coded::Whole(Instr::Jump(distance(end, to as usize))),
        Coded::Data(line),
    ]);
}

/// Adds the step of a loop by its words at a place, and a jump to a place where its body follows.
pub(crate) fn put_next_step(code: &mut Draft, looped: Place, line: u16, to: u32)
    ensures { Adds code.old (step_taken looped line (length code.old.assembly.bytes) to) code.new }
{
    put_place_doubled(code, looped);
    put_step(code, line, to);
}

/// Adds the way of a loop of one element.
fn put_one_way(code: &mut Draft, mark: u32, names: &Names)
    ensures { Adds code.old (one_way names.now (length code.old.assembly.bytes) mark) code.new }
{
    let end = code.assembly.bytes.as_slice().len() + 6;
    let to = names.mark(mark);
    code.put_all(&[
        Coded::Whole(decrease(AX)),
        Coded::Whole(jump_if_unequal(3)),
        Coded::Whole(Instr::Jump(distance(end, to as usize))),
    ]);
}

/// The same where its mark is close by.
pub(crate) fn put_short_way(code: &mut Draft, mark: u32, names: &Names)
    ensures { Adds code.old (short_way names.now (length code.old.assembly.bytes) mark) code.new }
{
    let end = code.assembly.bytes.as_slice().len() + 3;
    let to = names.mark(mark);
    code.put_all(&[
        Coded::Whole(decrease(AX)),
        Coded::Whole(jump_if_equal(short_distance(end, to as usize))),
    ]);
}

/// Adds the way of a loop: a table only where it has not one element.
pub(crate) fn put_loop_ways(code: &mut Draft, marks: &[u32], names: &Names)
    ensures { Adds code.old (loop_ways names.now (length code.old.assembly.bytes) marks.now) code.new }
{
    match marks {
        [mark] => put_one_way(code, *mark, names),
        _ => put_loop_way(code, marks, names),
    }
}
