// The call that the program makes.
ghost use Rattle.std.specs.Prelude.{map, string_bytes};
ghost use Rattle.cw_correct.specs.Calls.{surroundings_of};
ghost use Rattle.cw_correct.specs.Correct.{IsCorrect};

use crate::command::{perform, quit};
use crate::laws::quits;
use cw_io::{Sink, Source, Store};
use cw_say::Status;
use cw_words::{WordsFault, read_words};
use std::alloc::Global;

/// Does what the words ask for, and tells of it on `say`: the storage map before the first byte that a program of `go` writes to
/// `out`, and at last the closing line of the status.
///
/// The words are `ACTION WORD...` with options. The input is read in pieces, and only where an image asks for it.
pub fn coral66<F: Store, I: Source, O: Sink, S: Sink>(
    alloc: Global,
    words: &[String],
    files: &mut F,
    input: &mut I,
    out: &mut O,
    say: &mut S,
) -> Status
    ensures { IsCorrect (map string_bytes words.now)
        (surroundings_of (F.file files.old) (F.faults files.old) (F.absences files.old) (I.left input.old)
        (I.faults input.old) (O.held out.old) (O.faults out.old) (S.held say.old) (S.faults say.old))
        (surroundings_of (F.file files.new) (F.faults files.new) (F.absences files.new) (I.left input.new)
        (I.faults input.new) (O.held out.new) (O.faults out.new) (S.held say.new) (S.faults say.new)) result }
{
    quits();
    match read_words(alloc, words) {
        Ok(command) => perform(alloc, &command, files, input, out, say),
        Err(WordsFault::Usage) => quit(say, Status::Usage),
        Err(WordsFault::NoMemory) => quit(say, Status::NoMemory),
    }
}
