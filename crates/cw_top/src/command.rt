// What a command asks for, done.
ghost use Rattle.std.specs.Prelude.{◌≡◌, [], Some};
ghost use Rattle.cw_words.specs.Parts.{InRange, command_parts};
ghost use Rattle.cw_correct.specs.Calls.{surroundings_of};
ghost use Rattle.cw_correct.specs.Correct.{IsCorrectRequest};
ghost use Rattle.cw_write.specs.Said.{Says};
ghost use Rattle.cw_say.specs.Closing.{closing_line};

use cw_actions::big::big;
use cw_actions::exec::exec;
use cw_actions::go::go;
use cw_actions::libraries::{link, make_library};
use cw_actions::results::{code_files, compile, depth_files, hex, map_files, migrate, show};
use cw_actions::trace::trace;
use cw_io::{Sink, Source, Store};
use cw_say::{Status, write_last};
use cw_unit::layout::Limits;
use cw_words::{Action, Command};
use std::alloc::Global;

/// Writes the line of a call that did nothing, which is answered by its status.
pub(crate) fn quit<S: Sink>(say: &mut S, status: Status) -> Status
    ensures same { result ≡ status }
    ensures line { Says (S.held say.old) (S.held say.new) (S.faults say.old) (S.faults say.new) (closing_line [] [] status) }
    ensures ended { status ≡ Status.Ended → S.faults say.new ≡ S.faults say.old }
{
    let _ = write_last(say, &[], &[], &status);
    status
}

/// Does what the command asks for, and closes with the line of the status.
pub(crate) fn perform<F: Store, I: Source, O: Sink, S: Sink>(
    alloc: Global,
    command: &Command<'_>,
    files: &mut F,
    input: &mut I,
    out: &mut O,
    say: &mut S,
) -> Status
    requires { InRange command.now }
    ensures { IsCorrectRequest (Some (command_parts command.now))
        (surroundings_of (F.file files.old) (F.faults files.old) (F.absences files.old) (I.left input.old)
        (I.faults input.old) (O.held out.old) (O.faults out.old) (S.held say.old) (S.faults say.old))
        (surroundings_of (F.file files.new) (F.faults files.new) (F.absences files.new) (I.left input.new)
        (I.faults input.new) (O.held out.new) (O.faults out.new) (S.held say.new) (S.faults say.new)) result }
{
    let limits = Limits {
        area: command.area,
        frames: command.frames,
        depth: command.depth,
    };
    let steps = command.steps;
    let names = command.names.as_slice();
    match command.action {
        Action::Go => go(alloc, names, &limits, steps, files, input, out, say),
        Action::Compile => compile(alloc, names, &limits, steps, files, say),
        Action::Lib => make_library(alloc, names, &limits, steps, files, say),
        Action::Link => link(alloc, names, &limits, steps, files, say),
        Action::Exec => exec(alloc, names, &limits, steps, files, input, out, say),
        Action::List => show(alloc, names, &limits, steps, files, out, say),
        Action::Map => map_files(alloc, names, &limits, steps, files, out, say),
        Action::Depth => depth_files(alloc, names, &limits, steps, files, out, say),
        Action::Code => code_files(alloc, names, &limits, steps, files, out, say),
        Action::Migrate => migrate(alloc, names, &limits, steps, files, say),
        Action::Hex => hex(alloc, names, &limits, steps, files, say),
        Action::Big => big(alloc, command.copies, &limits, steps, input, out, say),
        Action::Trace => match &command.stop {
            Some(stop) => trace(alloc, names, &limits, steps, stop, files, input, out, say),
            None => unreachable!(),
        },
    }
}
