//! The action `exec`.
ghost use Rattle.std.specs.Prelude.{◌≤◌, length, map};
ghost use Rattle.cw_ports.specs.Running.{outside};
ghost use Rattle.cw_place.specs.Placement.{IsLimits};
ghost use Rattle.cw_words.specs.declared.action.Action.TheVariants.{Exec};
ghost use Rattle.cw_correct.specs.Calls.{surroundings_of, call_as};
ghost use Rattle.cw_correct.specs.Correct.{IsCorrectCall};
ghost use Rattle.cw_actions.specs.Executing.Runs.{Runs};

use crate::go::{close, status_of};
use crate::results::first_name;
use cw_cpu86::Cpu;
use cw_files::read_runnable;
use cw_io::{Sink, Source, Store};
use cw_ports::run_image;
use cw_say::Status;
use cw_unit::layout::Limits;
use std::alloc::Global;

// Runs from where the processor begins.
fn run<I: Source, O: Sink>(cpu: Cpu, steps: u64, input: &mut I, out: &mut O) -> Status
    ensures { Runs cpu steps (outside (I.left input.old) (I.faults input.old) (O.held out.old) (O.faults out.old))
        (outside (I.left input.new) (I.faults input.new) (O.held out.new) (O.faults out.new)) result }
{
    let mut cpu = cpu;
    status_of(run_image(&mut cpu, input, out, steps), steps)
}

/// Reads the image or the HEX text, runs it, and closes with the line of the status.
pub fn exec<F: Store, I: Source, O: Sink, S: Sink>(
    alloc: Global,
    names: &[&str],
    limits: &Limits,
    steps: u64,
    files: &mut F,
    input: &mut I,
    out: &mut O,
    say: &mut S,
) -> Status
    requires few { length names.now ≤ 1 }
    requires some { 1 ≤ length names.now }
    requires limits { IsLimits limits.now }
    ensures { IsCorrectCall (call_as Exec limits.now steps (map (λ name. name.now) names.now)
        (surroundings_of (F.file files.old) (F.faults files.old) (F.absences files.old) (I.left input.old)
        (I.faults input.old) (O.held out.old) (O.faults out.old) (S.held say.old) (S.faults say.old))
        (surroundings_of (F.file files.new) (F.faults files.new) (F.absences files.new) (I.left input.new)
        (I.faults input.new) (O.held out.new) (O.faults out.new) (S.held say.new) (S.faults say.new)))
        result }
{
    match read_runnable(alloc, files, first_name(names)) {
        Ok(runnable) => {
            let status = run(runnable.cpu, steps, input, out);
            close(say, names, runnable.names.as_slice(), status)
        }
        Err(status) => close(say, names, &[], status),
    }
}
