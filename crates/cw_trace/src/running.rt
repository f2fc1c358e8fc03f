// A run that tells of what is watched.
ghost use Rattle.std.specs.Prelude.{◌<◌, All};
ghost use Rattle.cw_write.specs.Said.{Writes};
ghost use Rattle.cw_trace.specs.Marks.{Marks};
ghost use Rattle.cw_trace.specs.Reports.{told_at};
ghost use Rattle.cw_trace.specs.Answers.{WatchAnswers, WatchCounts};

use crate::marks::{OFFSETS, mark_places};
use crate::reporting::write_report;
use crate::watch::{Watch, WatchEnd};
use cw_cpu86::{Cpu, Ports, RunEnd, Step};
use cw_io::{Failed, Sink};

const CODE_SEGMENT: u16 = 0x1000;

// Writes what is told before the instruction at CS:IP.
#[inline(always)]
fn tell<S: Sink>(
    table: &[bool; OFFSETS],
    watch: &Watch,
    cpu: &Cpu,
    say: &mut S,
) -> Result<(), Failed>
    requires marks { Marks watch.now.places table.now }
    requires words { All (λ word. word.address < 32768) watch.now.words }
    ensures { Writes (S.held say.old) (S.held say.new) (S.faults say.old) (S.faults say.new) (told_at watch.now cpu.now) result }
{
    let regs = cpu.regs();
    let offset = regs.ip;
    if table[offset as usize] && regs.cs == CODE_SEGMENT {
        write_report(say, watch, cpu)
    } else {
        Ok(())
    }
}

/// Steps until one doesn't go on, and at most so many, and before each instruction at one of the places of the watch writes a line to `say`.
/// Takes no memory.
///
/// It leaves the processor and the ports as `Cpu::run` does; where a line could not be written, as that does at a smaller limit.
pub fn run_watched<P: Ports, S: Sink>(
    watch: &Watch,
    cpu: &mut Cpu,
    ports: &mut P,
    say: &mut S,
    limit: u64,
) -> WatchEnd
    requires { All (λ word. word.address < 32768) watch.now.words }
    ensures answers { WatchAnswers watch.now result limit cpu.old (P.device ports.old) cpu.new (P.device ports.new) (S.held say.old) (S.held say.new) }
    ensures counts { WatchCounts result (P.faults ports.old) (P.faults ports.new) (S.faults say.old) (S.faults say.new) }
    ensures becomes { P.becomes ports.old ports.new }
{
    let mut table = [false; OFFSETS];
    mark_places(&mut table, watch.places.as_slice());
    for steps in 0..limit {
        if let Err(_) = tell(&table, watch, cpu, say) {
            return WatchEnd::SayFault;
        }
        match cpu.step(ports) {
            Step::Ran => {}
            Step::Halted => return WatchEnd::Run(RunEnd::Halted { steps: steps + 1 }),
            Step::BadCode { offset } => return WatchEnd::Run(RunEnd::BadCode { offset, steps }),
            Step::Divide { offset } => return WatchEnd::Run(RunEnd::Divide { offset, steps }),
            Step::PortFault => return WatchEnd::Run(RunEnd::PortFault { steps }),
        }
    }
    WatchEnd::Run(RunEnd::Limit)
}
