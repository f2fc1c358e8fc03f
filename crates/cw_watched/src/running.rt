// The run of an image that is watched.
ghost use Rattle.std.specs.Prelude.{◌≡◌, ◌<◌, All};
ghost use Rattle.cw_ports.specs.Running.{outside};
ghost use Rattle.cw_ports.specs.Sides.{device_of, input_of, output_of};
ghost use Rattle.cw_ports.specs.Concluding.{IsFresh, outside_of};
ghost use Rattle.cw_watched.specs.Watched.{WatchedTells, said_at};

use cw_cpu86::{Cpu, RunEnd};
use cw_io::{Sink, Source};
use cw_ports::{ImageEnd, ImagePorts, Inlet, Outlet};
use cw_trace::{Watch, WatchEnd, run_watched};

/// How the run of an image that is watched ended.
#[derive(Clone, Copy, Debug, PartialEq, Eq)]
pub enum WatchedEnd {
    /// As one does that is not watched.
    Image(ImageEnd),
    /// A report could not be written.
    SayFault,
}

// Runs it with ports to which nothing was told yet.
fn run_with<I: Source, O: Sink, S: Sink>(
    watch: &Watch,
    cpu: &mut Cpu,
    ports: &mut ImagePorts<'_, '_, I, O>,
    say: &mut S,
    steps: u64,
) -> WatchedEnd
    requires words { All (λ word. word.address < 32768) watch.now.words }
    requires fresh { IsFresh (device_of O.Sink ports.old) (input_of ports.old) (output_of O.Sink ports.old) }
    ensures tells { WatchedTells watch.now result cpu.old steps
        (outside_of (input_of ports.old) (output_of O.Sink ports.old))
        (outside_of (input_of ports.new) (output_of O.Sink ports.new)) (said_at (S.held say.old) (S.faults say.old))
        (said_at (S.held say.new) (S.faults say.new)) }
    ensures input { (input_of ports.new).name ≡ (input_of ports.old).name }
    ensures out { (output_of O.Sink ports.new).name ≡ (output_of O.Sink ports.old).name }
{
    match run_watched(watch, cpu, ports, say, steps) {
        WatchEnd::Run(end) => WatchedEnd::Image(ports.conclude(end)),
        WatchEnd::SayFault => {
            // What the image wrote is written, as where a run comes to its limit.
            let _ = ports.conclude(RunEnd::Limit);
            WatchedEnd::SayFault
        }
    }
}

/// Runs the image that is loaded as `run_image` does, and before each instruction at one of the places of the watch writes a line to
/// `say`. No report waits, and no memory is taken. Where a line could not be written, what the image wrote before is written to `out`.
pub fn run_watched_image<I: Source, O: Sink, S: Sink>(
    watch: &Watch,
    cpu: &mut Cpu,
    input: &mut I,
    out: &mut O,
    say: &mut S,
    steps: u64,
) -> WatchedEnd
    requires { All (λ word. word.address < 32768) watch.now.words }
    ensures { WatchedTells watch.now result cpu.old steps
        (outside (I.left input.old) (I.faults input.old) (O.held out.old) (O.faults out.old))
        (outside (I.left input.new) (I.faults input.new) (O.held out.new) (O.faults out.new))
        (said_at (S.held say.old) (S.faults say.old)) (said_at (S.held say.new) (S.faults say.new)) }
{
    let mut ports = ImagePorts::new(Inlet::new(input), Outlet::new(out));
    run_with(watch, cpu, &mut ports, say, steps)
}
