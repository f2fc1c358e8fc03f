// The run of an image.
ghost use Rattle.std.specs.Prelude.{◌≡◌};
ghost use Rattle.cw_cpu86.specs.Answers.{end_shown};
ghost use Rattle.cw_ports.specs.Running.{IsTold, RunTells, outside};
ghost use Rattle.cw_ports.specs.Sides.{device_of, input_of, output_of, gathered_in};
ghost use Rattle.cw_ports.specs.Concluding.{IsFresh, Means, ConcludesRuns, outside_of};

use crate::inlet::Inlet;
use crate::outlet::Outlet;
use crate::ports::ImagePorts;
use cw_cpu86::laws::fitting_input;
use cw_cpu86::{Cpu, RunEnd};
use cw_io::{Sink, Source};

/// How the run of an image ended.
#[derive(Clone, Copy, Debug, PartialEq, Eq)]
pub enum ImageEnd {
    Ended,
    Stopped { kind: u8, segment: u8, line: u16 },
    Unfinished,
    BadCode { offset: u16 },
    Divided { offset: u16 },
    InputFault,
    OutFault,
    TooLong,
}

// How a run ended that came to HLT.
fn halted(kind: u8, segment: u8, line_low: u8, line_high: u8) -> ImageEnd
    ensures { IsTold kind segment line_low line_high result }
{
    if kind == 0 {
        ImageEnd::Ended
    } else {
        ImageEnd::Stopped {
            kind,
            segment,
            line: u16::from(line_low) + 256 * u16::from(line_high),
        }
    }
}

impl<I: Source, O: Sink> ImagePorts<'_, '_, I, O> {
    // How the run of an image ended whose output was written, and whose input has not too many bytes.
    fn meaning(&self, end: RunEnd) -> ImageEnd
        ensures { Means end (end_shown end (device_of O.Sink self.now)) result }
    {
        match end {
            RunEnd::Halted { .. } => {
                halted(self.kind, self.segment, self.line_low, self.line_high)
            }
            RunEnd::Limit => ImageEnd::Unfinished,
            RunEnd::BadCode { offset, .. } => ImageEnd::BadCode { offset },
            RunEnd::Divide { offset, .. } => ImageEnd::Divided { offset },
            RunEnd::PortFault { .. } => ImageEnd::InputFault,
        }
    }

    /// How the run of an image ended, by how that of the processor did over these ports. What is gathered is written, unless the sink has failed or the
    /// input has too many bytes.
    pub fn conclude(&mut self, end: RunEnd) -> ImageEnd
        ensures runs { ConcludesRuns end result (device_of O.Sink self.old) (input_of self.old)
            (output_of O.Sink self.old) (gathered_in self.old)
            (outside_of (input_of self.new) (output_of O.Sink self.new)) }
        ensures input { (input_of self.new).name ≡ (input_of self.old).name }
        ensures out { (output_of O.Sink self.new).name ≡ (output_of O.Sink self.old).name }
    {
        fitting_input();
        if self.inlet.supply.is_too_long() {
            return ImageEnd::TooLong;
        }
        let end = self.meaning(end);
        if !self.outlet.flush() {
            return ImageEnd::OutFault;
        }
        end
    }
}

// Runs it with ports to which nothing was told yet.
fn run_with<I: Source, O: Sink>(
    cpu: &mut Cpu,
    ports: &mut ImagePorts<'_, '_, I, O>,
    steps: u64,
) -> ImageEnd
    requires { IsFresh (device_of O.Sink ports.old) (input_of ports.old) (output_of O.Sink ports.old) }
    ensures shows { RunTells result cpu.old steps (outside_of (input_of ports.old) (output_of O.Sink ports.old))
        (outside_of (input_of ports.new) (output_of O.Sink ports.new)) }
    ensures input { (input_of ports.new).name ≡ (input_of ports.old).name }
    ensures out { (output_of O.Sink ports.new).name ≡ (output_of O.Sink ports.old).name }
{
    let end = cpu.run(ports, steps);
    ports.conclude(end)
}

/// Runs the image that is loaded, for so many instructions at most, over this input and output.
pub fn run_image<I: Source, O: Sink>(
    cpu: &mut Cpu,
    input: &mut I,
    out: &mut O,
    steps: u64,
) -> ImageEnd
    ensures { RunTells result cpu.old steps
        (outside (I.left input.old) (I.faults input.old) (O.held out.old) (O.faults out.old))
        (outside (I.left input.new) (I.faults input.new) (O.held out.new) (O.faults out.new)) }
{
    let mut ports = ImagePorts::new(Inlet::new(input), Outlet::new(out));
    run_with(cpu, &mut ports, steps)
}
