//! Images as they are run.
ghost use Rattle.std.specs.Prelude.{IfOk};
ghost use Rattle.cw_i86.specs.MachineRun.{IsStart};
ghost use Rattle.cw_image.specs.ImageFormat.{IsImage};

use crate::image::Image;
use cw_cpu86::Cpu;
use cw_word::NoMemory;
use std::alloc::Global;

/// The state in which the program of an image begins.
pub fn load(alloc: Global, image: &Image) -> Result<Cpu, NoMemory>
    requires { IsImage image.now }
    ensures { IfOk result (λ cpu. IsStart image.now.code image.now.words cpu) }
{
    Cpu::start(alloc, image.code.as_slice(), image.words.as_slice())
}
