// The texts of the large program, compiled.
ghost use Rattle.std.specs.Prelude.{◌≡◌, ◌≤◌, ◌==◌, length, IfOk};
ghost use Rattle.cw_big.specs.LargeProgram.{large_text, large_program};
ghost use Rattle.cw_build.specs.Building.{IsMadeOf};
ghost use Rattle.cw_files.specs.Texts.{HasUnit};
ghost use Rattle.cw_files.specs.Reading.{HaveValues, AreSegmentsOf};

use crate::go::compile_text;
use cw_big::large_text;
use cw_big::laws::short_texts;
use cw_big_units::laws::large_units;
use cw_compile::laws::one_outcome;
use cw_files::{Segment, Segments};
use cw_say::Status;
use cw_word::NoMemory;
use std::alloc::Global;

// The segment of a number, of so many. Each text has a unit, so only memory may be wanted.
fn make_segment(alloc: Global, number: u8, copies: u8) -> Result<Segment, NoMemory>
    requires first { 1 ≤ number }
    requires last { number ≤ 100 }
    ensures unit { IfOk result (λ segment. HasUnit (large_text number (number == copies)) segment.unit) }
    ensures made { IfOk result (λ segment. IsMadeOf segment.unit segment.made) }
{
    short_texts();
    large_units();
    one_outcome();
    let text = large_text(alloc, number, number == copies)?;
    match compile_text(alloc, text.as_slice(), 0) {
        Ok(segment) => Ok(segment),
        Err(status) => {
            prove!(matches!(&status, Status::NoMemory));
            Err(NoMemory)
        }
    }
}

/// Makes and compiles so many texts in order.
pub(crate) fn make_segments(alloc: Global, copies: u8) -> Result<Segments, NoMemory>
    requires { copies ≤ 100 }
    ensures units { IfOk result (λ segments. HaveValues HasUnit (large_program copies) segments.units) }
    ensures all { IfOk result (λ segments. length segments.units ≡ copies) }
    ensures segments { IfOk result (λ segments. AreSegmentsOf segments.units segments) }
{
    let mut segments = Segments::new(alloc);
    for before in 0..copies {
        let segment = make_segment(alloc, before + 1, copies)?;
        if segments.push(segment).is_err() {
            return Err(NoMemory);
        }
    }
    Ok(segments)
}
