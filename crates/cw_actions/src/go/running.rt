// The storage map is told, an image loaded and run.
ghost use Rattle.std.specs.Prelude.{◌≡◌, ℕ, List, IfOk};
ghost use Rattle.cw_ports.specs.Running.{Outside};
ghost use Rattle.cw_unit.specs.declared.unit.Unit.{Unit as SourceUnit};
ghost use Rattle.cw_place.specs.Placement.{IsLimits};
ghost use Rattle.cw_build.specs.Linking.{map_text};
ghost use Rattle.cw_build.specs.Building.{IsLinkedOf};
ghost use Rattle.cw_files.specs.Reading.{AreSegmentsOf};
ghost use Rattle.cw_actions.specs.Going.Runs.{streams_at, Runs};
ghost use Rattle.cw_actions.specs.Going.Loads.{CanLoad, beside, Loads};

use crate::go::statuses::status_of;
use cw_cpu86::Cpu;
use cw_files::Segments;
use cw_image::Image;
use cw_io::{Sink, Source};
use cw_link::Linked;
use cw_list::map_text;
use cw_ports::run_image;
use cw_say::{Status, Which};
use cw_unit::layout::Limits;
use cw_word::NoMemory;
use cw_write::write_piece;
use std::alloc::Global;

/// The text of the storage map of units that were linked.
pub(crate) fn storage_text(
    alloc: Global,
    segments: &Segments,
    linked: &Linked,
    limits: &Limits,
) -> Result<Vec<u8>, NoMemory>
    ghost us: { List SourceUnit }
    requires segments { AreSegmentsOf us segments.now }
    requires linked { IsLinkedOf us limits.now linked.now }
    requires limits { IsLimits limits.now }
    ensures { IfOk result (λ text. text.items ≡ map_text us limits.now) }
{
    let units = segments.units.as_slice();
    let layouts = segments.layouts.as_slice();
    map_text(alloc, units, layouts, &linked.map, limits)
}

/// Loads the image, and writes what is said first, where there was memory for it.
pub(crate) fn load<S: Sink>(
    alloc: Global,
    text: Result<Vec<u8>, NoMemory>,
    image: &Image,
    say: &mut S,
) -> Result<Cpu, Status>
    requires { CanLoad image.now }
    ensures { (said : List ℕ) (outside : Outside) → IfOk text (λ told. told.items ≡ said)
        → Loads said image.now (beside outside (S.held say.old) (S.faults say.old))
        (beside outside (S.held say.new) (S.faults say.new)) result }
{
    let code = image.code.as_slice();
    let words = image.words.as_slice();
    match text {
        Ok(listing) => match Cpu::start(alloc, code, words) {
            Ok(cpu) => match write_piece(say, listing.as_slice()) {
                Ok(()) => Ok(cpu),
                Err(_) => Err(Status::Outside(Which::Say)),
            },
            Err(_) => Err(Status::NoMemory),
        },
        Err(_) => Err(Status::NoMemory),
    }
}

/// Loads the image, writes what is said first, and runs.
pub(crate) fn load_and_run<I: Source, O: Sink, S: Sink>(
    alloc: Global,
    text: Result<Vec<u8>, NoMemory>,
    image: &Image,
    steps: u64,
    input: &mut I,
    out: &mut O,
    say: &mut S,
) -> Status
    requires { CanLoad image.now }
    ensures { (said : List ℕ) → IfOk text (λ told. told.items ≡ said) → Runs said image.now steps
        (streams_at (I.left input.old) (I.faults input.old) (O.held out.old) (O.faults out.old) (S.held say.old)
        (S.faults say.old)) (streams_at (I.left input.new) (I.faults input.new) (O.held out.new)
        (O.faults out.new) (S.held say.new) (S.faults say.new)) result }
{
    match load(alloc, text, image, say) {
        Ok(mut cpu) => status_of(run_image(&mut cpu, input, out, steps), steps),
        Err(status) => status,
    }
}
