// An image loaded and run, and its run watched.
ghost use Rattle.std.specs.Prelude.{◌≡◌, ℕ, ◌<◌, List, All, IfOk};
ghost use Rattle.cw_actions.specs.Going.Runs.{streams_at};
ghost use Rattle.cw_actions.specs.Going.Loads.{CanLoad};
ghost use Rattle.cw_actions.specs.Tracing.Tracing.{WatchesRun, watched_status};

use crate::go::{load, status_of};
use cw_image::Image;
use cw_io::{Sink, Source};
use cw_say::{Status, Which};
use cw_trace::Watch;
use cw_watched::{WatchedEnd, run_watched_image};
use cw_word::NoMemory;
use std::alloc::Global;

// That of a run of so many instructions that ended so.
fn watched_status(end: WatchedEnd, steps: u64) -> Status
    ensures { result ≡ watched_status steps end }
{
    match end {
        WatchedEnd::Image(end) => status_of(end, steps),
        WatchedEnd::SayFault => Status::Outside(Which::Say),
    }
}

/// Loads the image, writes what is said first, and runs, watched.
pub(crate) fn load_and_watch<I: Source, O: Sink, S: Sink>(
    alloc: Global,
    text: Result<Vec<u8>, NoMemory>,
    image: &Image,
    watch: &Watch,
    steps: u64,
    input: &mut I,
    out: &mut O,
    say: &mut S,
) -> Status
    requires words { All (λ word. word.address < 32768) watch.now.words }
    requires image { CanLoad image.now }
    ensures { (said : List ℕ) → IfOk text (λ told. told.items ≡ said) → WatchesRun said image.now watch.now steps
        (streams_at (I.left input.old) (I.faults input.old) (O.held out.old) (O.faults out.old) (S.held say.old)
        (S.faults say.old)) (streams_at (I.left input.new) (I.faults input.new) (O.held out.new)
        (O.faults out.new) (S.held say.new) (S.faults say.new)) result }
{
    match load(alloc, text, image, say) {
        Ok(mut cpu) => {
            let end = run_watched_image(watch, &mut cpu, input, out, say, steps);
            watched_status(end, steps)
        }
        Err(status) => status,
    }
}
