// The status of what ended.
ghost use Rattle.std.specs.Prelude.{◌≡◌};
ghost use Rattle.cw_actions.specs.Going.Runs.{status_of};

use cw_ports::ImageEnd;
use cw_say::{Long, Status, Which};

/// That of a run of so many instructions that ended so.
pub fn status_of(end: ImageEnd, steps: u64) -> Status
    ensures { result ≡ status_of steps end }
{
    match end {
        ImageEnd::Ended => Status::Ended,
        ImageEnd::Stopped {
            kind,
            segment,
            line,
        } => Status::Stopped {
            kind,
            segment,
            line,
        },
        ImageEnd::Unfinished => Status::Unfinished { steps },
        ImageEnd::BadCode { offset } => Status::BadCode { offset },
        ImageEnd::Divided { offset } => Status::Divided { offset },
        ImageEnd::InputFault => Status::Outside(Which::Input),
        ImageEnd::OutFault => Status::Outside(Which::Out),
        ImageEnd::TooLong => Status::TooLong(Long::Input),
    }
}
