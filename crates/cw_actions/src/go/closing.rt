// The closing line.
ghost use Rattle.std.specs.Prelude.{◌≡◌, map};
ghost use Rattle.cw_write.specs.Said.{Says};
ghost use Rattle.cw_say.specs.Closing.{closing_line};

use cw_io::Sink;
use cw_say::{Status, write_last};
use cw_word::Name;

/// Writes the line of the status, which is answered.
pub fn close<S: Sink>(say: &mut S, names: &[&str], segments: &[Name], status: Status) -> Status
    ensures same { result ≡ status }
    ensures line { Says (S.held say.old) (S.held say.new) (S.faults say.old) (S.faults say.new)
        (closing_line (map (λ name. name.now) names.now) segments.now status) }
    ensures ended { status ≡ Status.Ended → S.faults say.new ≡ S.faults say.old }
{
    let _ = write_last(say, names, segments, &status);
    status
}
