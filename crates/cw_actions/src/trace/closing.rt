// The closing line of a stop that means nothing.
ghost use Rattle.std.specs.Prelude.{◌≡◌, [], map};
ghost use Rattle.cw_write.specs.Said.{Says};
ghost use Rattle.cw_say.specs.Closing.{closing_line, file_name};
ghost use Rattle.cw_correct.specs.Tracing.{named_by};

use cw_io::Sink;
use cw_say::Status;
use cw_stop::Stop;
use cw_write::{write_line, write_name};

// What is watched by this number.
fn watched_text(stop: &Stop, index: u16) -> &[u8]
    ensures { result.now ≡ file_name (map (λ watched. watched.text) stop.entry.now.watched) index }
{
    match stop.watched.as_slice().get(index as usize) {
        Some(watched) => watched.text.as_slice(),
        None => b"",
    }
}

/// Writes the line of a stop at which no statement begins, and answers with its status.
pub(crate) fn close_no_place<S: Sink>(say: &mut S, stop: &Stop) -> Status
    ensures same { result ≡ Status.NoPlace }
    ensures line { Says (S.held say.old) (S.held say.new) (S.faults say.old) (S.faults say.new)
        (closing_line (named_by stop.now [] Status.NoPlace) [] Status.NoPlace) }
{
    let mut digits = itoa::Buffer::new();
    let line = digits.format(stop.line);
    let _ = write_line(
        say,
        &[
            b"no place: ",
            stop.segment.bytes(),
            b" ",
            line.as_bytes(),
            b"\n",
        ],
    );
    Status::NoPlace
}

/// Writes the line of a stop of which this watched name means no word, and answers with its status.
pub(crate) fn close_no_item<S: Sink>(say: &mut S, stop: &Stop, index: u16) -> Status
    ensures same { result ≡ Status.NoItem index }
    ensures line { Says (S.held say.old) (S.held say.new) (S.faults say.old) (S.faults say.new)
        (closing_line (named_by stop.now [] (Status.NoItem index)) [] (Status.NoItem index)) }
{
    let _ = write_name(say, b"no item: ", watched_text(stop, index));
    Status::NoItem { index }
}
