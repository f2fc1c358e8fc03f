// Results that are written to `out`.
ghost use Rattle.cw_actions.specs.Resulting.Outside.{out_at};
ghost use Rattle.cw_actions.specs.Resulting.Written.{GivesOut};

use cw_io::Sink;
use cw_say::{Status, Which};
use cw_write::write_piece;

/// Writes a text, and answers what the call comes to.
pub fn write_text<O: Sink>(out: &mut O, text: &[u8]) -> Status
    ensures { GivesOut text.now (out_at (O.held out.old) (O.faults out.old)) (out_at (O.held out.new) (O.faults out.new)) result }
{
    match write_piece(out, text) {
        Ok(()) => Status::Ended,
        Err(_) => Status::Outside(Which::Out),
    }
}
