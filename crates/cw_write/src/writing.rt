// Pieces, and lines made of pieces. None of this takes memory.
ghost use Rattle.std.specs.Prelude.{◌++◌, decimal, codes};
ghost use Rattle.cw_write.specs.Said.{joined, Writes};

use cw_io::{Failed, Sink};

/// Writes a whole piece.
pub fn write_piece<S: Sink>(sink: &mut S, piece: &[u8]) -> Result<(), Failed>
    ensures { Writes (S.held sink.old) (S.held sink.new) (S.faults sink.old) (S.faults sink.new) piece.now result }
{
    let mut done = 0;
    'rest: while done < piece.len() {
        let (_, rest) = piece.split_at(done);
        done += sink.write(rest)?;
    }
    Ok(())
}

/// Writes pieces one after the other.
pub fn write_line<S: Sink>(sink: &mut S, pieces: &[&[u8]]) -> Result<(), Failed>
    ensures { Writes (S.held sink.old) (S.held sink.new) (S.faults sink.old) (S.faults sink.new) (joined pieces.now) result }
{
    for piece in pieces {
        if let Err(failed) = write_piece(sink, piece) {
            return Err(failed);
        }
    }
    Ok(())
}

/// Writes a text, a number and the end of the line.
pub fn write_number<S: Sink>(say: &mut S, text: &[u8], number: u64) -> Result<(), Failed>
    ensures { Writes (S.held say.old) (S.held say.new) (S.faults say.old) (S.faults say.new) (text.now ++ decimal number ++ codes "\n") result }
{
    let mut buffer = itoa::Buffer::new();
    let digits = buffer.format(number);
    write_line(say, &[text, digits.as_bytes(), b"\n"])
}

/// Writes a text, a name and the end of the line.
pub fn write_name<S: Sink>(say: &mut S, text: &[u8], name: &[u8]) -> Result<(), Failed>
    ensures { Writes (S.held say.old) (S.held say.new) (S.faults say.old) (S.faults say.new) (text.now ++ name.now ++ codes "\n") result }
{
    write_line(say, &[text, name, b"\n"])
}
