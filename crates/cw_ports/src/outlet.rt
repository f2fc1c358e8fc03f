// The output of a run: a sink, and the bytes that are gathered for it.
ghost use Rattle.std.specs.Prelude.{◌≡◌, ℕ, ◌<◌, ◌≤◌, [], ◌∷◌, length, take, true, false, not};
ghost use Rattle.cw_io.specs.Bytes.{after_told};
ghost use Rattle.cw_io.specs.Count.{Rose};

use crate::inlet::PIECE;
use cw_io::Sink;

// Writes a piece as far as the sink takes it, and answers how many bytes were written: fewer than all only where the sink failed.
pub(crate) fn write_piece<O: Sink>(sink: &mut O, piece: &[u8]) -> usize
    ensures within { result ≤ length piece.now }
    ensures held { O.held sink.new ≡ after_told (O.held sink.old) (take result piece.now) }
    ensures whole { result ≡ length piece.now → O.faults sink.new ≡ O.faults sink.old }
    ensures part { result < length piece.now → Rose (O.faults sink.old) (O.faults sink.new) }
{
    let mut done = 0;
    'rest: while done < piece.len() {
        let (_, rest) = piece.split_at(done);
        match sink.write(rest) {
            Ok(count) => done += count,
            Err(_) => return done,
        }
    }
    done
}

/// A sink, the bytes that are gathered and not yet written, and whether it failed.
#[derive(Drop)]
pub struct Outlet<'a, O> {
    pub(crate) out: &'a mut O,
    pub(crate) bytes: [u8; PIECE],
    pub(crate) from: usize,
    pub(crate) to: usize,
    pub(crate) is_broken: bool,
    ghost order: { from ≤ to },
    ghost start: { is_broken ≡ false → from ≡ 0 },
    ghost room: { to < 4096 },
}

impl<'a, O: Sink> Outlet<'a, O> {
    ghost use Rattle.cw_ports.specs.Later.{OutputLater};
    ghost use Rattle.cw_ports.specs.Sides.{IsNewOutlet, side_of_outlet, written_by_program};

    /// An output to which nothing was given.
    pub fn new(out: &'a mut O) -> Outlet<'a, O>
        ensures name { result.out.ghost_name ≡ out.entry.ghost_name }
        ensures sink { result.out.now ≡ out.old }
        ensures unwritten { IsNewOutlet O.Sink result }
    {
        Outlet {
            out,
            bytes: [0; PIECE],
            from: 0,
            to: 0,
            is_broken: false,
        }
    }

    /// Writes what is gathered, unless the sink has failed, and answers whether that went well. Where it did not, the rest stays gathered.
    pub(crate) fn flush(&mut self) -> bool
        ensures told { written_by_program O.Sink self.new ≡ written_by_program O.Sink self.old }
        ensures later { OutputLater (side_of_outlet O.Sink self.old) (side_of_outlet O.Sink self.new) }
        ensures done { result ≡ not self.new.is_broken }
        ensures empty { result ≡ true → self.new.to ≡ 0 }
        ensures nothing { self.old.to ≡ 0 → self.old.is_broken ≡ false → result ≡ true }
    {
        if self.is_broken {
            return false;
        }
        let (gathered, _) = self.bytes.split_at(self.to);
        let count = write_piece(self.out, gathered);
        if count == gathered.len() {
            self.from = 0;
            self.to = 0;
            true
        } else {
            self.is_broken = true;
            self.from = count;
            false
        }
    }

    /// One more byte of output. What is gathered is written where it fills a piece; where that fails, the byte was not taken.
    pub(crate) fn push(&mut self, value: u8) -> bool
        requires { self.old.is_broken ≡ false }
        ensures taken { result ≡ true → written_by_program O.Sink self.new ≡ after_told (written_by_program O.Sink self.old) (value ∷ []) }
        ensures refused { result ≡ false → written_by_program O.Sink self.new ≡ written_by_program O.Sink self.old }
        ensures later { OutputLater (side_of_outlet O.Sink self.old) (side_of_outlet O.Sink self.new) }
        ensures done { result ≡ not self.new.is_broken }
    {
        self.bytes[self.to] = value;
        if self.to < PIECE - 1 {
            self.to += 1;
            return true;
        }
        let count = write_piece(self.out, &self.bytes);
        if count == PIECE {
            self.to = 0;
            true
        } else {
            self.is_broken = true;
            self.from = count;
            false
        }
    }
}
