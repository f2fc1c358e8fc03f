// A line of text that is gathered before it is written.
ghost use Rattle.std.specs.Prelude.{◌≡◌, [], ◌+◌, ◌≤◌, ◌++◌, length, OnOk};
ghost use Rattle.cw_write.specs.Said.{joined, Writes};
ghost use Rattle.cw_trace.specs.Gathering.{Adds, gathered};

use cw_io::{Failed, Sink};
use cw_write::write_piece;
use std::marker::Model;

const ROOM: usize = 1024;

/// What is gathered and not yet written, as a list of bytes.
#[derive(Drop)]
pub(crate) struct Line {
    bytes: [u8; ROOM],
    used: usize,
}

impl Model for Line {
    ghost use Rattle.std.specs.Prelude.{List, ℕ, ◌≤◌, take};

    ghost Value = { List ℕ };

    ghost view = { λ line. take line.used line.bytes };

    ghost invariant = { λ line. line.used ≤ 1024 };
}

impl Line {
    /// Nothing.
    pub(crate) fn new() -> Line
        ensures { result ≡ [] }
    {
        Line {
            bytes: [0; ROOM],
            used: 0,
        }
    }

    // Appends a piece for which there is room.
    fn append(&mut self, piece: &[u8])
        requires { length self.old + length piece.now ≤ 1024 }
        ensures { self.new ≡ self.old ++ piece.now }
    {
        let from = self.used;
        let to = from + piece.len();
        self.bytes[from..to].copy_from_slice(piece);
        self.used = to;
    }

    // Writes what is gathered.
    pub(crate) fn flush<S: Sink>(&mut self, say: &mut S) -> Result<(), Failed>
        ensures writes { Writes (S.held say.old) (S.held say.new) (S.faults say.old) (S.faults say.new) self.old result }
        ensures none { OnOk result (self.new ≡ []) }
    {
        let (waiting, _) = self.bytes.split_at(self.used);
        write_piece(say, waiting)?;
        self.used = 0;
        Ok(())
    }

    /// Adds a piece. What was gathered before it is written where there is no room for both, and then a piece that is too long by itself.
    pub(crate) fn add<S: Sink>(&mut self, say: &mut S, piece: &[u8]) -> Result<(), Failed>
        ensures { Adds (gathered (S.held say.old) self.old (S.faults say.old)) (gathered (S.held say.new) self.new (S.faults say.new)) piece.now result }
    {
        if piece.len() > ROOM - self.used {
            self.flush(say)?;
            if piece.len() > ROOM {
                return write_piece(say, piece);
            }
        }
        self.append(piece);
        Ok(())
    }

    /// Adds pieces one after the other.
    pub(crate) fn add_all<S: Sink>(&mut self, say: &mut S, pieces: &[&[u8]]) -> Result<(), Failed>
        ensures { Adds (gathered (S.held say.old) self.old (S.faults say.old))
            (gathered (S.held say.new) self.new (S.faults say.new)) (joined pieces.now) result }
    {
        for piece in pieces {
            if let Err(failed) = self.add(say, piece) {
                return Err(failed);
            }
        }
        Ok(())
    }
}
