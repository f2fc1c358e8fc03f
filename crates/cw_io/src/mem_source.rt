//! A source over bytes in memory.
ghost use Rattle.std.specs.Prelude.{◌≡◌, ◌↔◌, ◌≤◌, ℕ, length, min, drop, Some, IfOk, IsErr};
ghost use Rattle.std.specs.Io.{ReadsAtMost};
ghost use Rattle.cw_io.specs.Bytes.{Gives};
ghost use Rattle.cw_io.specs.Count.{Counts};
ghost use Rattle.cw_io.specs.Schedule.{IsNew, FailsNext};

use crate::piece::copy_piece;
use crate::schedule::Schedule;
use crate::{Failed, Source};
use cw_word::List;

/// A source over bytes in memory.
#[derive(Drop)]
pub struct MemSource {
    left: List<u8>,
    at: usize,
    piece: usize,
    schedule: Schedule,
    ghost within: { at ≤ length left },
    ghost moves: { 1 ≤ piece },
}

impl MemSource {
    ghost use Rattle.cw_io.specs.SourceInMemory.{left_of, most_of, schedule_of};

    /// A source of these bytes. A call moves at most `piece` of them, and the calls that `fails` numbers, from 1, fail.
    pub fn new(left: List<u8>, piece: usize, fails: List<u64>) -> MemSource
        requires { 1 ≤ piece }
        ensures left { left_of result ≡ left }
        ensures most { most_of result ≡ piece }
        ensures fails { IsNew (schedule_of result) fails }
    {
        MemSource {
            left,
            at: 0,
            piece,
            schedule: Schedule::new(fails),
        }
    }
}

impl Source for MemSource {
    ghost use Rattle.cw_io.specs.SourceInMemory.{left_of, most_of, schedule_of, IsNextSource};

    ghost left = { λ source. Some (left_of source) };

    ghost faults = { λ source. (schedule_of source).faults };

    fn read(&mut self, buf: &mut [u8]) -> Result<usize, Failed>
        ensures bound { ReadsAtMost result buf.new }
        ensures gives { Gives (Some (left_of self.old)) (Some (left_of self.new)) result buf.new }
        ensures counts { Counts (schedule_of self.old).faults (schedule_of self.new).faults result }

        ensures listed { IsErr result ↔ FailsNext (schedule_of self.old) }
        ensures full { IfOk result (λ n. n ≡ min (min (most_of self.old) (length buf.old)) (length (left_of self.old))) }
        ensures next { IsNextSource self.old self.new }
    {
        if self.schedule.fails_now() {
            return Err(Failed);
        }
        let (_, rest) = self.left.as_slice().split_at(self.at);
        let count = copy_piece(rest, buf, self.piece);
        self.at += count;
        Ok(count)
    }
}
