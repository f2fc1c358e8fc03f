//! A sink into memory.
ghost use Rattle.std.specs.Prelude.{◌≡◌, ◌↔◌, ◌⊎◌, ◌-◌, ◌<◌, ◌≤◌, [], length, min, Some, vec_len, vec_capacity, IfOk, IsErr};
ghost use Rattle.std.specs.Io.{WritesAtMost};
ghost use Rattle.cw_io.specs.Bytes.{Appends};
ghost use Rattle.cw_io.specs.Count.{Counts};
ghost use Rattle.cw_io.specs.Schedule.{IsNew, FailsNext};

use crate::schedule::Schedule;
use crate::{Failed, Sink};
use cw_word::{List, NoMemory};
use std::alloc::Global;

/// A sink that holds bytes in memory. After `new` it takes no more memory.
#[derive(Drop)]
pub struct MemSink {
    held: Vec<u8>,
    room: usize,
    piece: usize,
    schedule: Schedule,
    ghost within: { vec_len held ≤ room },
    ghost made: { room ≤ vec_capacity held },
    ghost moves: { 1 ≤ piece },
}

impl MemSink {
    ghost use Rattle.cw_io.specs.SinkInMemory.{held_of, room_of, most_of, schedule_of};

    /// An empty sink with room for `room` bytes. A call moves at most `piece` of them, and the calls that `fails` numbers, from 1, fail.
    pub fn new(
        alloc: Global,
        room: usize,
        piece: usize,
        fails: List<u64>,
    ) -> Result<MemSink, NoMemory>
        requires { 1 ≤ piece }
        ensures held { IfOk result (λ sink. held_of sink ≡ []) }
        ensures room { IfOk result (λ sink. room_of sink ≡ room) }
        ensures most { IfOk result (λ sink. most_of sink ≡ piece) }
        ensures fails { IfOk result (λ sink. IsNew (schedule_of sink) fails) }
    {
        match Vec::with_capacity(alloc, room) {
            Ok(held) => Ok(MemSink {
                held,
                room,
                piece,
                schedule: Schedule::new(fails),
            }),
            Err(_) => Err(NoMemory),
        }
    }

    /// The bytes that it holds.
    pub fn held(&self) -> &[u8]
        ensures { result.now ≡ held_of self.now }
    {
        self.held.as_slice()
    }
}

impl Sink for MemSink {
    ghost use Rattle.cw_io.specs.SinkInMemory.{held_of, room_of, most_of, schedule_of, IsFull, IsNextSink};

    ghost held = { λ sink. Some (held_of sink) };

    ghost faults = { λ sink. (schedule_of sink).faults };

    fn write(&mut self, piece: &[u8]) -> Result<usize, Failed>
        ensures bound { WritesAtMost result piece.now }
        ensures appends { Appends (Some (held_of self.old)) (Some (held_of self.new)) result piece.now }
        ensures counts { Counts (schedule_of self.old).faults (schedule_of self.new).faults result }

        ensures fails { IsErr result ↔ (FailsNext (schedule_of self.old) ⊎ IsFull self.old piece.now) }
        ensures full { IfOk result (λ n. n ≡ min (min (most_of self.old) (length piece.now)) (room_of self.old)) }
        ensures room { IfOk result (λ n. room_of self.new ≡ room_of self.old - n) }
        ensures next { IsNextSink self.old self.new }
    {
        if self.schedule.fails_now() {
            return Err(Failed);
        }
        if piece.is_empty() {
            return Ok(0);
        }
        let room = self.room - self.held.len();
        if room == 0 {
            self.schedule.count_fault();
            return Err(Failed);
        }
        let count = self.piece.min(piece.len()).min(room);
        match self.held.extend_from_slice(&piece[..count]) {
            Ok(()) => Ok(count),
            Err(_) => unreachable!(),
        }
    }
}
