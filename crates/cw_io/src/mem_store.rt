//! A store of files in memory.
ghost use Rattle.std.specs.Prelude.{◌≡◌, ◌↔◌, ◌⊎◌, ◌+◌, ◌-◌, ◌<◌, ◌≤◌, ◌∷◌, ◌++◌, ℕ, [], length, min, drop, All, option_map};
ghost use Rattle.std.specs.Prelude.{IfSome, Some, None, vec_len, vec_capacity, IfOk, OnOk, OnErr, IsErr, IsErrOf, IsTrue};
ghost use Rattle.std.specs.Io.{ReadsAtMost};
ghost use Rattle.cw_io.specs.Count.{CountsBoth, one_more};
ghost use Rattle.cw_io.specs.File.{as_file, IsAbsent, GivesPart, KeptOrWhole, OthersStay, AllStay};
ghost use Rattle.cw_io.specs.Schedule.{IsNew, FailsNext};
ghost use Rattle.cw_io.specs.Written.{IsWithin, given_file};

use crate::mem_file::{MemFile, Place, given, written};
use crate::piece::copy_piece;
use crate::schedule::Schedule;
use crate::{Store, StoreFault};
use cw_word::{List, NoMemory};
use std::alloc::Global;

/// A store of files in memory. After `new` it takes no more memory.
#[derive(Drop)]
pub struct MemStore {
    files: List<MemFile>,
    places: Vec<Place>,
    text: Vec<u8>,
    slots: usize,
    room: usize,
    piece: usize,
    schedule: Schedule,
    absences: u64,
    ghost places_within: { vec_len places ≤ slots },
    ghost places_made: { slots ≤ vec_capacity places },
    ghost text_within: { vec_len text ≤ room },
    ghost text_made: { room ≤ vec_capacity text },
    ghost moves: { 1 ≤ piece },
    ghost stand: { All (IsWithin text.items) places.items },
}

impl MemStore {
    ghost use Rattle.cw_io.specs.StoreInMemory.{file_in, slots_of, room_of, most_of, schedule_of, absences_of};

    /// A store of these files, with room for `slots` calls of `write_all` that together bring `room` bytes, their names counted.
    /// A call of `read_part` moves at most `piece` bytes, and the calls that `fails` numbers, from 1, fail. Of files of one name the first counts.
    pub fn new(
        alloc: Global,
        files: List<MemFile>,
        slots: usize,
        room: usize,
        piece: usize,
        fails: List<u64>,
    ) -> Result<MemStore, NoMemory>
        requires { 1 ≤ piece }
        ensures files { IfOk result (λ store. (name : _) → file_in store name ≡ given_file files name) }
        ensures room { IfOk result (λ store. (slots_of store ≡ slots) × (room_of store ≡ room)) }
        ensures most { IfOk result (λ store. most_of store ≡ piece) }
        ensures fails { IfOk result (λ store. IsNew (schedule_of store) fails) }
        ensures absences { IfOk result (λ store. absences_of store ≡ 0) }
    {
        let Ok(places) = Vec::with_capacity(alloc, slots) else {
            return Err(NoMemory);
        };
        let Ok(text) = Vec::with_capacity(alloc, room) else {
            return Err(NoMemory);
        };
        Ok(MemStore {
            files,
            places,
            text,
            slots,
            room,
            piece,
            schedule: Schedule::new(fails),
            absences: 0,
        })
    }

    fn find(&self, name: &[u8]) -> Option<&[u8]>
        ensures { option_map (λ bytes. bytes.now) result ≡ file_in self.now name.now }
    {
        let given = given(self.files.as_slice(), name);
        written(self.places.as_slice(), self.text.as_slice(), name, given)
    }

    // A name and bytes of these lengths fit.
    fn has_room(&self, name: usize, bytes: usize) -> bool
        ensures { IsTrue result ↔ ((0 < slots_of self.now) × (name + bytes ≤ room_of self.now)) }
    {
        let room = self.room - self.text.len();
        self.places.len() < self.slots && name <= room && bytes <= room - name
    }
}

// Adds a name and bytes, for which there is room.
fn append(text: &mut Vec<u8>, name: &[u8], bytes: &[u8])
    requires { vec_len text.old + length name.now + length bytes.now ≤ vec_capacity text.old }
    ensures text { text.new.items ≡ (text.old.items ++ name.now) ++ bytes.now }
    ensures len { vec_len text.new ≡ vec_len text.old + length name.now + length bytes.now }
    ensures capacity { vec_capacity text.old ≤ vec_capacity text.new }
{
    if text.extend_from_slice(name).is_err() {
        unreachable!();
    }
    if text.extend_from_slice(bytes).is_err() {
        unreachable!();
    }
}

// Adds a place, for which there is room.
fn add_place(places: &mut Vec<Place>, place: Place)
    requires { vec_len places.old < vec_capacity places.old }
    ensures places { places.new.items ≡ places.old.items ++ place ∷ [] }
    ensures len { vec_len places.new ≡ vec_len places.old + 1 }
    ensures capacity { vec_capacity places.old ≤ vec_capacity places.new }
{
    if places.push(place).is_err() {
        unreachable!();
    }
}

impl Store for MemStore {
    ghost use Rattle.cw_io.specs.StoreInMemory.{file_in, slots_of, room_of, most_of, schedule_of, absences_of, IsFull, IsNextStore, KeepsRoom};

    ghost file = { λ store name. Some (file_in store name) };

    ghost faults = { λ store. (schedule_of store).faults };

    ghost absences = { λ store. absences_of store };

    fn read_part(&mut self, name: &str, at: u64, buf: &mut [u8]) -> Result<usize, StoreFault>
        ensures bound { ReadsAtMost result buf.new }
        ensures part { IfOk result (λ n. GivesPart (Some (file_in self.old name.now)) at n buf.new) }
        ensures missing { IsErrOf result StoreFault.Missing → IsAbsent (Some (file_in self.old name.now)) }
        ensures stay { AllStay (λ other. Some (file_in self.old other)) (λ other. Some (file_in self.new other)) }
        ensures counts { CountsBoth (schedule_of self.old).faults (schedule_of self.new).faults (absences_of self.old) (absences_of self.new) result }

        ensures listed { IsErrOf result StoreFault.Failed ↔ FailsNext (schedule_of self.old) }
        ensures no_fault { IsErrOf result StoreFault.Missing → (schedule_of self.new).faults ≡ (schedule_of self.old).faults }
        ensures full { IfOk result (λ n. IfSome (file_in self.old name.now) (λ bytes. n ≡ min (min (most_of self.old) (length buf.old)) (length bytes - at))) }
        ensures next { IsNextStore self.old self.new }
        ensures room { KeepsRoom self.old self.new }
    {
        if self.schedule.fails_now() {
            return Err(StoreFault::Failed);
        }
        let piece = self.piece;
        match self.find(name.as_bytes()) {
            Some(bytes) => {
                let (_, rest) = bytes.split_at((at as usize).min(bytes.len()));
                Ok(copy_piece(rest, buf, piece))
            }
            None => {
                self.absences = self.absences.saturating_add(1);
                Err(StoreFault::Missing)
            }
        }
    }

    fn write_all(&mut self, name: &str, bytes: &[u8]) -> Result<(), StoreFault>
        ensures whole { OnOk result (Some (file_in self.new name.now) ≡ as_file (Some (file_in self.old name.now)) bytes.now) }
        ensures kept_or_whole { OnErr result (KeptOrWhole (λ other. Some (file_in self.old other))
            (λ other. Some (file_in self.new other)) name.now bytes.now) }
        ensures never_missing { IsErrOf result StoreFault.Missing → ⊥ }
        ensures stay { OthersStay (λ other. Some (file_in self.old other)) (λ other. Some (file_in self.new other)) name.now }
        ensures counts { CountsBoth (schedule_of self.old).faults (schedule_of self.new).faults (absences_of self.old) (absences_of self.new) result }

        ensures fails { IsErr result ↔ (FailsNext (schedule_of self.old) ⊎ IsFull self.old name.now bytes.now) }
        ensures unchanged { OnErr result ((other : _) → file_in self.new other ≡ file_in self.old other) }
        ensures no_absence { absences_of self.new ≡ absences_of self.old }
        ensures next { IsNextStore self.old self.new }
        ensures room { OnOk result ((slots_of self.new + 1 ≡ slots_of self.old) × (room_of self.new + length name.now + length bytes.now ≡ room_of self.old)) }
        ensures room_stays { OnErr result (KeepsRoom self.old self.new) }
    {
        if self.schedule.fails_now() {
            return Err(StoreFault::Failed);
        }
        if !self.has_room(name.len(), bytes.len()) {
            self.schedule.count_fault();
            return Err(StoreFault::Failed);
        }
        let name_at = self.text.len();
        let bytes_at = name_at + name.len();
        let end = bytes_at + bytes.len();
        append(&mut self.text, name.as_bytes(), bytes);
        add_place(
            &mut self.places,
            Place {
                name_at,
                bytes_at,
                end,
            },
        );
        Ok(())
    }
}
