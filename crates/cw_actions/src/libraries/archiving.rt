//! The action `lib`.
ghost use Rattle.std.specs.Prelude.{◌≤◌, ℕ, List as Sequence, Option, length, map};
ghost use Rattle.std.specs.List.{AllByRecursion};
ghost use Rattle.cw_view.specs.ObjectFormat.{IsObject};
ghost use Rattle.cw_lib.specs.LibraryFormat.{IsNumber, library_bytes};
ghost use Rattle.cw_place.specs.Placement.{IsLimits};
ghost use Rattle.cw_words.specs.declared.action.Action.TheVariants.{Lib};
ghost use Rattle.cw_correct.specs.Calls.{surroundings_of, call_as};
ghost use Rattle.cw_correct.specs.Results.{LibsRight};
ghost use Rattle.cw_actions.specs.Resulting.Outside.{files_at};
ghost use Rattle.cw_actions.specs.Resulting.Written.{GivesFile};

use crate::go::close;
use crate::results::save;
use cw_files::read_objects;
use cw_io::{Sink, Store};
use cw_lib::write_lib;
use cw_say::Status;
use cw_unit::layout::Limits;
use cw_word::List;
use std::alloc::Global;

// Writes the library of objects to the file of this name.
fn save_library<F: Store>(alloc: Global, files: &mut F, name: &str, objects: &[List<u8>]) -> Status
    requires number { IsNumber (length objects.now) }
    requires objects { AllByRecursion IsObject objects.now }
    requires short { AllByRecursion (λ m. length m ≤ 16777216) objects.now }
    ensures { GivesFile name.now (library_bytes objects.now)
        (files_at (F.file files.old) (F.faults files.old) (F.absences files.old))
        (files_at (F.file files.new) (F.faults files.new) (F.absences files.new)) result }
{
    match write_lib(alloc, objects) {
        Ok(bytes) => save(files, name, bytes.as_slice()),
        Err(_) => Status::NoMemory,
    }
}

/// Reads and opens the objects in order, whose names stand behind that of the library, and writes the library of them to the file
/// of the first name.
pub fn make_library<F: Store, S: Sink>(
    alloc: Global,
    names: &[&str],
    limits: &Limits,
    steps: u64,
    files: &mut F,
    say: &mut S,
) -> Status
    requires few { length names.now ≤ 201 }
    requires some { 2 ≤ length names.now }
    requires limits { IsLimits limits.now }
    ensures { (left : Option (Sequence ℕ)) (input_faults : ℕ) (held : Option (Sequence ℕ)) (out_faults : ℕ)
        → LibsRight (call_as Lib limits.now steps (map (λ name. name.now) names.now)
        (surroundings_of (F.file files.old) (F.faults files.old) (F.absences files.old) left input_faults held
        out_faults (S.held say.old) (S.faults say.old))
        (surroundings_of (F.file files.new) (F.faults files.new) (F.absences files.new) left input_faults held
        out_faults (S.held say.new) (S.faults say.new))) result }
{
    let others = &names[1..];
    match read_objects(alloc, files, others) {
        Ok(objects) => {
            let status = save_library(alloc, files, names[0], objects.as_slice());
            close(say, others, &[], status)
        }
        Err(status) => close(say, others, &[], status),
    }
}
