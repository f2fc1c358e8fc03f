//! Files that are objects.
ghost use Rattle.std.specs.Prelude.{◌≡◌, ℕ, ◌≤◌, length, map, slice_get, Some, IfOk, IfErr, OnOk, List as Sequence};
ghost use Rattle.cw_io.specs.File.{Told, AllStay};
ghost use Rattle.cw_view.specs.ObjectFormat.{IsObject};
ghost use Rattle.cw_files.specs.Texts.{HasObject, object_limit};
ghost use Rattle.cw_files.specs.Reading.{Counts, counts_at, StopsObjects, AnswersObjects};
ghost use Rattle.cw_files.specs.Taking.{Takes, AnswersObject};

use crate::bytes::{OBJECT_LIMIT, read_bytes};
use crate::segments::add;
use cw_io::Store;
use cw_say::{Bad, Status};
use cw_view::View;
use cw_word::List;
use std::alloc::Global;

// Whether the bytes of the file with this number are an object.
fn check_object(bytes: &[u8], number: u16) -> Result<(), Status>
    ensures is_object { OnOk result (IsObject bytes.now) }
    ensures stops { (told : Sequence Told) (texts : Sequence (Sequence ℕ)) (before after : Counts)
        → slice_get texts number ≡ Some bytes.now
        → IfErr result (λ status. StopsObjects told texts number before after status) }
{
    match View::open(bytes) {
        Ok(_) => Ok(()),
        Err(fault) => Err(Status::BadFile {
            file: number,
            fault: Bad::Object(fault),
        }),
    }
}

// The object that the bytes of the file with this number are.
fn object_of(bytes: Vec<u8>, number: u16) -> Result<List<u8>, Status>
    ensures object { IfOk result (λ object. HasObject bytes.items object) }
    ensures stops { (told : Sequence Told) (texts : Sequence (Sequence ℕ)) (before after : Counts)
        → slice_get texts number ≡ Some bytes.items
        → IfErr result (λ status. StopsObjects told texts number before after status) }
{
    match check_object(bytes.as_slice(), number) {
        Ok(()) => Ok(List::of(bytes)),
        Err(status) => Err(status),
    }
}

// Reads the file with this number, an object behind those that were read.
fn read_object<F: Store>(
    alloc: Global,
    files: &mut F,
    name: &str,
    number: u16,
) -> Result<List<u8>, Status>
    ensures taken { (told : Sequence Told) (objects : Sequence (Sequence ℕ))
        → Takes object_limit HasObject told objects → length objects ≡ number
        → slice_get told number ≡ Some (F.file files.old name.now)
        → AnswersObject told objects (counts_at (F.faults files.old) (F.absences files.old))
        (counts_at (F.faults files.new) (F.absences files.new)) result }
    ensures stay { AllStay (F.file files.old) (F.file files.new) }
{
    match read_bytes(alloc, files, name, number, OBJECT_LIMIT) {
        Ok(bytes) => object_of(bytes, number),
        Err(status) => Err(status),
    }
}

/// Reads and opens objects in order, 200 at most; or the status of the first that is not read or is no object.
pub fn read_objects<F: Store>(
    alloc: Global,
    files: &mut F,
    names: &[&str],
) -> Result<List<List<u8>>, Status>
    requires { length names.now ≤ 200 }
    ensures taken { AnswersObjects (map (λ name. F.file files.old name.now) names.now)
        (counts_at (F.faults files.old) (F.absences files.old))
        (counts_at (F.faults files.new) (F.absences files.new)) result }
    ensures stay { AllStay (F.file files.old) (F.file files.new) }
{
    let mut objects = List::new(alloc);
    let mut number: u16 = 0;
    for name in names {
        let object = read_object(alloc, files, name, number)?;
        add(&mut objects, object)?;
        number += 1;
    }
    Ok(objects)
}
