// The bytes of one file of a call.
ghost use Rattle.std.specs.Prelude.{◌≡◌, ◌≤◌, length, slice_get, Some, IfOk, IfErr, List};
ghost use Rattle.cw_io.specs.File.{Told, Is, AllStay};
ghost use Rattle.cw_files.specs.Reading.{counts_at, IsUnread, SameCounts};

use cw_io::{FileFault, Store, read_file};
use cw_say::{Long, Status, Which};
use std::alloc::Global;

/// The most bytes of an object or an image.
pub(crate) const OBJECT_LIMIT: usize = 16_777_216;

/// Reads a file of a call, which has this number among them, or the status where it is not read.
pub fn read_bytes<F: Store>(
    alloc: Global,
    files: &mut F,
    name: &str,
    number: u16,
    limit: usize,
) -> Result<Vec<u8>, Status>
    requires { limit ≤ 16777216 }
    ensures whole { IfOk result (λ bytes. Is (F.file files.old name.now) bytes.items) }
    ensures within { IfOk result (λ bytes. length bytes.items ≤ limit) }
    ensures same { IfOk result (λ _. SameCounts (counts_at (F.faults files.old) (F.absences files.old))
        (counts_at (F.faults files.new) (F.absences files.new))) }
    ensures unread { (told : List Told) → slice_get told number ≡ Some (F.file files.old name.now)
        → IfErr result (λ status. IsUnread limit told number (counts_at (F.faults files.old) (F.absences files.old))
        (counts_at (F.faults files.new) (F.absences files.new)) status) }
    ensures stay { AllStay (F.file files.old) (F.file files.new) }
{
    match read_file(alloc, files, name, limit) {
        Ok(bytes) => Ok(bytes),
        Err(FileFault::Missing) => Err(Status::NoFile { file: number }),
        Err(FileFault::Failed) => Err(Status::Outside(Which::Store)),
        Err(FileFault::TooLong) => Err(Status::TooLong(Long::File(number))),
        Err(FileFault::NoMemory) => Err(Status::NoMemory),
    }
}
