// Results that are written to a file.
ghost use Rattle.std.specs.Prelude.{◌≡◌, ◌++◌, IfOk, string_bytes};
ghost use Rattle.cw_actions.specs.Resulting.Outside.{files_at};
ghost use Rattle.cw_actions.specs.Resulting.Written.{GivesFile};

use cw_io::Store;
use cw_say::{Status, Which};
use cw_word::NoMemory;
use std::alloc::Global;

/// Writes a file, and answers what the call comes to.
pub fn save<F: Store>(files: &mut F, name: &str, bytes: &[u8]) -> Status
    ensures { GivesFile name.now bytes.now (files_at (F.file files.old) (F.faults files.old) (F.absences files.old))
        (files_at (F.file files.new) (F.faults files.new) (F.absences files.new)) result }
{
    match files.write_all(name, bytes) {
        Ok(()) => Status::Ended,
        Err(_) => Status::Outside(Which::Store),
    }
}

// A name with an ending.
fn joined(alloc: Global, name: &str, ending: &str) -> Result<String, NoMemory>
    ensures { IfOk result (λ whole. string_bytes whole ≡ name.now ++ ending.now) }
{
    let mut whole = String::from_str(alloc, name).map_err(|_| NoMemory)?;
    whole.push_str(ending).map_err(|_| NoMemory)?;
    Ok(whole)
}

/// Writes the file that has this ending added to its name.
pub(crate) fn save_beside<F: Store>(
    alloc: Global,
    files: &mut F,
    name: &str,
    ending: &str,
    bytes: &[u8],
) -> Status
    ensures { GivesFile (name.now ++ ending.now) bytes.now
        (files_at (F.file files.old) (F.faults files.old) (F.absences files.old))
        (files_at (F.file files.new) (F.faults files.new) (F.absences files.new)) result }
{
    match joined(alloc, name, ending) {
        Ok(whole) => save(files, whole.as_str(), bytes),
        Err(_) => Status::NoMemory,
    }
}
