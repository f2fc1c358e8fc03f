//! Objects of either version as those of version 2.
ghost use Rattle.std.specs.Prelude.{◌≡◌, ◌++◌, drop, IfOk, IfErr};
ghost use Rattle.cw_view.specs.ObjectFormat.{header};
ghost use Rattle.cw_obj.specs.declared.migrating.MigrateFault.TheVariants as faults;
ghost use Rattle.cw_obj.specs.Migration.{IsMigrated, FailsToMigrate};

use cw_fields::put_bytes;
use cw_view::{ObjFault, View};
use cw_word::NoMemory;
use std::alloc::Global;

/// Why bytes are not migrated.
#[derive(Clone, Copy, Debug)]
pub enum MigrateFault {
    /// They are no object: the first thing that is wrong with them.
    Object(ObjFault),
    NoMemory,
}

impl From<NoMemory> for MigrateFault {
    ghost from_gives = { λ _ fault. fault ≡ faults.NoMemory };

    fn from(_: NoMemory) -> MigrateFault {
        MigrateFault::NoMemory
    }
}

/// How an object of version 2 begins.
const HEADER: [u8; 6] = *b"C66O\x02\x00";

// The bytes behind another header.
fn with_header(alloc: Global, bytes: &[u8]) -> Result<Vec<u8>, NoMemory>
    ensures { IfOk result (λ object. object.items ≡ header 2 ++ drop 6 bytes.now) }
{
    let rest = match bytes.get(HEADER.len()..) {
        Some(rest) => rest,
        None => &[],
    };
    let mut object = Vec::new(alloc);
    put_bytes(&mut object, &HEADER)?;
    put_bytes(&mut object, rest)?;
    Ok(object)
}

/// The object of version 2 that has the records of an object of either version. `Object` exactly where the bytes are no
/// object, with the first fault.
pub fn migrate(alloc: Global, bytes: &[u8]) -> Result<Vec<u8>, MigrateFault>
    ensures object { IfOk result (λ object. IsMigrated bytes.now object.items) }
    ensures fault { IfErr result (FailsToMigrate bytes.now) }
{
    match View::open(bytes) {
        Ok(_) => {}
        Err(fault) => return Err(MigrateFault::Object(fault)),
    }
    Ok(with_header(alloc, bytes)?)
}
