// Numbers in texts.
ghost use Rattle.std.specs.Prelude.{◌≡◌, ◌++◌, decimal, OnOk};

use cw_fields::put_bytes;
use cw_word::NoMemory;

/// A number, by its decimal digits.
pub(crate) fn put_number(out: &mut Vec<u8>, number: u64) -> Result<(), NoMemory>
    ensures { OnOk result (out.new.items ≡ out.old.items ++ decimal number) }
{
    let mut digits = itoa::Buffer::new();
    put_bytes(out, digits.format(number).as_bytes())
}
