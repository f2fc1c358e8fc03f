//! Fields at the end of bytes. Each writer fails where there is no memory; what it wrote before is then left.
ghost use Rattle.std.specs.Prelude.{◌≡◌, ◌++◌, ◌∷◌, ◌<◌, [], length, OnOk};
ghost use Rattle.cw_fields.specs.Fields.{word_bytes, signed_bytes, long_bytes, text_bytes};

use byteorder::{LittleEndian, WriteBytesExt};
use cw_word::NoMemory;

/// These bytes.
pub fn put_bytes(out: &mut Vec<u8>, bytes: &[u8]) -> Result<(), NoMemory>
    ensures { OnOk result (out.new.items ≡ out.old.items ++ bytes.now) }
{
    out.extend_from_slice(bytes).map_err(|_| NoMemory)
}

/// A byte.
pub fn put_byte(out: &mut Vec<u8>, byte: u8) -> Result<(), NoMemory>
    ensures { OnOk result (out.new.items ≡ out.old.items ++ byte ∷ []) }
{
    out.push(byte).map_err(|_| NoMemory)
}

/// A number of two bytes.
pub fn put_word(out: &mut Vec<u8>, word: u16) -> Result<(), NoMemory>
    ensures { OnOk result (out.new.items ≡ out.old.items ++ word_bytes word) }
{
    out.write_u16::<LittleEndian>(word).map_err(|_| NoMemory)
}

/// A signed number of two bytes.
pub fn put_signed(out: &mut Vec<u8>, number: i16) -> Result<(), NoMemory>
    ensures { OnOk result (out.new.items ≡ out.old.items ++ signed_bytes number) }
{
    out.write_i16::<LittleEndian>(number).map_err(|_| NoMemory)
}

/// A number of four bytes.
pub fn put_long(out: &mut Vec<u8>, long: u32) -> Result<(), NoMemory>
    ensures { OnOk result (out.new.items ≡ out.old.items ++ long_bytes long) }
{
    out.write_u32::<LittleEndian>(long).map_err(|_| NoMemory)
}

/// At most 255 bytes, behind their length.
pub fn put_text(out: &mut Vec<u8>, text: &[u8]) -> Result<(), NoMemory>
    requires { length text.now < 256 }
    ensures { OnOk result (out.new.items ≡ out.old.items ++ text_bytes text.now) }
{
    put_byte(out, text.len() as u8)?;
    put_bytes(out, text)
}

/// How many there are, in a byte. More than 255 are refused as if memory were wanted.
pub fn put_short_count(out: &mut Vec<u8>, count: usize) -> Result<(), NoMemory>
    ensures { OnOk result (out.new.items ≡ out.old.items ++ count ∷ []) }
{
    match u8::try_from(count) {
        Ok(byte) => put_byte(out, byte),
        Err(_) => Err(NoMemory),
    }
}

/// How many there are, in two bytes. More than 65,535 are refused as if memory were wanted.
pub fn put_count(out: &mut Vec<u8>, count: usize) -> Result<(), NoMemory>
    ensures { OnOk result (out.new.items ≡ out.old.items ++ word_bytes count) }
{
    match u16::try_from(count) {
        Ok(word) => put_word(out, word),
        Err(_) => Err(NoMemory),
    }
}

/// How many there are, in four bytes. More than 4,294,967,295 are refused as if memory were wanted.
pub fn put_long_count(out: &mut Vec<u8>, count: usize) -> Result<(), NoMemory>
    ensures { OnOk result (out.new.items ≡ out.old.items ++ long_bytes count) }
{
    match u32::try_from(count) {
        Ok(long) => put_long(out, long),
        Err(_) => Err(NoMemory),
    }
}
