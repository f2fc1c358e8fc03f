//! Images as they are written.
ghost use Rattle.std.specs.Prelude.{◌≡◌, ◌++◌, ◌∷◌, [], ◌<◌, OnOk, IfOk, length};
ghost use Rattle.cw_fields.specs.Fields.{each, text_bytes, word_bytes, long_bytes};
ghost use Rattle.cw_image.specs.ImageFormat.{mark, image_bytes, limits_bytes};

use crate::image::Image;
use cw_fields::{put_bytes, put_count, put_long_count, put_short_count, put_text, put_word};
use cw_word::{Name, NoMemory};
use std::alloc::Global;

/// The mark of an image, and its version.
const HEADER: [u8; 6] = *b"C66I\x01\x00";

fn put_name(out: &mut Vec<u8>, name: &Name) -> Result<(), NoMemory>
    ensures { OnOk result (out.new.items ≡ out.old.items ++ text_bytes name.now) }
{
    put_text(out, name.bytes())
}

fn put_names(out: &mut Vec<u8>, names: &[Name]) -> Result<(), NoMemory>
    ensures { OnOk result (out.new.items ≡ out.old.items ++ each text_bytes names.now) }
{
    for name in names {
        put_name(out, name)?;
    }
    Ok(())
}

fn put_words(out: &mut Vec<u8>, words: &[u16]) -> Result<(), NoMemory>
    ensures { OnOk result (out.new.items ≡ out.old.items ++ each word_bytes words.now) }
{
    for word in words {
        put_word(out, *word)?;
    }
    Ok(())
}

fn put_limits(out: &mut Vec<u8>, image: &Image) -> Result<(), NoMemory>
    ensures { OnOk result (out.new.items ≡ out.old.items ++ limits_bytes image.now) }
{
    put_bytes(out, &HEADER)?;
    put_word(out, image.area)?;
    put_word(out, image.frames)?;
    put_word(out, image.depth)
}

/// The bytes of an image.
pub fn write_image(alloc: Global, image: &Image) -> Result<Vec<u8>, NoMemory>
    ensures { IfOk result (λ bytes. bytes.items ≡ image_bytes image.now) }
{
    let mut out = Vec::new(alloc);
    put_limits(&mut out, image)?;
    put_short_count(&mut out, image.names.as_slice().len())?;
    put_names(&mut out, image.names.as_slice())?;
    put_count(&mut out, image.words.as_slice().len())?;
    put_words(&mut out, image.words.as_slice())?;
    put_long_count(&mut out, image.code.as_slice().len())?;
    put_bytes(&mut out, image.code.as_slice())?;
    Ok(out)
}
