//! A text that grows.
ghost use Rattle.cw_show.specs.Adding.{Extends};

/// The bytes of a text. Where memory wants for more, it lacks a part from then on, and says so.
pub struct Text {
    pub bytes: Vec<u8>,
    pub lacking: bool,
}

/// Adds bytes.
pub fn put(out: &mut Text, text: &[u8])
    ensures { Extends out.old out.new text.now }
{
    match out.bytes.extend_from_slice(text) {
        Ok(()) => {}
        Err(_) => out.lacking = true,
    }
}
