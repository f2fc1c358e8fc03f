//! Names as they are compared: without case.
ghost use Rattle.std.specs.Prelude.{◌≡◌};
ghost use Rattle.std.specs.Str.{str_to_ascii_uppercase};
ghost use Rattle.cw_word.specs.Name.{IsName};

use cw_word::Name;

/// A name's text in upper case.
pub(crate) fn key_of(text: &[u8]) -> Name
    requires { IsName (str_to_ascii_uppercase text.now) }
    ensures { result ≡ str_to_ascii_uppercase text.now }
{
    let mut letters = [0; 31];
    let letters = &mut letters[..text.len()];
    letters.copy_from_slice(text);
    letters.make_ascii_uppercase();
    match Name::new(letters) {
        Some(name) => name,
        None => unreachable!(),
    }
}
