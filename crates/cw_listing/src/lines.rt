//! The lines of code, one after another.
ghost use Rattle.std.specs.Prelude.{◌≡◌, ◌+◌, ◌<◌, ◌≤◌, length, drop, true, false, IfOk, List as Sequence, ℕ};
ghost use Rattle.cw_dec86.specs.Decoding.{Reads};
ghost use Rattle.cw_listing.specs.Lines.{is_among, stands_word, IsLineAt, AreLines, Shows};

use crate::line::{Line, Shown};
use crate::places::Places;
use cw_dec86::{Decoded, decode};
use cw_word::{List, NoMemory};
use std::alloc::Global;

// Whether a word of data stands at a place, by the places of words.
fn stands_word(code: &[u8], words: &Places, place: usize) -> bool
    requires few { length code.now ≤ 65536 }
    requires inside { place < length code.now }
    ensures { result ≡ stands_word code.now words.now.among place }
{
    words.has(place as u16) && place + 1 < code.len()
}

// The line at a place where no word of data stands.
fn decoded_line(code: &[u8], place: usize) -> Line
    requires few { length code.now ≤ 65536 }
    requires inside { place < length code.now }
    ensures line { (words : Sequence ℕ) → stands_word code.now words place ≡ false → IsLineAt code.now words place result }
    ensures fits { place + result.size ≤ length code.now }
    ensures some { 0 < result.size }
{
    match decode(&code[place..]) {
        Decoded::Done { instr, length } => Line {
            place: place as u16,
            size: length,
            shown: Shown::Instruction(instr),
        },
        _ => Line {
            place: place as u16,
            size: 1,
            shown: Shown::Byte,
        },
    }
}

// The line at a place.
fn line_at(code: &[u8], words: &Places, place: usize) -> Line
    requires few { length code.now ≤ 65536 }
    requires inside { place < length code.now }
    ensures line { IsLineAt code.now words.now.among place result }
    ensures fits { place + result.size ≤ length code.now }
    ensures some { 0 < result.size }
{
    if stands_word(code, words, place) {
        Line {
            place: place as u16,
            size: 2,
            shown: Shown::Word,
        }
    } else {
        decoded_line(code, place)
    }
}

/// The lines of the whole code, by the places of words.
pub(crate) fn lines_of(alloc: Global, code: &[u8], words: &Places) -> Result<List<Line>, NoMemory>
    requires few { length code.now ≤ 65536 }
    ensures { IfOk result (λ lines. AreLines code.now words.now.among lines) }
{
    let mut lines = List::new(alloc);
    let mut place = 0;
    while place < code.len() {
        let line = line_at(code, words, place);
        lines.push(line)?;
        place += line.size as usize;
    }
    Ok(lines)
}
