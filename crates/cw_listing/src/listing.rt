//! Lines of code as text.
ghost use Rattle.std.specs.Prelude.{◌≡◌, ◌+◌, ◌<◌, ◌≤◌, ◌++◌, length, drop, take, map, flat_map, All, IfOk};
ghost use Rattle.std.specs.Prelude.{OnOk, List as Sequence, ℕ, codes, decimal, slice_index, ◌∷◌, []};
ghost use Rattle.cw_i86.specs.Encoding.{IsInstr};
ghost use Rattle.cw_dec86.specs.Rows.{word_at};
ghost use Rattle.cw_nasm.specs.Operations.{named_place};
ghost use Rattle.cw_nasm.specs.Assembly.{hex_byte};
ghost use Rattle.cw_listing.specs.Lines.{is_among, IsShown, AreLines};
ghost use Rattle.cw_listing.specs.Listing.{instruction_text, shown_text, label_line, spaced_hex, line_bytes, meaning, comment_text, line_text, remark_text};
ghost use Rattle.cw_listing.specs.Listing.{count_up_to, count_before, lines_text, begun_places, referred_places, listing, IsListing, head};

use crate::line::{Line, Shown};
use crate::lines::lines_of;
use crate::places::{Places, begun_places, referred_places, remark_places};
use crate::remark::Remark;
use cw_i86::Instr;
use cw_nasm::{
    add, add_by_bytes, add_decimal, add_four_hex, add_instruction, add_label, add_two_hex,
    named_place,
};
use cw_word::{List, NoMemory};
use std::alloc::Global;

// ---- remarks

fn add_remark(text: &mut Vec<u8>, remark: &Remark) -> Result<(), NoMemory>
    ensures { OnOk result (text.new.items ≡ text.old.items ++ remark_text remark.now) }
{
    add(text, b"; ")?;
    add(text, remark.text.as_slice())?;
    add(text, b"\n")
}

fn add_remarks(text: &mut Vec<u8>, remarks: &[Remark]) -> Result<(), NoMemory>
    ensures { OnOk result (text.new.items ≡ text.old.items ++ flat_map remark_text remarks.now) }
{
    for k in 0..remarks.len() {
        add_remark(text, &remarks[k])?;
    }
    Ok(())
}

fn count_up_to(place: u64, remarks: &[Remark]) -> usize
    ensures count { result ≡ count_up_to place remarks.now }
    ensures fits { result ≤ length remarks.now }
{
    for k in 0..remarks.len() {
        if remarks[k].place > place {
            return k;
        }
    }
    remarks.len()
}

fn count_before(place: u64, remarks: &[Remark]) -> usize
    ensures count { result ≡ count_before place remarks.now }
    ensures fits { result ≤ length remarks.now }
{
    for k in 0..remarks.len() {
        if remarks[k].place >= place {
            return k;
        }
    }
    remarks.len()
}

// Adds those up to the first that stands behind a place, and gives the others.
fn add_due<'a>(
    text: &mut Vec<u8>,
    place: u64,
    remarks: &'a [Remark],
) -> Result<&'a [Remark], NoMemory>
    ensures text { OnOk result (text.new.items ≡ text.old.items ++ flat_map remark_text (take (count_up_to place remarks.now) remarks.now)) }
    ensures left { IfOk result (λ left. left.now ≡ drop (count_up_to place remarks.now) remarks.now) }
{
    let count = count_up_to(place, remarks);
    add_remarks(text, &remarks[..count])?;
    Ok(&remarks[count..])
}

// Those from the first on that stands at a place or behind it.
fn from_place<'a>(place: u64, remarks: &'a [Remark]) -> &'a [Remark]
    ensures { result.now ≡ drop (count_before place remarks.now) remarks.now }
{
    let count = count_before(place, remarks);
    &remarks[count..]
}

// ---- a line

fn add_hex_bytes(text: &mut Vec<u8>, bytes: &[u8]) -> Result<(), NoMemory>
    ensures { OnOk result (text.new.items ≡ text.old.items ++ flat_map spaced_hex bytes.now) }
{
    for k in 0..bytes.len() {
        add(text, b" ")?;
        add_two_hex(text, bytes[k])?;
    }
    Ok(())
}

fn line_bytes<'a>(code: &'a [u8], line: &Line) -> &'a [u8]
    ensures { result.now ≡ line_bytes code.now line.now }
{
    let from = line.place as usize;
    let to = from + line.size as usize;
    if to <= code.len() {
        &code[from..to]
    } else if from <= code.len() {
        &code[from..]
    } else {
        &[]
    }
}

fn add_text_instruction(
    text: &mut Vec<u8>,
    begun: &Places,
    instr: &Instr,
    place: u16,
) -> Result<(), NoMemory>
    requires instr { IsInstr instr.now }
    ensures { OnOk result (text.new.items ≡ text.old.items ++ instruction_text begun.now.among instr.now place (named_place instr.now place)) }
{
    match named_place(instr, place) {
        None => add_instruction(text, instr, place),
        Some(named) => if begun.has(named) {
            add_instruction(text, instr, place)
        } else {
            add_by_bytes(text, instr, place)
        },
    }
}

fn add_word(text: &mut Vec<u8>, code: &[u8], place: u16) -> Result<(), NoMemory>
    ensures { OnOk result (text.new.items ≡ text.old.items ++ codes "dw " ++ decimal (word_at code.now place)) }
{
    let low = byte_at(code, place as usize);
    let high = byte_at(code, place as usize + 1);
    add(text, b"dw ")?;
    add_decimal(text, u32::from(u16::from_le_bytes([low, high])))
}

fn byte_at(code: &[u8], place: usize) -> u8
    ensures { result ≡ slice_index code.now place }
{
    match code.get(place) {
        Some(byte) => *byte,
        None => 0,
    }
}

fn add_byte(text: &mut Vec<u8>, byte: u8) -> Result<(), NoMemory>
    ensures { OnOk result (text.new.items ≡ text.old.items ++ codes "db " ++ hex_byte byte) }
{
    add(text, b"db ")?;
    add(text, b"0x")?;
    add_two_hex(text, byte)
}

fn add_shown(
    text: &mut Vec<u8>,
    code: &[u8],
    begun: &Places,
    shown: &Shown,
    place: u16,
) -> Result<(), NoMemory>
    requires shown { IsShown shown.now }
    ensures { OnOk result (text.new.items ≡ text.old.items ++ shown_text code.now begun.now.among shown.now place) }
{
    match shown {
        Shown::Instruction(instr) => add_text_instruction(text, begun, instr, place),
        Shown::Word => add_word(text, code, place),
        Shown::Byte => add_byte(text, byte_at(code, place as usize)),
    }
}

fn add_label_line(text: &mut Vec<u8>, referred: &Places, place: u16) -> Result<(), NoMemory>
    ensures { OnOk result (text.new.items ≡ text.old.items ++ label_line referred.now.among place) }
{
    if referred.has(place) {
        add_label(text, place)?;
        add(text, b":\n")
    } else {
        Ok(())
    }
}

fn add_meaning(text: &mut Vec<u8>, words: &[Remark], end: u64) -> Result<(), NoMemory>
    ensures { OnOk result (text.new.items ≡ text.old.items ++ meaning words.now end) }
{
    match words {
        [] => Ok(()),
        [first, ..] => add_first_meaning(text, first, end),
    }
}

// Adds what a word means, if it ends at the place.
fn add_first_meaning(text: &mut Vec<u8>, word: &Remark, end: u64) -> Result<(), NoMemory>
    ensures { OnOk result (text.new.items ≡ text.old.items ++ meaning (word.now ∷ []) end) }
{
    if end >= 2 && word.place == end - 2 {
        add(text, b" ")?;
        add(text, word.text.as_slice())
    } else {
        Ok(())
    }
}

// Adds what a comment tells of a line.
fn add_comment(
    text: &mut Vec<u8>,
    code: &[u8],
    words: &[Remark],
    line: &Line,
) -> Result<(), NoMemory>
    ensures { OnOk result (text.new.items ≡ text.old.items ++ comment_text code.now words.now line.now) }
{
    add(text, b" ; ")?;
    add_four_hex(text, line.place)?;
    add_hex_bytes(text, line_bytes(code, line))?;
    add_meaning(text, words, u64::from(line.place) + u64::from(line.size))?;
    add(text, b"\n")
}

fn add_line(
    text: &mut Vec<u8>,
    code: &[u8],
    begun: &Places,
    referred: &Places,
    words: &[Remark],
    line: &Line,
) -> Result<(), NoMemory>
    requires shown { IsShown line.now.shown }
    ensures { OnOk result (text.new.items ≡ text.old.items ++ line_text code.now begun.now.among referred.now.among words.now line.now) }
{
    add_label_line(text, referred, line.place)?;
    add(text, b" ")?;
    add_shown(text, code, begun, &line.shown, line.place)?;
    add_comment(text, code, words, line)
}

// ---- all lines

fn add_lines(
    text: &mut Vec<u8>,
    code: &[u8],
    begun: &Places,
    referred: &Places,
    notes: &[Remark],
    words: &[Remark],
    lines: &[Line],
) -> Result<(), NoMemory>
    requires shown { All (λ l. IsShown l.shown) lines.now }
    ensures { OnOk result (text.new.items ≡ text.old.items ++ lines_text code.now begun.now.among referred.now.among notes.now words.now lines.now) }
{
    let mut notes_left = notes;
    let mut words_left = words;
    for k in 0..lines.len() {
        let place = u64::from(lines[k].place);
        notes_left = add_due(text, place, notes_left)?;
        words_left = from_place(place, words_left);
        add_line(text, code, begun, referred, words_left, &lines[k])?;
    }
    add_remarks(text, notes_left)
}

// Adds the text of lines.
fn add_code(
    text: &mut Vec<u8>,
    alloc: Global,
    code: &[u8],
    notes: &[Remark],
    words: &[Remark],
    lines: &[Line],
) -> Result<(), NoMemory>
    requires shown { All (λ l. IsShown l.shown) lines.now }
    ensures { OnOk result (text.new.items ≡ text.old.items
        ++ lines_text code.now (begun_places lines.now) (referred_places lines.now) notes.now words.now
        lines.now) }
{
    let begun = Places::new(alloc, begun_places(alloc, lines)?)?;
    let referred = Places::new(alloc, referred_places(alloc, lines)?)?;
    add_lines(text, code, &begun, &referred, notes, words, lines)
}

// The text of lines.
fn text_of(
    alloc: Global,
    code: &[u8],
    notes: &[Remark],
    words: &[Remark],
    lines: &[Line],
) -> Result<Vec<u8>, NoMemory>
    requires shown { All (λ l. IsShown l.shown) lines.now }
    ensures { IfOk result (λ text. text.items ≡ listing code.now lines.now notes.now words.now) }
{
    let mut text = Vec::new(alloc);
    add(&mut text, b"cpu 8086\n")?;
    add(&mut text, b"bits 16\n")?;
    add(&mut text, b"org 0\n")?;
    add_code(&mut text, alloc, code, notes, words, lines)?;
    Ok(text)
}

// The places of relocated words and of other words of data.
fn word_places(alloc: Global, words: &[Remark], others: &[u64]) -> Result<List<u64>, NoMemory>
    ensures { IfOk result (λ places. places ≡ map (λ w. w.place) words.now ++ others.now) }
{
    let mut places = remark_places(alloc, words)?;
    for k in 0..others.len() {
        places.push(others[k])?;
    }
    Ok(places)
}

// The lines of code.
fn code_lines(
    alloc: Global,
    code: &[u8],
    words: &[Remark],
    others: &[u64],
) -> Result<List<Line>, NoMemory>
    requires few { length code.now ≤ 65536 }
    ensures { IfOk result (λ lines. AreLines code.now (map (λ w. w.place) words.now ++ others.now) lines) }
{
    let places = Places::new(alloc, word_places(alloc, words, others)?)?;
    lines_of(alloc, code, &places)
}

/// The text of code, with notes, relocated words and the places of other words of data, each in order of its place.
pub(crate) fn listing_text(
    alloc: Global,
    code: &[u8],
    notes: &[Remark],
    words: &[Remark],
    others: &[u64],
) -> Result<Vec<u8>, NoMemory>
    requires few { length code.now ≤ 65536 }
    ensures { IfOk result (λ text. IsListing code.now notes.now words.now others.now text.items) }
{
    let lines = code_lines(alloc, code, words, others)?;
    text_of(alloc, code, notes, words, lines.as_slice())
}
