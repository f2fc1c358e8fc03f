//! The lines of a source text, as a listing shows them.
ghost use Rattle.std.specs.Prelude.{◌≡◌, ◌≤◌, ◌++◌, ◌∷◌, ◌-◌, map, length, take, drop, slice_index_or, IfOk, OnOk};
ghost use Rattle.cw_listing.specs.Remarks.{line_starts, printed, line_length, line_shown, source_line};

use cw_word::{List, NoMemory};
use std::alloc::Global;

/// Where the lines of a source begin.
pub(crate) fn line_starts(alloc: Global, source: &[u8]) -> Result<List<u64>, NoMemory>
    ensures { IfOk result (λ starts. starts ≡ line_starts source.now) }
{
    let mut starts = List::new(alloc);
    starts.push(0)?;
    for k in 0..source.len() {
        if source[k] == 10 {
            starts.push(k as u64 + 1)?;
        }
    }
    Ok(starts)
}

// How a byte is shown in a comment.
fn printed(byte: u8) -> u8
    ensures { result ≡ printed byte }
{
    if byte < 32 {
        32
    } else if byte > 126 {
        63
    } else if byte == 92 {
        63
    } else {
        byte
    }
}

fn add_printed(text: &mut Vec<u8>, bytes: &[u8]) -> Result<(), NoMemory>
    ensures { OnOk result (text.new.items ≡ text.old.items ++ map printed bytes.now) }
{
    for k in 0..bytes.len() {
        text.push(printed(bytes[k])).map_err(|_| NoMemory)?;
    }
    Ok(())
}

fn line_length(text: &[u8]) -> usize
    ensures length { result ≡ line_length text.now }
    ensures fits { result ≤ length text.now }
{
    for k in 0..text.len() {
        if text[k] == 10 {
            return k;
        }
    }
    text.len()
}

// The first bytes, so many at most.
fn front(line: &[u8], width: usize) -> &[u8]
    ensures { result.now ≡ take width line.now }
{
    if width < line.len() {
        &line[..width]
    } else {
        line
    }
}

fn behind(source: &[u8], start: u64) -> &[u8]
    ensures { result.now ≡ drop start source.now }
{
    if start <= source.len() as u64 {
        &source[start as usize..]
    } else {
        &[]
    }
}

fn add_line_shown(text: &mut Vec<u8>, source: &[u8], start: u64) -> Result<(), NoMemory>
    ensures { OnOk result (text.new.items ≡ text.old.items ++ line_shown source.now start) }
{
    // (a line may be as long as the text: its end is looked for among the bytes that are shown)
    let shown = front(behind(source, start), 100);
    let length = line_length(shown);
    add_printed(text, front(shown, length))
}

fn line_start(source: &[u8], starts: &[u64], line: u16) -> u64
    ensures { result ≡ slice_index_or starts.now (line - 1) (length source.now) }
{
    match starts.get(line.saturating_sub(1) as usize) {
        Some(start) => *start,
        None => source.len() as u64,
    }
}

/// Adds the line of a number from 1.
pub(crate) fn add_source_line(
    text: &mut Vec<u8>,
    source: &[u8],
    starts: &[u64],
    line: u16,
) -> Result<(), NoMemory>
    ensures { OnOk result (text.new.items ≡ text.old.items ++ source_line source.now starts.now line) }
{
    add_line_shown(text, source, line_start(source, starts, line))
}
