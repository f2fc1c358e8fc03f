//! What the types of a text come to, in words.
use crate::tests::rows::{text_of, told_of};
use cw_compile::{Refusal, UnitFault, unit};
use cw_type::check::TypeFault;
use std::alloc::{AllocError, Global};

/// The most bytes of a source text.
const TEXT_LIMIT: usize = 1_048_576;

// The code of the rule that is broken, and the line.
fn code_and_line(fault: &TypeFault) -> (u8, u32) {
    match fault {
        TypeFault::WrongArgs { line } => (b'1', *line),
        TypeFault::ScaleRange { line } => (b'2', *line),
        TypeFault::FieldRange { line } => (b'3', *line),
        TypeFault::BadBounds { line } => (b'4', *line),
        TypeFault::BadOverlay { line } => (b'5', *line),
        TypeFault::BadPreset { line } => (b'6', *line),
        TypeFault::TooMany { line } => (b'7', *line),
        TypeFault::NumberRange { line } => (b'8', *line),
        TypeFault::NoMemory => (b'?', 0),
    }
}

fn is_fault(fault: &TypeFault, told: &[u8]) -> bool {
    let (code, line) = code_and_line(fault);
    told == [b'Y', code, b' ', b'0' + (line % 10) as u8].as_slice()
}

fn comes_of(alloc: Global, text: &[u8], told: &[u8]) -> bool {
    if text.len() > TEXT_LIMIT {
        return told == b"no text".as_slice();
    }
    match unit(alloc, text) {
        Ok(_) => told == b"ok".as_slice(),
        Err(UnitFault::Refused(Refusal::Typing(fault))) => is_fault(&fault, told),
        Err(_) => told == b"no text".as_slice(),
    }
}

/// Whether the types of a row's text come to what is told: `ok`, the rule that is broken first with its line, or that it is refused before its types.
pub fn comes(alloc: Global, row: &str) -> Result<bool, AllocError> {
    let text = text_of(alloc, row)?;
    Ok(comes_of(alloc, &text, told_of(row)))
}
