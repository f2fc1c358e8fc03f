//! The texts of tables that have a row a line, and what is told of them.
use cw_checks_rows::repeated;
use cw_lex::{Token, lex};
use cw_macro::{MOST_BYTES, expand};
use cw_parse::{ParseFault, parse};
use cw_tree::segment::Raw;
use std::alloc::{AllocError, Global};

/// What is left of what a row tells.
#[derive(Clone, Copy)]
pub struct Left<'a> {
    left: &'a [u8],
}

impl<'a> Left<'a> {
    /// All of it.
    pub fn new(told: &'a [u8]) -> Left<'a> {
        Left { left: told }
    }

    /// Takes this piece off its front, where it stands there.
    pub fn takes(&mut self, piece: &[u8]) -> bool {
        match self.left.strip_prefix(piece) {
            Some(rest) => {
                self.left = rest;
                true
            }
            None => false,
        }
    }

    /// Takes the last digit of a line.
    pub fn takes_line(&mut self, line: u32) -> bool {
        self.takes(&[b'0' + (line % 10) as u8])
    }

    /// Whether nothing is left.
    pub fn is_empty(&self) -> bool {
        self.left.is_empty()
    }
}

/// Bytes where a line feed stands for each of these.
pub fn with_lines(alloc: Global, given: &[u8], mark: u8) -> Result<Vec<u8>, AllocError> {
    let mut text = given.to_vec(alloc)?;
    for byte in text.as_mut_slice() {
        if *byte == mark {
            *byte = b'\n';
        }
    }
    Ok(text)
}

fn front(form: u8) -> &'static [u8] {
    match form {
        b'b' => b"SEGMENT A BEGIN ",
        b'l' =>
            b"LIBRARY (INTEGER PROCEDURE READBYTE; PROCEDURE WRITEBYTE(VALUE INTEGER)); SEGMENT A BEGIN ",
        _ => b"",
    }
}

fn back(form: u8) -> &'static [u8] {
    match form {
        b'b' | b'l' => b" END FINISH",
        _ => b"",
    }
}

// A text from its form and what a row gives of it.
fn formed(alloc: Global, form: u8, given: &[u8]) -> Result<Vec<u8>, AllocError> {
    let given = with_lines(alloc, given, b'^')?;
    repeated(alloc, &[(front(form), 1), (&given, 1), (back(form), 1)])
}

/// The text of a row, which has a letter, the text with a `^` for each line feed, a question mark, and what is told of the text. Under
/// `t` that is the whole text, under `b` what stands in a segment's outermost block, and under `l` what stands in that of a segment
/// whose LIBRARY lists READBYTE and WRITEBYTE.
pub fn text_of(alloc: Global, row: &str) -> Result<Vec<u8>, AllocError> {
    let Some((given, _)) = row.split_once('?') else {
        return Err(AllocError);
    };
    match given.as_bytes() {
        [form, given @ ..] => formed(alloc, *form, given),
        [] => Ok(Vec::new(alloc)),
    }
}

/// What a row tells of its text.
pub fn told_of(row: &str) -> &[u8] {
    match row.split_once('?') {
        Some((_, told)) => told.as_bytes(),
        None => b"",
    }
}

fn parsed_tokens(alloc: Global, tokens: &[Token<'_>]) -> Option<Result<Raw, ParseFault>> {
    if tokens.len() > 65535 {
        return None;
    }
    Some(parse(alloc, tokens))
}

/// The tree of a text or the fault of its tokens, where it has tokens and not too many.
pub fn parsed(alloc: Global, text: &[u8]) -> Option<Result<Raw, ParseFault>> {
    if text.len() > MOST_BYTES {
        return None;
    }
    let Ok(tokens) = lex(alloc, text) else {
        return None;
    };
    match expand(alloc, tokens.as_slice()) {
        Ok(expanded) => parsed_tokens(alloc, expanded.as_slice()),
        Err(_) => None,
    }
}
