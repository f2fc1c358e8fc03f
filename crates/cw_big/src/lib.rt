//! The texts of a large program.
#![tactic(auto)]

ghost use Rattle.std.specs.Prelude.{◌≡◌, ◌++◌, decimal, OnOk, IfOk};
ghost use Rattle.cw_big.specs.LargeProgram.{total_written, large_text};

pub mod laws;

use cw_word::NoMemory;
use std::alloc::Global;

fn put(text: &mut Vec<u8>, piece: &[u8]) -> Result<(), NoMemory>
    ensures { OnOk result (text.new.items ≡ text.old.items ++ piece.now) }
{
    text.extend_from_slice(piece).map_err(|_| NoMemory)
}

fn put_number(text: &mut Vec<u8>, number: u8) -> Result<(), NoMemory>
    ensures { OnOk result (text.new.items ≡ text.old.items ++ decimal number) }
{
    let mut buffer = itoa::Buffer::new();
    put(text, buffer.format(number).as_bytes())
}

fn total_written(is_last: bool) -> &'static [u8]
    ensures { result.now ≡ total_written is_last }
{
    if is_last {
        b";\nWRITEBYTE(48 + TOTAL / 1000);\nWRITEBYTE(48 + TOTAL / 100 - 10 * (TOTAL / 1000));\nWRITEBYTE(48 + TOTAL / 10 - 10 * (TOTAL / 100));\nWRITEBYTE(48 + TOTAL - 10 * (TOTAL / 10));\nWRITEBYTE(10)"
    } else {
        b""
    }
}

/// The text of the segment with this number; the last one writes the total.
pub fn large_text(alloc: Global, number: u8, is_last: bool) -> Result<Vec<u8>, NoMemory>
    ensures { IfOk result (λ text. text.items ≡ large_text number is_last) }
{
    let mut text = Vec::new(alloc);
    put(
        &mut text,
        b"COMMON (INTEGER TOTAL);\nLIBRARY (PROCEDURE WRITEBYTE(VALUE INTEGER));\nSEGMENT B",
    )?;
    put_number(&mut text, number)?;
    put(
        &mut text,
        b"\nBEGIN\nINTEGER J;\nINTEGER ARRAY A[0:99];\nFOR J := 0 STEP 1 UNTIL 99 DO A[J] := J * ",
    )?;
    put_number(&mut text, number)?;
    put(
        &mut text,
        b";\nFOR J := 0 STEP 1 UNTIL 99 DO TOTAL := (TOTAL + A[J]) MASK 4095",
    )?;
    put(&mut text, total_written(is_last))?;
    put(&mut text, b"\nEND\nFINISH\n")?;
    Ok(text)
}
