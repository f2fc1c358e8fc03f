// The lines of the storage map.
ghost use Rattle.std.specs.Prelude.{◌≡◌, ◌++◌, ◌≤◌, codes, OnOk};
ghost use Rattle.cw_list.specs.Listing.{digit, five_digits, kind_name, unnamed, owner_name, name_or_line, sign, row_line, row_lines, frames_line};

use crate::row::Row;
use cw_unit::layout::Limits;
use cw_unit::unit::ItemKind;
use cw_word::NoMemory;

fn digit(n: u32) -> u8
    ensures { result ≡ digit n }
{
    b'0' + (n % 10) as u8
}

#[tactic(auto, unfolding(crate::specs::Listing::five_digits))]
fn five_digits(n: u32) -> [u8; 5]
    ensures { result ≡ five_digits n }
{
    [
        digit(n / 10000),
        digit(n / 1000),
        digit(n / 100),
        digit(n / 10),
        digit(n),
    ]
}

fn kind_name(kind: ItemKind) -> &'static [u8]
    ensures { result.now ≡ kind_name kind }
{
    match kind {
        ItemKind::Single => b"WORD",
        ItemKind::Array => b"ARRAY",
        ItemKind::Table => b"TABLE",
        ItemKind::Text => b"STRING",
        ItemKind::Loop => b"LOOP",
    }
}

/// What stands for the name of an item that has none, before its line.
pub fn unnamed(kind: ItemKind) -> &'static [u8]
    ensures { result.now ≡ unnamed kind }
{
    match kind {
        ItemKind::Loop => b"FOR@",
        _ => b"STRING@",
    }
}

/// Adds bytes to a text.
pub fn add(text: &mut Vec<u8>, piece: &[u8]) -> Result<(), NoMemory>
    ensures { OnOk result (text.new.items ≡ text.old.items ++ piece.now) }
{
    text.extend_from_slice(piece).map_err(|_| NoMemory)
}

fn add_number(text: &mut Vec<u8>, number: u32) -> Result<(), NoMemory>
    ensures { OnOk result (text.new.items ≡ text.old.items ++ five_digits number) }
{
    let digits = five_digits(number);
    add(text, &digits)
}

fn add_owner(text: &mut Vec<u8>, row: &Row) -> Result<(), NoMemory>
    ensures { OnOk result (text.new.items ≡ text.old.items ++ owner_name row.now) }
{
    if row.common {
        return add(text, b"COMMON");
    }
    add(text, row.segment.bytes())?;
    match &row.procedure {
        Some(procedure) => {
            add(text, b".")?;
            add(text, procedure.bytes())
        }
        None => Ok(()),
    }
}

fn add_name(text: &mut Vec<u8>, row: &Row) -> Result<(), NoMemory>
    ensures { OnOk result (text.new.items ≡ text.old.items ++ name_or_line row.now.name row.now.kind row.now.line) }
{
    match &row.name {
        Some(name) => add(text, name.bytes()),
        None => {
            add(text, unnamed(row.kind))?;
            let mut buffer = itoa::Buffer::new();
            let digits = buffer.format(row.line);
            add(text, digits.as_bytes())
        }
    }
}

fn add_sign(text: &mut Vec<u8>, frame: bool) -> Result<(), NoMemory>
    ensures { OnOk result (text.new.items ≡ text.old.items ++ sign frame) }
{
    if frame { add(text, b"+") } else { Ok(()) }
}

fn add_row(text: &mut Vec<u8>, row: &Row) -> Result<(), NoMemory>
    ensures { OnOk result (text.new.items ≡ text.old.items ++ row_line row.now) }
{
    add_sign(text, row.frame)?;
    add_number(text, row.address)?;
    add(text, b" ")?;
    add_number(text, row.words)?;
    add(text, b" ")?;
    add_owner(text, row)?;
    add(text, b".")?;
    add_name(text, row)?;
    add(text, b" ")?;
    add(text, kind_name(row.kind))?;
    add(text, b"\n")
}

/// Adds the lines of items in this order.
pub(crate) fn add_rows(text: &mut Vec<u8>, rows: &[Row]) -> Result<(), NoMemory>
    ensures { OnOk result (text.new.items ≡ text.old.items ++ row_lines rows.now) }
{
    for k in 0..rows.len() {
        add_row(text, &rows[k])?;
    }
    Ok(())
}

/// Adds the line of the frame area.
pub(crate) fn add_frames(text: &mut Vec<u8>, limits: &Limits) -> Result<(), NoMemory>
    requires { limits.now.frames ≤ limits.now.area }
    ensures { OnOk result (text.new.items ≡ text.old.items ++ frames_line limits.now) }
{
    add_number(text, limits.area - limits.frames)?;
    add(text, b" ")?;
    add_number(text, limits.frames)?;
    add(text, b" FRAMES\n")
}
