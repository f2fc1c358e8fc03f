//! Text that grows piece by piece: numbers, operands, instructions.
ghost use Rattle.std.specs.Prelude.{◌≡◌, ◌<◌, ◌≤◌, ◌+◌, ◌^◌, ◌++◌, codes, decimal, flat_map, OnOk};
ghost use Rattle.cw_i86.specs.Encoding.{IsInstr, bytes_of};
ghost use Rattle.cw_nasm.specs.Assembly.{hex_digit, two_hex, four_hex, signed_text, label_of};
ghost use Rattle.cw_nasm.specs.Assembly.{width_text, segment_text, near_size, far_size, place_text};
ghost use Rattle.cw_nasm.specs.Assembly.{operand_text, behind, operation_text, hex_byte, next_byte, bytes_text, text_by_bytes, assembly_text};

use crate::names::{form, register};
use crate::operation::{Operand, Width, is_given_back, mnemonic, operands};
use cw_enc86::encode;
use cw_i86::{Instr, Mem, Place};
use cw_word::NoMemory;

/// Adds a piece of text.
pub fn add(text: &mut Vec<u8>, piece: &[u8]) -> Result<(), NoMemory>
    ensures { OnOk result (text.new.items ≡ text.old.items ++ piece.now) }
{
    text.extend_from_slice(piece).map_err(|_| NoMemory)
}

/// Adds a number in decimals.
pub fn add_decimal(text: &mut Vec<u8>, number: u32) -> Result<(), NoMemory>
    ensures { OnOk result (text.new.items ≡ text.old.items ++ decimal number) }
{
    let mut buffer = itoa::Buffer::new();
    let digits = buffer.format(number);
    add(text, digits.as_bytes())
}

fn hex_digit(n: u8) -> u8
    requires { n < 16 }
    ensures { result ≡ hex_digit n }
{
    if n < 10 { 48 + n } else { 55 + n }
}

/// Adds a byte as two hexadecimal digits.
#[tactic(auto, unfolding(crate::specs::Assembly::two_hex))]
pub fn add_two_hex(text: &mut Vec<u8>, byte: u8) -> Result<(), NoMemory>
    ensures { OnOk result (text.new.items ≡ text.old.items ++ two_hex byte) }
{
    let digits = [hex_digit(byte / 16 % 16), hex_digit(byte % 16)];
    add(text, &digits)
}

/// Adds a word as four hexadecimal digits.
#[tactic(auto, unfolding(crate::specs::Assembly::four_hex))]
pub fn add_four_hex(text: &mut Vec<u8>, word: u16) -> Result<(), NoMemory>
    ensures { OnOk result (text.new.items ≡ text.old.items ++ four_hex word) }
{
    let digits = [
        hex_digit((word / 4096 % 16) as u8),
        hex_digit((word / 256 % 16) as u8),
        hex_digit((word / 16 % 16) as u8),
        hex_digit((word % 16) as u8),
    ];
    add(text, &digits)
}

/// Adds the label of a place.
pub fn add_label(text: &mut Vec<u8>, place: u16) -> Result<(), NoMemory>
    ensures { OnOk result (text.new.items ≡ text.old.items ++ label_of place) }
{
    add(text, b"at_")?;
    add_four_hex(text, place)
}

// A number of a byte or a word with its sign, where half is half of what the width holds.
fn add_signed(text: &mut Vec<u8>, half: u32, number: u32) -> Result<(), NoMemory>
    requires half { half ≤ 2 ^ 15 }
    requires number { number < half + half }
    ensures { OnOk result (text.new.items ≡ text.old.items ++ signed_text half number) }
{
    if number < half {
        add(text, b"+")?;
        add_decimal(text, number)
    } else {
        add(text, b"-")?;
        add_decimal(text, half + half - number)
    }
}

fn width_text(width: Width) -> &'static [u8]
    ensures { result.now ≡ width_text width }
{
    match width {
        Width::Unsaid => &[],
        Width::Byte => b"byte ",
        Width::Word => b"word ",
    }
}

fn segment_text(cs: bool) -> &'static [u8]
    ensures { result.now ≡ segment_text cs }
{
    if cs { b"cs:" } else { &[] }
}

fn near_size(by: u8) -> &'static [u8]
    ensures { result.now ≡ near_size by }
{
    if by == 0 { b"byte " } else { &[] }
}

fn far_size(by: u16) -> &'static [u8]
    ensures { result.now ≡ far_size by }
{
    if by < 128 || by >= 65408 {
        b"word "
    } else {
        &[]
    }
}

fn add_place(text: &mut Vec<u8>, cs: bool, place: Place) -> Result<(), NoMemory>
    ensures { OnOk result (text.new.items ≡ text.old.items ++ place_text cs place) }
{
    match place {
        Place::Direct(at) => {
            add(text, segment_text(cs))?;
            add_decimal(text, u32::from(at))
        }
        Place::Plain(rm) => {
            add(text, segment_text(cs))?;
            add(text, form(rm))
        }
        Place::Near(rm, by) => {
            add(text, near_size(by))?;
            add(text, segment_text(cs))?;
            add(text, form(rm))?;
            add_signed(text, 0x80, u32::from(by))
        }
        Place::Far(rm, by) => {
            add(text, far_size(by))?;
            add(text, segment_text(cs))?;
            add(text, form(rm))?;
            add_signed(text, 0x8000, u32::from(by))
        }
    }
}

fn add_memory(text: &mut Vec<u8>, width: Width, mem: Mem) -> Result<(), NoMemory>
    ensures { OnOk result (text.new.items ≡ text.old.items ++ operand_text (Operand.Memory width mem)) }
{
    add(text, width_text(width))?;
    add(text, b"[")?;
    add_place(text, mem.cs, mem.place)?;
    add(text, b"]")
}

fn add_strict(text: &mut Vec<u8>, word: u16) -> Result<(), NoMemory>
    ensures { OnOk result (text.new.items ≡ text.old.items ++ operand_text (Operand.StrictWord word)) }
{
    add(text, b"strict ")?;
    add(text, b"word ")?;
    add_decimal(text, u32::from(word))
}

fn add_operand(text: &mut Vec<u8>, operand: Operand) -> Result<(), NoMemory>
    ensures { OnOk result (text.new.items ≡ text.old.items ++ operand_text operand) }
{
    match operand {
        Operand::Nothing => Ok(()),
        Operand::Register { wide, reg } => add(text, register(wide, reg)),
        Operand::Memory { width, mem } => add_memory(text, width, mem),
        Operand::Number(number) => add_decimal(text, u32::from(number)),
        Operand::StrictWord(word) => add_strict(text, word),
        Operand::Signed(byte) => add_signed(text, 0x80, u32::from(byte)),
        Operand::Label(place) => add_label(text, place),
    }
}

// Adds an operand behind a mark, if there is one.
fn add_behind(text: &mut Vec<u8>, mark: &[u8], operand: Operand) -> Result<(), NoMemory>
    ensures { OnOk result (text.new.items ≡ text.old.items ++ behind mark.now operand) }
{
    match operand {
        Operand::Nothing => Ok(()),
        other => {
            add(text, mark)?;
            add_operand(text, other)
        }
    }
}

// Adds the name and the operands of an instruction.
fn add_operation(text: &mut Vec<u8>, instr: &Instr, place: u16) -> Result<(), NoMemory>
    ensures { OnOk result (text.new.items ≡ text.old.items ++ operation_text instr.now place) }
{
    let (first, second) = operands(instr, place);
    add(text, mnemonic(instr))?;
    add_behind(text, b" ", first)?;
    add_behind(text, b",", second)
}

fn add_hex_byte(text: &mut Vec<u8>, byte: u8) -> Result<(), NoMemory>
    ensures { OnOk result (text.new.items ≡ text.old.items ++ hex_byte byte) }
{
    add(text, b"0x")?;
    add_two_hex(text, byte)
}

fn add_next_byte(text: &mut Vec<u8>, byte: u8) -> Result<(), NoMemory>
    ensures { OnOk result (text.new.items ≡ text.old.items ++ next_byte byte) }
{
    add(text, b",")?;
    add_hex_byte(text, byte)
}

fn add_more_bytes(text: &mut Vec<u8>, bytes: &[u8]) -> Result<(), NoMemory>
    ensures { OnOk result (text.new.items ≡ text.old.items ++ flat_map next_byte bytes.now) }
{
    for k in 0..bytes.len() {
        add_next_byte(text, bytes[k])?;
    }
    Ok(())
}

/// Adds bytes as they stand, by `db`.
pub fn add_bytes(text: &mut Vec<u8>, bytes: &[u8]) -> Result<(), NoMemory>
    ensures { OnOk result (text.new.items ≡ text.old.items ++ bytes_text bytes.now) }
{
    match bytes {
        [] => Ok(()),
        [first, more @ ..] => {
            add(text, b"db ")?;
            add_hex_byte(text, *first)?;
            add_more_bytes(text, more)
        }
    }
}

fn add_encoded(text: &mut Vec<u8>, instr: &Instr) -> Result<(), NoMemory>
    requires { IsInstr instr.now }
    ensures { OnOk result (text.new.items ≡ text.old.items ++ bytes_text (bytes_of instr.now)) }
{
    let mut buffer = [0; 7];
    let size = encode(instr, &mut buffer);
    add_bytes(text, &buffer[..size])
}

/// Adds an instruction by its bytes, with its name and operands in a comment.
#[tactic(auto, unfolding(crate::specs::Assembly::text_by_bytes))]
pub fn add_by_bytes(text: &mut Vec<u8>, instr: &Instr, place: u16) -> Result<(), NoMemory>
    requires { IsInstr instr.now }
    ensures { OnOk result (text.new.items ≡ text.old.items ++ text_by_bytes instr.now place) }
{
    add_encoded(text, instr)?;
    add(text, b" ; ")?;
    add_operation(text, instr, place)
}

/// Adds the text of an instruction at a place.
#[tactic(auto, unfolding(crate::specs::Assembly::assembly_text))]
pub fn add_instruction(text: &mut Vec<u8>, instr: &Instr, place: u16) -> Result<(), NoMemory>
    requires { IsInstr instr.now }
    ensures { OnOk result (text.new.items ≡ text.old.items ++ assembly_text instr.now place) }
{
    if is_given_back(instr, place) {
        add_operation(text, instr, place)
    } else {
        add_by_bytes(text, instr, place)
    }
}
