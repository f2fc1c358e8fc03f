// The lines that tell the faults of texts.
ghost use Rattle.std.specs.Prelude.{◌≡◌, ◌++◌, decimal, codes};
ghost use Rattle.cw_write.specs.Said.{Writes};
ghost use Rattle.cw_say.specs.Closing.{fault_line, named_line, lexical_line, expansion_line, syntax_line, scope_line, type_line, refusal_line, left_out};

use cw_compile::{Refusal, TypeFault};
use cw_grammar::fault::ParseFault;
use cw_io::{Failed, Sink};
use cw_lex::{LexFault, Word};
use cw_macro::MacroFault;
use cw_scope::resolve::ScopeFault;
use cw_word::Name;
use cw_write::write_line;

// Writes the name of a file, a line in it, and the name of what is wrong there.
fn write_fault<S: Sink>(say: &mut S, file: &[u8], line: u32, name: &[u8]) -> Result<(), Failed>
    ensures { Writes (S.held say.old) (S.held say.new) (S.faults say.old) (S.faults say.new) (file.now ++ fault_line line name.now) result }
{
    let mut buffer = itoa::Buffer::new();
    let digits = buffer.format(line);
    write_line(say, &[file, b":", digits.as_bytes(), b": ", name, b"\n"])
}

// The same, with what more is told of it.
fn write_named<S: Sink>(
    say: &mut S,
    file: &[u8],
    line: u32,
    name: &[u8],
    what: &[u8],
) -> Result<(), Failed>
    ensures { Writes (S.held say.old) (S.held say.new) (S.faults say.old) (S.faults say.new) (file.now ++ named_line line name.now what.now) result }
{
    let mut buffer = itoa::Buffer::new();
    let digits = buffer.format(line).as_bytes();
    write_named_parts(say, file, digits, name, what)
}

fn write_named_parts<S: Sink>(
    say: &mut S,
    file: &[u8],
    line: &[u8],
    name: &[u8],
    what: &[u8],
) -> Result<(), Failed>
    ensures { Writes (S.held say.old) (S.held say.new) (S.faults say.old) (S.faults say.new)
        (file.now ++ (codes ":"
        ++ (line.now ++ (codes ": " ++ (name.now ++ (codes " " ++ (what.now ++ codes "\n"))))))) result }
{
    write_line(say, &[file, b":", line, b": ", name, b" ", what, b"\n"])
}

fn write_at_token<S: Sink>(
    say: &mut S,
    file: &[u8],
    line: u32,
    name: &[u8],
    token: u32,
) -> Result<(), Failed>
    ensures { Writes (S.held say.old) (S.held say.new) (S.faults say.old) (S.faults say.new) (file.now ++ named_line line name.now (decimal token)) result }
{
    let mut buffer = itoa::Buffer::new();
    let digits = buffer.format(token).as_bytes();
    write_named(say, file, line, name, digits)
}

fn write_lexical<S: Sink>(say: &mut S, file: &[u8], fault: &LexFault) -> Result<(), Failed>
    ensures { Writes (S.held say.old) (S.held say.new) (S.faults say.old) (S.faults say.new) (file.now ++ lexical_line fault.now) result }
{
    match fault {
        LexFault::BadChar { line } => write_fault(say, file, *line, b"L1 BadChar"),
        LexFault::OpenString { line } => write_fault(say, file, *line, b"L2 OpenString"),
        LexFault::BadNumber { line } => write_fault(say, file, *line, b"L3 BadNumber"),
        LexFault::LongName { line } => write_fault(say, file, *line, b"L4 LongName"),
        LexFault::OpenComment { line } => write_fault(say, file, *line, b"L5 OpenComment"),
        LexFault::NoMemory => write_fault(say, file, 0, b"NoMemory"),
    }
}

fn write_expansion<S: Sink>(say: &mut S, file: &[u8], fault: &MacroFault) -> Result<(), Failed>
    ensures { Writes (S.held say.old) (S.held say.new) (S.faults say.old) (S.faults say.new) (file.now ++ expansion_line fault.now) result }
{
    match fault {
        MacroFault::BadDefine { line } => write_fault(say, file, *line, b"M1 BadDefine"),
        MacroFault::BadCall { line } => write_fault(say, file, *line, b"M2 BadCall"),
        MacroFault::TooDeep { line } => write_fault(say, file, *line, b"M3 TooDeep"),
        MacroFault::TooLong { line } => write_fault(say, file, *line, b"M4 TooLong"),
        MacroFault::NoSuchMacro { line } => write_fault(say, file, *line, b"M5 NoSuchMacro"),
        MacroFault::NoMemory => write_fault(say, file, 0, b"NoMemory"),
    }
}

// The words of what this profile leaves out.
fn left_out(word: Word) -> &'static [u8]
    ensures { result.now ≡ left_out word }
{
    match word {
        Word::Floating => b"FLOATING",
        Word::Code => b"CODE",
        Word::External => b"EXTERNAL",
        _ => b"",
    }
}

fn write_syntax<S: Sink>(say: &mut S, file: &[u8], fault: &ParseFault) -> Result<(), Failed>
    ensures { Writes (S.held say.old) (S.held say.new) (S.faults say.old) (S.faults say.new) (file.now ++ syntax_line fault.now) result }
{
    match fault {
        ParseFault::Syntax { token, line } => {
            write_at_token(say, file, *line, b"S1 Syntax", *token)
        }
        ParseFault::NestTooDeep { token, line } => {
            write_at_token(say, file, *line, b"S2 NestTooDeep", *token)
        }
        ParseFault::LeftOut { word, line } => {
            write_named(say, file, *line, b"S3 LeftOut", left_out(*word))
        }
        ParseFault::NoMemory => write_fault(say, file, 0, b"NoMemory"),
    }
}

fn write_at_name<S: Sink>(
    say: &mut S,
    file: &[u8],
    line: u32,
    name: &[u8],
    what: &Name,
) -> Result<(), Failed>
    ensures { Writes (S.held say.old) (S.held say.new) (S.faults say.old) (S.faults say.new) (file.now ++ named_line line name.now what.now) result }
{
    write_named(say, file, line, name, what.bytes())
}

fn write_scope<S: Sink>(say: &mut S, file: &[u8], fault: &ScopeFault) -> Result<(), Failed>
    ensures { Writes (S.held say.old) (S.held say.new) (S.faults say.old) (S.faults say.new) (file.now ++ scope_line fault.now) result }
{
    match fault {
        ScopeFault::Undeclared { name, line } => {
            write_at_name(say, file, *line, b"N1 Undeclared", name)
        }
        ScopeFault::Twice { name, line } => { write_at_name(say, file, *line, b"N2 Twice", name) }
        ScopeFault::WrongKind { name, line } => {
            write_at_name(say, file, *line, b"N3 WrongKind", name)
        }
        ScopeFault::SpecDiffers { name, line } => {
            write_at_name(say, file, *line, b"N4 SpecDiffers", name)
        }
        ScopeFault::NoMemory => write_fault(say, file, 0, b"NoMemory"),
    }
}

fn write_typing<S: Sink>(say: &mut S, file: &[u8], fault: &TypeFault) -> Result<(), Failed>
    ensures { Writes (S.held say.old) (S.held say.new) (S.faults say.old) (S.faults say.new) (file.now ++ type_line fault.now) result }
{
    match fault {
        TypeFault::WrongArgs { line } => write_fault(say, file, *line, b"Y1 WrongArgs"),
        TypeFault::ScaleRange { line } => write_fault(say, file, *line, b"Y2 ScaleRange"),
        TypeFault::FieldRange { line } => write_fault(say, file, *line, b"Y3 FieldRange"),
        TypeFault::BadBounds { line } => write_fault(say, file, *line, b"Y4 BadBounds"),
        TypeFault::BadOverlay { line } => write_fault(say, file, *line, b"Y5 BadOverlay"),
        TypeFault::BadPreset { line } => write_fault(say, file, *line, b"Y6 BadPreset"),
        TypeFault::TooMany { line } => write_fault(say, file, *line, b"Y7 TooMany"),
        TypeFault::NumberRange { line } => write_fault(say, file, *line, b"Y8 NumberRange"),
        TypeFault::NoMemory => write_fault(say, file, 0, b"NoMemory"),
    }
}

/// Writes the first fault of the text of a file.
pub(crate) fn write_refusal<S: Sink>(
    say: &mut S,
    file: &[u8],
    refusal: &Refusal,
) -> Result<(), Failed>
    ensures { Writes (S.held say.old) (S.held say.new) (S.faults say.old) (S.faults say.new) (file.now ++ refusal_line refusal.now) result }
{
    match refusal {
        Refusal::Lex(fault) => write_lexical(say, file, fault),
        Refusal::Macro(fault) => write_expansion(say, file, fault),
        Refusal::Parse(fault) => write_syntax(say, file, fault),
        Refusal::Scope(fault) => write_scope(say, file, fault),
        Refusal::Typing(fault) => write_typing(say, file, fault),
    }
}
