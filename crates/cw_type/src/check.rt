//! Checks the types of a text.
ghost use Rattle.std.specs.Prelude.{◌≡◌, Some, None, IfOk};
ghost use Rattle.cw_judge.specs.Judged.{first_type_fault};
ghost use Rattle.cw_type.specs.Outcome.{TellsFault, Judges};

use cw_items::text::StoredText;
use cw_judge::text::judge_text;
use cw_scale::fault::{Fault, Rule};
use std::alloc::Global;

/// The first fault of the types of a text.
#[derive(Clone, Copy)]
pub enum TypeFault {
    /// A call with another number of arguments than parameters, or with an argument that its parameter does not take.
    WrongArgs { line: u32 },
    /// A number type out of range, or a quotient whose scale is.
    ScaleRange { line: u32 },
    /// A field that is not within one word, or a word outside its entry.
    FieldRange { line: u32 },
    /// Bounds out of order, a size of 0, more than 32,768 words, or an address above 32,767.
    BadBounds { line: u32 },
    /// An OVERLAY on what is not declared before, with wrong indexes, or in COMMON on what is not.
    BadOverlay { line: u32 },
    /// Too many places, a value that does not fit, presets of two kinds, or of something in a frame.
    BadPreset { line: u32 },
    /// More parameters, labels, operators or words than there may be.
    TooMany { line: u32 },
    /// A number that does not fit its place, or is none that can stand there.
    NumberRange { line: u32 },
    NoMemory,
}

fn type_fault(fault: &Fault) -> TypeFault
    ensures { TellsFault result fault.now }
{
    let line = fault.at.line;
    match fault.rule {
        Rule::WrongArgs => TypeFault::WrongArgs { line },
        Rule::ScaleRange => TypeFault::ScaleRange { line },
        Rule::FieldRange => TypeFault::FieldRange { line },
        Rule::BadBounds => TypeFault::BadBounds { line },
        Rule::BadOverlay => TypeFault::BadOverlay { line },
        Rule::BadPreset => TypeFault::BadPreset { line },
        Rule::TooMany => TypeFault::TooMany { line },
        Rule::NumberRange => TypeFault::NumberRange { line },
    }
}

/// Refuses a text whose types break a rule, with the first fault.
pub fn check_types(alloc: Global, text: &StoredText) -> Result<(), TypeFault>
    ensures { Judges text.now result }
{
    match judge_text(alloc, text) {
        Ok(first) => match first {
            None => Ok(()),
            Some(fault) => Err(type_fault(&fault)),
        },
        Err(_) => Err(TypeFault::NoMemory),
    }
}
